use msg_form::{Decline, Verdict};
use script_form::{CommandEnd, KeysEnd};
use serde_json::Value;
use vector_cases::{CaseFault, byte_at, field, number_at, small_at, word_at};

/// How a command ended, at `end` with its numbers beside it.
pub fn end_of(case: &Value) -> Result<CommandEnd, CaseFault> {
    match word_at(case, "end")? {
        "accepted" => accepted(case),
        "same" => Ok(CommandEnd::Same {
            size: number_at(case, "size")?,
        }),
        "refused" => refused(case),
        "rejected" => Ok(CommandEnd::Rejected(verdict_of(case)?)),
        "lost" => Ok(CommandEnd::Lost),
        "declined" => Ok(CommandEnd::Declined(decline_named(word_at(case, "decline")?)?)),
        _ => Err(CaseFault::NoValue("an end of a command")),
    }
}

fn accepted(case: &Value) -> Result<CommandEnd, CaseFault> {
    Ok(CommandEnd::Accepted {
        size: number_at(case, "size")?,
        from: number_at(case, "from")?,
    })
}

fn refused(case: &Value) -> Result<CommandEnd, CaseFault> {
    Ok(CommandEnd::Refused {
        cause: byte_at(case, "cause")?,
        number: number_at(case, "number")?,
    })
}

/// How the exchange for keys ended, at `keys`: missing where it was fine, `lost`, or a verdict.
pub fn keys_of(case: &Value) -> Result<KeysEnd, CaseFault> {
    match case.get("keys") {
        None => Ok(KeysEnd::Fine),
        Some(keys) if keys.is_string() => Ok(KeysEnd::Lost),
        Some(keys) => Ok(KeysEnd::Rejected(verdict_of(keys)?)),
    }
}

// ---- verdicts and declines, by their names

fn verdict_of(case: &Value) -> Result<Verdict, CaseFault> {
    match word_at(case, "verdict")? {
        "TooFewVouch" => too_few_vouch(case),
        "KeysMissing" => keys_missing(case),
        "StaleEpoch" => stale_epoch(case),
        "Replayed" => replayed(case),
        name if case.get("at").is_some() => placed_verdict(name, number_at(case, "at")?),
        name => plain_verdict(name),
    }
}

fn too_few_vouch(case: &Value) -> Result<Verdict, CaseFault> {
    Ok(Verdict::TooFewVouch {
        found: small_at(case, "found")?,
        needed: small_at(case, "needed")?,
    })
}

fn keys_missing(case: &Value) -> Result<Verdict, CaseFault> {
    Ok(Verdict::KeysMissing {
        found: number_at(case, "found")?,
        needed: number_at(case, "needed")?,
    })
}

fn stale_epoch(case: &Value) -> Result<Verdict, CaseFault> {
    Ok(Verdict::StaleEpoch {
        at: number_at(case, "at")?,
        now: number_at(case, "now")?,
    })
}

fn replayed(case: &Value) -> Result<Verdict, CaseFault> {
    Ok(Verdict::Replayed {
        at: number_at(case, "at")?,
        next: small_at(case, "next")?,
    })
}

/// A verdict of a position, which has no further number.
fn placed_verdict(name: &str, at: u64) -> Result<Verdict, CaseFault> {
    match name {
        "BadAuthorSignature" => Ok(Verdict::BadAuthorSignature { at }),
        "BadDictProof" => Ok(Verdict::BadDictProof { at }),
        "NotAllowed" => Ok(Verdict::NotAllowed { at }),
        "BadChange" => Ok(Verdict::BadChange { at }),
        "LateView" => Ok(Verdict::LateView { at }),
        "BadView" => Ok(Verdict::BadView { at }),
        "WrongAfter" => Ok(Verdict::WrongAfter { at }),
        _ => Err(CaseFault::NoValue("a verdict of a position")),
    }
}

/// A verdict of the whole reply, which has no number.
fn plain_verdict(name: &str) -> Result<Verdict, CaseFault> {
    match name {
        "Garbled" => Ok(Verdict::Garbled),
        "WrongWall" => Ok(Verdict::WrongWall),
        "BadServerSignature" => Ok(Verdict::BadServerSignature),
        "Shorter" => Ok(Verdict::Shorter),
        "Forked" => Ok(Verdict::Forked),
        "BadFrom" => Ok(Verdict::BadFrom),
        "BadShape" => Ok(Verdict::BadShape),
        "RootMismatch" => Ok(Verdict::RootMismatch),
        "Missing" => Ok(Verdict::Missing),
        _ => Err(CaseFault::NoValue("a verdict")),
    }
}

fn decline_named(name: &str) -> Result<Decline, CaseFault> {
    match name {
        "NotMember" => Ok(Decline::NotMember),
        "NotOwner" => Ok(Decline::NotOwner),
        "AlreadyIn" => Ok(Decline::AlreadyIn),
        "NotIn" => Ok(Decline::NotIn),
        "NoSlot" => Ok(Decline::NoSlot),
        _ => Err(CaseFault::NoValue("a decline")),
    }
}
