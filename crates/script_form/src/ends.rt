ghost use Rattle.std.specs.Prelude.{◌≡◌, ◌++◌, OnOk, codes};
ghost use Rattle.std.specs.String.{string_bytes};
ghost use Rattle.script_form.specs.Report.{cause_name, cause_number, at_text, detail_text, verdict_text, end_text, keys_line};

use crate::outcome::{CommandEnd, KeysEnd};
use crate::put::{put, put_number};
use fr_bytes::NoMemory;
use msg_form::{Detail, Verdict};

fn cause_name(cause: u8) -> &'static str
    ensures { result.now ≡ cause_name cause }
{
    match cause {
        1 => "WrongWall",
        2 => "NotAllowed",
        3 => "StaleEpoch",
        4 => "Replayed",
        5 => "BadChange",
        6 => "LateView",
        7 => "BadSignature",
        8 => "BadView",
        9 => "Full",
        _ => "BadRequest",
    }
}

#[tactic(auto, unfolding(crate::specs::Report::cause_number))]
fn put_cause_number(out: &mut String, cause: u8, number: u64) -> Result<(), NoMemory>
    ensures { OnOk result (string_bytes out.new ≡ string_bytes out.old ++ cause_number cause number) }
{
    match cause {
        3 => put_number(out, " now ", number),
        4 => put_number(out, " next ", number),
        _ => Ok(()),
    }
}

#[tactic(auto, unfolding(crate::specs::Report::at_text))]
fn put_at(out: &mut String, position: Option<u64>) -> Result<(), NoMemory>
    ensures { OnOk result (string_bytes out.new ≡ string_bytes out.old ++ at_text position) }
{
    match position {
        Some(at) => put_number(out, " at ", at),
        None => Ok(()),
    }
}

#[tactic(auto, unfolding(crate::specs::Report::detail_text))]
fn put_detail(out: &mut String, detail: Detail) -> Result<(), NoMemory>
    ensures { OnOk result (string_bytes out.new ≡ string_bytes out.old ++ detail_text detail) }
{
    match detail {
        Detail::Nothing => {}
        Detail::Now { now } => put_number(out, " now ", now)?,
        Detail::Next { next } => put_number(out, " next ", next)?,
        Detail::Counts { found, needed } => {
            put_number(out, " found ", found)?;
            put_number(out, " needed ", needed)?;
        }
    }
    Ok(())
}

/// The verdict's name, then its position, then its numbers.
#[tactic(auto, unfolding(crate::specs::Report::verdict_text))]
fn put_verdict(out: &mut String, verdict: Verdict) -> Result<(), NoMemory>
    ensures { OnOk result (string_bytes out.new ≡ string_bytes out.old ++ verdict_text verdict) }
{
    put(out, verdict.name())?;
    put_at(out, verdict.position())?;
    put_detail(out, verdict.detail())?;
    Ok(())
}

fn put_refused(out: &mut String, cause: u8, number: u64) -> Result<(), NoMemory>
    ensures { OnOk result
        (string_bytes out.new ≡ string_bytes out.old ++ (codes "refused " ++ cause_name cause ++ cause_number cause number)) }
{
    put(out, "refused ")?;
    put(out, cause_name(cause))?;
    put_cause_number(out, cause, number)?;
    Ok(())
}

#[tactic(auto, unfolding(crate::specs::Report::end_text))]
pub(crate) fn put_end(out: &mut String, end: CommandEnd) -> Result<(), NoMemory>
    ensures { OnOk result (string_bytes out.new ≡ string_bytes out.old ++ end_text end) }
{
    match end {
        CommandEnd::Accepted { size, from } => {
            put_number(out, "accepted size ", size)?;
            put_number(out, " from ", from)?;
        }
        CommandEnd::Same { size } => put_number(out, "same size ", size)?,
        CommandEnd::Refused { cause, number } => put_refused(out, cause, number)?,
        CommandEnd::Rejected(verdict) => {
            put(out, "rejected ")?;
            put_verdict(out, verdict)?;
        }
        CommandEnd::Lost => put(out, "lost")?,
        CommandEnd::Declined(decline) => {
            put(out, "declined ")?;
            put(out, decline.name())?;
        }
    }
    Ok(())
}

/// A line where the exchange for keys was rejected or lost.
#[tactic(auto, unfolding(crate::specs::Report::keys_line))]
pub(crate) fn put_keys(out: &mut String, keys: KeysEnd) -> Result<(), NoMemory>
    ensures { OnOk result (string_bytes out.new ≡ string_bytes out.old ++ keys_line keys) }
{
    match keys {
        KeysEnd::Fine => {}
        KeysEnd::Rejected(verdict) => {
            put(out, "  keys rejected ")?;
            put_verdict(out, verdict)?;
            put(out, "\n")?;
        }
        KeysEnd::Lost => put(out, "  keys lost\n")?,
    }
    Ok(())
}
