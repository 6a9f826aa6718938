ghost use Rattle.std.specs.Prelude.{◌≡◌, ◌≤◌, IfOk};

use check_core::{Asked, Checked, Known, check, check_keys};
use fr_bytes::{Bytes, Sequence};
use fr_digest::Sha;
use lms_tree::{PublicKey, UserKeys};
use msg_form::{Detail, Verdict};
use op_types::Op;
use serde_json::Value;
use std::alloc::{AllocError, Global};
use vector_cases::{
    CaseFault, Cases, bytes_at, bytes_of, dig_at, field, number_at, small_at, word_at,
};

/// The keys that a document gives for its replies.
#[derive(Drop)]
pub struct Keys {
    server: PublicKey,
    users: UserKeys,
}

fn key_of(alloc: Global, value: &Value) -> Result<PublicKey, CaseFault> {
    let bytes = bytes_of(alloc, value)?;
    PublicKey::read(bytes.as_slice()).map_err(|_| CaseFault::NoValue("a public key"))
}

/// Adds the key under a user's number, where there is one.
fn put_key(
    alloc: Global,
    listed: &Value,
    user: u16,
    users: &mut Vec<(u32, PublicKey)>,
) -> Result<(), CaseFault> {
    let name = format!(in alloc; "{user}")?;
    let Some(key) = listed.get(name.as_str()) else {
        return Ok(());
    };
    match key_of(alloc, key) {
        Ok(key) => users.push((u32::from(user), key))?,
        Err(fault) => return Err(fault),
    }
    Ok(())
}

/// The users' keys, under their numbers.
fn users_of(alloc: Global, document: &Value) -> Result<UserKeys, CaseFault> {
    let listed = field(document, "users")?;
    let mut users = Vec::new(alloc);
    for user in 1..u16::MAX {
        put_key(alloc, listed, user, &mut users)?;
    }
    Ok(Sequence::of(users))
}

impl Keys {
    /// The keys at `users` and at `server`.
    pub fn of(alloc: Global, document: &Value) -> Result<Keys, CaseFault> {
        let users = users_of(alloc, document)?;
        match key_of(alloc, field(document, "server")?) {
            Ok(server) => Ok(Keys { server, users }),
            Err(fault) => Err(fault),
        }
    }

    /// What the client of a case knows.
    fn known(&self, case: &Value) -> Result<Known, CaseFault>
        ensures { IfOk result (λ known. known.f ≤ 31) }
    {
        let known = field(case, "known")?;
        let f = small_at(known, "f")?;
        if f > 31 {
            return Err(CaseFault::NoValue("a fear of at most 31"));
        }
        self.fearing(known, f)
    }

    fn fearing(&self, known: &Value, f: u32) -> Result<Known, CaseFault>
        ensures { IfOk result (λ known. known.f ≡ f) }
    {
        Ok(Known {
            wall: small_at(known, "wall")?,
            owner: small_at(known, "owner")?,
            f,
            server: self.server,
            users: self.users.copy()?,
            size: number_at(known, "size")?,
            root: dig_at(known, "root")?,
            epoch: number_at(known, "epoch")?,
        })
    }
}

/// What was sent, where it was an operation.
fn asked_of(alloc: Global, case: &Value) -> Result<Asked, CaseFault> {
    let sent = field(case, "asked")?;
    if sent.is_null() {
        return Ok(Asked::Look);
    }
    Ok(Asked::Append {
        op: Bytes::of(bytes_of(alloc, sent)?),
    })
}

// ---- answers in words

/// A verdict as a report prints it.
fn verdict_text(alloc: Global, verdict: Verdict) -> Result<String, AllocError> {
    let name = verdict.name();
    match verdict.position() {
        None => with_detail(alloc, format!(in alloc; "{name}")?, verdict.detail()),
        Some(at) => with_detail(
            alloc,
            format!(in alloc; "{name} at {at}")?,
            verdict.detail(),
        ),
    }
}

fn with_detail(alloc: Global, name: String, detail: Detail) -> Result<String, AllocError> {
    match detail {
        Detail::Nothing => Ok(name),
        Detail::Now { now } => format!(in alloc; "{name} now {now}"),
        Detail::Next { next } => format!(in alloc; "{name} next {next}"),
        Detail::Counts { found, needed } => {
            format!(in alloc; "{name} found {found} needed {needed}")
        }
    }
}

fn checked_text(alloc: Global, checked: &Checked) -> Result<String, AllocError> {
    match checked {
        Checked::Same { size } => format!(in alloc; "Same {size}"),
        Checked::Taken { view, from, .. } => {
            let size = view.size;
            format!(in alloc; "Taken {size} from {from}")
        }
        Checked::Refused { cause, number } => format!(in alloc; "Refused {cause} {number}"),
    }
}

/// `Changes` and the number of each.
fn changes_text(alloc: Global, changes: &[Op]) -> Result<String, AllocError> {
    let mut text = format!(in alloc; "Changes")?;
    for op in changes {
        let seq = op.seq;
        text = format!(in alloc; "{text} {seq}")?;
    }
    Ok(text)
}

/// Whether the answer is the case's, where spaces at its end don't count.
fn is_answer(found: Result<String, AllocError>, case: &Value) -> Result<bool, CaseFault> {
    let found = found?;
    Ok(found.as_str() == word_at(case, "answer")?.trim_end())
}

/// Replies to looks and operations.
#[derive(Drop)]
pub struct Replies {
    pub keys: Keys,
}

impl Cases for Replies {
    fn is_same(&mut self, alloc: Global, case: &Value) -> Result<bool, CaseFault> {
        let known = self.keys.known(case)?;
        let asked = asked_of(alloc, case)?;
        let reply = bytes_at(alloc, case, "reply")?;
        let text = match check::<Sha>(alloc, &known, &asked, reply.as_slice()) {
            Ok(checked) => checked_text(alloc, &checked),
            Err(verdict) => verdict_text(alloc, verdict),
        };
        is_answer(text, case)
    }
}

/// Replies with the changes of an access list.
#[derive(Drop)]
pub struct KeysReplies {
    pub keys: Keys,
}

impl Cases for KeysReplies {
    fn is_same(&mut self, alloc: Global, case: &Value) -> Result<bool, CaseFault> {
        let known = self.keys.known(case)?;
        let reply = bytes_at(alloc, case, "reply")?;
        let text = match check_keys::<Sha>(alloc, &known, reply.as_slice()) {
            Ok(changes) => changes_text(alloc, changes.as_slice()),
            Err(verdict) => verdict_text(alloc, verdict),
        };
        is_answer(text, case)
    }
}
