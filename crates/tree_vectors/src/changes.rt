use crate::words::{dict_of, entries_at, entry_of, is_list};
use dict_proof::{Change, DictEnd, Found, PrunedDict, apply, digest, find, keeps_author};
use fr_digest::Sha;
use serde_json::Value;
use std::alloc::Global;
use tree_extract::dict_clash;
use tree_model::{Entry, dict_digest};
use vector_cases::{
    CaseFault, Cases, byte_of, dig_at, field, flag_at, list_of, small_at, small_of,
};

/// Operations on pruned access lists.
#[derive(Drop)]
pub struct Changes;

impl Cases for Changes {
    fn is_same(&mut self, alloc: Global, case: &Value) -> Result<bool, CaseFault> {
        let Some(list) = dict_of(alloc, field(case, "list")?)? else {
            return Ok(false);
        };
        if digest::<Sha>(&list) != dig_at(case, "digest")? || !are_found(&list, case)? {
            return Ok(false);
        }
        Ok(prunes_so(alloc, &list, case)? && is_left(alloc, list, case)?)
    }
}

/// Whether the list prunes the case's entries as the case says, where it says it.
fn prunes_so(alloc: Global, list: &PrunedDict, case: &Value) -> Result<bool, CaseFault> {
    if case.get("prunes").is_none() {
        return Ok(true);
    }
    Ok(prunes(alloc, list, case)? == flag_at(case, "prunes")?)
}

fn prunes(alloc: Global, list: &PrunedDict, case: &Value) -> Result<bool, CaseFault> {
    let entries = entries_at(alloc, case)?;
    if entries.is_empty() || digest::<Sha>(list) != dict_digest::<Sha>(&entries) {
        return Ok(false);
    }
    Ok(dict_clash::<Sha>(alloc, list, &entries)?.is_none())
}

// ---- look-ups

fn is_found(list: &PrunedDict, user: &str, answer: &Value) -> Result<bool, CaseFault> {
    let Ok(user) = user.parse::<u32>() else {
        return Err(CaseFault::NoValue("a user's number"));
    };
    let found = find(list, user);
    if answer.is_null() {
        return Ok(found == Found::Absent);
    }
    if answer.as_str() == Some("Hid") {
        return Ok(found == Found::Hid);
    }
    Ok(found == Found::Entry(entry_of(answer)?))
}

fn are_found(list: &PrunedDict, case: &Value) -> Result<bool, CaseFault> {
    let Some(answers) = field(case, "find")?.as_object() else {
        return Err(CaseFault::NoValue("an object"));
    };
    for (user, answer) in answers {
        if !is_found(list, user.as_str(), answer)? {
            return Ok(false);
        }
    }
    Ok(true)
}

// ---- operations

fn inserted(user: &Value, role: &Value) -> Result<Change, CaseFault> {
    Ok(Change::Insert(Entry {
        user: small_of(user)?,
        role: byte_of(role)?,
        next: 0,
    }))
}

/// A change: `null`, `["insert", USER, ROLE]` or `["remove", USER]`.
pub fn change_of(value: &Value) -> Result<Change, CaseFault> {
    if value.is_null() {
        return Ok(Change::None);
    }
    match list_of(value)? {
        [verb, user, role] if verb.as_str() == Some("insert") => inserted(user, role),
        [verb, user] if verb.as_str() == Some("remove") => Ok(Change::Remove(small_of(user)?)),
        _ => Err(CaseFault::NoValue("a change")),
    }
}

/// Whether the value is what an operation left: `Hid` where it met a hidden part.
fn is_after(
    alloc: Global,
    left: Result<PrunedDict, DictEnd>,
    wanted: &Value,
) -> Result<bool, CaseFault> {
    let hid = wanted.as_str() == Some("Hid");
    match left {
        Ok(_) if hid => Ok(false),
        Ok(list) => is_list(alloc, &list, wanted),
        Err(DictEnd::Hid) => Ok(hid),
        Err(DictEnd::NoMemory) => Err(CaseFault::NoMemory),
    }
}

fn is_left(alloc: Global, list: PrunedDict, case: &Value) -> Result<bool, CaseFault> {
    let author = small_at(case, "author")?;
    let next = small_at(case, "next")?;
    let change = change_of(field(case, "change")?)?;
    if !keeps_author(&list, author, change) {
        return Err(CaseFault::NoValue("a change that keeps its author"));
    }
    let left = apply(alloc, list, author, next, change);
    is_after(alloc, left, field(case, "after")?)
}
