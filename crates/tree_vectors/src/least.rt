ghost use Rattle.std.specs.Prelude.{◌≡◌, IsTrue, None};
ghost use Rattle.tree_model.specs.AccessList.{entry_of};

use crate::changes::change_of;
use crate::words::{self, is_list};
use dict_proof::{Change, DictEnd, PrunedDict, apply, digest, keeps_author};
use dict_treap::Dict;
use fr_digest::Sha;
use serde_json::Value;
use std::alloc::Global;
use tree_prune::{fits_change, prune_for};
use vector_cases::{CaseFault, Cases, dig_at, field, list_at, small_at};

/// The next number that the author gets in a case.
const NEXT: u32 = 7;

/// The least pruned lists for operations.
#[derive(Drop)]
pub struct Least;

impl Cases for Least {
    fn is_same(&mut self, alloc: Global, case: &Value) -> Result<bool, CaseFault> {
        let author = small_at(case, "author")?;
        let change = change_of(field(case, "change")?)?;
        let least = least_at(alloc, case, author, change)?;
        if !is_list(alloc, &least, field(case, "least")?)? {
            return Ok(false);
        }
        is_after(alloc, least, author, change, case)
    }
}

/// The least list of a case's entries for the change.
fn least_at(
    alloc: Global,
    case: &Value,
    author: u32,
    change: Change,
) -> Result<PrunedDict, CaseFault> {
    let dict = dict_at(alloc, case)?;
    if !fits_change(&dict, author, change) {
        return Err(CaseFault::NoValue("a change that fits the list"));
    }
    Ok(prune_for(alloc, &dict, author, change)?)
}

/// The list with a further entry.
fn with_entry(dict: &Dict<Sha>, value: &Value) -> Result<Dict<Sha>, CaseFault> {
    let entry = words::entry_of(value)?;
    if !is_free(dict, entry.user) {
        return Err(CaseFault::NoValue("one entry a user"));
    }
    Ok(dict.insert(entry)?)
}

/// The list of a case's entries.
fn dict_at(alloc: Global, case: &Value) -> Result<Dict<Sha>, CaseFault> {
    let Some((first, rest)) = list_at(case, "entries")?.split_first() else {
        return Err(CaseFault::NoValue("an entry"));
    };
    let mut dict = Dict::one(alloc, words::entry_of(first)?)?;
    for value in rest {
        dict = with_entry(&dict, value)?;
    }
    Ok(dict)
}

/// Whether a user isn't in a list.
fn is_free(dict: &Dict<Sha>, user: u32) -> bool
    ensures { IsTrue result → entry_of dict.now user ≡ None }
{
    match dict.get(user) {
        None => true,
        Some(_) => false,
    }
}

/// Whether the operation leaves of the list what has the case's digest.
fn is_after(
    alloc: Global,
    list: PrunedDict,
    author: u32,
    change: Change,
    case: &Value,
) -> Result<bool, CaseFault> {
    let wanted = dig_at(case, "after_with_next_7")?;
    if !keeps_author(&list, author, change) {
        return Ok(false);
    }
    match apply(alloc, list, author, NEXT, change) {
        Ok(left) => Ok(digest::<Sha>(&left) == wanted),
        Err(DictEnd::Hid) => Ok(false),
        Err(DictEnd::NoMemory) => Err(CaseFault::NoMemory),
    }
}
