ghost use Rattle.dict_proof.specs.Spelling as lists;
ghost use Rattle.dict_proof.specs.View.{list_view};
ghost use Rattle.hist_proof.specs.Spelling as trees;
ghost use Rattle.hist_proof.specs.View.{tree_view};
ghost use Rattle.std.specs.Prelude.{IfOk, IfSome};
ghost use Rattle.tree_model.specs.AccessList.{IsRising};

use dict_proof::{PrunedDict, is_spelled, read_dict, write_dict};
use fr_bytes::{Bytes, ReadRefusal, Texts};
use hist_proof::{Pruned, read_pruned};
use serde_json::Value;
use std::alloc::Global;
use tree_model::{Entry, add_entry};
use vector_cases::{CaseFault, byte_of, bytes_of, list_at, list_of, small_of};

/// The tree that bytes spell, where they spell one.
pub fn tree_of(alloc: Global, value: &Value) -> Result<Option<Pruned>, CaseFault>
    ensures { IfOk result (λ tree. IfSome tree (λ p. trees.IsSpelled (tree_view p))) }
{
    let bytes = bytes_of(alloc, value)?;
    match read_pruned(alloc, &bytes) {
        Ok(tree) => Ok(Some(tree)),
        Err(ReadRefusal::NotForm) => Ok(None),
        Err(ReadRefusal::NoMemory) => Err(CaseFault::NoMemory),
    }
}

/// The list that bytes spell, where they spell one.
pub fn dict_of(alloc: Global, value: &Value) -> Result<Option<PrunedDict>, CaseFault>
    ensures { IfOk result (λ list. IfSome list (λ p. lists.IsSpelled (list_view p))) }
{
    let bytes = bytes_of(alloc, value)?;
    match read_dict(alloc, &bytes) {
        Ok(list) => Ok(Some(list)),
        Err(ReadRefusal::NotForm) => Ok(None),
        Err(ReadRefusal::NoMemory) => Err(CaseFault::NoMemory),
    }
}

/// Whether the value spells this list.
pub fn is_list(alloc: Global, found: &PrunedDict, value: &Value) -> Result<bool, CaseFault> {
    let wanted = bytes_of(alloc, value)?;
    if !is_spelled(found) {
        return Ok(false);
    }
    Ok(write_dict(alloc, found)?.as_slice() == wanted.as_slice())
}

/// The texts that a field has.
pub fn texts_at(alloc: Global, case: &Value, name: &'static str) -> Result<Texts, CaseFault> {
    let mut texts = Vec::new(alloc);
    for text in list_at(case, name)? {
        texts.push(Bytes::of(bytes_of(alloc, text)?))?;
    }
    Ok(Texts::of(texts))
}

/// Whether both are one tree.
fn is_same(one: &Pruned, other: &Pruned) -> bool {
    match (one, other) {
        (Pruned::Hidden(one), Pruned::Hidden(other)) => one == other,
        (Pruned::Leaf(one), Pruned::Leaf(other)) => one == other,
        (Pruned::Node(one, a), Pruned::Node(other, b)) => is_same(one, other) && is_same(a, b),
        (Pruned::Single(one), Pruned::Single(other)) => is_same(one, other),
        _ => false,
    }
}

/// Whether the value spells this tree, and is `null` where there is none.
pub fn is_tree(alloc: Global, found: Option<Pruned>, value: &Value) -> Result<bool, CaseFault> {
    let Some(found) = found else {
        return Ok(value.is_null());
    };
    if value.is_null() {
        return Ok(false);
    }
    Ok(match tree_of(alloc, value)? {
        Some(wanted) => is_same(&found, &wanted),
        None => false,
    })
}

/// An entry: user, role and next number.
pub fn entry_of(value: &Value) -> Result<Entry, CaseFault> {
    let [user, role, next] = list_of(value)? else {
        return Err(CaseFault::NoValue("an entry"));
    };
    Ok(Entry {
        user: small_of(user)?,
        role: byte_of(role)?,
        next: small_of(next)?,
    })
}

/// The set of a case's entries.
pub fn entries_at(alloc: Global, case: &Value) -> Result<Vec<Entry>, CaseFault>
    ensures { IfOk result (λ set. IsRising set.items) }
{
    let mut set = Vec::new(alloc);
    for value in list_at(case, "entries")? {
        set = add_entry(alloc, &set, entry_of(value)?)?;
    }
    Ok(set)
}
