use crate::words::{dict_of, tree_of};
use dict_proof::write_dict;
use hist_proof::write_pruned;
use serde_json::Value;
use std::alloc::Global;
use vector_cases::{CaseFault, Cases, DocumentFault, Tally, bytes_of, field};

/// Bytes that spell a history tree, or none.
#[derive(Drop)]
struct TreeBytes {
    spell: bool,
}

/// Bytes that spell an access list, or none.
#[derive(Drop)]
struct ListBytes {
    spell: bool,
}

impl Cases for TreeBytes {
    fn is_same(&mut self, alloc: Global, case: &Value) -> Result<bool, CaseFault> {
        let Some(tree) = tree_of(alloc, case)? else {
            return Ok(!self.spell);
        };
        let written = write_pruned(alloc, &tree)?;
        Ok(self.spell && written.as_slice() == bytes_of(alloc, case)?.as_slice())
    }
}

impl Cases for ListBytes {
    fn is_same(&mut self, alloc: Global, case: &Value) -> Result<bool, CaseFault> {
        let Some(list) = dict_of(alloc, case)? else {
            return Ok(!self.spell);
        };
        let written = write_dict(alloc, &list)?;
        Ok(self.spell && written.as_slice() == bytes_of(alloc, case)?.as_slice())
    }
}

fn compare_both<R: Print, C: Cases>(
    rt: &R,
    alloc: Global,
    bytes: &Value,
    spellings: &mut C,
    others: &mut C,
) -> Result<u64, DocumentFault> {
    let mut tally = Tally::new(alloc, "bytes");
    match (field(bytes, "spellings"), field(bytes, "no_spellings")) {
        (Ok(spell), Ok(none)) => {
            tally.add(spell, spellings)?;
            tally.add(none, others)?;
        }
        (Err(cause), _) | (_, Err(cause)) => return Err(tally.fault(cause)),
    }
    tally.tell(rt)
}

/// Whether a document has one of the parts.
fn has_any(document: &Value, parts: &[&str]) -> bool {
    parts.iter().any(|part| document.get(*part).is_some())
}

/// Compares the spellings of a document: of lists where it has parts of lists and none of trees, and else of trees.
pub fn compare<R: Print>(rt: &R, alloc: Global, document: &Value) -> Result<u64, DocumentFault> {
    let Some(bytes) = document.get("bytes") else {
        return Ok(0);
    };
    let trees = has_any(document, &["trees", "prunings", "parts", "short_clashes"]);
    if !trees && has_any(document, &["changes", "least"]) {
        let (mut spellings, mut others) = (ListBytes { spell: true }, ListBytes { spell: false });
        return compare_both(rt, alloc, bytes, &mut spellings, &mut others);
    }
    let (mut spellings, mut others) = (TreeBytes { spell: true }, TreeBytes { spell: false });
    compare_both(rt, alloc, bytes, &mut spellings, &mut others)
}
