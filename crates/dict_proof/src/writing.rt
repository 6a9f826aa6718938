ghost use Rattle.dict_proof.specs.Spelling.{IsSpelled, Spells, entry_text, flags_of, head_text, list_text};
ghost use Rattle.dict_proof.specs.View.{list_view, part_view};
ghost use Rattle.dict_proof.specs.declared.limits.TheConstants.{ENTRY_TAG};
ghost use Rattle.std.specs.Prelude.{◌≡◌, ◌++◌, ◌∷◌, IfOk, OnOk};

use crate::limits::{ENTRY_TAG, HIDDEN_TAG};
use crate::parts::Part;
use crate::pruned_dict::PrunedDict;
use fr_bytes::{Bytes, NoMemory, put_bytes, put_u8, put_u32};
use std::alloc::Global;
use tree_model::Entry;

/// Which parts there are: 1 for that of the smaller users, and 2 for that of the greater ones.
fn flags_of(left: &Part, right: &Part) -> u8
    ensures { result ≡ flags_of (part_view left.now) (part_view right.now) }
{
    match (left, right) {
        (None, None) => 0,
        (Some(_), None) => 1,
        (None, Some(_)) => 2,
        (Some(_), Some(_)) => 3,
    }
}

/// Appends the tag of an entry and the entry.
fn put_entry(out: &mut Vec<u8>, entry: &Entry) -> Result<(), NoMemory>
    ensures { OnOk result (out.new.items ≡ out.old.items ++ (ENTRY_TAG ∷ entry_text entry.now)) }
{
    put_u8(out, ENTRY_TAG)?;
    put_u32(out, entry.user)?;
    put_u8(out, entry.role)?;
    put_u32(out, entry.next)
}

/// Appends what stands in front of the parts of an entry.
#[tactic(auto, using(crate::proofs::Writings::writing_steps))]
fn put_head(out: &mut Vec<u8>, entry: &Entry, left: &Part, right: &Part) -> Result<(), NoMemory>
    ensures { OnOk result (out.new.items
        ≡ out.old.items ++ head_text entry.now (part_view left.now) (part_view right.now)) }
{
    put_entry(out, entry)?;
    put_u8(out, flags_of(left, right))
}

/// Appends the spelling of a part. One without entries has no bytes.
#[cycle(text)]
#[tactic(auto, unfolding(crate::specs::Spelling::list_text))]
fn put_part(out: &mut Vec<u8>, part: &Part) -> Result<(), NoMemory>
    ensures { OnOk result (out.new.items ≡ out.old.items ++ list_text (part_view part.now)) }
{
    match part {
        None => Ok(()),
        Some(list) => put_list(out, list),
    }
}

/// Appends the spelling of `p`.
#[cycle(text)]
#[tactic(auto, using(crate::proofs::Writings::list_texts), unfolding(crate::specs::Spelling::list_text))]
fn put_list(out: &mut Vec<u8>, p: &PrunedDict) -> Result<(), NoMemory>
    ensures { OnOk result (out.new.items ≡ out.old.items ++ list_text (list_view p.now)) }
{
    match p {
        PrunedDict::Hidden(digest) => {
            put_u8(out, HIDDEN_TAG)?;
            put_bytes(out, digest)
        }
        PrunedDict::Node { entry, left, right } => {
            put_head(out, entry, left, right)?;
            put_part(out, left)?;
            put_part(out, right)?;
            Ok(())
        }
    }
}

/// The spelling of `p`. It has one where it has no more than 40 levels, of which a hidden part is one, and each role
/// is 1, 2 or 3.
pub fn write_dict(alloc: Global, p: &PrunedDict) -> Result<Bytes, NoMemory>
    requires spelled { IsSpelled (list_view p.now) }
    ensures { IfOk result (λ bytes. Spells (list_view p.now) bytes) }
{
    let mut out = Vec::new(alloc);
    put_list(&mut out, p)?;
    Ok(Bytes::of(out))
}
