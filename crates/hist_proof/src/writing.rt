ghost use Rattle.hist_proof.specs.Spelling.{HasCounts, IsSpelled, Spells, tree_text};
ghost use Rattle.hist_proof.specs.View.{tree_view};
ghost use Rattle.std.specs.Prelude.{◌≡◌, ◌++◌, IfOk, OnOk};

use crate::limits::{HIDDEN_TAG, LEAF_TAG, NODE_TAG, SINGLE_TAG};
use crate::pruned::Pruned;
use fr_bytes::{Bytes, NoMemory, put_bytes, put_counted, put_u8};
use std::alloc::Global;

/// Appends the spelling of `p`.
#[tactic(auto, using(crate::proofs::Views::tree_views), unfolding(crate::specs::Spelling::HasCounts, crate::specs::Spelling::tree_text))]
fn put_tree(out: &mut Vec<u8>, p: &Pruned) -> Result<(), NoMemory>
    requires { HasCounts (tree_view p.now) }
    ensures { OnOk result (out.new.items ≡ out.old.items ++ tree_text (tree_view p.now)) }
{
    match p {
        Pruned::Hidden(digest) => {
            put_u8(out, HIDDEN_TAG)?;
            put_bytes(out, digest)
        }
        Pruned::Leaf(text) => {
            put_u8(out, LEAF_TAG)?;
            put_counted(out, text.as_slice())
        }
        Pruned::Node(left, right) => {
            put_u8(out, NODE_TAG)?;
            put_tree(out, left)?;
            put_tree(out, right)
        }
        Pruned::Single(left) => {
            put_u8(out, SINGLE_TAG)?;
            put_tree(out, left)
        }
    }
}

/// The spelling of `p`. It has one where it has no more than ten levels of nodes and no leaf of more than 65,535
/// bytes.
pub fn write_pruned(alloc: Global, p: &Pruned) -> Result<Bytes, NoMemory>
    requires { IsSpelled (tree_view p.now) }
    ensures { IfOk result (λ bytes. Spells (tree_view p.now) bytes) }
{
    let mut out = Vec::new(alloc);
    put_tree(&mut out, p)?;
    Ok(Bytes::of(out))
}
