ghost use Rattle.fr_bytes.specs.Reading.{Gives, GivesAll, all_of, piece_at};
ghost use Rattle.fr_bytes.specs.Parts.{limited_at};
ghost use Rattle.hist_proof.specs.Pruned.{Tree};
ghost use Rattle.hist_proof.specs.Spelling.{Spells, hidden_at, leaf_at, pruned_at, tree_at};
ghost use Rattle.hist_proof.specs.View.{tree_view};
ghost use Rattle.std.specs.Prelude.{◌≡◌, IfOk, IsErrOf, length};

use crate::cuts::{node, single};
use crate::limits::{HIDDEN_TAG, LEAF_BYTES_MAX, LEAF_TAG, LEVELS_MAX, NODE_TAG, SINGLE_TAG};
use crate::pruned::Pruned;
use fr_bytes::{Bytes, Cur, ReadRefusal};
use fr_digest::Dig;
use std::alloc::Global;

/// A copy of 32 bytes.
fn dig_of(bytes: &[u8]) -> Dig
    requires { length bytes.now ≡ 32 }
    ensures { result ≡ bytes.now }
{
    let mut dig = [0; 32];
    dig.copy_from_slice(bytes);
    dig
}

/// What stands behind the tag of a hidden part.
#[tactic(auto, unfolding(crate::specs::Spelling::hidden_at))]
fn hidden_at(cur: &mut Cur<'_>) -> Result<Pruned, ReadRefusal>
    ensures { Gives tree_view result cur.new (hidden_at cur.old) }
{
    let bytes = cur.take(32)?;
    Ok(Pruned::Hidden(dig_of(bytes)))
}

/// A counted text of a limited length.
#[tactic(auto, unfolding(fr_bytes::specs::Parts::limited_at))]
fn limited_at(alloc: Global, cur: &mut Cur<'_>, limit: u32) -> Result<Bytes, ReadRefusal>
    ensures { Gives (λ x. x) result cur.new (limited_at limit cur.old) }
{
    let bytes = cur.counted()?;
    if bytes.len() > limit as usize {
        return Err(ReadRefusal::NotForm);
    }
    Ok(Bytes::of(Vec::from_slice(alloc, bytes)?))
}

/// What stands behind the tag of a leaf.
#[tactic(auto, unfolding(crate::specs::Spelling::leaf_at))]
fn leaf_at(alloc: Global, cur: &mut Cur<'_>) -> Result<Pruned, ReadRefusal>
    ensures { Gives tree_view result cur.new (leaf_at cur.old) }
{
    let text = limited_at(alloc, cur, LEAF_BYTES_MAX)?;
    Ok(Pruned::Leaf(text))
}

/// A pruned tree of no more than `levels` levels of nodes.
#[tactic(auto, using(crate::proofs::Tags::read_steps))]
fn tree_at(alloc: Global, cur: &mut Cur<'_>, levels: u32) -> Result<Pruned, ReadRefusal>
    ensures { Gives tree_view result cur.new (tree_at levels cur.old) }
{
    let tag = cur.u8()?;
    match tag {
        HIDDEN_TAG => hidden_at(cur),
        LEAF_TAG => leaf_at(alloc, cur),
        NODE_TAG => {
            if levels == 0 {
                return Err(ReadRefusal::NotForm);
            }
            let left = tree_at(alloc, cur, levels - 1)?;
            let right = tree_at(alloc, cur, levels - 1)?;
            Ok(node(alloc, left, right)?)
        }
        SINGLE_TAG => {
            if levels == 0 {
                return Err(ReadRefusal::NotForm);
            }
            let left = tree_at(alloc, cur, levels - 1)?;
            Ok(single(alloc, left)?)
        }
        _ => Err(ReadRefusal::NotForm),
    }
}

#[tactic(auto, unfolding(crate::specs::Spelling::pruned_at))]
fn whole_tree(alloc: Global, bytes: &[u8]) -> Result<Pruned, ReadRefusal>
    ensures { GivesAll tree_view result (all_of pruned_at bytes.now) }
{
    let mut cur = Cur::new(bytes);
    let tree = tree_at(alloc, &mut cur, LEVELS_MAX)?;
    if cur.left() > 0 {
        return Err(ReadRefusal::NotForm);
    }
    Ok(tree)
}

/// The pruned tree that `bytes` spell, all of them. `NotForm` comes exactly where they spell none: at an
/// eleventh level of nodes, at a leaf of more than 65,535 bytes, at another tag, where bytes are missing or left
/// over. No more than ten levels are walked, whatever the bytes are.
pub fn read_pruned(alloc: Global, bytes: &[u8]) -> Result<Pruned, ReadRefusal>
    ensures found { IfOk result (λ p. Spells (tree_view p) bytes.now) }
    ensures not_form { IsErrOf result ReadRefusal.NotForm → (p : Tree) → Spells p bytes.now → ⊥ }
    ensures exact { GivesAll tree_view result (all_of pruned_at bytes.now) }
{
    whole_tree(alloc, bytes)
}
