ghost use Rattle.fr_digest.specs.Collision.{Collides};
ghost use Rattle.fr_digest.specs.Digest.{IsDigest};
ghost use Rattle.hist_proof.specs.Pruned.{Prunes, digest_of, fits, fits_at};
ghost use Rattle.hist_proof.specs.Shown.{HasDigests};
ghost use Rattle.hist_proof.specs.View.{tree_view};
ghost use Rattle.std.specs.Prelude.{◌≡◌, ◌<◌, ◌≤◌, ◌^◌, ◌↔◌, length, IfOk, IfSome, IsNone, IsOk, true};
ghost use Rattle.tree_extract.specs.Difference.{difference, tree_of};
ghost use Rattle.tree_extract.specs.NodeString.{found_strings};
ghost use Rattle.tree_extract.specs.PrunedDifference.{history_difference, pruned_tree};
ghost use Rattle.tree_model.specs.History.{depth, part, root};

use crate::lists::{Compared, clash_of, compare_nodes};
use crate::nodes::NodeString;
use fr_bytes::{Bytes, NoMemory, Texts};
use fr_digest::{Clash, Dig, Digester};
use hist_proof::Pruned;
use std::alloc::Global;
use tree_model::{depth_of, left_leaves, root_of};

/// Of a pruned tree of `size` leaves and a list of as many texts, of one root: `None` exactly where the tree prunes
/// the list, and else the strings of the first nodes in pre-order whose strings differ and whose digests agree, with
/// the pruned tree's string first.
///
/// Each node of the tree and each text is hashed once. Memory is taken for the two strings alone, so a pruning takes
/// none.
pub fn hist_clash<D: Digester>(
    alloc: Global,
    p: &Pruned,
    size: u64,
    texts: &Texts,
) -> Result<Option<Clash<D>>, NoMemory>
    requires fitting { fits (tree_view p.now) size ≡ true }
    requires lengths { length texts.now ≡ size }
    requires roots { digest_of D.digest_of (tree_view p.now) ≡ root D.digest_of texts.now (length texts.now) }
    ensures value { IfOk result (λ clash. clash ≡ history_difference D.digest_of (tree_view p.now) texts.now) }
    ensures none { IfOk result (λ clash. IsNone clash ↔ Prunes D.digest_of (tree_view p.now) texts.now) }
    ensures collides { IfOk result (λ clash. IfSome clash (Collides D.digest_of)) }
    ensures prunings_take_no_memory { Prunes D.digest_of (tree_view p.now) texts.now → IsOk result }
{
    match compare_all::<D>(p, size, texts.as_slice()).found {
        None => Ok(None),
        Some(found) => clash_of(alloc, &found),
    }
}

/// A pruned tree and the history tree of a list of its size.
fn compare_all<'a, D: Digester>(p: &'a Pruned, size: u64, texts: &'a [Bytes]) -> Compared<'a>
    requires fitting { fits (tree_view p.now) size ≡ true }
    requires lengths { length texts.now ≡ size }
    ensures found { found_strings result.found ≡ history_difference D.digest_of (tree_view p.now) texts.now }
    ensures held { HasDigests (tree_view p.now) }
{
    compare_parts::<D>(p, texts, depth_of(size))
}

/// The same digest: as every value of its type it has 32 bytes.
fn sized(digest: &Dig) -> Dig
    ensures value { result ≡ digest.now }
    ensures size { IsDigest result }
{
    *digest
}

/// The digest of the node of height `level` over the texts.
fn part_digest<D: Digester>(texts: &[Bytes], level: u32) -> Dig
    requires some { 0 < length texts.now }
    requires fits { length texts.now ≤ 2 ^ level }
    ensures { result ≡ part D.digest_of level texts.now }
{
    if level <= depth_of(texts.len() as u64) {
        return root_of::<D>(texts);
    }
    D::tagged(1, &[], &part_digest::<D>(texts, level - 1))
}

/// The nodes of height `level` of a pruned tree and over texts.
fn compare_parts<'a, D: Digester>(p: &'a Pruned, texts: &'a [Bytes], level: u32) -> Compared<'a>
    requires some { 0 < length texts.now }
    requires few { length texts.now ≤ 2 ^ level }
    requires levels { level ≤ 64 }
    requires fitting { fits_at level (tree_view p.now) (length texts.now) ≡ true }
    ensures a { result.a ≡ digest_of D.digest_of (tree_view p.now) }
    ensures b { result.b ≡ part D.digest_of level texts.now }
    ensures found { found_strings result.found
        ≡ difference D.digest_of (pruned_tree D.digest_of (tree_view p.now)) (tree_of D.digest_of level texts.now) }
    ensures held { HasDigests (tree_view p.now) }
{
    match p {
        Pruned::Hidden(digest) => Compared {
            a: sized(digest),
            b: part_digest::<D>(texts, level),
            found: None,
        },
        Pruned::Leaf(text) => compare_nodes::<D>(
            NodeString::Leaf(text.as_slice()),
            NodeString::Leaf(texts[0].as_slice()),
            None,
        ),
        Pruned::Single(left) => {
            let below = compare_parts::<D>(left, texts, level - 1);
            compare_nodes::<D>(
                NodeString::Single(below.a),
                NodeString::Single(below.b),
                below.found,
            )
        }
        Pruned::Node(left, right) => {
            let (front, back) = texts.split_at(left_leaves(level));
            let left = compare_parts::<D>(left, front, level - 1);
            let right = compare_parts::<D>(right, back, level - 1);
            compare_nodes::<D>(
                NodeString::Pair(left.a, right.a),
                NodeString::Pair(left.b, right.b),
                left.found.or(right.found),
            )
        }
    }
}
