ghost use Rattle.fr_digest.specs.Collision.{Collides};
ghost use Rattle.std.specs.Option.{option_or};
ghost use Rattle.std.specs.Prelude.{◌≡◌, ◌<◌, ◌≤◌, ◌^◌, ◌↔◌, length, IfOk, IfSome, IsNone, IsOk, IsTrue};
ghost use Rattle.tree_extract.specs.Difference.{clash_at, difference, list_difference, tree_of};
ghost use Rattle.tree_extract.specs.NodeString.{IsShaped, found_strings, spelled, strings_of};
ghost use Rattle.tree_model.specs.History.{part, root};

use crate::nodes::{Found, NodeString};
use fr_bytes::{Bytes, NoMemory, Texts};
use fr_digest::{Clash, Dig, Digester};
use std::alloc::Global;
use tree_model::{depth_of, left_leaves};

/// Of two lists of one length and root: `None` exactly where they are equal, and else the strings of
/// the first nodes, in pre-order of their history trees, whose strings differ and whose digests agree,
/// with the first list's string first.
///
/// Equal lists are only compared: nothing of them is hashed. Of others no text is hashed twice. Memory is
/// taken for the two strings alone, so equal lists take none.
pub fn list_clash<D: Digester>(
    alloc: Global,
    a: &Texts,
    b: &Texts,
) -> Result<Option<Clash<D>>, NoMemory>
    requires some { 0 < length a.now }
    requires lengths { length a.now ≡ length b.now }
    requires roots { root D.digest_of a.now (length a.now) ≡ root D.digest_of b.now (length b.now) }
    ensures value { IfOk result (λ clash. clash ≡ list_difference D.digest_of a.now b.now) }
    ensures none { IfOk result (λ clash. IsNone clash ↔ (a.now ≡ b.now)) }
    ensures collides { IfOk result (λ clash. IfSome clash (Collides D.digest_of)) }
    ensures equal_take_no_memory { a.now ≡ b.now → IsOk result }
{
    slice_clash(alloc, a.as_slice(), b.as_slice())
}

/// [`list_clash`] of parts of lists, as of the first texts of a longer list.
pub fn slice_clash<D: Digester>(
    alloc: Global,
    a: &[Bytes],
    b: &[Bytes],
) -> Result<Option<Clash<D>>, NoMemory>
    requires some { 0 < length a.now }
    requires lengths { length a.now ≡ length b.now }
    requires roots { root D.digest_of a.now (length a.now) ≡ root D.digest_of b.now (length b.now) }
    ensures value { IfOk result (λ clash. clash ≡ list_difference D.digest_of a.now b.now) }
    ensures none { IfOk result (λ clash. IsNone clash ↔ (a.now ≡ b.now)) }
    ensures collides { IfOk result (λ clash. IfSome clash (Collides D.digest_of)) }
    ensures equal_take_no_memory { a.now ≡ b.now → IsOk result }
{
    if is_same(a, b) {
        return Ok(None);
    }
    match first_difference::<D>(a, b) {
        None => Ok(None),
        Some(found) => clash_of(alloc, &found),
    }
}

/// Whether both are one list of texts. Nothing is hashed.
fn is_same(a: &[Bytes], b: &[Bytes]) -> bool
    ensures { IsTrue result ↔ (a.now ≡ b.now) }
{
    a == b
}

/// The clash of two strings that differ and have one digest.
pub(crate) fn clash_of<D: Digester>(
    alloc: Global,
    found: &Found<'_>,
) -> Result<Option<Clash<D>>, NoMemory>
    requires { Collides D.digest_of (strings_of found.now) }
    ensures { IfOk result (λ clash. clash ≡ Some (strings_of found.now)) }
{
    let a = found.a.to_vec(alloc)?;
    let b = found.b.to_vec(alloc)?;
    Ok(Clash::new(a, b))
}

/// The first difference of the history trees of two lists of one length.
fn first_difference<'a, D: Digester>(a: &'a [Bytes], b: &'a [Bytes]) -> Option<Found<'a>>
    requires some { 0 < length a.now }
    requires lengths { length a.now ≡ length b.now }
    ensures { found_strings result ≡ list_difference D.digest_of a.now b.now }
{
    compare::<D>(a, b, depth_of(a.len() as u64)).found
}

/// Two nodes in the same place: their digests, and the first difference at them or below.
#[derive(Clone, Copy)]
pub(crate) struct Compared<'a> {
    pub(crate) a: Dig,
    pub(crate) b: Dig,
    pub(crate) found: Option<Found<'a>>,
}

/// The nodes of height `level` over two lists of one length.
fn compare<'a, D: Digester>(a: &'a [Bytes], b: &'a [Bytes], level: u32) -> Compared<'a>
    requires some { 0 < length a.now }
    requires lengths { length a.now ≡ length b.now }
    requires fits { length a.now ≤ 2 ^ level }
    requires levels { level ≤ 64 }
    ensures a { result.a ≡ part D.digest_of level a.now }
    ensures b { result.b ≡ part D.digest_of level b.now }
    ensures found { found_strings result.found
        ≡ difference D.digest_of (tree_of D.digest_of level a.now) (tree_of D.digest_of level b.now) }
{
    if level == 0 {
        return compare_nodes::<D>(
            NodeString::Leaf(a[0].as_slice()),
            NodeString::Leaf(b[0].as_slice()),
            None,
        );
    }
    let half = left_leaves(level);
    if a.len() <= half {
        let below = compare::<D>(a, b, level - 1);
        return compare_nodes::<D>(
            NodeString::Single(below.a),
            NodeString::Single(below.b),
            below.found,
        );
    }
    let (left_a, right_a) = a.split_at(half);
    let (left_b, right_b) = b.split_at(half);
    let left = compare::<D>(left_a, left_b, level - 1);
    let right = compare::<D>(right_a, right_b, level - 1);
    compare_nodes::<D>(
        NodeString::Pair(left.a, right.a),
        NodeString::Pair(left.b, right.b),
        left.found.or(right.found),
    )
}

/// Two nodes with these strings, over what was found below them: a difference of their own comes first.
#[tactic(auto, unfolding(crate::specs::Difference::clash_at))]
pub(crate) fn compare_nodes<'a, D: Digester>(
    a: NodeString<'a>,
    b: NodeString<'a>,
    below: Option<Found<'a>>,
) -> Compared<'a>
    requires shaped_a { IsShaped a }
    requires shaped_b { IsShaped b }
    ensures a { result.a ≡ D.digest_of (spelled a.entry) }
    ensures b { result.b ≡ D.digest_of (spelled b.entry) }
    ensures found { found_strings result.found
        ≡ option_or (clash_at D.digest_of (spelled a.entry) (spelled b.entry)) (found_strings below.entry) }
{
    let digest_a = a.digest::<D>();
    if a.is_same(&b) {
        return Compared {
            a: digest_a,
            b: digest_a,
            found: below,
        };
    }
    let digest_b = b.digest::<D>();
    let found = if digest_a == digest_b {
        Some(Found { a, b })
    } else {
        below
    };
    Compared {
        a: digest_a,
        b: digest_b,
        found,
    }
}
