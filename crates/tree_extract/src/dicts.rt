ghost use Rattle.dict_proof.specs.View.{list_view, part_view};
ghost use Rattle.fr_digest.specs.Collision.{Collides};
ghost use Rattle.fr_digest.specs.Digest.{IsDigest};
ghost use Rattle.pruned_list.specs.PrunedList.{PrunesDict, digest_of};
ghost use Rattle.std.specs.Prelude.{◌≡◌, ◌<◌, ◌↔◌, IfOk, IfSome, IsNone, None, Some, length};
ghost use Rattle.tree_extract.specs.AccessListDifference.{IsCompared, IsOver, dict_difference};
ghost use Rattle.tree_extract.specs.NodeString.{found_strings};
ghost use Rattle.tree_model.specs.AccessList.{IsRising, dict, greater, set_digest, smaller, top_of};

use crate::lists::{clash_of, compare_nodes};
use crate::nodes::{EntryNode, Found, NodeString};
use dict_proof::{PrunedDict, digest};
use fr_bytes::NoMemory;
use fr_digest::{Clash, Dig, Digester};
use std::alloc::Global;
use tree_model::laws::access_list::range;
use tree_model::{Entry, dict_digest, top_in};

/// Of a pruned list and a set of one digest, whose users rise: `None` exactly where the list prunes the set's treap,
/// and else the strings of the first nodes, in pre-order, that differ and whose digests agree, with the pruned
/// list's string first.
///
/// Each node of both is hashed once, and one that is the same in both a single time. Memory is taken for the two
/// strings alone.
pub fn dict_clash<D: Digester>(
    alloc: Global,
    p: &PrunedDict,
    entries: &[Entry],
) -> Result<Option<Clash<D>>, NoMemory>
    requires some { 0 < length entries.now }
    requires rising { IsRising entries.now }
    requires digests { digest_of D.digest_of (list_view p.now) ≡ dict D.digest_of entries.now }
    ensures value { IfOk result (λ clash. clash ≡ dict_difference D.digest_of (list_view p.now) entries.now) }
    ensures none { IfOk result (λ clash. IsNone clash ↔ PrunesDict D.digest_of (list_view p.now) entries.now) }
    ensures collides { IfOk result (λ clash. IfSome clash (Collides D.digest_of)) }
{
    match compare_list::<D>(p, entries).found {
        None => Ok(None),
        Some(found) => clash_of(alloc, &found),
    }
}

/// A part of a pruned list and the set in its place: their digests, where they have entries, and the first
/// difference.
#[derive(Clone, Copy)]
struct ComparedParts {
    a: Option<Dig>,
    b: Option<Dig>,
    found: Option<Found<'static>>,
}

/// The entry of greatest priority, and the smaller and the greater users.
fn around(entries: &[Entry]) -> (Entry, &[Entry], &[Entry])
    requires some { 0 < length entries.now }
    requires rising { IsRising entries.now }
    ensures top { top_of entries.now ≡ Some result.0 }
    ensures smaller { result.1.now ≡ smaller result.0.user entries.now }
    ensures greater { result.2.now ≡ greater result.0.user entries.now }
    ensures rising_smaller { IsRising result.1.now }
    ensures rising_greater { IsRising result.2.now }
{
    let (place, top) = top_in(entries);
    let (smaller, rest) = entries.split_at(place);
    let (_, greater) = rest.split_at(1);
    (top, smaller, greater)
}

/// The digest of a set, where it has an entry.
fn set_digest<D: Digester>(entries: &[Entry]) -> Option<Dig>
    requires { IsRising entries.now }
    ensures { result ≡ set_digest D.digest_of entries.now }
{
    if entries.is_empty() {
        return None;
    }
    Some(dict_digest::<D>(entries))
}

/// A digest has a digest's length. This is for the proof alone and computes nothing.
fn is_sized(digest: Option<Dig>)
    ensures { IfSome digest IsDigest }
{}

/// An entry of a pruned list and the top of the set in its place, over what was compared of their parts.
fn over_parts<D: Digester>(
    entry: Entry,
    top: Entry,
    left: ComparedParts,
    right: ComparedParts,
) -> ComparedParts
    ensures { IsOver D.digest_of entry top (left.a, left.b, found_strings left.found)
        (right.a, right.b, found_strings right.found) (result.a, result.b, found_strings result.found) }
{
    range(entry);
    range(top);
    is_sized(left.a);
    is_sized(left.b);
    let node = compare_nodes::<D>(
        NodeString::Entry(EntryNode {
            entry,
            left: left.a,
            right: right.a,
        }),
        NodeString::Entry(EntryNode {
            entry: top,
            left: left.b,
            right: right.b,
        }),
        left.found.or(right.found),
    );
    ComparedParts {
        a: Some(node.a),
        b: Some(node.b),
        found: node.found,
    }
}

#[cycle(compared)]
fn compare_part<D: Digester>(part: &Option<Box<PrunedDict>>, entries: &[Entry]) -> ComparedParts
    requires { IsRising entries.now }
    ensures { IsCompared D.digest_of result.a result.b (found_strings result.found) (part_view part.now) entries.now }
{
    match part {
        None => ComparedParts {
            a: None,
            b: set_digest::<D>(entries),
            found: None,
        },
        Some(list) => compare_list::<D>(list, entries),
    }
}

#[cycle(compared)]
fn compare_list<D: Digester>(p: &PrunedDict, entries: &[Entry]) -> ComparedParts
    requires { IsRising entries.now }
    ensures { IsCompared D.digest_of result.a result.b (found_strings result.found) (list_view p.now) entries.now }
{
    match p {
        PrunedDict::Hidden(x) => ComparedParts {
            a: Some(*x),
            b: set_digest::<D>(entries),
            found: None,
        },
        PrunedDict::Node { entry, left, right } => {
            if entries.is_empty() {
                return ComparedParts {
                    a: Some(digest::<D>(p)),
                    b: None,
                    found: None,
                };
            }
            let (top, smaller, greater) = around(entries);
            let left = compare_part::<D>(left, smaller);
            let right = compare_part::<D>(right, greater);
            over_parts::<D>(*entry, top, left, right)
        }
    }
}
