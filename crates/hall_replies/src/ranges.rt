//! Ranges that the values of the program have by their types. What is here is for the proofs alone: it reads and computes
//! nothing.
ghost use Rattle.dict_proof.specs.View.{list_view, part_view};
ghost use Rattle.hall_replies.specs.Shown.{HasDigs, HasNumbers};
ghost use Rattle.hist_proof.specs.Spelling.{IsDig};
ghost use Rattle.hist_proof.specs.View.{tree_view};
ghost use Rattle.std.specs.Prelude.{◌<◌, ◌^◌};

use dict_proof::PrunedDict;
use fr_digest::Dig;
use hist_proof::Pruned;
use tree_model::Entry;

/// A digest is 32 bytes.
pub(crate) fn digest_fits(digest: Dig)
    ensures { IsDig digest }
{}

/// A wall's number fits 32 bits.
pub(crate) fn wall_fits(wall: u32)
    ensures { wall < 2 ^ 32 }
{}

/// A user and a next number fit 32 bits.
fn entry_fits(entry: Entry)
    ensures user { entry.user < 2 ^ 32 }
    ensures next { entry.next < 2 ^ 32 }
{}

/// Each hidden part of a tree is 32 bytes.
#[tactic(auto, using(hist_proof::proofs::Views::tree_views), unfolding(crate::specs::Shown::HasDigs))]
pub(crate) fn digests_fit(p: &Pruned)
    ensures { HasDigs (tree_view p.now) }
{
    match p {
        Pruned::Hidden(digest) => digest_fits(*digest),
        Pruned::Leaf(_) => {}
        Pruned::Node(left, right) => {
            digests_fit(left);
            digests_fit(right);
        }
        Pruned::Single(left) => digests_fit(left),
    }
}

/// The numbers of a part of a list are in range.
#[cycle(numbers)]
#[tactic(auto, unfolding(crate::specs::Shown::HasNumbers))]
fn part_fits(part: &Option<Box<PrunedDict>>)
    ensures { HasNumbers (part_view part.now) }
{
    match part {
        None => {}
        Some(list) => numbers_fit(list),
    }
}

/// The numbers of a list are in range.
#[cycle(numbers)]
#[tactic(auto, using(dict_proof::proofs::Views::list_views), unfolding(crate::specs::Shown::HasNumbers))]
pub(crate) fn numbers_fit(list: &PrunedDict)
    ensures { HasNumbers (list_view list.now) }
{
    match list {
        PrunedDict::Hidden(digest) => digest_fits(*digest),
        PrunedDict::Node { entry, left, right } => {
            entry_fits(*entry);
            part_fits(left);
            part_fits(right);
        }
    }
}
