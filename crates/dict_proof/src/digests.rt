ghost use Rattle.dict_proof.specs.View.{list_view, part_view};
ghost use Rattle.pruned_list.specs.PrunedList.{digest_of, part_digest};
ghost use Rattle.std.specs.Prelude.{◌≡◌, Some};

use crate::parts::Part;
use crate::pruned_dict::PrunedDict;
use fr_digest::{Dig, Digester};
use pruned_list::node_digest;

/// The digest of a part, where it has an entry.
#[cycle(hashed)]
#[tactic(auto, unfolding(pruned_list::specs::PrunedList::part_digest))]
fn part_digest<D: Digester>(part: &Part) -> Option<Dig>
    ensures { result ≡ part_digest D.digest_of (part_view part.now) }
{
    match part {
        None => None,
        Some(list) => Some(digest_in::<D>(list)),
    }
}

/// The digest of a pruned list.
#[cycle(hashed)]
#[tactic(auto, using(crate::proofs::Views::list_views), unfolding(pruned_list::specs::PrunedList::part_digest))]
fn digest_in<D: Digester>(p: &PrunedDict) -> Dig
    ensures { part_digest D.digest_of (list_view p.now) ≡ Some result }
{
    match p {
        PrunedDict::Hidden(digest) => *digest,
        PrunedDict::Node { entry, left, right } => {
            node_digest::<D>(entry, part_digest::<D>(left), part_digest::<D>(right))
        }
    }
}

/// The digest of the access list that a pruned list stands for: that of its top's string over the digests of its
/// parts, where a hidden part has the digest that it tells. Each node that is shown is hashed once, and no memory is
/// taken.
pub fn digest<D: Digester>(p: &PrunedDict) -> Dig
    ensures { result ≡ digest_of D.digest_of (list_view p.now) }
{
    digest_in::<D>(p)
}
