ghost use Rattle.dict_proof.specs.View.{part_view, parts_view};
ghost use Rattle.pruned_list.specs.PrunedList.{join, split};
ghost use Rattle.std.specs.Option.{option_map};
ghost use Rattle.std.specs.Prelude.{◌≡◌};

use crate::parts::{Part, over, taken};
use crate::pruned_dict::PrunedDict;
use tree_model::above;

/// A part of smaller users and one of greater users as one part: `None` where a hidden part must be entered.
/// What stays is moved and nothing is copied.
#[tactic(auto, using(crate::proofs::Steps::join_steps))]
pub(crate) fn join(smaller: Part, greater: Part) -> Option<Part>
    ensures { option_map part_view result ≡ join (part_view smaller) (part_view greater) }
{
    let Some(mut a) = smaller else {
        return Some(greater);
    };
    let Some(mut b) = greater else {
        return Some(Some(a));
    };
    match (taken(&mut a), taken(&mut b)) {
        (
            PrunedDict::Node {
                entry: e,
                left: l,
                right: r,
            },
            PrunedDict::Node {
                entry: f,
                left: m,
                right: q,
            },
        ) => {
            if above(f.user, e.user) {
                let inner = join(over(a, e, l, r), m)?;
                return Some(over(b, f, inner, q));
            }
            let inner = join(r, over(b, f, m, q))?;
            Some(over(a, e, l, inner))
        }
        _ => None,
    }
}

/// The part of smaller users than this one, and the part of greater ones: `None` where a hidden part must be
/// entered. What stays is moved and nothing is copied.
#[tactic(auto, using(crate::proofs::Steps::split_steps))]
pub(crate) fn split(part: Part, user: u32) -> Option<(Part, Part)>
    ensures { option_map parts_view result ≡ split (part_view part) user }
{
    let Some(mut top) = part else {
        return Some((None, None));
    };
    match taken(&mut top) {
        PrunedDict::Hidden(_) => None,
        PrunedDict::Node { entry, left, right } => {
            if entry.user < user {
                let (smaller, greater) = split(right, user)?;
                let smaller = over(top, entry, left, smaller);
                return Some((smaller, greater));
            }
            let (smaller, greater) = split(left, user)?;
            let greater = over(top, entry, greater, right);
            Some((smaller, greater))
        }
    }
}
