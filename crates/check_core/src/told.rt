ghost use Rattle.std.specs.Prelude.{◌≡◌, IfOk};
ghost use Rattle.std.specs.Option.{option_map};
ghost use Rattle.wall_law.specs.Lawful.{told, told_of};
ghost use Rattle.wall_law.specs.State.{opening};
ghost use Rattle.check_core.specs.Finding.{told_view};
ghost use Rattle.check_rules.specs.Verdict.{told_before};

use fr_bytes::NoMemory;
use fr_digest::{Dig, Digester};
use op_types::Leaf;
use std::alloc::Global;
use tree_model::dict_digest;
use wall_law::genesis;

/// What a leaf tells of the state after it: the digest of the access list, and how many changes of it there were.
#[derive(Clone, Copy, Debug, PartialEq, Eq)]
pub(crate) struct Told {
    pub(crate) list: Dig,
    pub(crate) epoch: u64,
}

/// What this leaf tells.
pub(crate) fn told_by(leaf: &Leaf) -> Told
    ensures { told_view result ≡ told leaf.now }
{
    Told {
        list: leaf.after,
        epoch: leaf.epoch,
    }
}

/// What a wall's opening state is.
fn told_at_first<D: Digester>(alloc: Global, owner: u32) -> Result<Told, NoMemory>
    ensures { IfOk result (λ t. told_view t ≡ told_of D.digest_of (opening owner)) }
{
    let state = genesis(alloc, owner)?;
    Ok(Told {
        list: dict_digest::<D>(state.entries.as_slice()),
        epoch: state.epoch,
    })
}

/// What is told in front of the positions that are shown: by the leaf there, and by the opening state where there is
/// none.
pub(crate) fn told_before<D: Digester>(
    alloc: Global,
    owner: u32,
    anchor: Option<&Leaf>,
) -> Result<Told, NoMemory>
    ensures { IfOk result (λ t. told_view t ≡ told_before D.digest_of owner (option_map (λ l. l.now) anchor.entry)) }
{
    match anchor {
        None => told_at_first::<D>(alloc, owner),
        Some(leaf) => Ok(told_by(leaf)),
    }
}
