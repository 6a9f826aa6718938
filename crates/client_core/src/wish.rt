//! What an owner may wish to change of an access list.
ghost use Rattle.std.specs.Prelude.{◌≡◌};
ghost use Rattle.client_core.specs.Asking.{key_change, kind_with, owner_decline, plan_decline, whom};
ghost use Rattle.client_core.specs.Wishes.{wish_view};

use crate::keys::leaf_of;
use crate::start::UserSecrets;
use key_graph::{KeyChange, KeyTree, PlanRefusal};
use msg_form::Decline;
use op_types::{Kind, Wraps};

/// A change of the access list that a user wishes.
#[derive(Clone, Copy, Debug, PartialEq, Eq)]
pub(crate) enum Wish {
    /// To add a user in a role.
    Adds { user: u32, role: u8 },
    /// To take a user away.
    Drops { user: u32 },
}

/// Why a change that isn't planned isn't asked for.
pub(crate) fn plan_decline(refusal: PlanRefusal) -> Decline
    ensures { result ≡ plan_decline refusal }
{
    match refusal {
        PlanRefusal::AlreadyIn => Decline::AlreadyIn,
        PlanRefusal::NotIn => Decline::NotIn,
        PlanRefusal::NoSlot => Decline::NoSlot,
        PlanRefusal::NoMemory => Decline::NoMemory,
    }
}

impl Wish {
    /// Whom it is about.
    pub(crate) fn whom(self) -> u32
        ensures { result ≡ whom (wish_view self) }
    {
        match self {
            Wish::Adds { user, .. } | Wish::Drops { user } => user,
        }
    }

    /// Why it can't be about the owner.
    pub(crate) fn owner_decline(self) -> Decline
        ensures { result ≡ owner_decline (wish_view self) }
    {
        match self {
            Wish::Adds { .. } => Decline::AlreadyIn,
            Wish::Drops { .. } => Decline::NotIn,
        }
    }

    /// The change of the key tree.
    pub(crate) fn key_change(self, tree: &KeyTree, secrets: &UserSecrets) -> KeyChange
        ensures { result ≡ key_change tree.now secrets.now (wish_view self) }
    {
        match self {
            Wish::Adds { user, .. } => {
                let leaf = leaf_of(tree.wall(), secrets, user);
                KeyChange::Admit { user, leaf }
            }
            Wish::Drops { user } => KeyChange::Remove { user },
        }
    }

    /// What the operation does, with a plan's slot and wraps.
    pub(crate) fn kind(self, slot: u8, wraps: Wraps) -> Kind
        ensures { result ≡ kind_with (wish_view self) slot wraps }
    {
        match self {
            Wish::Adds { user, role } => Kind::Admit {
                user,
                role,
                slot,
                wraps,
            },
            Wish::Drops { user } => Kind::Remove { user, slot, wraps },
        }
    }
}
