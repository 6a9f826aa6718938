ghost use Rattle.std.specs.Prelude.{◌≡◌};
ghost use Rattle.msg_form.specs.Names.{decline_name};

/// Why a client asks nothing of its server. Of a change of the access list `NotOwner` is told before
/// `NotMember`; else the first that applies is told, in this order.
#[derive(Clone, Copy, Debug, PartialEq, Eq)]
pub enum Decline {
    /// The client hasn't the root key of the epoch that it has accepted.
    NotMember,
    /// The change isn't the user's to make: only the wall's owner changes the access list.
    NotOwner,
    /// The user to be admitted is in the access list.
    AlreadyIn,
    /// The user to be removed isn't in the access list, or is the owner.
    NotIn,
    /// Every slot of the key tree is taken.
    NoSlot,
    /// An allocation was refused.
    NoMemory,
}

impl Decline {
    /// The name that a report prints. Takes no memory.
    pub fn name(self) -> &'static str
        ensures { result.now ≡ decline_name self }
    {
        match self {
            Decline::NotMember => "NotMember",
            Decline::NotOwner => "NotOwner",
            Decline::AlreadyIn => "AlreadyIn",
            Decline::NotIn => "NotIn",
            Decline::NoSlot => "NoSlot",
            Decline::NoMemory => "NoMemory",
        }
    }
}
