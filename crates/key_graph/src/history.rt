// What the followed changes leave: who has which slot, and which generation a node has. Changes are kept oldest first.

ghost use Rattle.key_graph.specs.KeyTree.{ancestors, fits, generation, has_member, holder, holder_after, is_below, is_held, place_of, root_generation};
ghost use Rattle.key_graph.specs.Slots.{least_below};
ghost use Rattle.std.specs.List.{list_any};
ghost use Rattle.std.specs.Prelude.{◌≡◌, ◌^◌, ◌<◌, ◌≤◌, ◌∷◌, nat_eq, reverse, IfOk, IfSome};

use crate::change::{Change, KeyChange, Member, PlanRefusal};

/// The number of slots of a tree, which is also the node of its slot 0.
pub fn slots(depth: u8) -> u8
    requires { depth ≤ 6 }
    ensures value { result ≡ 2 ^ depth }
    ensures small { result ≤ 64 }
{
    1 << depth
}

// Whether node `x` is node `n` or one of the `levels` nodes above it.
fn is_above(levels: u8, n: u32, x: u32) -> bool
    ensures { result ≡ list_any (nat_eq x) (n ∷ ancestors levels n) }
{
    if x == n {
        true
    } else if levels == 0 {
        false
    } else {
        is_above(levels - 1, n / 2, x)
    }
}

// Whether node `x` is the slot's node or above it.
#[tactic(auto, unfolding(crate::specs::KeyTree::is_below))]
fn is_above_slot(depth: u8, x: u32, slot: u8) -> bool
    requires { depth ≤ 6 }
    ensures { result ≡ is_below depth x slot }
{
    is_above(depth, u32::from(slots(depth)) + u32::from(slot), x)
}

fn holder_of(what: &KeyChange) -> Option<Member>
    ensures { result ≡ holder_after what.now }
{
    match *what {
        KeyChange::Admit { user, leaf } => Some(Member { user, leaf }),
        KeyChange::Remove { .. } => None,
    }
}

/// Who has the slot after these changes.
pub fn holder(changes: &[Change], slot: u8) -> Option<Member>
    ensures { result ≡ holder (reverse changes.now) slot }
{
    let mut found = None;
    for change in changes {
        if change.slot == slot {
            found = holder_of(&change.what);
        }
    }
    found
}

/// The generation of an inner node after these changes.
pub fn generation(depth: u8, changes: &[Change], x: u32) -> u32
    requires { depth ≤ 6 }
    ensures { result ≡ generation depth (reverse changes.now) x }
{
    let mut found = 0;
    for change in changes {
        if is_above_slot(depth, x, change.slot) {
            found = change.generation;
        }
    }
    found
}

// Whether the slot is this user's, or nobody's.
fn is_held(user: Option<u32>, holder: &Option<Member>) -> bool
    ensures { result ≡ is_held user holder.now }
{
    match (user, holder) {
        (None, None) => true,
        (Some(user), Some(member)) => member.user == user,
        _ => false,
    }
}

// The least slot that is this user's, or nobody's.
fn first_slot(depth: u8, changes: &[Change], user: Option<u32>) -> Option<u8>
    requires { depth ≤ 6 }
    ensures value { result ≡ least_below (λ s. is_held user (holder (reverse changes.now) s)) (2 ^ depth) }
    ensures within { IfSome result (λ slot. slot < 2 ^ depth) }
{
    for slot in 0..slots(depth) {
        if is_held(user, &holder(changes, slot)) {
            return Some(slot);
        }
    }
    None
}

/// Which slot a change takes or frees, or why there is none.
pub fn place(depth: u8, changes: &[Change], what: KeyChange) -> Result<u8, PlanRefusal>
    requires { depth ≤ 6 }
    ensures value { result ≡ place_of depth (reverse changes.now) what }
    ensures within { IfOk result (λ slot. slot < 2 ^ depth) }
{
    match what {
        KeyChange::Admit { user, .. } => {
            if first_slot(depth, changes, Some(user)).is_some() {
                return Err(PlanRefusal::AlreadyIn);
            }
            match first_slot(depth, changes, None) {
                Some(slot) => Ok(slot),
                None => Err(PlanRefusal::NoSlot),
            }
        }
        KeyChange::Remove { user } => match first_slot(depth, changes, Some(user)) {
            Some(slot) => Ok(slot),
            None => Err(PlanRefusal::NotIn),
        },
    }
}

/// Whether a change that was accepted fits.
pub fn fits(depth: u8, changes: &[Change], slot: u8, what: KeyChange) -> bool
    requires { depth ≤ 6 }
    ensures { result ≡ fits depth (reverse changes.now) slot what }
{
    let holder = holder(changes, slot);
    let within = slot < slots(depth);
    match what {
        KeyChange::Admit { user, .. } => {
            let absent = first_slot(depth, changes, Some(user)).is_none();
            let free = is_held(None, &holder);
            absent && within && free
        }
        KeyChange::Remove { user } => {
            let own = is_held(Some(user), &holder);
            within && own
        }
    }
}

/// Whether some slot below the node has a holder.
pub fn has_member(depth: u8, changes: &[Change], x: u32) -> bool
    requires { depth ≤ 6 }
    ensures { result ≡ has_member depth (reverse changes.now) x }
{
    for slot in 0..slots(depth) {
        if is_above_slot(depth, x, slot) && holder(changes, slot).is_some() {
            return true;
        }
    }
    false
}

/// The generation of the root key of an epoch, where these changes have one: 0 at epoch 0.
pub fn root_generation(epochs: &[u32], epoch: u64) -> Option<u32>
    ensures { result ≡ root_generation epochs.now epoch }
{
    if epoch == 0 {
        return Some(0);
    }
    let place = usize::try_from(epoch - 1).ok()?;
    epochs.get(place).copied()
}
