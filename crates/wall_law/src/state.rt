ghost use Rattle.std.specs.Prelude.{◌≡◌, ◌+◌, ◌-◌, ◌<◌, ◌^◌, IfOk, OnOk, OnErr};
ghost use Rattle.op_types.specs.Spelling.{IsOp};
ghost use Rattle.tree_model.specs.AccessList.{IsRising, change_by, changed_set};
ghost use Rattle.wall_law.specs.State.{opening, change_of, epoch_after, after};

use fr_bytes::{NoMemory, Sequence};
use op_types::{Kind, OWNER, Op};
use std::alloc::Global;
use tree_model::{Entries, Entry, add_entry, drop_user, set_next};

/// The state of a wall before a position.
#[derive(Debug, Drop)]
pub struct State {
    /// The access list. Its users rise.
    pub entries: Entries,
    /// How many changes of the access list there were.
    pub epoch: u64,
}

/// The state in which a wall begins: the owner alone, at epoch 0.
pub fn genesis(alloc: Global, owner: u32) -> Result<State, NoMemory>
    ensures value { IfOk result (λ s. s ≡ opening owner) }
    ensures rising { IfOk result (λ s. IsRising s.entries) }
{
    let mut entries = Vec::new(alloc);
    entries.push(Entry {
        user: owner,
        role: OWNER,
        next: 0,
    })?;
    Ok(State {
        entries: Sequence::of(entries),
        epoch: 0,
    })
}

/// The access list after a change.
fn changed(alloc: Global, entries: Vec<Entry>, kind: &Kind) -> Result<Vec<Entry>, NoMemory>
    ensures { IfOk result (λ v. v.items ≡ change_by (change_of kind.now) entries.items) }
{
    match kind {
        Kind::Post { .. } => Ok(entries),
        Kind::Admit { user, role, .. } => add_entry(
            alloc,
            &entries,
            Entry {
                user: *user,
                role: *role,
                next: 0,
            },
        ),
        Kind::Remove { user, .. } => drop_user(alloc, &entries, *user),
    }
}

/// The access list that an operation leaves.
fn entries_after(alloc: Global, entries: &Entries, op: &Op) -> Result<Vec<Entry>, NoMemory>
    requires { op.now.seq < 2 ^ 32 - 1 }
    ensures { IfOk result (λ v. v.items ≡ changed_set entries.now op.now.author (op.now.seq + 1) (change_of op.now.kind)) }
{
    let list = set_next(alloc, entries.as_slice(), op.author, op.seq + 1)?;
    changed(alloc, list, &op.kind)
}

/// The epoch after an operation: a change begins the next one.
pub fn epoch_after(epoch: u64, op: &Op) -> u64
    requires { epoch < 2 ^ 64 - 1 }
    ensures { result ≡ epoch_after epoch op.now }
{
    if op.kind.is_change() {
        epoch + 1
    } else {
        epoch
    }
}

/// The state after `op` in place of `state`: the author's next number is one more than the operation's,
/// an admitted user begins with the operation's role and the next number 0, a removed user is gone, and
/// a change adds one to the epoch.
pub fn state_after(alloc: Global, state: &State, op: &Op) -> Result<State, NoMemory>
    requires spelled { IsOp op.now }
    requires epoch { state.now.epoch < 2 ^ 64 - 1 }
    ensures value { IfOk result (λ s. s ≡ after state.now op.now) }
    ensures rising { IfOk result (λ s. IsRising state.now.entries → IsRising s.entries) }
{
    let list = entries_after(alloc, &state.entries, op)?;
    Ok(State {
        entries: Sequence::of(list),
        epoch: epoch_after(state.epoch, op),
    })
}

/// Makes `state` the one after `op`, as [`state_after`] has it. On want of memory it is as before.
pub fn follow(alloc: Global, state: &mut State, op: &Op) -> Result<(), NoMemory>
    requires spelled { IsOp op.now }
    requires epoch { state.old.epoch < 2 ^ 64 - 1 }
    ensures done { OnOk result (state.new ≡ after state.old op.now) }
    ensures refused { OnErr result (state.new ≡ state.old) }
    ensures rising { IsRising state.old.entries → IsRising state.new.entries }
{
    *state = state_after(alloc, state, op)?;
    Ok(())
}
