ghost use Rattle.std.specs.Prelude.{◌≡◌, ◌++◌, ◌<◌, length, map, option_and_then, slice_get, IfOk, IfSome, OnOk};
ghost use Rattle.std.specs.Prelude.{None, if◌then◌else◌, nat_eq};
ghost use Rattle.std.specs.Option.{option_map};
ghost use Rattle.world_book.specs.Records.{note_of, record_of, records_of};
ghost use Rattle.world_audit.specs.Comparisons.{base, owner_of, seen_by};
ghost use Rattle.world_audit.specs.Story.{prev, vouched, voucher, vouches_for};
ghost use Rattle.audit_run.specs.Table.{IsIndex, is_at};

use crate::unsigned::is_honest;
use fr_bytes::NoMemory;
use op_types::Leaf;
use std::alloc::Global;
use world_book::{Took, WallNote, World};

/// All records of a world, in order.
#[derive(Drop)]
pub(crate) struct Index<'a> {
    pub(crate) world: &'a World,
    pub(crate) records: Vec<&'a Took>,
}

/// Adds these records.
fn add_records<'a>(out: &mut Vec<&'a Took>, tooks: &'a [Took]) -> Result<(), NoMemory>
    ensures { OnOk result (map (λ r. r.now) out.new.items ≡ map (λ r. r.now) out.old.items ++ tooks.now) }
{
    for took in tooks {
        out.push(took)?;
    }
    Ok(())
}

/// The wall's note.
fn find_note(world: &World, wall: u32) -> Option<&WallNote>
    ensures { option_map (λ n. n.now) result ≡ note_of world.now.walls wall }
{
    world.walls.as_slice().iter().find(|note| note.wall == wall)
}

/// The owner of a wall, and 0 where there is no such wall.
pub(crate) fn owner_of(world: &World, wall: u32) -> u32
    ensures { result ≡ owner_of world.now wall }
{
    match find_note(world, wall) {
        None => 0,
        Some(note) => note.owner,
    }
}

/// Whether these are the record's user, wall and size.
fn is_at(r: &Took, user: u32, wall: u32, size: u64) -> bool
    ensures { result ≡ is_at user wall size r.now }
{
    r.user == user && r.wall == wall && r.size == size
}

impl<'a> Index<'a> {
    /// The records of a world.
    pub(crate) fn new(alloc: Global, world: &'a World) -> Result<Index<'a>, NoMemory>
        ensures world { IfOk result (λ i. i.world.now ≡ world.now) }
        ensures records { IfOk result (λ i. map (λ r. r.now) i.records.items ≡ records_of world.now) }
    {
        let mut records = Vec::new(alloc);
        for book in world.users.as_slice() {
            add_records(&mut records, book.took.as_slice())?;
        }
        Ok(Index { world, records })
    }

    /// The place of a user's record of a wall at a size.
    fn find(&self, user: u32, wall: u32, size: u64) -> Option<usize>
        requires { IsIndex self.now.world.now (map (λ r. r.now) self.now.records.items) }
        ensures within { IfSome result (λ i. i < length (map (λ r. r.now) self.now.records.items)) }
        ensures is { option_and_then (slice_get (map (λ r. r.now) self.now.records.items)) result
            ≡ record_of self.now.world.now user wall size }
    {
        for (i, r) in self.records.iter().enumerate() {
            if is_at(r, user, wall, size) {
                return Some(i);
            }
        }
        None
    }

    /// The place of the record of the same user and wall that ended where this one began.
    pub(crate) fn prev(&self, r: &Took) -> Option<usize>
        requires { IsIndex self.now.world.now (map (λ r. r.now) self.now.records.items) }
        ensures within { IfSome result (λ i. i < length (map (λ r. r.now) self.now.records.items)) }
        ensures is { option_and_then (slice_get (map (λ r. r.now) self.now.records.items)) result
            ≡ prev self.now.world.now r.now }
    {
        if r.have == 0 {
            return None;
        }
        self.find(r.user, r.wall, r.have)
    }

    /// The first shown operation that vouches for what isn't shown.
    fn voucher<'r>(&self, r: &'r Took) -> Option<&'r Leaf>
        ensures { option_map (λ l. l.now) result ≡ voucher self.now.world.now r.now }
    {
        r.leaves.as_slice().iter().find(|leaf| is_honest(self.world, leaf.op.author)
            && leaf.op.view.size >= r.from)
    }

    /// The place of the record whose view that operation embeds.
    fn vouched(&self, r: &Took) -> Option<usize>
        requires { IsIndex self.now.world.now (map (λ r. r.now) self.now.records.items) }
        ensures within { IfSome result (λ i. i < length (map (λ r. r.now) self.now.records.items)) }
        ensures is { option_and_then (slice_get (map (λ r. r.now) self.now.records.items)) result
            ≡ vouched self.now.world.now r.now }
    {
        match self.voucher(r) {
            None => None,
            Some(leaf) => self.find(leaf.op.author, r.wall, leaf.op.view.size),
        }
    }

    /// The same, where the record skips positions, and else none.
    pub(crate) fn skipped(&self, r: &Took) -> Option<usize>
        requires { IsIndex self.now.world.now (map (λ r. r.now) self.now.records.items) }
        ensures within { IfSome result (λ i. i < length (map (λ r. r.now) self.now.records.items)) }
        ensures is { option_and_then (slice_get (map (λ r. r.now) self.now.records.items)) result
            ≡ (if nat_eq r.now.from r.now.have then None else vouched self.now.world.now r.now) }
    {
        if r.from == r.have {
            return None;
        }
        self.vouched(r)
    }

    /// The place of the record on whose history this one rests.
    pub(crate) fn base(&self, r: &Took) -> Option<usize>
        requires { IsIndex self.now.world.now (map (λ r. r.now) self.now.records.items) }
        ensures within { IfSome result (λ i. i < length (map (λ r. r.now) self.now.records.items)) }
        ensures is { option_and_then (slice_get (map (λ r. r.now) self.now.records.items)) result
            ≡ base self.now.world.now r.now }
    {
        if r.from == r.have {
            return self.prev(r);
        }
        self.vouched(r)
    }

    /// The place of the record of the view that an honest author's operation embeds.
    pub(crate) fn seen_by(&self, wall: u32, leaf: &Leaf) -> Option<usize>
        requires { IsIndex self.now.world.now (map (λ r. r.now) self.now.records.items) }
        ensures within { IfSome result (λ i. i < length (map (λ r. r.now) self.now.records.items)) }
        ensures is { option_and_then (slice_get (map (λ r. r.now) self.now.records.items)) result
            ≡ seen_by self.now.world.now wall leaf.now }
    {
        if leaf.op.view.size == 0 || !is_honest(self.world, leaf.op.author) {
            return None;
        }
        self.find(leaf.op.author, wall, leaf.op.view.size)
    }
}
