ghost use Rattle.std.specs.Prelude.{◌≡◌, ◌+◌, ◌-◌, ◌<◌, ◌≤◌, ◌^◌, ◌++◌, ◌∷◌, [], ℕ, List, Option, None, Some, length};
ghost use Rattle.std.specs.Prelude.{map, option_and_then, slice_get, take, true, false, IfOk, IfSome, OnOk, OnErr};
ghost use Rattle.std.specs.List.{AllByRecursion};
ghost use Rattle.op_types.specs.declared.op.Leaf.{Leaf};
ghost use Rattle.op_types.specs.Spelling.{IsLeaf};
ghost use Rattle.world_book.specs.declared.took.Took.{Took};
ghost use Rattle.world_book.specs.declared.world.World.{World};
ghost use Rattle.world_book.specs.Records.{IsIn, records_of};
ghost use Rattle.world_audit.specs.Story.{base_of, front_of, prev, stands, story, vouched};
ghost use Rattle.audit_run.specs.Table.{AreOf, ArePlaces, AreUnknown, Begins, Grows, HasFront, Holds, HoldsAt};
ghost use Rattle.audit_run.specs.Table.{IsIndex, IsTable};

use crate::index::{Index, owner_of};
use crate::line::Line;
use crate::same::is_same_leaf;
use fr_bytes::NoMemory;
use fr_digest::Digester;
use op_types::Leaf;
use std::alloc::Global;
use world_book::{Took, World};

/// What is known of a record's history.
#[derive(Clone, Copy)]
pub(crate) enum Row {
    /// Nothing yet.
    Unknown,
    /// Where it stands, if the record has one.
    Known(Option<usize>),
}

/// The histories that are known so far, and a row for each record.
#[derive(Drop)]
pub(crate) struct Stories<'a, D: Digester> {
    pub(crate) lines: Vec<Line<'a, D>>,
    pub(crate) rows: Vec<Row>,
}

/// A history of no leaves, or one that is longer, of the wall.
fn start<'a, D: Digester>(
    alloc: Global,
    lines: &mut Vec<Line<'a, D>>,
    world: &World,
    wall: u32,
) -> Result<usize, NoMemory>
    requires { AreOf world.now lines.old.items }
    ensures begins { IfOk result (λ i. Begins lines.new.items wall i []) }
    ensures grows { OnOk result (Grows lines.old.items lines.new.items) }
    ensures owners { OnOk result (AreOf world.now lines.new.items) }
{
    for i in 0..lines.len() {
        if lines[i].wall() == wall {
            return Ok(i);
        }
    }
    let line = Line::empty(alloc, wall, owner_of(world, wall))?;
    let place = lines.len();
    lines.push(line)?;
    Ok(place)
}

/// Another history, of the first leaves of this one and a further leaf.
fn branch<'a, D: Digester>(
    alloc: Global,
    lines: &mut Vec<Line<'a, D>>,
    i: usize,
    k: usize,
    leaf: &'a Leaf,
) -> Result<usize, NoMemory>
    requires within { i < length lines.old.items }
    requires front { (wall : ℕ) × ((M : List Leaf) × Begins lines.old.items wall i M × (length M ≡ k)) }
    requires spelled { IsLeaf leaf.now }
    requires room { k < 2 ^ 64 - 1 }
    ensures begins { IfOk result (λ j. (wall : ℕ) (M : List Leaf) → Begins lines.old.items wall i M → length M ≡ k
        → Begins lines.new.items wall j (M ++ leaf.now ∷ [])) }
    ensures grows { OnOk result (Grows lines.old.items lines.new.items) }
    ensures owners { OnOk result ((w : World) → AreOf w lines.old.items → AreOf w lines.new.items) }
{
    let mut line = lines[i].front(alloc, k)?;
    line.push(alloc, leaf)?;
    let place = lines.len();
    lines.push(line)?;
    Ok(place)
}

/// A history that begins with the first `k` leaves of the i-th and this one: the same, where its next leaf is this one
/// or it ends there, and else another.
fn put<'a, D: Digester>(
    alloc: Global,
    lines: &mut Vec<Line<'a, D>>,
    i: usize,
    k: usize,
    leaf: &'a Leaf,
) -> Result<usize, NoMemory>
    requires within { i < length lines.old.items }
    requires front { (wall : ℕ) × ((M : List Leaf) × Begins lines.old.items wall i M × (length M ≡ k)) }
    requires spelled { IsLeaf leaf.now }
    requires room { k < 2 ^ 64 - 1 }
    ensures begins { IfOk result (λ j. (wall : ℕ) (M : List Leaf) → Begins lines.old.items wall i M → length M ≡ k
        → Begins lines.new.items wall j (M ++ leaf.now ∷ [])) }
    ensures grows { OnOk result (Grows lines.old.items lines.new.items) }
    ensures owners { OnOk result ((w : World) → AreOf w lines.old.items → AreOf w lines.new.items) }
{
    if lines[i].len() == k {
        lines[i].push(alloc, leaf)?;
        return Ok(i);
    }
    if is_same_leaf(lines[i].leaf(k), leaf) {
        return Ok(i);
    }
    branch(alloc, lines, i, k, leaf)
}

/// A history that begins with the first `from` leaves of the i-th and these.
fn extend<'a, D: Digester>(
    alloc: Global,
    lines: &mut Vec<Line<'a, D>>,
    i: usize,
    from: u64,
    leaves: &'a [Leaf],
) -> Result<usize, NoMemory>
    requires front { (wall : ℕ) × ((M : List Leaf) × Begins lines.old.items wall i M × (length M ≡ from)) }
    requires spelled { AllByRecursion IsLeaf leaves.now }
    requires room { from + length leaves.now < 2 ^ 64 }
    ensures begins { IfOk result (λ j. (wall : ℕ) (M : List Leaf) → Begins lines.old.items wall i M → length M ≡ from
        → Begins lines.new.items wall j (M ++ leaves.now)) }
    ensures grows { OnOk result (Grows lines.old.items lines.new.items) }
    ensures owners { OnOk result ((w : World) → AreOf w lines.old.items → AreOf w lines.new.items) }
{
    let mut line = i;
    let mut k = from as usize;
    for leaf in leaves {
        line = put(alloc, lines, line, k, leaf)?;
        k += 1;
    }
    Ok(line)
}

/// A history that begins with what is in front of a record's leaves, where there is one: below and beside stand the
/// histories of the records that it rests on.
fn front<'a, D: Digester>(
    alloc: Global,
    lines: &mut Vec<Line<'a, D>>,
    world: &World,
    r: &Took,
    below: Option<usize>,
    beside: Option<usize>,
) -> Result<Option<usize>, NoMemory>
    requires { AreOf world.now lines.old.items }
    ensures holds { IfOk result (λ o. (b s : Option (List Leaf)) → Holds lines.old.items r.now.wall b below
        → Holds lines.old.items r.now.wall s beside
        → Holds lines.new.items r.now.wall (front_of r.now (base_of r.now b) s) o) }
    ensures grows { OnOk result (Grows lines.old.items lines.new.items) }
    ensures owners { OnOk result (AreOf world.now lines.new.items) }
{
    if r.from == r.have {
        if r.have > 0 {
            return Ok(below);
        }
        return Ok(Some(start(alloc, lines, world, r.wall)?));
    }
    if r.have == 0 {
        return Ok(beside);
    }
    match below {
        None => Ok(None),
        Some(_) => Ok(beside),
    }
}

/// The history of a record, where it has one, over those of the records that it rests on.
fn line_over<'a, D: Digester>(
    alloc: Global,
    lines: &mut Vec<Line<'a, D>>,
    world: &World,
    r: &'a Took,
    below: Option<usize>,
    beside: Option<usize>,
) -> Result<Option<usize>, NoMemory>
    requires owners { AreOf world.now lines.old.items }
    requires spelled { AllByRecursion IsLeaf r.now.leaves }
    requires room { r.now.from + length r.now.leaves < 2 ^ 64 }
    requires fronts { (b : Option (List Leaf)) × ((s : Option (List Leaf))
        × HasFront lines.old.items r.now below beside b s) }
    ensures holds { IfOk result (λ o. (b s : Option (List Leaf)) → HasFront lines.old.items r.now below beside b s
        → Holds lines.new.items r.now.wall (stands r.now b s) o) }
    ensures grows { OnOk result (Grows lines.old.items lines.new.items) }
    ensures owners { OnOk result (AreOf world.now lines.new.items) }
{
    match front(alloc, lines, world, r, below, beside)? {
        None => Ok(None),
        Some(i) => Ok(Some(extend(alloc, lines, i, r.from, r.leaves.as_slice())?)),
    }
}

/// The history of the record at a place, where there is one. Records of as many positions as `fuel` or fewer are
/// reached.
pub(crate) fn reach<'a, D: Digester>(
    alloc: Global,
    index: &Index<'a>,
    stories: &mut Stories<'a, D>,
    place: Option<usize>,
    fuel: u64,
) -> Result<Option<usize>, NoMemory>
    requires index { IsIndex index.now.world.now (map (λ r. r.now) index.now.records.items) }
    requires table { IsTable index.now.world.now stories.old.lines.items stories.old.rows.items }
    requires place { IfSome place (λ i. i < length (map (λ r. r.now) index.now.records.items)) }
    requires fuel { (r : Took) → option_and_then (slice_get (map (λ r. r.now) index.now.records.items)) place ≡ Some r
        → r.size ≤ fuel }
    ensures holds { IfOk result (λ o. HoldsAt index.now.world.now stories.new.lines.items
        (option_and_then (slice_get (map (λ r. r.now) index.now.records.items)) place) o) }
    ensures grows { OnOk result (Grows stories.old.lines.items stories.new.lines.items) }
    ensures table { OnOk result (IsTable index.now.world.now stories.new.lines.items stories.new.rows.items) }
{
    let Some(i) = place else {
        return Ok(None);
    };
    if let Row::Known(line) = stories.rows[i] {
        return Ok(line);
    }
    let r = index.records[i];
    let below = reach(alloc, index, stories, index.prev(r), fuel - 1)?;
    let beside = reach(alloc, index, stories, index.skipped(r), fuel - 1)?;
    let line = line_over(alloc, &mut stories.lines, index.world, r, below, beside)?;
    stories.rows[i] = Row::Known(line);
    Ok(line)
}

/// As many rows of which nothing is known.
fn no_rows(alloc: Global, count: usize) -> Result<Vec<Row>, NoMemory>
    ensures count { IfOk result (λ rows. length rows.items ≡ count) }
    ensures unknown { IfOk result (λ rows. AreUnknown rows.items) }
{
    let mut rows = Vec::new(alloc);
    for _ in 0..count {
        rows.push(Row::Unknown)?;
    }
    Ok(rows)
}

/// The histories of records, and which of them is each record's, where it has one.
#[derive(Drop)]
pub(crate) struct Histories<'a, D: Digester> {
    pub(crate) lines: Vec<Line<'a, D>>,
    pub(crate) places: Vec<Option<usize>>,
}

/// The history of each record, where it has one.
pub(crate) fn all_histories<'a, D: Digester>(
    alloc: Global,
    index: &Index<'a>,
) -> Result<Histories<'a, D>, NoMemory>
    requires { IsIndex index.now.world.now (map (λ r. r.now) index.now.records.items) }
    ensures { IfOk result (λ h. ArePlaces index.now.world.now h.lines.items h.places.items) }
{
    let mut stories = Stories {
        lines: Vec::new(alloc),
        rows: no_rows(alloc, index.records.len())?,
    };
    let mut places = Vec::new(alloc);
    for i in 0..index.records.len() {
        let size = index.records[i].size;
        places.push(reach(alloc, index, &mut stories, Some(i), size)?)?;
    }
    Ok(Histories {
        lines: stories.lines,
        places,
    })
}
