ghost use Rattle.std.specs.Prelude.{◌≡◌, ◌+◌, ◌^◌, ◌<◌, ◌≤◌, List, None, Option, Some, length, map, option_and_then};
ghost use Rattle.std.specs.Prelude.{slice_get, ℕ, IfOk, IfSome};
ghost use Rattle.std.specs.List.{flat_map};
ghost use Rattle.op_types.specs.declared.op.Leaf.{Leaf};
ghost use Rattle.world_book.specs.declared.took.Took.{Took};
ghost use Rattle.world_book.specs.Records.{IsIn, records_of};
ghost use Rattle.world_audit.specs.Comparisons.{all_compared, base_compared, front_with, order, record_compared};
ghost use Rattle.world_audit.specs.Comparisons.{some_in, view_compared};
ghost use Rattle.world_audit.specs.Ready.{AreReady};
ghost use Rattle.world_audit.specs.Story.{prev, story};
ghost use Rattle.audit_run.specs.Compared.{Compared};
ghost use Rattle.audit_run.specs.Fronts.{IsLong, compared_on, fronts_compared, own_compared, shown_compared, view_on};
ghost use Rattle.audit_run.specs.Line.{History};
ghost use Rattle.audit_run.specs.Table.{ArePicked, ArePlaces, IsIndex};

use crate::clashes::{front_clash, states_clash, tree_clash};
use crate::index::Index;
use crate::line::Line;
use crate::stories::Histories;
use fr_bytes::NoMemory;
use fr_digest::{Clash, Digester};
use op_types::Leaf;
use std::alloc::Global;
use world_book::Took;

/// What stands at a place.
fn place_of(places: &[Option<usize>], i: usize) -> Option<usize>
    requires { i < length places.now }
    ensures { slice_get places.now i ≡ Some result }
{
    places[i]
}

/// The comparison of a record's tree with the history on which the record rests.
fn base_clash<D: Digester>(
    alloc: Global,
    index: &Index<'_>,
    histories: &Histories<'_, D>,
    r: &Took,
) -> Result<Option<Clash<D>>, NoMemory>
    requires index { IsIndex index.now.world.now (map (λ r. r.now) index.now.records.items) }
    requires places { ArePlaces index.now.world.now histories.now.lines.items histories.now.places.items }
    requires ready { AreReady D.digest_of (base_compared index.now.world.now r.now) }
    ensures { IfOk result (λ c. Compared D.digest_of (base_compared index.now.world.now r.now) c) }
{
    let Some(i) = index.base(r) else {
        return Ok(None);
    };
    let Some(line) = place_of(&histories.places, i) else {
        return Ok(None);
    };
    let size = index.records[i].size;
    let clash = tree_clash(alloc, &r.proof, r.size, &histories.lines[line], size)?;
    Ok(clash)
}

/// The comparison of the front of a history with that of the record at a place, where it has one. The record is one of
/// `v` positions.
fn fronts_clash<D: Digester>(
    alloc: Global,
    index: &Index<'_>,
    histories: &Histories<'_, D>,
    line: usize,
    place: Option<usize>,
    v: u64,
) -> Result<Option<Clash<D>>, NoMemory>
    requires index { IsIndex index.now.world.now (map (λ r. r.now) index.now.records.items) }
    requires places { ArePlaces index.now.world.now histories.now.lines.items histories.now.places.items }
    requires line { line < length histories.now.lines.items }
    requires long { (h : History) → slice_get histories.now.lines.items line ≡ Some h → v ≤ length h.leaves }
    requires within { IfSome place (λ i. i < length (map (λ r. r.now) index.now.records.items)) }
    requires size { (s : Took) → option_and_then (slice_get (map (λ r. r.now) index.now.records.items)) place ≡ Some s
        → s.size ≡ v }
    requires ready { (h : History) → slice_get histories.now.lines.items line ≡ Some h
        → AreReady D.digest_of (fronts_compared index.now.world.now v h.leaves
        (option_and_then (slice_get (map (λ r. r.now) index.now.records.items)) place)) }
    ensures { IfOk result (λ c. (h : History) → slice_get histories.now.lines.items line ≡ Some h
        → Compared D.digest_of (fronts_compared index.now.world.now v h.leaves
        (option_and_then (slice_get (map (λ r. r.now) index.now.records.items)) place)) c) }
{
    let Some(i) = place else {
        return Ok(None);
    };
    let Some(other) = place_of(&histories.places, i) else {
        return Ok(None);
    };
    let clash = front_clash(
        alloc,
        &histories.lines[line],
        &histories.lines[other],
        line == other,
        v,
    )?;
    Ok(clash)
}

/// The comparison of a history with that of the view that a leaf's honest author embeds.
fn view_clash<D: Digester>(
    alloc: Global,
    index: &Index<'_>,
    histories: &Histories<'_, D>,
    line: usize,
    wall: u32,
    leaf: &Leaf,
) -> Result<Option<Clash<D>>, NoMemory>
    requires index { IsIndex index.now.world.now (map (λ r. r.now) index.now.records.items) }
    requires places { ArePlaces index.now.world.now histories.now.lines.items histories.now.places.items }
    requires line { line < length histories.now.lines.items }
    requires long { (h : History) → slice_get histories.now.lines.items line ≡ Some h
        → leaf.now.op.view.size ≤ length h.leaves }
    requires ready { (h : History) → slice_get histories.now.lines.items line ≡ Some h
        → AreReady D.digest_of (view_on index.now.world.now wall h.leaves leaf.now) }
    ensures { IfOk result (λ c. (h : History) → slice_get histories.now.lines.items line ≡ Some h
        → Compared D.digest_of (view_on index.now.world.now wall h.leaves leaf.now) c) }
{
    let place = index.seen_by(wall, leaf);
    let clash = fronts_clash(alloc, index, histories, line, place, leaf.op.view.size)?;
    Ok(clash)
}

/// The comparisons of a history with those of the views that the leaves' honest authors embed.
fn views_clash<D: Digester>(
    alloc: Global,
    index: &Index<'_>,
    histories: &Histories<'_, D>,
    line: usize,
    wall: u32,
    leaves: &[Leaf],
) -> Result<Option<Clash<D>>, NoMemory>
    requires index { IsIndex index.now.world.now (map (λ r. r.now) index.now.records.items) }
    requires places { ArePlaces index.now.world.now histories.now.lines.items histories.now.places.items }
    requires line { line < length histories.now.lines.items }
    requires long { (h : History) → slice_get histories.now.lines.items line ≡ Some h → (i : ℕ) (l : Leaf)
        → slice_get leaves.now i ≡ Some l → l.op.view.size ≤ length h.leaves }
    requires ready { (h : History) → slice_get histories.now.lines.items line ≡ Some h
        → AreReady D.digest_of (flat_map (view_on index.now.world.now wall h.leaves) leaves.now) }
    ensures { IfOk result (λ c. (h : History) → slice_get histories.now.lines.items line ≡ Some h
        → Compared D.digest_of (flat_map (view_on index.now.world.now wall h.leaves) leaves.now) c) }
{
    for leaf in leaves {
        let clash = view_clash(alloc, index, histories, line, wall, leaf)?;
        if clash.is_some() {
            return Ok(clash);
        }
    }
    Ok(None)
}

/// The comparisons of a record's pruned lists, and of the views that its leaves' honest authors embed.
fn shown_clash<D: Digester>(
    alloc: Global,
    index: &Index<'_>,
    histories: &Histories<'_, D>,
    r: &Took,
    line: usize,
) -> Result<Option<Clash<D>>, NoMemory>
    requires index { IsIndex index.now.world.now (map (λ r. r.now) index.now.records.items) }
    requires places { ArePlaces index.now.world.now histories.now.lines.items histories.now.places.items }
    requires line { line < length histories.now.lines.items }
    requires room { r.now.from + length r.now.dicts < 2 ^ 64 }
    requires long { (h : History) → slice_get histories.now.lines.items line ≡ Some h → IsLong r.now h }
    requires ready { (h : History) → slice_get histories.now.lines.items line ≡ Some h
        → AreReady D.digest_of (shown_compared index.now.world.now r.now h) }
    ensures { IfOk result (λ c. (h : History) → slice_get histories.now.lines.items line ≡ Some h
        → Compared D.digest_of (shown_compared index.now.world.now r.now h) c) }
{
    let first = states_clash(alloc, &histories.lines[line], r.from, r.dicts.as_slice())?;
    if first.is_some() {
        return Ok(first);
    }
    let clash = views_clash(alloc, index, histories, line, r.wall, r.leaves.as_slice())?;
    Ok(clash)
}

/// The comparison with the history of the record before, and the comparisons of what a record shows.
fn own_clash<D: Digester>(
    alloc: Global,
    index: &Index<'_>,
    histories: &Histories<'_, D>,
    r: &Took,
    line: usize,
) -> Result<Option<Clash<D>>, NoMemory>
    requires index { IsIndex index.now.world.now (map (λ r. r.now) index.now.records.items) }
    requires places { ArePlaces index.now.world.now histories.now.lines.items histories.now.places.items }
    requires line { line < length histories.now.lines.items }
    requires room { r.now.from + length r.now.dicts < 2 ^ 64 }
    requires long { (h : History) → slice_get histories.now.lines.items line ≡ Some h → IsLong r.now h }
    requires old { (s : Took) → prev index.now.world.now r.now ≡ Some s → s.size ≡ r.now.have }
    requires ready { (h : History) → slice_get histories.now.lines.items line ≡ Some h
        → AreReady D.digest_of (own_compared index.now.world.now r.now h) }
    ensures { IfOk result (λ c. (h : History) → slice_get histories.now.lines.items line ≡ Some h
        → Compared D.digest_of (own_compared index.now.world.now r.now h) c) }
{
    let place = index.prev(r);
    let first = fronts_clash(alloc, index, histories, line, place, r.have)?;
    if first.is_some() {
        return Ok(first);
    }
    let clash = shown_clash(alloc, index, histories, r, line)?;
    Ok(clash)
}

/// All comparisons of a record, over a history that begins with its own.
fn record_clash<D: Digester>(
    alloc: Global,
    index: &Index<'_>,
    histories: &Histories<'_, D>,
    r: &Took,
    line: usize,
) -> Result<Option<Clash<D>>, NoMemory>
    requires index { IsIndex index.now.world.now (map (λ r. r.now) index.now.records.items) }
    requires places { ArePlaces index.now.world.now histories.now.lines.items histories.now.places.items }
    requires line { line < length histories.now.lines.items }
    requires room { r.now.from + length r.now.dicts < 2 ^ 64 }
    requires long { (h : History) → slice_get histories.now.lines.items line ≡ Some h → IsLong r.now h }
    requires old { (s : Took) → prev index.now.world.now r.now ≡ Some s → s.size ≡ r.now.have }
    requires ready { (h : History) → slice_get histories.now.lines.items line ≡ Some h
        → AreReady D.digest_of (compared_on index.now.world.now r.now h) }
    ensures { IfOk result (λ c. (h : History) → slice_get histories.now.lines.items line ≡ Some h
        → Compared D.digest_of (compared_on index.now.world.now r.now h) c) }
{
    let first = base_clash(alloc, index, histories, r)?;
    if first.is_some() {
        return Ok(first);
    }
    let clash = own_clash(alloc, index, histories, r, line)?;
    Ok(clash)
}

/// A number of positions is less than 2^64. This is for the proof alone and computes nothing.
fn is_counted(count: u64)
    ensures { count < 2 ^ 64 }
{}

/// All comparisons of the record at a place: none where it has no history.
fn place_clash<D: Digester>(
    alloc: Global,
    index: &Index<'_>,
    histories: &Histories<'_, D>,
    i: usize,
) -> Result<Option<Clash<D>>, NoMemory>
    requires index { IsIndex index.now.world.now (map (λ r. r.now) index.now.records.items) }
    requires places { ArePlaces index.now.world.now histories.now.lines.items histories.now.places.items }
    requires within { i < length index.now.records.items }
    requires ready { (r : Took) → slice_get (map (λ r. r.now) index.now.records.items) i ≡ Some r
        → AreReady D.digest_of (record_compared index.now.world.now r) }
    ensures { IfOk result (λ c. (r : Took) → slice_get (map (λ r. r.now) index.now.records.items) i ≡ Some r
        → Compared D.digest_of (record_compared index.now.world.now r) c) }
{
    let Some(line) = place_of(&histories.places, i) else {
        return Ok(None);
    };
    let r = index.records[i];
    is_counted(r.size);
    let clash = record_clash(alloc, index, histories, r, line)?;
    Ok(clash)
}

/// The first comparison that differs, over the records in their order.
pub(crate) fn first_clash<D: Digester>(
    alloc: Global,
    index: &Index<'_>,
    histories: &Histories<'_, D>,
    places: &[usize],
) -> Result<Option<Clash<D>>, NoMemory>
    requires index { IsIndex index.now.world.now (map (λ r. r.now) index.now.records.items) }
    requires places { ArePlaces index.now.world.now histories.now.lines.items histories.now.places.items }
    requires order { ArePicked (map (λ r. r.now) index.now.records.items) places.now (order index.now.world.now) }
    requires ready { AreReady D.digest_of (all_compared index.now.world.now) }
    ensures { IfOk result (λ c. Compared D.digest_of (all_compared index.now.world.now) c) }
{
    for i in places {
        let clash = place_clash(alloc, index, histories, *i)?;
        if clash.is_some() {
            return Ok(clash);
        }
    }
    Ok(None)
}
