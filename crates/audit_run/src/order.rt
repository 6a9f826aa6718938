ghost use Rattle.std.specs.Prelude.{◌≡◌, ◌<◌, ◌++◌, ◌∷◌, [], ℕ, List, Option, Some, filter, fold, is_some, length};
ghost use Rattle.std.specs.Prelude.{map, option_and_then, reverse, slice_get, IfOk, IfSome, OnOk};
ghost use Rattle.std.specs.List.{flat_map};
ghost use Rattle.op_types.specs.declared.op.Leaf.{Leaf};
ghost use Rattle.world_book.specs.declared.took.Took.{Took};
ghost use Rattle.world_audit.specs.Comparisons.{is_done, is_same_record, needed, order, seen_by, some_in, visit};
ghost use Rattle.world_audit.specs.Story.{story};
ghost use Rattle.audit_run.specs.Answer.{count_grounded, has_story};
ghost use Rattle.audit_run.specs.Line.{History};
ghost use Rattle.audit_run.specs.Table.{AreDone, ArePicked, ArePlaces, IsIndex};

use crate::index::Index;
use fr_bytes::NoMemory;
use op_types::Leaf;
use std::alloc::Global;
use world_book::Took;

/// Whether both are the record of one user, wall and size.
fn is_same_record(r: &Took, s: &Took) -> bool
    ensures { result ≡ is_same_record r.now s.now }
{
    r.user == s.user && r.wall == s.wall && r.size == s.size
}

/// Whether the record stands at one of these places.
fn is_done(index: &Index<'_>, order: &[usize], r: &Took) -> bool
    requires { (done : List Took) × AreDone (map (λ r. r.now) index.now.records.items) order.now done }
    ensures { (done : List Took) → AreDone (map (λ r. r.now) index.now.records.items) order.now done
        → result ≡ is_done done r.now }
{
    for i in order {
        if is_same_record(r, index.records[*i]) {
            return true;
        }
    }
    false
}

/// Adds the place, if there is one.
fn push_some(places: &mut Vec<usize>, place: Option<usize>) -> Result<(), NoMemory>
    ensures { OnOk result (places.new.items ≡ places.old.items ++ some_in place) }
{
    if let Some(i) = place {
        places.push(i)?;
    }
    Ok(())
}

/// Whether the record has a history.
fn has_place(places: &[Option<usize>], i: usize) -> bool
    requires { i < length places.now }
    ensures { (place : Option ℕ) → slice_get places.now i ≡ Some place → result ≡ is_some place }
{
    places[i].is_some()
}

/// The place of the record of the view that an honest author's operation embeds, where that has a history.
fn seen_place(index: &Index<'_>, places: &[Option<usize>], wall: u32, leaf: &Leaf) -> Option<usize>
    requires index { IsIndex index.now.world.now (map (λ r. r.now) index.now.records.items) }
    requires places { (lines : List History) × ArePlaces index.now.world.now lines places.now }
    ensures { ArePicked (map (λ r. r.now) index.now.records.items) (some_in result)
        (filter (has_story index.now.world.now) (some_in (seen_by index.now.world.now wall leaf.now))) }
{
    let Some(i) = index.seen_by(wall, leaf) else {
        return None;
    };
    if !has_place(places, i) {
        return None;
    }
    Some(i)
}

/// Adds the places of the records of the views that these leaves' honest authors embed, of those that have a history.
fn push_seen(
    out: &mut Vec<usize>,
    index: &Index<'_>,
    places: &[Option<usize>],
    wall: u32,
    leaves: &[Leaf],
) -> Result<(), NoMemory>
    requires index { IsIndex index.now.world.now (map (λ r. r.now) index.now.records.items) }
    requires places { (lines : List History) × ArePlaces index.now.world.now lines places.now }
    ensures { OnOk result ((rs : List Took) → ArePicked (map (λ r. r.now) index.now.records.items) out.old.items rs
        → ArePicked (map (λ r. r.now) index.now.records.items) out.new.items
        (rs ++ filter (has_story index.now.world.now)
        (flat_map (λ (l : Leaf). some_in (seen_by index.now.world.now wall l)) leaves.now))) }
{
    for leaf in leaves {
        push_some(out, seen_place(index, places, wall, leaf))?;
    }
    Ok(())
}

/// The places of the records that a record's comparisons speak of.
fn needed_places(
    alloc: Global,
    index: &Index<'_>,
    places: &[Option<usize>],
    r: &Took,
) -> Result<Vec<usize>, NoMemory>
    requires index { IsIndex index.now.world.now (map (λ r. r.now) index.now.records.items) }
    requires places { (lines : List History) × ArePlaces index.now.world.now lines places.now }
    ensures { IfOk result (λ v. ArePicked (map (λ r. r.now) index.now.records.items) v.items
        (needed index.now.world.now r.now)) }
{
    let mut out = Vec::new(alloc);
    push_some(&mut out, index.prev(r))?;
    push_some(&mut out, index.skipped(r))?;
    push_seen(&mut out, index, places, r.wall, r.leaves.as_slice())?;
    Ok(out)
}

/// Adds the record at a place behind those that it needs, each once. No more than `fuel` records need one another.
fn visit(
    alloc: Global,
    order: &mut Vec<usize>,
    index: &Index<'_>,
    places: &[Option<usize>],
    i: usize,
    fuel: u64,
) -> Result<(), NoMemory>
    requires index { IsIndex index.now.world.now (map (λ r. r.now) index.now.records.items) }
    requires places { (lines : List History) × ArePlaces index.now.world.now lines places.now }
    requires within { i < length index.now.records.items }
    requires done { (done : List Took) × AreDone (map (λ r. r.now) index.now.records.items) order.old.items done }
    ensures { OnOk result ((r : Took) (done : List Took)
        → slice_get (map (λ r. r.now) index.now.records.items) i ≡ Some r
        → AreDone (map (λ r. r.now) index.now.records.items) order.old.items done
        → AreDone (map (λ r. r.now) index.now.records.items) order.new.items (visit fuel index.now.world.now done r)) }
{
    if fuel == 0 {
        return Ok(());
    }
    let r = index.records[i];
    if is_done(index, order, r) {
        return Ok(());
    }
    let needed = needed_places(alloc, index, places, r)?;
    for j in &needed {
        visit(alloc, order, index, places, *j, fuel - 1)?;
    }
    order.push(i)?;
    Ok(())
}

/// Visits the record at a place, where it has a history.
fn visit_grounded(
    alloc: Global,
    order: &mut Vec<usize>,
    index: &Index<'_>,
    places: &[Option<usize>],
    i: usize,
) -> Result<(), NoMemory>
    requires index { IsIndex index.now.world.now (map (λ r. r.now) index.now.records.items) }
    requires places { (lines : List History) × ArePlaces index.now.world.now lines places.now }
    requires within { i < length index.now.records.items }
    requires done { (done : List Took) × AreDone (map (λ r. r.now) index.now.records.items) order.old.items done }
    ensures { OnOk result ((r : Took) (done : List Took)
        → slice_get (map (λ r. r.now) index.now.records.items) i ≡ Some r
        → AreDone (map (λ r. r.now) index.now.records.items) order.old.items done
        → AreDone (map (λ r. r.now) index.now.records.items) order.new.items
        (fold (λ (ds : List Took) (s : Took). visit s.size index.now.world.now ds s) done
        (filter (has_story index.now.world.now) (r ∷ [])))) }
{
    if !has_place(places, i) {
        return Ok(());
    }
    let size = index.records[i].size;
    visit(alloc, order, index, places, i, size)?;
    Ok(())
}

/// The places of the records that have a history, each behind those that it needs.
pub(crate) fn places_in_order(
    alloc: Global,
    index: &Index<'_>,
    places: &[Option<usize>],
) -> Result<Vec<usize>, NoMemory>
    requires index { IsIndex index.now.world.now (map (λ r. r.now) index.now.records.items) }
    requires places { (lines : List History) × ArePlaces index.now.world.now lines places.now }
    ensures { IfOk result (λ v. ArePicked (map (λ r. r.now) index.now.records.items) v.items
        (order index.now.world.now)) }
{
    let mut order = Vec::new(alloc);
    for i in 0..index.records.len() {
        visit_grounded(alloc, &mut order, index, places, i)?;
    }
    Ok(order)
}
