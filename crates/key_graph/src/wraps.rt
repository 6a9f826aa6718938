// The wraps of a planned change.

ghost use Rattle.key_graph.specs.KeyTree.{ancestors, generation, generation_at, inner_text, key_at, sealed, wrap_at, wraps_above, wraps_of};
ghost use Rattle.op_types.specs.declared.kind.Wrap.{Wrap};
ghost use Rattle.op_types.specs.Spelling.{AreWraps, IsWrap};
ghost use Rattle.std.specs.List.{AllByRecursion, list_any};
ghost use Rattle.std.specs.Option.{option_to_list};
ghost use Rattle.std.specs.Prelude.{◌≡◌, ◌+◌, ◌*◌, ◌/◌, ◌^◌, ◌<◌, ◌≤◌, ◌∷◌, ◌++◌, ℕ, IfOk, OnOk, length, nat_eq, reverse, true};

use crate::change::{Change, Setting};
use crate::history::{generation, has_member, holder, slots};
use crate::keys::inner_key;
use fr_bytes::NoMemory;
use fr_digest::Dig;
use op_types::{Wrap, laws};
use pad_wrap::wrap32;
use std::alloc::Global;

// The current key of a node with a member below it.
#[tactic(auto, unfolding(crate::specs::KeyTree::key_at))]
fn key_at(setting: &Setting, changes: &[Change], node: u32) -> Option<Dig>
    requires depth { setting.now.depth ≤ 6 }
    requires node { node < 2 * 2 ^ setting.now.depth }
    ensures { result ≡ key_at setting.now (reverse changes.now) node }
{
    let first = u32::from(slots(setting.depth));
    if node < first {
        if has_member(setting.depth, changes, node) {
            let gen_ = generation(setting.depth, changes, node);
            Some(inner_key(&setting.master, setting.wall, node, gen_))
        } else {
            None
        }
    } else {
        match holder(changes, (node - first) as u8) {
            Some(member) => Some(member.leaf),
            None => None,
        }
    }
}

// The generation of a node's current key.
#[tactic(auto, unfolding(crate::specs::KeyTree::generation_at))]
fn generation_at(depth: u8, changes: &[Change], node: u32) -> u32
    requires { depth ≤ 6 }
    ensures { result ≡ generation_at depth (reverse changes.now) node }
{
    if node < u32::from(slots(depth)) {
        generation(depth, changes, node)
    } else {
        0
    }
}

// The wrap of `new`, the new key of a child's parent, under the child's current key.
fn sealed(
    setting: &Setting,
    changes: &[Change],
    gen_: u32,
    child: u32,
    key: &Dig,
    new: &Dig,
) -> Wrap
    requires depth { setting.now.depth ≤ 6 }
    requires child { (2 ≤ child) × (child < 128) }
    requires new { new.now ≡ inner_text setting.now.master setting.now.wall (child / 2) gen_ }
    ensures value { result ≡ sealed setting.now (reverse changes.now) gen_ child key.now }
    ensures spelled { IsWrap result }
{
    let stream = u64::from(child / 2) * 0x1_0000_0000 + u64::from(gen_);
    let body = wrap32(key, stream, new);
    laws::slices_of_bytes(&body);
    Wrap {
        child,
        child_gen: generation_at(setting.depth, changes, child),
        body,
    }
}

// Puts the wrap of `new`, the new key of a child's parent, behind `out`, where the child has a key.
#[tactic(auto, unfolding(crate::specs::KeyTree::wrap_at))]
fn put_wrap(
    setting: &Setting,
    changes: &[Change],
    gen_: u32,
    child: u32,
    key: &Option<Dig>,
    new: &Dig,
    out: &mut Vec<Wrap>,
) -> Result<(), NoMemory>
    requires depth { setting.now.depth ≤ 6 }
    requires child { (2 ≤ child) × (child < 128) }
    requires key { key.now ≡ key_at setting.now (reverse changes.now) child }
    requires new { new.now ≡ inner_text setting.now.master setting.now.wall (child / 2) gen_ }
    ensures wraps { OnOk result (out.new.items ≡ out.old.items ++ option_to_list (wrap_at setting.now (reverse changes.now) gen_ child)) }
    ensures few { OnOk result (length out.new.items ≤ length out.old.items + 1) }
    ensures spelled { OnOk result (AllByRecursion IsWrap out.old.items → AllByRecursion IsWrap out.new.items) }
{
    let Some(key) = key else {
        return Ok(());
    };
    out.push(sealed(setting, changes, gen_, child, key, new))?;
    Ok(())
}

// Puts the wraps of the `levels` ancestors of node `n`, whose current key is `key`, behind `out`. Each of these
// ancestors has the generation `gen_`, and each key is hashed once.
fn put_wraps(
    setting: &Setting,
    changes: &[Change],
    gen_: u32,
    levels: u8,
    n: u32,
    key: Option<Dig>,
    out: &mut Vec<Wrap>,
) -> Result<(), NoMemory>
    requires depth { (setting.now.depth ≤ 6) × (levels ≤ setting.now.depth) }
    requires node { (2 ^ levels ≤ n) × (n < 2 * 2 ^ levels) }
    requires nodes { 2 * 2 ^ levels ≤ 2 * 2 ^ setting.now.depth }
    requires key { key ≡ key_at setting.now (reverse changes.now) n }
    requires newest { (x : ℕ) → list_any (nat_eq x) (ancestors levels n) ≡ true → generation setting.now.depth (reverse changes.now) x ≡ gen_ }
    ensures wraps { OnOk result (out.new.items ≡ out.old.items ++ wraps_above setting.now (reverse changes.now) gen_ levels n) }
    ensures few { OnOk result (length out.new.items ≤ length out.old.items + 2 * levels) }
    ensures spelled { OnOk result (AllByRecursion IsWrap out.old.items → AllByRecursion IsWrap out.new.items) }
{
    if levels == 0 {
        return Ok(());
    }
    let parent = n / 2;
    let new = inner_key(&setting.master, setting.wall, parent, gen_);
    let left = 2 * parent;
    let right = left + 1;
    let (below_left, below_right) = if n == left {
        (key, key_at(setting, changes, right))
    } else {
        (key_at(setting, changes, left), key)
    };
    put_wrap(setting, changes, gen_, left, &below_left, &new, out)?;
    put_wrap(setting, changes, gen_, right, &below_right, &new, out)?;
    let above = if has_member(setting.depth, changes, parent) {
        Some(new)
    } else {
        None
    };
    put_wraps(setting, changes, gen_, levels - 1, parent, above, out)
}

/// The wraps of a change that comes after `before`.
#[tactic(auto, unfolding(crate::specs::KeyTree::wraps_of))]
pub fn wraps_of(
    setting: &Setting,
    before: &[Change],
    change: &Change,
    alloc: Global,
) -> Result<Vec<Wrap>, NoMemory>
    requires depth { setting.now.depth ≤ 6 }
    requires slot { change.now.slot < 2 ^ setting.now.depth }
    ensures wraps { IfOk result (λ wraps. wraps.items ≡ wraps_of setting.now (record { change = change.now; before = reverse before.now })) }
    ensures spelled { IfOk result (λ wraps. AreWraps wraps.items) }
{
    let mut after = Vec::from_slice(alloc, before)?;
    after.push(*change)?;
    let changes = after.as_slice();
    let first = u32::from(slots(setting.depth));
    let node = first + u32::from(change.slot);
    let key = key_at(setting, changes, node);
    let mut out = Vec::new(alloc);
    put_wraps(
        setting,
        changes,
        change.generation,
        setting.depth,
        node,
        key,
        &mut out,
    )?;
    Ok(out)
}
