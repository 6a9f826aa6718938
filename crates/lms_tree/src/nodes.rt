ghost use Rattle.std.specs.Prelude.{◌≡◌, ℕ, ◌+◌, ◌*◌, ◌^◌, ◌<◌, ◌≤◌, ◌++◌, [], IfOk, length, take, slice_index_or};
ghost use Rattle.std.specs.List.{flat_map, range_with_len};
ghost use Rattle.lms_params.specs.Parameters.{IsListed};
ghost use Rattle.lms_tree.specs.Signer.{HoldsTree, node, sibling_in, signature_at};
ghost use Rattle.lms_tree.specs.Valid.{inner_node};

use crate::rows::{public_value, write_one_time};
use crate::tree::{inner_node, leaf_node, leaves_of, sibling};
use fr_bytes::NoMemory;
use lms_ots::{Dig, write_at};
use lms_params::Pair;
use std::alloc::Global;

// Writes the leaves of a seed's tree into a list, T[r] at place r.
fn fill_leaves(private: &Dig, id: &[u8; 16], pair: Pair, nodes: &mut [Dig])
    requires listed { IsListed pair }
    requires low { pair.lms.h ≤ 10 }
    requires room { length nodes.old ≡ 2 * 2 ^ pair.lms.h }
    ensures { (r : ℕ) → 2 ^ pair.lms.h ≤ r → r < 2 * 2 ^ pair.lms.h
        → slice_index_or nodes.new r [] ≡ node private.now id.now pair 0 r }
{
    let leaves = leaves_of(pair.lms.h);
    for q in 0..leaves {
        let key = public_value(pair.ots, id, q, private);
        nodes[(leaves + q) as usize] = leaf_node(id, leaves + q, &key);
    }
}

// Writes the inner nodes over so many leaves into the list, from the last to the root.
fn fill_inner(id: &[u8; 16], leaves: u32, nodes: &mut [Dig])
    requires low { leaves ≤ 1024 }
    requires room { length nodes.old ≡ 2 * leaves }
    ensures kept { (r : ℕ) → leaves ≤ r
        → slice_index_or nodes.new r [] ≡ slice_index_or nodes.old r [] }
    ensures inner { (r : ℕ) → 0 < r → r < leaves → slice_index_or nodes.new r []
        ≡ inner_node id.now r (slice_index_or nodes.new (2 * r) []) (slice_index_or nodes.new (2 * r + 1) []) }
{
    for i in 1..leaves {
        let number = leaves - i;
        let left = 2 * number as usize;
        nodes[number as usize] = inner_node(id, number, &nodes[left], &nodes[left + 1]);
    }
}

// Fills a list with the tree of a seed, T[r] at place r.
fn fill_tree(private: &Dig, id: &[u8; 16], pair: Pair, nodes: &mut [Dig])
    requires listed { IsListed pair }
    requires low { pair.lms.h ≤ 10 }
    requires room { length nodes.old ≡ 2 * 2 ^ pair.lms.h }
    ensures { HoldsTree private.now id.now pair nodes.new }
{
    fill_leaves(private, id, pair, nodes);
    fill_inner(id, leaves_of(pair.lms.h), nodes);
}

// The tree of a seed as a list.
pub(crate) fn tree_of(
    alloc: Global,
    private: &Dig,
    id: &[u8; 16],
    pair: Pair,
) -> Result<Vec<Dig>, NoMemory>
    requires listed { IsListed pair }
    requires low { pair.lms.h ≤ 10 }
    ensures { IfOk result (λ nodes. HoldsTree private.now id.now pair nodes.items) }
{
    let count = 2 * leaves_of(pair.lms.h) as usize;
    let mut nodes = vec![in alloc; [0u8; 32]; count]?;
    fill_tree(private, id, pair, &mut nodes);
    Ok(nodes)
}

// Writes the path of a leaf behind `at` bytes.
fn write_path(pair: Pair, index: u32, nodes: &[Dig], at: usize, out: &mut [u8])
    requires low { pair.lms.h ≤ 10 }
    requires leaf { index < 2 ^ pair.lms.h }
    requires count { length nodes.now ≡ 2 * 2 ^ pair.lms.h }
    requires room { at + 32 * pair.lms.h ≤ length out.old }
    ensures { take (at + 32 * pair.lms.h) out.new ≡ take at out.old
        ++ flat_map (sibling_in nodes.now (index + 2 ^ pair.lms.h)) (range_with_len 0 pair.lms.h) }
{
    let mut number = index + leaves_of(pair.lms.h);
    for j in 0..pair.lms.h as usize {
        write_at(out, at + 32 * j, &nodes[sibling(number) as usize]);
        number /= 2;
    }
}

// Writes the signature of a message by a leaf of the tree.
pub(crate) fn write_signature(
    private: &Dig,
    id: &[u8; 16],
    pair: Pair,
    index: u32,
    message: &[u8],
    nodes: &[Dig],
    out: &mut [u8],
)
    requires listed { IsListed pair }
    requires low { pair.lms.h ≤ 10 }
    requires leaf { index < 2 ^ pair.lms.h }
    requires tree { HoldsTree private.now id.now pair nodes.now }
    requires room { length out.old ≡ 8 + pair.ots.sig_len + 32 * pair.lms.h }
    ensures { out.new ≡ signature_at private.now id.now pair index message.now }
{
    let behind = 4 + pair.ots.sig_len as usize;
    write_at(out, 0, &index.to_be_bytes());
    write_one_time(pair.ots, id, index, private, message, out);
    write_at(out, behind, &pair.lms.code.to_be_bytes());
    write_path(pair, index, nodes, behind + 4, out);
}
