ghost use Rattle.std.specs.Prelude.{◌≤◌};

use crate::node_keys::NodeKeys;
use fr_digest::Dig;
use std::collections::BTreeMap;

mod learning;

/// A member's book of keys: what its user learnt from a wall's changes, by the node and the generation of each key.
///
/// Contracts see the keys that are held as a function from node and generation. A key is found in logarithmic time.
#[derive(Drop)]
pub struct KeyBook {
    wall: u32,
    depth: u8,
    user: u32,
    leaf: Dig,
    slot: Option<u8>,
    // By generation, the keys of that generation, each node once.
    keys: BTreeMap<u32, NodeKeys>,
    epochs: Vec<u32>,
    ghost levels: { (1 ≤ depth) × (depth ≤ 6) },
}
