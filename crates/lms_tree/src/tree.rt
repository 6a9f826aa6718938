ghost use Rattle.std.specs.Prelude.{◌≡◌, ◌^◌, ◌≤◌, ◌<◌};
ghost use Rattle.lms_tree.specs.Valid.{inner_node, leaf_node, parent_node};
ghost use Rattle.lms_tree.specs.Signer.{sibling};

use lms_ots::{Dig, hasher_of};
use sha2::Digest;

// `D_LEAF` and `D_INTR` of RFC 8554, section 7.1: what is hashed.
const LEAF: u16 = 0x8282;

const INNER: u16 = 0x8383;

#[tactic(auto, unfolding(crate::specs::Valid::leaf_node))]
pub(crate) fn leaf_node(id: &[u8; 16], number: u32, key: &Dig) -> Dig
    ensures { result ≡ leaf_node id.now number key.now }
{
    let mut hasher = hasher_of(id, number, LEAF);
    hasher.update(key);
    hasher.finalize()
}

#[tactic(auto, unfolding(crate::specs::Valid::inner_node))]
pub(crate) fn inner_node(id: &[u8; 16], number: u32, left: &[u8], right: &[u8]) -> Dig
    ensures { result ≡ inner_node id.now number left.now right.now }
{
    let mut hasher = hasher_of(id, number, INNER);
    hasher.update(left);
    hasher.update(right);
    hasher.finalize()
}

// The parent of node `number` from the node and its sibling.
#[tactic(auto, unfolding(crate::specs::Valid::parent_node))]
pub(crate) fn parent_node(id: &[u8; 16], number: u32, node: &[u8], sibling: &[u8]) -> Dig
    ensures { result ≡ parent_node id.now number node.now sibling.now }
{
    if number % 2 == 1 {
        inner_node(id, number / 2, sibling, node)
    } else {
        inner_node(id, number / 2, node, sibling)
    }
}

// The number of a tree's leaves, which is also the number of the first of them.
pub(crate) fn leaves_of(h: u32) -> u32
    requires { h ≤ 25 }
    ensures { result ≡ 2 ^ h }
{
    1 << h
}

// The other child of the node's parent.
#[tactic(auto, unfolding(crate::specs::Signer::sibling))]
pub(crate) fn sibling(number: u32) -> u32
    requires { number < 2 ^ 31 }
    ensures { result ≡ sibling number }
{
    if number % 2 == 1 {
        number - 1
    } else {
        number + 1
    }
}
