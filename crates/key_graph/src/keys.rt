ghost use Rattle.key_graph.specs.KeyTree.{inner_text, leaf_text};
ghost use Rattle.std.specs.Prelude.{◌≡◌};

use fr_digest::Dig;
use sha2::{Digest, Sha256};

/// The tag of the string of which an inner node's key is made.
pub const INNER_KEY_TAG: u8 = 0x20;

/// The tag of the string of which a leaf key is made.
pub const LEAF_KEY_TAG: u8 = 0x21;

/// The key of inner node `node` in the generation `gen_` on `wall`: the SHA-256 of the byte 20 (hexadecimal), the
/// owner's 32-byte `master`, and the three numbers, big-endian in four bytes each. Takes no memory.
#[tactic(auto, unfolding(crate::specs::KeyTree::inner_text))]
pub fn inner_key(master: &Dig, wall: u32, node: u32, gen_: u32) -> Dig
    ensures { result ≡ inner_text master.now wall node gen_ }
{
    let mut hasher = Sha256::new();
    hasher.update(&[INNER_KEY_TAG]);
    hasher.update(master);
    hasher.update(&wall.to_be_bytes());
    hasher.update(&node.to_be_bytes());
    hasher.update(&gen_.to_be_bytes());
    hasher.finalize()
}

/// The leaf key of `user` on `wall`: the SHA-256 of the byte 21 (hexadecimal), the 32-byte `secret` that the user
/// shares with the wall's owner, and the wall's number, big-endian in four bytes. `user` names who holds the key and
/// isn't hashed. Takes no memory.
#[tactic(auto, unfolding(crate::specs::KeyTree::leaf_text))]
pub fn leaf_key(secret: &Dig, wall: u32, user: u32) -> Dig
    ensures { result ≡ leaf_text secret.now wall }
{
    let _holder = user;
    let mut hasher = Sha256::new();
    hasher.update(&[LEAF_KEY_TAG]);
    hasher.update(secret);
    hasher.update(&wall.to_be_bytes());
    hasher.finalize()
}
