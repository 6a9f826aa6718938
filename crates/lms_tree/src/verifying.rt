ghost use Rattle.std.specs.Prelude.{◌≡◌, ◌↔◌, ◌+◌, ◌*◌, ◌^◌, ◌<◌, ◌≤◌, IsTrue, length, slice_range};
ghost use Rattle.lms_params.specs.Parameters.{IsOtsRow, ots_row};
ghost use Rattle.lms_tree.specs.Valid.{Valid, is_valid, key_by, leaf_node, path_node};

use crate::key::PublicKey;
use crate::tree::{leaf_node, leaves_of, parent_node};
use lms_ots::{Dig, number_at, ots_candidate};

// The node at the top of a path of `h` siblings, which begins at leaf `q` with its candidate key.
fn top_of(id: &[u8; 16], q: u32, h: u32, candidate: &Dig, path: &[u8]) -> Dig
    requires low { h ≤ 25 }
    requires leaf { q < 2 ^ h }
    requires whole { length path.now ≡ 32 * h }
    ensures { result ≡ path_node id.now (q + 2 ^ h) (leaf_node id.now (q + 2 ^ h) candidate.now)
        (λ j. slice_range path.now (32 * j) (32 * j + 32)) h }
{
    let mut number = q + leaves_of(h);
    let mut node = leaf_node(id, number, candidate);
    for j in 0..h as usize {
        node = parent_node(id, number, &node, &path[32 * j..32 * j + 32]);
        number /= 2;
    }
    node
}

// Whether the signature is valid under the identifier and the root, by the numbers of one pair.
fn is_valid_of<
    const LMS: u32,
    const H: u32,
    const CODE: u32,
    const W: u32,
    const P: usize,
    const LS: u32,
>(id: &[u8; 16], root: &Dig, message: &[u8], sig: &[u8]) -> bool
    requires row { IsOtsRow CODE W P LS }
    requires low { H ≤ 25 }
    ensures { result ≡ is_valid (key_by LMS H CODE W P LS id.now root.now) message.now sig.now }
{
    let behind = 4 + 4 + 32 * (P + 1);
    if sig.len() != behind + 4 + 32 * H as usize {
        return false;
    }
    if number_at(sig, behind) != LMS {
        return false;
    }
    let q = number_at(sig, 0);
    if q >= leaves_of(H) {
        return false;
    }
    let Ok(candidate) = ots_candidate::<CODE, W, P, LS>(id, q, message, &sig[4..behind]) else {
        return false;
    };
    top_of(id, q, H, &candidate, &sig[behind + 4..]) == *root
}

// The same of a key of that pair.
fn is_valid_by<
    const LMS: u32,
    const H: u32,
    const CODE: u32,
    const W: u32,
    const P: usize,
    const LS: u32,
>(key: &PublicKey, message: &[u8], sig: &[u8]) -> bool
    requires row { IsOtsRow CODE W P LS }
    requires low { H ≤ 25 }
    requires lms { key.now.pair.lms ≡ record { code = LMS; h = H } }
    requires ots { key.now.pair.ots ≡ ots_row CODE W P LS }
    ensures valid { IsTrue result ↔ Valid key.now message.now sig.now }
    ensures decided { result ≡ is_valid key.now message.now sig.now }
{
    is_valid_of::<LMS, H, CODE, W, P, LS>(&key.id, &key.root, message, sig)
}

/// Whether `sig` is a valid LMS signature of `message` under `key` (RFC 8554, section 5.4.2): it has
/// the length of the key's parameter sets and both of their typecodes, its leaf is one of the tree,
/// and its chains and path lead to the root. It takes no memory.
pub fn verify(key: &PublicKey, message: &[u8], sig: &[u8]) -> bool
    ensures valid { IsTrue result ↔ Valid key.now message.now sig.now }
    ensures decided { result ≡ is_valid key.now message.now sig.now }
{
    macro_rules! by_pair {
        ($lms:literal, $h:literal, $code:literal, $w:literal, $p:literal, $ls:literal) => {
            is_valid_by::<$lms, $h, $code, $w, $p, $ls>(key, message, sig)
        };
    }
    lms_params::match_pair!(
        key.pair.lms.code,
        key.pair.ots.code,
        by_pair,
        unreachable!()
    )
}
