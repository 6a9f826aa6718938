use fr_bytes::Bytes;
use lms_ots::{Dig, digits};
use lms_params::Pair;
use sha2::{Digest, Sha256};

// The hash of a message, whose digits say where the signature's chains begin (RFC 8554, section 4.6).
fn message_hash(id: &[u8; 16], index: u32, message: &[u8], signature: &[u8]) -> Dig {
    let mut hasher = Sha256::new();
    hasher.update(id);
    hasher.update(&index.to_be_bytes());
    hasher.update(&[0x81; 2]);
    hasher.update(signature.get(8..40).unwrap_or(&[]));
    hasher.update(message);
    hasher.finalize()
}

// How many steps are left from these digits to the ends of their chains.
fn steps_behind(digits: &[u8], top: u32) -> u64 {
    let mut steps = 0u64;
    for digit in digits {
        steps = steps.saturating_add(top.saturating_sub(*digit as u32) as u64);
    }
    steps
}

fn steps_of(pair: Pair, hash: &Dig) -> u64 {
    macro_rules! by_row {
        ($code:literal, $w:literal, $p:literal, $ls:literal) => {
            steps_behind(&digits::<$code, $w, $p, $ls>(hash), (1 << $w) - 1)
        };
    }
    lms_params::match_row!(pair.ots.code, by_row(), 0)
}

// The blocks of 64 bytes that a string has with its padding (FIPS 180-4, section 5.1.1).
fn blocks_of(length: u64) -> u64 {
    length.saturating_add(9).div_ceil(64)
}

/// How many compressions it takes to verify the signatures of the numbers 0, 1, 2 and so on, of four
/// bytes each: one for each step of a chain, and those of the message, of the ends of all chains, of
/// the leaf and of each node of the path.
pub fn verifying(pair: Pair, id: &[u8; 16], signatures: &[Bytes]) -> u64 {
    let message = blocks_of(16 + 4 + 2 + 32 + 4);
    let ends = blocks_of(16 + 4 + 2 + 32 * pair.ots.p as u64);
    let leaf = blocks_of(16 + 4 + 2 + 32);
    let path = blocks_of(16 + 4 + 2 + 64).saturating_mul(pair.lms.h as u64);
    let others = message
        .saturating_add(ends)
        .saturating_add(leaf)
        .saturating_add(path);
    let mut all = 0u64;
    let mut number = 0u32;
    for signature in signatures {
        let hash = message_hash(id, number, &number.to_be_bytes(), signature.as_slice());
        all = all
            .saturating_add(others)
            .saturating_add(steps_of(pair, &hash));
        number = number.wrapping_add(1);
    }
    all
}
