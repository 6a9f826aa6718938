use crate::{Dig, OtsRefusal, digits, ots_candidate, ots_public, ots_sign};
use hex::FromHex;
use sha2::{Digest, Sha256};
use std::test::Fail;

#[test]
fn digits_of_zeros(rt: HostRuntime) {
    let mut wanted = [0u8; 34];
    wanted[32] = 31;
    wanted[33] = 224;
    assert_eq!(rt; digits::<4, 8, 34, 0>(&[0; 32]), wanted);
    let mut wanted = [0u8; 67];
    wanted[64] = 3;
    wanted[65] = 12;
    assert_eq!(rt; digits::<3, 4, 67, 4>(&[0; 32]), wanted);
}

#[test]
fn narrow_digits_of_zeros(rt: HostRuntime) {
    let mut wanted = [0u8; 133];
    wanted[128] = 1;
    wanted[129] = 2;
    assert_eq!(rt; digits::<2, 2, 133, 6>(&[0; 32]), wanted);
    let mut wanted = [0u8; 265];
    wanted[256] = 1;
    assert_eq!(rt; digits::<1, 1, 265, 7>(&[0; 32]), wanted);
}

// For each row of the table a key's identifier and seed, and the SHA-256 digest of its signature of the
// empty message at leaf 0, which another implementation made.
const KEYS: [(u32, &str, &str, &str); 4] = [
    (
        1,
        "b78f2abd266085eb7a1c90724779eaa4",
        "5e64365203613dcb8dcec45da3db6e56ca1d2f55c6dfdfa4e6b460017e220187",
        "88411ebcd2247bebbc044d531fcb53b278c5eddf5d7704e49a77452ab8f40177",
    ),
    (
        2,
        "bdbfed8b40756811118f2807e7b4bb60",
        "b058aa06581dee4064015bec1ed56dcd4e0ee0fe161c3271edd36c86dbda092e",
        "21416c7bf840eb0353c6e7fa8f9d5fb3b186bd1ea6312fd58d3351cd17c7000f",
    ),
    (
        3,
        "e1fce9569c515cf187c9603245b39b3e",
        "8baa1d780f03e794a920cdca2680d6be8f6c3c2685224bb365fe211755aed31e",
        "833f501004e6142341220e65c48898fd612806bc3dab20aa104aa7c53a609d1b",
    ),
    (
        4,
        "1ef7dcead60e944708f2af8d0f04ee5c",
        "f76023a7a0c2a769ddfd6881c93d6e5dcb8ee9e45dc13c24cf012cc9600c1c4d",
        "745b28a83f346d1b41b40c71d736aeb6ed9f9d2d74023acdefc5fe673c9a0b3e",
    ),
];

// The digest of a key's signature of the empty message at leaf 0, and whether it leads to the key.
macro_rules! signed {
    ($code:literal, $w:literal, $p:literal, $ls:literal, $len:literal, $id:expr, $private:expr) => {{
        let mut out = [0; $len];
        ots_sign::<$code, $w, $p, $ls>($id, 0, $private, &[], &mut out);
        let key = ots_public::<$code, $w, $p, $ls>($id, 0, $private);
        let candidate = ots_candidate::<$code, $w, $p, $ls>($id, 0, &[], &out);
        (Sha256::digest(&out), candidate == Ok(key))
    }};
}

fn signed_by_1(id: &[u8; 16], private: &Dig) -> (Dig, bool) {
    signed!(1, 1, 265, 7, 8516, id, private)
}

fn signed_by_2(id: &[u8; 16], private: &Dig) -> (Dig, bool) {
    signed!(2, 2, 133, 6, 4292, id, private)
}

fn signed_by_3(id: &[u8; 16], private: &Dig) -> (Dig, bool) {
    signed!(3, 4, 67, 4, 2180, id, private)
}

fn signed_by_4(id: &[u8; 16], private: &Dig) -> (Dig, bool) {
    signed!(4, 8, 34, 0, 1124, id, private)
}

fn signed(code: u32, id: &str, private: &str) -> Result<(Dig, bool), Fail> {
    let id = <[u8; 16]>::from_hex(id)?;
    let private = <[u8; 32]>::from_hex(private)?;
    Ok(match code {
        1 => signed_by_1(&id, &private),
        2 => signed_by_2(&id, &private),
        3 => signed_by_3(&id, &private),
        _ => signed_by_4(&id, &private),
    })
}

#[test]
fn signatures_are_those_of_another_implementation(rt: HostRuntime) -> Result<(), Fail> {
    for (code, id, private, signature) in KEYS {
        let signature = <[u8; 32]>::from_hex(signature)?;
        assert_eq!(rt; signed(code, id, private)?, (signature, true));
    }
    Ok(())
}

#[test]
fn refused_signatures(rt: HostRuntime) {
    let mut sig = [0; 1124];
    sig[3] = 3;
    let short = ots_candidate::<4, 8, 34, 0>(&[0x44; 16], 0, &[], &sig[..1123]);
    let refusal = OtsRefusal::Length {
        found: 1123,
        needed: 1124,
    };
    assert_eq!(rt; short, Err(refusal));
    let other_code = ots_candidate::<4, 8, 34, 0>(&[0x44; 16], 0, &[], &sig);
    let refusal = OtsRefusal::Code {
        found: 3,
        needed: 4,
    };
    assert_eq!(rt; other_code, Err(refusal));
}
