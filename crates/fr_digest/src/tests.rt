use crate::{Clash, Dig, Digester, Sha, Short};
use std::test::Fail;

// SHA-256 of no bytes, of "abc" (FIPS 180-4's example) and of the byte 0 followed by "hi".
const EMPTY: Dig = [
    0xe3, 0xb0, 0xc4, 0x42, 0x98, 0xfc, 0x1c, 0x14, 0x9a, 0xfb, 0xf4, 0xc8, 0x99, 0x6f, 0xb9, 0x24,
    0x27, 0xae, 0x41, 0xe4, 0x64, 0x9b, 0x93, 0x4c, 0xa4, 0x95, 0x99, 0x1b, 0x78, 0x52, 0xb8, 0x55,
];

const ABC: Dig = [
    0xba, 0x78, 0x16, 0xbf, 0x8f, 0x01, 0xcf, 0xea, 0x41, 0x41, 0x40, 0xde, 0x5d, 0xae, 0x22, 0x23,
    0xb0, 0x03, 0x61, 0xa3, 0x96, 0x17, 0x7a, 0x9c, 0xb4, 0x10, 0xff, 0x61, 0xf2, 0x00, 0x15, 0xad,
];

const ZERO_HI: Dig = [
    0xe6, 0x90, 0x80, 0x25, 0xcd, 0x50, 0xce, 0x38, 0x0f, 0xee, 0xcf, 0xea, 0xed, 0xb7, 0x0b, 0xa2,
    0xc2, 0xf7, 0x01, 0xcc, 0x5e, 0x31, 0x4b, 0x7b, 0x70, 0xef, 0x5e, 0x1c, 0x04, 0xb0, 0xec, 0x58,
];

#[test]
fn digests_are_those_of_the_standard(rt: HostRuntime) {
    assert_eq!(rt; Sha::digest(b""), EMPTY);
    assert_eq!(rt; Sha::digest(b"abc"), ABC);
    assert_eq!(rt; Sha::tagged(b'a', b"b", b"c"), ABC);
    assert_eq!(rt; Sha::tagged(0, b"", b"hi"), ZERO_HI);
}

#[test]
fn short_digests_keep_the_first_byte(rt: HostRuntime) {
    for (message, first) in [(b"".as_slice(), 0xe3), (b"abc".as_slice(), 0xba)] {
        let mut want = [0; 32];
        want[0] = first;
        assert_eq!(rt; Short::digest(message), want);
    }
    let mut want = [0; 32];
    want[0] = 0xe6;
    assert_eq!(rt; Short::tagged(0, b"h", b"i"), want);
}

#[test]
fn a_clash_is_a_collision(rt: HostRuntime) -> Result<(), Fail> {
    // The least four-byte counter whose leaf string has the short digest of the leaf string of "a".
    let collides = [
        (b"\0a".as_slice(), b"\0\0\0\0\x23".as_slice(), true),
        (b"\0\0\0\0\x23".as_slice(), b"\0a".as_slice(), true),
        (b"\0a".as_slice(), b"\0\0\0\0\x22".as_slice(), false),
        (b"\0a".as_slice(), b"\0a".as_slice(), false),
        (b"".as_slice(), b"".as_slice(), false),
    ];
    for (a, b, some) in collides {
        let clash = Clash::<Short>::new(a.to_vec(rt.alloc())?, b.to_vec(rt.alloc())?);
        assert_eq!(rt; clash.is_some(), some);
        if let Some(clash) = clash {
            assert_eq!(rt; clash.a(), a);
            assert_eq!(rt; clash.b(), b);
        }
        let clash = Clash::<Sha>::new(a.to_vec(rt.alloc())?, b.to_vec(rt.alloc())?);
        assert!(rt; clash.is_none());
    }
    Ok(())
}
