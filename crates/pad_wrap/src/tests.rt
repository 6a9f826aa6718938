use crate::{pad, unwrap32, wrap32};
use fr_digest::Dig;
use hex::FromHex;
use std::alloc::{AllocError, Global};
use std::string::String;
use std::test::Fail;

const ZEROS: &str = "0000000000000000000000000000000000000000000000000000000000000000";

// The bytes, padded, from byte `from` on, in hexadecimal digits.
fn padded(
    alloc: Global,
    key: &str,
    stream: u64,
    bytes: &[u8],
    from: usize,
) -> Result<String, AllocError> {
    let Ok(key) = Dig::from_hex(key) else {
        return Ok(String::new(alloc));
    };
    let mut bytes = Vec::from_slice(alloc, bytes)?;
    if bytes.len() <= 1_024 {
        pad(&key, stream, bytes.as_mut_slice());
    }
    hex::encode(alloc, bytes.get(from..).unwrap_or_default())
}

// The key, wrapped, and that wrap unwrapped, both in hexadecimal digits.
fn wrapped(alloc: Global, key: &str, plain: &str) -> Result<(String, String), AllocError> {
    let (Ok(key), Ok(plain)) = (Dig::from_hex(key), Dig::from_hex(plain)) else {
        return Ok((String::new(alloc), String::new(alloc)));
    };
    let wrap = wrap32(&key, 0, &plain);
    let again = unwrap32(&key, 0, &wrap);
    Ok((hex::encode(alloc, &wrap)?, hex::encode(alloc, &again)?))
}

// RFC 8439, appendix A.1: a block of the key stream of a key, from a number of blocks on. The fifth nonce ends with the
// byte 2, which is the highest byte of the stream number.
const BLOCKS: [(&str, u64, usize, &str); 5] = [
    (
        ZEROS,
        0,
        0,
        "76b8e0ada0f13d90405d6ae55386bd28bdd219b8a08ded1aa836efcc8b770dc7da41597c5157488d7724e03fb8d84a376a43b8f41518a11cc387b669b2ee6586",
    ),
    (
        ZEROS,
        0,
        1,
        "9f07e7be5551387a98ba977c732d080dcb0f29a048e3656912c6533e32ee7aed29b721769ce64e43d57133b074d839d531ed1f28510afb45ace10a1f4b794d6f",
    ),
    (
        "0000000000000000000000000000000000000000000000000000000000000001",
        0,
        1,
        "3aeb5224ecf849929b9d828db1ced4dd832025e8018b8160b82284f3c949aa5a8eca00bbb4a73bdad192b5c42f73f2fd4e273644c8b36125a64addeb006c13a0",
    ),
    (
        "00ff000000000000000000000000000000000000000000000000000000000000",
        0,
        2,
        "72d54dfbf12ec44b362692df94137f328fea8da73990265ec1bbbea1ae9af0ca13b25aa26cb4a648cb9b9d1be65b2c0924a66c54d545ec1b7374f4872e99f096",
    ),
    (
        ZEROS,
        0x0200_0000_0000_0000,
        0,
        "c2c64d378cd536374ae204b9ef933fcd1a8b2288b3dfa49672ab765b54ee27c78a970e0e955c14f3a88e741b97c286f75f8fc299e8148362fa198a39531bed6d",
    ),
];

#[test]
fn the_key_stream_is_the_rfcs(rt: HostRuntime) -> Result<(), Fail> {
    for (key, stream, block, wanted) in BLOCKS {
        let bytes = [0; 192];
        let found = padded(
            rt.alloc(),
            key,
            stream,
            &bytes[..(block + 1) * 64],
            block * 64,
        )?;
        assert_eq!(rt; found.as_str(), wanted);
    }
    Ok(())
}

// RFC 8439, section 2.4.2. Its block counter begins at 1, so a block of zero bytes stands before the text.
#[test]
fn the_rfcs_text_is_padded_as_there(rt: HostRuntime) -> Result<(), Fail> {
    let mut bytes = [0; 178];
    bytes[64..].copy_from_slice(
        b"Ladies and Gentlemen of the class of '99: If I could offer you only one tip for the future, sunscreen would be it.",
    );
    let key = "000102030405060708090a0b0c0d0e0f101112131415161718191a1b1c1d1e1f";
    let found = padded(rt.alloc(), key, 0x4a00_0000, &bytes, 64)?;
    assert_eq!(rt;
        found.as_str(),
        "6e2e359a2568f98041ba0728dd0d6981e97e7aec1d4360c20a27afccfd9fae0bf91b65c5524733ab8f593dabcd62b3571639d624e65152ab8f530c359f0861d807ca0dbf500d6a6156a38e088a22b65e52bc514d16ccf806818ce91ab77937365af90bbf74a35be6b40b8eedf2785e42874d"
    );
    Ok(())
}

#[test]
fn zeros_are_wrapped_and_unwrapped_under_a_zero_key(rt: HostRuntime) -> Result<(), Fail> {
    let (wrap, again) = wrapped(rt.alloc(), ZEROS, ZEROS)?;
    assert_eq!(rt;
        wrap.as_str(),
        "76b8e0ada0f13d90405d6ae55386bd28bdd219b8a08ded1aa836efcc8b770dc7"
    );
    assert_eq!(rt; again.as_str(), ZEROS);
    Ok(())
}

#[test]
fn two_bytes_are_padded_under_a_zero_key(rt: HostRuntime) -> Result<(), Fail> {
    let found = padded(rt.alloc(), ZEROS, 0, b"hi", 0)?;
    assert_eq!(rt; found.as_str(), "1ed1");
    Ok(())
}
