ghost use Rattle.std.specs.Prelude.{◌≤◌, IfOk};
ghost use Rattle.lms_params.specs.Parameters.{IsListed};

use crate::rows::{public_value, write_one_time};
use crate::tree::{leaf_node, leaves_of, parent_node};
use crate::{KeyRefusal, MakeRefusal, PublicKey, SignRefusal, Signer, verify};
use fr_bytes::put_bytes;
use lms_ots::Dig;
use lms_params::{Pair, pair_of};
use std::alloc::Global;
use std::test::Fail;

const ID: [u8; 16] = [0x41; 16];

const PRIVATE: Dig = [1; 32];

// A pair of the tables, of which a test's proof knows no number.
fn pair_by(lms: u32, ots: u32) -> Result<Pair, Fail>
    ensures { IfOk result IsListed }
{
    match pair_of(lms, ots) {
        Some(pair) => Ok(pair),
        None => Err("no pair of the tables".into()),
    }
}

fn set_byte(bytes: &mut [u8], at: usize, byte: u8) {
    if let Some(place) = bytes.get_mut(at) {
        *place = byte;
    }
}

// A key of 32 leaves, and its signature of "hi" by its first leaf.
fn signed(alloc: Global) -> Result<(PublicKey, Vec<u8>), Fail> {
    let mut signer = Signer::make(alloc, &PRIVATE, &ID, pair_by(5, 4)?)?;
    let signature = signer.sign(b"hi")?;
    Ok((signer.public(), signature.into_vec()))
}

#[test]
fn a_signature_is_valid_for_its_message(rt: HostRuntime) -> Result<(), Fail> {
    let (key, signature) = signed(rt.alloc())?;
    assert_eq!(rt; signature.len(), 1292);
    for (message, is_valid) in [("hi", true), ("ho", false), ("", false), ("hi!", false)] {
        assert_eq!(rt; verify(&key, message.as_bytes(), &signature), is_valid);
    }
    Ok(())
}

#[test]
fn a_changed_signature_is_invalid(rt: HostRuntime) -> Result<(), Fail> {
    let (key, mut signature) = signed(rt.alloc())?;
    // The typecodes' last bytes are at 7 and 1131. A leaf is any of the first 32.
    for (at, byte, is_valid) in [
        (7, 3, false),
        (7, 4, true),
        (1131, 6, false),
        (1131, 5, true),
        (3, 32, false),
        (3, 0, true),
    ] {
        set_byte(&mut signature, at, byte);
        assert_eq!(rt; verify(&key, b"hi", &signature), is_valid);
    }
    Ok(())
}

#[test]
fn a_signature_has_one_length(rt: HostRuntime) -> Result<(), Fail> {
    let (key, signature) = signed(rt.alloc())?;
    assert!(rt; !verify(&key, b"hi", signature.get(..1291).ok_or("a part")?));
    let mut longer = signature;
    longer.push(0)?;
    assert!(rt; !verify(&key, b"hi", &longer));
    Ok(())
}

// A signer whose 32 leaves are all used.
fn spent(alloc: Global) -> Result<Signer, Fail> {
    let mut signer = Signer::make(alloc, &PRIVATE, &ID, pair_by(5, 1)?)?;
    for _ in 0..32 {
        let _signature = signer.sign(b"again")?;
    }
    Ok(signer)
}

#[test]
fn a_signer_is_spent_after_its_leaves(rt: HostRuntime) -> Result<(), Fail> {
    let mut signer = spent(rt.alloc())?;
    assert_eq!(rt; signer.left(), 0);
    assert_eq!(rt; signer.sign(b"again").err(), Some(SignRefusal::Spent));
    Ok(())
}

#[test]
fn no_signer_is_made_for_a_tree_higher_than_10(rt: HostRuntime) -> Result<(), Fail> {
    let made = Signer::make(rt.alloc(), &PRIVATE, &ID, pair_by(7, 1)?);
    assert_eq!(rt; made.err(), Some(MakeRefusal::TooTall { h: 15 }));
    Ok(())
}

#[test]
fn refusals_say_why(rt: HostRuntime) -> Result<(), Fail> {
    let text = format!(in rt.alloc(); "{}", MakeRefusal::TooTall { h: 15 })?;
    assert_eq!(rt;
        text.as_str(),
        "a tree of height 15, where signers have at most 10"
    );
    Ok(())
}

// ---- keys and signatures for any pair, with a path of bytes 07

fn key_bytes(alloc: Global, lms: u32, ots: u32, root: &Dig) -> Result<Vec<u8>, Fail> {
    let mut bytes = Vec::new(alloc);
    put_bytes(&mut bytes, &lms.to_be_bytes())?;
    put_bytes(&mut bytes, &ots.to_be_bytes())?;
    put_bytes(&mut bytes, &ID)?;
    put_bytes(&mut bytes, root)?;
    Ok(bytes)
}

fn one_time_part(alloc: Global, pair: Pair, message: &[u8]) -> Result<Vec<u8>, Fail>
    requires { IsListed pair }
{
    let mut bytes = vec![in alloc; 0u8; 4 + pair.ots.sig_len as usize]?;
    write_one_time(pair.ots, &ID, 0, &PRIVATE, message, &mut bytes);
    Ok(bytes)
}

fn signature_of(alloc: Global, pair: Pair, message: &[u8]) -> Result<Vec<u8>, Fail>
    requires { IsListed pair }
{
    let mut bytes = one_time_part(alloc, pair, message)?;
    put_bytes(&mut bytes, &pair.lms.code.to_be_bytes())?;
    for _ in 0..pair.lms.h {
        put_bytes(&mut bytes, &[7; 32])?;
    }
    Ok(bytes)
}

fn root_of(pair: Pair) -> Dig
    requires { IsListed pair }
{
    let mut number = leaves_of(pair.lms.h);
    let mut node = leaf_node(&ID, number, &public_value(pair.ots, &ID, 0, &PRIVATE));
    for _ in 0..pair.lms.h {
        node = parent_node(&ID, number, &node, &[7; 32]);
        number /= 2;
    }
    node
}

// How many of the path's elements may have bit 0 of their first byte flipped.
fn taken_flips(key: &PublicKey, message: &[u8], signature: &mut [u8], path: usize, h: u32) -> u32 {
    let mut taken = 0u32;
    for j in 0..h as usize {
        let at = path.saturating_add(32 * j);
        set_byte(signature, at, 6);
        if verify(key, message, signature) {
            taken = taken.saturating_add(1);
        }
        set_byte(signature, at, 7);
    }
    taken
}

// Whether a signature of the pair is valid, and isn't where any one element of its path is changed.
fn is_checked_whole(alloc: Global, lms: u32, ots: u32) -> Result<bool, Fail> {
    let pair = pair_by(lms, ots)?;
    let mut signature = signature_of(alloc, pair, b"hi")?;
    let key = PublicKey::read(&key_bytes(alloc, lms, ots, &root_of(pair))?)?;
    let path = pair.sig_len().saturating_sub(32 * pair.lms.h as usize);
    let is_valid = verify(&key, b"hi", &signature);
    Ok(is_valid && taken_flips(&key, b"hi", &mut signature, path, pair.lms.h) == 0)
}

#[test]
fn a_path_is_checked_whole_for_each_pair(rt: HostRuntime) -> Result<(), Fail> {
    for lms in 5..=9 {
        for ots in 1..=4 {
            assert!(rt; is_checked_whole(rt.alloc(), lms, ots)?);
        }
    }
    Ok(())
}

#[test]
fn a_key_is_read_of_what_is_written(rt: HostRuntime) -> Result<(), Fail> {
    let bytes = key_bytes(rt.alloc(), 9, 1, &[0x33; 32])?;
    let key = PublicKey::read(&bytes)?;
    assert!(rt; key.write().as_slice() == bytes.as_slice());
    Ok(())
}

#[test]
fn other_bytes_are_no_key(rt: HostRuntime) -> Result<(), Fail> {
    let mut bytes = key_bytes(rt.alloc(), 10, 1, &[0x33; 32])?;
    assert_eq!(rt;
        PublicKey::read(&bytes).err(),
        Some(KeyRefusal::UnknownCode)
    );
    let _last = bytes.pop();
    assert_eq!(rt; PublicKey::read(&bytes).err(), Some(KeyRefusal::Length));
    Ok(())
}
