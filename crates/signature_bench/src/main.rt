//! Makes a key of a pair of typecodes, signs and verifies so many messages, and prints the SHA-256
//! digest of the key and the signatures. With a fourth word, `times`, it prints nanoseconds too: of
//! the compressions (digests of 55 bytes, which are one block with their padding), of making the key,
//! of the signatures and of the verifications, with the compressions that these take.
#![tactic(auto)]

use anyhow::{Context, Result};
use fr_bytes::Bytes;
use lms_params::pair_of;
use lms_tree::{PublicKey, Signer, verify};
use sha2::{Digest, Sha256};
use std::alloc::Global;
use std::time::Instant;

mod counting;

const ID: [u8; 16] = [0x41; 16];

// How many digests one compression is measured by.
const ROUNDS: u32 = 1_000_000;

fn message_of(number: u32) -> [u8; 4] {
    number.to_be_bytes()
}

fn signatures_of(alloc: Global, signer: &mut Signer, count: u32) -> Result<Vec<Bytes>> {
    let mut signatures = Vec::new(alloc);
    for number in 0..count {
        let signature = signer
            .sign(&message_of(number))
            .ok()
            .context("no signature was made")?;
        signatures.push(signature)?;
    }
    Ok(signatures)
}

fn are_valid(key: &PublicKey, signatures: &[Bytes]) -> bool {
    let mut number = 0u32;
    for signature in signatures {
        if !verify(key, &message_of(number), signature.as_slice()) {
            return false;
        }
        number = number.wrapping_add(1);
    }
    true
}

fn digest_of(key: &PublicKey, signatures: &[Bytes]) -> [u8; 32] {
    let mut hasher = Sha256::new();
    hasher.update(key.write().as_slice());
    for signature in signatures {
        hasher.update(signature.as_slice());
    }
    hasher.finalize()
}

// A chain of digests of 55 bytes, so that each waits for the one before it.
fn compressions(rounds: u32) -> u8 {
    let mut input = [7u8; 55];
    for _ in 0..rounds {
        let next = Sha256::digest(&input);
        input[0] = next[0];
    }
    input[0]
}

fn main(rt: HostRuntime) -> Result<()> {
    let alloc = rt.alloc();
    let words: Vec<String> = std::env::args(&rt)?.collect(alloc)?;
    let lms = words
        .get(1)
        .context("the LMS typecode is missing")?
        .parse::<u32>()?;
    let ots = words
        .get(2)
        .context("the LM-OTS typecode is missing")?
        .parse::<u32>()?;
    let count = words
        .get(3)
        .context("the number of messages is missing")?
        .parse::<u32>()?;
    let pair = pair_of(lms, ots).context("the typecodes are no pair")?;

    let begin = Instant::now(&rt)?;
    let mut signer = Signer::make(alloc, &[1; 32], &ID, pair)
        .ok()
        .context("no signer was made")?;
    let made = begin.elapsed(&rt)?.as_nanos();
    let key = signer.public();
    let begin = Instant::now(&rt)?;
    let signatures = signatures_of(alloc, &mut signer, count)?;
    let signed = begin.elapsed(&rt)?.as_nanos();
    let begin = Instant::now(&rt)?;
    let valid = are_valid(&key, &signatures);
    let verified = begin.elapsed(&rt)?.as_nanos();
    let digest = hex::encode(alloc, &digest_of(&key, &signatures))?;
    println!(rt; "digest {digest} valid {valid}")?;
    if words.len() > 4 {
        let begin = Instant::now(&rt)?;
        let last = compressions(ROUNDS);
        let compressed = begin.elapsed(&rt)?.as_nanos();
        println!(rt; "compressions {ROUNDS} nanoseconds {compressed} last {last}")?;
        println!(rt; "key nanoseconds {made}")?;
        println!(rt; "signatures {count} nanoseconds {signed}")?;
        let counted = counting::verifying(pair, &ID, &signatures);
        println!(rt; "verifications {count} nanoseconds {verified} compressions {counted}")?;
    }
    Ok(())
}
