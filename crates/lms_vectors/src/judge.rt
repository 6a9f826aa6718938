use crate::vector::{Origin, Vector, vector_of};
use anyhow::{Context, Result};
use lms_params::pair_of;
use lms_tree::{PublicKey, Signer, verify};
use std::alloc::Global;

/// What is found of a line.
#[derive(Drop)]
pub struct Verdict {
    pub is_valid: bool,
    pub differs: bool,
}

impl Verdict {
    /// The line that is printed.
    pub fn word(&self) -> &'static str {
        match (self.is_valid, self.differs) {
            (true, false) => "valid",
            (true, true) => "valid differs",
            (false, false) => "invalid",
            (false, true) => "invalid differs",
        }
    }
}

fn is_valid(vector: &Vector) -> bool {
    match PublicKey::read(&vector.key) {
        Ok(key) => verify(&key, &vector.message, &vector.signature),
        Err(_) => false,
    }
}

// Whether a signer makes the line's key and its signature. No signer is made for a tree higher than 10.
fn is_signed_alike(alloc: Global, vector: &Vector, origin: &Origin) -> Result<bool> {
    let pair = pair_of(vector.lms, vector.ots).context("two typecodes are no pair")?;
    if pair.lms.h > 10 {
        return Ok(true);
    }
    let mut signer = Signer::make(alloc, &origin.private, &origin.id, pair)
        .ok()
        .context("no signer was made")?;
    if signer.public().write().as_slice() != vector.key.as_slice() {
        return Ok(false);
    }
    for _ in 0..origin.index {
        let _earlier = signer.sign(&[]).ok().context("no signature was made")?;
    }
    let signature = signer
        .sign(&vector.message)
        .ok()
        .context("no signature was made")?;
    Ok(signature.as_slice() == vector.signature.as_slice())
}

/// Judges a line.
pub fn verdict_of(alloc: Global, line: &str) -> Result<Verdict> {
    let vector = vector_of(alloc, line)?;
    let is_valid = is_valid(&vector);
    let is_alike = match &vector.origin {
        Some(origin) => is_signed_alike(alloc, &vector, origin)?,
        None => true,
    };
    Ok(Verdict {
        is_valid,
        differs: is_valid != vector.is_valid || !is_alike,
    })
}
