use anyhow::{Context, Result};
use hex::FromHex;
use std::alloc::Global;

/// What a signature was made with.
#[derive(Drop)]
pub struct Origin {
    pub id: [u8; 16],
    pub private: [u8; 32],
    pub index: u32,
}

/// A line.
#[derive(Drop)]
pub struct Vector {
    pub lms: u32,
    pub ots: u32,
    pub is_valid: bool,
    pub key: Vec<u8>,
    pub message: Vec<u8>,
    pub signature: Vec<u8>,
    pub origin: Option<Origin>,
}

fn bytes_of(alloc: Global, word: &str) -> Result<Vec<u8>> {
    if word == "-" {
        return Ok(Vec::new(alloc));
    }
    Ok(hex::decode(alloc, word)?)
}

fn origin_of(id: &str, private: &str, index: &str) -> Result<Option<Origin>> {
    if id == "-" {
        return Ok(None);
    }
    Ok(Some(Origin {
        id: <[u8; 16]>::from_hex(id)?,
        private: <[u8; 32]>::from_hex(private)?,
        index: index.parse::<u32>()?,
    }))
}

// What a line says of its signature.
fn is_valid(word: &str) -> Result<bool> {
    match word {
        "valid" => Ok(true),
        "invalid" => Ok(false),
        _ => Err(anyhow::anyhow!("a verdict is neither valid nor invalid")),
    }
}

/// The line, without its remark.
pub fn vector_of(alloc: Global, line: &str) -> Result<Vector> {
    let text = match line.split_once(" #") {
        Some((front, _)) => front,
        None => line,
    };
    let mut words = Vec::new(alloc);
    for word in text.split_whitespace() {
        words.push(word)?;
    }
    let [lms, ots, says, key, message, signature, id, private, index] = words.as_slice() else {
        return Err(anyhow::anyhow!("a line hasn't nine words"));
    };
    Ok(Vector {
        lms: lms.parse::<u32>().context("reading an LMS typecode")?,
        ots: ots.parse::<u32>().context("reading an LM-OTS typecode")?,
        is_valid: is_valid(says)?,
        key: bytes_of(alloc, key)?,
        message: bytes_of(alloc, message)?,
        signature: bytes_of(alloc, signature)?,
        origin: origin_of(id, private, index)?,
    })
}
