ghost use Rattle.op_types.specs.Spelling.{IsOp, IsLeaf};

use crate::fields::fields;
use anyhow::{Context, Result, anyhow};
use fr_bytes::{Bytes, ReadRefusal};
use hex::FromHex;
use op_types::{
    Leaf, Op, WrittenLeaves, op_message, op_part, read_leaf, read_op, view_message, write_leaf,
    write_op,
};
use std::alloc::Global;

/// Bytes in hexadecimal digits, `-` for none.
fn bytes(alloc: Global, word: &str) -> Result<Vec<u8>> {
    if word == "-" {
        return Ok(Vec::new(alloc));
    }
    Ok(hex::decode(alloc, word)?)
}

// Whether the operation is written as these bytes, and its author signs this message.
fn is_written(alloc: Global, op: &Op, text: &[u8], message: &[u8]) -> Result<bool>
    requires { IsOp op.now }
{
    let again = write_op(alloc, op)?;
    let signed = op_message(alloc, op)?;
    Ok(again.as_slice() == text && signed.as_slice() == message)
}

/// Whether the bytes spell an operation of these fields, which is written so again and signed so.
fn is_same_op(alloc: Global, words: &str, text: &str, message: &str) -> Result<bool> {
    let text = bytes(alloc, text)?;
    let message = bytes(alloc, message)?;
    let Ok(op) = read_op(alloc, &text) else {
        return Ok(false);
    };
    let found = fields(alloc, &op)?;
    Ok(found.as_str() == words && is_written(alloc, &op, &text, &message)?)
}

// Whether the leaf's text holds its operation.
fn holds_op(alloc: Global, leaf: &Leaf, text: &[u8]) -> bool {
    match read_op(alloc, op_part(text)) {
        Ok(op) => op == leaf.op,
        Err(_) => false,
    }
}

// Whether the leaf tells this.
fn tells(leaf: &Leaf, after: &str, epoch: &str) -> Result<bool> {
    let after = <[u8; 32]>::from_hex(after)?;
    let epoch = epoch.parse::<u64>().context("reading an epoch")?;
    Ok(leaf.after == after && leaf.epoch == epoch)
}

// Whether the leaf is written as these bytes.
fn is_leaf_written(alloc: Global, leaf: &Leaf, text: &[u8]) -> Result<bool>
    requires { IsLeaf leaf.now }
{
    Ok(write_leaf(alloc, leaf)?.as_slice() == text)
}

fn is_no_op(alloc: Global, word: &str) -> Result<bool> {
    let text = bytes(alloc, word)?;
    Ok(matches!(&read_op(alloc, &text), Err(ReadRefusal::NotForm)))
}

fn is_no_leaf(alloc: Global, word: &str) -> Result<bool> {
    let text = bytes(alloc, word)?;
    Ok(matches!(&read_leaf(alloc, &text), Err(ReadRefusal::NotForm)))
}

fn is_same_view(alloc: Global, wall: &str, size: &str, root: &str, message: &str) -> Result<bool> {
    let wall = wall.parse::<u32>().context("reading a wall")?;
    let size = size.parse::<u64>().context("reading a size")?;
    let root = <[u8; 32]>::from_hex(root)?;
    let wanted = bytes(alloc, message)?;
    Ok(view_message(wall, size, &root).as_slice() == wanted.as_slice())
}

/// A comparison of line after line. It keeps each leaf twice with its text: as it was read, and written.
#[derive(Drop)]
pub struct Comparison {
    alloc: Global,
    written: WrittenLeaves,
    read: WrittenLeaves,
}

impl Comparison {
    /// A comparison that kept no leaf yet.
    pub fn new(alloc: Global) -> Comparison {
        Comparison {
            alloc,
            written: WrittenLeaves::empty(alloc),
            read: WrittenLeaves::empty(alloc),
        }
    }

    // Keeps a leaf as it was read.
    fn keep_read(&mut self, text: &[u8]) -> Result<bool> {
        let copy = Vec::from_slice(self.alloc, text)?;
        let Ok(leaf) = read_leaf(self.alloc, text) else {
            return Ok(false);
        };
        self.read.push_read(Bytes::of(copy), leaf)?;
        Ok(true)
    }

    // Compares a leaf, and keeps it with the text that is written of it.
    fn is_same_leaf(&mut self, after: &str, epoch: &str, text: &str) -> Result<bool> {
        let text = bytes(self.alloc, text)?;
        let Ok(leaf) = read_leaf(self.alloc, &text) else {
            return Ok(false);
        };
        let tells = tells(&leaf, after, epoch)? && holds_op(self.alloc, &leaf, &text);
        let written = is_leaf_written(self.alloc, &leaf, &text)?;
        self.written.push(leaf)?;
        Ok(tells && written && self.keep_read(&text)?)
    }

    /// Whether what a line tells is so. A line of another form is an error.
    pub fn is_same(&mut self, line: &str) -> Result<bool> {
        let alloc = self.alloc;
        let text = match line.split_once(" #") {
            Some((front, _)) => front,
            None => line,
        };
        let mut words = Vec::new(alloc);
        for word in text.split('|') {
            words.push(word)?;
        }
        match words.as_slice() {
            ["op", fields, bytes, message] => is_same_op(alloc, fields, bytes, message),
            ["leaf", after, epoch, bytes] => self.is_same_leaf(after, epoch, bytes),
            ["no_op", bytes] => is_no_op(alloc, bytes),
            ["no_leaf", bytes] => is_no_leaf(alloc, bytes),
            ["view", wall, size, root, message] => is_same_view(alloc, wall, size, root, message),
            _ => Err(anyhow!("a line has none of the five forms")),
        }
    }

    /// How many leaves were kept, where both ways of keeping them agree.
    pub fn kept(&self) -> Option<usize> {
        if self.written.texts() == self.read.texts()
            && self.written.leaves() == self.read.leaves()
        {
            Some(self.read.len())
        } else {
            None
        }
    }
}
