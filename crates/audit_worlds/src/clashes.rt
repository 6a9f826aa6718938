//! The strings that are digested at nodes of the history that a user's book tells, by the definition of a history
//! tree: at a leaf the byte 0 and its text, at a node above two the byte 1 and both digests.
ghost use Rattle.std.specs.Prelude.{◌<◌};

use fr_bytes::put_bytes;
use hist_proof::leaf_at;
use sha2::{Digest, Sha256};
use std::alloc::Global;
use std::test::Fail;
use world_book::{Took, UserBook};

/// A node of a history.
#[derive(Clone, Copy)]
pub enum Node {
    /// The leaf at a position.
    Leaf(u64),
    /// The top of a history of four leaves.
    TopOfFour,
}

/// The string at a node.
pub fn string_at(alloc: Global, book: &UserBook, node: Node) -> Result<Vec<u8>, Fail> {
    match node {
        Node::Leaf(k) => leaf_string(alloc, book, k),
        Node::TopOfFour => {
            let left = pair_over(alloc, book, 0)?;
            let right = pair_over(alloc, book, 2)?;
            pair_string(alloc, short(&left), short(&right))
        }
    }
}

// The short digest: the first byte of SHA-256, and 31 zero bytes.
fn short(bytes: &[u8]) -> [u8; 32] {
    let mut digest = [0; 32];
    digest[0] = Sha256::digest(bytes)[0];
    digest
}

fn pair_string(alloc: Global, left: [u8; 32], right: [u8; 32]) -> Result<Vec<u8>, Fail> {
    let mut string = Vec::new(alloc);
    put_bytes(&mut string, &[1])?;
    put_bytes(&mut string, &left)?;
    put_bytes(&mut string, &right)?;
    Ok(string)
}

// The string of the node above the leaves at k and behind it.
fn pair_over(alloc: Global, book: &UserBook, k: u64) -> Result<Vec<u8>, Fail>
    requires { k < 4 }
{
    let left = leaf_string(alloc, book, k)?;
    let right = leaf_string(alloc, book, k + 1)?;
    pair_string(alloc, short(&left), short(&right))
}

fn leaf_string(alloc: Global, book: &UserBook, k: u64) -> Result<Vec<u8>, Fail> {
    for took in book.took.as_slice() {
        if let Some(text) = text_in(took, k) {
            let mut string = Vec::new(alloc);
            put_bytes(&mut string, &[0])?;
            put_bytes(&mut string, text)?;
            return Ok(string);
        }
    }
    Err("no record shows the position".into())
}

// The text at a position that a record shows as new.
fn text_in(took: &Took, k: u64) -> Option<&[u8]> {
    if k < took.from {
        return None;
    }
    leaf_at(&took.proof, took.size, k)
}
