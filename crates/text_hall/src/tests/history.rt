//! What the calls of a hall are, once its gate is closed.
use crate::{Call, Reply, TextHall};
use fr_bytes::NoMemory;
use fr_digest::{Dig, Digester};
use std::alloc::Global;

/// The calls of a hall, oldest first.
pub fn calls_of<D: Digester>(alloc: Global, hall: TextHall<D>) -> Result<Vec<Call>, NoMemory> {
    let mut calls = hall.into_calls();
    let mut all = Vec::new(alloc);
    while let Some(call) = calls.pop() {
        all.push(call)?;
    }
    all.reverse();
    Ok(all)
}

/// The root that the calls lead to, where each was told the root up to it.
pub fn root_told<D: Digester>(calls: &[Call]) -> Option<Dig> {
    let mut root = D::digest(&[]);
    for call in calls {
        root = D::tagged(1, &root, call.text.as_slice());
        if call.reply != Reply::Placed(root) {
            return None;
        }
    }
    Some(root)
}

/// How many of a caller's texts are the numbers 0, 1, 2 and so on, in this order.
pub fn counted(calls: &[Call], caller: u32) -> u32 {
    let mut count = 0u32;
    for call in calls {
        if call.caller == caller && call.text.as_slice() == count.to_be_bytes().as_slice() {
            count = count.wrapping_add(1);
        }
    }
    count
}
