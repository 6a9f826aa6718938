use super::*;
use fr_bytes::Sequence;
use hist_proof::Pruned;
use lms_tree::PublicKey;
use op_types::{Kind, Op, View};
use std::alloc::Global;
use std::test::Fail;

/// A public key: two typecodes, an identifier and a root.
static KEY: [u8; 56] = [
    0, 0, 0, 5, 0, 0, 0, 1, 7, 7, 7, 7, 7, 7, 7, 7, 7, 7, 7, 7, 7, 7, 7, 7, 9, 9, 9, 9, 9, 9, 9, 9,
    9, 9, 9, 9, 9, 9, 9, 9, 9, 9, 9, 9, 9, 9, 9, 9, 9, 9, 9, 9, 9, 9, 9, 9,
];

/// An empty post of user 2.
fn post(alloc: Global, seq: u32) -> Op {
    Op {
        wall: 1,
        author: 2,
        seq,
        epoch: 0,
        view: View {
            wall: 1,
            size: 0,
            root: [0; 32],
            sig: Sequence::of(Vec::new(alloc)),
        },
        kind: Kind::Post {
            body: Sequence::of(Vec::new(alloc)),
        },
        sig: Sequence::of(Vec::new(alloc)),
    }
}

/// A record that shows nothing.
fn took(alloc: Global, size: u64) -> Took {
    Took {
        user: 2,
        wall: 1,
        have: 0,
        from: 0,
        leaves: Sequence::of(Vec::new(alloc)),
        size,
        root: [0; 32],
        proof: Pruned::Hidden([0; 32]),
        dicts: Sequence::of(Vec::new(alloc)),
    }
}

#[test]
fn a_book_grows(rt: HostRuntime) -> Result<(), Fail> {
    let key = PublicKey::read(&KEY)?;
    let mut book = UserBook::empty(rt.alloc(), 2, key, false);
    book.add_took(took(rt.alloc(), 1))?;
    book.add_took(took(rt.alloc(), 4))?;
    book.add_signed(post(rt.alloc(), 5))?;
    let last = book.took.as_slice().last().map(|took| took.size);
    let signed = book
        .signed
        .as_slice()
        .last()
        .map(|signed| (signed.user, signed.op.seq));
    assert_eq!(rt; (book.took.len(), last, signed), (2, Some(4), Some((2, 5))));
    Ok(())
}

#[test]
fn laws_are_called() {
    laws::look_ups();
    laws::views();
    laws::books();
    laws::spellings();
}
