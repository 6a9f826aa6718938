use super::*;
use op_types::read_op;
use std::alloc::{AllocError, Global};
use std::test::Fail;
use tree_model::Entry;

const NO_VIEW: &[u8] = &[0; 8];

/// The bytes of an unsigned operation of wall 1.
fn op_bytes(
    alloc: Global,
    author: u8,
    seq: u8,
    epoch: u8,
    view: &[u8],
    kind: &[u8],
) -> Result<Vec<u8>, AllocError> {
    let mut bytes = Vec::new(alloc);
    bytes.extend_from_slice(&[0, 0, 0, 1, 0, 0, 0, author, 0, 0, 0, seq])?;
    bytes.extend_from_slice(&[0, 0, 0, 0, 0, 0, 0, epoch])?;
    bytes.extend_from_slice(view)?;
    bytes.extend_from_slice(kind)?;
    bytes.extend_from_slice(&[0; 4])?;
    Ok(bytes)
}

/// Posts nothing, admits user 2 as a writer or user 3 as a reader, and removes users 1, 2 and 3.
const POST: &[u8] = b"\0\0\0\0\0";

const ADMIT_2: &[u8] = b"\x01\0\0\0\x02\x02\0\0";

const ADMIT_3: &[u8] = b"\x01\0\0\0\x03\x01\0\0";

const REMOVE_1: &[u8] = b"\x02\0\0\0\x01\0\0";

const REMOVE_2: &[u8] = b"\x02\0\0\0\x02\0\0";

const REMOVE_3: &[u8] = b"\x02\0\0\0\x03\0\0";

/// A view of one operation, with a root of zero bytes and no signature.
const VIEW_OF_ONE: &[u8] = &[
    0, 0, 0, 0, 0, 0, 0, 1, 0, 0, 0, 0, 0, 0, 0, 0, 0, 0, 0, 0, 0, 0, 0, 0, 0, 0, 0, 0, 0, 0, 0, 0,
    0, 0, 0, 0, 0, 0, 0, 0, 0, 0, 0, 0,
];

#[test]
fn operations_are_judged_in_order(rt: HostRuntime) -> Result<(), Fail> {
    let alloc = rt.alloc();
    let mut state = genesis(alloc, 1)?;
    assert_eq!(rt; state.entries.as_slice(), [entry(1, 3, 0)].as_slice());
    // wall, position, author, number, epoch, view, kind and what is wanted
    let cases = [
        (2, 0, 9, 0, 9, NO_VIEW, POST, Err(LawRefusal::WrongWall)),
        (1, 0, 2, 0, 9, NO_VIEW, POST, Err(LawRefusal::NotAllowed)),
        (
            1,
            0,
            1,
            0,
            1,
            NO_VIEW,
            POST,
            Err(LawRefusal::StaleEpoch { now: 0 }),
        ),
        (1, 0, 1, 0, 0, NO_VIEW, REMOVE_1, Err(LawRefusal::BadChange)),
        (1, 0, 1, 0, 0, NO_VIEW, REMOVE_2, Err(LawRefusal::BadChange)),
        (1, 0, 1, 0, 0, VIEW_OF_ONE, POST, Err(LawRefusal::LateView)),
        (1, 0, 1, 4, 0, NO_VIEW, ADMIT_2, Ok(())),
        (
            1,
            1,
            1,
            4,
            1,
            NO_VIEW,
            POST,
            Err(LawRefusal::Replayed { next: 5 }),
        ),
        (1, 1, 1, 5, 1, NO_VIEW, ADMIT_2, Err(LawRefusal::BadChange)),
        (
            1,
            1,
            2,
            0,
            0,
            NO_VIEW,
            POST,
            Err(LawRefusal::StaleEpoch { now: 1 }),
        ),
        (1, 1, 2, 0, 1, NO_VIEW, ADMIT_3, Err(LawRefusal::BadChange)),
        (1, 1, 2, 0, 1, VIEW_OF_ONE, POST, Ok(())),
        (
            1,
            2,
            2,
            0,
            1,
            NO_VIEW,
            POST,
            Err(LawRefusal::Replayed { next: 1 }),
        ),
        (1, 2, 1, 5, 1, NO_VIEW, ADMIT_3, Ok(())),
        (1, 3, 3, 0, 2, NO_VIEW, POST, Err(LawRefusal::NotAllowed)),
        (1, 3, 1, 6, 2, NO_VIEW, REMOVE_2, Ok(())),
        (1, 4, 2, 1, 3, NO_VIEW, POST, Err(LawRefusal::NotAllowed)),
        (1, 4, 1, 7, 3, NO_VIEW, REMOVE_3, Ok(())),
        (1, 5, 1, 8, 4, NO_VIEW, ADMIT_2, Ok(())),
        // the user begins again, and the older operations are of an older epoch
        (
            1,
            6,
            2,
            0,
            1,
            NO_VIEW,
            POST,
            Err(LawRefusal::StaleEpoch { now: 5 }),
        ),
        (1, 6, 2, 0, 5, NO_VIEW, POST, Ok(())),
    ];
    for (wall, k, author, seq, epoch, view, kind, want) in cases {
        let bytes = op_bytes(alloc, author, seq, epoch, view, kind)?;
        let op = read_op(alloc, &bytes)?;
        let judged = judge_op(&state, wall, k, &op);
        assert_eq!(rt; judged, want);
        if judged.is_ok() {
            assert!(rt; state.epoch < 9);
            follow(alloc, &mut state, &op)?;
        }
    }
    assert_eq!(rt; state.epoch, 5);
    assert_eq!(rt;
        state.entries.as_slice(),
        [entry(1, 3, 9), entry(2, 2, 1)].as_slice()
    );
    Ok(())
}

fn entry(user: u32, role: u8, next: u32) -> Entry {
    Entry { user, role, next }
}

#[test]
fn laws_are_called() {
    laws::states();
    laws::histories();
    laws::positions();
    laws::changes();
    laws::owners();
    laws::extensions();
}
