ghost use Rattle.std.specs.Prelude.{◌≤◌, IfOk};

use crate::walls::{Draft, append, empty, keys_of, seen, user_signers};
use check_core::{Asked, Checked, Known, check, check_keys};
use fr_bytes::{Bytes, NoMemory};
use fr_digest::{Dig, Digester, Sha, Short};
use hall_core::{Hall, Snapshot};
use hall_replies::{show, show_keys};
use lms_tree::{PublicKey, Signer};
use msg_form::Verdict;
use std::alloc::Global;
use std::test::Fail;

const POST: &[u8] = b"\0\0\0\0\x01a";

const ADMITS_2: &[u8] = b"\x01\0\0\0\x02\x02\x05\0";

const ADMITS_3: &[u8] = b"\x01\0\0\0\x03\x02\x06\0";

const DRAFTS: [Draft; 7] = [
    (1, 0, 0, 0, POST),
    (1, 1, 0, 0, ADMITS_2),
    (1, 2, 1, 0, ADMITS_3),
    (2, 0, 2, 1, POST),
    (3, 0, 2, 3, POST),
    (1, 3, 2, 5, POST),
    (2, 1, 2, 4, POST),
];

/// A wall with operations, the signers of its users, and the server's key.
#[derive(Drop)]
struct Wall<D: Digester> {
    hall: Hall<D>,
    signers: Vec<Signer>,
    server: PublicKey,
}

fn append_all<D: Digester>(
    alloc: Global,
    hall: &mut Hall<D>,
    signers: &mut Vec<Signer>,
) -> Result<(), Fail> {
    let mut views = Vec::new(alloc);
    for draft in &DRAFTS {
        append(alloc, hall, signers, &mut views, *draft)?;
    }
    Ok(())
}

fn written<D: Digester>(alloc: Global) -> Result<Wall<D>, Fail> {
    let mut signers = user_signers(alloc, 5)?;
    let (mut hall, server) = empty::<D>(alloc, &signers)?;
    append_all(alloc, &mut hall, &mut signers)?;
    Ok(Wall {
        hall,
        signers,
        server,
    })
}

/// The root of the wall's first leaves, zero bytes where there are none.
fn root_of<D: Digester>(snapshot: &Snapshot<D>, size: u64) -> Dig {
    if size == 0 || snapshot.size() < size {
        return [0; 32];
    }
    snapshot.history().root_at(size)
}

/// The epoch behind the wall's first leaves.
fn epoch_of<D: Digester>(snapshot: &Snapshot<D>, size: u64) -> u64 {
    if size == 0 || snapshot.size() < size {
        return 0;
    }
    snapshot.history().item(size - 1).leaf.epoch
}

impl<D: Digester> Wall<D> {
    /// What a client knows that has accepted the first `size` leaves and fears `f` false users.
    fn known(&self, alloc: Global, size: u64, f: u32) -> Result<Known, Fail>
        requires { f ≤ 31 }
        ensures { IfOk result (λ known. known.f ≤ 31) }
    {
        let snapshot = seen(&self.hall)?;
        let root = root_of(&snapshot, size);
        let epoch = epoch_of(&snapshot, size);
        let users = keys_of(alloc, &self.signers)?;
        let server = self.server;
        Ok(Known {
            wall: 1,
            owner: 1,
            f,
            server,
            users,
            size,
            root,
            epoch,
        })
    }

    /// The bytes that show the wall to such a client.
    fn shown(&self, alloc: Global, have: u64, f: u32, whole: bool) -> Result<Bytes, NoMemory> {
        let snapshot = seen(&self.hall)?;
        show(alloc, &snapshot, have, f, whole)
    }

    /// The bytes that show the changes among the first leaves.
    fn changes(&self, alloc: Global, size: u64) -> Result<Bytes, Fail> {
        let snapshot = seen(&self.hall)?;
        if size == 0 || snapshot.size() < size {
            return Err("the wall is shorter".into());
        }
        Ok(show_keys(alloc, &snapshot, size)?)
    }

    /// The first position that such a client takes, and how many leaves; its size, and none, where nothing is new.
    fn taken(
        &self,
        alloc: Global,
        have: u64,
        f: u32,
        whole: bool,
    ) -> Result<Option<(u64, usize)>, Fail> {
        if f > 31 {
            return Ok(None);
        }
        let known = self.known(alloc, have, f)?;
        let bytes = self.shown(alloc, have, f, whole)?;
        let checked = check::<D>(alloc, &known, &Asked::Look, bytes.as_slice());
        Ok(counts(&checked))
    }

    /// How many changes such a client takes.
    fn learnt(&self, alloc: Global, size: u64) -> Result<Option<usize>, Fail> {
        let known = self.known(alloc, size, 0)?;
        let bytes = self.changes(alloc, size)?;
        match check_keys::<D>(alloc, &known, bytes.as_slice()) {
            Ok(changes) => Ok(Some(changes.len())),
            Err(_) => Ok(None),
        }
    }
}

fn counts(checked: &Result<Checked, Verdict>) -> Option<(u64, usize)> {
    match checked {
        Ok(Checked::Taken { from, leaves, .. }) => Some((*from, leaves.len())),
        Ok(Checked::Same { size }) => Some((*size, 0)),
        _ => None,
    }
}

/// What a client has accepted, how many false users it fears, whether it asks for all, where the reply begins, and how
/// many leaves it shows. Three users have seen the first three leaves when they write, two the first four, one the first
/// five.
const SHOWN: [(u64, u32, bool, u64, usize); 11] = [
    (0, 0, false, 5, 2),
    (0, 1, false, 4, 3),
    (0, 2, false, 3, 4),
    (0, 3, false, 0, 7),
    (0, 0, true, 0, 7),
    (1, 1, true, 1, 6),
    (4, 0, false, 5, 2),
    (4, 1, false, 4, 3),
    (5, 0, false, 5, 2),
    (6, 3, false, 6, 1),
    (7, 0, false, 7, 0),
];

#[test]
fn replies_begin_at_the_vouch_point(rt: HostRuntime) -> Result<(), Fail> {
    let wall = written::<Sha>(rt.alloc())?;
    for (have, f, whole, from, leaves) in SHOWN {
        let taken = wall.taken(rt.alloc(), have, f, whole)?;
        assert!(rt;
            taken == Some((from, leaves)),
            "have {have} f {f} whole {whole}"
        );
    }
    Ok(())
}

#[test]
fn changes_are_learnt(rt: HostRuntime) -> Result<(), Fail> {
    let wall = written::<Short>(rt.alloc())?;
    for (size, changes) in [(1, 0), (2, 1), (3, 2), (7, 2)] {
        assert!(rt;
            wall.learnt(rt.alloc(), size)? == Some(changes),
            "size {size}"
        );
    }
    Ok(())
}

/// Appends so many posts of user 1 behind the first three operations.
fn append_posts(
    alloc: Global,
    hall: &mut Hall<Sha>,
    signers: &mut Vec<Signer>,
    many: u32,
) -> Result<(), Fail> {
    let mut views = Vec::new(alloc);
    for number in 0..many {
        append(
            alloc,
            hall,
            signers,
            &mut views,
            (1, number.wrapping_add(3), 2, 0, POST),
        )?;
    }
    Ok(())
}

/// A wall of three operations, and the signers of its users, who have many signatures left.
fn three(alloc: Global) -> Result<(Hall<Sha>, Vec<Signer>), Fail> {
    let mut signers = user_signers(alloc, 6)?;
    let (mut hall, _server) = empty::<Sha>(alloc, &signers)?;
    let mut views = Vec::new(alloc);
    for draft in &DRAFTS[..3] {
        append(alloc, &mut hall, &mut signers, &mut views, *draft)?;
    }
    Ok((hall, signers))
}

/// The bytes of an old snapshot, before and after so many posts.
fn shown_twice(alloc: Global, many: u32) -> Result<(Bytes, Bytes, u64), Fail> {
    let (mut hall, mut signers) = three(alloc)?;
    let old = seen(&hall)?;
    let before = show(alloc, &old, 0, 0, true)?;
    append_posts(alloc, &mut hall, &mut signers, many)?;
    let after = show(alloc, &old, 0, 0, true)?;
    Ok((before, after, hall.seen()?.size()))
}

#[test]
fn an_old_snapshot_is_shown_as_before(rt: HostRuntime) -> Result<(), Fail> {
    let (before, after, size) = shown_twice(rt.alloc(), 500)?;
    assert!(rt; before.as_slice() == after.as_slice());
    assert_eq!(rt; size, 503);
    Ok(())
}
