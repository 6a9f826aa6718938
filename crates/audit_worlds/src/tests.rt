ghost use Rattle.std.specs.Prelude.{IfOk};
ghost use Rattle.fr_digest.specs.Digest.{short_digest};
ghost use Rattle.world_book.specs.Kept.{Kept};

use crate::clashes::{Node, string_at};
use crate::halls::Via::{First, Second};
use crate::people::By;
use crate::scene::{Left, Row, Scene};
use crate::steps::Outcome;
use crate::steps::Outcome::{Same, Took};
use crate::steps::Step::{Admits, Looks, LooksAtAll, Posts, Removes};
use crate::wall::WALL;
use audit_run::{AuditEnd, audit};
use fr_digest::{Digester, Sha, Short};
use msg_form::causes::NOT_ALLOWED;
use std::alloc::Global;
use std::process::Abort;
use std::sync::Wait;
use std::test::Fail;
use world_book::World;

const OWNER: By = By {
    place: 0,
    twin: false,
};

const USER_2: By = By { place: 1, ..OWNER };

const USER_3: By = By { place: 2, ..OWNER };

const USER_4: By = By { place: 3, ..OWNER };

const TWIN_OF_OWNER: By = By {
    twin: true,
    ..OWNER
};

const TWIN_OF_2: By = By {
    twin: true,
    ..USER_2
};

const TWIN_OF_3: By = By {
    twin: true,
    ..USER_3
};

/// What is left of users who did this.
fn left<D: Digester, R: Wait + Abort>(
    rt: &R,
    alloc: Global,
    f: u32,
    rogues: &[u8],
    parts: &[&[Row]],
) -> Result<Left, Fail>
    ensures { IfOk result (λ left. Kept D.digest_of left.world) }
{
    let mut scene = Scene::<D>::open(alloc, f, rogues)?;
    for rows in parts {
        scene.run(rt, alloc, rows)?;
    }
    scene.end(alloc)
}

// ---- worlds in which nothing is found

/// How many records an audit counts, and how many of them are grounded; nothing where it finds something.
fn counts<D: Digester>(alloc: Global, world: &World) -> Option<(u64, u64)>
    requires { Kept D.digest_of world.now }
{
    match audit::<D>(alloc, world) {
        Ok(sound) => Some((sound.records, sound.grounded)),
        Err(_) => None,
    }
}

fn left_counts<D: Digester, R: Wait + Abort>(
    rt: &R,
    alloc: Global,
    f: u32,
    rogues: &[u8],
    parts: &[&[Row]],
) -> Result<Option<(u64, u64)>, Fail> {
    let left = left::<D, R>(rt, alloc, f, rogues, parts)?;
    Ok(counts::<D>(alloc, &left.world))
}

/// The owner admits a user, who posts. The owner removes it, and sees the post too. The next post is refused.
static SIX_LINES: [Row; 6] = [
    (OWNER, First, Admits(2), Took(1, 0)),
    (USER_2, First, Looks, Took(1, 0)),
    (USER_2, First, Posts(b"a"), Took(2, 1)),
    (OWNER, First, Removes(2), Took(3, 1)),
    (USER_2, First, Posts(b"b"), REFUSED),
    (OWNER, First, Looks, Same(3)),
];

const REFUSED: Outcome = Outcome::Refused {
    cause: NOT_ALLOWED,
    number: 0,
};

// Four of six commands were accepted with something new: these are the records.
#[test]
fn six_commands_of_two_users_are_sound(rt: HostRuntime) -> Result<(), Fail> {
    let parts: [&[Row]; 1] = [&SIX_LINES];
    let sha = left_counts::<Sha, _>(&rt, rt.alloc(), 0, &[], &parts)?;
    assert_eq!(rt; sha, Some((4, 4)));
    let short = left_counts::<Short, _>(&rt, rt.alloc(), 0, &[], &parts)?;
    assert_eq!(rt; short, Some((4, 4)));
    Ok(())
}

/// The owner admits two users, who look: one at each server, of which the second answers as the first did.
static APART: [Row; 6] = [
    (OWNER, First, Admits(2), Took(1, 0)),
    (OWNER, First, Admits(3), Took(2, 1)),
    (TWIN_OF_OWNER, Second, Admits(2), Took(1, 0)),
    (TWIN_OF_OWNER, Second, Admits(3), Took(2, 1)),
    (USER_2, First, LooksAtAll, Took(2, 0)),
    (USER_3, Second, LooksAtAll, Took(2, 0)),
];

/// Each posts where it looks.
static POSTS_APART: [Row; 2] = [
    (USER_2, First, Posts(b"one"), Took(3, 2)),
    (USER_3, Second, Posts(b"other"), Took(3, 2)),
];

// The servers show each user one history, and no operation of one has a view of the other's. Nobody can tell.
#[test]
fn users_who_are_shown_two_walls_are_sound(rt: HostRuntime) -> Result<(), Fail> {
    let parts: [&[Row]; 2] = [&APART, &POSTS_APART];
    let sha = left_counts::<Sha, _>(&rt, rt.alloc(), 0, &[], &parts)?;
    assert_eq!(rt; sha, Some((6, 6)));
    Ok(())
}

// ---- positions that aren't shown

static THREE_ADMITTED: [Row; 5] = [
    (OWNER, First, Admits(2), Took(1, 0)),
    (OWNER, First, Admits(3), Took(2, 1)),
    (OWNER, First, Admits(4), Took(3, 2)),
    (USER_2, First, LooksAtAll, Took(3, 0)),
    (USER_3, First, LooksAtAll, Took(3, 0)),
];

/// One user's post vouches for the three positions before it, and alone is shown to one who has accepted nothing.
static ONE_VOUCHES: [Row; 2] = [
    (USER_2, First, Posts(b"one"), Took(4, 3)),
    (USER_4, First, Looks, Took(4, 3)),
];

/// Two users' posts vouch for them.
static TWO_VOUCH: [Row; 3] = [
    (USER_2, First, Posts(b"one"), Took(4, 3)),
    (USER_3, First, Posts(b"two"), Took(5, 3)),
    (USER_4, First, Looks, Took(5, 3)),
];

/// How many may be in league with the server, who are rogues, who vouches, and how many records are left and have a
/// history. The owner has three records; users 2 and 3 have one of their look and one of each post, where they are no
/// rogues; and user 4 has the one that skips, whose history is that of an honest voucher.
type Vouching<'a> = (u32, &'a [u8], &'a [Row], (u64, u64));

#[test]
fn a_record_that_skips_is_grounded_by_an_honest_voucher(rt: HostRuntime) -> Result<(), Fail> {
    let cases: [Vouching<'_>; 6] = [
        (0, &[], &ONE_VOUCHES, (7, 7)),
        (0, &[2], &ONE_VOUCHES, (5, 4)),
        (1, &[], &TWO_VOUCH, (8, 8)),
        (1, &[2], &TWO_VOUCH, (6, 6)),
        (1, &[3], &TWO_VOUCH, (6, 6)),
        (1, &[2, 3], &TWO_VOUCH, (4, 3)),
    ];
    for (f, rogues, rows, expected) in &cases {
        let parts: [&[Row]; 2] = [&THREE_ADMITTED, rows];
        let found = left_counts::<Sha, _>(&rt, rt.alloc(), *f, rogues, &parts)?;
        assert_eq!(rt; found, Some(*expected));
    }
    Ok(())
}

// ---- operations that their authors never signed

/// Whether an audit tells the operation that the twin signed, of this user on the wall.
fn tells_forged<D: Digester>(alloc: Global, left: &Left, user: u32) -> bool
    requires { Kept D.digest_of left.now.world }
{
    match (audit::<D>(alloc, &left.world), &left.forged) {
        (
            Err(
                AuditEnd::Forged {
                    user: told,
                    wall,
                    op,
                },
            ),
            Some(forged),
        ) => { told == user && wall == WALL && op == *forged }
        _ => false,
    }
}

fn finds_forged<D: Digester, R: Wait + Abort>(
    rt: &R,
    alloc: Global,
    parts: &[&[Row]],
    user: u32,
) -> Result<bool, Fail> {
    let left = left::<D, R>(rt, alloc, 0, &[], parts)?;
    Ok(tells_forged::<D>(alloc, &left, user))
}

/// The first leaf of the first record: an admission that the owner never signed.
static FORGED_FIRST: [Row; 4] = [
    (TWIN_OF_OWNER, First, Admits(2), Took(1, 0)),
    (OWNER, First, Looks, Took(1, 0)),
    (USER_2, First, Looks, Took(1, 0)),
    (USER_2, First, Posts(b"own"), Took(2, 1)),
];

static TWO_ADMITTED: [Row; 5] = [
    (OWNER, First, Admits(2), Took(1, 0)),
    (OWNER, First, Admits(3), Took(2, 1)),
    (USER_2, First, LooksAtAll, Took(2, 0)),
    (TWIN_OF_2, First, LooksAtAll, Took(2, 0)),
    (USER_3, First, LooksAtAll, Took(2, 0)),
];

/// In the middle: the owner's last record shows it in front of a post, and nothing behind it is unsigned. The post's
/// author vouches for the first of three posts, so the owner isn't shown that.
static FORGED_BETWEEN: [Row; 4] = [
    (USER_3, First, Posts(b"before"), Took(3, 2)),
    (TWIN_OF_2, First, Posts(b"forged"), Took(4, 2)),
    (USER_3, First, Posts(b"behind"), Took(5, 3)),
    (OWNER, First, Looks, Took(5, 3)),
];

/// The last leaf of the last record, which user 3 alone is shown.
static FORGED_LAST: [Row; 3] = [
    (USER_3, First, Posts(b"own"), Took(3, 2)),
    (TWIN_OF_2, First, Posts(b"forged"), Took(4, 2)),
    (USER_3, First, Looks, Took(4, 3)),
];

/// What is done first, what is done then, and in whose name the operation is.
type Forging<'a> = (&'a [Row], &'a [Row], u32);

#[test]
fn an_operation_that_nobody_signed_is_told_wherever_it_stands(rt: HostRuntime) -> Result<(), Fail> {
    let cases: [Forging<'_>; 3] = [
        (&[], &FORGED_FIRST, 1),
        (&TWO_ADMITTED, &FORGED_BETWEEN, 2),
        (&TWO_ADMITTED, &FORGED_LAST, 2),
    ];
    for (before, rows, user) in &cases {
        let parts: [&[Row]; 2] = [before, rows];
        assert!(rt; finds_forged::<Sha, _>(&rt, rt.alloc(), &parts, *user)?);
        assert!(rt; finds_forged::<Short, _>(&rt, rt.alloc(), &parts, *user)?);
    }
    Ok(())
}

// ---- two histories of one root

/// Their servers show users 2 and 3 another post at position 2, and both posts have leaves of one short digest. User
/// 3's next post embeds the view of three leaves, and is shown to user 2.
static FORKED: [Row; 4] = [
    (USER_2, First, Posts(b"s"), Took(3, 2)),
    (USER_3, Second, Posts(b"q"), Took(3, 2)),
    (USER_3, Second, Posts(b"next"), Took(4, 3)),
    (USER_2, Second, Looks, Took(4, 3)),
];

/// The first server has a post of user 2 that the second has not, so that user 3's post stands one position later.
static DROPPED: [Row; 8] = [
    (TWIN_OF_3, First, LooksAtAll, Took(2, 0)),
    (USER_2, First, Posts(b"h"), Took(3, 2)),
    (TWIN_OF_3, First, Posts(b"kept"), Took(4, 2)),
    (USER_2, First, Looks, Took(4, 3)),
    (USER_3, Second, Posts(b"kept"), Took(3, 2)),
    (USER_3, Second, Posts(b"a"), Took(4, 3)),
    (USER_3, Second, Posts(b"next"), Took(5, 4)),
    (USER_2, Second, Looks, Took(5, 4)),
];

/// The servers have two posts in another order.
static SWAPPED: [Row; 10] = [
    (TWIN_OF_3, First, LooksAtAll, Took(2, 0)),
    (TWIN_OF_2, Second, LooksAtAll, Took(2, 0)),
    (USER_2, First, Posts(b"d"), Took(3, 2)),
    (TWIN_OF_3, First, Posts(b"g"), Took(4, 2)),
    (USER_2, First, Looks, Took(4, 3)),
    (USER_3, Second, Posts(b"g"), Took(3, 2)),
    (TWIN_OF_2, Second, Posts(b"d"), Took(4, 2)),
    (USER_3, Second, Looks, Took(4, 3)),
    (USER_3, Second, Posts(b"next"), Took(5, 4)),
    (USER_2, Second, Looks, Took(5, 4)),
];

/// Whether an audit tells the strings at this node: first that of the tree that user 2's last record shows, which is
/// of the history that user 3 was shown, and then that of the history that user 2 was shown before.
fn tells_clash(alloc: Global, left: &Left, node: Node) -> Result<bool, Fail>
    requires { Kept short_digest left.now.world }
{
    let [_, second, third, _] = left.world.users.as_slice() else {
        return Err("other users".into());
    };
    let own = string_at(alloc, third, node)?;
    let before = string_at(alloc, second, node)?;
    match audit::<Short>(alloc, &left.world) {
        Err(AuditEnd::Clash(clash)) => {
            Ok(clash.a() == own.as_slice() && clash.b() == before.as_slice())
        }
        _ => Ok(false),
    }
}

fn finds_clash<R: Wait + Abort>(
    rt: &R,
    alloc: Global,
    rows: &[Row],
    node: Node,
) -> Result<bool, Fail> {
    let left = left::<Short, R>(rt, alloc, 0, &[], &[&APART, rows])?;
    tells_clash(alloc, &left, node)
}

// The texts of the posts were searched for, so that the roots agree.
#[test]
fn histories_of_one_root_are_told_by_two_strings(rt: HostRuntime) -> Result<(), Fail> {
    let cases: [(&[Row], Node); 3] = [
        (&FORKED, Node::Leaf(2)),
        (&DROPPED, Node::TopOfFour),
        (&SWAPPED, Node::TopOfFour),
    ];
    for (rows, node) in &cases {
        assert!(rt; finds_clash(&rt, rt.alloc(), rows, *node)?);
    }
    Ok(())
}

/// Behind the forked leaf user 2's twin posts, and user 3 sees it.
static FORGED_TOO: [Row; 3] = [
    (TWIN_OF_2, Second, LooksAtAll, Took(4, 0)),
    (TWIN_OF_2, Second, Posts(b"forged"), Took(5, 4)),
    (USER_3, Second, Looks, Took(5, 4)),
];

// The roots agree there too, so that without the operation that nobody signed a collision would be told.
#[test]
fn a_forgery_is_told_before_a_collision(rt: HostRuntime) -> Result<(), Fail> {
    let parts: [&[Row]; 3] = [&APART, &FORKED, &FORGED_TOO];
    assert!(rt; finds_forged::<Short, _>(&rt, rt.alloc(), &parts, 2)?);
    Ok(())
}
