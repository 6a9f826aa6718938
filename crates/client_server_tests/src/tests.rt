ghost use Rattle.std.specs.List.{All};
ghost use Rattle.sha2.specs.Sha256.{sha256};
ghost use Rattle.hall_server.specs.Seating.{IsSeatsOf};

use crate::scene::{Row, Scene};
use crate::steps::{Heard, Outcome, Step, TEXT, told};
use crate::wall::Setup;
use client_core::{Client, News, Sent};
use fr_bytes::Bytes;
use fr_digest::Sha;
use msg_form::Decline;
use msg_form::causes::{NOT_ALLOWED, REPLAYED, STALE_EPOCH};
use std::alloc::Global;
use std::process::Abort;
use std::sync::Wait;
use std::test::Fail;
use world_book::UserBook;

/// The owner, with a key tree of two slots.
const OWNER: Setup = Setup {
    user: 1,
    rogue: false,
    depth: 1,
};

const SECOND: Setup = Setup { user: 2, ..OWNER };

const THIRD: Setup = Setup { user: 3, ..OWNER };

const THREE: [Setup; 3] = [OWNER, SECOND, THIRD];

// ---- changes, and a user who is removed

/// The owner admits both others, and sees its own operation each time. One of them looks at all.
const ADMITTED: [Row; 3] = [
    (
        0,
        Step::Admits { user: 2 },
        Outcome::Took { size: 1, from: 0 },
    ),
    (
        0,
        Step::Admits { user: 3 },
        Outcome::Took { size: 2, from: 1 },
    ),
    (
        1,
        Step::Looks { whole: true },
        Outcome::Took { size: 2, from: 0 },
    ),
];

/// It posts. The owner, who has accepted two positions, removes it, and sees the post too. Then the removed one may post
/// no more, which it doesn't know before the server tells. When it has seen that, it doesn't ask.
const REMOVED: [Row; 6] = [
    (1, Step::Posts, Outcome::Took { size: 3, from: 2 }),
    (
        0,
        Step::Removes { user: 2 },
        Outcome::Took { size: 4, from: 2 },
    ),
    (
        1,
        Step::Posts,
        Outcome::Refused {
            cause: NOT_ALLOWED,
            number: 0,
        },
    ),
    (
        1,
        Step::Looks { whole: false },
        Outcome::Took { size: 4, from: 3 },
    ),
    (1, Step::Looks { whole: true }, Outcome::Same { size: 4 }),
    (1, Step::Posts, NOT_MEMBER),
];

const NOT_MEMBER: Outcome = Outcome::Declined {
    why: Decline::NotMember,
};

const NOT_OWNER: Outcome = Outcome::Declined {
    why: Decline::NotOwner,
};

const ALREADY_IN: Outcome = Outcome::Declined {
    why: Decline::AlreadyIn,
};

const NOT_IN: Outcome = Outcome::Declined {
    why: Decline::NotIn,
};

const NO_SLOT: Outcome = Outcome::Declined {
    why: Decline::NoSlot,
};

#[test]
fn each_change_and_post_is_shown_and_a_removed_user_is_refused(
    rt: HostRuntime,
) -> Result<(), Fail> {
    let mut scene = Scene::<Sha>::open(rt.alloc(), &THREE)?;
    scene.run(&rt, rt.alloc(), &ADMITTED)?;
    scene.run(&rt, rt.alloc(), &REMOVED)
}

// ---- what clients decline

/// Users who have accepted nothing hold no root key, and the wall isn't theirs. The owner is always in the access list and
/// is never taken from it, and takes nobody else from it who isn't there.
const OPENING: [Row; 6] = [
    (1, Step::Posts, NOT_MEMBER),
    (1, Step::Admits { user: 3 }, NOT_OWNER),
    (1, Step::Removes { user: 3 }, NOT_OWNER),
    (0, Step::Admits { user: 1 }, ALREADY_IN),
    (0, Step::Removes { user: 1 }, NOT_IN),
    (0, Step::Removes { user: 2 }, NOT_IN),
];

/// Of a full key tree a member is told first, and the owner, whether it is to be admitted or removed.
const FULL: [Row; 6] = [
    (0, Step::Admits { user: 4 }, NO_SLOT),
    (0, Step::Admits { user: 2 }, ALREADY_IN),
    (0, Step::Admits { user: 1 }, ALREADY_IN),
    (0, Step::Removes { user: 1 }, NOT_IN),
    (0, Step::Removes { user: 4 }, NOT_IN),
    (1, Step::Admits { user: 2 }, NOT_OWNER),
];

#[test]
fn each_decline_comes_in_its_order(rt: HostRuntime) -> Result<(), Fail> {
    let mut scene = Scene::<Sha>::open(rt.alloc(), &THREE)?;
    scene.run(&rt, rt.alloc(), &OPENING)?;
    scene.run(&rt, rt.alloc(), &ADMITTED)?;
    scene.run(&rt, rt.alloc(), &FULL)
}

// ---- changes that weren't heard of

/// The owner admitted user 2 and didn't hear of it. The user vouches for that by a post, which alone the owner is shown
/// when it looks: so it holds a change less than it has accepted, and neither posts nor changes anything.
const UNHEARD: [Row; 7] = [
    (
        1,
        Step::Looks { whole: true },
        Outcome::Took { size: 1, from: 0 },
    ),
    (1, Step::Posts, Outcome::Took { size: 2, from: 1 }),
    (
        0,
        Step::Looks { whole: false },
        Outcome::Took { size: 2, from: 1 },
    ),
    (0, Step::Posts, NOT_MEMBER),
    (0, Step::Admits { user: 2 }, NOT_MEMBER),
    (0, Step::Admits { user: 1 }, NOT_MEMBER),
    (0, Step::Removes { user: 1 }, NOT_MEMBER),
];

/// When it has learnt the changes anew, the user is in its key tree. The user didn't see the next change: its post tells
/// the epoch before.
const LEARNT: [Row; 4] = [
    (0, Step::Admits { user: 2 }, ALREADY_IN),
    (0, Step::Admits { user: 1 }, ALREADY_IN),
    (
        0,
        Step::Admits { user: 3 },
        Outcome::Took { size: 3, from: 2 },
    ),
    (
        1,
        Step::Posts,
        Outcome::Refused {
            cause: STALE_EPOCH,
            number: 2,
        },
    ),
];

#[test]
fn an_owner_that_lacks_a_change_learns_it_first(rt: HostRuntime) -> Result<(), Fail> {
    let mut scene = Scene::<Sha>::open(rt.alloc(), &THREE)?;
    scene.lose(&rt, rt.alloc(), 0, Step::Admits { user: 2 })?;
    scene.run(&rt, rt.alloc(), &UNHEARD)?;
    assert_eq!(rt; scene.mend(&rt, rt.alloc(), 0)?, (true, false));
    scene.run(&rt, rt.alloc(), &LEARNT)
}

/// Of two clients of the owner the first, whose key tree has four slots, admits three users. The last of them has no slot
/// in the second's key tree, but its admission counts: else the second would hold fewer changes than there are, and decline
/// by that. Its own numbers are used already.
const PAST_THE_TREE: [Row; 7] = [
    (
        0,
        Step::Admits { user: 2 },
        Outcome::Took { size: 1, from: 0 },
    ),
    (
        0,
        Step::Admits { user: 3 },
        Outcome::Took { size: 2, from: 1 },
    ),
    (
        0,
        Step::Admits { user: 4 },
        Outcome::Took { size: 3, from: 2 },
    ),
    (
        1,
        Step::Looks { whole: true },
        Outcome::Took { size: 3, from: 0 },
    ),
    (1, Step::Admits { user: 4 }, NO_SLOT),
    (1, Step::Removes { user: 4 }, NOT_IN),
    (
        1,
        Step::Removes { user: 2 },
        Outcome::Refused {
            cause: REPLAYED,
            number: 3,
        },
    ),
];

#[test]
fn a_change_past_the_key_tree_counts(rt: HostRuntime) -> Result<(), Fail> {
    let wide = Setup { depth: 2, ..OWNER };
    let mut scene = Scene::<Sha>::open(rt.alloc(), &[wide, OWNER])?;
    scene.run(&rt, rt.alloc(), &PAST_THE_TREE)
}

// ---- changes that a reply leaves out

/// What one who looks late sees of a post, and reads of it.
#[derive(Drop)]
struct Late {
    news: Outcome,
    /// Whether it is shown the post alone.
    alone: bool,
    /// Whether it needs the changes, before it learns them and after.
    needs: (bool, bool),
    /// What it reads of the post, before and after.
    texts: (Option<Bytes>, Option<Bytes>),
}

/// Whether what was heard shows the operation that was sent alone.
fn shows(looked: &Heard, sent: &Sent) -> bool {
    let (Ok((_, News::Took { leaves, .. })), Some(op)) = (looked, &sent.signed) else {
        return false;
    };
    match leaves.as_slice() {
        [leaf] => leaf.op == *op,
        _ => false,
    }
}

/// The post is shown to the third user, who has accepted nothing.
fn look_late<R: Wait>(
    rt: &R,
    alloc: Global,
    scene: &mut Scene<Sha>,
    post: &Sent,
) -> Result<Late, Fail>
    requires { All (IsSeatsOf sha256 scene.old.server) scene.old.all.items }
{
    let looked = scene.act(rt, alloc, 2, Step::Looks { whole: false })?;
    let before = scene.read(alloc, 2, post)?;
    let needs = scene.mend(rt, alloc, 2)?;
    Ok(Late {
        news: told(&looked),
        alone: shows(&looked, post),
        needs,
        texts: (before, scene.read(alloc, 2, post)?),
    })
}

fn looked_late<R: Wait + Abort>(rt: &R, alloc: Global) -> Result<Late, Fail> {
    let mut scene = Scene::<Sha>::open(alloc, &THREE)?;
    scene.run(rt, alloc, &ADMITTED)?;
    match scene.act(rt, alloc, 1, Step::Posts)? {
        Ok((post, _)) => look_late(rt, alloc, &mut scene, &post),
        Err(_) => Err("the post is declined".into()),
    }
}

fn is_text(text: &Option<Bytes>) -> bool {
    match text {
        Some(text) => text.as_slice() == TEXT,
        None => false,
    }
}

// The second user's post vouches for what is in front of it, so both changes are left out.
#[test]
fn changes_that_were_left_out_are_learnt(rt: HostRuntime) -> Result<(), Fail> {
    let late = looked_late(&rt, rt.alloc())?;
    assert_eq!(rt; late.news, Outcome::Took { size: 3, from: 2 });
    assert!(rt; late.alone && late.needs == (true, false));
    assert!(rt; late.texts.0.is_none() && is_text(&late.texts.1));
    Ok(())
}

// ---- books

/// How many replies a book has, and how many operations.
type Counts = (usize, usize);

fn counts(book: &UserBook) -> Counts {
    (book.took.len(), book.signed.len())
}

/// What two clients' books have.
fn counts_of(mut clients: Vec<Client<Sha>>) -> Result<(Counts, Counts), Fail> {
    let (Some(second), Some(first)) = (clients.pop(), clients.pop()) else {
        return Err("a client is missing".into());
    };
    Ok((counts(first.book()), counts(&second.end())))
}

/// What the owner's book has, and that of the user who is removed.
fn kept<R: Wait + Abort>(rt: &R, alloc: Global, rogue: bool) -> Result<(Counts, Counts), Fail> {
    let other = Setup { rogue, ..SECOND };
    let mut scene = Scene::<Sha>::open(alloc, &[OWNER, other])?;
    scene.run(rt, alloc, &ADMITTED)?;
    scene.run(rt, alloc, &REMOVED)?;
    counts_of(scene.into_clients())
}

// Each reply that shows something new is kept, and each operation that is signed, a refused one too. Of a user who may do
// as it likes nothing is kept.
#[test]
fn books_have_what_was_taken_and_signed(rt: HostRuntime) -> Result<(), Fail> {
    for (rogue, other) in [(false, (3, 2)), (true, (0, 0))] {
        assert_eq!(rt; kept(&rt, rt.alloc(), rogue)?, ((3, 3), other));
    }
    Ok(())
}
