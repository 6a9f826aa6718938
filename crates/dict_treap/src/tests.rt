ghost use Rattle.dict_treap.specs.Treap.{part};
ghost use Rattle.pruned_list.specs.PrunedList.{in_order, levels};
ghost use Rattle.std.specs.Prelude.{◌≡◌, ◌++◌, IfOk, OnOk};

use crate::{Dict, Node, laws};
use fr_bytes::NoMemory;
use fr_digest::{Digester, Sha, Short};
use std::alloc::Global;
use std::process::Abort;
use std::test::Fail;
use tree_model::{Entry, dict_digest};

fn owner() -> Entry {
    Entry {
        user: 1,
        role: 3,
        next: 0,
    }
}

fn writer(user: u32) -> Entry {
    Entry {
        user,
        role: 2,
        next: 0,
    }
}

// Appends the entries of a part, smaller users first.
#[tactic(auto, using(crate::proofs::Treaps::orders), unfolding(pruned_list::specs::PrunedList::in_order))]
fn put_entries<D: Digester>(out: &mut Vec<Entry>, at: Option<&Node<D>>) -> Result<(), NoMemory>
    ensures { OnOk result (out.new.items ≡ out.old.items ++ in_order (part at.entry)) }
{
    let Some(node) = at else {
        return Ok(());
    };
    put_entries(out, node.left())?;
    out.push(node.entry())?;
    put_entries(out, node.right())
}

// The entries of a list, smaller users first.
fn entries<D: Digester>(alloc: Global, dict: &Dict<D>) -> Result<Vec<Entry>, NoMemory>
    ensures { IfOk result (λ list. list.items ≡ dict.now) }
{
    let mut list = Vec::new(alloc);
    put_entries(&mut list, Some(dict.root()))?;
    Ok(list)
}

fn with<D: Digester>(rt: &impl Abort, dict: &Dict<D>, entry: Entry) -> Result<Dict<D>, NoMemory> {
    assert!(rt; dict.get(entry.user).is_none());
    dict.insert(entry)
}

// Without a user; another one stays.
fn less<D: Digester>(
    rt: &impl Abort,
    dict: &Dict<D>,
    user: u32,
    stays: u32,
) -> Result<Dict<D>, NoMemory> {
    assert!(rt; dict.get(user).is_some());
    assert!(rt; dict.get(stays).is_some());
    assert!(rt; user != stays);
    laws::others();
    dict.remove(user)
}

fn numbered<D: Digester>(
    rt: &impl Abort,
    dict: &Dict<D>,
    user: u32,
    next: u32,
) -> Result<Dict<D>, NoMemory> {
    assert!(rt; dict.get(user).is_some());
    dict.set_next(user, next)
}

// The owner with the writers 2, 3 and 4.
fn four<D: Digester>(rt: &impl Abort, alloc: Global) -> Result<Dict<D>, NoMemory> {
    let mut dict = Dict::one(alloc, owner())?;
    for user in [2, 3, 4] {
        dict = with(rt, &dict, writer(user))?;
    }
    Ok(dict)
}

#[test]
fn a_next_number_gives_a_new_version(rt: HostRuntime) -> Result<(), Fail> {
    let dict = four::<Short>(&rt, rt.alloc())?;
    let next = numbered(&rt, &dict, 3, 7)?;
    let changed = Entry {
        next: 7,
        ..writer(3)
    };
    assert_eq!(rt;
        entries(rt.alloc(), &next)?.as_slice(),
        [owner(), writer(2), changed, writer(4)].as_slice()
    );
    assert_eq!(rt; dict.get(3), Some(writer(3)));
    Ok(())
}

#[test]
fn a_shared_version_is_the_same_list(rt: HostRuntime) -> Result<(), Fail> {
    let dict = four::<Short>(&rt, rt.alloc())?;
    let shared = dict.share()?;
    assert_eq!(rt; entries(rt.alloc(), &shared)?, entries(rt.alloc(), &dict)?);
    assert_eq!(rt; shared.digest(), dict.digest());
    Ok(())
}

// The part of the smaller or of the greater users, or an error where there are none.
fn smaller(dict: &Dict<Sha>) -> Result<Dict<Sha>, Fail> {
    let (_, smaller, _) = dict.top()?;
    let part = smaller.ok_or("smaller users")?;
    Ok(part)
}

fn greater(dict: &Dict<Sha>) -> Result<Dict<Sha>, Fail> {
    let (_, _, greater) = dict.top()?;
    let part = greater.ok_or("greater users")?;
    Ok(part)
}

#[test]
fn the_top_parts_a_list(rt: HostRuntime) -> Result<(), Fail> {
    let dict = four::<Sha>(&rt, rt.alloc())?;
    let (top, _, _) = dict.top()?;
    assert_eq!(rt; top, writer(2));
    assert_eq!(rt;
        entries(rt.alloc(), &smaller(&dict)?)?.as_slice(),
        [owner()].as_slice()
    );
    assert_eq!(rt;
        entries(rt.alloc(), &greater(&dict)?)?.as_slice(),
        [writer(3), writer(4)].as_slice()
    );
    Ok(())
}

#[test]
fn a_single_entry_has_no_parts(rt: HostRuntime) -> Result<(), Fail> {
    let (top, smaller, greater) = Dict::<Sha>::one(rt.alloc(), owner())?.top()?;
    assert_eq!(rt; top, owner());
    assert!(rt; smaller.is_none());
    assert!(rt; greater.is_none());
    Ok(())
}

#[test]
fn a_part_is_a_list_of_its_own(rt: HostRuntime) -> Result<(), Fail> {
    let part = greater(&four::<Sha>(&rt, rt.alloc())?)?;
    assert_eq!(rt; (part.get(2), part.get(4)), (None, Some(writer(4))));
    laws::lists(&part);
    let listed = entries(rt.alloc(), &part)?;
    assert_eq!(rt; part.digest(), dict_digest::<Sha>(&listed));
    Ok(())
}

#[test]
fn a_part_is_changed_as_a_list(rt: HostRuntime) -> Result<(), Fail> {
    let part = greater(&four::<Sha>(&rt, rt.alloc())?)?;
    let more = with(&rt, &part, writer(2))?;
    assert_eq!(rt;
        entries(rt.alloc(), &more)?.as_slice(),
        [writer(2), writer(3), writer(4)].as_slice()
    );
    assert_eq!(rt;
        entries(rt.alloc(), &less(&rt, &part, 3, 4)?)?.as_slice(),
        [writer(4)].as_slice()
    );
    Ok(())
}

// The user of this number: the owner, or a reader or a writer.
fn numbered_user(user: u32) -> Entry {
    let role = match user {
        1 => 3,
        _ if user % 2 == 0 => 1,
        _ => 2,
    };
    Entry {
        user,
        role,
        next: user % 5,
    }
}

// The list of the first users, in which those of even numbers came last.
fn first_users<D: Digester>(
    rt: &impl Abort,
    alloc: Global,
    size: u32,
) -> Result<Dict<D>, NoMemory> {
    let mut dict = Dict::one(alloc, numbered_user(1))?;
    for user in (3..=size).step_by(2) {
        dict = with(rt, &dict, numbered_user(user))?;
    }
    for user in (2..=size).step_by(2) {
        dict = with(rt, &dict, numbered_user(user))?;
    }
    Ok(dict)
}

// The digests that an independent program gives for the list of the first users, for the list in which
// the owner's next number is 9, and for the latter with the writer 100, and without user 2 where it has it.
const DIGESTS: [(u32, [&str; 4]); 5] = [
    (
        1,
        [
            "8d22c5ccae83848b583a52f658756deee9c5b14aeb20a694a118ff25449d10cd",
            "6019efae85802c594351421e8a13a281710c470f02f2cb55fbdb67e9a7540f37",
            "c5dfac68e7311f95c30e977a1e92952c6b4d458c55fd2e19e490688673b03ec0",
            "",
        ],
    ),
    (
        2,
        [
            "acb466b6575b983f559bee6ade055019f4f431783d807a9992c115e0f003757c",
            "1e5461a867f1267a50594526f6225dfa648140157d40f8e314b941cc5befb9c3",
            "615c50a27f3e6b3085fa5b12b46068dcbb27fae5e49d7cbd65f61e63458c492a",
            "6019efae85802c594351421e8a13a281710c470f02f2cb55fbdb67e9a7540f37",
        ],
    ),
    (
        4,
        [
            "e37ba609bd5f39759602e22eac0d2576f3171c9ccbf6d466490e5e5ebbe3e66a",
            "81353b5879fa7ec2a7680f3557a3950a67c0770b9937c89b90828e53b21d9144",
            "6cb383d1367b1966dbc80677a37610c12b1e8b7643638eed856641698c189e49",
            "c4b63592ae3005c28262ae8c76756afa59c4f583c74e6e454511d9740d397576",
        ],
    ),
    (
        9,
        [
            "f507f938a8a37b16083b62c37946e0a0c93c20e284162140a0a61f2d42b2ab84",
            "9162a89172ad05c2192af042222e71b5b4703eeef33e804cfe05efd8c05379d3",
            "5e76ed161c020bb2d87324ef09f4723cc66906b487c919ec639c075ffcbbd12b",
            "31adfa2d45c17da0a7b5872c40de17f48b5350d1e7a91a13108f5290f9c443a1",
        ],
    ),
    (
        32,
        [
            "720543318df4de6ac2d75b4d90817c434c015832fc027945c794694c678616fc",
            "2acd29095e92ef3500b8aeeaa74fc0d0047e6c52eddb681fca2770a62bf87977",
            "ba46c4bf17d8b116fea00ccf8cd363128c60ae543ad7c40da904cc019d7c661b",
            "4b78044715cdf349daf7e0b203015f994276be17f70487c4bccf33aa1e5d1aa6",
        ],
    ),
];

// The first bytes of the short digests.
const SHORT_DIGESTS: [(u32, [&str; 4]); 5] = [
    (1, ["8d", "60", "3c", ""]),
    (2, ["e1", "79", "e9", "60"]),
    (4, ["69", "a6", "1c", "81"]),
    (9, ["3d", "b6", "b4", "e0"]),
    (32, ["71", "f1", "37", "a6"]),
];

fn text_of<D: Digester>(alloc: Global, dict: &Dict<D>) -> Result<String, NoMemory> {
    let text = hex::encode(alloc, dict.digest())?;
    Ok(text)
}

// The first users' list, in which the owner's next number is 9.
fn nine<D: Digester>(rt: &impl Abort, alloc: Global, size: u32) -> Result<Dict<D>, NoMemory> {
    let whole = first_users::<D>(rt, alloc, size)?;
    numbered(rt, &whole, 1, 9)
}

// The first users' list after this many of the changes named above.
fn changed<D: Digester>(
    rt: &impl Abort,
    alloc: Global,
    size: u32,
    changes: usize,
) -> Result<Dict<D>, NoMemory> {
    match changes {
        0 => first_users(rt, alloc, size),
        1 => nine(rt, alloc, size),
        2 => with(rt, &nine(rt, alloc, size)?, writer(100)),
        _ => less(rt, &nine(rt, alloc, size)?, 2, 1),
    }
}

fn changed_text<D: Digester>(
    rt: &impl Abort,
    alloc: Global,
    size: u32,
    changes: usize,
) -> Result<String, NoMemory> {
    text_of(alloc, &changed::<D>(rt, alloc, size, changes)?)
}

// Whether the list after each of the changes has the digest that begins with this text.
fn agrees<D: Digester>(
    rt: &impl Abort,
    alloc: Global,
    size: u32,
    wanted: &[&str],
) -> Result<bool, NoMemory> {
    let mut same = true;
    for (changes, want) in wanted.iter().enumerate() {
        if !want.is_empty() {
            let text = changed_text::<D>(rt, alloc, size, changes)?;
            same = same && text.as_str().starts_with(*want);
        }
    }
    Ok(same)
}

#[test]
fn digests_are_those_of_an_independent_program(rt: HostRuntime) -> Result<(), Fail> {
    for (size, wanted) in &DIGESTS {
        assert!(rt; agrees::<Sha>(&rt, rt.alloc(), *size, wanted)?);
    }
    for (size, wanted) in &SHORT_DIGESTS {
        assert!(rt; agrees::<Short>(&rt, rt.alloc(), *size, wanted)?);
    }
    Ok(())
}

// The owner 1 with the writers 2, 3 and 4, and then without 3, from an independent program.
const FOUR: &str = "a7248e92e5f392603611d223de2bc53fe4d54077013043b5b9693449eebf46bb";

const WITHOUT_3: &str = "cb3017ee93ceb453e2be835d19ced9a0dd25b1bb9d3100a7faa41363e8657605";

#[test]
fn a_removal_leaves_the_version_before_it(rt: HostRuntime) -> Result<(), Fail> {
    let before = four::<Sha>(&rt, rt.alloc())?;
    let after = less(&rt, &before, 3, 1)?;
    assert_eq!(rt; text_of(rt.alloc(), &after)?.as_str(), WITHOUT_3);
    assert_eq!(rt; text_of(rt.alloc(), &before)?.as_str(), FOUR);
    assert_eq!(rt; (before.get(3), after.get(3)), (Some(writer(3)), None));
    Ok(())
}

#[test]
fn the_order_of_insertions_is_free(rt: HostRuntime) -> Result<(), Fail> {
    let made = with(&rt, &Dict::<Sha>::one(rt.alloc(), owner())?, writer(4))?;
    let made = with(&rt, &made, writer(2))?;
    assert_eq!(rt;
        entries(rt.alloc(), &made)?.as_slice(),
        [owner(), writer(2), writer(4)].as_slice()
    );
    Ok(())
}

// The list of the first users, who came in the order of their numbers, or against it.
fn rising_users<D: Digester>(
    rt: &impl Abort,
    alloc: Global,
    size: u32,
) -> Result<Dict<D>, NoMemory> {
    let mut dict = Dict::one(alloc, numbered_user(1))?;
    for user in 2..=size {
        dict = with(rt, &dict, numbered_user(user))?;
    }
    Ok(dict)
}

fn falling_users<D: Digester>(
    rt: &impl Abort,
    alloc: Global,
    size: u32,
) -> Result<Dict<D>, NoMemory> {
    let mut dict = Dict::one(alloc, numbered_user(size))?;
    for user in (1..size).rev() {
        dict = with(rt, &dict, numbered_user(user))?;
    }
    Ok(dict)
}

// The digest of `DIGESTS` for 32 users.
const OF_32: &str = "720543318df4de6ac2d75b4d90817c434c015832fc027945c794694c678616fc";

#[test]
fn rising_and_falling_users_give_one_digest(rt: HostRuntime) -> Result<(), Fail> {
    let rising = rising_users::<Sha>(&rt, rt.alloc(), 32)?;
    let falling = falling_users::<Sha>(&rt, rt.alloc(), 32)?;
    assert_eq!(rt; text_of(rt.alloc(), &rising)?.as_str(), OF_32);
    assert_eq!(rt; falling.digest(), rising.digest());
    Ok(())
}

#[test]
fn laws_are_called(rt: HostRuntime) -> Result<(), Fail> {
    laws::lists(&Dict::<Sha>::one(rt.alloc(), owner())?);
    laws::others();
    Ok(())
}
