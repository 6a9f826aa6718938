ghost use Rattle.std.specs.Prelude.{◌≡◌, IfOk};
ghost use Rattle.tree_model.specs.AccessList.{IsRising};

use crate::{
    Entry, above, add_entry, dict_digest, drop_user, find_entry, greater_users, laws, set_next,
    smaller_users, top_in,
};
use fr_bytes::NoMemory;
use fr_digest::{Digester, Sha, Short};
use std::alloc::{AllocError, Global};
use std::test::Fail;

/// A user, its role and its next number.
type Row = (u32, u8, u32);

/// Sets of entries and their digests under SHA-256 and the first bytes of those under the short digest,
/// from an independent program.
const SETS: [(&[Row], &str, &str); 12] = [
    (
        &[(1, 3, 1)],
        "8d22c5ccae83848b583a52f658756deee9c5b14aeb20a694a118ff25449d10cd",
        "8d",
    ),
    (
        &[(1, 3, 1), (2, 1, 2)],
        "acb466b6575b983f559bee6ade055019f4f431783d807a9992c115e0f003757c",
        "e1",
    ),
    (
        &[(1, 3, 9), (2, 1, 2)],
        "1e5461a867f1267a50594526f6225dfa648140157d40f8e314b941cc5befb9c3",
        "79",
    ),
    (
        &[(1, 3, 9), (2, 1, 2), (100, 2, 0)],
        "615c50a27f3e6b3085fa5b12b46068dcbb27fae5e49d7cbd65f61e63458c492a",
        "e9",
    ),
    (
        &[(1, 3, 9)],
        "6019efae85802c594351421e8a13a281710c470f02f2cb55fbdb67e9a7540f37",
        "60",
    ),
    (
        &[(1, 3, 1), (2, 1, 2), (3, 2, 3), (4, 1, 4)],
        "e37ba609bd5f39759602e22eac0d2576f3171c9ccbf6d466490e5e5ebbe3e66a",
        "69",
    ),
    (
        &[(1, 3, 9), (2, 1, 2), (3, 2, 3), (4, 1, 4)],
        "81353b5879fa7ec2a7680f3557a3950a67c0770b9937c89b90828e53b21d9144",
        "a6",
    ),
    (
        &[(1, 3, 9), (2, 1, 2), (3, 2, 3), (4, 1, 4), (100, 2, 0)],
        "6cb383d1367b1966dbc80677a37610c12b1e8b7643638eed856641698c189e49",
        "1c",
    ),
    (
        &[(1, 3, 9), (3, 2, 3), (4, 1, 4)],
        "c4b63592ae3005c28262ae8c76756afa59c4f583c74e6e454511d9740d397576",
        "81",
    ),
    (
        &[
            (1, 3, 1),
            (2, 1, 2),
            (3, 2, 3),
            (4, 1, 4),
            (5, 2, 0),
            (6, 1, 1),
            (7, 2, 2),
            (8, 1, 3),
            (9, 2, 4),
        ],
        "f507f938a8a37b16083b62c37946e0a0c93c20e284162140a0a61f2d42b2ab84",
        "3d",
    ),
    // The owner 1 with the writers 2, 3 and 4, and then without 3.
    (
        &[(1, 3, 0), (2, 2, 0), (3, 2, 0), (4, 2, 0)],
        "a7248e92e5f392603611d223de2bc53fe4d54077013043b5b9693449eebf46bb",
        "d0",
    ),
    (
        &[(1, 3, 0), (2, 2, 0), (4, 2, 0)],
        "cb3017ee93ceb453e2be835d19ced9a0dd25b1bb9d3100a7faa41363e8657605",
        "12",
    ),
];

/// The list of these entries.
fn list_of(alloc: Global, rows: &[Row]) -> Result<Vec<Entry>, NoMemory>
    ensures { IfOk result (λ list. IsRising list.items) }
{
    let mut list = Vec::new(alloc);
    for row in rows {
        let (user, role, next) = *row;
        list = add_entry(alloc, &list, Entry { user, role, next })?;
    }
    Ok(list)
}

/// The digest of these entries as hexadecimal text, and nothing where there are none.
fn digest_text<D: Digester>(alloc: Global, rows: &[Row]) -> Result<String, NoMemory> {
    let list = list_of(alloc, rows)?;
    if list.is_empty() {
        return Ok(String::new(alloc));
    }
    let text = hex::encode(alloc, dict_digest::<D>(&list))?;
    Ok(text)
}

#[test]
fn digests_of_sets_are_those_of_an_independent_program(rt: HostRuntime) -> Result<(), Fail> {
    for (rows, whole, first) in &SETS {
        let text = digest_text::<Sha>(rt.alloc(), rows)?;
        assert_eq!(rt; text.as_str(), *whole);
        let text = digest_text::<Short>(rt.alloc(), rows)?;
        assert!(rt; text.as_str().starts_with(*first));
    }
    Ok(())
}

#[test]
fn priorities_order_the_users(rt: HostRuntime) {
    let falling = [2, 300, 3, 9, 1, 4, 65535];
    for (i, a) in falling.iter().enumerate() {
        for (j, b) in falling.iter().enumerate() {
            assert_eq!(rt; above(*a, *b), i < j);
        }
    }
}

/// The list of users 1, 2 and 4.
const LIST: [Entry; 3] = [
    Entry {
        user: 1,
        role: 3,
        next: 1,
    },
    Entry {
        user: 2,
        role: 1,
        next: 2,
    },
    Entry {
        user: 4,
        role: 2,
        next: 0,
    },
];

/// The changes of the list, and what they leave of it.
fn changed(alloc: Global, change: &str) -> Result<Vec<Entry>, NoMemory> {
    match change {
        "add 3" => add_entry(
            alloc,
            &LIST,
            Entry {
                user: 3,
                role: 2,
                next: 0,
            },
        ),
        "drop 2" => drop_user(alloc, &LIST, 2),
        "next of 2" => set_next(alloc, &LIST, 2, 9),
        "below 2" => smaller_users(alloc, &LIST, 2),
        _ => greater_users(alloc, &LIST, 2),
    }
}

#[test]
fn changes_leave_the_other_entries(rt: HostRuntime) -> Result<(), Fail> {
    let rows: [(&str, &[Row]); 5] = [
        ("add 3", &[(1, 3, 1), (2, 1, 2), (3, 2, 0), (4, 2, 0)]),
        ("drop 2", &[(1, 3, 1), (4, 2, 0)]),
        ("next of 2", &[(1, 3, 1), (2, 1, 9), (4, 2, 0)]),
        ("below 2", &[(1, 3, 1)]),
        ("above 2", &[(4, 2, 0)]),
    ];
    for (change, want) in &rows {
        let list = changed(rt.alloc(), change)?;
        assert_eq!(rt; list.as_slice(), list_of(rt.alloc(), want)?.as_slice());
    }
    Ok(())
}

#[test]
fn look_ups_find_entries_and_the_top(rt: HostRuntime) {
    assert_eq!(rt; find_entry(&LIST, 2), Some(LIST[1]));
    assert_eq!(rt; find_entry(&LIST, 3), None);
    assert_eq!(rt; top_in(&LIST), (1, LIST[1]));
}

#[test]
fn laws_of_sets_are_called() {
    laws::access_list::priorities();
    laws::access_list::tops();
    laws::access_list::members();
    laws::access_list::node_strings();
    laws::access_list::ranges(&LIST);
    laws::access_list::changes();
    laws::access_list::look_ups();
}

#[test]
fn laws_of_digests_are_called() {
    laws::access_list::digests::<Sha>();
    laws::access_list::digests::<Short>();
    laws::access_list::sets::<Sha>();
    laws::access_list::sets::<Short>();
    laws::access_list::treaps::<Sha>();
    laws::access_list::treaps::<Short>();
}

#[test]
fn laws_of_parts_are_called() {
    laws::parts::around();
    laws::parts::parts_of_parts();
    laws::parts::joined();
    laws::parts::next_set();
    laws::parts::entry_added();
    laws::parts::user_dropped();
}
