ghost use Rattle.dict_proof.specs.Spelling.{IsSpelled};
ghost use Rattle.dict_proof.specs.View.{list_view};
ghost use Rattle.std.specs.Prelude.{IfOk};

use crate::{
    Change, DictEnd, Found, PrunedDict, apply, digest, find, is_spelled, keeps_author, laws,
    read_dict, write_dict,
};
use fr_bytes::ReadRefusal;
use fr_digest::{Sha, Short};
use std::alloc::{AllocError, Global};
use std::process::Abort;
use std::test::Fail;
use tree_model::Entry;

fn list(alloc: Global, digits: &str) -> Result<PrunedDict, Fail>
    ensures { IfOk result (λ p. IsSpelled (list_view p)) }
{
    let bytes = hex::decode(alloc, digits)?;
    match read_dict(alloc, &bytes) {
        Ok(list) => Ok(list),
        Err(refused) => Err(refused.into()),
    }
}

fn entry(user: u32, role: u8, next: u32) -> Entry {
    Entry { user, role, next }
}

// ---- look-ups

// Spelled by an independent program, as what is found in them and what changes leave of them.
const SEVEN: &str = "01000000380300000001010100000005020000000102010000001e0300000000030090426eda99\
    79802f43f7930123e089495d35472b6ae8e7cda6ba0593227ea34e010000002202000000010201000000340300000001\
    020100000037010000000300";

const HIDDEN: &str = "004fcf3dd544ed7371831d6a26f0c21e3bd60e090b937263bfae9746496b8237f6";

const TWO: &str = "010000002f0100000003010100000007010000000300";

const THREE: &str = "01000000020300000003020100000013020000000001010000000a020000000000";

#[test]
fn look_ups_find_an_entry_or_an_end_or_a_hidden_part(rt: HostRuntime) -> Result<(), Fail> {
    let rows = [
        (SEVEN, 7, Found::Hid),
        (SEVEN, 26, Found::Hid),
        (HIDDEN, 13, Found::Hid),
        (TWO, 7, Found::Entry(entry(7, 1, 3))),
        (TWO, 8, Found::Absent),
        (TWO, 29, Found::Absent),
        (TWO, 47, Found::Entry(entry(47, 1, 3))),
        (THREE, 10, Found::Entry(entry(10, 2, 0))),
        (THREE, 35, Found::Absent),
    ];
    for (digits, user, found) in rows {
        let list = list(rt.alloc(), digits)?;
        assert!(rt; find(&list, user) == found);
    }
    Ok(())
}

// ---- changes

// The spelling of what is left, and nothing where a hidden part must be entered.
fn left(
    rt: &impl Abort,
    alloc: Global,
    digits: &str,
    author: u32,
    next: u32,
    change: Change,
) -> Result<String, Fail> {
    let list = list(alloc, digits)?;
    assert!(rt; keeps_author(&list, author, change));
    match apply(alloc, list, author, next, change) {
        Ok(list) => spelling(rt, alloc, &list),
        Err(DictEnd::Hid) => Ok(String::new(alloc)),
        Err(refused) => Err(refused.into()),
    }
}

// The spelling of a list that has one.
fn spelling(rt: &impl Abort, alloc: Global, list: &PrunedDict) -> Result<String, Fail> {
    assert!(rt; is_spelled(list));
    let bytes = write_dict(alloc, list)?;
    Ok(hex::encode(alloc, bytes.as_slice())?)
}

const CHANGES: [(&str, u32, u32, Change, &str); 10] = [
    (SEVEN, 26, 0, Change::None, ""),
    (HIDDEN, 4, 3, Change::Remove(7), ""),
    (TWO, 7, 4, Change::Remove(47), "0100000007010000000400"),
    (
        THREE,
        19,
        4,
        Change::Remove(10),
        "01000000020300000003020100000013020000000400",
    ),
    // Both searches meet nothing hidden, and the joining of the removed user's parts does.
    (
        "0100000006010000000003010000000a020000000203010000000403000000000300baeede044adb16a734338e\
         713856ac0694ed202b20a47ee4ba74e6cea8a97ce1010000000a010000000102005e854761f1b7b149eab3a76f\
         3c7edafc7e88dce8c43fc40c59bfb9ffa720a63a010000000a0200000002030100000009030000000002000d5f\
         63847e3d9bf215edb9d5a769a8fc9fa626f384243e7c7460efdddf517d12010000000402000000000100db8d2b\
         484bb7560832f99342c7efe7c7fc3bd61536f8042e2f52759e2581ac40010000000901000000000300a8393566\
         2cf4038d4e0a8b0222e9319112b8d680ce290e4cc020b3000e8f07ba01000000050100000002010100000002010\
         000000200",
        9,
        2,
        Change::Remove(6),
        "",
    ),
    (
        "010000001c030000000102009bd468a79e5f07db3d7aaf711a79a3b35394af22c5364b4a1ad89c49d8e7a04e",
        34,
        2,
        Change::None,
        "",
    ),
    (
        "01000000380300000002010100000004010000000100",
        4,
        0,
        Change::None,
        "01000000380300000002010100000004010000000000",
    ),
    (
        "01000000020100000002020100000032010000000301010000000e020000000100",
        2,
        4,
        Change::Insert(Entry {
            user: 44,
            role: 1,
            next: 0,
        }),
        "01000000020100000004020100000032010000000301010000000e020000000102010000002c010000000000",
    ),
    (
        "0100000010010000000102010000002c010000000100",
        16,
        4,
        Change::Insert(Entry {
            user: 49,
            role: 1,
            next: 0,
        }),
        "01000000100100000004020100000031010000000001010000002c010000000100",
    ),
    (
        "010000002f03000000030301000000140100000000030100000008030000000302010000000f030000000300\
         010000002d02000000000001000000330300000002010100000032010000000000",
        20,
        2,
        Change::Insert(Entry {
            user: 19,
            role: 2,
            next: 0,
        }),
        "010000002f030000000303010000001401000000020301000000130200000000010100000008030000000302\
         010000000f030000000300010000002d02000000000001000000330300000002010100000032010000000000",
    ),
];

#[test]
fn changes_leave_what_an_independent_program_says(rt: HostRuntime) -> Result<(), Fail> {
    for (digits, author, next, change, want) in &CHANGES {
        let found = left(&rt, rt.alloc(), digits, *author, *next, *change)?;
        assert_eq!(rt; found.as_str(), *want);
    }
    Ok(())
}

// ---- digests

// The digests of the owner 1 with the writers 2, 3 and 4, and then without 3, from the same program.
const FOUR: &str = "a7248e92e5f392603611d223de2bc53fe4d54077013043b5b9693449eebf46bb";

const WITHOUT_THREE: &str = "cb3017ee93ceb453e2be835d19ced9a0dd25b1bb9d3100a7faa41363e8657605";

// A list, changed by user 1, whose next number stays 0.
fn changed(
    rt: &impl Abort,
    alloc: Global,
    list: PrunedDict,
    change: Change,
) -> Result<PrunedDict, DictEnd> {
    assert!(rt; keeps_author(&list, 1, change));
    apply(alloc, list, 1, 0, change)
}

// The owner 1 with the writers 2, 3 and 4, who were admitted one after the other.
fn four(rt: &impl Abort, alloc: Global) -> Result<PrunedDict, DictEnd> {
    let mut list = PrunedDict::Node {
        entry: entry(1, 3, 0),
        left: None,
        right: None,
    };
    for user in [2, 3, 4] {
        list = changed(rt, alloc, list, Change::Insert(entry(user, 2, 0)))?;
    }
    Ok(list)
}

#[test]
fn the_digest_is_that_of_the_set(rt: HostRuntime) -> Result<(), Fail> {
    let list = four(&rt, rt.alloc())?;
    assert_eq!(rt;
        hex::encode(rt.alloc(), digest::<Sha>(&list))?.as_str(),
        FOUR
    );
    let list = changed(&rt, rt.alloc(), list, Change::Remove(3))?;
    assert_eq!(rt;
        hex::encode(rt.alloc(), digest::<Sha>(&list))?.as_str(),
        WITHOUT_THREE
    );
    Ok(())
}

#[test]
fn hidden_parts_have_the_digests_that_they_tell(rt: HostRuntime) -> Result<(), Fail> {
    let rows = [
        (
            SEVEN,
            "95a0e6c3cbea914864aa98cbd42be06fe5ff477f235ad0da6bd5a07090a6f4a5",
        ),
        (
            HIDDEN,
            "4fcf3dd544ed7371831d6a26f0c21e3bd60e090b937263bfae9746496b8237f6",
        ),
        (
            TWO,
            "9c1817abe5ee07f631a8ab48ce12a5ccf11bce399a607e62aeabb1bbd864d8d1",
        ),
        (
            THREE,
            "458a09f7984a89cc1fd70df3f82824bc76a769afa253f13b5eb82341d30a68ce",
        ),
    ];
    for (digits, want) in rows {
        let list = list(rt.alloc(), digits)?;
        assert_eq!(rt;
            hex::encode(rt.alloc(), digest::<Sha>(&list))?.as_str(),
            want
        );
    }
    Ok(())
}

// ---- spellings

// Whether the bytes spell a list, which is then spelled so: an error where they can't be read for another reason.
fn is_spelling(rt: &impl Abort, alloc: Global, digits: &str) -> Result<bool, Fail> {
    let bytes = hex::decode(alloc, digits)?;
    match read_dict(alloc, &bytes) {
        Ok(list) => Ok(spelling(rt, alloc, &list)?.as_str() == digits),
        Err(ReadRefusal::NotForm) => Ok(false),
        Err(refused) => Err(refused.into()),
    }
}

#[test]
fn lists_of_the_form_alone_are_read(rt: HostRuntime) -> Result<(), Fail> {
    let rows = [
        (SEVEN, true),
        (HIDDEN, true),
        ("0100020020030000000000", true),
        ("", false),
        ("00", false),
        ("01", false),
        ("02", false),
        ("0100000005000000000000", false),
        ("0100000005040000000000", false),
        ("0100000005010000000004", false),
        ("0100000005010000000080", false),
        ("01000000332100000001010100000028030000000100", false),
        ("0100000030020000000100a3fa", false),
        ("010000", false),
    ];
    for (digits, is_one) in rows {
        assert_eq!(rt; is_spelling(&rt, rt.alloc(), digits)?, is_one);
    }
    Ok(())
}

// So many entries, each left of the one before, over a hidden part or nothing.
fn levels(alloc: Global, entries: usize, is_hidden: bool) -> Result<String, AllocError> {
    let mut digits = String::new(alloc);
    for i in 0..entries {
        let is_last = i + 1 == entries && !is_hidden;
        digits.push_str("01000000050100000000")?;
        digits.push_str(if is_last { "00" } else { "01" })?;
    }
    if is_hidden {
        digits.push_str(HIDDEN)?;
    }
    Ok(digits)
}

#[test]
fn a_41st_level_is_no_spelling(rt: HostRuntime) -> Result<(), Fail> {
    for (entries, is_hidden, is_one) in [
        (40, false, true),
        (39, true, true),
        (41, false, false),
        (40, true, false),
        (1000, true, false),
    ] {
        let digits = levels(rt.alloc(), entries, is_hidden)?;
        assert_eq!(rt; is_spelling(&rt, rt.alloc(), digits.as_str())?, is_one);
    }
    Ok(())
}

#[test]
fn laws_are_called() {
    laws::one_spelling();
    laws::some_entry();
    laws::prunings::<Sha>();
    laws::prunings::<Short>();
}
