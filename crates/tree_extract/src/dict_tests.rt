ghost use Rattle.std.specs.Prelude.{◌<◌, length};
ghost use Rattle.tree_model.specs.AccessList.{IsRising};

use crate::dict_clash;
use dict_proof::{PrunedDict, digest, read_dict};
use fr_bytes::NoMemory;
use fr_digest::{Clash, Digester, Sha, Short};
use std::alloc::Global;
use std::process::Abort;
use std::test::Fail;
use tree_model::{Entry, dict_digest};

// The owner 1 with the writers 2 and 4, and the spelling of the whole list.
const THREE: [Entry; 3] = [
    Entry {
        user: 1,
        role: 3,
        next: 0,
    },
    Entry {
        user: 2,
        role: 2,
        next: 0,
    },
    Entry {
        user: 4,
        role: 2,
        next: 0,
    },
];

const THREE_TEXT: &[u8] =
    b"\x01\0\0\0\x02\x02\0\0\0\0\x03\x01\0\0\0\x01\x03\0\0\0\0\0\x01\0\0\0\x04\x02\0\0\0\0\0";

// The owner alone, and the spelling of the owner with the least next number whose string has the same short digest.
const ONE: [Entry; 1] = [Entry {
    user: 1,
    role: 3,
    next: 0,
}];

const LIKE_ONE_TEXT: &[u8] = b"\x01\0\0\0\x01\x03\0\0\0\x32\0";

fn list(alloc: Global, text: &[u8]) -> Result<PrunedDict, Fail> {
    match read_dict(alloc, text) {
        Ok(list) => Ok(list),
        Err(refused) => Err(refused.into()),
    }
}

fn clash<D: Digester>(
    rt: &impl Abort,
    alloc: Global,
    list: &PrunedDict,
    entries: &[Entry],
) -> Result<Option<Clash<D>>, NoMemory>
    requires some { 0 < length entries.now }
    requires rising { IsRising entries.now }
{
    assert!(rt; digest::<D>(list) == dict_digest::<D>(entries));
    dict_clash::<D>(alloc, list, entries)
}

#[test]
fn a_pruning_has_no_clash(rt: HostRuntime) -> Result<(), Fail> {
    let list = list(rt.alloc(), THREE_TEXT)?;
    assert!(rt; clash::<Sha>(&rt, rt.alloc(), &list, &THREE)?.is_none());
    assert!(rt; clash::<Short>(&rt, rt.alloc(), &list, &THREE)?.is_none());
    Ok(())
}

#[test]
fn strings_of_other_entries_clash(rt: HostRuntime) -> Result<(), Fail> {
    let list = list(rt.alloc(), LIKE_ONE_TEXT)?;
    let clash = clash::<Short>(&rt, rt.alloc(), &list, &ONE)?.ok_or("a clash")?;
    assert!(rt; clash.a() == b"\x02\0\0\0\x01\x03\0\0\0\x32\0".as_slice());
    assert!(rt; clash.b() == b"\x02\0\0\0\x01\x03\0\0\0\0\0".as_slice());
    Ok(())
}
