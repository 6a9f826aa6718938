use crate::{laws, node_digest};
use fr_bytes::NoMemory;
use fr_digest::{Digester, Sha, Short};
use std::alloc::Global;
use std::test::Fail;
use tree_model::Entry;

// The entry of a user whose next number is 0.
fn entry(user: u32, role: u8) -> Entry {
    Entry {
        user,
        role,
        next: 0,
    }
}

// The digest of the list of the owner 1 with the writers 2 and 4, by its treap: 2 is on top.
fn three<D: Digester>(alloc: Global) -> Result<String, NoMemory> {
    let left = node_digest::<D>(&entry(1, 3), None, None);
    let right = node_digest::<D>(&entry(4, 2), None, None);
    let text = hex::encode(
        alloc,
        node_digest::<D>(&entry(2, 2), Some(left), Some(right)),
    )?;
    Ok(text)
}

// The same of the owner 1 with the reader 2, whose next numbers are 1 and 2: 2 is on top.
fn two<D: Digester>(alloc: Global) -> Result<String, NoMemory> {
    let owner = Entry {
        next: 1,
        ..entry(1, 3)
    };
    let reader = Entry {
        next: 2,
        ..entry(2, 1)
    };
    let left = node_digest::<D>(&owner, None, None);
    let text = hex::encode(alloc, node_digest::<D>(&reader, Some(left), None))?;
    Ok(text)
}

// The digests of both lists, from an independent program.
const THREE: &str = "cb3017ee93ceb453e2be835d19ced9a0dd25b1bb9d3100a7faa41363e8657605";

const TWO: &str = "acb466b6575b983f559bee6ade055019f4f431783d807a9992c115e0f003757c";

#[test]
fn digests_of_nodes_are_those_of_an_independent_program(rt: HostRuntime) -> Result<(), Fail> {
    assert_eq!(rt; three::<Sha>(rt.alloc())?.as_str(), THREE);
    assert_eq!(rt; two::<Sha>(rt.alloc())?.as_str(), TWO);
    assert!(rt; three::<Short>(rt.alloc())?.as_str().starts_with("12"));
    Ok(())
}

#[test]
fn laws_hold_at_sha_256() {
    laws::prunings::<Sha>();
    laws::operations::<Sha>();
    laws::steps::<Sha>();
    laws::wholes::<Sha>();
    laws::keeping::<Sha>();
    laws::sizes::<Sha>();
}

#[test]
fn laws_hold_at_the_short_digest() {
    laws::prunings::<Short>();
    laws::operations::<Short>();
    laws::steps::<Short>();
    laws::wholes::<Short>();
    laws::keeping::<Short>();
    laws::sizes::<Short>();
}
