use crate::{depth_of, laws, left_leaves, root_at};
use fr_bytes::{Bytes, Texts};
use fr_digest::{Digester, Sha, Short};
use std::alloc::{AllocError, Global};
use std::test::Fail;

// The roots of the versions 1 to 5 of the texts "a" to "e", from an independent program.
const FIVE_ROOTS: [&str; 5] = [
    "022a6979e6dab7aa5ae4c3e5e45f7e977112a7e63593820dbec1ec738a24f93c",
    "b137985ff484fb600db93107c77b0365c80d78f5b429ded0fd97361d077999eb",
    "b138e9b8f068615486eb34899e678203084fdbcedf128aa9793f745d346e2594",
    "33376a3bd63e9993708a84ddfe6c28ae58b83505dd1fed711bd924ec5a6239f0",
    "5addd685bca30b91467dbbbc36a6802db92e27997350d57cda1b80c45e47be22",
];

// The SHA-256 of the 40 roots of the texts "t0" to "t39", one after the other, from the same program.
const FORTY_ROOTS: &str = "0a8d2b6231538209cb6259114d6c4d473f3135b365000640c88d2ae048f6925a";

// The first bytes of the roots of both lists over the short digest.
const FIVE_SHORT_ROOTS: &str = "0201e598e0";

const FORTY_SHORT_ROOTS: &str =
    "933fc4f68f143e2e47ea074cfd976090c1bb2f5db80138761de485e4c4c0a1d675534b401f959058";

fn letters(alloc: Global) -> Result<Texts, AllocError> {
    let mut texts = Vec::new(alloc);
    for letter in b"abcde" {
        texts.push(Bytes::of([*letter].to_vec(alloc)?))?;
    }
    Ok(Texts::of(texts))
}

fn numbered(alloc: Global, count: u32) -> Result<Texts, AllocError> {
    let mut texts = Vec::new(alloc);
    for i in 0..count {
        texts.push(Bytes::of(format!(in alloc; "t{i}")?.into_bytes()))?;
    }
    Ok(Texts::of(texts))
}

// The first bytes of the roots of all versions of the texts, `count` bytes of each, one after the other.
fn roots<D: Digester>(alloc: Global, texts: &Texts, count: usize) -> Result<Vec<u8>, AllocError> {
    let mut all = Vec::new(alloc);
    for i in 0..texts.len() {
        let root = root_at::<D>(texts, i as u64 + 1);
        all.extend_from_slice(&root[..count.min(32)])?;
    }
    Ok(all)
}

#[test]
fn roots_are_those_of_an_independent_program(rt: HostRuntime) -> Result<(), Fail> {
    let roots = roots::<Sha>(rt.alloc(), &letters(rt.alloc())?, 32)?;
    for (i, want) in FIVE_ROOTS.iter().enumerate() {
        let root = roots.get(32 * i..32 * i + 32).ok_or("a root")?;
        assert_eq!(rt; hex::encode(rt.alloc(), root)?.as_str(), *want);
    }
    Ok(())
}

#[test]
fn roots_of_forty_texts_are_those_of_an_independent_program(rt: HostRuntime) -> Result<(), Fail> {
    let roots = roots::<Sha>(rt.alloc(), &numbered(rt.alloc(), 40)?, 32)?;
    let digest = hex::encode(rt.alloc(), Sha::digest(&roots))?;
    assert_eq!(rt; digest.as_str(), FORTY_ROOTS);
    Ok(())
}

#[test]
fn short_roots_are_those_of_an_independent_program(rt: HostRuntime) -> Result<(), Fail> {
    let lists = [
        (letters(rt.alloc())?, FIVE_SHORT_ROOTS),
        (numbered(rt.alloc(), 40)?, FORTY_SHORT_ROOTS),
    ];
    for (texts, want) in &lists {
        let firsts = roots::<Short>(rt.alloc(), texts, 1)?;
        assert_eq!(rt; hex::encode(rt.alloc(), firsts)?.as_str(), *want);
    }
    Ok(())
}

#[test]
fn heights_are_the_least_that_are_enough(rt: HostRuntime) {
    for (n, depth) in [
        (1, 0),
        (2, 1),
        (3, 2),
        (4, 2),
        (5, 3),
        (8, 3),
        (9, 4),
        (u64::MAX, 64),
    ] {
        assert_eq!(rt; depth_of(n), depth);
    }
    assert_eq!(rt; left_leaves(1), 1);
    assert_eq!(rt; left_leaves(64), 1 << 63);
}

#[test]
fn laws_hold_at_both_digests() {
    laws::history::nodes::<Sha>();
    laws::history::versions::<Sha>();
    laws::history::nodes::<Short>();
    laws::history::versions::<Short>();
    laws::history::heights();
}
