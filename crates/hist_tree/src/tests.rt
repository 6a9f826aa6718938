use crate::{Hist, laws};
use fr_bytes::{Bytes, NoMemory, Texts};
use fr_digest::{Dig, Digester, Sha, Short};
use std::alloc::{AllocError, Global};
use std::process::Abort;
use std::test::Fail;
use tree_model::{HasText, depth_of, left_leaves, root_at, root_of};

/// An item that is its text.
#[derive(Drop)]
struct Line {
    text: Bytes,
}

impl HasText for Line {
    ghost text_of = { λ line. line.text };

    fn text(&self) -> &[u8] {
        self.text.as_slice()
    }
}

// The roots of the versions 1 to 5 of the texts "a" to "e", from an independent program.
const FIVE_ROOTS: [&str; 5] = [
    "022a6979e6dab7aa5ae4c3e5e45f7e977112a7e63593820dbec1ec738a24f93c",
    "b137985ff484fb600db93107c77b0365c80d78f5b429ded0fd97361d077999eb",
    "b138e9b8f068615486eb34899e678203084fdbcedf128aa9793f745d346e2594",
    "33376a3bd63e9993708a84ddfe6c28ae58b83505dd1fed711bd924ec5a6239f0",
    "5addd685bca30b91467dbbbc36a6802db92e27997350d57cda1b80c45e47be22",
];

// Versions, heights and positions of nodes of the same tree, and their digests: of the leaf "d", of "c" as it stands
// alone in its node, and of "a" and "b".
const FIVE_PARTS: [(u64, u32, u64, &str); 3] = [
    (
        5,
        0,
        3,
        "d070dc5b8da9aea7dc0f5ad4c29d89965200059c9a0ceca3abd5da2492dcb71d",
    ),
    (
        3,
        1,
        2,
        "eb98771765026ed7ea5fa0694f1de24f0e98117ea5295696ddcf18cc204be304",
    ),
    (
        5,
        1,
        0,
        "b137985ff484fb600db93107c77b0365c80d78f5b429ded0fd97361d077999eb",
    ),
];

// Numbers of items around whole chunks.
const SIZES: [u64; 6] = [31, 32, 33, 64, 65, 100];

fn letters(alloc: Global) -> Result<Texts, AllocError> {
    let mut texts = Vec::new(alloc);
    for letter in b"abcde" {
        texts.push(Bytes::of([*letter].to_vec(alloc)?))?;
    }
    Ok(Texts::of(texts))
}

fn numbered(alloc: Global, count: u64) -> Result<Texts, AllocError> {
    let mut texts = Vec::new(alloc);
    for i in 0..count {
        texts.push(Bytes::of(format!(in alloc; "t{i}")?.into_bytes()))?;
    }
    Ok(Texts::of(texts))
}

// The history of the texts.
fn history<D: Digester>(alloc: Global, texts: &Texts) -> Result<Hist<D, Line>, NoMemory> {
    let mut hist = Hist::empty(alloc);
    for text in texts.as_slice() {
        hist = hist.append(Line { text: text.copy()? })?;
    }
    Ok(hist)
}

fn root<D: Digester>(rt: &impl Abort, hist: &Hist<D, Line>, v: u64) -> Dig {
    assert!(rt; 0 < v && v <= hist.size());
    hist.root_at(v)
}

fn part<D: Digester>(
    rt: &impl Abort,
    hist: &Hist<D, Line>,
    size: u64,
    level: u32,
    start: u64,
) -> Dig {
    assert!(rt; start < size && size <= hist.size());
    assert!(rt; level < 64 && level <= depth_of(size));
    assert!(rt; start % left_leaves(level + 1) as u64 == 0);
    hist.part(size, level, start)
}

// ---- the same by the plain program

fn plain_root<D: Digester>(rt: &impl Abort, texts: &Texts, v: u64) -> Dig {
    assert!(rt; 0 < v && v <= texts.len() as u64);
    root_at::<D>(texts, v)
}

// A node over fewer positions than it has places for is the root of their tree, below nodes without a right half.
fn plain_part<D: Digester>(rt: &impl Abort, texts: &[Bytes], level: u32) -> Dig {
    assert!(rt; texts.len() > 0);
    let mut digest = root_of::<D>(texts);
    for _ in depth_of(texts.len() as u64)..level {
        digest = D::tagged(1, &[], &digest);
    }
    digest
}

// The first version whose root isn't the plain program's.
fn other_root<D: Digester>(rt: &impl Abort, hist: &Hist<D, Line>, texts: &Texts) -> Option<u64> {
    (1..=hist.size()).find(|v| root(rt, hist, *v) != plain_root::<D>(rt, texts, *v))
}

fn is_other_part<D: Digester>(
    rt: &impl Abort,
    hist: &Hist<D, Line>,
    texts: &Texts,
    size: u64,
    level: u32,
    start: u64,
) -> bool {
    assert!(rt; level < 8 && start < size && size <= texts.len() as u64);
    let end = start + (size - start).min(1 << level);
    let plain = plain_part::<D>(rt, &texts.as_slice()[start as usize..end as usize], level);
    part(rt, hist, size, level, start) != plain
}

// The first node of a version, by its height and position, whose digest isn't the plain program's.
fn other_part<D: Digester>(
    rt: &impl Abort,
    hist: &Hist<D, Line>,
    texts: &Texts,
    size: u64,
) -> Option<(u32, u64)> {
    assert!(rt; 0 < size && size <= 100);
    for level in 0..=depth_of(size) {
        for start in 0..size {
            let aligned = level < 8 && start % (1 << level) == 0;
            if aligned && is_other_part(rt, hist, texts, size, level, start) {
                return Some((level, start));
            }
        }
    }
    None
}

// ---- tests

#[test]
fn roots_are_those_of_an_independent_program(rt: HostRuntime) -> Result<(), Fail> {
    let hist = history::<Sha>(rt.alloc(), &letters(rt.alloc())?)?;
    for (i, want) in FIVE_ROOTS.iter().enumerate() {
        let root = root(&rt, &hist, i as u64 + 1);
        assert_eq!(rt; hex::encode(rt.alloc(), root)?.as_str(), *want);
    }
    Ok(())
}

#[test]
fn nodes_have_their_digests(rt: HostRuntime) -> Result<(), Fail> {
    let hist = history::<Sha>(rt.alloc(), &letters(rt.alloc())?)?;
    for (size, level, start, want) in FIVE_PARTS {
        let digest = part(&rt, &hist, size, level, start);
        assert_eq!(rt; hex::encode(rt.alloc(), digest)?.as_str(), want);
    }
    Ok(())
}

#[test]
fn every_version_has_the_root_of_the_plain_program(rt: HostRuntime) -> Result<(), Fail> {
    for size in SIZES {
        let texts = numbered(rt.alloc(), size)?;
        let hist = history::<Sha>(rt.alloc(), &texts)?;
        assert_eq!(rt; other_root(&rt, &hist, &texts), None);
    }
    Ok(())
}

#[test]
fn every_node_has_the_digest_of_the_plain_program(rt: HostRuntime) -> Result<(), Fail> {
    let texts = numbered(rt.alloc(), 100)?;
    let hist = history::<Sha>(rt.alloc(), &texts)?;
    for size in SIZES {
        assert_eq!(rt; other_part(&rt, &hist, &texts, size), None);
    }
    Ok(())
}

// Whether the older history, and all that it gives, is as before.
fn is_as_before<D: Digester>(rt: &impl Abort, old: &Hist<D, Line>, texts: &Texts) -> bool {
    old.size() == texts.len() as u64 && other_root(rt, old, texts).is_none()
}

#[test]
fn a_shared_history_stays_while_the_other_grows(rt: HostRuntime) -> Result<(), Fail> {
    let texts = numbered(rt.alloc(), 40)?;
    let mut hist = history::<Short>(rt.alloc(), &texts)?;
    let old = hist.share()?;
    for text in texts.as_slice() {
        hist = hist.append(Line { text: text.copy()? })?;
    }
    assert!(rt; is_as_before(&rt, &old, &texts));
    Ok(())
}

// The position of the first item that has another text.
fn other_item<D: Digester>(rt: &impl Abort, hist: &Hist<D, Line>, texts: &Texts) -> Option<u64> {
    assert!(rt; hist.size() == texts.len() as u64);
    for k in 0..hist.size() {
        if hist.item(k).text() != texts.as_slice()[k as usize].as_slice() {
            return Some(k);
        }
    }
    None
}

#[test]
fn items_stand_at_their_positions(rt: HostRuntime) -> Result<(), Fail> {
    for size in [0, 1, 31, 32, 33, 100] {
        let texts = numbered(rt.alloc(), size)?;
        let hist = history::<Sha>(rt.alloc(), &texts)?;
        assert_eq!(rt; other_item(&rt, &hist, &texts), None);
    }
    Ok(())
}

#[test]
fn laws_hold_at_both_digests() {
    laws::versions::<Sha, Line>();
    laws::nodes::<Sha>();
    laws::versions::<Short, Line>();
    laws::nodes::<Short>();
}
