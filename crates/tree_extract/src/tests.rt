use crate::{hist_clash, list_clash};
use fr_bytes::{Bytes, NoMemory, Texts};
use fr_digest::{Clash, Digester, Sha, Short};
use hist_proof::{DigestedTree, Pruned, read_pruned};
use std::alloc::{AllocError, Global};
use std::process::Abort;
use std::test::Fail;
use tree_model::root_at;

// The least four-byte counter whose leaf has the short digest of the leaf "a".
const LIKE_A: &[u8] = b"\0\0\0\x23";

fn texts(alloc: Global, items: &[&[u8]]) -> Result<Texts, AllocError> {
    let mut texts = Vec::new(alloc);
    for item in items {
        texts.push(Bytes::of(item.to_vec(alloc)?))?;
    }
    Ok(Texts::of(texts))
}

// A leaf's tag and text, or a node's tag and the first bytes of its short digests.
type Wanted = (u8, &'static [u8]);

fn string_of(alloc: Global, wanted: &Wanted) -> Result<Vec<u8>, AllocError> {
    let (tag, parts) = *wanted;
    let mut string = [tag].to_vec(alloc)?;
    for byte in parts {
        string.push(*byte)?;
        if tag == 1 {
            string.extend_from_slice(&[0; 31])?;
        }
    }
    Ok(string)
}

fn clash_between<D: Digester>(
    rt: &impl Abort,
    alloc: Global,
    a: &Texts,
    b: &Texts,
) -> Result<Option<Clash<D>>, NoMemory> {
    assert!(rt; a.len() > 0);
    assert!(rt; a.len() == b.len());
    assert!(rt; root_at::<D>(a, a.len() as u64) == root_at::<D>(b, b.len() as u64));
    list_clash::<D>(alloc, a, b)
}

// Whether two lists of these texts have no clash.
fn are_equal<D: Digester>(rt: &impl Abort, alloc: Global, all: &[&[u8]]) -> Result<bool, NoMemory> {
    let a = texts(alloc, all)?;
    let b = texts(alloc, all)?;
    let clash = clash_between::<D>(rt, alloc, &a, &b)?;
    Ok(clash.is_none())
}

#[test]
fn equal_lists_have_no_clash(rt: HostRuntime) -> Result<(), Fail> {
    let all = [b"a".as_slice(), b"", b"c", b"d", b"e"];
    for size in 1..6 {
        assert!(rt; are_equal::<Sha>(&rt, rt.alloc(), &all[..size])?);
        assert!(rt; are_equal::<Short>(&rt, rt.alloc(), &all[..size])?);
    }
    Ok(())
}

// Both lists.
fn lists(alloc: Global, a: &[&[u8]], b: &[&[u8]]) -> Result<(Texts, Texts), AllocError> {
    let a = texts(alloc, a)?;
    Ok((a, texts(alloc, b)?))
}

// The clash of two lists over short digests.
fn shown(rt: &impl Abort, alloc: Global, a: &[&[u8]], b: &[&[u8]]) -> Result<Clash<Short>, Fail> {
    let (a, b) = lists(alloc, a, b)?;
    match clash_between::<Short>(rt, alloc, &a, &b)? {
        Some(clash) => Ok(clash),
        None => Err("no clash".into()),
    }
}

// Whether its strings are these.
fn has_strings(
    alloc: Global,
    clash: &Clash<Short>,
    a: &Wanted,
    b: &Wanted,
) -> Result<bool, AllocError> {
    let a = string_of(alloc, a)?;
    Ok(clash.a() == a.as_slice() && clash.b() == string_of(alloc, b)?.as_slice())
}

type Row = (
    &'static [&'static [u8]],
    &'static [&'static [u8]],
    Wanted,
    Wanted,
);

const CLASHES: [Row; 7] = [
    // Leaves.
    (&[b"a"], &[LIKE_A], (0, b"a"), (0, LIKE_A)),
    (&[LIKE_A], &[b"a"], (0, LIKE_A), (0, b"a")),
    // Two leaves clash: the one on the left comes first.
    (
        &[b"a", b"b", b"c", b"d"],
        &[b"a", b"ly", b"c", b"mw"],
        (0, b"b"),
        (0, b"ly"),
    ),
    // A leaf below two nodes without a right half.
    (
        &[b"a", b"b", b"c", b"d", b"e"],
        &[b"a", b"b", b"c", b"d", b"fj"],
        (0, b"e"),
        (0, b"fj"),
    ),
    // A node with both halves, of leaves of other digests.
    (
        &[b"a", b"b"],
        &[b"ab", b"ej"],
        (1, b"\x02\x57"),
        (1, b"\x0b\x5f"),
    ),
    // A node without a right half.
    (
        &[b"a", b"b", b"c"],
        &[b"a", b"b", b"hz"],
        (1, b"\x59"),
        (1, b"\xba"),
    ),
    // A node comes before the leaf below it, which clashes too.
    (
        &[b"a", b"a", b"c", b"d"],
        &[LIKE_A, b"ag", b"c", b"d"],
        (1, b"\x02\x02"),
        (1, b"\x02\x2c"),
    ),
];

#[test]
fn the_first_clash_in_pre_order_is_shown(rt: HostRuntime) -> Result<(), Fail> {
    for (a, b, want_a, want_b) in &CLASHES {
        let clash = shown(&rt, rt.alloc(), a, b)?;
        assert!(rt; has_strings(rt.alloc(), &clash, want_a, want_b)?);
    }
    Ok(())
}

// The pruned tree of the texts "a" to "e" that shows the fourth and the fifth, spelled by an independent program.
const FIVE: &str = "020200b137985ff484fb600db93107c77b0365c80d78f5b429ded0fd97361d077999eb\
    0200597fcb31282d34654c200d3418fca5705c648ebf326ec73d8ddef11841f876d80100000001640303010000000165";

fn tree(alloc: Global, digits: &str) -> Result<Pruned, Fail> {
    let bytes = hex::decode(alloc, digits)?;
    match read_pruned(alloc, &bytes) {
        Ok(tree) => Ok(tree),
        Err(refused) => Err(refused.into()),
    }
}

fn clash_with<D: Digester>(
    rt: &impl Abort,
    alloc: Global,
    digits: &str,
    texts: &Texts,
) -> Result<Option<Clash<D>>, Fail> {
    let size = texts.len() as u64;
    assert!(rt; size > 0);
    let kept = DigestedTree::<D>::new(alloc, tree(alloc, digits)?, size)?.ok_or(
        "a tree of this size",
    )?;
    assert!(rt; kept.size() == size && kept.digest() == root_at::<D>(texts, size));
    Ok(hist_clash::<D>(alloc, kept.tree(), size, texts)?)
}

#[test]
fn what_prunes_has_no_clash(rt: HostRuntime) -> Result<(), Fail> {
    let all = texts(rt.alloc(), &[b"a".as_slice(), b"b", b"c", b"d", b"e"])?;
    let clash = clash_with::<Sha>(&rt, rt.alloc(), FIVE, &all)?;
    assert!(rt; clash.is_none());
    Ok(())
}

// Pruned trees that have, under the short digest, the root of the texts "t0", "t1" and so on, of which there are so many,
// and the pair that an independent program finds, or nothing.
const PRUNED_CLASHES: [(&str, u32, &str, &str); 4] = [
    (
        "020100000005322033343401000000027431",
        2,
        "003220333434",
        "007430",
    ),
    (
        "020201000000027430010000000631332031313402010000000631332035303001000000027433",
        4,
        "00313320313134",
        "007431",
    ),
    (
        "0201000000027430006b00000000000000000000000000000000000000000000000000000000000000",
        2,
        "",
        "",
    ),
    (
        "009300000000000000000000000000000000000000000000000000000000000000",
        1,
        "",
        "",
    ),
];

fn numbered(alloc: Global, count: u32) -> Result<Texts, AllocError> {
    let mut texts = Vec::new(alloc);
    for i in 0..count {
        texts.push(Bytes::of(format!(in alloc; "t{i}")?.into_bytes()))?;
    }
    Ok(Texts::of(texts))
}

// Both strings as hexadecimal text, and nothing where there are none.
fn pair<D: Digester>(
    alloc: Global,
    clash: Option<Clash<D>>,
) -> Result<(String, String), AllocError> {
    match clash {
        None => Ok((String::new(alloc), String::new(alloc))),
        Some(clash) => Ok((
            hex::encode(alloc, clash.a())?,
            hex::encode(alloc, clash.b())?,
        )),
    }
}

#[test]
fn the_first_clash_of_a_pruned_tree_is_found(rt: HostRuntime) -> Result<(), Fail> {
    for (digits, count, a, b) in PRUNED_CLASHES {
        let all = numbered(rt.alloc(), count)?;
        let clash = clash_with::<Short>(&rt, rt.alloc(), digits, &all)?;
        let (first, second) = pair(rt.alloc(), clash)?;
        assert!(rt; first.as_str() == a && second.as_str() == b);
    }
    Ok(())
}
