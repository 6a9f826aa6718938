ghost use Rattle.hist_proof.specs.Spelling.{IsSpelled};
ghost use Rattle.hist_proof.specs.View.{tree_view};
ghost use Rattle.std.specs.Prelude.{IfOk, IfSome};

use crate::{DigestedTree, Pruned, cut, digest_at, fits, laws, leaf_at, read_pruned, write_pruned};
use fr_bytes::ReadRefusal;
use fr_digest::{Dig, Digester, Sha, Short};
use std::alloc::{AllocError, Global};
use std::test::Fail;

// The tree of the texts "a" to "e" of which the fourth and the fifth are shown and the third is hidden by itself,
// spelled by an independent program, and the roots of the versions that it gives.
const FIVE: &str = "020200b137985ff484fb600db93107c77b0365c80d78f5b429ded0fd97361d077999eb\
    0200597fcb31282d34654c200d3418fca5705c648ebf326ec73d8ddef11841f876d80100000001640303010000000165";

const TWO_ROOT: &str = "b137985ff484fb600db93107c77b0365c80d78f5b429ded0fd97361d077999eb";

const THREE_ROOT: &str = "b138e9b8f068615486eb34899e678203084fdbcedf128aa9793f745d346e2594";

const FOUR_ROOT: &str = "33376a3bd63e9993708a84ddfe6c28ae58b83505dd1fed711bd924ec5a6239f0";

const FIVE_ROOT: &str = "5addd685bca30b91467dbbbc36a6802db92e27997350d57cda1b80c45e47be22";

// What is cut of it at the versions 2, 3 and 4.
const TWO: &str = "00b137985ff484fb600db93107c77b0365c80d78f5b429ded0fd97361d077999eb";

const THREE: &str = "0200b137985ff484fb600db93107c77b0365c80d78f5b429ded0fd97361d077999eb\
    0300597fcb31282d34654c200d3418fca5705c648ebf326ec73d8ddef11841f876d8";

const FOUR: &str = "0200b137985ff484fb600db93107c77b0365c80d78f5b429ded0fd97361d077999eb\
    0200597fcb31282d34654c200d3418fca5705c648ebf326ec73d8ddef11841f876d8010000000164";

// Sizes and versions of that tree, the roots of the versions, and what is cut: empty where there is none.
const VERSIONS: [(u64, u64, &str, &str); 12] = [
    (5, 0, "", ""),
    (5, 1, "", ""),
    (5, 2, TWO_ROOT, TWO),
    (5, 3, THREE_ROOT, THREE),
    (5, 4, FOUR_ROOT, FOUR),
    (5, 5, FIVE_ROOT, FIVE),
    (5, 6, "", ""),
    (4, 3, "", ""),
    (6, 3, "", ""),
    (0, 0, "", ""),
    (u64::MAX, 3, "", ""),
    (u64::MAX, u64::MAX, "", ""),
];

fn tree(alloc: Global, digits: &str) -> Result<Pruned, Fail>
    ensures { IfOk result (λ p. IsSpelled (tree_view p)) }
{
    let bytes = hex::decode(alloc, digits)?;
    match read_pruned(alloc, &bytes) {
        Ok(tree) => Ok(tree),
        Err(refused) => Err(refused.into()),
    }
}

// A digest as hexadecimal text, and nothing where there is none.
fn digits(alloc: Global, digest: Option<Dig>) -> Result<String, Fail> {
    match digest {
        None => Ok(String::new(alloc)),
        Some(digest) => Ok(hex::encode(alloc, &digest)?),
    }
}

#[test]
fn a_pruned_tree_gives_the_roots_of_its_versions(rt: HostRuntime) -> Result<(), Fail> {
    let five = tree(rt.alloc(), FIVE)?;
    for (size, v, root, _) in &VERSIONS {
        let found = digits(rt.alloc(), digest_at::<Sha>(&five, *size, *v))?;
        assert_eq!(rt; found.as_str(), *root);
    }
    Ok(())
}

// The root of a version, from the tree with its digests.
fn digested_root(alloc: Global, size: u64, v: u64) -> Result<String, Fail> {
    let five = tree(alloc, FIVE)?;
    match DigestedTree::<Sha>::new(alloc, five, size)? {
        None => Ok(String::new(alloc)),
        Some(tree) => digits(alloc, tree.digest_at(v)),
    }
}

#[test]
fn a_tree_with_its_digests_gives_the_same_roots(rt: HostRuntime) -> Result<(), Fail> {
    for (size, v, root, _) in &VERSIONS {
        let found = digested_root(rt.alloc(), *size, *v)?;
        assert_eq!(rt; found.as_str(), *root);
    }
    Ok(())
}

// The spelling of a tree as hexadecimal text, and nothing where there is none.
fn spelling(alloc: Global, p: Option<Pruned>) -> Result<String, Fail>
    requires { IfSome p (λ q. IsSpelled (tree_view q)) }
{
    match p {
        None => Ok(String::new(alloc)),
        Some(p) => {
            let bytes = write_pruned(alloc, &p)?;
            Ok(hex::encode(alloc, bytes.as_slice())?)
        }
    }
}

fn cut_of_five(alloc: Global, size: u64, v: u64) -> Result<String, Fail> {
    let five = tree(alloc, FIVE)?;
    let front = cut(alloc, &five, size, v)?;
    spelling(alloc, front)
}

#[test]
fn the_cut_of_a_version_is_its_tree(rt: HostRuntime) -> Result<(), Fail> {
    for (size, v, _, front) in &VERSIONS {
        let found = cut_of_five(rt.alloc(), *size, *v)?;
        assert_eq!(rt; found.as_str(), *front);
    }
    Ok(())
}

#[test]
fn the_shown_positions_have_their_texts(rt: HostRuntime) -> Result<(), Fail> {
    let five = tree(rt.alloc(), FIVE)?;
    let rows = [
        (5, 0, None),
        (5, 2, None),
        (5, 3, Some(b"d".as_slice())),
        (5, 4, Some(b"e".as_slice())),
        (5, 5, None),
        (6, 4, None),
        (u64::MAX, u64::MAX, None),
    ];
    for (size, k, text) in rows {
        assert!(rt; leaf_at(&five, size, k) == text);
    }
    Ok(())
}

#[test]
fn a_tree_with_its_digests_shows_the_same(rt: HostRuntime) -> Result<(), Fail> {
    let made = DigestedTree::<Short>::new(rt.alloc(), tree(rt.alloc(), FIVE)?, 5)?;
    let five = made.ok_or("a tree of five leaves")?;
    for k in [0, 1, 2, 3, 4, 5, u64::MAX] {
        assert!(rt; five.leaf_at(k) == leaf_at(five.tree(), five.size(), k));
    }
    Ok(())
}

// Ten levels of nodes without a right half above a hidden part, with more bytes in front and behind.
fn levels(alloc: Global, more: usize, behind: usize) -> Result<Vec<u8>, AllocError> {
    let mut bytes = Vec::new(alloc);
    for _ in 0..more {
        bytes.push(3)?;
    }
    bytes.extend_from_slice(&[3; 10])?;
    bytes.extend_from_slice(&[0; 33])?;
    for _ in 0..behind {
        bytes.push(0)?;
    }
    Ok(bytes)
}

// A leaf of this many bytes.
fn long_leaf(alloc: Global, length: u32) -> Result<Vec<u8>, AllocError> {
    let mut bytes = [1].to_vec(alloc)?;
    bytes.extend_from_slice(&length.to_be_bytes())?;
    for _ in 0..length {
        bytes.push(b'x')?;
    }
    Ok(bytes)
}

// Whether the bytes spell a tree: an error where they can't be read for another reason.
fn is_spelling(alloc: Global, bytes: &[u8]) -> Result<bool, Fail> {
    match read_pruned(alloc, bytes) {
        Ok(_) => Ok(true),
        Err(ReadRefusal::NotForm) => Ok(false),
        Err(refused) => Err(refused.into()),
    }
}

#[test]
fn an_eleventh_level_and_bytes_left_over_are_no_spelling(rt: HostRuntime) -> Result<(), Fail> {
    for (more, behind, is_one) in [(0, 0, true), (1, 0, false), (0, 1, false), (1000, 0, false)] {
        let bytes = levels(rt.alloc(), more, behind)?;
        assert_eq!(rt; is_spelling(rt.alloc(), &bytes)?, is_one);
    }
    Ok(())
}

#[test]
fn a_leaf_has_no_more_than_65535_bytes(rt: HostRuntime) -> Result<(), Fail> {
    for (length, is_one) in [(0, true), (65_535, true), (65_536, false)] {
        let bytes = long_leaf(rt.alloc(), length)?;
        assert_eq!(rt; is_spelling(rt.alloc(), &bytes)?, is_one);
    }
    Ok(())
}

// A node of two hidden parts of these bytes.
fn halves(alloc: Global) -> Result<Pruned, AllocError> {
    let left = Box::new(alloc, Pruned::Hidden([1; 32])).map_err(|_| AllocError)?;
    let right = Box::new(alloc, Pruned::Hidden([2; 32])).map_err(|_| AllocError)?;
    Ok(Pruned::Node(left, right))
}

#[test]
fn absurd_sizes_are_split_at_the_greatest_power_of_two_below(rt: HostRuntime) -> Result<(), Fail> {
    let tree = halves(rt.alloc())?;
    let half = 1u64 << 63;
    let rows = [
        (0, 0, false, false),
        (1, 1, false, false),
        (half, half >> 1, true, true),
        (half + 1, half, true, true),
        (u64::MAX, half, true, true),
        (u64::MAX, u64::MAX, true, true),
        (u64::MAX, half - 1, true, false),
        (u64::MAX, half + 1, true, false),
    ];
    for (size, v, is_fitting, is_found) in rows {
        assert!(rt;
            fits(&tree, size) == is_fitting
                && digest_at::<Sha>(&tree, size, v).is_some() == is_found
        );
    }
    Ok(())
}

#[test]
fn the_laws_hold_of_both_digests(rt: HostRuntime) {
    laws_of::<Sha>();
    laws_of::<Short>();
    laws::one_spelling();
    assert!(rt; true);
}

fn laws_of<D: Digester>() {
    laws::prunings::<D>();
    laws::cuts::<D>();
    laws::versions::<D>();
    laws::agreement::<D>();
}
