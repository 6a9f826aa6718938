use crate::history::{least_trees, shown_lists};
use crate::{fits_change, prune, prune_at, prune_for};
use dict_proof::{Change, PrunedDict, apply, digest, keeps_author};
use dict_treap::Dict;
use fr_bytes::{Bytes, NoMemory};
use fr_digest::{Sha, Short};
use hist_proof::{Pruned, read_pruned};
use hist_tree::Hist;
use std::alloc::Global;
use std::process::Abort;
use std::test::Fail;
use tree_model::{Entry, HasText};

/// An item that is its text.
#[derive(Drop)]
struct Line {
    text: Bytes,
}

impl HasText for Line {
    ghost text_of = { λ line. line.text };

    fn text(&self) -> &[u8] {
        self.text.as_slice()
    }
}

// Over the texts "a" to "e", from an independent program: the positions that are shown, and the tree.
const CHOSEN: [(u64, &[u64], &str); 4] = [
    (
        5,
        &[2],
        "020200b137985ff484fb600db93107c77b0365c80d78f5b429ded0fd97361d077999eb0201000000016300d070dc5b8d\
            a9aea7dc0f5ad4c29d89965200059c9a0ceca3abd5da2492dcb71d00f9fe3ac36d565eb0443e78965a04fa523a07f7d4\
            e2b719a398745a4f2f7b3c16",
    ),
    (
        5,
        &[],
        "005addd685bca30b91467dbbbc36a6802db92e27997350d57cda1b80c45e47be22",
    ),
    (
        3,
        &[0, 2],
        "02020100000001610057eb35615d47f34ec714cacdf5fd74608a5e8e102724e80b24b287c0c27b6a3103010000000163",
    ),
    (
        4,
        &[1, 2],
        "020200022a6979e6dab7aa5ae4c3e5e45f7e977112a7e63593820dbec1ec738a24f93c01000000016202010000000163\
            00d070dc5b8da9aea7dc0f5ad4c29d89965200059c9a0ceca3abd5da2492dcb71d",
    ),
];

// Over the same texts: the first position that is shown, listed versions, and the tree with the position before it.
const FROM: [(u64, u64, &[u64], &str); 3] = [
    (
        5,
        4,
        &[3],
        "020200b137985ff484fb600db93107c77b0365c80d78f5b429ded0fd97361d077999eb0200597fcb31282d34654c200d\
            3418fca5705c648ebf326ec73d8ddef11841f876d80100000001640303010000000165",
    ),
    (
        5,
        0,
        &[],
        "020202010000000161010000000162020100000001630100000001640303010000000165",
    ),
    (
        4,
        2,
        &[0, 4, 9],
        "020200022a6979e6dab7aa5ae4c3e5e45f7e977112a7e63593820dbec1ec738a24f93c01000000016202010000000163\
            010000000164",
    ),
];

fn letters(alloc: Global) -> Result<Hist<Sha, Line>, NoMemory> {
    let mut hist = Hist::empty(alloc);
    for letter in b"abcde" {
        let text = Bytes::of([*letter].to_vec(alloc)?);
        hist = hist.append(Line { text })?;
    }
    Ok(hist)
}

fn tree(alloc: Global, digits: &str) -> Result<Pruned, Fail> {
    let bytes = hex::decode(alloc, digits)?;
    match read_pruned(alloc, &bytes) {
        Ok(tree) => Ok(tree),
        Err(refused) => Err(refused.into()),
    }
}

fn is_same(a: &Pruned, b: &Pruned) -> bool {
    match (a, b) {
        (Pruned::Hidden(a), Pruned::Hidden(b)) => a == b,
        (Pruned::Leaf(a), Pruned::Leaf(b)) => a == b,
        (Pruned::Node(a, c), Pruned::Node(b, d)) => is_same(a, b) && is_same(c, d),
        (Pruned::Single(a), Pruned::Single(b)) => is_same(a, b),
        _ => false,
    }
}

fn chosen(
    rt: &impl Abort,
    alloc: Global,
    size: u64,
    positions: &[u64],
) -> Result<Pruned, NoMemory> {
    let hist = letters(alloc)?;
    assert!(rt; 0 < size && size <= hist.size());
    prune_at(alloc, &hist, size, positions)
}

fn shown_from(
    rt: &impl Abort,
    alloc: Global,
    size: u64,
    from: u64,
    versions: &[u64],
) -> Result<Pruned, NoMemory> {
    let hist = letters(alloc)?;
    assert!(rt; from < size && size <= hist.size());
    prune(alloc, &hist, size, from, versions)
}

#[test]
fn a_tree_shows_chosen_positions(rt: HostRuntime) -> Result<(), Fail> {
    for (size, positions, want) in &CHOSEN {
        let found = chosen(&rt, rt.alloc(), *size, positions)?;
        assert!(rt; is_same(&found, &tree(rt.alloc(), want)?));
    }
    Ok(())
}

#[test]
fn a_tree_shows_a_rest_and_the_position_before(rt: HostRuntime) -> Result<(), Fail> {
    for (size, from, versions, want) in &FROM {
        let found = shown_from(&rt, rt.alloc(), *size, *from, versions)?;
        assert!(rt; is_same(&found, &tree(rt.alloc(), want)?));
    }
    Ok(())
}

#[test]
fn laws_hold_at_both_digests() {
    least_trees::<Sha>();
    least_trees::<Short>();
    shown_lists();
}

// The digests of the access list of the owner 1 and the writers 2, 3 and 4, and of that without 3, from an independent
// program.
const FOUR: &str = "a7248e92e5f392603611d223de2bc53fe4d54077013043b5b9693449eebf46bb";

const WITHOUT_3: &str = "cb3017ee93ceb453e2be835d19ced9a0dd25b1bb9d3100a7faa41363e8657605";

fn entry(user: u32, role: u8) -> Entry {
    Entry {
        user,
        role,
        next: 0,
    }
}

fn with(rt: &impl Abort, dict: &Dict<Sha>, entry: Entry) -> Result<Dict<Sha>, NoMemory> {
    assert!(rt; dict.get(entry.user).is_none());
    dict.insert(entry)
}

fn four(rt: &impl Abort, alloc: Global) -> Result<Dict<Sha>, NoMemory> {
    let mut dict = Dict::one(alloc, entry(1, 3))?;
    for user in 2..5 {
        dict = with(rt, &dict, entry(user, 2))?;
    }
    Ok(dict)
}

fn least(
    rt: &impl Abort,
    alloc: Global,
    dict: &Dict<Sha>,
    change: Change,
) -> Result<PrunedDict, NoMemory> {
    assert!(rt; fits_change(dict, 1, change));
    prune_for(alloc, dict, 1, change)
}

// The digest that an operation of user 1 leaves of the least list for it.
fn digest_after(rt: &impl Abort, alloc: Global, change: Change) -> Result<String, Fail> {
    let list = least(rt, alloc, &four(rt, alloc)?, change)?;
    assert!(rt; keeps_author(&list, 1, change));
    let after = apply(alloc, list, 1, 0, change)?;
    Ok(hex::encode(alloc, &digest::<Sha>(&after))?)
}

#[test]
fn an_operation_on_its_least_list_leaves_the_digest_of_the_list(
    rt: HostRuntime,
) -> Result<(), Fail> {
    for (change, want) in [(Change::None, FOUR), (Change::Remove(3), WITHOUT_3)] {
        let found = digest_after(&rt, rt.alloc(), change)?;
        assert_eq!(rt; found.as_str(), want);
    }
    Ok(())
}
