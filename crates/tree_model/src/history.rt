ghost use Rattle.std.specs.Prelude.{◌≡◌, ◌<◌, ◌≤◌, ◌-◌, ◌^◌, length};
ghost use Rattle.tree_model.specs.History.{depth, part, root, root_of_all};

use fr_bytes::{Bytes, Texts};
use fr_digest::{Dig, Digester};

/// The root of version `v` of the history tree of `texts`: the digest of the tree of the first `v`
/// texts (Crosby and Wallach, USENIX Security 2009). Each text is hashed once, and no memory is taken.
#[tactic(auto, unfolding(crate::specs::History::root))]
pub fn root_at<D: Digester>(texts: &Texts, v: u64) -> Dig
    requires some { 0 < v }
    requires within { v ≤ length texts.now }
    ensures { result ≡ root D.digest_of texts.now v }
{
    root_of::<D>(&texts.as_slice()[..v as usize])
}

/// The root of the history tree of all of `texts`. Each text is hashed once, and no memory is taken.
#[tactic(auto, unfolding(crate::specs::History::root_of_all))]
pub fn root_of<D: Digester>(texts: &[Bytes]) -> Dig
    requires some { 0 < length texts.now }
    ensures { result ≡ root_of_all D.digest_of texts.now }
{
    part::<D>(texts, depth_of(texts.len() as u64))
}

/// The height of the history tree of `n` leaves, the least `e` with `n <= 2^e`: at most 64.
pub fn depth_of(n: u64) -> u32
    requires { 0 < n }
    ensures value { result ≡ depth n }
    ensures fits { n ≤ 2 ^ result }
    ensures levels { result ≤ 64 }
{
    if n == 1 { 0 } else { (n - 1).ilog2() + 1 }
}

/// How many leaves the left half of a node of height `level` has: `2^(level - 1)`.
pub fn left_leaves(level: u32) -> usize
    requires above { 0 < level }
    requires levels { level ≤ 64 }
    ensures { result ≡ 2 ^ (level - 1) }
{
    1 << (level - 1)
}

/// The digest of the node of height `level` over `texts`.
fn part<D: Digester>(texts: &[Bytes], level: u32) -> Dig
    requires some { 0 < length texts.now }
    requires fits { length texts.now ≤ 2 ^ level }
    requires levels { level ≤ 64 }
    ensures { result ≡ part D.digest_of level texts.now }
{
    if level == 0 {
        return D::tagged(0, &[], texts[0].as_slice());
    }
    let half = left_leaves(level);
    if texts.len() <= half {
        return D::tagged(1, &[], &part::<D>(texts, level - 1));
    }
    let (left, right) = texts.split_at(half);
    D::tagged(1, &part::<D>(left, level - 1), &part::<D>(right, level - 1))
}
