ghost use Rattle.std.specs.Prelude.{◌≡◌, ◌≤◌, ◌<◌, ◌+◌, ◌^◌, IfOk, length, true};
ghost use Rattle.std.specs.Option.{option_map};
ghost use Rattle.std.specs.List.{AllByRecursion};
ghost use Rattle.op_types.specs.Spelling.{IsLeaf};
ghost use Rattle.hist_proof.specs.Pruned.{fits};
ghost use Rattle.check_rules.specs.Heard.{holds_leaves};
ghost use Rattle.check_rules.specs.Shown.{anchor, leaves_among, leaves_from, leaves_in, shows_from};

use fr_bytes::NoMemory;
use fr_digest::Digester;
use hist_proof::DigestedTree;
use op_types::Leaf;

/// How many positions from `from` on a tree shows.
fn shown_count<D: Digester>(tree: &DigestedTree<D>, from: u64) -> u64
    requires holds { holds_leaves tree.now.tree ≡ true }
    requires within { from ≤ tree.now.size }
    ensures { result ≡ length (leaves_from tree.now.tree tree.now.size from) }
{
    let mut count = 0;
    for k in from..tree.size() {
        count += tree.leaf_at(k).is_some() as u64;
    }
    count
}

/// Takes the leaves of the positions from `from` on off those that a tree holds.
pub(crate) fn split_leaves<D: Digester>(
    tree: &DigestedTree<D>,
    from: u64,
    leaves: &mut Vec<Leaf>,
) -> Result<Vec<Leaf>, NoMemory>
    requires fitting { fits tree.now.tree tree.now.size ≡ true }
    requires holds { holds_leaves tree.now.tree ≡ true }
    requires read { leaves.old.items ≡ leaves_in tree.now.tree }
    requires spelled { AllByRecursion IsLeaf leaves.old.items }
    requires within { from ≤ tree.now.size }
    requires few { tree.now.size < 2 ^ 32 }
    ensures before { IfOk result (λ behind. leaves.new.items ≡ leaves_among tree.now.tree tree.now.size 0 from) }
    ensures behind { IfOk result (λ behind. behind.items ≡ leaves_from tree.now.tree tree.now.size from) }
    ensures front { IfOk result (λ behind. AllByRecursion IsLeaf leaves.new.items) }
    ensures spelled { IfOk result (λ behind. AllByRecursion IsLeaf behind.items) }
    ensures few { IfOk result (λ behind. from + length behind.items ≤ tree.now.size) }
{
    let count = shown_count::<D>(tree, from);
    let at = leaves.len() - count as usize;
    let behind = leaves.split_off(at)?;
    Ok(behind)
}

/// Whether each position from `from` on is shown.
pub(crate) fn shows_from<D: Digester>(tree: &DigestedTree<D>, from: u64) -> bool
    requires { from ≤ tree.now.size }
    ensures { result ≡ shows_from tree.now.tree tree.now.size from }
{
    for k in from..tree.size() {
        if tree.leaf_at(k).is_none() {
            return false;
        }
    }
    true
}

/// The leaf in front of position `from`, where there is one and it is shown.
pub(crate) fn anchor<'a, D: Digester>(
    tree: &DigestedTree<D>,
    from: u64,
    before: &'a [Leaf],
) -> Option<&'a Leaf>
    requires holds { holds_leaves tree.now.tree ≡ true }
    requires read { before.now ≡ leaves_among tree.now.tree tree.now.size 0 from }
    ensures { option_map (λ l. l.now) result ≡ anchor tree.now.tree tree.now.size from }
{
    if from == 0 || tree.leaf_at(from - 1).is_none() {
        return None;
    }
    before.last()
}
