ghost use Rattle.std.specs.Prelude.{◌≡◌, ◌%◌, ◌^◌, ◌<◌, ◌≤◌, length, map, true};
ghost use Rattle.hist_proof.specs.Pruned.{PrunesAt};
ghost use Rattle.hist_proof.specs.View.{tree_view};
ghost use Rattle.hist_tree.specs.Nodes.{node_texts};
ghost use Rattle.tree_model.specs.History.{depth};

use crate::line::LeafText;
use fr_digest::Digester;
use hist_proof::Pruned;
use hist_tree::Hist;
use tree_model::left_leaves;

/// Whether the tree prunes the part of height `level` from the position `start` on, in version `size` of the texts.
pub(crate) fn prunes_part<D: Digester>(
    p: &Pruned,
    texts: &Hist<D, LeafText>,
    size: u64,
    level: u32,
    start: u64,
) -> bool
    requires version { size ≤ length texts.now }
    requires within { start < size }
    requires aligned { start % 2 ^ level ≡ 0 }
    requires height { level ≤ depth size }
    ensures { result ≡ true → PrunesAt D.digest_of level (tree_view p.now)
        (node_texts size level start (map (λ t. t.text) texts.now)) }
{
    match p {
        Pruned::Hidden(x) => *x == texts.part(size, level, start),
        Pruned::Leaf(text) => level == 0 && texts.item(start).text == *text,
        Pruned::Node(left, right) => {
            if level == 0 {
                return false;
            }
            let half = left_leaves(level) as u64;
            if size - start <= half {
                return false;
            }
            prunes_part(left, texts, size, level - 1, start)
                && prunes_part(right, texts, size, level - 1, start + half)
        }
        Pruned::Single(left) => {
            if level == 0 {
                return false;
            }
            let half = left_leaves(level) as u64;
            if half < size - start {
                return false;
            }
            prunes_part(left, texts, size, level - 1, start)
        }
    }
}
