ghost use Rattle.std.specs.Prelude.{◌≡◌, ◌≤◌, ◌-◌, IfOk, map};
ghost use Rattle.std.specs.List.{AllByRecursion};
ghost use Rattle.fr_bytes.specs.Reading.{GivesAll};
ghost use Rattle.op_types.specs.Spelling.{IsLeaf};
ghost use Rattle.hist_proof.specs.View.{tree_view};
ghost use Rattle.dict_proof.specs.View.{list_view};
ghost use Rattle.msg_form.specs.Messages.{IsReply};
ghost use Rattle.check_rules.specs.Heard.{heard_in, heard_of, heard_show, keys_heard_of, keys_in, lists_of, tree_of};
ghost use Rattle.check_core.specs.Reads.{IsHeard, IsRead, PutsLeaves, heard_view, keys_view};

use crate::heard::{Heard, News};
use crate::keys_news::KeysNews;
use crate::read_tree::ReadTree;
use dict_proof::{PrunedDict, read_dict};
use fr_bytes::{Bytes, ReadRefusal, Sequence, Texts};
use hist_proof::{Pruned, read_pruned};
use msg_form::{Reply, read_reply};
use op_types::limits::VIEW_SIZE_MAX;
use op_types::{Leaf, View, read_leaf};
use std::alloc::Global;

/// Puts the leaves that the texts of a tree spell behind others, from left to right.
#[tactic(auto, unfolding(check_rules::specs::Heard::holds_leaves, check_rules::specs::Shown::leaves_in))]
fn put_leaves(alloc: Global, tree: &Pruned, leaves: &mut Vec<Leaf>) -> Result<(), ReadRefusal>
    ensures puts { PutsLeaves result leaves.old.items leaves.new.items (tree_view tree.now) }
    ensures spelled { AllByRecursion IsLeaf leaves.old.items → AllByRecursion IsLeaf leaves.new.items }
{
    match tree {
        Pruned::Hidden(_) => Ok(()),
        Pruned::Leaf(text) => {
            let leaf = read_leaf(alloc, text.as_slice())?;
            leaves.push(leaf)?;
            Ok(())
        }
        Pruned::Node(left, right) => {
            put_leaves(alloc, left, leaves)?;
            put_leaves(alloc, right, leaves)
        }
        Pruned::Single(left) => put_leaves(alloc, left, leaves),
    }
}

/// The pruned tree that the bytes spell, where each of its texts spells a leaf.
fn read_tree(alloc: Global, bytes: &[u8]) -> Result<ReadTree, ReadRefusal>
    ensures exact { GivesAll (λ t. tree_view t.tree) result (tree_of bytes.now) }
    ensures read { IfOk result IsRead }
{
    let tree = read_pruned(alloc, bytes)?;
    let mut leaves = Vec::new(alloc);
    put_leaves(alloc, &tree, &mut leaves)?;
    Ok(ReadTree { tree, leaves })
}

/// The pruned access lists that these texts spell, one each.
fn read_lists(alloc: Global, texts: &[Bytes]) -> Result<Vec<PrunedDict>, ReadRefusal>
    ensures { GivesAll (λ v. map list_view v.items) result (lists_of texts.now) }
{
    let mut lists = Vec::new(alloc);
    for text in texts {
        let list = read_dict(alloc, text.as_slice())?;
        lists.push(list)?;
    }
    Ok(lists)
}

/// What is shown from position `from` on.
fn read_show(
    alloc: Global,
    view: View,
    from: u64,
    tree: &Bytes,
    lists: &Texts,
) -> Result<Heard, ReadRefusal>
    requires { view.size ≤ VIEW_SIZE_MAX }
    ensures exact { GivesAll heard_view result (heard_show view from tree.now lists.now) }
    ensures heard { IfOk result IsHeard }
{
    if from >= view.size {
        return Ok(Heard::Bare(view));
    }
    let shown = read_tree(alloc, tree.as_slice())?;
    let lists = read_lists(alloc, lists.as_slice())?;
    let lists = Sequence::of(lists);
    Ok(Heard::News(News {
        view,
        from,
        shown,
        lists,
    }))
}

/// What a reply says, in answer to an operation or to a look.
fn heard_in(alloc: Global, appends: bool, reply: Reply) -> Result<Heard, ReadRefusal>
    requires { IsReply reply }
    ensures exact { GivesAll heard_view result (heard_in appends reply) }
    ensures heard { IfOk result IsHeard }
{
    match reply {
        Reply::Show {
            view,
            from,
            tree,
            dicts,
        } => read_show(alloc, view, from, &tree, &dicts),
        Reply::Refused {
            wall,
            cause,
            number,
        } => {
            if appends {
                Ok(Heard::Refused {
                    wall,
                    cause,
                    number,
                })
            } else {
                Err(ReadRefusal::NotForm)
            }
        }
        Reply::KeyOps { .. } => Err(ReadRefusal::NotForm),
    }
}

/// What the bytes of a reply say, in answer to an operation or to a look.
#[tactic(auto, unfolding(check_rules::specs::Heard::heard_of))]
pub(crate) fn read_heard(alloc: Global, appends: bool, bytes: &[u8]) -> Result<Heard, ReadRefusal>
    ensures exact { GivesAll heard_view result (heard_of appends bytes.now) }
    ensures heard { IfOk result IsHeard }
{
    let reply = read_reply(alloc, bytes)?;
    heard_in(alloc, appends, reply)
}

/// What a reply says of changes of an access list.
fn keys_in(alloc: Global, reply: Reply) -> Result<KeysNews, ReadRefusal>
    ensures exact { GivesAll keys_view result (keys_in reply) }
    ensures read { IfOk result (λ n. IsRead n.shown) }
{
    match reply {
        Reply::KeyOps { wall, size, tree } => {
            let shown = read_tree(alloc, tree.as_slice())?;
            Ok(KeysNews { wall, size, shown })
        }
        Reply::Show { .. } | Reply::Refused { .. } => Err(ReadRefusal::NotForm),
    }
}

/// What the bytes of a reply say of changes of an access list.
#[tactic(auto, unfolding(check_rules::specs::Heard::keys_heard_of))]
pub(crate) fn read_keys(alloc: Global, bytes: &[u8]) -> Result<KeysNews, ReadRefusal>
    ensures exact { GivesAll keys_view result (keys_heard_of bytes.now) }
    ensures read { IfOk result (λ n. IsRead n.shown) }
{
    let reply = read_reply(alloc, bytes)?;
    keys_in(alloc, reply)
}
