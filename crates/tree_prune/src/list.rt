ghost use Rattle.dict_proof.specs.View.{change_view, list_view, part_view};
ghost use Rattle.dict_treap.specs.Treap.{part};
ghost use Rattle.pruned_list.specs.Kept.{entered, join_users, kept, path, removal};
ghost use Rattle.pruned_list.specs.PrunedList.{IsWhole, PrunedList, PrunesDict};
ghost use Rattle.std.specs.Prelude.{◌≡◌, ◌++◌, IfOk, OnOk};
ghost use Rattle.tree_model.specs.AccessList.{FitsChange};
ghost use Rattle.tree_prune.specs.LeastList.{IsOpen, changed_users, is_one_of, least_list};

use dict_proof::{Change, PrunedDict};
use dict_treap::{Dict, Node};
use fr_bytes::NoMemory;
use fr_digest::Digester;
use std::alloc::Global;
use tree_model::above;

/// Appends the users on the way of a search, from the top.
#[tactic(auto, using(crate::proofs::Walks::path_steps))]
fn put_path<D: Digester>(
    users: &mut Vec<u32>,
    at: Option<&Node<D>>,
    user: u32,
) -> Result<(), NoMemory>
    ensures { OnOk result (users.new.items ≡ users.old.items ++ path user (part at.entry)) }
{
    let node = match at {
        None => return Ok(()),
        Some(node) => node,
    };
    let entry = node.entry();
    users.push(entry.user)?;
    if user == entry.user {
        return Ok(());
    }
    if user < entry.user {
        put_path(users, node.left(), user)?;
        return Ok(());
    }
    put_path(users, node.right(), user)?;
    Ok(())
}

/// Appends the users of the nodes that the joining of two parts enters.
#[tactic(auto, using(crate::proofs::Walks::join_steps))]
fn put_joined<D: Digester>(
    users: &mut Vec<u32>,
    smaller: Option<&Node<D>>,
    greater: Option<&Node<D>>,
) -> Result<(), NoMemory>
    ensures { OnOk result (users.new.items ≡ users.old.items ++ join_users (part smaller.entry) (part greater.entry)) }
{
    let (a, b) = match (smaller, greater) {
        (Some(a), Some(b)) => (a, b),
        _ => return Ok(()),
    };
    let upper = a.entry().user;
    let other = b.entry().user;
    users.push(upper)?;
    users.push(other)?;
    if above(other, upper) {
        put_joined(users, smaller, b.left())?;
        return Ok(());
    }
    put_joined(users, a.right(), greater)?;
    Ok(())
}

/// Appends the users of the nodes that the removal of a user enters.
#[tactic(auto, using(crate::proofs::Walks::removal_steps))]
fn put_removal<D: Digester>(
    users: &mut Vec<u32>,
    at: Option<&Node<D>>,
    user: u32,
) -> Result<(), NoMemory>
    ensures { OnOk result (users.new.items ≡ users.old.items ++ removal user (part at.entry)) }
{
    let node = match at {
        None => return Ok(()),
        Some(node) => node,
    };
    let entry = node.entry();
    users.push(entry.user)?;
    if user == entry.user {
        put_joined(users, node.left(), node.right())?;
        return Ok(());
    }
    if user < entry.user {
        put_removal(users, node.left(), user)?;
        return Ok(());
    }
    put_removal(users, node.right(), user)?;
    Ok(())
}

/// Appends the users of the nodes that a change enters, beside those on the way to its author.
fn put_changed<D: Digester>(
    users: &mut Vec<u32>,
    root: &Node<D>,
    change: Change,
) -> Result<(), NoMemory>
    ensures { OnOk result (users.new.items ≡ users.old.items ++ changed_users (change_view change) root.now) }
{
    match change {
        Change::None => Ok(()),
        Change::Insert(entry) => put_path(users, Some(root), entry.user),
        Change::Remove(user) => put_removal(users, Some(root), user),
    }
}

/// The users of the nodes that an operation enters.
#[tactic(auto, using(crate::proofs::Walks::entered_steps))]
fn entered<D: Digester>(
    alloc: Global,
    root: &Node<D>,
    author: u32,
    change: Change,
) -> Result<Vec<u32>, NoMemory>
    ensures { IfOk result (λ users. users.items ≡ entered author (change_view change) root.now) }
{
    let mut users = Vec::new(alloc);
    put_path(&mut users, Some(root), author)?;
    put_changed(&mut users, root, change)?;
    Ok(users)
}

/// A part with the nodes of these users, where there is one.
#[cycle(kept)]
#[tactic(auto, using(crate::proofs::Walks::kept_steps))]
fn kept_part<D: Digester>(
    alloc: Global,
    users: &[u32],
    at: Option<&Node<D>>,
) -> Result<Option<Box<PrunedDict>>, NoMemory>
    ensures { IfOk result (λ p. part_view p ≡ kept D.digest_of (is_one_of users.now) (part at.entry)) }
{
    match at {
        None => Ok(None),
        Some(node) => {
            let list = kept_list(alloc, users, node)?;
            Ok(Some(Box::new(alloc, list)?))
        }
    }
}

/// The list with the nodes of these users kept, and each other one hidden with all below it.
#[cycle(kept)]
#[tactic(auto, using(crate::proofs::Walks::kept_steps))]
fn kept_list<D: Digester>(
    alloc: Global,
    users: &[u32],
    node: &Node<D>,
) -> Result<PrunedDict, NoMemory>
    ensures { IfOk result (λ p. list_view p ≡ kept D.digest_of (is_one_of users.now) node.now) }
{
    let entry = node.entry();
    if !is_one_of(users, entry.user) {
        return Ok(PrunedDict::Hidden(node.digest()));
    }
    let left = kept_part(alloc, users, node.left())?;
    let right = kept_part(alloc, users, node.right())?;
    Ok(PrunedDict::Node { entry, left, right })
}

fn is_one_of(users: &[u32], user: u32) -> bool
    ensures { result ≡ is_one_of users.now user }
{
    users.iter().any(|v| *v == user)
}

/// The least pruned list of an access list on which an operation, and the look-ups of its author and of the user whom it
/// changes, meet nothing hidden: the nodes that they enter are shown, and each other part is hidden. The next number
/// that the author gets plays no part. Nothing is hashed.
pub fn prune_for<D: Digester>(
    alloc: Global,
    d: &Dict<D>,
    author: u32,
    change: Change,
) -> Result<PrunedDict, NoMemory>
    requires fits { FitsChange d.now author (change_view change) }
    ensures least { (t : PrunedList) → IsWhole t → PrunesDict D.digest_of t d.now
        → IfOk result (λ p. list_view p ≡ least_list D.digest_of author (change_view change) t) }
    ensures prunes { IfOk result (λ p. PrunesDict D.digest_of (list_view p) d.now) }
    ensures meets { IfOk result (λ p. IsOpen (list_view p) d.now author (change_view change)) }
{
    least_of(alloc, d.root(), author, change)
}

/// The least pruned list of a treap.
#[tactic(auto, unfolding(crate::specs::LeastList::least_list))]
fn least_of<D: Digester>(
    alloc: Global,
    root: &Node<D>,
    author: u32,
    change: Change,
) -> Result<PrunedDict, NoMemory>
    ensures { IfOk result (λ p. list_view p ≡ least_list D.digest_of author (change_view change) root.now) }
{
    let users = entered(alloc, root, author, change)?;
    kept_list(alloc, &users, root)
}
