ghost use Rattle.std.specs.Prelude.{◌≡◌, ◌+◌, ◌≤◌, ◌∷◌, [], length, nat_le, not, option_and_then, IfOk, OnOk, OnErr, None};
ghost use Rattle.std.specs.List.{AllByRecursion};
ghost use Rattle.std.specs.Option.{option_map};
ghost use Rattle.lms_tree.specs.Signer.{public_of};
ghost use Rattle.op_types.specs.Kinds.{changed_user};
ghost use Rattle.op_types.specs.Spelling.{IsLeaf, IsOp};
ghost use Rattle.signed_ops.specs.Signed.{once_more};
ghost use Rattle.tree_model.specs.AccessList.{FitsChange, changed_set, dict, entry_of};
ghost use Rattle.wall_law.specs.Law as the_law;
ghost use Rattle.wall_law.specs.Law.{law};
ghost use Rattle.wall_law.specs.Rows.{row, first_of};
ghost use Rattle.wall_law.specs.State.{change_of, state_of};
ghost use Rattle.hall_core.specs.PlainWall.{Gives, IsAsk, left_behind, refusal_of, sees, unlawful, where_placed, with_leaf};
ghost use Rattle.hall_core.specs.Standing.{IsNext, item_with};
ghost use Rattle.hall_core.specs.Snapshots.{Stands};

use crate::ask::{Answer, Ask, Cause, unlawful};
use crate::facts::WallFacts;
use crate::item::Item;
use crate::signing::{no_view, sign_view};
use crate::snapshot::Snapshot;
use dict_treap::Dict;
use dict_treap::laws::others;
use fr_bytes::NoMemory;
use fr_digest::Digester;
use hist_tree::Hist;
use lms_tree::Signer;
use op_types::limits::VIEW_SIZE_MAX;
use op_types::{Kind, Leaf, OWNER, Op, View, laws, write_leaf};
use signed_ops::{is_author_signed, is_view_signed, op_copy, view_copy};
use std::alloc::Global;
use std::marker::Model;
use tree_model::Entry;
use wall_law::{LawRefusal, epoch_after, judge_found};

/// A wall: its leaves, each with its text and the access list after it, the server's view of them, and the signer of
/// the next views.
#[derive(Drop)]
pub(crate) struct Wall<D: Digester> {
    facts: WallFacts,
    signer: Signer,
    opening: Dict<D>,
    list: Dict<D>,
    epoch: u64,
    history: Hist<D, Item<D>>,
    latest: View,
    alloc: Global,
}

impl<D: Digester> Model for Wall<D> {
    ghost use Rattle.std.specs.Prelude.{map};
    ghost use Rattle.hall_core.specs.Standing.{KeepsWall, Wall};

    ghost Value = { Wall };

    ghost view = { λ w. record { facts = w.facts; leaves = map (λ item. item.leaf) w.history; signer = w.signer } };

    ghost invariant = { λ w. KeepsWall D.digest_of
        (record { facts = w.facts; leaves = map (λ item. item.leaf) w.history; signer = w.signer })
        w.opening (record { entries = w.list; epoch = w.epoch }) w.history w.latest };
}

/// What an operation makes of a wall, before the view of it is signed.
#[derive(Drop)]
struct Next<D: Digester> {
    list: Dict<D>,
    epoch: u64,
    history: Hist<D, Item<D>>,
}

impl<D: Digester> Wall<D> {
    /// A wall without leaves.
    pub(crate) fn make(alloc: Global, facts: WallFacts, signer: Signer) -> Result<Wall<D>, NoMemory>
        requires tall { signer.pair.lms.h ≡ 10 }
        requires fresh { signer.used ≡ 0 }
        requires key { facts.server ≡ public_of signer.private signer.id signer.pair }
        ensures { IfOk result (λ w. w ≡ record { facts = facts; leaves = []; signer = signer }) }
    {
        let owner = Entry {
            user: facts.owner,
            role: OWNER,
            next: 0,
        };
        let opening = Dict::one(alloc, owner)?;
        let list = opening.share()?;
        let latest = no_view(alloc, facts.wall);
        Ok(Wall {
            facts,
            signer,
            opening,
            list,
            epoch: 0,
            history: Hist::empty(alloc),
            latest,
            alloc,
        })
    }

    /// The wall as it is now, of which no item is copied.
    pub(crate) fn seen(&self) -> Result<Snapshot<D>, NoMemory>
        ensures { IfOk result (λ snapshot. Stands D.digest_of self.now.facts self.now.leaves snapshot) }
    {
        Ok(Snapshot {
            history: self.history.share()?,
            opening: self.opening.share()?,
            view: view_copy(&self.latest)?,
            f: self.facts.f,
        })
    }

    /// The signer has used as many leaves as the wall has, and each of the wall's leaves has a spelling.
    pub(crate) fn keeps(&self)
        ensures count { self.now.signer.used ≡ length self.now.leaves }
        ensures spelled { AllByRecursion IsLeaf self.now.leaves }
    {
        let _facts = &self.facts;
    }

    // Whether there are as many leaves as a wall can have.
    fn is_full(&self) -> bool
        ensures { result ≡ nat_le VIEW_SIZE_MAX (length self.now.leaves) }
    {
        self.size() >= VIEW_SIZE_MAX
    }

    // How many leaves there are.
    fn size(&self) -> u64
        ensures { result ≡ length self.now.leaves }
    {
        self.history.size()
    }

    /// Answers what is asked. An operation is added where nothing stands in its way; else all stays as it is.
    pub(crate) fn answer(&mut self, ask: &Ask) -> Answer
        requires { IsAsk ask.now }
        ensures gives { Gives D.digest_of self.old.facts self.old.leaves ask.now result }
        ensures facts { self.new.facts ≡ self.old.facts }
        ensures leaves { self.new.leaves ≡ left_behind D.digest_of self.old.facts self.old.leaves ask.now result }
    {
        match ask {
            Ask::Look => Answer::Looked { size: self.size() },
            Ask::Append { op } => self.append(op),
        }
    }

    fn append(&mut self, op: &Op) -> Answer
        requires { IsOp op.now }
        ensures gives { Gives D.digest_of self.old.facts self.old.leaves (Ask.Append op.now) result }
        ensures facts { self.new.facts ≡ self.old.facts }
        ensures leaves { self.new.leaves ≡ where_placed D.digest_of self.old.facts self.old.leaves op.now result }
    {
        match self.refusal(op) {
            Ok(None) => self.placed(op),
            Ok(Some(cause)) => Answer::Refused { cause },
            Err(NoMemory) => Answer::Refused {
                cause: Cause::NoMemory,
            },
        }
    }

    fn placed(&mut self, op: &Op) -> Answer
        requires spelled { IsOp op.now }
        requires free { refusal_of D.digest_of self.old.facts self.old.leaves op.now ≡ None }
        ensures gives { Gives D.digest_of self.old.facts self.old.leaves (Ask.Append op.now) result }
        ensures facts { self.new.facts ≡ self.old.facts }
        ensures leaves { self.new.leaves ≡ where_placed D.digest_of self.old.facts self.old.leaves op.now result }
    {
        let position = self.size();
        match self.place(op) {
            Ok(()) => Answer::Placed { position },
            Err(NoMemory) => Answer::Refused {
                cause: Cause::NoMemory,
            },
        }
    }

    // Why the wall takes no such operation.
    fn refusal(&self, op: &Op) -> Result<Option<Cause>, NoMemory>
        requires { IsOp op.now }
        ensures { IfOk result (λ r. r ≡ refusal_of D.digest_of self.now.facts self.now.leaves op.now) }
    {
        if self.is_full() {
            return Ok(Some(Cause::Full));
        }
        if !is_author_signed(self.alloc, &self.facts.users, op)? {
            return Ok(Some(Cause::BadSignature));
        }
        Ok(self.later_refusal(op))
    }

    // Why the wall takes no such operation, which its author signed.
    fn later_refusal(&self, op: &Op) -> Option<Cause>
        ensures { result ≡ first_of (
            option_map unlawful (law (state_of self.now.facts.owner self.now.leaves) self.now.facts.wall
            (length self.now.leaves) op.now)
            ∷ row (not (sees D.digest_of self.now.facts self.now.leaves op.now.view)) Cause.BadView
            ∷ []) }
    {
        match self.judge(op) {
            Err(refusal) => Some(unlawful(refusal)),
            Ok(()) => self.view_refusal(&op.view),
        }
    }

    // The law over the wall's access list.
    fn judge(&self, op: &Op) -> Result<(), LawRefusal>
        ensures law { the_law.refusal_of result ≡ law (state_of self.now.facts.owner self.now.leaves)
            self.now.facts.wall (length self.now.leaves) op.now }
        ensures early { OnOk result (op.now.view.size ≤ length self.now.leaves) }
    {
        let author = self.list.get(op.author);
        let changed = self.changed_entry(&op.kind);
        let position = self.size();
        judge_found(&author, &changed, self.epoch, self.facts.wall, position, op)
    }

    fn changed_entry(&self, kind: &Kind) -> Option<Entry>
        ensures { result ≡ option_and_then (λ user. entry_of (state_of self.now.facts.owner self.now.leaves).entries
            user) (changed_user kind.now) }
    {
        match kind.changed_user() {
            None => None,
            Some(user) => self.list.get(user),
        }
    }

    fn view_refusal(&self, view: &View) -> Option<Cause>
        requires { view.now.size ≤ length self.now.leaves }
        ensures { result ≡ row (not (sees D.digest_of self.now.facts self.now.leaves view.now)) Cause.BadView }
    {
        if self.sees(view) {
            None
        } else {
            Some(Cause::BadView)
        }
    }

    // Whether a view is of nothing, or is one of this wall that the server signed.
    fn sees(&self, view: &View) -> bool
        requires { view.now.size ≤ length self.now.leaves }
        ensures { result ≡ sees D.digest_of self.now.facts self.now.leaves view.now }
    {
        if view.size == 0 {
            return true;
        }
        self.history.root_at(view.size) == view.root && is_view_signed(&self.facts.server, view)
    }

    // Adds an operation in whose way nothing stands. All memory is taken and the view signed before anything changes.
    fn place(&mut self, op: &Op) -> Result<(), NoMemory>
        requires spelled { IsOp op.now }
        requires free { refusal_of D.digest_of self.old.facts self.old.leaves op.now ≡ None }
        ensures placed { OnOk result (self.new ≡ record {
          facts = self.old.facts;
          leaves = with_leaf D.digest_of
              self.old.facts self.old.leaves op.now;
          signer = once_more self.old.signer;
        }) }
        ensures unchanged { OnErr result (self.new ≡ self.old) }
    {
        let Next {
            list,
            epoch,
            history,
        } = self.next(op)?;
        let size = history.size();
        let root = history.root_at(size);
        let latest = sign_view(&mut self.signer, self.facts.wall, size, &root)?;
        self.list = list;
        self.epoch = epoch;
        self.history = history;
        self.latest = latest;
        Ok(())
    }

    // What such an operation makes of the wall.
    fn next(&self, op: &Op) -> Result<Next<D>, NoMemory>
        requires spelled { IsOp op.now }
        requires free { refusal_of D.digest_of self.now.facts self.now.leaves op.now ≡ None }
        ensures { IfOk result (λ next. IsNext D.digest_of self.now.facts self.now.leaves op.now next.list next.epoch
            next.history) }
    {
        let list = list_after(&self.list, op)?;
        let epoch = epoch_after(self.epoch, op);
        let item = item_behind(self.alloc, &list, epoch, op)?;
        let history = self.history.append(item)?;
        Ok(Next {
            list,
            epoch,
            history,
        })
    }
}

// The access list that an operation leaves.
fn list_after<D: Digester>(list: &Dict<D>, op: &Op) -> Result<Dict<D>, NoMemory>
    requires spelled { IsOp op.now }
    requires fits { FitsChange list.now op.now.author (change_of op.now.kind) }
    ensures { IfOk result (λ next. next ≡ changed_set list.now op.now.author (op.now.seq + 1) (change_of op.now.kind)) }
{
    let list = list.set_next(op.author, op.seq + 1)?;
    match &op.kind {
        Kind::Post { .. } => Ok(list),
        Kind::Admit { user, role, .. } => list.insert(Entry {
            user: *user,
            role: *role,
            next: 0,
        }),
        Kind::Remove { user, .. } => {
            others();
            list.remove(*user)
        }
    }
}

// The item of an operation that leaves this access list and this epoch.
fn item_behind<D: Digester>(
    alloc: Global,
    list: &Dict<D>,
    epoch: u64,
    op: &Op,
) -> Result<Item<D>, NoMemory>
    requires { IsOp op.now }
    ensures value { IfOk result (λ item. item ≡ item_with (record
        { after = dict D.digest_of list.now; epoch = epoch; op = op.now }) list.now) }
    ensures spelled { IfOk result (λ item. IsLeaf item.leaf) }
{
    let leaf = leaf_behind(list, epoch, op_copy(op)?);
    let text = write_leaf(alloc, &leaf)?;
    let list = list.share()?;
    Ok(Item { leaf, text, list })
}

// The leaf of such an operation.
fn leaf_behind<D: Digester>(list: &Dict<D>, epoch: u64, op: Op) -> Leaf
    requires { IsOp op }
    ensures value { result ≡ record { after = dict D.digest_of list.now; epoch = epoch; op = op } }
    ensures is_leaf { IsLeaf result }
{
    let after = list.digest();
    laws::slices_of_bytes(&after);
    Leaf { after, epoch, op }
}
