//! What a client keeps of one wall.
ghost use Rattle.std.specs.Prelude.{◌≡◌, ◌≢◌, ◌+◌, ◌<◌, ◌≤◌, [], length, map, IfOk, IfErr, OnOk, OnErr, MatchOption, nat_eq, nat_lt};
ghost use Rattle.std.specs.List.{AllByRecursion};
ghost use Rattle.op_types.specs.declared.limits.TheConstants.{BODY_BYTES_MAX, SEQ_MAX};
ghost use Rattle.op_types.specs.Spelling.{IsKind, IsLeaf, IsOp, IsView};
ghost use Rattle.check_rules.specs.Shown.{changes_of};
ghost use Rattle.msg_form.specs.declared.message.Request.TheVariants as requests;
ghost use Rattle.msg_form.specs.Messages.{IsRequest, SpellsRequest, request_text};
ghost use Rattle.msg_form.specs.declared.decline.Decline.TheVariants as declines;
ghost use Rattle.fr_bytes.specs.Parts.{IsLimited};
ghost use Rattle.pad_wrap.specs.Pad.{padded};
ghost use Rattle.client_core.specs.Asking.{changed, look_sent, post_stream, posted, read_by, unsigned};
ghost use Rattle.client_core.specs.Clients.{opening_keys, opening_side};
ghost use Rattle.client_core.specs.Keys.{IsNumbered, held, keys_or, keys_view};
ghost use Rattle.client_core.specs.Sides.{IsSide, no_view, place_of, side_view, sides_view};
ghost use Rattle.client_core.specs.Wishes.{IsWish, wish_view};
ghost use Rattle.client_core.specs.Taking.{accepting, epoch_after, keys_after, relearnt};

use crate::keys::Keys;
use crate::sent::Sent;
use crate::start::{Owned, SideStart};
use crate::wish::{Wish, plan_decline};
use check_rules::{Asked, Known};
use fr_bytes::{Bytes, NoMemory};
use fr_digest::Dig;
use key_graph::{KeyBook, KeyTree, leaf_key};
use msg_form::{Decline, Request, write_request};
use op_types::{Kind, Leaf, Op, View, laws};
use pad_wrap::pad;
use signed_ops::view_copy;
use std::alloc::Global;

/// What a client keeps of a wall: what it knows and has accepted of it, the accepted view, the keys, and the number of the
/// user's next operation.
#[derive(Drop)]
pub(crate) struct Side {
    pub(crate) known: Known,
    pub(crate) view: View,
    pub(crate) keys: Keys,
    pub(crate) next: u32,
}

/// The place of the side of a wall among these; without one, how many there are.
pub(crate) fn place_of(sides: &[Side], wall: u32) -> usize
    ensures { result ≡ place_of wall (sides_view sides.now) }
{
    for (i, side) in sides.iter().enumerate() {
        if side.known.wall == wall {
            return i;
        }
    }
    sides.len()
}

// The epoch after the last of these leaves.
fn epoch_after(epoch: u64, leaves: &[Leaf]) -> u64
    ensures { result ≡ epoch_after epoch leaves.now }
{
    let mut last = epoch;
    for leaf in leaves {
        last = leaf.epoch;
    }
    last
}

// How many of these leaves change the access list.
fn changes_among(leaves: &[Leaf]) -> u64
    ensures value { result ≡ length (changes_of leaves.now) }
    ensures few { result ≤ length leaves.now }
{
    let mut count = 0;
    for leaf in leaves {
        if leaf.op.kind.is_change() {
            count += 1;
        }
    }
    count
}

// Whether so many and so many more are as many as this.
fn adds_up(held: u64, shown: u64, all: u64) -> bool
    ensures { result ≡ nat_eq (held + shown) all }
{
    held.checked_add(shown) == Some(all)
}

// A text under a root key, as a post of this author and number has it.
fn padded_copy(
    alloc: Global,
    key: &Dig,
    author: u32,
    seq: u32,
    text: &[u8],
) -> Result<Bytes, NoMemory>
    requires { length text.now ≤ BODY_BYTES_MAX }
    ensures value { IfOk result (λ body. body ≡ padded key.now (post_stream author seq) text.now) }
    ensures limited { IfOk result (IsLimited BODY_BYTES_MAX) }
{
    let mut body = Vec::from_slice(alloc, text)?;
    let stream = u64::from(author) * 0x1_0000_0000 + u64::from(seq);
    pad(key, stream, &mut body);
    laws::slices_of_bytes(&body);
    Ok(Bytes::of(body))
}

// The keys of no change: the owner's, or those of another user.
fn opening_keys(
    alloc: Global,
    user: u32,
    wall: u32,
    depth: u8,
    secret: &Dig,
    owned: Option<Owned>,
) -> Result<Keys, NoMemory>
    requires { (1 ≤ depth) × (depth ≤ 6) }
    ensures { IfOk result (λ keys. keys_view keys ≡ opening_keys user wall depth secret.now owned) }
{
    match owned {
        Some(owned) => {
            let master = owned.master;
            let tree = KeyTree::make(alloc, wall, depth, master)?;
            let secrets = owned.secrets;
            Ok(Keys::Owner { tree, secrets })
        }
        None => {
            let leaf = leaf_key(secret, wall, user);
            Ok(Keys::Member(KeyBook::make(alloc, wall, depth, user, leaf)?))
        }
    }
}

// The view of nothing. Takes no memory.
#[tactic(auto, unfolding(op_types::specs::Spelling::no_root))]
fn no_view(alloc: Global, wall: u32) -> View
    ensures value { result ≡ no_view wall }
    ensures spelled { IsView wall result }
{
    View {
        wall,
        size: 0,
        root: [0; 32],
        sig: Bytes::of(Vec::new(alloc)),
    }
}

// The request for the changes of the access list of a wall at a size.
fn request_keys(alloc: Global, wall: u32, size: u64) -> Result<Bytes, NoMemory>
    ensures { IfOk result (λ bytes. bytes ≡ request_text (requests.Keys wall size)) }
{
    write_request(alloc, &Request::Keys { wall, size })
}

// An operation without a signature. Takes no memory.
fn unsigned(
    alloc: Global,
    wall: u32,
    author: u32,
    seq: u32,
    epoch: u64,
    view: View,
    kind: Kind,
) -> Op
    requires number { seq ≤ SEQ_MAX }
    requires view { IsView wall view }
    requires kind { IsKind kind }
    ensures value { result ≡ record {
      wall = wall;
      author = author;
      seq = seq;
      epoch = epoch;
      view = view;
      kind =
          kind;
      sig = [];
    } }
    ensures is_op { IsOp result }
{
    Op {
        wall,
        author,
        seq,
        epoch,
        view,
        kind,
        sig: Bytes::of(Vec::new(alloc)),
    }
}

impl Side {
    /// The side of which a user has accepted nothing.
    pub(crate) fn make(alloc: Global, user: u32, start: SideStart) -> Result<Side, NoMemory>
        requires few { start.known.f ≤ 31 }
        requires size { start.known.size ≡ 0 }
        requires depth { (1 ≤ start.depth) × (start.depth ≤ 6) }
        ensures side { IfOk result (λ side. side_view side ≡ opening_side user start) }
        ensures is_side { IfOk result (λ side. IsSide (side_view side)) }
    {
        let SideStart {
            known,
            depth,
            secret,
            owned,
        } = start;
        let wall = known.wall;
        Ok(Side {
            keys: opening_keys(alloc, user, wall, depth, &secret, owned)?,
            view: no_view(alloc, wall),
            known,
            next: 0,
        })
    }

    /// The request to see the wall: all that is new where `whole`, else at least the last of it.
    pub(crate) fn look(&self, alloc: Global, whole: bool) -> Result<Sent, NoMemory>
        ensures sent { IfOk result (λ sent. sent ≡ look_sent (side_view self.now) whole) }
        ensures spelled { OnOk result (IsRequest (requests.Look self.now.known.wall self.now.known.size whole)) }
    {
        let wall = self.known.wall;
        let have = self.known.size;
        let request = Request::Look { wall, have, whole };
        Ok(Sent {
            request: write_request(alloc, &request)?,
            wall,
            asked: Asked::Look,
            signed: None,
        })
    }

    /// The request for the changes of the access list.
    pub(crate) fn keys_request(&self, alloc: Global) -> Result<Bytes, NoMemory>
        ensures { IfOk result (SpellsRequest (requests.Keys self.now.known.wall self.now.known.size)) }
    {
        request_keys(alloc, self.known.wall, self.known.size)
    }

    /// Whether fewer changes are held than there are.
    pub(crate) fn needs_keys(&self) -> bool
        ensures { result ≡ nat_lt (held (keys_view self.now.keys)) self.now.known.epoch }
    {
        self.keys.held() < self.known.epoch
    }

    /// The post of a text, under the root key of the accepted epoch.
    ///
    /// # Errors
    /// `NotMember` exactly where that key isn't held; `NoMemory`.
    #[tactic(auto, unfolding(crate::specs::Asking::posted))]
    pub(crate) fn post(&self, alloc: Global, user: u32, text: &[u8]) -> Result<Kind, Decline>
        requires { length text.now ≤ BODY_BYTES_MAX }
        ensures posted { IfOk result (λ kind. posted user (side_view self.now) text.now ≡ Ok kind) }
        ensures kind { IfOk result IsKind }
        ensures declined { IfErr result (λ d. d ≢ declines.NoMemory → posted user (side_view self.now) text.now
            ≡ Err d) }
    {
        let Some(key) = self.keys.root_key(self.known.epoch) else {
            return Err(Decline::NotMember);
        };
        match padded_copy(alloc, &key, user, self.next, text) {
            Ok(body) => Ok(Kind::Post { body }),
            Err(NoMemory) => Err(Decline::NoMemory),
        }
    }

    /// The change of the access list that a user wishes, with the slot and the wraps that the owner's tree plans for it.
    ///
    /// # Errors
    /// In this order: `NotOwner` where the keys aren't the owner's; `NotMember` where fewer changes are held than there are;
    /// `AlreadyIn` and `NotIn`, also where it is about the owner; `NoSlot`; `NoMemory`.
    #[tactic(auto, unfolding(crate::specs::Asking::changed))]
    pub(crate) fn change(&self, wish: Wish) -> Result<Kind, Decline>
        requires number { self.now.next ≤ SEQ_MAX }
        requires wish { IsWish (wish_view wish) }
        ensures changed { IfOk result (λ kind. changed (side_view self.now) (wish_view wish) ≡ Ok kind) }
        ensures kind { IfOk result IsKind }
        ensures declined { IfErr result (λ d. d ≢ declines.NoMemory
            → changed (side_view self.now) (wish_view wish) ≡ Err d) }
    {
        let Keys::Owner { tree, secrets } = &self.keys else {
            return Err(Decline::NotOwner);
        };
        if self.needs_keys() {
            return Err(Decline::NotMember);
        }
        if wish.whom() == self.known.owner {
            return Err(wish.owner_decline());
        }
        match tree.plan(self.next + 1, wish.key_change(tree, secrets)) {
            Ok((slot, wraps)) => Ok(wish.kind(slot, wraps)),
            Err(refusal) => Err(plan_decline(refusal)),
        }
    }

    /// The text that an operation posts, where the root key of its epoch is held.
    #[tactic(auto, unfolding(crate::specs::Asking::read_by))]
    pub(crate) fn read_body(&self, alloc: Global, op: &Op) -> Result<Option<Bytes>, NoMemory>
        requires { IsOp op.now }
        ensures { IfOk result (λ text. text ≡ read_by (side_view self.now) op.now) }
    {
        let Kind::Post { body } = &op.kind else {
            return Ok(None);
        };
        let Some(key) = self.keys.root_key(op.epoch) else {
            return Ok(None);
        };
        let text = padded_copy(alloc, &key, op.author, op.seq, body.as_slice())?;
        Ok(Some(text))
    }

    /// Learns changes in the place of all that are held. On want of memory the side is as before.
    pub(crate) fn relearn(&mut self, changes: &[Op]) -> Result<(), NoMemory>
        requires { AllByRecursion IsNumbered changes.now }
        ensures learnt { OnOk result (side_view self.new ≡ relearnt (side_view self.old) changes.now) }
        ensures unchanged { OnErr result (side_view self.new ≡ side_view self.old) }
    {
        self.keys = self.keys.fresh()?.learning(changes)?;
        Ok(())
    }

    /// An operation that isn't signed: the next number, and the accepted epoch and view.
    pub(crate) fn unsigned(&self, alloc: Global, user: u32, kind: Kind) -> Result<Op, NoMemory>
        requires side { IsSide (side_view self.now) }
        requires number { self.now.next ≤ SEQ_MAX }
        requires kind { IsKind kind }
        ensures value { IfOk result (λ op. op ≡ unsigned user (side_view self.now) kind) }
        ensures is_op { IfOk result IsOp }
    {
        let view = view_copy(&self.view)?;
        Ok(unsigned(
            alloc,
            self.known.wall,
            user,
            self.next,
            self.known.epoch,
            view,
            kind,
        ))
    }

    // The keys after the changes among these leaves, where there are some and they and those that are held are all up to
    // the epoch; else the keys stay.
    #[tactic(auto, unfolding(crate::specs::Taking::keys_after))]
    fn keys_after(&self, epoch: u64, leaves: &[Leaf]) -> Result<Option<Keys>, NoMemory>
        requires { AllByRecursion IsLeaf leaves.now }
        ensures { IfOk result (λ keys. keys_or (keys_view self.now.keys) keys
            ≡ keys_after (keys_view self.now.keys) epoch leaves.now) }
    {
        let shown = changes_among(leaves);
        if !adds_up(self.keys.held(), shown, epoch) {
            return Ok(None);
        }
        if shown == 0 {
            return Ok(None);
        }
        Ok(Some(self.keys.copy()?.learning_shown(leaves)?))
    }

    /// What the leaves of a reply make of the epoch and the keys, before they are accepted.
    pub(crate) fn ready(&self, leaves: &[Leaf]) -> Result<Readied, NoMemory>
        requires { AllByRecursion IsLeaf leaves.now }
        ensures epoch { IfOk result (λ r. r.epoch ≡ epoch_after self.now.known.epoch leaves.now) }
        ensures keys { IfOk result (λ r. keys_or (keys_view self.now.keys) r.keys
            ≡ keys_after (keys_view self.now.keys) r.epoch leaves.now) }
    {
        let epoch = epoch_after(self.known.epoch, leaves);
        let keys = self.keys_after(epoch, leaves)?;
        Ok(Readied { epoch, keys })
    }

    /// Accepts a view, with the epoch and the keys after it. Takes no memory.
    pub(crate) fn accept(&mut self, view: View, readied: Readied)
        ensures { side_view self.new ≡ accepting (side_view self.old) view readied.epoch (keys_or
            (keys_view self.old.keys) readied.keys) }
    {
        let Readied { epoch, keys } = readied;
        self.known.size = view.size;
        let root = view.root;
        self.known.root = root;
        self.known.epoch = epoch;
        self.view = view;
        if let Some(keys) = keys {
            self.keys = keys;
        }
    }
}

/// The epoch after a reply's leaves, and the keys where they change.
#[derive(Drop)]
pub(crate) struct Readied {
    pub(crate) epoch: u64,
    pub(crate) keys: Option<Keys>,
}
