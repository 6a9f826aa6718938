//! Operations that are signed and sent. All room is taken before the signature is made, so that want of memory uses no
//! leaf and no number.
ghost use Rattle.std.specs.Prelude.{◌≡◌, ◌<◌, ◌≤◌, ◌+◌, ◌-◌, ◌*◌, ◌^◌, ◌++◌, ℕ, length, take, IfOk, IfSome, OnOk, OnErr, Some};
ghost use Rattle.fr_bytes.specs.Bytes.{IsBytes};
ghost use Rattle.fr_bytes.specs.Parts.{IsLimited};
ghost use Rattle.lms_tree.specs.Signer.{signature_at};
ghost use Rattle.op_types.specs.declared.limits.TheConstants.{SEQ_MAX, SIGNATURE_BYTES_MAX};
ghost use Rattle.op_types.specs.Spelling.{IsKind, IsOp, op_signed, op_text};
ghost use Rattle.msg_form.specs.declared.message.Request.TheVariants as requests;
ghost use Rattle.msg_form.specs.Messages.{request_text};
ghost use Rattle.signed_ops.specs.Signed.{once_more, signed_by, with_sig};
ghost use Rattle.world_book.specs.declared.book.UserBook.{UserBook};
ghost use Rattle.op_types.specs.declared.op.Op.{Op};
ghost use Rattle.client_core.specs.Asking.{sent_of, unsigned};
ghost use Rattle.client_core.specs.Clients.{IsSendable, with_signed};
ghost use Rattle.client_core.specs.Sides.{IsSide, side_view};
ghost use Rattle.client_core.specs.Signing.{IsDraft, IsRoom, IsValidNext};

use crate::sent::Sent;
use crate::side::Side;
use check_rules::Asked;
use fr_bytes::{Bytes, NoMemory};
use lms_tree::{SignRefusal, Signer};
use msg_form::{Request, write_request};
use op_types::{Kind, Op, View, laws, op_message, write_op};
use signed_ops::op_copy;
use std::alloc::Global;
use world_book::{Signed, UserBook};

// An operation with room for its signature, and the texts that will hold it: each ends with that room.
#[derive(Drop)]
struct Draft {
    have: u64,
    op: Op,
    text: Bytes,
    request: Bytes,
}

// The bytes with these at their end, in the place of as many.
fn with_end(bytes: Bytes, end: &[u8]) -> Bytes
    requires { length end.now ≤ length bytes }
    ensures { result ≡ take (length bytes - length end.now) bytes ++ end.now }
{
    let mut bytes = bytes.into_vec();
    let at = bytes.len() - end.len();
    let (_, place) = bytes.split_at_mut(at);
    place.copy_from_slice(end);
    Bytes::of(bytes)
}

// As many zero bytes as a signature has.
fn room(alloc: Global, signer: &Signer) -> Result<Bytes, NoMemory>
    ensures length { IfOk result (λ sig. length sig ≡ 8 + signer.now.pair.ots.sig_len + 32 * signer.now.pair.lms.h) }
    ensures limited { IfOk result (IsLimited SIGNATURE_BYTES_MAX) }
{
    // It brings to the proof that the signer's pair is one of the tables.
    signer.left();
    let zeros = vec![in alloc; 0u8; signer.signature_len()]?;
    laws::slices_of_bytes(&zeros);
    Ok(Bytes::of(zeros))
}

impl Draft {
    fn of(alloc: Global, have: u64, op: Op) -> Result<Draft, NoMemory>
        requires { IsOp op }
        ensures { IfOk result (λ draft. (draft.have ≡ have) × (draft.op ≡ op) × IsDraft draft) }
    {
        let text = write_op(alloc, &op)?;
        laws::slices_of_bytes(text.as_slice());
        let request = Request::Append {
            wall: op.wall,
            have,
            op: text.copy()?,
        };
        Ok(Draft {
            have,
            text,
            request: write_request(alloc, &request)?,
            op,
        })
    }

    // What is sent, with a signature in its place. Takes no memory.
    fn signed(self, sig: Bytes) -> Sent
        requires draft { IsDraft self }
        requires length { length sig ≡ length self.op.sig }
        requires bytes { IsBytes sig }
        ensures sent { result ≡ sent_of self.have (with_sig self.op sig) }
        ensures spelled { IsSendable self.have (Some (with_sig self.op sig)) }
    {
        let op = with_end(self.text, sig.as_slice());
        laws::slices_of_bytes(op.as_slice());
        Sent {
            request: with_end(self.request, sig.as_slice()),
            wall: self.op.wall,
            asked: Asked::Append { op },
            signed: Some(Op { sig, ..self.op }),
        }
    }
}

// An operation that stands for one that isn't signed yet. Takes no memory.
fn nothing(alloc: Global) -> Op {
    Op {
        wall: 0,
        author: 0,
        seq: 0,
        epoch: 0,
        view: View {
            wall: 0,
            size: 0,
            root: [0; 32],
            sig: Bytes::of(Vec::new(alloc)),
        },
        kind: Kind::Post {
            body: Bytes::of(Vec::new(alloc)),
        },
        sig: Bytes::of(Vec::new(alloc)),
    }
}

// Takes a place in an honest user's book, and a copy of the operation for it.
fn make_room(alloc: Global, book: &mut UserBook, op: &Op) -> Result<Option<Op>, NoMemory>
    ensures room { IfOk result (IsRoom book.old book.new op.now) }
    ensures unchanged { OnErr result (book.new ≡ book.old) }
{
    if book.rogue {
        return Ok(None);
    }
    let kept = op_copy(op)?;
    book.add_signed(nothing(alloc))?;
    Ok(Some(kept))
}

// Fills the place with the operation under its signature. Takes no memory.
fn fill(book: &mut UserBook, kept: Option<Op>, sig: &[u8])
    requires { IfSome kept (λ op. length sig.now ≡ length op.sig) }
    ensures { (before : UserBook) (op : Op) → IsRoom before book.old op kept → book.new
        ≡ with_signed before (with_sig op sig.now) }
{
    if let Some(kept) = kept {
        let op = with_signature(kept, sig);
        let user = book.user;
        book.signed.replace_last(Signed { user, op });
    }
}

// The operation with a signature of the length of its own in its place. Takes no memory.
fn with_signature(op: Op, sig: &[u8]) -> Op
    requires { length sig.now ≡ length op.sig }
    ensures { result ≡ with_sig op sig.now }
{
    Op {
        sig: with_end(op.sig, sig),
        ..op
    }
}

// Gives the place back.
fn give_back(book: &mut UserBook, kept: &Option<Op>)
    ensures { (before : UserBook) (op : Op) → IsRoom before book.old op kept.now → book.new ≡ before }
{
    if kept.is_some() {
        book.signed.drop_last();
    }
}

// The signature of a message by a signer that has leaves left.
fn signature(signer: &mut Signer, message: &[u8]) -> Result<Bytes, NoMemory>
    requires { signer.old.used < 2 ^ signer.old.pair.lms.h }
    ensures value { IfOk result (λ sig. sig ≡ signature_at signer.old.private signer.old.id signer.old.pair
        signer.old.used message.now) }
    ensures length { IfOk result (λ sig. length sig ≡ 8 + signer.old.pair.ots.sig_len + 32 * signer.old.pair.lms.h) }
    ensures bytes { IfOk result IsBytes }
    ensures valid { OnOk result (IsValidNext signer.old message.now) }
    ensures used { OnOk result (signer.new ≡ once_more signer.old) }
    ensures unchanged { OnErr result (signer.new ≡ signer.old) }
{
    match signer.sign(message) {
        Ok(sig) => {
            laws::slices_of_bytes(sig.as_slice());
            Ok(sig)
        }
        Err(SignRefusal::NoMemory) => Err(NoMemory),
        Err(SignRefusal::Spent) => unreachable!(),
    }
}

// Signs a draft whose message this is, or leaves all as it was.
fn sign_draft(
    alloc: Global,
    signer: &mut Signer,
    book: &mut UserBook,
    draft: Draft,
    message: &[u8],
) -> Result<Sent, NoMemory>
    requires draft { IsDraft draft }
    requires leaf { signer.old.used < 2 ^ signer.old.pair.lms.h }
    requires room { length draft.op.sig ≡ 8 + signer.old.pair.ots.sig_len + 32 * signer.old.pair.lms.h }
    ensures sent { IfOk result (λ sent. sent ≡ sent_of draft.have (with_sig draft.op
        (signature_at signer.old.private signer.old.id signer.old.pair signer.old.used message.now))) }
    ensures spelled { OnOk result (IsSendable draft.have (Some (with_sig draft.op
        (signature_at signer.old.private signer.old.id signer.old.pair signer.old.used message.now)))) }
    ensures valid { OnOk result (IsValidNext signer.old message.now) }
    ensures signer { OnOk result (signer.new ≡ once_more signer.old) }
    ensures book { OnOk result (book.new ≡ with_signed book.old (with_sig draft.op
        (signature_at signer.old.private signer.old.id signer.old.pair signer.old.used message.now))) }
    ensures same_signer { OnErr result (signer.new ≡ signer.old) }
    ensures same_book { OnErr result (book.new ≡ book.old) }
{
    let kept = make_room(alloc, book, &draft.op)?;
    let Ok(sig) = signature(signer, message) else {
        give_back(book, &kept);
        return Err(NoMemory);
    };
    fill(book, kept, sig.as_slice());
    Ok(draft.signed(sig))
}

/// Signs an operation with the signer's next leaf, puts it into the user's book, and gives what is to be sent to a server
/// of whose wall the client has accepted `have` positions. A rogue's book stays.
///
/// # Errors
/// `NoMemory`. Signer and book are then as before.
#[tactic(auto, unfolding(signed_ops::specs::Signed::signed_by))]
pub(crate) fn sign(
    alloc: Global,
    signer: &mut Signer,
    book: &mut UserBook,
    have: u64,
    op: Op,
) -> Result<Sent, NoMemory>
    requires op { IsOp op }
    requires leaf { signer.old.used < 2 ^ signer.old.pair.lms.h }
    ensures sent { IfOk result (λ sent. sent ≡ sent_of have (signed_by signer.old op)) }
    ensures spelled { OnOk result (IsSendable have (Some (signed_by signer.old op))) }
    ensures valid { OnOk result (IsValidNext signer.old (op_signed op)) }
    ensures signer { OnOk result (signer.new ≡ once_more signer.old) }
    ensures book { OnOk result (book.new ≡ with_signed book.old (signed_by signer.old op)) }
    ensures same_signer { OnErr result (signer.new ≡ signer.old) }
    ensures same_book { OnErr result (book.new ≡ book.old) }
{
    let message = op_message(alloc, &op)?;
    let op = Op {
        sig: room(alloc, signer)?,
        ..op
    };
    let draft = Draft::of(alloc, have, op)?;
    sign_draft(alloc, signer, book, draft, message.as_slice())
}

/// Adds an operation that does this to a side's wall: it is signed, and put into the user's book, and its number is used.
///
/// # Errors
/// `NoMemory`. Signer, side and book are then as before.
pub(crate) fn append(
    alloc: Global,
    signer: &mut Signer,
    side: &mut Side,
    book: &mut UserBook,
    kind: Kind,
) -> Result<Sent, NoMemory>
    requires leaf { signer.old.used < 2 ^ signer.old.pair.lms.h }
    requires side { IsSide (side_view side.old) }
    requires number { side.old.next ≤ SEQ_MAX }
    requires kind { IsKind kind }
    ensures sent { IfOk result (λ sent. sent ≡ sent_of side.old.known.size (signed_by signer.old
        (unsigned book.old.user (side_view side.old) kind))) }
    ensures spelled { OnOk result (IsSendable side.old.known.size (Some (signed_by signer.old
        (unsigned book.old.user (side_view side.old) kind)))) }
    ensures valid { OnOk result (IsValidNext signer.old (op_signed (unsigned book.old.user
        (side_view side.old) kind))) }
    ensures signer { OnOk result (signer.new ≡ once_more signer.old) }
    ensures side { OnOk result (side_view side.new ≡ record (side_view side.old) { next = side.old.next + 1 }) }
    ensures book { OnOk result (book.new ≡ with_signed book.old (signed_by signer.old (unsigned book.old.user
        (side_view side.old) kind))) }
    ensures same_signer { OnErr result (signer.new ≡ signer.old) }
    ensures same_side { OnErr result (side_view side.new ≡ side_view side.old) }
    ensures same_book { OnErr result (book.new ≡ book.old) }
{
    let op = side.unsigned(alloc, book.user, kind)?;
    let sent = sign(alloc, signer, book, side.known.size, op)?;
    side.next += 1;
    Ok(sent)
}
