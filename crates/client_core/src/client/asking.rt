ghost use Rattle.std.specs.Prelude.{◌≡◌, ◌≢◌, ◌≤◌, true, Some, IfOk, IfErr, OnErr, length, ◌<◌, ◌^◌};
ghost use Rattle.op_types.specs.declared.limits.TheConstants.{BODY_BYTES_MAX, SEQ_MAX};
ghost use Rattle.op_types.specs.Roles.{may_be_given};
ghost use Rattle.op_types.specs.Spelling.{IsKind};
ghost use Rattle.msg_form.specs.declared.decline.Decline.TheVariants as declines;
ghost use Rattle.client_core.specs.Asking.{admit, look, post, remove};
ghost use Rattle.client_core.specs.Clients.{client_view, Appends, Asks, Declines, IsReady, IsSendable};
ghost use Rattle.client_core.specs.Keeping.{HasKeys, IsMadeOn};
ghost use Rattle.msg_form.specs.declared.message.Request.TheVariants as requests;
ghost use Rattle.msg_form.specs.Messages.{IsRequest};
ghost use Rattle.client_core.specs.Sides.{sides_view, HasSide, IsSide, SideView, side_of, side_view};

use super::Client;
use crate::sent::Sent;
use crate::side::{Side, place_of};
use crate::signing::append;
use crate::wish::Wish;
use fr_bytes::NoMemory;
use fr_digest::Digester;
use lms_tree::Signer;
use msg_form::Decline;
use op_types::Kind;
use op_types::limits::SEQ_MAX;
use std::alloc::Global;

// Whether a number and a leaf are left for one more operation.
fn has_room(side: &Side, signer: &Signer) -> bool
    ensures room { result ≡ true → (side.now.next ≤ SEQ_MAX) × (signer.now.used < 2 ^ signer.now.pair.lms.h) }
    ensures none { side.now.next ≤ SEQ_MAX → signer.now.used < 2 ^ signer.now.pair.lms.h → result ≡ true }
{
    side.next <= SEQ_MAX && signer.left() > 0
}

impl<D: Digester> Client<D> {
    // The side of a wall that the client has one for.
    pub(super) fn side(&self, wall: u32) -> &Side
        requires { HasSide wall (sides_view self.now.sides) }
        ensures value { side_of wall (sides_view self.now.sides) ≡ Some (side_view result.now) }
        ensures is_side { IsSide (side_view result.now) }
        ensures keys { HasKeys self.now.book.user (side_view result.now) }
    {
        let place = place_of(&self.sides, wall);
        &self.sides[place]
    }

    // Adds an operation that does this to a wall, or leaves all as it is.
    fn append(&mut self, alloc: Global, wall: u32, kind: Kind) -> Result<Sent, Decline>
        requires ready { IsReady (client_view self.old) wall }
        requires kind { IsKind kind }
        requires made { (s : SideView) → side_of wall (sides_view self.old.sides) ≡ Some s
            → IsMadeOn self.old.book.user s kind }
        ensures appends { IfOk result (λ sent. Appends (client_view self.old) wall kind sent (client_view self.new)) }
        ensures spelled { IfOk result (λ sent. (s : SideView) → side_of wall (sides_view self.old.sides) ≡ Some s
            → IsSendable s.known.size sent.signed) }
        ensures declines { IfErr result (λ d. d ≡ declines.NoMemory) }
        ensures unchanged { OnErr result (client_view self.new ≡ client_view self.old) }
    {
        let place = place_of(&self.sides, wall);
        let side = &mut self.sides[place];
        match append(alloc, &mut self.signer, side, &mut self.book, kind) {
            Ok(sent) => Ok(sent),
            Err(NoMemory) => Err(Decline::NoMemory),
        }
    }

    /// Whether the client has a side for the wall, with a number for one more operation and a leaf to sign it with. Takes
    /// no memory.
    pub fn is_ready(&self, wall: u32) -> bool
        ensures ready { result ≡ true → IsReady (client_view self.now) wall }
        ensures none { IsReady (client_view self.now) wall → result ≡ true }
        ensures side { result ≡ true → HasSide wall (sides_view self.now.sides) }
    {
        let place = place_of(&self.sides, wall);
        match self.sides.get(place) {
            Some(side) => has_room(side, &self.signer),
            None => false,
        }
    }

    /// What to send, to see a wall: all that is new where `whole`, else at least the last of it. The client has a side for
    /// the wall, and stays as it is.
    ///
    /// # Errors
    /// `NoMemory`.
    pub fn look_request(&self, alloc: Global, wall: u32, whole: bool) -> Result<Sent, NoMemory>
        requires { HasSide wall (sides_view self.now.sides) }
        ensures asks { IfOk result (λ sent. Asks (client_view self.now) wall (look whole) sent (client_view self.now)) }
        ensures spelled { IfOk result (λ sent. (s : SideView) → side_of wall (sides_view self.now.sides) ≡ Some s
            → IsRequest (requests.Look s.known.wall s.known.size whole)) }
    {
        self.side(wall).look(alloc, whole)
    }

    /// What to send, to add a text of at most 1,024 bytes to a wall: an operation that the signer signs, with the text under
    /// the root key of the accepted epoch. The client has a side for the wall, a number for the operation and a leaf to
    /// sign it with.
    ///
    /// # Errors
    /// `NotMember` exactly where the client hasn't that root key; `NoMemory`. After either the client is as before.
    pub fn post_request(&mut self, alloc: Global, wall: u32, text: &[u8]) -> Result<Sent, Decline>
        requires ready { IsReady (client_view self.old) wall }
        requires text { length text.now ≤ BODY_BYTES_MAX }
        ensures asks { IfOk result (λ sent. Asks (client_view self.old) wall (post text.now) sent
            (client_view self.new)) }
        ensures spelled { IfOk result (λ sent. (s : SideView) → side_of wall (sides_view self.old.sides) ≡ Some s
            → IsSendable s.known.size sent.signed) }
        ensures declines { IfErr result (λ d. d ≢ declines.NoMemory
            → Declines (client_view self.old) wall (post text.now) d) }
        ensures unchanged { OnErr result (client_view self.new ≡ client_view self.old) }
    {
        let kind = self.side(wall).post(alloc, self.book.user, text)?;
        self.append(alloc, wall, kind)
    }

    /// What to send, to add a listed user as a reader, 1, or a writer, 2, to the access list of a wall: an operation that
    /// the signer signs, with the slot and the wraps that the owner's key tree plans for it. Else as `post_request`.
    ///
    /// # Errors
    /// In this order: `NotOwner` where the wall isn't the user's; `NotMember` where fewer changes are held than there are;
    /// `AlreadyIn` where the listed one is the owner or has a slot; `NoSlot` where every slot is taken; `NoMemory`. After
    /// each the client is as before.
    pub fn admit_request(
        &mut self,
        alloc: Global,
        wall: u32,
        user: u32,
        role: u8,
    ) -> Result<Sent, Decline>
        requires ready { IsReady (client_view self.old) wall }
        requires role { may_be_given role ≡ true }
        ensures asks { IfOk result (λ sent. Asks (client_view self.old) wall (admit user role) sent
            (client_view self.new)) }
        ensures spelled { IfOk result (λ sent. (s : SideView) → side_of wall (sides_view self.old.sides) ≡ Some s
            → IsSendable s.known.size sent.signed) }
        ensures declines { IfErr result (λ d. d ≢ declines.NoMemory
            → Declines (client_view self.old) wall (admit user role) d) }
        ensures unchanged { OnErr result (client_view self.new ≡ client_view self.old) }
    {
        let kind = self.side(wall).change(Wish::Adds { user, role })?;
        self.append(alloc, wall, kind)
    }

    /// What to send, to take a listed user from the access list of a wall. Else as `admit_request`.
    ///
    /// # Errors
    /// In this order: `NotOwner`; `NotMember`; `NotIn` where the listed one is the owner or has no slot; `NoMemory`. After
    /// each the client is as before.
    pub fn remove_request(&mut self, alloc: Global, wall: u32, user: u32) -> Result<Sent, Decline>
        requires { IsReady (client_view self.old) wall }
        ensures asks { IfOk result (λ sent. Asks (client_view self.old) wall (remove user) sent
            (client_view self.new)) }
        ensures spelled { IfOk result (λ sent. (s : SideView) → side_of wall (sides_view self.old.sides) ≡ Some s
            → IsSendable s.known.size sent.signed) }
        ensures declines { IfErr result (λ d. d ≢ declines.NoMemory
            → Declines (client_view self.old) wall (remove user) d) }
        ensures unchanged { OnErr result (client_view self.new ≡ client_view self.old) }
    {
        let kind = self.side(wall).change(Wish::Drops { user })?;
        self.append(alloc, wall, kind)
    }
}
