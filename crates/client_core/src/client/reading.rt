ghost use Rattle.std.specs.Prelude.{◌≡◌, ◌≢◌, Some, IfOk, IfErr, OnErr, OnOk, nat_lt};
ghost use Rattle.op_types.specs.Spelling.{IsOp};
ghost use Rattle.msg_form.specs.declared.message.Request.TheVariants as requests;
ghost use Rattle.msg_form.specs.declared.verdict.Verdict.TheVariants as verdicts;
ghost use Rattle.msg_form.specs.Messages.{SpellsRequest};
ghost use Rattle.std.specs.List.{AllByRecursion};
ghost use Rattle.client_core.specs.Clients.{client_view, Learns, Relearns, RejectsKeys, read_of};
ghost use Rattle.client_core.specs.Keys.{IsNumbered, held};
ghost use Rattle.client_core.specs.Sides.{sides_view, HasSide, SideView, side_of};

use super::Client;
use crate::side::place_of;
use check_core::check_keys;
use fr_bytes::{Bytes, NoMemory};
use fr_digest::Digester;
use msg_form::Verdict;
use op_types::{Op, laws};
use std::alloc::Global;

impl<D: Digester> Client<D> {
    /// Whether the client holds fewer changes of the access list than it has accepted, of a wall that it has a side for.
    /// Takes no memory.
    pub fn needs_keys(&self, wall: u32) -> bool
        requires { HasSide wall (sides_view self.now.sides) }
        ensures { (s : SideView) → side_of wall (sides_view self.now.sides) ≡ Some s → result
            ≡ nat_lt (held s.keys) s.known.epoch }
    {
        self.side(wall).needs_keys()
    }

    /// The request for the changes of the access list of a wall that the client has a side for, up to what it has
    /// accepted.
    ///
    /// # Errors
    /// `NoMemory`.
    pub fn keys_request(&self, alloc: Global, wall: u32) -> Result<Bytes, NoMemory>
        requires { HasSide wall (sides_view self.now.sides) }
        ensures { IfOk result (λ bytes. (s : SideView) → side_of wall (sides_view self.now.sides) ≡ Some s
            → SpellsRequest (requests.Keys s.known.wall s.known.size) bytes) }
    {
        self.side(wall).keys_request(alloc)
    }

    /// Learns the changes of the access list of a wall that the client has a side for, from the bytes of a reply, in the
    /// place of all that it holds.
    ///
    /// # Errors
    /// The first verdict that applies to what the client knows and was handed; `NoMemory`. After either the client is as
    /// before.
    pub fn take_keys(&mut self, alloc: Global, wall: u32, bytes: &[u8]) -> Result<(), Verdict>
        requires { HasSide wall (sides_view self.old.sides) }
        ensures learns { OnOk result (Relearns D.digest_of (client_view self.old) wall bytes.now
            (client_view self.new)) }
        ensures rejects { IfErr result (λ v. v ≢ verdicts.NoMemory
            → RejectsKeys D.digest_of (client_view self.old) wall bytes.now v) }
        ensures unchanged { OnErr result (client_view self.new ≡ client_view self.old) }
    {
        laws::slices_of_bytes(bytes);
        let changes = check_keys::<D>(alloc, &self.side(wall).known, bytes)?;
        self.relearn(wall, changes.as_slice())
    }

    // Learns changes of the access list of a wall in the place of all that is held, or leaves all as it is.
    fn relearn(&mut self, wall: u32, changes: &[Op]) -> Result<(), Verdict>
        requires side { HasSide wall (sides_view self.old.sides) }
        requires changes { AllByRecursion IsNumbered changes.now }
        ensures learns { OnOk result (Learns (client_view self.old) wall changes.now (client_view self.new)) }
        ensures rejects { IfErr result (λ v. v ≡ verdicts.NoMemory) }
        ensures unchanged { OnErr result (client_view self.new ≡ client_view self.old) }
    {
        let place = place_of(&self.sides, wall);
        let side = &mut self.sides[place];
        match side.relearn(changes) {
            Ok(()) => Ok(()),
            Err(NoMemory) => Err(Verdict::NoMemory),
        }
    }

    /// The text that an operation posts: `None` exactly where it posts none, or where the client has no side for its wall
    /// or doesn't hold the root key of its epoch.
    ///
    /// # Errors
    /// `NoMemory`.
    pub fn read_body(&self, alloc: Global, op: &Op) -> Result<Option<Bytes>, NoMemory>
        requires { IsOp op.now }
        ensures { IfOk result (λ text. text ≡ read_of (client_view self.now) op.now) }
    {
        let place = place_of(&self.sides, op.wall);
        match self.sides.get(place) {
            Some(side) => side.read_body(alloc, op),
            None => Ok(None),
        }
    }
}
