ghost use Rattle.std.specs.Prelude.{◌≡◌, ◌++◌, ◌∷◌, [], IfOk};
ghost use Rattle.text_hall.specs.TextHall.{GivesBy, LegalFrom, IsKept, left_behind, play, root_of};

use crate::call::{Call, Reply, Slip};
use fr_bytes::{Bytes, NoMemory};
use fr_digest::{Dig, Digester};
use hall_gate::{Calls, Turned};
use std::marker::PhantomData;

/// The tag of a text under the root of those before it.
const TEXT_TAG: u8 = 1;

/// A wall of texts, one after the other, and the calls that wrote them. `D` is the digest of its root.
#[derive(Drop)]
pub struct TextHall<D> {
    /// The only caller who may write an empty text. No call changes it.
    owner: u32,
    root: Dig,
    calls: Calls<Call>,
    /// Whether there is no memory left to show the wall.
    starved: bool,
    digester: PhantomData<D>,
}

impl<D: Digester> TextHall<D> {
    /// A wall without texts. Where `starved`, showing it wants memory each time.
    pub fn new(owner: u32, starved: bool) -> TextHall<D>
        ensures kept { IsKept D.digest_of result.owner result.root result.calls }
        ensures owner { result.owner ≡ owner }
        ensures fresh { result.calls ≡ [] }
    {
        TextHall {
            owner,
            root: D::digest(&[]),
            calls: Calls::new(),
            starved,
            digester: PhantomData,
        }
    }

    /// The root of all texts on the wall.
    pub fn root(&self) -> Dig
        ensures { result ≡ self.now.root }
    {
        self.root
    }

    /// The calls, oldest first.
    pub fn into_calls(self) -> Calls<Call>
        ensures { result ≡ self.calls }
    {
        let TextHall {
            owner: _,
            root: _,
            calls,
            starved: _,
            digester: _,
        } = self;
        calls
    }

    /// Answers a text, hangs it up where it may be, and keeps the call. Takes no memory.
    pub fn write(&mut self, slip: Slip) -> Reply
        ensures kept { IsKept D.digest_of self.old.owner self.old.root self.old.calls
            → IsKept D.digest_of self.new.owner self.new.root self.new.calls }
        ensures owner { self.new.owner ≡ self.old.owner }
        ensures call { self.new.calls ≡ self.old.calls
            ++ record { caller = slip.caller; text = slip.text; reply = result } ∷ [] }
    {
        let Slip { caller, text, room } = slip;
        let reply = self.hang(caller, text.as_slice());
        self.calls.add(
            Call {
                caller,
                text,
                reply,
            },
            room,
        );
        reply
    }

    // Answers a text, and hangs it up where it may be.
    fn hang(&mut self, caller: u32, text: &[u8]) -> Reply
        ensures gives { IsKept D.digest_of self.old.owner self.old.root self.old.calls
            → GivesBy D.digest_of self.old.owner (play [] self.old.calls) caller text.now result }
        ensures root { IsKept D.digest_of self.old.owner self.old.root self.old.calls
            → self.new.root ≡ root_of D.digest_of (left_behind (play [] self.old.calls) text.now result) }
        ensures same { (self.new.owner ≡ self.old.owner) × (self.new.calls ≡ self.old.calls) }
    {
        if caller != self.owner && text.is_empty() {
            return Reply::Refused;
        }
        self.root = D::tagged(TEXT_TAG, &self.root, text);
        Reply::Placed(self.root)
    }
}

impl<D: Digester> Turned for TextHall<D> {
    type Slip = Slip;

    type Answer = Reply;

    type Seen = Dig;

    type Entry = Call;

    type Ask = Bytes;

    type Fixed = u32;

    ghost valid = { λ x. IsKept D.digest_of x.owner x.root x.calls };

    ghost fixed = { λ x. x.owner };

    ghost entries = { λ x. x.calls };

    ghost legal = { λ owner calls. LegalFrom D.digest_of owner [] calls };

    ghost slip_caller = { λ slip. slip.caller };

    ghost slip_ask = { λ slip. slip.text };

    ghost caller = { λ call. call.caller };

    ghost ask = { λ call. call.text };

    ghost answer = { λ call. call.reply };

    ghost stands = { λ seen owner calls. seen ≡ root_of D.digest_of (play [] calls) };

    fn step(&mut self, slip: Slip) -> Reply {
        self.write(slip)
    }

    fn seen(&self) -> Result<Dig, NoMemory> {
        if self.starved {
            Err(NoMemory)
        } else {
            Ok(self.root)
        }
    }

    ghost always_legal = { λ x good. good.legal };
}
