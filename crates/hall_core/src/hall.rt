ghost use Rattle.std.specs.Prelude.{◌≡◌, ◌++◌, ◌∷◌, [], length, slice_get, IfOk};
ghost use Rattle.std.specs.Option.{option_copied};
ghost use Rattle.lms_tree.specs.Signer.{public_of};
ghost use Rattle.hall_core.specs.PlainWall.{Gives, left_behind};
ghost use Rattle.hall_core.specs.Snapshots.{Stands};
ghost use Rattle.hall_core.specs.Standing.{IsKept};

use crate::ask::{Answer, Called};
use crate::facts::WallFacts;
use crate::slip::Slip;
use crate::snapshot::Snapshot;
use crate::wall::Wall;
use fr_bytes::NoMemory;
use fr_digest::Digester;
use hall_gate::Calls;
use lms_tree::{Signer, UserKeys};
use std::alloc::Global;
use std::marker::Model;

/// A wall and the entries of all calls. The digest of its history and of its access lists is `D`'s.
///
/// Contracts see what no call changes, the leaves, the signer of the views and the entries, the oldest first. The
/// entries are always legal, and the leaves are those that they leave.
#[derive(Drop)]
pub struct Hall<D: Digester> {
    wall: Wall<D>,
    entries: Calls<Called>,
}

impl<D: Digester> Model for Hall<D> {
    ghost use Rattle.hall_core.specs.Standing.{Hall, IsKept};

    ghost Value = { Hall };

    ghost view = { λ h. record {
      facts = h.wall.facts;
      leaves = h.wall.leaves;
      signer = h.wall.signer;
      entries =
          h.entries;
    } };

    ghost invariant = { λ h. IsKept D.digest_of h.wall.facts h.wall.leaves h.entries };
}

impl<D: Digester> Hall<D> {
    /// A wall without leaves or entries, whose views this signer signs: it has height 10, and none of its leaves is
    /// used. At most `f` of the wall's writers may be false.
    pub fn make(
        alloc: Global,
        wall: u32,
        owner: u32,
        f: u32,
        signer: Signer,
        users: UserKeys,
    ) -> Result<Hall<D>, NoMemory>
        requires tall { signer.pair.lms.h ≡ 10 }
        requires fresh { signer.used ≡ 0 }
        ensures made { IfOk result (λ h. h ≡ record {
          facts = record {
            wall = wall;
            owner = owner;
            f = f;
            server = public_of signer.private signer.id signer.pair;
            users = users;
          };
          leaves = [];
          signer = signer;
          entries = [];
        }) }
        ensures kept { IfOk result (λ h. IsKept D.digest_of h.facts h.leaves h.entries) }
    {
        let facts = WallFacts {
            wall,
            owner,
            f,
            server: signer.public(),
            users,
        };
        Ok(Hall {
            wall: Wall::make(alloc, facts, signer)?,
            entries: Calls::new(),
        })
    }

    /// Answers a call and adds its entry. An operation is added where it is the plain wall's to place; a refused one
    /// changes nothing else.
    ///
    /// The entry is written in the slip's memory. All other memory is taken first and the new view is signed last, so
    /// that want of memory, which is answered as a refusal, uses no signature.
    pub fn step(&mut self, slip: Slip) -> Answer
        ensures answer { Gives D.digest_of self.old.facts self.old.leaves slip.ask result }
        ensures entry { self.new.entries ≡ self.old.entries
            ++ record { caller = slip.caller; ask = slip.ask; answer = result } ∷ [] }
        ensures facts { self.new.facts ≡ self.old.facts }
        ensures leaves { self.new.leaves ≡ left_behind D.digest_of self.old.facts self.old.leaves slip.ask result }
        ensures signer { self.new.signer.used ≡ length self.new.leaves }
        ensures kept { IsKept D.digest_of self.new.facts self.new.leaves self.new.entries }
    {
        let (caller, ask, room) = slip.into_parts();
        let answer = self.wall.answer(&ask);
        self.wall.keeps();
        self.entries.add(
            Called {
                caller,
                ask,
                answer,
            },
            room,
        );
        answer
    }

    /// The entry at place `i`, counted from 0, the oldest first, and `None` exactly where there is none. Takes no
    /// memory.
    pub fn entry(&self, i: u64) -> Option<&Called>
        ensures found { option_copied result ≡ slice_get self.now.entries i }
        ensures kept { IsKept D.digest_of self.now.facts self.now.leaves self.now.entries }
    {
        self.entries.get(i)
    }

    /// The wall as it is now, of which no item is copied: it stands for the leaves that the entries leave.
    pub fn seen(&self) -> Result<Snapshot<D>, NoMemory>
        ensures stands { IfOk result (λ snapshot. Stands D.digest_of self.now.facts self.now.leaves snapshot) }
        ensures kept { IsKept D.digest_of self.now.facts self.now.leaves self.now.entries }
    {
        self.wall.seen()
    }
}
