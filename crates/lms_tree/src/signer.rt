ghost use Rattle.std.specs.Prelude.{◌≡◌, ◌↔◌, ◌⊎◌, ◌+◌, ◌-◌, ◌*◌, ◌^◌, ◌<◌, ◌≤◌, IfOk, IfErr, OnOk, OnErr, length};
ghost use Rattle.lms_params.specs.Parameters.{IsListed};
ghost use Rattle.lms_tree.specs.Signer.{public_of, signature_at};
ghost use Rattle.lms_tree.specs.Valid.{Valid};

use crate::key::PublicKey;
use crate::nodes::{tree_of, write_signature};
use crate::tree::leaves_of;
use fr_bytes::Bytes;
use lms_ots::Dig;
use lms_params::Pair;
use std::alloc::Global;
use std::marker::Model;
use thiserror::Error;

/// Why no signer was made.
#[derive(Clone, Copy, Debug, PartialEq, Eq, Drop, Error)]
pub enum MakeRefusal {
    /// The tree of the pair is higher than 10.
    #[error("a tree of height {h}, where signers have at most 10")]
    TooTall { h: u32 },
    /// An allocation was refused.
    #[error("an allocation was refused")]
    NoMemory,
}

/// Why no signature was made. No leaf was used.
#[derive(Clone, Copy, Debug, PartialEq, Eq, Drop, Error)]
pub enum SignRefusal {
    /// Each leaf of the tree has signed.
    #[error("each leaf of the tree has signed")]
    Spent,
    /// An allocation was refused.
    #[error("an allocation was refused")]
    NoMemory,
}

/// An LMS private key (RFC 8554, section 5.2) with its tree: it signs with the leaves 0, 1, 2 and so
/// on, each once. It has no clone, since two of them would use leaves twice.
///
/// Contracts see its secret seed, its identifier, its pair and how many leaves it has used.
#[derive(Drop)]
pub struct Signer {
    private: Dig,
    id: [u8; 16],
    pair: Pair,
    used: u32,
    // T[r] at place r.
    nodes: Vec<Dig>,
}

impl Model for Signer {
    ghost use Rattle.lms_tree.specs.Signer.{KeepsSigner, Signing};

    ghost Value = { Signing };

    ghost view = { λ s. record { private = s.private; id = s.id; pair = s.pair; used = s.used } };

    ghost invariant = { λ s. KeepsSigner s.private s.id s.pair s.used s.nodes.items };
}

impl Signer {
    /// The signer of a seed, with no leaf used. It makes the whole tree: `2^h` one-time keys.
    ///
    /// # Errors
    /// `TooTall` exactly where the tree is higher than 10; `NoMemory`.
    pub fn make(
        alloc: Global,
        private: &Dig,
        id: &[u8; 16],
        pair: Pair,
    ) -> Result<Signer, MakeRefusal>
        requires { IsListed pair }
        ensures tall { (result ≡ Err (MakeRefusal.TooTall pair.lms.h)) ↔ (10 < pair.lms.h) }
        ensures refused { IfErr result (λ e.
            (e ≡ MakeRefusal.TooTall pair.lms.h) ⊎ (e ≡ MakeRefusal.NoMemory)) }
        ensures made { IfOk result (λ s.
            s ≡ record { private = private.now; id = id.now; pair = pair; used = 0 }) }
    {
        if pair.lms.h > 10 {
            return Err(MakeRefusal::TooTall { h: pair.lms.h });
        }
        let Ok(nodes) = tree_of(alloc, private, id, pair) else {
            return Err(MakeRefusal::NoMemory);
        };
        Ok(Signer {
            private: *private,
            id: *id,
            pair,
            used: 0,
            nodes,
        })
    }

    /// The public key.
    pub fn public(&self) -> PublicKey
        ensures { result ≡ public_of self.now.private self.now.id self.now.pair }
    {
        PublicKey {
            pair: self.pair,
            id: self.id,
            root: self.nodes[1],
        }
    }

    /// How many messages can still be signed: at first `2^h`.
    pub fn left(&self) -> u32
        ensures left { result + self.now.used ≡ 2 ^ self.now.pair.lms.h }
        ensures listed { IsListed self.now.pair }
    {
        leaves_of(self.pair.lms.h) - self.used
    }

    /// How many bytes each signature has. Takes no memory.
    pub fn signature_len(&self) -> usize
        ensures { result ≡ 8 + self.now.pair.ots.sig_len + 32 * self.now.pair.lms.h }
    {
        self.pair.sig_len()
    }

    /// The signature of `message` by the next leaf, which is then used.
    ///
    /// # Errors
    /// `Spent` exactly where no leaf is left; `NoMemory`. After either all is as before.
    pub fn sign(&mut self, message: &[u8]) -> Result<Bytes, SignRefusal>
        ensures signature { IfOk result (λ sig. sig
            ≡ signature_at self.old.private self.old.id self.old.pair self.old.used message.now) }
        ensures valid { IfOk result (λ sig.
            Valid (public_of self.old.private self.old.id self.old.pair) message.now sig) }
        ensures used { OnOk result (self.new ≡ record self.old { used = self.old.used + 1 }) }
        ensures spent { (result ≡ Err SignRefusal.Spent)
            ↔ (self.old.used ≡ 2 ^ self.old.pair.lms.h) }
        ensures unchanged { OnErr result (self.new ≡ self.old) }
    {
        if self.left() == 0 {
            return Err(SignRefusal::Spent);
        }
        let index = self.used;
        let Ok(mut sig) = vec![in *self.nodes.allocator(); 0u8; self.pair.sig_len()] else {
            return Err(SignRefusal::NoMemory);
        };
        write_signature(
            &self.private,
            &self.id,
            self.pair,
            index,
            message,
            &self.nodes,
            &mut sig,
        );
        self.used = index + 1;
        Ok(Bytes::of(sig))
    }
}
