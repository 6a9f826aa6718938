ghost use Rattle.std.specs.Prelude.{◌≡◌, ◌≢◌, ◌↔◌, None, Some, IfOk, length};
ghost use Rattle.lms_params.specs.Parameters.{IsListed};
ghost use Rattle.lms_tree.specs.Valid.{Key, key_at, key_bytes};

use fr_bytes::Sequence;
use lms_ots::{Dig, number_at, write_at};
use lms_params::{Pair, pair_of};
use std::marker::Model;
use thiserror::Error;

/// Why bytes are no public key.
#[derive(Clone, Copy, Debug, PartialEq, Eq, Drop, Error)]
pub enum KeyRefusal {
    /// They are not 56.
    #[error("a public key has 56 bytes")]
    Length,
    /// Their two typecodes are no pair of the tables.
    #[error("the two typecodes of a public key are no pair of the tables")]
    UnknownCode,
}

/// An LMS public key (RFC 8554, section 5.3): a pair of parameter sets, the identifier of the tree
/// and its root. The pair is always one of the twenty.
#[derive(Clone, Copy, Debug, PartialEq, Eq)]
pub struct PublicKey {
    pub(crate) pair: Pair,
    pub(crate) id: [u8; 16],
    pub(crate) root: Dig,
}

impl Model for PublicKey {
    ghost use Rattle.lms_tree.specs.Valid.{Key};
    ghost use Rattle.lms_params.specs.Parameters.{IsListed};

    ghost Value = { Key };

    ghost view = { λ k. record { pair = k.pair; id = k.id; root = k.root } };

    ghost invariant = { λ k. IsListed k.pair };

    ghost inverse = { λ k. record { pair = k.pair; id = k.id; root = k.root } };
}

/// Public keys by user, the users rising.
pub type UserKeys = Sequence<(u32, PublicKey)>;

impl PublicKey {
    /// The public key that 56 bytes are.
    ///
    /// # Errors
    /// In this order: `Length` where there are not 56 bytes, `UnknownCode` where the tables have no
    /// pair of the two typecodes.
    pub fn read(bytes: &[u8]) -> Result<PublicKey, KeyRefusal>
        ensures length { length bytes.now ≢ 56 → result ≡ Err KeyRefusal.Length }
        ensures unknown { length bytes.now ≡ 56 → key_at bytes.now ≡ None → result ≡ Err KeyRefusal.UnknownCode }
        ensures key { (key : Key) → length bytes.now ≡ 56 → key_at bytes.now ≡ Some key → result ≡ Ok key }
        ensures spelled { IfOk result (λ key. bytes.now ≡ key_bytes key) }
        ensures listed { IfOk result (λ key. IsListed key.pair) }
    {
        if bytes.len() != 56 {
            return Err(KeyRefusal::Length);
        }
        let Some(pair) = pair_of(number_at(bytes, 0), number_at(bytes, 4)) else {
            return Err(KeyRefusal::UnknownCode);
        };
        let mut id = [0; 16];
        id.copy_from_slice(&bytes[8..24]);
        let mut root = [0; 32];
        root.copy_from_slice(&bytes[24..56]);
        Ok(PublicKey { pair, id, root })
    }

    /// The 56 bytes of the key: both typecodes, the identifier and the root. [`PublicKey::read`] of them
    /// is the key.
    pub fn write(&self) -> [u8; 56]
        ensures bytes { result ≡ key_bytes self.now }
        ensures read { key_at result ≡ Some self.now }
        ensures listed { IsListed self.now.pair }
    {
        let mut out = [0; 56];
        write_at(&mut out, 0, &self.pair.lms.code.to_be_bytes());
        write_at(&mut out, 4, &self.pair.ots.code.to_be_bytes());
        write_at(&mut out, 8, &self.id);
        write_at(&mut out, 24, &self.root);
        out
    }
}
