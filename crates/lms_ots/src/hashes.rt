ghost use Rattle.std.specs.Prelude.{◌≡◌, ◌++◌};
ghost use Rattle.sha2.specs.Hashers.{Holds256};
ghost use Rattle.lms_ots.specs.Digits.{u16str, u32str};
ghost use Rattle.lms_ots.specs.OneTime.{message_hash};

use crate::coefficients::Dig;
use sha2::{Digest, Sha256};

// `D_PBLC` and `D_MESG` of RFC 8554, section 7.1: what is hashed.
pub(crate) const PUBLIC_KEY: u16 = 0x8080;

const MESSAGE: u16 = 0x8181;

/// A hasher that has taken in the identifier of a tree, a number and the kind of what follows, as
/// each hash of RFC 8554 begins that is no chain step.
#[tactic(auto, unfolding(crate::specs::Digits::u16str, crate::specs::Digits::u32str))]
pub fn hasher_of(id: &[u8; 16], number: u32, kind: u16) -> Sha256
    ensures { Holds256 result (id.now ++ u32str number ++ u16str kind) }
{
    let mut hasher = Sha256::new();
    hasher.update(id);
    hasher.update(&number.to_be_bytes());
    hasher.update(&kind.to_be_bytes());
    hasher
}

// The hash Q that is signed for a message under the randomizer `c`.
#[tactic(auto, unfolding(crate::specs::OneTime::message_hash))]
pub(crate) fn message_hash(id: &[u8; 16], q: u32, c: &[u8], message: &[u8]) -> Dig
    ensures { result ≡ message_hash id.now q c.now message.now }
{
    let mut hasher = hasher_of(id, q, MESSAGE);
    hasher.update(c);
    hasher.update(message);
    hasher.finalize()
}
