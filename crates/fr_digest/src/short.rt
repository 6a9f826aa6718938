ghost use Rattle.fr_digest.specs.Digest.{length-short_digest, short_digest};
ghost use Rattle.std.specs.Prelude.{◌≡◌, ◌∷◌, replicate, slice_index};

use crate::digests::{Dig, Digester};
use crate::sha_256::Sha;

/// The first byte of SHA-256, followed by 31 zero bytes: a digest for drills, whose collisions
/// anybody finds.
pub struct Short;

#[tactic(auto, unfolding(crate::specs::Digest::short_digest))]
impl Digester for Short {
    ghost digest_of = { short_digest };

    ghost has_length = { length-short_digest };

    fn digest(bytes: &[u8]) -> Dig {
        first_byte_alone(Sha::digest(bytes))
    }

    fn tagged(tag: u8, a: &[u8], b: &[u8]) -> Dig {
        first_byte_alone(Sha::tagged(tag, a, b))
    }
}

fn first_byte_alone(digest: Dig) -> Dig
    ensures { result ≡ slice_index digest 0 ∷ replicate 31 0 }
{
    let mut short = [0; 32];
    short[0] = digest[0];
    short
}
