ghost use Rattle.sha2.proofs.Facts256.{length-sha256};
ghost use Rattle.sha2.specs.Sha256.{sha256};

use crate::digests::{Dig, Digester};
use sha2::{Digest, Sha256};

/// SHA-256 (FIPS 180-4, section 6.2).
pub struct Sha;

impl Digester for Sha {
    ghost digest_of = { sha256 };

    ghost has_length = { length-sha256 };

    fn digest(bytes: &[u8]) -> Dig {
        Sha256::digest(bytes)
    }

    fn tagged(tag: u8, a: &[u8], b: &[u8]) -> Dig {
        let mut hasher = Sha256::new();
        hasher.update(&[tag]);
        hasher.update(a);
        hasher.update(b);
        hasher.finalize()
    }
}
