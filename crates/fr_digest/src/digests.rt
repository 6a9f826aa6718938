ghost use Rattle.std.specs.Prelude.{◌≡◌};
ghost use Rattle.fr_bytes.specs.Bytes.{Text};
ghost use Rattle.fr_digest.specs.Digest.{Digest, IsDigest, tagged_string};

/// A digest: 32 bytes.
pub type Dig = [u8; 32];

/// A digest function on byte strings. No call takes memory or fails.
pub trait Digester {
    /// The digest of each byte string.
    ghost digest_of: { Digest };

    /// The digest of `bytes`.
    fn digest(bytes: &[u8]) -> Dig
        ensures { result ≡ digest_of bytes.now };

    /// The digest of the one string `tag || a || b`.
    fn tagged(tag: u8, a: &[u8], b: &[u8]) -> Dig
        ensures { result ≡ digest_of (tagged_string tag a.now b.now) };

    ghost has_length: { (m : Text) → IsDigest (digest_of m) };
}
