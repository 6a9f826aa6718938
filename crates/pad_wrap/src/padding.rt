ghost use Rattle.pad_wrap.specs.Pad.{padded};
ghost use Rattle.std.specs.Prelude.{◌≡◌, ◌≤◌, length};

use fr_digest::Dig;
use rand_chacha::ChaCha20Rng;
use rand_core::SeedableRng;
use rand_core::utils::NextWord;

/// The most bytes that `pad` takes.
pub const PAD_BYTES_MAX: usize = 1_024;

/// XORs the key stream of the 32-byte `key` and of the number `stream` into `out`, which has at most 1,024 bytes.
/// The same call once more gives back what was there. Takes no memory.
///
/// The key stream is RFC 8439's ChaCha20 (section 2.4) under the nonce of four zero bytes and the eight little-endian
/// bytes of `stream`, with the block counter from 0.
pub fn pad(key: &Dig, stream: u64, out: &mut [u8])
    requires { length out.old ≤ PAD_BYTES_MAX }
    ensures { out.new ≡ padded key.now stream out.old }
{
    // `rand_chacha` numbers blocks with 64 bits where the RFC has 32 bits and the nonce's first word: its words are
    // the RFC's up to word 2^36 of a stream.
    let mut words = ChaCha20Rng::from_seed(*key);
    words.set_stream(stream);
    let mut word = [0; 4];
    for i in 0..out.len() {
        if i % 4 == 0 {
            word = words.next_word().to_le_bytes();
        }
        out[i] ^= word[i % 4];
    }
}

/// The key `plain`, wrapped under `key`: XORed with the first 32 bytes of the key stream of `key` and the number
/// `stream`. Takes no memory.
pub fn wrap32(key: &Dig, stream: u64, plain: &Dig) -> Dig
    ensures { result ≡ padded key.now stream plain.now }
{
    let mut bytes = *plain;
    pad(key, stream, &mut bytes);
    bytes
}

/// The key that `wrap32` wrapped under the same `key` and `stream`. Takes no memory.
pub fn unwrap32(key: &Dig, stream: u64, wrapped: &Dig) -> Dig
    ensures { result ≡ padded key.now stream wrapped.now }
{
    wrap32(key, stream, wrapped)
}
