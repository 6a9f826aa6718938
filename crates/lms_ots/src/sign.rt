ghost use Rattle.std.specs.Prelude.{◌≡◌, ◌+◌, ◌*◌, ◌++◌, length, take};
ghost use Rattle.std.specs.List.{flat_map, range_with_len};
ghost use Rattle.lms_params.specs.Parameters.{IsOtsRow, ots_row};
ghost use Rattle.lms_ots.specs.OneTime.{one_time_public, one_time_signature, signed_element};

use crate::bytes::write_at;
use crate::chain::{derive, element, input_of, run_chain};
use crate::coefficients::{Dig, digits, top_digit};
use crate::hashes::{PUBLIC_KEY, hasher_of, message_hash};
use sha2::Digest;

// The number that stands in the place of a chain's where the randomizer is derived.
const RANDOMIZER: u16 = 0xfffd;

/// The public value K of leaf `q` (RFC 8554, section 4.3) by the row that the parameters are. The
/// private elements are derived from `private`, as in appendix A.
pub fn ots_public<const CODE: u32, const W: u32, const P: usize, const LS: u32>(
    id: &[u8; 16],
    q: u32,
    private: &Dig,
) -> Dig
    requires row { IsOtsRow CODE W P LS }
    ensures { result ≡ one_time_public (ots_row CODE W P LS) id.now q private.now }
{
    let mut input = input_of(id, q);
    let mut hasher = hasher_of(id, q, PUBLIC_KEY);
    for i in 0..P {
        derive(&mut input, i as u16, private);
        run_chain(&mut input, 0, top_digit::<W>());
        hasher.update(element(&input));
    }
    hasher.finalize()
}

// Writes the elements of a signature of `hash` behind the typecode and the randomizer.
fn sign_hash<const CODE: u32, const W: u32, const P: usize, const LS: u32>(
    id: &[u8; 16],
    q: u32,
    private: &Dig,
    hash: &Dig,
    out: &mut [u8],
)
    requires row { IsOtsRow CODE W P LS }
    requires room { length out.old ≡ 36 + 32 * P }
    ensures { out.new ≡ take 36 out.old ++ flat_map
        (signed_element (ots_row CODE W P LS) id.now q private.now hash.now) (range_with_len 0 P) }
{
    let digits = digits::<CODE, W, P, LS>(hash);
    let mut input = input_of(id, q);
    for i in 0..P {
        derive(&mut input, i as u16, private);
        run_chain(&mut input, 0, digits[i]);
        write_at(out, 36 + 32 * i, element(&input));
    }
}

/// Writes the signature of `message` by leaf `q` (RFC 8554, section 4.5) into `out`: the typecode,
/// the randomizer C and the `p` elements. The private elements and C are derived from `private`.
/// An LM-OTS key signs one message: the caller uses each leaf once.
pub fn ots_sign<const CODE: u32, const W: u32, const P: usize, const LS: u32>(
    id: &[u8; 16],
    q: u32,
    private: &Dig,
    message: &[u8],
    out: &mut [u8],
)
    requires row { IsOtsRow CODE W P LS }
    requires room { length out.old ≡ (ots_row CODE W P LS).sig_len }
    ensures { out.new
        ≡ one_time_signature (ots_row CODE W P LS) id.now q private.now message.now }
{
    let mut input = input_of(id, q);
    derive(&mut input, RANDOMIZER, private);
    let randomizer = element(&input);
    let hash = message_hash(id, q, randomizer, message);
    write_at(out, 0, &CODE.to_be_bytes());
    write_at(out, 4, randomizer);
    sign_hash::<CODE, W, P, LS>(id, q, private, &hash, out);
}
