ghost use Rattle.std.specs.Prelude.{◌≡◌, ◌≢◌, ◌+◌, ◌*◌, length};
ghost use Rattle.lms_params.specs.Parameters.{IsOtsRow, ots_row};
ghost use Rattle.lms_ots.specs.Digits.{number_at};
ghost use Rattle.lms_ots.specs.OneTime.{candidate_element, candidate_key, public_of};

use crate::bytes::number_at;
use crate::chain::{element, input_of, run_chain, start_chain};
use crate::coefficients::{Dig, digits, top_digit};
use crate::hashes::{PUBLIC_KEY, hasher_of, message_hash};
use sha2::Digest;
use thiserror::Error;

/// Why bytes are no one-time signature of a row.
#[derive(Clone, Copy, Debug, PartialEq, Eq, Drop, Error)]
pub enum OtsRefusal {
    /// They are not as many as the row's signatures have.
    #[error("a one-time signature of {found} bytes, where its row has {needed}")]
    Length { found: usize, needed: usize },
    /// Their typecode is not the row's.
    #[error("a one-time signature of typecode {found}, where the row has {needed}")]
    Code { found: u32, needed: u32 },
}

// The candidate of a hash, and of a signature's elements continued to the ends of their chains.
fn candidate_of<const CODE: u32, const W: u32, const P: usize, const LS: u32>(
    id: &[u8; 16],
    q: u32,
    hash: &Dig,
    sig: &[u8],
) -> Dig
    requires row { IsOtsRow CODE W P LS }
    requires whole { length sig.now ≡ 36 + 32 * P }
    ensures { result ≡ public_of (ots_row CODE W P LS) id.now q
        (candidate_element (ots_row CODE W P LS) id.now q hash.now sig.now) }
{
    let digits = digits::<CODE, W, P, LS>(hash);
    let mut input = input_of(id, q);
    let mut hasher = hasher_of(id, q, PUBLIC_KEY);
    for i in 0..P {
        start_chain(&mut input, i as u16, &sig[36 + 32 * i..36 + 32 * i + 32]);
        run_chain(&mut input, digits[i], top_digit::<W>());
        hasher.update(element(&input));
    }
    hasher.finalize()
}

/// The candidate for the public value of leaf `q` that a signature of `message` gives (RFC 8554,
/// section 4.6, algorithm 4b): each chain is continued from its digit to its end. The signature is
/// valid under the public value that is the candidate.
///
/// # Errors
/// In this order: `Length` where `sig` hasn't the length of the row's signatures, `Code` where it
/// hasn't the row's typecode.
pub fn ots_candidate<const CODE: u32, const W: u32, const P: usize, const LS: u32>(
    id: &[u8; 16],
    q: u32,
    message: &[u8],
    sig: &[u8],
) -> Result<Dig, OtsRefusal>
    requires row { IsOtsRow CODE W P LS }

    ensures length { length sig.now ≢ (ots_row CODE W P LS).sig_len
        → result ≡ Err (OtsRefusal.Length (length sig.now) (ots_row CODE W P LS).sig_len) }
    ensures code { length sig.now ≡ (ots_row CODE W P LS).sig_len → number_at sig.now 0 ≢ CODE
        → result ≡ Err (OtsRefusal.Code (number_at sig.now 0) CODE) }
    ensures key { length sig.now ≡ (ots_row CODE W P LS).sig_len → number_at sig.now 0 ≡ CODE
        → result ≡ Ok (candidate_key (ots_row CODE W P LS) id.now q message.now sig.now) }
{
    let needed = 4 + 32 * (P + 1);
    if sig.len() != needed {
        return Err(OtsRefusal::Length {
            found: sig.len(),
            needed,
        });
    }
    let code = number_at(sig, 0);
    if code != CODE {
        return Err(OtsRefusal::Code {
            found: code,
            needed: CODE,
        });
    }
    let hash = message_hash(id, q, &sig[4..36], message);
    Ok(candidate_of::<CODE, W, P, LS>(id, q, &hash, sig))
}
