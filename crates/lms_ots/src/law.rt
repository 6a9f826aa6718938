ghost use Rattle.std.specs.Prelude.{◌≡◌};
ghost use Rattle.lms_params.specs.Parameters.{IsOtsRow, ots_row};
ghost use Rattle.lms_ots.specs.Digits.{AllAtLeast, digits};
ghost use Rattle.lms_ots.specs.OneTime.{candidate_key, one_time_public, one_time_signature};

use crate::coefficients::Dig;

/// The law that one-time security rests on: of two different hashes, each has a digit, the digits
/// of the checksum included, that is smaller than the other's. So nobody gets from a signature of
/// one hash to a signature of another by walking on along the chains alone.
pub fn digits_law<const CODE: u32, const W: u32, const P: usize, const LS: u32>(
    first: &Dig,
    second: &Dig,
)
    requires row { IsOtsRow CODE W P LS }
    ensures { AllAtLeast (digits (ots_row CODE W P LS) first.now) (digits (ots_row CODE W P LS) second.now)
        → first.now ≡ second.now }
{
    // The comparison brings the bytes into the proof.
    let _same = first == second;
}

/// The law of a signature: under the message that it was made for, its candidate is the public
/// value of its leaf.
pub fn signature_law<const CODE: u32, const W: u32, const P: usize, const LS: u32>(
    id: &[u8; 16],
    q: u32,
    private: &Dig,
    message: &[u8],
)
    requires row { IsOtsRow CODE W P LS }
    ensures { let row = ots_row CODE W P LS in
        let sig = one_time_signature row id.now q private.now message.now in
        candidate_key row id.now q message.now sig ≡ one_time_public row id.now q private.now }
{}
