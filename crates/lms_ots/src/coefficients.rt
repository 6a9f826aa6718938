ghost use Rattle.std.specs.Prelude.{◌≡◌, ◌-◌, ◌*◌, ◌^◌, ◌<◌, ◌≤◌, ◌++◌, length};
ghost use Rattle.lms_params.specs.Parameters.{IsOtsRow, ots_row};
ghost use Rattle.lms_ots.specs.Digits.{IsWidth, coef, digits, shortfall, u16str};

use crate::bytes::write_at;

/// A digest of SHA-256, a node or a secret of as many bytes.
pub type Dig = [u8; 32];

// The greatest digit of W bits, which is also the number of steps of a whole chain.
#[inline(always)]
pub(crate) fn top_digit<const W: u32>() -> u8
    requires { IsWidth W }
    ensures { result ≡ 2 ^ W - 1 }
{
    u8::MAX >> (8 - W)
}

// Digit `i` of `s`, read in digits of W bits.
#[inline(always)]
fn coef<const W: u32>(s: &[u8], i: usize) -> u8
    requires width { IsWidth W }
    requires within { i * W < 8 * length s.now }
    requires short { length s.now ≤ 34 }
    ensures { result ≡ coef s.now i W }
{
    let place = i % (8 / W as usize);
    let shift = 8 - (W as usize * place + W as usize);
    ((s[i * W as usize / 8] >> shift) as u16 % (1 << W)) as u8
}

// By how much the digits of `hash` fall short of the greatest, in all.
fn shortfall<const CODE: u32, const W: u32, const P: usize, const LS: u32>(hash: &Dig) -> u16
    requires width { IsWidth W }
    ensures value { result ≡ shortfall (ots_row CODE W P LS) hash.now }
    ensures bound { result ≤ 8160 }
{
    let mut sum = 0u16;
    for i in 0..256 / W as usize {
        sum += u16::from(top_digit::<W>() - coef::<W>(hash, i));
    }
    sum
}

// The hash and its checksum, the string whose digits are signed.
#[tactic(auto, unfolding(crate::specs::Digits::u16str))]
fn with_checksum(hash: &Dig, checksum: u16) -> [u8; 34]
    ensures { result ≡ hash.now ++ u16str checksum }
{
    let mut whole = [0u8; 34];
    write_at(&mut whole, 0, hash);
    write_at(&mut whole, 32, &checksum.to_be_bytes());
    whole
}

/// The digits of a hash and its checksum (RFC 8554, sections 3.1.3, 4.4 and 4.5): how many steps
/// of each chain a signature of `q` takes, by the row of table 1 that the parameters are.
pub fn digits<const CODE: u32, const W: u32, const P: usize, const LS: u32>(q: &Dig) -> [u8; P]
    requires row { IsOtsRow CODE W P LS }
    ensures { result ≡ digits (ots_row CODE W P LS) q.now }
{
    let checksum = shortfall::<CODE, W, P, LS>(q) << LS;
    let whole = with_checksum(q, checksum);
    let mut out = [0u8; P];
    for i in 0..P {
        out[i] = coef::<W>(&whole, i);
    }
    out
}
