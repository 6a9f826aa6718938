ghost use Rattle.std.specs.Prelude.{◌≡◌, ◌+◌, ◌≤◌, ◌++◌, length, take, drop};
ghost use Rattle.lms_ots.specs.Digits.{number_at};

/// The number whose four bytes, the highest first, stand in `s` from `at` on (`strTou32` of
/// RFC 8554, section 3.1.1).
#[tactic(auto, unfolding(crate::specs::Digits::number_at))]
pub fn number_at(s: &[u8], at: usize) -> u32
    requires { at + 4 ≤ length s.now }
    ensures { result ≡ number_at s.now at }
{
    u32::from_be_bytes([s[at], s[at + 1], s[at + 2], s[at + 3]])
}

/// Writes `part` into `out` from `at` on.
#[inline(always)]
pub fn write_at(out: &mut [u8], at: usize, part: &[u8])
    requires { at + length part.now ≤ length out.old }
    ensures before { take at out.new ≡ take at out.old }
    ensures through { take (at + length part.now) out.new ≡ take at out.old ++ part.now }
    ensures last { at + length part.now ≡ length out.old → drop at out.new ≡ part.now }
{
    out[at..at + part.len()].copy_from_slice(part);
}
