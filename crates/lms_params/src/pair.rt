ghost use Rattle.std.specs.Prelude.{◌≡◌, ◌+◌, ◌*◌, ◌≤◌, ◌↔◌, All, IsSome, IfSome};
ghost use Rattle.lms_params.specs.Parameters.{HasChecksumOnTop, HasItsLength, IsListed, ots_rows, pair_at};

/// A parameter set of the one-time signatures LM-OTS: a row of RFC 8554, section 4.1, table 1.
#[derive(Clone, Copy, Debug, PartialEq, Eq)]
pub struct OtsRow {
    /// The typecode.
    pub code: u32,
    /// The width of a digit in bits, the Winternitz parameter.
    pub w: u32,
    /// The number of elements of a signature.
    pub p: u32,
    /// The left shift of the checksum in bits.
    pub ls: u32,
    /// The length of a signature in bytes.
    pub sig_len: u32,
}

/// A parameter set of the trees of LMS: a row of RFC 8554, section 5.1, table 2.
#[derive(Clone, Copy, Debug, PartialEq, Eq)]
pub struct LmsRow {
    /// The typecode.
    pub code: u32,
    /// The height of the tree: `2^h` messages can be signed.
    pub h: u32,
}

/// What an LMS key is made for: a tree and the one-time signatures at its leaves.
#[derive(Clone, Copy, Debug, PartialEq, Eq)]
pub struct Pair {
    /// The tree.
    pub lms: LmsRow,
    /// The one-time signatures.
    pub ots: OtsRow,
}

impl Pair {
    /// The length of an LMS signature in bytes (RFC 8554, section 5.4): two numbers of four bytes,
    /// the one-time signature, and a node of 32 bytes for each level of the tree.
    pub fn sig_len(&self) -> usize
        ensures { result ≡ 8 + self.now.ots.sig_len + 32 * self.now.lms.h }
    {
        8 + self.ots.sig_len as usize + 32 * self.lms.h as usize
    }
}

/// The pair of two typecodes. `None` exactly where one of the tables has no row for its code.
pub fn pair_of(lms: u32, ots: u32) -> Option<Pair>
    ensures table { result ≡ pair_at lms ots }
    ensures codes { IsSome result ↔ ((5 ≤ lms) × (lms ≤ 9) × (1 ≤ ots) × (ots ≤ 4)) }
    ensures own { IfSome result (λ pair. (pair.lms.code ≡ lms) × (pair.ots.code ≡ ots)) }
    ensures listed { IfSome result IsListed }
{
    macro_rules! pair {
        ($lms:literal, $h:literal, $ots:literal, $w:literal, $p:literal, $ls:literal) => {
            Some(Pair {
                lms: LmsRow { code: $lms, h: $h },
                ots: OtsRow {
                    code: $ots,
                    w: $w,
                    p: $p,
                    ls: $ls,
                    sig_len: 4 + 32 * ($p + 1),
                },
            })
        };
    }
    crate::match_pair!(lms, ots, pair, None)
}

/// The laws of the LM-OTS table. In each row the digits of the checksum stand at the top of its 16
/// bits (RFC 8554, section 4.4), and a signature has four bytes for the typecode and 32 for the
/// randomizer and for each of the `p` elements (section 4.5).
pub fn table_laws()
    ensures shift { All HasChecksumOnTop ots_rows }
    ensures length { All HasItsLength ots_rows }
{}
