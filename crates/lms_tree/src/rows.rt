ghost use Rattle.std.specs.Prelude.{◌≡◌, ◌+◌, ◌≤◌, ◌++◌, Some, length, take};
ghost use Rattle.lms_params.specs.Parameters.{ots_row_at};
ghost use Rattle.lms_ots.specs.OneTime.{one_time_public, one_time_signature};

use lms_ots::{Dig, ots_public, ots_sign};
use lms_params::OtsRow;

// The public value of leaf `q`, by a row of the table.
pub(crate) fn public_value(row: OtsRow, id: &[u8; 16], q: u32, private: &Dig) -> Dig
    requires { ots_row_at row.code ≡ Some row }
    ensures { result ≡ one_time_public row id.now q private.now }
{
    macro_rules! by_row {
        ($code:literal, $w:literal, $p:literal, $ls:literal) => {
            ots_public::<$code, $w, $p, $ls>(id, q, private)
        };
    }
    lms_params::match_row!(row.code, by_row(), unreachable!())
}

// Writes the one-time signature of leaf `q` into `out` from byte 4 on, by a row of the table.
pub(crate) fn write_one_time(
    row: OtsRow,
    id: &[u8; 16],
    q: u32,
    private: &Dig,
    message: &[u8],
    out: &mut [u8],
)
    requires listed { ots_row_at row.code ≡ Some row }
    requires room { 4 + row.sig_len ≤ length out.old }
    ensures before { take 4 out.new ≡ take 4 out.old }
    ensures through { take (4 + row.sig_len) out.new
        ≡ take 4 out.old ++ one_time_signature row id.now q private.now message.now }
{
    let out = &mut out[4..4 + row.sig_len as usize];
    macro_rules! by_row {
        ($code:literal, $w:literal, $p:literal, $ls:literal) => {
            ots_sign::<$code, $w, $p, $ls>(id, q, private, message, out)
        };
    }
    lms_params::match_row!(row.code, by_row(), unreachable!())
}
