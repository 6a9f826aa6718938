ghost use Rattle.std.specs.Prelude.{◌≡◌, ◌++◌, OnOk};
ghost use Rattle.std.specs.String.{string_bytes};
ghost use Rattle.hex.specs.Hex.{encode_lower};
ghost use Rattle.script_form.specs.Report.{labelled};

use fr_bytes::NoMemory;
use std::alloc::Global;
use std::fmt::Write;

/// Appends a text.
pub(crate) fn put(out: &mut String, text: &str) -> Result<(), NoMemory>
    ensures { OnOk result (string_bytes out.new ≡ string_bytes out.old ++ text.now) }
{
    out.push_str(text)?;
    Ok(())
}

/// Appends a number behind its label.
#[tactic(auto, unfolding(crate::specs::Report::labelled))]
pub(crate) fn put_number(out: &mut String, label: &str, n: u64) -> Result<(), NoMemory>
    ensures { OnOk result (string_bytes out.new ≡ string_bytes out.old ++ labelled label.now n) }
{
    write!(out, "{label}{n}")?;
    Ok(())
}

/// Appends bytes in hexadecimal.
pub(crate) fn put_hex(alloc: Global, out: &mut String, bytes: &[u8]) -> Result<(), NoMemory>
    ensures { OnOk result (string_bytes out.new ≡ string_bytes out.old ++ encode_lower bytes.now) }
{
    let digits = hex::encode(alloc, bytes)?;
    put(out, digits.as_str())
}
