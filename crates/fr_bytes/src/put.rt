ghost use Rattle.std.specs.Prelude.{◌≡◌, ◌<◌, ◌^◌, ◌++◌, ◌∷◌, [], length, OnOk, OnErr};
ghost use Rattle.std.specs.Int.{w16, w32, w64, to_be_bytes};
ghost use Rattle.fr_bytes.specs.Bytes.{counted};

use super::refusals::NoMemory;

/// Appends `v` to `out`. On want of memory `out` holds what it held.
pub fn put_bytes(out: &mut Vec<u8>, v: &[u8]) -> Result<(), NoMemory>
    ensures appended { OnOk result (out.new.items ≡ out.old.items ++ v.now) }
    ensures refused { OnErr result (out.new.items ≡ out.old.items) }
{
    out.extend_from_slice(v)?;
    Ok(())
}

/// Appends the byte `v` to `out`. On want of memory `out` holds what it held.
pub fn put_u8(out: &mut Vec<u8>, v: u8) -> Result<(), NoMemory>
    ensures appended { OnOk result (out.new.items ≡ out.old.items ++ v ∷ []) }
    ensures refused { OnErr result (out.new.items ≡ out.old.items) }
{
    put_bytes(out, &[v])
}

/// Appends the two big-endian bytes of `v` to `out`. On want of memory `out` holds what it held.
pub fn put_u16(out: &mut Vec<u8>, v: u16) -> Result<(), NoMemory>
    ensures appended { OnOk result (out.new.items ≡ out.old.items ++ to_be_bytes w16 v) }
    ensures refused { OnErr result (out.new.items ≡ out.old.items) }
{
    put_bytes(out, &v.to_be_bytes())
}

/// Appends the four big-endian bytes of `v` to `out`. On want of memory `out` holds what it held.
pub fn put_u32(out: &mut Vec<u8>, v: u32) -> Result<(), NoMemory>
    ensures appended { OnOk result (out.new.items ≡ out.old.items ++ to_be_bytes w32 v) }
    ensures refused { OnErr result (out.new.items ≡ out.old.items) }
{
    put_bytes(out, &v.to_be_bytes())
}

/// Appends the eight big-endian bytes of `v` to `out`. On want of memory `out` holds what it held.
pub fn put_u64(out: &mut Vec<u8>, v: u64) -> Result<(), NoMemory>
    ensures appended { OnOk result (out.new.items ≡ out.old.items ++ to_be_bytes w64 v) }
    ensures refused { OnErr result (out.new.items ≡ out.old.items) }
{
    put_bytes(out, &v.to_be_bytes())
}

/// Appends `v` behind its length, which has four bytes. On want of memory `out` holds what it held.
pub fn put_counted(out: &mut Vec<u8>, v: &[u8]) -> Result<(), NoMemory>
    requires { length v.now < 2 ^ 32 }
    ensures appended { OnOk result (out.new.items ≡ out.old.items ++ counted v.now) }
    ensures refused { OnErr result (out.new.items ≡ out.old.items) }
{
    let before = out.len();
    put_u32(out, v.len() as u32)?;
    let put = put_bytes(out, v);
    if put.is_err() {
        out.truncate(before);
    }
    put
}
