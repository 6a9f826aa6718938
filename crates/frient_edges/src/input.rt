ghost use Rattle.std.specs.Prelude.{◌≡◌, ◌≤◌, ◌<◌, IfOk, length};
ghost use Rattle.frient_edges.specs.Input.{Reads, ReadsPiece};

use fr_bytes::Bytes;
use fr_edges::Source;
use std::alloc::Global;

/// How many bytes a script has at most.
pub const SCRIPT_MAX: usize = 4_194_304;

const CHUNK: usize = 4096;

/// Why a source gives no bytes.
#[derive(Clone, Copy, Debug, PartialEq, Eq)]
pub enum InputEnd {
    /// A read failed: the count of faults of the source has risen.
    Failed,
    /// An allocation was refused.
    NoMemory,
}

/// All that the source holds, or [`SCRIPT_MAX`] + 1 bytes where it holds more than a script may have.
///
/// # Errors
/// `Failed` where a read fails, and `NoMemory`.
pub fn read_input<S: Source>(alloc: Global, source: &mut S) -> Result<Bytes, InputEnd>
    ensures { Reads (S.view source.old) (S.view source.new) result }
{
    let mut bytes = Vec::new(alloc);
    let mut chunk = [0; CHUNK];
    while bytes.len() <= SCRIPT_MAX {
        let room = CHUNK.min(SCRIPT_MAX + 1 - bytes.len());
        if read_piece(source, &mut chunk[..room], &mut bytes)? == 0 {
            return Ok(Bytes::of(bytes));
        }
    }
    Ok(Bytes::of(bytes))
}

// Reads once into `chunk` and appends what was read.
fn read_piece<S: Source>(
    source: &mut S,
    chunk: &mut [u8],
    bytes: &mut Vec<u8>,
) -> Result<usize, InputEnd>
    requires { 0 < length chunk.old }
    ensures { ReadsPiece (S.view source.old) (S.view source.new) (length chunk.old) bytes.old.items bytes.new.items result }
{
    match source.read(chunk) {
        Err(_) => Err(InputEnd::Failed),
        Ok(n) => match bytes.extend_from_slice(&chunk[..n]) {
            Ok(()) => Ok(n),
            Err(_) => Err(InputEnd::NoMemory),
        },
    }
}
