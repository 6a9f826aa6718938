ghost use Rattle.std.specs.Prelude.{◌≡◌, ◌≤◌, length, drop};
ghost use Rattle.frient_edges.specs.Output.{Spoke};

use fr_edges::Sink;

/// Writes the whole text, piece after piece, and answers `want`; or 3 where a write fails. Takes no
/// memory.
pub fn say<K: Sink>(sink: &mut K, text: &[u8], want: u8) -> u8
    ensures { Spoke (K.view sink.old) (K.view sink.new) text.now want result }
{
    let mut rest = text;
    while rest.len() > 0 {
        match sink.write(rest) {
            Ok(n) => rest = behind(rest, n),
            Err(_) => return 3,
        }
    }
    want
}

fn behind(bytes: &[u8], n: usize) -> &[u8]
    requires { n ≤ length bytes.now }
    ensures { result.now ≡ drop n bytes.now }
{
    &bytes[n..]
}
