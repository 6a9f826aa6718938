ghost use Rattle.std.specs.Prelude.{◌≡◌};
ghost use Rattle.std.specs.List.{list_all};
ghost use Rattle.script_read.specs.Fields.{is_printable};

/// Whether each byte is a space or a printed character of ASCII, from `20` to `7e`. Takes no memory.
pub fn is_printable_text(text: &[u8]) -> bool
    ensures { result ≡ list_all is_printable text.now }
{
    text.iter().all(|b| b' ' <= *b && *b <= b'~')
}
