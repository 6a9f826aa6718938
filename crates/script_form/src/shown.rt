ghost use Rattle.std.specs.Prelude.{◌≡◌, ◌++◌, true, false, OnOk, MatchOption};
ghost use Rattle.std.specs.List.{flat_map, list_all};
ghost use Rattle.std.specs.String.{string_bytes};
ghost use Rattle.script_read.specs.Fields.{is_printable};
ghost use Rattle.script_form.specs.Report.{body_text, role_name, kind_text, shown_line};

use crate::outcome::{Shown, ShownKind};
use crate::put::{put, put_hex, put_number};
use fr_bytes::NoMemory;
use op_types::READER;
use script_read::is_printable_text;
use std::alloc::Global;

/// The text where each of its bytes may be printed.
fn printable(text: &[u8]) -> Option<&str>
    ensures { MatchOption result
        (list_all is_printable text.now ≡ false)
        (λ words. (list_all is_printable text.now ≡ true) × (words.now ≡ text.now)) }
{
    if is_printable_text(text) {
        str::from_utf8(text).ok()
    } else {
        None
    }
}

#[tactic(auto, unfolding(crate::specs::Report::body_text))]
fn put_body(alloc: Global, out: &mut String, body: &[u8]) -> Result<(), NoMemory>
    ensures { OnOk result (string_bytes out.new ≡ string_bytes out.old ++ body_text body.now) }
{
    match printable(body) {
        Some(words) => {
            put(out, "text ")?;
            put(out, words)?;
        }
        None => {
            put(out, "bytes ")?;
            put_hex(alloc, out, body)?;
        }
    }
    Ok(())
}

fn role_name(role: u8) -> &'static str
    ensures { result.now ≡ role_name role }
{
    if role == READER { "reader" } else { "writer" }
}

#[tactic(auto, unfolding(crate::specs::Report::kind_text))]
fn put_kind(alloc: Global, out: &mut String, kind: &ShownKind) -> Result<(), NoMemory>
    ensures { OnOk result (string_bytes out.new ≡ string_bytes out.old ++ kind_text kind.now) }
{
    match kind {
        ShownKind::Post { body } => {
            put(out, "post ")?;
            put_body(alloc, out, body.as_slice())?;
        }
        ShownKind::Unreadable => put(out, "post unreadable")?,
        ShownKind::Admit { user, role } => {
            put_number(out, "admit ", u64::from(*user))?;
            put(out, " ")?;
            put(out, role_name(*role))?;
        }
        ShownKind::Remove { user } => put_number(out, "remove ", u64::from(*user))?,
    }
    Ok(())
}

#[tactic(auto, unfolding(crate::specs::Report::shown_line))]
fn put_shown_line(alloc: Global, out: &mut String, shown: &Shown) -> Result<(), NoMemory>
    ensures { OnOk result (string_bytes out.new ≡ string_bytes out.old ++ shown_line shown.now) }
{
    put_number(out, "  ", shown.position)?;
    put_number(out, " user ", u64::from(shown.author))?;
    put(out, " ")?;
    put_kind(alloc, out, &shown.what)?;
    put(out, "\n")?;
    Ok(())
}

/// A line for each shown position.
pub(crate) fn put_shown(alloc: Global, out: &mut String, lines: &[Shown]) -> Result<(), NoMemory>
    ensures { OnOk result (string_bytes out.new ≡ string_bytes out.old ++ flat_map shown_line lines.now) }
{
    for shown in lines {
        put_shown_line(alloc, out, shown)?;
    }
    Ok(())
}
