ghost use Rattle.std.specs.Prelude.{◌≡◌, ◌++◌, IfOk, OnOk};
ghost use Rattle.script_form.specs.Report.{labelled};
ghost use Rattle.script_form.specs.Refused.{listed_text, refusal_text, refused_line};

use crate::put::put_number;
use fr_bytes::{Bytes, NoMemory, put_bytes};
use script_read::{Listed, ScriptRefusal};
use std::alloc::Global;

fn listed_text(what: Listed) -> &'static str
    ensures { result.now ≡ listed_text what }
{
    match what {
        Listed::User => "Unknown user ",
        Listed::Wall => "Unknown wall ",
    }
}

/// Appends a number behind its label.
fn put_labelled(alloc: Global, out: &mut Vec<u8>, label: &str, n: u32) -> Result<(), NoMemory>
    ensures { OnOk result (out.new.items ≡ out.old.items ++ labelled label.now n) }
{
    let mut text = String::new(alloc);
    put_number(&mut text, label, u64::from(n))?;
    put_bytes(out, text.as_bytes())
}

#[tactic(auto, unfolding(crate::specs::Refused::refusal_text))]
fn put_refusal(alloc: Global, out: &mut Vec<u8>, refusal: &ScriptRefusal) -> Result<(), NoMemory>
    ensures { OnOk result (out.new.items ≡ out.old.items ++ refusal_text refusal.now) }
{
    match refusal {
        ScriptRefusal::NotJson => put_bytes(out, b"NotJson")?,
        ScriptRefusal::Field { name } => {
            put_bytes(out, b"Field ")?;
            put_bytes(out, name.as_slice())?;
        }
        ScriptRefusal::Limit { name } => {
            put_bytes(out, b"Limit ")?;
            put_bytes(out, name.as_slice())?;
        }
        ScriptRefusal::Unknown { what, number } => {
            put_labelled(alloc, out, listed_text(*what), *number)?;
        }
        ScriptRefusal::TooManyWrites { user } => {
            put_labelled(alloc, out, "TooManyWrites ", *user)?;
        }
        ScriptRefusal::NoMemory => put_bytes(out, b"NoMemory")?,
    }
    Ok(())
}

/// The line that is written where a script is refused: the refusal's name with the name of its key, or
/// with the number of the user or the wall. `NoMemory` comes where an allocation is refused.
#[tactic(auto, unfolding(crate::specs::Refused::refused_line))]
pub fn refusal_line(alloc: Global, refusal: &ScriptRefusal) -> Result<Bytes, NoMemory>
    ensures { IfOk result (λ line. line ≡ refused_line refusal.now) }
{
    let mut out = Vec::new(alloc);
    put_bytes(&mut out, b"refused script ")?;
    put_refusal(alloc, &mut out, refusal)?;
    put_bytes(&mut out, b"\n")?;
    Ok(Bytes::of(out))
}
