ghost use Rattle.std.specs.Prelude.{◌≡◌, codes, map};
ghost use Rattle.script_form.specs.Refused.{refused_line};
ghost use Rattle.frient_script.specs.Choice.{Chooses, GivesScript, IsScriptOf, SaysLine};
ghost use Rattle.script_read.specs.declared.refusal.ScriptRefusal.TheVariants.{Field};
ghost use Rattle.frient_script.specs.declared.choice.Unchosen.TheVariants as unchosen;

use crate::generated::generated_law;
use fr_bytes::{Bytes, NoMemory, ReadRefusal};
use fr_edges::Source;
use frient_edges::{InputEnd, read_input};
use frient_words::{Wish, read_words};
use script_form::{generated, refusal_line};
use script_read::{Script, ScriptRefusal, limits_law, read_script};
use std::alloc::Global;

/// In what form a run is told.
#[derive(Clone, Copy, Debug, PartialEq, Eq)]
pub enum Form {
    /// A line for each command, and one for each position that it shows.
    Report,
    /// Counts of the commands.
    Summary,
}

/// A script, which is within the limits of scripts and has no tamper lines, and the form in which its run is told.
#[derive(Debug, Drop)]
pub struct Chosen {
    pub script: Script,
    pub form: Form,
}

/// Why there is no script.
#[derive(Debug, Drop)]
pub enum Unchosen {
    /// The words or the bytes of the source are refused: the line that says why.
    Refused { line: Bytes },
    /// A read of the source failed.
    Unread,
    /// An allocation was refused.
    NoMemory,
}

impl From<NoMemory> for Unchosen {
    ghost from_gives = { λ _ e. e ≡ unchosen.NoMemory };

    fn from(_refused: NoMemory) -> Unchosen {
        Unchosen::NoMemory
    }
}

/// The script that the words behind the program's name ask for. `run` is the script that the source holds, whose run is
/// told by a report; `run --number N` is the generated one of that number, whose run is told by a summary. For that
/// one the source isn't read.
///
/// # Errors
/// `Refused` where the words are no such words, the source's bytes are no script, or the script has tamper lines;
/// `Unread` where a read fails; `NoMemory`.
pub fn choose<S: Source>(alloc: Global, words: &[&str], source: &mut S) -> Result<Chosen, Unchosen>
    ensures { Chooses (map (λ w. w.now) words.now) (S.view source.old) (S.view source.new) result }
{
    match read_words(alloc, words) {
        Ok(Wish::Script) => Ok(Chosen {
            script: script_in(alloc, source)?,
            form: Form::Report,
        }),
        Ok(Wish::Generated { number }) => {
            generated_law(number);
            Ok(Chosen {
                script: generated(alloc, number)?,
                form: Form::Summary,
            })
        }
        Err(ReadRefusal::NotForm) => Err(refused_words(alloc)),
        Err(ReadRefusal::NoMemory) => Err(Unchosen::NoMemory),
    }
}

fn refused_words(alloc: Global) -> Unchosen
    ensures { SaysLine (codes "refused words\n") result }
{
    match b"refused words\n".as_slice().to_vec(alloc) {
        Ok(line) => Unchosen::Refused {
            line: Bytes::of(line),
        },
        Err(_) => Unchosen::NoMemory,
    }
}

// The script of the source.
fn script_in<S: Source>(alloc: Global, source: &mut S) -> Result<Script, Unchosen>
    ensures { GivesScript (S.view source.old) (S.view source.new) result }
{
    match read_input(alloc, source) {
        Ok(bytes) => script_of(alloc, bytes.as_slice()),
        Err(InputEnd::Failed) => Err(Unchosen::Unread),
        Err(InputEnd::NoMemory) => Err(Unchosen::NoMemory),
    }
}

// The script that the bytes spell.
fn script_of(alloc: Global, bytes: &[u8]) -> Result<Script, Unchosen>
    ensures { IsScriptOf bytes.now result }
{
    match read_script(alloc, bytes) {
        Ok(script) if script.tamper.len() > 0 => Err(tampering(alloc)),
        Ok(script) => {
            limits_law(bytes, &script);
            Ok(script)
        }
        Err(ScriptRefusal::NoMemory) => Err(Unchosen::NoMemory),
        Err(refusal) => Err(refused(alloc, &refusal)),
    }
}

// Tampering is no part of a run.
fn tampering(alloc: Global) -> Unchosen
    ensures { SaysLine (refused_line (Field (codes "tamper"))) result }
{
    match b"tamper".as_slice().to_vec(alloc) {
        Ok(name) => refused(
            alloc,
            &ScriptRefusal::Field {
                name: Bytes::of(name),
            },
        ),
        Err(_) => Unchosen::NoMemory,
    }
}

fn refused(alloc: Global, refusal: &ScriptRefusal) -> Unchosen
    ensures { SaysLine (refused_line refusal.now) result }
{
    match refusal_line(alloc, refusal) {
        Ok(line) => Unchosen::Refused { line },
        Err(NoMemory) => Unchosen::NoMemory,
    }
}
