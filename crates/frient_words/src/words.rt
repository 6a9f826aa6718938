ghost use Rattle.std.specs.Prelude.{IfOk, codes, map};
ghost use Rattle.clap.specs.Words.{first_value, found_of};
ghost use Rattle.frient_words.specs.Words.{IsFrient, Matches, Reads, Wishes};

use clap::error::ErrorKind;
use clap::{Arg, ArgMatches, Command};
use fr_bytes::ReadRefusal;
use std::alloc::{AllocError, Global};

/// What the words ask for.
#[derive(Clone, Copy, Debug, PartialEq, Eq)]
pub enum Wish {
    /// `run`: the run of the script that the source holds.
    Script,
    /// `run --number N`: the run of the generated script of a number. The source isn't read.
    Generated { number: u32 },
}

static VERBS: [&str; 1] = ["run"];

fn command<'a>(alloc: Global) -> Result<Command<'a>, AllocError>
    ensures { IfOk result IsFrient }
{
    let verb = Arg::new(alloc, "verb")
        .required(true)
        .value_parser(VERBS.as_slice());
    let number = Arg::new(alloc, "number").long("number");
    let nameless = Command::new(alloc, "frient").no_binary_name(true);
    nameless.arg(verb)?.arg(number)
}

// What the command makes of the words.
fn parse<'a>(command: Command<'a>, words: &'a [&'a str]) -> Result<ArgMatches<'a>, ReadRefusal>
    requires { IsFrient command }
    ensures { Matches (map (λ w. w.now) words.entry.now) result }
{
    match command.try_get_matches_from(words) {
        Ok(matches) => Ok(matches),
        Err(error) if error.kind() == ErrorKind::OutOfMemory => Err(ReadRefusal::NoMemory),
        Err(_) => Err(ReadRefusal::NotForm),
    }
}

fn matches<'a>(alloc: Global, words: &'a [&'a str]) -> Result<ArgMatches<'a>, ReadRefusal>
    ensures { Matches (map (λ w. w.now) words.entry.now) result }
{
    match command(alloc) {
        Ok(command) => parse(command, words),
        Err(AllocError) => Err(ReadRefusal::NoMemory),
    }
}

fn asked(matches: &ArgMatches<'_>) -> Result<Wish, ReadRefusal>
    ensures { Wishes (first_value (found_of matches.now) (codes "number")) result }
{
    match matches.get_str("number") {
        None => Ok(Wish::Script),
        Some(text) => match text.parse() {
            Ok(number) => Ok(Wish::Generated { number }),
            Err(_) => Err(ReadRefusal::NotForm),
        },
    }
}

/// What the words behind the program's name ask for. They are read by a command of `clap` with a value, which is
/// `run`, and an option `--number`, whose value is a number from 0 to 4,294,967,295 in decimal digits, with any zeros
/// and at most one plus before them.
///
/// # Errors
/// `NotForm` where the command finds a fault, which a request for help is too, or the option's value is no number;
/// `NoMemory`.
pub fn read_words(alloc: Global, words: &[&str]) -> Result<Wish, ReadRefusal>
    ensures { Reads (map (λ w. w.now) words.now) result }
{
    let matches = matches(alloc, words)?;
    asked(&matches)
}
