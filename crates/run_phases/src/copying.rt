//! Commands that a lane gets of its own.
ghost use Rattle.std.specs.Prelude.{◌≡◌, IfOk};

use fr_bytes::{NoMemory, Sequence};
use script_form::{Command, Commands};
use std::alloc::Global;

fn copy_command(command: &Command) -> Result<Command, NoMemory>
    ensures { IfOk result (λ same. same ≡ command.now) }
{
    match command {
        Command::Post { wall, text } => Ok(Command::Post {
            wall: *wall,
            text: text.copy()?,
        }),
        Command::Read { wall } => Ok(Command::Read { wall: *wall }),
        Command::ReadAll { wall } => Ok(Command::ReadAll { wall: *wall }),
        Command::Admit { wall, user, role } => Ok(Command::Admit {
            wall: *wall,
            user: *user,
            role: *role,
        }),
        Command::Remove { wall, user } => Ok(Command::Remove {
            wall: *wall,
            user: *user,
        }),
    }
}

/// The same commands.
pub(crate) fn copy_commands(alloc: Global, commands: &Commands) -> Result<Commands, NoMemory>
    ensures { IfOk result (λ same. same ≡ commands.now) }
{
    let mut copies = Vec::new(alloc);
    for command in commands.as_slice() {
        copies.push(copy_command(command)?)?;
    }
    Ok(Sequence::of(copies))
}
