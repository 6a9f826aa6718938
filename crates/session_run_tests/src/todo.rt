//! What sessions do.
ghost use Rattle.session_laws.specs.Readiness.{write_of};
ghost use Rattle.session_run_tests.specs.Todo.{AreFew, IsOn};
ghost use Rattle.std.specs.Prelude.{◌≡◌, ◌+◌, ◌<◌, ◌≤◌, IfOk};

use fr_bytes::{Bytes, Sequence};
use script_form::{Command, Commands};
use std::alloc::Global;
use std::test::Fail;

/// What a session does: so many commands, of which each `every`th posts this text, and the others read what is new.
#[derive(Clone, Copy)]
pub struct Plan {
    /// At most 64.
    pub many: usize,
    /// At least 1. At most the first 8 such commands post.
    pub every: usize,
    /// At most 64 bytes.
    pub text: &'static [u8],
}

/// What is posted.
pub const TEXT: &[u8] = b"a text";

/// Fifty commands, none of which posts.
pub const READS: Plan = Plan {
    many: 50,
    every: 64,
    text: TEXT,
};

fn post(alloc: Global, wall: u32, text: &[u8]) -> Result<Command, Fail>
    ensures on { IfOk result (IsOn wall) }
    ensures write { IfOk result (λ command. write_of command ≡ 1) }
{
    if text.len() > 64 {
        return Err("a long text".into());
    }
    Ok(Command::Post {
        wall,
        text: Bytes::of(Vec::from_slice(alloc, text)?),
    })
}

/// A command of a plan, and how many posts are left behind it.
fn command_at(
    alloc: Global,
    wall: u32,
    plan: Plan,
    number: usize,
    left: u32,
) -> Result<(Command, u32), Fail>
    requires { 0 < plan.every }
    ensures on { IfOk result (λ r. IsOn wall r.0) }
    ensures left { IfOk result (λ r. r.1 + write_of r.0 ≤ left) }
{
    if number % plan.every == plan.every - 1 && left > 0 {
        return Ok((post(alloc, wall, plan.text)?, left - 1));
    }
    Ok((Command::Read { wall }, left))
}

/// The commands of a plan on a wall.
pub fn commands(alloc: Global, wall: u32, plan: Plan) -> Result<Commands, Fail>
    ensures { IfOk result (AreFew wall) }
{
    if plan.many > 64 || plan.every == 0 {
        return Err("no such plan".into());
    }
    let mut out = Vec::new(alloc);
    let mut left = 8;
    for number in 0..plan.many {
        let (command, rest) = command_at(alloc, wall, plan, number, left)?;
        out.push(command)?;
        left = rest;
    }
    Ok(Sequence::of(out))
}
