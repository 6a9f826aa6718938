//! The numbers of a script's users and walls, and whose they are.
ghost use Rattle.std.specs.Prelude.{◌≡◌, map, IfOk};
ghost use Rattle.std.specs.List.{IsDistinct};
ghost use Rattle.std.specs.Option.{option_copied};
ghost use Rattle.std.specs.List.Sorted.{IsNonDecreasing, IsPermutation};
ghost use Rattle.script_read.specs.Limits.{IsListedUser, IsListedWall, same_user, same_wall};
ghost use Rattle.script_read.specs.Users.{has_user};
ghost use Rattle.script_read.specs.Walls.{has_wall};
ghost use Rattle.run_start.specs.Numbers.{Lists, the_user, the_wall, user_in, wall_in};

use fr_bytes::NoMemory;
use script_read::{Script, ScriptUser, ScriptWall};
use std::alloc::Global;

// The same numbers in rising order.
fn rising(numbers: Vec<u32>) -> Vec<u32>
    ensures same { IsPermutation numbers.items result.items }
    ensures rise { IsNonDecreasing result.items }
{
    let mut numbers = numbers;
    numbers.sort_unstable();
    numbers
}

// The numbers of the users, in the script's order.
fn numbers_of_users(alloc: Global, script: &Script) -> Result<Vec<u32>, NoMemory>
    ensures { IfOk result (λ numbers. numbers.items ≡ map (λ user. user.user) script.now.users) }
{
    let users = script.users.as_slice();
    let numbers = users.iter().map(|user| user.user).collect(alloc)?;
    Ok(numbers)
}

/// The numbers of the users, rising.
pub(crate) fn user_numbers(alloc: Global, script: &Script) -> Result<Vec<u32>, NoMemory>
    requires { IsDistinct same_user script.now.users }
    ensures { IfOk result (λ numbers. Lists (has_user script.now.users) numbers.items) }
{
    let numbers = numbers_of_users(alloc, script)?;
    Ok(rising(numbers))
}

// The numbers of the walls, in the script's order.
fn numbers_of_walls(alloc: Global, script: &Script) -> Result<Vec<u32>, NoMemory>
    ensures { IfOk result (λ numbers. numbers.items ≡ map (λ wall. wall.wall) script.now.walls) }
{
    let walls = script.walls.as_slice();
    let numbers = walls.iter().map(|wall| wall.wall).collect(alloc)?;
    Ok(numbers)
}

/// The numbers of the walls, rising.
pub(crate) fn wall_numbers(alloc: Global, script: &Script) -> Result<Vec<u32>, NoMemory>
    requires { IsDistinct same_wall script.now.walls }
    ensures { IfOk result (λ numbers. Lists (has_wall script.now.walls) numbers.items) }
{
    let numbers = numbers_of_walls(alloc, script)?;
    Ok(rising(numbers))
}

fn find_user(script: &Script, number: u32) -> Option<&ScriptUser>
    ensures { option_copied result ≡ user_in script.now number }
{
    let users = script.users.as_slice();
    users.iter().find(|user| user.user == number)
}

/// The user of this number, which is listed. Takes no memory.
pub(crate) fn user_at(script: &Script, number: u32) -> &ScriptUser
    requires { IsListedUser script.now number }
    ensures { result.now ≡ the_user script.now number }
{
    let Some(user) = find_user(script, number) else {
        unreachable!()
    };
    user
}

fn find_wall(script: &Script, number: u32) -> Option<&ScriptWall>
    ensures { option_copied result ≡ wall_in script.now number }
{
    let walls = script.walls.as_slice();
    walls.iter().find(|wall| wall.wall == number)
}

/// The wall of this number, which is listed. Takes no memory.
pub(crate) fn wall_at(script: &Script, number: u32) -> &ScriptWall
    requires { IsListedWall script.now number }
    ensures { result.now ≡ the_wall script.now number }
{
    let Some(wall) = find_wall(script, number) else {
        unreachable!()
    };
    wall
}
