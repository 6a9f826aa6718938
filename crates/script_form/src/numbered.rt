ghost use Rattle.std.specs.Prelude.{◌≡◌, ◌+◌, ◌<◌, ◌≤◌, ◌^◌, ◌∷◌, [], ℕ, List, length, take, map, IfOk, OnOk, ◌++◌};
ghost use Rattle.std.specs.String.{string_bytes};
ghost use Rattle.std.specs.List.{range_with_len};
ghost use Rattle.script_form.specs.Generated.{seed, user_made, wall_made, session, admit, admissions, look, looking, post_text, post, once_more, posts, posting, generated_phases, generated_of};

use crate::put::put_number;
use fr_bytes::{Bytes, NoMemory, Sequence};
use fr_digest::Dig;
use op_types::WRITER;
use script_read::{Command, DigestName, Phase, Script, ScriptSession, ScriptUser, ScriptWall};
use sha2::{Digest, Sha256};
use std::alloc::Global;

/// What is made of each of `count` numbers from `first` on.
fn numbered<T: Drop, F: Fn(u32) -> Result<T, NoMemory>>(
    alloc: Global,
    first: u32,
    count: u32,
    make: F,
) -> Result<Vec<T>, NoMemory>
    requires callable { F.IsAlwaysCallable make }
    requires small { first + count < 2 ^ 32 }
    ensures { (f : ℕ → T)
        → ((x : _) (r : _) → x < 2 ^ 32 → F.post make x r → IfOk r (λ t. t ≡ f x))
        → IfOk result (λ v. v.items ≡ map f (range_with_len first count)) }
{
    let mut made = Vec::new(alloc);
    for x in first..first + count {
        match make(x) {
            Ok(t) => made.push(t)?,
            Err(refused) => return Err(refused),
        }
    }
    Ok(made)
}

// ---- keys

/// The bytes of a kind for the user or the wall `x`: the digest of `30`, the number, the kind and `x`.
#[tactic(auto, unfolding(crate::specs::Generated::seed))]
fn seed(number: u32, kind: u8, x: u32) -> Dig
    ensures { result ≡ seed number kind x }
{
    let mut hasher = Sha256::new();
    hasher.update([48u8]);
    hasher.update(number.to_be_bytes());
    hasher.update([kind]);
    hasher.update(x.to_be_bytes());
    hasher.finalize()
}

/// The first 16 bytes.
fn identifier(digest: &[u8]) -> [u8; 16]
    requires { 16 ≤ length digest.now }
    ensures { result ≡ take 16 digest.now }
{
    let mut id = [0u8; 16];
    id.copy_from_slice(&digest[..16]);
    id
}

#[tactic(auto, unfolding(crate::specs::Generated::user_made))]
fn make_user(number: u32, user: u32) -> ScriptUser
    ensures { result ≡ user_made number user }
{
    ScriptUser {
        user,
        private: seed(number, 1, user),
        id: identifier(&seed(number, 3, user)),
        lms: 6,
        ots: 3,
        secret: seed(number, 2, user),
        rogue: false,
    }
}

#[tactic(auto, unfolding(crate::specs::Generated::wall_made))]
fn make_wall(number: u32, wall: u32) -> ScriptWall
    ensures { result ≡ wall_made number wall }
{
    ScriptWall {
        wall,
        owner: wall,
        f: 1,
        depth: 3,
        master: seed(number, 4, wall),
        private: seed(number, 5, wall),
        id: identifier(&seed(number, 6, wall)),
        ots: 3,
    }
}

fn make_users(alloc: Global, number: u32) -> Result<Vec<ScriptUser>, NoMemory>
    ensures { IfOk result (λ users. users.items ≡ map (user_made number) (range_with_len 1 8)) }
{
    numbered(alloc, 1, 8, |user| Ok(make_user(number, user)))
}

fn make_walls(alloc: Global, number: u32) -> Result<Vec<ScriptWall>, NoMemory>
    ensures { IfOk result (λ walls. walls.items ≡ map (wall_made number) (range_with_len 1 2)) }
{
    numbered(alloc, 1, 2, |wall| Ok(make_wall(number, wall)))
}

// ---- the first phase

fn admit(wall: u32, user: u32) -> Command
    ensures { result ≡ admit wall user }
{
    Command::Admit {
        wall,
        user,
        role: WRITER,
    }
}

/// Admissions of `count` users from `first` on.
fn admit_all(alloc: Global, wall: u32, first: u32, count: u32) -> Result<Vec<Command>, NoMemory>
    requires { first + count < 2 ^ 32 }
    ensures { IfOk result (λ commands. commands.items ≡ map (admit wall) (range_with_len first count)) }
{
    numbered(alloc, first, count, |user| Ok(admit(wall, user)))
}

fn session(user: u32, commands: Vec<Command>) -> ScriptSession
    ensures { result ≡ session user commands.items }
{
    ScriptSession {
        user,
        commands: Sequence::of(commands),
    }
}

/// User 1 admits the others to wall 1, and user 2 to wall 2.
#[tactic(auto, unfolding(crate::specs::Generated::admissions))]
fn admissions(alloc: Global) -> Result<Phase, NoMemory>
    ensures { IfOk result (λ phase. phase ≡ admissions) }
{
    let first = admit_all(alloc, 1, 2, 7)?;
    let mut second = admit_all(alloc, 2, 3, 6)?;
    second.insert(0, admit(2, 1))?;
    let sessions = Vec::from_array(alloc, [session(1, first), session(2, second)])?;
    Ok(Sequence::of(sessions))
}

// ---- the phases of reading

#[tactic(auto, unfolding(crate::specs::Generated::look))]
fn look(alloc: Global, user: u32) -> Result<ScriptSession, NoMemory>
    ensures { IfOk result (λ made. made ≡ look user) }
{
    let both = [Command::Read { wall: 1 }, Command::Read { wall: 2 }];
    Ok(session(user, Vec::from_array(alloc, both)?))
}

/// Each user reads both walls.
#[tactic(auto, unfolding(crate::specs::Generated::looking))]
fn looks(alloc: Global) -> Result<Vec<ScriptSession>, NoMemory>
    ensures { IfOk result (λ sessions. sessions.items ≡ looking) }
{
    numbered(alloc, 1, 8, |user| look(alloc, user))
}

fn looking(alloc: Global) -> Result<Phase, NoMemory>
    ensures { IfOk result (λ phase. phase ≡ looking) }
{
    Ok(Sequence::of(looks(alloc)?))
}

// ---- the phases of posting

#[tactic(auto, unfolding(crate::specs::Generated::post_text))]
fn put_post_text(out: &mut String, phase: u32, user: u32, i: u32) -> Result<(), NoMemory>
    ensures { OnOk result (string_bytes out.new ≡ string_bytes out.old ++ post_text phase user i) }
{
    put_number(out, "n", u64::from(phase))?;
    put_number(out, " u", u64::from(user))?;
    put_number(out, " i", u64::from(i))?;
    Ok(())
}

fn post_text(alloc: Global, phase: u32, user: u32, i: u32) -> Result<Bytes, NoMemory>
    ensures { IfOk result (λ text. text ≡ post_text phase user i) }
{
    let mut text = String::new(alloc);
    put_post_text(&mut text, phase, user, i)?;
    Ok(Bytes::of(text.into_bytes()))
}

fn post(alloc: Global, phase: u32, user: u32, i: u32, wall: u32) -> Result<Command, NoMemory>
    ensures { IfOk result (λ command. command ≡ post phase user i wall) }
{
    let text = post_text(alloc, phase, user, i)?;
    Ok(Command::Post { wall, text })
}

/// The wall of the third post.
fn once_more(phase: u32) -> u32
    ensures { result ≡ once_more phase }
{
    if phase % 2 == 1 { 1 } else { 2 }
}

#[tactic(auto, unfolding(crate::specs::Generated::posts))]
fn posts(alloc: Global, phase: u32, user: u32) -> Result<ScriptSession, NoMemory>
    ensures { IfOk result (λ made. made ≡ posts phase user) }
{
    let first = post(alloc, phase, user, 1, 1)?;
    let second = post(alloc, phase, user, 2, 2)?;
    let third = post(alloc, phase, user, 3, once_more(phase))?;
    Ok(session(user, Vec::from_array(alloc, [first, second, third])?))
}

fn all_posts(alloc: Global, phase: u32) -> Result<Vec<ScriptSession>, NoMemory>
    ensures { IfOk result (λ sessions. sessions.items ≡ map (posts phase) (range_with_len 1 8)) }
{
    numbered(alloc, 1, 8, |user| posts(alloc, phase, user))
}

#[tactic(auto, unfolding(crate::specs::Generated::posting))]
fn posting(alloc: Global, phase: u32) -> Result<Phase, NoMemory>
    ensures { IfOk result (λ made. made ≡ posting phase) }
{
    Ok(Sequence::of(all_posts(alloc, phase)?))
}

fn postings(alloc: Global) -> Result<Vec<Phase>, NoMemory>
    ensures { IfOk result (λ phases. phases.items ≡ map posting (range_with_len 3 25)) }
{
    numbered(alloc, 3, 25, |phase| posting(alloc, phase))
}

// ---- the script

#[tactic(auto, unfolding(crate::specs::Generated::generated_phases))]
fn make_phases(alloc: Global) -> Result<Vec<Phase>, NoMemory>
    ensures { IfOk result (λ phases. phases.items ≡ generated_phases) }
{
    let mut phases = postings(alloc)?;
    phases.insert(0, looking(alloc)?)?;
    phases.insert(0, admissions(alloc)?)?;
    phases.push(looking(alloc)?)?;
    Ok(phases)
}

/// The generated script of a number: eight users on two walls, which users 1 and 2 own. They admit the
/// others as writers, then each user reads both walls, posts three texts in each of 25 phases, and reads
/// both walls again: 646 commands in 28 phases. Each key's bytes are the SHA-256 of `30`, the number, a
/// kind and the user or wall, numbers in four big-endian bytes. `NoMemory` comes where an allocation is
/// refused.
#[tactic(auto, unfolding(crate::specs::Generated::generated_of))]
pub fn generated(alloc: Global, number: u32) -> Result<Script, NoMemory>
    ensures { IfOk result (λ script. script ≡ generated_of number) }
{
    let users = make_users(alloc, number)?;
    let walls = make_walls(alloc, number)?;
    let phases = make_phases(alloc)?;
    Ok(Script {
        digest: DigestName::Sha,
        users: Sequence::of(users),
        walls: Sequence::of(walls),
        phases: Sequence::of(phases),
        tamper: Sequence::of(Vec::new(alloc)),
    })
}
