//! The signers of the users and of the walls' servers, each made once.
ghost use Rattle.std.specs.Prelude.{◌≡◌, map, IfOk};
ghost use Rattle.std.specs.List.{All};
ghost use Rattle.script_read.specs.Limits.{IsListedUser, IsListedWall, IsScript};
ghost use Rattle.run_start.specs.Parties.{IsSeed, party_of, user_party, user_seed, wall_party, wall_seed};

use crate::numbers::{user_at, wall_at};
use fr_bytes::NoMemory;
use fr_digest::Dig;
use lms_params::pair_of;
use lms_tree::{MakeRefusal, Signer};
use script_read::Script;
use std::alloc::Global;

/// The LMS typecode of the keys of walls' servers: 1,024 signatures.
const SERVER_LMS: u32 = 6;

/// What a signer is made from, and the number of the user or of the wall whose it is.
#[derive(Clone, Copy, Debug, PartialEq, Eq)]
pub struct Seed {
    pub number: u32,
    pub private: Dig,
    pub id: [u8; 16],
    pub lms: u32,
    pub ots: u32,
}

/// A signer, and the number of the user or of the wall whose it is.
#[derive(Drop)]
pub struct Party {
    pub number: u32,
    pub signer: Signer,
}

/// The users and the walls of a script with their signers, each in rising order.
#[derive(Drop)]
pub struct Parties {
    /// The users' numbers.
    pub numbers: Vec<u32>,
    pub users: Vec<Party>,
    pub walls: Vec<Party>,
}

fn user_seed(script: &Script, number: u32) -> Seed
    requires { IsListedUser script.now number }
    ensures { result ≡ user_seed script.now number }
{
    let user = user_at(script, number);
    Seed {
        number,
        private: user.private,
        id: user.id,
        lms: user.lms,
        ots: user.ots,
    }
}

fn wall_seed(script: &Script, number: u32) -> Seed
    requires { IsListedWall script.now number }
    ensures { result ≡ wall_seed script.now number }
{
    let wall = wall_at(script, number);
    Seed {
        number,
        private: wall.private,
        id: wall.id,
        lms: SERVER_LMS,
        ots: wall.ots,
    }
}

// What the signers of these users are made from, in order.
fn user_seeds(alloc: Global, script: &Script, users: &[u32]) -> Result<Vec<Seed>, NoMemory>
    requires { All (IsListedUser script.now) users.now }
    ensures { IfOk result (λ seeds. seeds.items ≡ map (user_seed script.now) users.now) }
{
    let mut seeds = Vec::new(alloc);
    for number in users {
        seeds.push(user_seed(script, *number))?;
    }
    Ok(seeds)
}

// What the signers of these walls' servers are made from, in order.
fn wall_seeds(alloc: Global, script: &Script, walls: &[u32]) -> Result<Vec<Seed>, NoMemory>
    requires { All (IsListedWall script.now) walls.now }
    ensures { IfOk result (λ seeds. seeds.items ≡ map (wall_seed script.now) walls.now) }
{
    let mut seeds = Vec::new(alloc);
    for number in walls {
        seeds.push(wall_seed(script, *number))?;
    }
    Ok(seeds)
}

// The signer of a seed: this makes all leaves of its tree.
fn made(alloc: Global, seed: &Seed) -> Result<Party, NoMemory>
    requires { IsSeed seed.now }
    ensures { IfOk result (λ party. party ≡ party_of seed.now) }
{
    let Some(pair) = pair_of(seed.lms, seed.ots) else {
        unreachable!()
    };
    match Signer::make(alloc, &seed.private, &seed.id, pair) {
        Ok(signer) => Ok(Party {
            number: seed.number,
            signer,
        }),
        Err(MakeRefusal::NoMemory) => Err(NoMemory),
        Err(MakeRefusal::TooTall { .. }) => unreachable!(),
    }
}

// The signers of these seeds, in order.
fn all_made(alloc: Global, seeds: &[Seed]) -> Result<Vec<Party>, NoMemory>
    requires { All IsSeed seeds.now }
    ensures { IfOk result (λ parties. parties.items ≡ map party_of seeds.now) }
{
    let mut parties = Vec::new(alloc);
    for seed in seeds {
        parties.push(made(alloc, seed)?)?;
    }
    Ok(parties)
}

/// These users with their signers, in order.
pub(crate) fn user_parties(
    alloc: Global,
    script: &Script,
    users: &[u32],
) -> Result<Vec<Party>, NoMemory>
    requires script { IsScript script.now }
    requires listed { All (IsListedUser script.now) users.now }
    ensures { IfOk result (λ parties. parties.items ≡ map (user_party script.now) users.now) }
{
    let seeds = user_seeds(alloc, script, users)?;
    all_made(alloc, &seeds)
}

/// These walls with their servers' signers, in order.
pub(crate) fn wall_parties(
    alloc: Global,
    script: &Script,
    walls: &[u32],
) -> Result<Vec<Party>, NoMemory>
    requires script { IsScript script.now }
    requires listed { All (IsListedWall script.now) walls.now }
    ensures { IfOk result (λ parties. parties.items ≡ map (wall_party script.now) walls.now) }
{
    let seeds = wall_seeds(alloc, script, walls)?;
    all_made(alloc, &seeds)
}
