//! Cases of clients.
ghost use Rattle.std.specs.Prelude.{◌≡◌, IfOk, Some, true};
ghost use Rattle.lms_tree.specs.Signer.{public_of};
ghost use Rattle.client_core.specs.Clients.{AreStarts, IsStart};
ghost use Rattle.signed_ops.specs.Signed.{key_of};

use crate::steps::is_step;
use crate::wall::Users;
use client_core::{Client, SideStart};
use fr_digest::Sha;
use lms_params::pair_of;
use lms_tree::{PublicKey, Signer};
use serde_json::Value;
use std::alloc::Global;
use vector_cases::{CaseFault, Cases, bytes_at, dig_at, list_at, number_at, small_at};

/// The clients of a document with these users.
#[derive(Drop)]
pub struct Clients {
    pub users: Users,
}

fn signer_of(alloc: Global, case: &Value) -> Result<Signer, CaseFault> {
    let Some(pair) = pair_of(small_at(case, "lms")?, small_at(case, "ots")?) else {
        return Err(CaseFault::NoValue("typecodes of a signer"));
    };
    let bytes = bytes_at(alloc, case, "id")?;
    let Ok(id) = <[u8; 16]>::try_from(bytes.as_slice()) else {
        return Err(CaseFault::NoValue("an identifier of 16 bytes"));
    };
    match Signer::make(alloc, &dig_at(case, "private")?, &id, pair) {
        Ok(signer) => Ok(signer),
        Err(_) => Err(CaseFault::NoValue("a signer")),
    }
}

// Whether a client of this user may begin so.
fn is_start(user: u32, start: &SideStart) -> bool
    requires { (start.now.known.size ≡ 0) × (start.now.known.epoch ≡ 0) }
    ensures { result ≡ true → IsStart user start.now }
{
    let few = start.known.f <= 31;
    let depth = start.depth >= 1 && start.depth <= 6;
    let owned = start.owned.is_some() == (user == start.known.owner);
    few && depth && owned
}

// The one side of a user's client.
fn side_of(
    alloc: Global,
    user: u32,
    key: PublicKey,
    start: SideStart,
) -> Result<Vec<SideStart>, CaseFault>
    requires opening { (start.known.size ≡ 0) × (start.known.epoch ≡ 0) }
    requires own { key_of start.known.users user ≡ Some key }
    ensures { IfOk result (λ sides. AreStarts user key sides.items) }
{
    if is_start(user, &start) {
        let mut sides = Vec::new(alloc);
        sides.push(start)?;
        Ok(sides)
    } else {
        Err(CaseFault::NoValue("what a client may begin with"))
    }
}

impl Clients {
    fn client(&self, alloc: Global, case: &Value) -> Result<Client<Sha>, CaseFault> {
        let signer = signer_of(alloc, case)?;
        let user = small_at(case, "user")?;
        let key = signer.public();
        let start = self.users.start(alloc, user, key, case)?;
        let sides = side_of(alloc, user, key, start)?;
        let client = Client::make(alloc, user, false, signer, sides)?;
        Ok(client)
    }
}

// Whether a book has as many records and operations as the case says.
fn has_counts(case: &Value, took: u64, signed: u64) -> Result<bool, CaseFault> {
    Ok(number_at(case, "took")? == took && number_at(case, "signed")? == signed)
}

impl Cases for Clients {
    fn is_same(&mut self, alloc: Global, case: &Value) -> Result<bool, CaseFault> {
        let wall = small_at(case, "wall")?;
        let steps = list_at(case, "steps")?;
        let mut client = self.client(alloc, case)?;
        let mut same = true;
        for step in steps {
            let is_so = is_step(alloc, &mut client, wall, step)?;
            same = same && is_so;
        }
        let signed = client.book().signed.len() as u64;
        let took = client.end().took.len() as u64;
        Ok(same && has_counts(case, took, signed)?)
    }
}
