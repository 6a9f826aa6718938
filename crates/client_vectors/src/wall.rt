//! Who uses a wall, and what a client begins with on it.
ghost use Rattle.std.specs.Prelude.{◌≡◌, IfOk, Some};
ghost use Rattle.signed_ops.specs.Signed.{key_of};

use check_rules::Known;
use client_core::{Owned, SideStart, UserSecrets};
use fr_bytes::Sequence;
use lms_tree::{PublicKey, UserKeys};
use serde_json::Value;
use std::alloc::Global;
use vector_cases::{CaseFault, byte_at, bytes_of, dig_at, dig_of, field, list_at, small_at};

/// The keys of the users and of a wall's server.
#[derive(Drop)]
pub struct Users {
    server: PublicKey,
    keys: Vec<(u32, PublicKey)>,
}

fn key_of(alloc: Global, value: &Value) -> Result<PublicKey, CaseFault> {
    let bytes = bytes_of(alloc, value)?;
    PublicKey::read(bytes.as_slice()).map_err(|_| CaseFault::NoValue("a public key"))
}

// Puts the key of one who is listed behind others.
fn put_key(
    alloc: Global,
    listed: &Value,
    keys: &mut Vec<(u32, PublicKey)>,
) -> Result<(), CaseFault> {
    let user = small_at(listed, "user")?;
    match key_of(alloc, field(listed, "key")?) {
        Ok(key) => keys.push((user, key))?,
        Err(fault) => return Err(fault),
    }
    Ok(())
}

fn keys_of(alloc: Global, document: &Value) -> Result<Vec<(u32, PublicKey)>, CaseFault> {
    let mut keys = Vec::new(alloc);
    for listed in list_at(document, "users")? {
        put_key(alloc, listed, &mut keys)?;
    }
    Ok(keys)
}

fn secrets_of(alloc: Global, case: &Value) -> Result<UserSecrets, CaseFault> {
    let mut secrets = Vec::new(alloc);
    for listed in list_at(case, "secrets")? {
        let user = small_at(listed, "user")?;
        let secret = dig_at(listed, "secret")?;
        secrets.push((user, secret))?;
    }
    Ok(Sequence::of(secrets))
}

/// What the user has as the owner, where it is.
fn owned_of(alloc: Global, case: &Value) -> Result<Option<Owned>, CaseFault> {
    let master = field(case, "master")?;
    if master.is_null() {
        return Ok(None);
    }
    Ok(Some(Owned {
        master: dig_of(master)?,
        secrets: secrets_of(alloc, case)?,
    }))
}

impl Users {
    /// The keys at `users` and at `server`.
    pub fn of(alloc: Global, document: &Value) -> Result<Users, CaseFault> {
        let keys = keys_of(alloc, document)?;
        match key_of(alloc, field(document, "server")?) {
            Ok(server) => Ok(Users { server, keys }),
            Err(fault) => Err(fault),
        }
    }

    // The users' keys, a user's own in front of the others.
    fn keys(&self, alloc: Global, user: u32, key: PublicKey) -> Result<UserKeys, CaseFault>
        ensures { IfOk result (λ keys. key_of keys user ≡ Some key) }
    {
        let mut keys = Vec::new(alloc);
        keys.push((user, key))?;
        keys.extend_from_slice(self.keys.as_slice())?;
        Ok(Sequence::of(keys))
    }

    // What is known of a case's wall.
    fn known(
        &self,
        alloc: Global,
        user: u32,
        key: PublicKey,
        case: &Value,
    ) -> Result<Known, CaseFault>
        ensures { IfOk result (λ known. (known.size ≡ 0) × (known.epoch ≡ 0) × (key_of known.users user ≡ Some key)) }
    {
        let users = self.keys(alloc, user, key)?;
        Ok(Known {
            wall: small_at(case, "wall")?,
            owner: small_at(case, "owner")?,
            f: small_at(case, "f")?,
            server: self.server,
            users,
            size: 0,
            root: [0; 32],
            epoch: 0,
        })
    }

    /// What the client of a user with this key begins with in a case.
    pub fn start(
        &self,
        alloc: Global,
        user: u32,
        key: PublicKey,
        case: &Value,
    ) -> Result<SideStart, CaseFault>
        ensures { IfOk result (λ start. (start.known.size ≡ 0) × (start.known.epoch ≡ 0)
            × (key_of start.known.users user ≡ Some key)) }
    {
        let known = self.known(alloc, user, key, case)?;
        Ok(SideStart {
            known,
            depth: byte_at(case, "depth")?,
            secret: dig_at(case, "secret")?,
            owned: owned_of(alloc, case)?,
        })
    }
}
