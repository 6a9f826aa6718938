ghost use Rattle.std.specs.Prelude.{◌≡◌, IfOk, option_map};
ghost use Rattle.tree_model.specs.AccessList.{entry_of, with_next, with_entry, without, smaller, greater};

use crate::entry::Entry;
use fr_bytes::NoMemory;
use std::alloc::Global;

/// The entry of a user, and `None` exactly where there is none. Takes no memory.
pub fn find_entry(entries: &[Entry], user: u32) -> Option<Entry>
    ensures { result ≡ entry_of entries.now user }
{
    entries.iter().copied().find(|e| e.user == user)
}

/// The list in which this user's next number is `next`.
pub fn set_next(
    alloc: Global,
    entries: &[Entry],
    user: u32,
    next: u32,
) -> Result<Vec<Entry>, NoMemory>
    ensures { IfOk result (λ v. v.items ≡ with_next user next entries.now) }
{
    let list = entries
        .iter()
        .map(|e| if e.user == user {
            Entry { next, ..*e }
        } else {
            *e
        })
        .collect(alloc)?;
    Ok(list)
}

/// The entries of smaller users.
pub fn smaller_users(alloc: Global, entries: &[Entry], user: u32) -> Result<Vec<Entry>, NoMemory>
    ensures { IfOk result (λ v. v.items ≡ smaller user entries.now) }
{
    let list = entries
        .iter()
        .filter(|e| e.user < user)
        .copied()
        .collect(alloc)?;
    Ok(list)
}

/// The entries of greater users.
pub fn greater_users(alloc: Global, entries: &[Entry], user: u32) -> Result<Vec<Entry>, NoMemory>
    ensures { IfOk result (λ v. v.items ≡ greater user entries.now) }
{
    let list = entries
        .iter()
        .filter(|e| user < e.user)
        .copied()
        .collect(alloc)?;
    Ok(list)
}

/// The list with this entry, in the place of its user.
pub fn add_entry(alloc: Global, entries: &[Entry], entry: Entry) -> Result<Vec<Entry>, NoMemory>
    ensures { IfOk result (λ v. v.items ≡ with_entry entry entries.now) }
{
    let mut list = smaller_users(alloc, entries, entry.user)?;
    list.push(entry)?;
    let others = greater_users(alloc, entries, entry.user)?;
    list.extend_from_slice(&others)?;
    Ok(list)
}

/// The list without this user's entry.
pub fn drop_user(alloc: Global, entries: &[Entry], user: u32) -> Result<Vec<Entry>, NoMemory>
    ensures { IfOk result (λ v. v.items ≡ without user entries.now) }
{
    let list = entries
        .iter()
        .filter(|e| e.user != user)
        .copied()
        .collect(alloc)?;
    Ok(list)
}
