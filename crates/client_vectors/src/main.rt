//! Compares clients with a JSON document that an independent program wrote, read from standard input. Bytes are in
//! hexadecimal digits. At `users` it has a list of users, each with its `user` and its public `key`, at `server` the key of
//! a wall's server, and at `clients` a list of cases. A case is a client of one wall:
//!
//! - its `user`, and the `private` seed, the `id` and the typecodes `lms` and `ots` of its signer;
//! - of its `wall` the number, the `owner`, the `f`, the `depth` of the key tree, the `secret` that the user shares with the
//!   owner, and the owner's `master` (or null) with its `secrets`, a list of each `user` and its `secret`;
//! - its `steps`, one after the other. A step is a look (`do` is `look`, with `whole`), a `post` with its `text`, an `admit`
//!   with a `user` and its `role`, or a `remove` with a `user`. Where the client declines it, `declined` is the name of the
//!   decline. Else `request` is the request, and `replies` is a list of what it is then handed, each with the `reply` and
//!   the `answer`: `Same N`, `Taken N from M`, `Refused CAUSE NUMBER` or the name of a verdict. A step is also `keys`, with
//!   whether the client `needs` keys, its `request` for them, the `reply` and the `answer`, `Changes` or the name of a
//!   verdict; or `read`, with an `op` and the `text` that the client reads of it, or null;
//! - how many replies it `took` and operations it `signed`, by its book.
//!
//! It writes the index of each case that differs, from 0, a line each, and then `clients N cases, D differ`. Its status
//! is 0 where none differs, 1 where one does, and 2 where the document or a case is malformed.
#![tactic(auto)]

use clients::Clients;
use std::process::ExitCode;
use vector_cases::{DocumentFault, compare, read_document, status};
use wall::Users;

mod clients;
mod keys;
mod steps;
mod wall;

fn main(rt: HostRuntime) -> ExitCode {
    let differ = compared(&rt);
    ExitCode::from(status(&rt, differ))
}

/// How many cases differ.
fn compared(rt: &HostRuntime) -> Result<u64, DocumentFault> {
    let alloc = rt.alloc();
    let document = read_document(alloc, &mut rt.reader())?;
    let part = "clients";
    let users = Users::of(alloc, &document).map_err(|cause| DocumentFault::Part { part, cause })?;
    compare(rt, alloc, &document, part, &mut Clients { users })
}
