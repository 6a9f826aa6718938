ghost use Rattle.std.specs.Prelude.{◌≡◌, map, IfOk};
ghost use Rattle.world_book.specs.Kept.{Kept};
ghost use Rattle.std.specs.List.{AllByRecursion};
ghost use Rattle.run_end.specs.Ends.{AreTogether, HasEnded, book_in};

use client_core::Client;
use fr_bytes::NoMemory;
use fr_digest::Digester;
use std::alloc::Global;
use world_book::{Log, UserBooks, WallNotes, World};

/// What is kept of a run: the clients' books, in the clients' order, and the walls' notes.
///
/// Where the clients know the same users with the same keys, and what they know of the walls is among the notes, it is
/// kept as honest clients keep it. On want of memory the books are lost.
pub fn world_of<D: Digester>(
    alloc: Global,
    clients: Vec<Client<D>>,
    notes: WallNotes,
) -> Result<World, NoMemory>
    ensures value { IfOk result (λ w. w ≡ record { users = map book_in clients.items; walls = notes }) }
    ensures ended { IfOk result (λ w. AllByRecursion (HasEnded D.digest_of) clients.items) }
    ensures kept { IfOk result (λ w. AreTogether notes clients.items → Kept D.digest_of w) }
{
    let users = books_of(alloc, clients)?;
    Ok(World {
        users,
        walls: notes,
    })
}

// The clients' books, each kept with what its client knows.
fn books_of<D: Digester>(alloc: Global, clients: Vec<Client<D>>) -> Result<UserBooks, NoMemory>
    ensures value { IfOk result (λ books. books ≡ map book_in clients.items) }
    ensures ended { IfOk result (λ books. AllByRecursion (HasEnded D.digest_of) clients.items) }
{
    let mut books = Log::empty(alloc);
    for client in clients {
        books.push(client.end())?;
    }
    Ok(books)
}
