//! What a command came to, and what it shows.
ghost use Rattle.client_core.specs.declared.news.News.{News};
ghost use Rattle.client_core.specs.Sides.{SideView, side_of, sides_view};
ghost use Rattle.op_types.specs.declared.op.Leaf.{Leaf};
ghost use Rattle.op_types.specs.Spelling.{IsLeaf, IsOp};
ghost use Rattle.script_form.specs.declared.outcome.KeysEnd.TheVariants as keys_ends;
ghost use Rattle.session_laws.specs.Doing.{outcome_at, shown_from, what_of};
ghost use Rattle.session_run.specs.News.{IsNews, news_end, news_shown};
ghost use Rattle.std.specs.List.{AllByRecursion};
ghost use Rattle.std.specs.Prelude.{◌≡◌, ◌+◌, ◌<◌, ◌≤◌, ◌^◌, [], ℕ, List, length, IfOk, Some};

use client_core::{Client, News};
use fr_bytes::{NoMemory, Sequence};
use fr_digest::Digester;
use op_types::{Kind, Leaf, Op};
use script_form::{CommandEnd, KeysEnd, Outcome, Shown, ShownKind, ShownList};
use session_laws::Place;
use std::alloc::Global;

/// The outcome of the command at a place.
pub(crate) fn outcome(place: Place, end: CommandEnd, shown: ShownList, keys: KeysEnd) -> Outcome
    ensures { result ≡ outcome_at place end shown keys }
{
    Outcome {
        phase: place.phase,
        session: place.session,
        command: place.command,
        end,
        shown,
        keys,
    }
}

/// The outcome that shows nothing, and behind which no keys were asked for.
pub(crate) fn plain_outcome(alloc: Global, place: Place, end: CommandEnd) -> Outcome
    ensures { result ≡ outcome_at place end [] keys_ends.Fine }
{
    outcome(place, end, Sequence::of(Vec::new(alloc)), KeysEnd::Fine)
}

// What an operation does, as far as the client can read it.
fn what_of<D: Digester>(alloc: Global, client: &Client<D>, op: &Op) -> Result<ShownKind, NoMemory>
    requires { IsOp op.now }
    ensures { IfOk result (λ what. (s : SideView) → side_of op.now.wall (sides_view client.now.sides) ≡ Some s
        → what ≡ what_of s op.now op.now.kind) }
{
    match &op.kind {
        Kind::Post { .. } => match client.read_body(alloc, op)? {
            Some(body) => Ok(ShownKind::Post { body }),
            None => Ok(ShownKind::Unreadable),
        },
        Kind::Admit { user, role, .. } => Ok(ShownKind::Admit {
            user: *user,
            role: *role,
        }),
        Kind::Remove { user, .. } => Ok(ShownKind::Remove { user: *user }),
    }
}

// What leaves of a wall show, the first at the position `from`.
fn shown_from<D: Digester>(
    alloc: Global,
    client: &Client<D>,
    from: u64,
    leaves: &[Leaf],
) -> Result<ShownList, NoMemory>
    requires leaves { AllByRecursion IsLeaf leaves.now }
    requires few { from + length leaves.now < 2 ^ 64 }
    ensures { IfOk result (λ shown. (wall : ℕ) (s : SideView) → side_of wall (sides_view client.now.sides) ≡ Some s
        → AllByRecursion (λ l. l.op.wall ≡ wall) leaves.now → shown ≡ shown_from s from leaves.now) }
{
    let mut list = Vec::new(alloc);
    let mut position = from;
    for leaf in leaves {
        let what = what_of(alloc, client, &leaf.op)?;
        list.push(Shown {
            position,
            author: leaf.op.author,
            what,
        })?;
        position += 1;
    }
    Ok(Sequence::of(list))
}

/// What a client's news of a wall show.
pub(crate) fn shown_of<D: Digester>(
    alloc: Global,
    client: &Client<D>,
    news: &News,
) -> Result<ShownList, NoMemory>
    requires { (wall : ℕ) × IsNews wall news.now }
    ensures { IfOk result (λ shown. (wall : ℕ) (s : SideView) → side_of wall (sides_view client.now.sides) ≡ Some s
        → IsNews wall news.now → shown ≡ news_shown s news.now) }
{
    match news {
        News::Same { .. } | News::Refused { .. } => Ok(Sequence::of(Vec::new(alloc))),
        News::Took { size, from, leaves } => {
            // It brings to the proof that the positions are below 2^64.
            let _size = *size;
            shown_from(alloc, client, *from, leaves.as_slice())
        }
    }
}

/// How a command ends whose reply wasn't rejected.
pub(crate) fn end_of(news: &News) -> CommandEnd
    ensures { result ≡ news_end news.now }
{
    match news {
        News::Same { size } => CommandEnd::Same { size: *size },
        News::Took { size, from, .. } => CommandEnd::Accepted {
            size: *size,
            from: *from,
        },
        News::Refused { cause, number } => CommandEnd::Refused {
            cause: *cause,
            number: *number,
        },
    }
}
