ghost use Rattle.std.specs.Prelude.{◌≡◌, ◌≢◌, Some, IfOk, IfErr, OnOk, OnErr};
ghost use Rattle.std.specs.List.{AllByRecursion};
ghost use Rattle.op_types.specs.Spelling.{IsLeaf};
ghost use Rattle.msg_form.specs.declared.verdict.Verdict.TheVariants as verdicts;
ghost use Rattle.check_core.specs.View.{checked_view};
ghost use Rattle.client_core.specs.Clients.{client_view, Hears, Makes, Rejects, book_after, took_of, with_took};
ghost use Rattle.client_core.specs.Keeping.{IsSound, ShowsLeaves};
ghost use Rattle.client_core.specs.declared.news.News.TheVariants as the_news;
ghost use Rattle.client_core.specs.Sides.{sides_view, HasSide, SideView, side_of, side_view};
ghost use Rattle.client_core.specs.Taking.{accepting_all, news_of, side_after};

use super::Client;
use crate::news::News;
use crate::sent::Sent;
use crate::side::{Side, place_of};
use check_core::{Checked, check};
use dict_proof::Dicts;
use fr_bytes::NoMemory;
use fr_digest::Digester;
use hist_proof::Pruned;
use msg_form::Verdict;
use op_types::{Leaves, View, laws};
use signed_ops::leaves_copy;
use std::alloc::Global;
use world_book::{Took, UserBook};

/// What a reply that is taken shows.
#[derive(Drop)]
struct Taking {
    from: u64,
    proof: Pruned,
    leaves: Leaves,
    dicts: Dicts,
}

// Puts a record into an honest user's book.
fn keep(book: &mut UserBook, took: Took) -> Result<(), NoMemory>
    ensures added { OnOk result (book.new ≡ with_took book.old took) }
    ensures unchanged { OnErr result (book.new ≡ book.old) }
{
    if book.rogue {
        return Ok(());
    }
    book.add_took(took)
}

// The record of a reply, with what the side had accepted before.
fn took_of(user: u32, side: &Side, view: &View, taking: Taking) -> Took
    ensures { result ≡ took_of user (side_view side.now) view.now taking.from taking.proof taking.leaves taking.dicts }
{
    Took {
        user,
        wall: side.known.wall,
        have: side.known.size,
        from: taking.from,
        leaves: taking.leaves,
        size: view.size,
        root: view.root,
        proof: taking.proof,
        dicts: taking.dicts,
    }
}

// Takes a reply: a record is kept, and the side accepts the view. All room is taken before anything changes.
#[tactic(auto, unfolding(crate::specs::Clients::book_after))]
fn take(
    alloc: Global,
    side: &mut Side,
    book: &mut UserBook,
    view: View,
    taking: Taking,
) -> Result<News, NoMemory>
    requires { AllByRecursion IsLeaf taking.leaves }
    ensures news { IfOk result (λ news. news ≡ the_news.Took view.size taking.from taking.leaves) }
    ensures side { OnOk result (side_view side.new ≡ accepting_all (side_view side.old) view taking.leaves) }
    ensures book { OnOk result (book.new ≡ with_took book.old (took_of book.old.user
        (side_view side.old) view taking.from taking.proof taking.leaves taking.dicts)) }
    ensures same_side { OnErr result (side_view side.new ≡ side_view side.old) }
    ensures same_book { OnErr result (book.new ≡ book.old) }
{
    let readied = side.ready(taking.leaves.as_slice())?;
    let leaves = leaves_copy(alloc, taking.leaves.as_slice())?;
    let from = taking.from;
    let size = view.size;
    keep(book, took_of(book.user, side, &view, taking))?;
    side.accept(view, readied);
    Ok(News::Took { size, from, leaves })
}

// Hears what a check made of a reply.
fn hear(
    alloc: Global,
    side: &mut Side,
    book: &mut UserBook,
    checked: Checked,
) -> Result<News, NoMemory>
    requires { ShowsLeaves checked }
    ensures news { IfOk result (λ news. news ≡ news_of (checked_view checked)) }
    ensures side { OnOk result (side_view side.new ≡ side_after (side_view side.old) (checked_view checked)) }
    ensures book { OnOk result (book.new ≡ book_after book.old (side_view side.old) checked) }
    ensures same_side { OnErr result (side_view side.new ≡ side_view side.old) }
    ensures same_book { OnErr result (book.new ≡ book.old) }
{
    match checked {
        Checked::Same { size } => Ok(News::Same { size }),
        Checked::Refused { cause, number } => Ok(News::Refused { cause, number }),
        Checked::Taken {
            view,
            from,
            proof,
            leaves,
            dicts,
        } => {
            let taking = Taking {
                from,
                proof,
                leaves,
                dicts,
            };
            take(alloc, side, book, view, taking)
        }
    }
}

impl<D: Digester> Client<D> {
    // Hears what a check made of a reply to what was sent to a wall, or leaves all as it is.
    fn hear(&mut self, alloc: Global, wall: u32, checked: Checked) -> Result<News, Verdict>
        requires side { HasSide wall (sides_view self.old.sides) }
        requires sound { (s : SideView) → side_of wall (sides_view self.old.sides) ≡ Some s
            → IsSound D.digest_of s.known checked }
        ensures makes { IfOk result (λ news. Makes (client_view self.old) wall checked news (client_view self.new)) }
        ensures rejects { IfErr result (λ v. v ≡ verdicts.NoMemory) }
        ensures unchanged { OnErr result (client_view self.new ≡ client_view self.old) }
    {
        let place = place_of(&self.sides, wall);
        let side = &mut self.sides[place];
        match hear(alloc, side, &mut self.book, checked) {
            Ok(news) => Ok(news),
            Err(NoMemory) => Err(Verdict::NoMemory),
        }
    }

    /// What the client makes of the bytes of a reply to what it sent to a wall that it has a side for. It takes a reply
    /// that shows more than it has accepted: it then accepts that, learns the changes of the access list that are shown
    /// where they and those that it holds are all, and has a record more in an honest user's book.
    ///
    /// # Errors
    /// The first verdict of those that `msg_form` lists that applies to what the client knows, asked and was handed;
    /// `NoMemory`. After either the client is as before, as it is after a refusal.
    pub fn take_reply(&mut self, alloc: Global, sent: &Sent, bytes: &[u8]) -> Result<News, Verdict>
        requires { HasSide sent.now.wall (sides_view self.old.sides) }
        ensures hears { IfOk result (λ news. Hears D.digest_of (client_view self.old) sent.now bytes.now news
            (client_view self.new)) }
        ensures rejects { IfErr result (λ v. v ≢ verdicts.NoMemory
            → Rejects D.digest_of (client_view self.old) sent.now bytes.now v) }
        ensures unchanged { OnErr result (client_view self.new ≡ client_view self.old) }
    {
        laws::slices_of_bytes(bytes);
        let known = &self.side(sent.wall).known;
        let checked = check::<D>(alloc, known, &sent.asked, bytes)?;
        self.hear(alloc, sent.wall, checked)
    }
}
