ghost use Rattle.fr_bytes.specs.Bytes.{Text};
ghost use Rattle.hall_core.specs.declared.facts.WallFacts.{WallFacts};
ghost use Rattle.hall_core.specs.Honest.{IsHonest};
ghost use Rattle.hall_core.specs.Snapshots.{Stands};
ghost use Rattle.hall_replies.specs.Kept.{IsKept, IsOfHonest, leaves_of, owner_of};
ghost use Rattle.hall_replies.specs.Shown.{IsShow};
ghost use Rattle.honest_replies.specs.HonestNews.{Begins};
ghost use Rattle.honest_replies.specs.HonestReply.{FewEntries, NewsReply, ShowReply, SpellsBare};
ghost use Rattle.msg_form.specs.declared.message.Reply.TheVariants.{Show};
ghost use Rattle.msg_form.specs.Messages.{SpellsReply};
ghost use Rattle.op_types.specs.declared.op.Leaf.{Leaf};
ghost use Rattle.op_types.specs.Spelling.{IsView};
ghost use Rattle.std.specs.Prelude.{◌≡◌, ◌<◌, ◌≤◌, IfOk, List, length};

use crate::lists::proof_texts;
use crate::tree::{news_text, vouches};
use fr_bytes::{Bytes, NoMemory, Sequence, Texts};
use fr_digest::Digester;
use hall_core::Snapshot;
use msg_form::{Reply, write_reply};
use op_types::View;
use signed_ops::view_copy;
use std::alloc::Global;
use vouch_rule::vouch_point;

/// The bytes of a reply that shows a wall.
fn show_text(
    alloc: Global,
    view: &View,
    from: u64,
    tree: Bytes,
    dicts: Texts,
) -> Result<Bytes, NoMemory>
    requires { IsShow view.now from tree dicts }
    ensures { IfOk result (λ bytes. SpellsReply (Show view.now from tree dicts) bytes) }
{
    let view = view_copy(view)?;
    write_reply(
        alloc,
        &Reply::Show {
            view,
            from,
            tree,
            dicts,
        },
    )
}

/// The bytes of a view alone.
fn bare(alloc: Global, view: &View) -> Result<Bytes, NoMemory>
    requires { IsView view.now.wall view.now }
    ensures { IfOk result (λ bytes. SpellsBare view.now bytes) }
{
    let tree = Bytes::of(Vec::new(alloc));
    let dicts = Sequence::of(Vec::new(alloc));
    show_text(alloc, view, view.size, tree, dicts)
}

/// The first position that is shown to who has accepted `have` positions: that one, or the vouch point.
fn first_shown<D: Digester>(
    alloc: Global,
    snap: &Snapshot<D>,
    have: u64,
    f: u32,
    whole: bool,
) -> Result<u64, NoMemory>
    requires kept { IsKept D.digest_of snap.now }
    requires more { have < length snap.now.history }
    ensures begins { IfOk result (λ from. Begins have f (leaves_of snap.now) whole from) }
    ensures within { IfOk result (λ from. from < length snap.now.history) }
{
    if whole {
        return Ok(have);
    }
    let ops = vouches(alloc, snap, have)?;
    Ok(vouch_point(&ops, have, f))
}

/// The bytes of a view with what is new to who has accepted `have` positions.
fn news<D: Digester>(
    alloc: Global,
    snap: &Snapshot<D>,
    have: u64,
    f: u32,
    whole: bool,
) -> Result<Bytes, NoMemory>
    requires kept { IsKept D.digest_of snap.now }
    requires more { have < length snap.now.history }
    ensures { IfOk result (λ bytes. FewEntries (owner_of snap.now) (leaves_of snap.now)
        → NewsReply D.digest_of (owner_of snap.now) have f (leaves_of snap.now) whole snap.now.view bytes) }
{
    let from = first_shown(alloc, snap, have, f, whole)?;
    let tree = news_text(alloc, snap, have, from)?;
    let dicts = proof_texts(alloc, snap, from)?;
    show_text(alloc, snap.view(), from, tree, dicts)
}

/// The bytes that an honest server replies with to who has accepted `have` positions of the wall and fears no more than
/// `f` false writers: its view, and where that covers more, what is new. All that follows is shown where `whole` is set,
/// and else what follows the vouch point. Each position is shown with the part of the access list before it that its
/// operation meets; where no state of the wall has more than 32 entries nothing is missing there. A list of more than
/// 1,056 bytes is hidden. Nothing is hashed that the history or an access list keeps.
pub fn show<D: Digester>(
    alloc: Global,
    snap: &Snapshot<D>,
    have: u64,
    f: u32,
    whole: bool,
) -> Result<Bytes, NoMemory>
    requires honest { IsOfHonest D.digest_of snap.now }
    ensures { (facts : WallFacts) (L : List Leaf) → Stands D.digest_of facts L snap.now → IsHonest D.digest_of facts L
        → IfOk result (λ bytes. ShowReply D.digest_of facts.wall facts.owner facts.server have f L whole bytes) }
{
    if snap.size() <= have {
        return bare(alloc, snap.view());
    }
    news(alloc, snap, have, f, whole)
}
