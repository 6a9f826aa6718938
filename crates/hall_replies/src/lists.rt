//! The pruned access lists that prove positions.
ghost use Rattle.dict_proof.specs.Spelling.{Spells};
ghost use Rattle.dict_proof.specs.View.{change_view, list_view};
ghost use Rattle.hall_replies.specs.Kept.{IsKept, leaves_of, owner_of};
ghost use Rattle.hall_replies.specs.Shown.{SpellProofs, SpellsProof, SpellsShort};
ghost use Rattle.pruned_list.specs.PrunedList.{hidden};
ghost use Rattle.std.specs.Prelude.{◌≡◌, ◌+◌, ◌<◌, ◌≤◌, IfOk, length, take};
ghost use Rattle.wall_law.specs.State.{change_of, state_of};

use crate::ranges::{digest_fits, numbers_fit};
use dict_proof::{Change, PrunedDict, is_spelled, write_dict};
use dict_treap::Dict;
use fr_bytes::{Bytes, NoMemory, Sequence, Texts};
use fr_digest::{Dig, Digester};
use hall_core::Snapshot;
use op_types::Kind;
use std::alloc::Global;
use tree_model::Entry;
use tree_prune::prune_for;

/// The most bytes of a list that is shown: what 32 hidden parts take.
pub(crate) const LIST_BYTES_MAX: usize = 1_056;

/// What an operation does to the access list beside its author's entry.
fn change_of(kind: &Kind) -> Change
    ensures { change_view result ≡ change_of kind.now }
{
    match kind {
        Kind::Post { .. } => Change::None,
        Kind::Admit { user, role, .. } => Change::Insert(Entry {
            user: *user,
            role: *role,
            next: 0,
        }),
        Kind::Remove { user, .. } => Change::Remove(*user),
    }
}

/// The text of a list that is hidden as a whole.
fn hidden_text(alloc: Global, digest: Dig) -> Result<Bytes, NoMemory>
    ensures { IfOk result (λ bytes. Spells (hidden digest) bytes) }
{
    digest_fits(digest);
    write_dict(alloc, &PrunedDict::Hidden(digest))
}

/// The text of a list, or of its digest where the list has no text or too long a one.
fn short_text(alloc: Global, list: PrunedDict, digest: Dig) -> Result<Bytes, NoMemory>
    ensures { IfOk result (λ bytes. SpellsShort (list_view list) bytes) }
{
    if !is_spelled(&list) {
        return hidden_text(alloc, digest);
    }
    let bytes = write_dict(alloc, &list)?;
    if bytes.len() > LIST_BYTES_MAX {
        return hidden_text(alloc, digest);
    }
    Ok(bytes)
}

/// The access list before position `k`.
fn list_before<D: Digester>(snap: &Snapshot<D>, k: u64) -> &Dict<D>
    requires kept { IsKept D.digest_of snap.now }
    requires within { k ≤ length snap.now.history }
    ensures { result.now ≡ (state_of (owner_of snap.now) (take k (leaves_of snap.now))).entries }
{
    if k == 0 {
        return snap.opening();
    }
    &snap.history().item(k - 1).list
}

/// The text of the list that is shown before position `k`.
fn proof_text<D: Digester>(alloc: Global, snap: &Snapshot<D>, k: u64) -> Result<Bytes, NoMemory>
    requires kept { IsKept D.digest_of snap.now }
    requires within { k < length snap.now.history }
    ensures { IfOk result (λ bytes. SpellsProof D.digest_of (owner_of snap.now) (leaves_of snap.now) k bytes) }
{
    let op = &snap.history().item(k).leaf.op;
    let before = list_before(snap, k);
    let list = prune_for(alloc, before, op.author, change_of(&op.kind))?;
    numbers_fit(&list);
    short_text(alloc, list, before.digest())
}

/// The texts of the lists before the positions from `from` on.
pub(crate) fn proof_texts<D: Digester>(
    alloc: Global,
    snap: &Snapshot<D>,
    from: u64,
) -> Result<Texts, NoMemory>
    requires kept { IsKept D.digest_of snap.now }
    requires within { from ≤ length snap.now.history }
    ensures count { IfOk result (λ texts. from + length texts ≡ length snap.now.history) }
    ensures each { IfOk result (λ texts. SpellProofs D.digest_of (owner_of snap.now) (leaves_of snap.now) from texts) }
{
    let mut texts = Vec::new(alloc);
    for k in from..snap.size() {
        let text = proof_text(alloc, snap, k)?;
        texts.push(text)?;
    }
    Ok(Sequence::of(texts))
}
