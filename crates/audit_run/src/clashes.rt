ghost use Rattle.std.specs.Prelude.{◌≡◌, ◌+◌, ◌^◌, ◌<◌, ◌≤◌, ◌∷◌, [], length, map, take, true, IfOk};
ghost use Rattle.std.specs.List.{flat_map};
ghost use Rattle.dict_proof.specs.View.{list_view};
ghost use Rattle.hist_proof.specs.Pruned.{Tree, cut};
ghost use Rattle.hist_proof.specs.View.{tree_view};
ghost use Rattle.world_audit.specs.Comparisons.{dict, dicts_compared, lists, some_in, texts_of, tree};
ghost use Rattle.world_audit.specs.Ready.{AreReady};
ghost use Rattle.audit_run.specs.Compared.{Compared};

use crate::line::Line;
use dict_proof::PrunedDict;
use fr_bytes::NoMemory;
use fr_digest::{Clash, Digester};
use hist_proof::{Pruned, cut};
use std::alloc::Global;
use tree_extract::{dict_clash, hist_clash, list_clash};
use wall_law::State;

/// The comparison of a record's tree, cut at the size of the record on whose history it rests, with that history.
/// Where the tree prunes the history, no text is digested.
pub(crate) fn tree_clash<D: Digester>(
    alloc: Global,
    proof: &Pruned,
    size: u64,
    line: &Line<'_, D>,
    v: u64,
) -> Result<Option<Clash<D>>, NoMemory>
    requires within { v ≤ length line.now.leaves }
    requires ready { AreReady D.digest_of (map (λ (c : Tree). tree c (texts_of (take v line.now.leaves)))
        (some_in (cut (tree_view proof.now) size v))) }
    ensures { IfOk result (λ c. Compared D.digest_of (map (λ (c : Tree). tree c (texts_of (take v line.now.leaves)))
        (some_in (cut (tree_view proof.now) size v))) c) }
{
    let Some(front) = cut(alloc, proof, size, v)? else {
        return Ok(None);
    };
    if line.prunes(&front, v) {
        return Ok(None);
    }
    let texts = line.texts(alloc, v)?;
    let clash = hist_clash::<D>(alloc, &front, v, &texts)?;
    Ok(clash)
}

/// The comparison of the fronts of two histories, which may be known to be one. Then nothing is looked at.
pub(crate) fn front_clash<D: Digester>(
    alloc: Global,
    a: &Line<'_, D>,
    b: &Line<'_, D>,
    is_same: bool,
    v: u64,
) -> Result<Option<Clash<D>>, NoMemory>
    requires same { is_same ≡ true → a.now ≡ b.now }
    requires left { v ≤ length a.now.leaves }
    requires right { v ≤ length b.now.leaves }
    requires ready { AreReady D.digest_of
        (lists (texts_of (take v a.now.leaves)) (texts_of (take v b.now.leaves)) ∷ []) }
    ensures { IfOk result (λ c. Compared D.digest_of
        (lists (texts_of (take v a.now.leaves)) (texts_of (take v b.now.leaves)) ∷ []) c) }
{
    if is_same {
        return Ok(None);
    }
    let left = a.texts(alloc, v)?;
    let right = b.texts(alloc, v)?;
    let clash = list_clash::<D>(alloc, &left, &right)?;
    Ok(clash)
}

/// The comparison of a pruned list with a state.
fn state_clash<D: Digester>(
    alloc: Global,
    list: &PrunedDict,
    state: &State,
) -> Result<Option<Clash<D>>, NoMemory>
    requires { AreReady D.digest_of (dict (list_view list.now) state.now.entries ∷ []) }
    ensures { IfOk result (λ c. Compared D.digest_of (dict (list_view list.now) state.now.entries ∷ []) c) }
{
    let clash = dict_clash::<D>(alloc, list, state.entries.as_slice())?;
    Ok(clash)
}

/// The comparisons of a record's pruned lists with the states before their positions.
pub(crate) fn states_clash<D: Digester>(
    alloc: Global,
    line: &Line<'_, D>,
    from: u64,
    dicts: &[PrunedDict],
) -> Result<Option<Clash<D>>, NoMemory>
    requires within { from + length dicts.now ≤ length line.now.leaves }
    requires room { from + length dicts.now < 2 ^ 64 }
    requires ready { AreReady D.digest_of
        (dicts_compared line.now.owner line.now.leaves from (map list_view dicts.now)) }
    ensures { IfOk result (λ c. Compared D.digest_of
        (dicts_compared line.now.owner line.now.leaves from (map list_view dicts.now)) c) }
{
    let mut k = from as usize;
    for list in dicts {
        let clash = state_clash::<D>(alloc, list, line.state(k))?;
        if clash.is_some() {
            return Ok(clash);
        }
        k += 1;
    }
    Ok(None)
}
