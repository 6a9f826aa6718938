ghost use Rattle.std.specs.Prelude.{◌≡◌, ℕ, Err, filter, is_some, length, IfOk};
ghost use Rattle.std.specs.Option.{option_map};
ghost use Rattle.op_types.specs.declared.op.Op.{Op};
ghost use Rattle.fr_digest.specs.Collision.{Strings};
ghost use Rattle.world_book.specs.Kept.{Kept};
ghost use Rattle.world_audit.specs.Comparisons.{all_compared};
ghost use Rattle.world_audit.specs.Sound.{NothingUnsigned};
ghost use Rattle.audit_run.specs.Answer.{count_grounded, count_records};
ghost use Rattle.audit_run.specs.Compared.{Compared};
ghost use Rattle.audit_run.specs.Ends.{FindsClash, FindsForged, FindsNothing};

use crate::answer::{AuditEnd, Sound};
use crate::index::Index;
use crate::order::places_in_order;
use crate::record::first_clash;
use crate::stories::all_histories;
use crate::unsigned::first_unsigned;
use fr_bytes::NoMemory;
use fr_digest::{Clash, Digester};
use op_types::Leaf;
use signed_ops::op_copy;
use std::alloc::Global;
use world_book::World;

/// What comes of all comparisons, and the counts.
#[derive(Drop)]
struct Outcome<D: Digester> {
    clash: Option<Clash<D>>,
    counts: Sound,
}

/// How many of them there are.
fn count_some(places: &[Option<usize>]) -> u64
    ensures { result ≡ length (filter (λ p. is_some p) places.now) }
{
    places.iter().filter(|place| place.is_some()).count() as u64
}

/// The first comparison of a world that differs, and the counts of its records.
fn compare_world<D: Digester>(alloc: Global, world: &World) -> Result<Outcome<D>, NoMemory>
    requires kept { Kept D.digest_of world.now }
    requires unsigned { NothingUnsigned world.now }
    ensures compared { IfOk result (λ o. Compared D.digest_of (all_compared world.now) o.clash) }
    ensures records { IfOk result (λ o. o.counts.records ≡ count_records world.now) }
    ensures grounded { IfOk result (λ o. o.counts.grounded ≡ count_grounded world.now) }
{
    let index = Index::new(alloc, world)?;
    let histories = all_histories::<D>(alloc, &index)?;
    let order = places_in_order(alloc, &index, &histories.places)?;
    let clash = first_clash::<D>(alloc, &index, &histories, &order)?;
    Ok(Outcome {
        clash,
        counts: Sound {
            records: index.records.len() as u64,
            grounded: count_some(&histories.places),
        },
    })
}

/// The answer of a leaf whose author never signed its operation.
fn forged<D: Digester>(leaf: &Leaf) -> AuditEnd<D>
    ensures clash { (s : Strings) → result ≡ AuditEnd.Clash s → ⊥ }
    ensures forged { (user wall : ℕ) (op : Op) → result ≡ AuditEnd.Forged user wall op
        → (user ≡ leaf.now.op.author) × (wall ≡ leaf.now.op.wall) × (op ≡ leaf.now.op) }
{
    match op_copy(&leaf.op) {
        Err(_) => AuditEnd::NoMemory,
        Ok(op) => AuditEnd::Forged {
            user: leaf.op.author,
            wall: leaf.op.wall,
            op,
        },
    }
}

/// Audits what is kept of a run. It needs no more than that the records are kept as honest clients keep them.
///
/// Where nothing is found, both counts are exact, and every history with a ground is sound: it is lawful, extends what
/// its user had accepted before, agrees with what honest users signed and saw, and was checked by honest clients; and
/// on a wall where as many users may be in league with the server as there are rogues, every record has a ground.
///
/// The histories of all records are held once: what two of them begin with is spelled and digested a single time, and
/// nothing of a record's history is digested again where its comparisons agree.
///
/// # Errors
/// - `Forged`, exactly where a record shows an operation in the name of an honest user who never signed it: the first,
///   over the users rising, each one's records in order and each record's positions.
/// - `Clash`, exactly where there is none and a comparison differs: two strings of one digest, from the first
///   comparison that differs, with the record's own string first.
/// - `NoMemory`.
pub fn audit<D: Digester>(alloc: Global, world: &World) -> Result<Sound, AuditEnd<D>>
    requires { Kept D.digest_of world.now }
    ensures sound { IfOk result (λ found. FindsNothing D.digest_of world.now found) }
    ensures clash { (s : Strings) → result ≡ Err (AuditEnd.Clash s) → FindsClash D.digest_of world.now s }
    ensures forged { (user wall : ℕ) (op : Op) → result ≡ Err (AuditEnd.Forged user wall op)
        → FindsForged world.now user wall op }
{
    if let Some(leaf) = first_unsigned(world) {
        return Err(forged(leaf));
    }
    let Ok(outcome) = compare_world::<D>(alloc, world) else {
        return Err(AuditEnd::NoMemory);
    };
    match outcome.clash {
        Some(clash) => Err(AuditEnd::Clash(clash)),
        None => Ok(outcome.counts),
    }
}
