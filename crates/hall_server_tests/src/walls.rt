//! Walls of three users: the owner 1, who admits the writers 2 and 3.
ghost use Rattle.hall_replies.specs.Kept.{IsOfHonest};
ghost use Rattle.lms_params.specs.Parameters.{IsListed};
ghost use Rattle.op_types.specs.Spelling.{IsOp};
ghost use Rattle.std.specs.Prelude.{◌≡◌, [], IfOk};

use fr_bytes::{NoMemory, Sequence, put_bytes, put_u32, put_u64};
use fr_digest::Digester;
use hall_core::laws::honesty;
use hall_core::{Answer, Ask, Hall, Slip, Snapshot};
use lms_params::{Pair, pair_of};
use lms_tree::{PublicKey, Signer, UserKeys};
use op_types::{Op, View, read_op};
use signed_ops::{sign_op, view_copy};
use std::alloc::Global;
use std::test::Fail;

/// An operation: its author, its number, the epoch, the size of the view that it embeds, and its kind.
pub type Draft = (u8, u32, u8, usize, &'static [u8]);

fn pair_by(lms: u32) -> Result<Pair, Fail>
    ensures { IfOk result IsListed }
{
    match pair_of(lms, 1) {
        Some(pair) => Ok(pair),
        None => Err("no pair of the tables".into()),
    }
}

/// The signers of the users 1, 2 and 3.
pub fn user_signers(alloc: Global, lms: u32) -> Result<Vec<Signer>, Fail> {
    let mut signers = Vec::new(alloc);
    for (user, id) in [(1, 0x41), (2, 0x42), (3, 0x43)] {
        signers.push(Signer::make(alloc, &[user; 32], &[id; 16], pair_by(lms)?)?)?;
    }
    Ok(signers)
}

fn server_signer(alloc: Global) -> Result<Signer, Fail>
    ensures tall { IfOk result (λ signer. signer.pair.lms.h ≡ 10) }
    ensures fresh { IfOk result (λ signer. signer.used ≡ 0) }
{
    let pair = pair_by(6)?;
    if pair.lms.h != 10 {
        return Err("another height".into());
    }
    Ok(Signer::make(alloc, &[9; 32], &[0x49; 16], pair)?)
}

/// The users' keys.
pub fn keys_of(alloc: Global, signers: &[Signer]) -> Result<UserKeys, Fail> {
    let mut keys = Vec::new(alloc);
    for (user, signer) in [1, 2, 3].iter().zip(signers) {
        keys.push((*user, signer.public()))?;
    }
    Ok(Sequence::of(keys))
}

/// A wall without leaves, and the server's key.
pub fn empty<D: Digester>(alloc: Global, signers: &[Signer]) -> Result<(Hall<D>, PublicKey), Fail>
    ensures { IfOk result (λ r. r.0.entries ≡ []) }
{
    let server = server_signer(alloc)?;
    let key = server.public();
    let keys = keys_of(alloc, signers)?;
    Ok((Hall::make(alloc, 1, 1, 0, server, keys)?, key))
}

/// The wall as it is now.
pub fn seen<D: Digester>(hall: &Hall<D>) -> Result<Snapshot<D>, NoMemory>
    ensures { IfOk result (λ snapshot. IsOfHonest D.digest_of snapshot) }
{
    honesty::<D>();
    hall.seen()
}

fn put_view(out: &mut Vec<u8>, view: &View) -> Result<(), Fail> {
    put_u64(out, view.size)?;
    put_bytes(out, &view.root)?;
    put_u32(out, u32::try_from(view.sig.len())?)?;
    put_bytes(out, view.sig.as_slice())?;
    Ok(())
}

fn put_seen(out: &mut Vec<u8>, views: &[View], size: usize) -> Result<(), Fail> {
    match views.get(size.wrapping_sub(1)) {
        Some(view) => put_view(out, view),
        None => Ok(put_u64(out, 0)?),
    }
}

/// An operation of wall 1 up to its view.
fn put_head(out: &mut Vec<u8>, draft: Draft) -> Result<(), NoMemory> {
    put_bytes(out, &[0, 0, 0, 1, 0, 0, 0, draft.0])?;
    put_u32(out, draft.1)?;
    put_u64(out, u64::from(draft.2))?;
    Ok(())
}

fn unsigned_bytes(alloc: Global, views: &[View], draft: Draft) -> Result<Vec<u8>, Fail> {
    let mut bytes = Vec::new(alloc);
    put_head(&mut bytes, draft)?;
    put_seen(&mut bytes, views, draft.3)?;
    put_bytes(&mut bytes, draft.4)?;
    put_u32(&mut bytes, 0)?;
    Ok(bytes)
}

/// The operation, signed by its author. It embeds one of the views.
pub fn signed(
    alloc: Global,
    signers: &mut Vec<Signer>,
    views: &[View],
    draft: Draft,
) -> Result<Op, Fail>
    ensures { IfOk result IsOp }
{
    let unsigned = read_op(alloc, &unsigned_bytes(alloc, views, draft)?)?;
    let Some(signer) = signers.get_mut(usize::from(draft.0).saturating_sub(1)) else {
        return Err("no such signer".into());
    };
    Ok(sign_op(alloc, signer, unsigned)?)
}

fn ask_of(
    alloc: Global,
    signers: &mut Vec<Signer>,
    views: &[View],
    draft: Draft,
) -> Result<Slip, Fail> {
    let op = signed(alloc, signers, views, draft)?;
    match Slip::new(alloc, u32::from(draft.0), Ask::Append { op }) {
        Ok(slip) => Ok(slip),
        Err((refused, ask)) => {
            drop(ask);
            Err(refused.into())
        }
    }
}

/// Appends the operation, and keeps the view of the wall then.
pub fn append<D: Digester>(
    alloc: Global,
    hall: &mut Hall<D>,
    signers: &mut Vec<Signer>,
    views: &mut Vec<View>,
    draft: Draft,
) -> Result<(), Fail> {
    let slip = ask_of(alloc, signers, views, draft)?;
    let Answer::Placed { .. } = hall.step(slip) else {
        return Err("an operation is refused".into());
    };
    views.push(view_copy(hall.seen()?.view())?)?;
    Ok(())
}
