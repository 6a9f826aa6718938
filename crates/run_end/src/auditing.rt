ghost use Rattle.std.specs.Prelude.{◌≡◌, IfOk};
ghost use Rattle.op_types.specs.Spelling.{IsOp, op_text};
ghost use Rattle.world_book.specs.Kept.{Kept};
ghost use Rattle.run_end.specs.Ends.{TellsOf};

use audit_run::{AuditEnd, Sound, audit};
use fr_bytes::{Bytes, NoMemory};
use fr_digest::{Clash, Digester};
use op_types::{Op, write_op};
use script_form::AuditLine;
use std::alloc::Global;
use world_book::World;

/// The line of the audit of what is kept of a run.
///
/// - `Sound` tells the counts of the records, where nothing is found.
/// - `Collision` tells two different strings of one digest.
/// - `Forged` tells the bytes of an operation in the name of an honest user who never signed it.
pub fn audit_line<D: Digester>(alloc: Global, world: &World) -> Result<AuditLine, NoMemory>
    requires { Kept D.digest_of world.now }
    ensures { IfOk result (TellsOf D.digest_of world.now) }
{
    match audit::<D>(alloc, world) {
        Ok(found) => Ok(sound_line(found)),
        Err(AuditEnd::Clash(clash)) => collision_line(alloc, &clash),
        Err(AuditEnd::Forged { user, wall, op }) => forged_line(alloc, user, wall, &op),
        Err(AuditEnd::NoMemory) => Err(NoMemory),
    }
}

fn sound_line(found: Sound) -> AuditLine
    ensures { result ≡ AuditLine.Sound found.records found.grounded }
{
    AuditLine::Sound {
        records: found.records,
        grounded: found.grounded,
    }
}

fn collision_line<D: Digester>(alloc: Global, clash: &Clash<D>) -> Result<AuditLine, NoMemory>
    ensures { IfOk result (λ line. line ≡ AuditLine.Collision clash.now.a clash.now.b) }
{
    Ok(AuditLine::Collision {
        a: bytes_of(alloc, clash.a())?,
        b: bytes_of(alloc, clash.b())?,
    })
}

fn forged_line(alloc: Global, user: u32, wall: u32, op: &Op) -> Result<AuditLine, NoMemory>
    requires { IsOp op.now }
    ensures { IfOk result (λ line. line ≡ AuditLine.Forged user wall (op_text op.now)) }
{
    let op = write_op(alloc, op)?;
    Ok(AuditLine::Forged { user, wall, op })
}

fn bytes_of(alloc: Global, bytes: &[u8]) -> Result<Bytes, NoMemory>
    ensures { IfOk result (λ copy. copy ≡ bytes.now) }
{
    Ok(Bytes::of(Vec::from_slice(alloc, bytes)?))
}
