ghost use Rattle.std.specs.Prelude.{◌<◌, ◌^◌, IfOk, length};

use serde_json::Value;
use std::alloc::Global;
use vector_cases::{CaseFault, Cases, list_at, list_of, number_at, number_of, small_of};
use vouch_rule::{Vouch, vouch_point, vouchers};

/// Who vouches for skipped positions.
#[derive(Drop)]
pub struct Vouching;

impl Cases for Vouching {
    fn is_same(&mut self, alloc: Global, case: &Value) -> Result<bool, CaseFault> {
        let have = number_at(case, "have")?;
        let ops = ops_at(alloc, case)?;
        Ok(
            are_points(ops.as_slice(), have, list_at(case, "points")?)?
                && are_vouchers(ops.as_slice(), list_at(case, "vouchers")?)?,
        )
    }
}

fn op_of(value: &Value) -> Result<Vouch, CaseFault> {
    let [author, size] = list_of(value)? else {
        return Err(CaseFault::NoValue("an author and a size"));
    };
    Ok(Vouch {
        author: small_of(author)?,
        size: number_of(size)?,
    })
}

fn ops_at(alloc: Global, case: &Value) -> Result<Vec<Vouch>, CaseFault>
    ensures { IfOk result (λ ops. length ops.items < 2 ^ 32) }
{
    let mut ops = Vec::new(alloc);
    for value in list_at(case, "ops")? {
        ops.push(op_of(value)?)?;
    }
    if ops.len() > u32::MAX as usize {
        return Err(CaseFault::NoValue("fewer than 2^32 operations"));
    }
    Ok(ops)
}

fn are_points(ops: &[Vouch], have: u64, points: &[Value]) -> Result<bool, CaseFault>
    requires few { length ops.now < 2 ^ 32 }
{
    for (f, point) in points.iter().enumerate() {
        let Ok(f) = u32::try_from(f) else {
            return Err(CaseFault::NoValue("fewer than 2^32 points"));
        };
        if vouch_point(ops, have, f) != number_of(point)? {
            return Ok(false);
        }
    }
    Ok(true)
}

fn are_vouchers(ops: &[Vouch], counts: &[Value]) -> Result<bool, CaseFault>
    requires few { length ops.now < 2 ^ 32 }
{
    for (from, count) in counts.iter().enumerate() {
        if vouchers(ops, from as u64) != small_of(count)? {
            return Ok(false);
        }
    }
    Ok(true)
}
