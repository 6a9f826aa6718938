ghost use Rattle.std.specs.Prelude.{◌≡◌, ◌<◌, ◌+◌, ◌^◌, All, drop, length};
ghost use Rattle.vouch_rule.specs.Counting.{is_new_vouch, is_voucher};
ghost use Rattle.vouch_rule.specs.Vouching.{IsVouchPoint, vouchers};
ghost use Rattle.vouch_rule.specs.declared.vouch.Vouch.{Vouch};

use crate::counting::is_last_vouch;
use crate::vouch::Vouch;

/// The vouch point: the greatest position past `have` from which more than `f` users vouch, and `have` where there is
/// none. The operations are those at the positions `have` and later, in order, and from a position only those at it
/// and later count.
///
/// Takes no memory, and time that grows with the square of the number of operations at most.
pub fn vouch_point(ops: &[Vouch], have: u64, f: u32) -> u64
    requires few { length ops.now < 2 ^ 32 }
    ensures { IsVouchPoint ops.now have f result }
{
    // It brings to the proof that nobody vouches from a position that is no u64.
    sizes_fit(ops);
    let mut found: u32 = 0;
    for place in (1..ops.len()).rev() {
        if let Some(from) = have.checked_add(place as u64) {
            let (_, rest) = ops.split_at(place);
            found += new_vouchers(rest, from);
            if found > f {
                return from;
            }
        }
    }
    have
}

/// How many users vouch from `from`, the first operation's position, and not from the next one.
fn new_vouchers(ops: &[Vouch], from: u64) -> u32
    requires some { 0 < length ops.now }
    requires few { length ops.now < 2 ^ 32 }
    ensures { result + vouchers (drop 1 ops.now) (from + 1) ≡ vouchers ops.now from }
{
    let (_, later) = ops.split_at(1);
    is_last_vouch(ops, from) as u32 + vouchers_until(later, from)
}

/// How many users vouch from `from` and not from the next position.
fn vouchers_until(ops: &[Vouch], from: u64) -> u32
    requires few { length ops.now < 2 ^ 32 }
    ensures { result + vouchers ops.now (from + 1) ≡ vouchers ops.now from }
{
    let mut found = 0;
    for place in 0..ops.len() {
        let (_, rest) = ops.split_at(place);
        found += is_new_vouch(ops, rest, from) as u32;
    }
    found
}

/// Whether the first operation of the rest covers exactly the positions below `from`, is its author's last that vouches
/// from there, and the author doesn't vouch from the next position among all of the operations.
fn is_new_vouch(all: &[Vouch], rest: &[Vouch], from: u64) -> bool
    ensures { result ≡ is_new_vouch from all.now rest.now }
{
    match rest.first() {
        Some(op) => op.size == from
            && is_last_vouch(rest, from)
            && !is_later_voucher(all, from, op.author),
        None => false,
    }
}

/// Whether a user vouches from the position behind `from`.
fn is_later_voucher(ops: &[Vouch], from: u64, user: u32) -> bool
    ensures { result ≡ is_voucher (from + 1) ops.now user }
{
    ops.iter().any(|op| op.size > from && user == op.author)
}

/// A size fits 64 bits.
fn size_fits(op: Vouch)
    ensures { op.size < 2 ^ 64 }
{}

/// The same of each operation of a slice. The loop is for the proof alone and computes nothing.
fn sizes_fit(ops: &[Vouch])
    ensures { All (λ (op : Vouch). op.size < 2 ^ 64) ops.now }
{
    for op in ops {
        size_fits(*op);
    }
}
