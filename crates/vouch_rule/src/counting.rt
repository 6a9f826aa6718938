ghost use Rattle.std.specs.Prelude.{◌≡◌, ◌<◌, ◌^◌, length};
ghost use Rattle.vouch_rule.specs.Counting.{is_last_vouch, is_voucher};
ghost use Rattle.vouch_rule.specs.Vouching.{vouchers};

use crate::vouch::Vouch;

/// How many users vouch from position `from`: the distinct authors of those operations whose view covers at least the
/// positions below it. Each is counted once, however many operations it has.
///
/// Takes no memory, and time that grows with the square of the number of operations at most.
pub fn vouchers(ops: &[Vouch], from: u64) -> u32
    requires few { length ops.now < 2 ^ 32 }
    ensures { result ≡ vouchers ops.now from }
{
    let mut found = 0;
    for place in 0..ops.len() {
        let (_, rest) = ops.split_at(place);
        found += is_last_vouch(rest, from) as u32;
    }
    found
}

/// Whether the first of the operations vouches from position `from`, and its author has no later one that does.
pub(crate) fn is_last_vouch(ops: &[Vouch], from: u64) -> bool
    ensures { result ≡ is_last_vouch from ops.now }
{
    match ops.split_first() {
        Some((op, behind)) => op.size >= from && !is_voucher(behind, from, op.author),
        None => false,
    }
}

/// Whether a user vouches from position `from`.
fn is_voucher(ops: &[Vouch], from: u64, user: u32) -> bool
    ensures { result ≡ is_voucher from ops.now user }
{
    ops.iter().any(|op| op.size >= from && user == op.author)
}
