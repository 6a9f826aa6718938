use super::*;
use std::test::Fail;

/// The operations of a wall from position 0 on: three by user 1, then one by user 2 and one by user 3.
const OPS: [Vouch; 5] = [
    Vouch { author: 1, size: 0 },
    Vouch { author: 1, size: 1 },
    Vouch { author: 1, size: 2 },
    Vouch { author: 2, size: 3 },
    Vouch { author: 3, size: 3 },
];

#[test]
fn vouchers_are_counted_once(rt: HostRuntime) -> Result<(), Fail> {
    for (from, want) in [(0, 3), (1, 3), (2, 3), (3, 2), (4, 0), (u64::MAX, 0)] {
        assert_eq!(rt; (from, vouchers(&OPS, from)), (from, want));
    }
    Ok(())
}

#[test]
fn the_point_is_the_greatest_that_is_vouched_for(rt: HostRuntime) -> Result<(), Fail> {
    for (f, want) in [(0, 3), (1, 3), (2, 2), (3, 0)] {
        assert_eq!(rt; (f, vouch_point(&OPS, 0, f)), (f, want));
    }
    Ok(())
}

#[test]
fn laws_are_called() {
    laws::points();
    laws::outsiders();
}
