use crate::pair_of;

// Typecodes of LMS and LM-OTS with the height, the width and the bytes of a signature, by RFC 8554.
const PAIRS: [(u32, u32, Option<(u32, u32, usize)>); 7] = [
    (9, 1, Some((25, 1, 9324))),
    (5, 4, Some((5, 8, 1292))),
    (6, 3, Some((10, 4, 2508))),
    (4, 1, None),
    (10, 1, None),
    (5, 0, None),
    (5, 5, None),
];

#[test]
fn pairs_are_those_of_the_tables(rt: HostRuntime) {
    for (lms, ots, wanted) in PAIRS {
        let found = pair_of(lms, ots).map(|pair| (pair.lms.h, pair.ots.w, pair.sig_len()));
        assert_eq!(rt; found, wanted);
    }
}
