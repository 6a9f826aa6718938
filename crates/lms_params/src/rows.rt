/// Matches an LM-OTS typecode against table 1 of RFC 8554, section 4.1, and expands
/// `$row!(first.., code, w, p, ls)` for each of its four rows. For any other code it is `$other`.
#[macro_export]
macro_rules! match_row {
    ($ots:expr, $row:ident($($first:literal),*), $other:expr) => {
        match $ots {
            1 => $row!($($first,)* 1, 1, 265, 7),
            2 => $row!($($first,)* 2, 2, 133, 6),
            3 => $row!($($first,)* 3, 4, 67, 4),
            4 => $row!($($first,)* 4, 8, 34, 0),
            _ => $other,
        }
    };
}

/// Matches an LMS typecode against table 2 of RFC 8554, section 5.1, and an LM-OTS typecode against
/// table 1, and expands `$pair!(lms code, h, ots code, w, p, ls)` for each of the twenty pairs. For
/// any other two codes it is `$other`.
#[macro_export]
macro_rules! match_pair {
    ($lms:expr, $ots:expr, $pair:ident, $other:expr) => {
        match $lms {
            5 => $crate::match_row!($ots, $pair(5, 5), $other),
            6 => $crate::match_row!($ots, $pair(6, 10), $other),
            7 => $crate::match_row!($ots, $pair(7, 15), $other),
            8 => $crate::match_row!($ots, $pair(8, 20), $other),
            9 => $crate::match_row!($ots, $pair(9, 25), $other),
            _ => $other,
        }
    };
}
