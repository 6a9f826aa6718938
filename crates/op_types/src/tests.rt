use super::*;

#[test]
fn roles_allow_what_their_numbers_say(rt: HostRuntime) {
    // role, whether it may write, whether an admission may give it
    for (role, writes, is_given) in [
        (0, false, false),
        (1, false, true),
        (2, true, true),
        (3, true, false),
        (4, false, false),
    ] {
        assert_eq!(rt; (may_write(role), may_be_given(role)), (writes, is_given));
    }
}

#[test]
fn laws_are_called() {
    laws::one_spelling_of_ops();
    laws::one_spelling_of_leaves();
}
