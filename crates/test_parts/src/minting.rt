//! What a mint makes of a capability.
use crate::capabilities::{cnode, endpoint, untyped};
use cap_core::{Cap, Narrow, Rights, Wide, mask, set_data};
use std::test::Fail;

#[test]
fn rights_are_met(rt: HostRuntime) -> Result<(), Fail> {
    for (cap, given, left) in [
        (endpoint(5, 15), 2, endpoint(5, 2)),
        (endpoint(5, 2), 15, endpoint(5, 2)),
        (endpoint(5, 5), 6, endpoint(5, 4)),
        (endpoint(5, 1), 2, endpoint(5, 0)),
        (endpoint(5, 0), 15, endpoint(5, 0)),
        (cnode(2, 5, 3), 0, cnode(2, 5, 3)),
        (Cap::Null, 0, Cap::Null),
    ] {
        assert_eq!(rt; mask(cap, Rights(given)), left);
    }
    Ok(())
}

#[test]
fn wide_words_set_guards(rt: HostRuntime) -> Result<(), Fail> {
    for (word, radix, after) in [
        (323, 2, Some(cnode(2, 5, 3))),
        (58, 4, Some(cnode(4, 0, 58))),
        (62, 2, Some(cnode(2, 0, 62))),
        (63, 2, None),
        (63, 1, Some(cnode(1, 0, 63))),
        (u64::MAX, 1, Some(cnode(1, (1 << 58) - 1, 63))),
        (0b1101 << 6 | 2, 4, Some(cnode(4, 1, 2))),
    ] {
        assert_eq!(rt; set_data::<Wide>(false, word, cnode(radix, 0, 0)), after);
        assert_eq!(rt; set_data::<Wide>(true, word, cnode(radix, 1, 1)), after);
    }
    Ok(())
}

#[test]
fn wide_words_set_badges(rt: HostRuntime) -> Result<(), Fail> {
    for (preserve, word, cap, after) in [
        (false, u64::MAX, endpoint(0, 1), Some(endpoint(u64::MAX, 1))),
        (false, 6, endpoint(5, 1), None),
        (true, 6, endpoint(0, 1), None),
        (true, 6, untyped(0, 4), Some(untyped(0, 4))),
    ] {
        assert_eq!(rt; set_data::<Wide>(preserve, word, cap), after);
    }
    Ok(())
}

#[test]
fn narrow_words_set_data(rt: HostRuntime) -> Result<(), Fail> {
    for (word, cap, after) in [
        (5 << 5 | 3, cnode(2, 0, 0), Some(cnode(2, 5, 3))),
        (30, cnode(2, 0, 0), Some(cnode(2, 0, 30))),
        (31, cnode(2, 0, 0), None),
        (31, cnode(1, 0, 0), Some(cnode(1, 0, 31))),
        (
            u32::MAX as u64,
            cnode(1, 0, 0),
            Some(cnode(1, (1 << 27) - 1, 31)),
        ),
        (
            (1 << 28) - 1,
            endpoint(0, 15),
            Some(endpoint((1 << 28) - 1, 15)),
        ),
        (1 << 28, endpoint(0, 15), Some(endpoint(0, 15))),
        ((1 << 28) + 5, endpoint(0, 15), Some(endpoint(5, 15))),
    ] {
        assert_eq!(rt; set_data::<Narrow>(false, word, cap), after);
    }
    Ok(())
}
