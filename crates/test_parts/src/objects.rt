//! The sizes of objects, their ranges, the capability of a new one, and which lies in which.
use crate::capabilities::{cnode, endpoint, untyped};
use cap_core::{
    Cap, Kind, Narrow, Profile, Wide, fresh, in_region, object_bits, range_of, same_object,
};
use std::test::Fail;

#[test]
fn wide_objects_have_their_sizes(rt: HostRuntime) -> Result<(), Fail> {
    for (kind, size_bits, bits) in [
        (Kind::Untyped, 0, Some(0)),
        (Kind::Untyped, 47, Some(47)),
        (Kind::Untyped, 48, None),
        (Kind::Tcb, 63, Some(11)),
        (Kind::Tcb, 64, None),
        (Kind::Endpoint, 0, Some(4)),
        (Kind::Endpoint, u64::MAX, None),
        (Kind::CNode, 0, Some(5)),
        (Kind::CNode, 42, Some(47)),
        (Kind::CNode, 43, None),
    ] {
        assert_eq!(rt; object_bits::<Wide>(kind, size_bits), bits);
    }
    Ok(())
}

#[test]
fn narrow_objects_have_their_sizes(rt: HostRuntime) -> Result<(), Fail> {
    for (kind, size_bits, bits) in [
        (Kind::Untyped, 29, Some(29)),
        (Kind::Untyped, 30, None),
        (Kind::Tcb, 31, Some(10)),
        (Kind::Tcb, 32, None),
        (Kind::Endpoint, 31, Some(4)),
        (Kind::CNode, 0, Some(4)),
        (Kind::CNode, 25, Some(29)),
        (Kind::CNode, 26, None),
    ] {
        assert_eq!(rt; object_bits::<Narrow>(kind, size_bits), bits);
    }
    Ok(())
}

#[test]
fn new_capabilities_hold_nothing(rt: HostRuntime) -> Result<(), Fail> {
    for (kind, base, size_bits, cap) in [
        (Kind::Untyped, 16384, 12, untyped(16384, 12)),
        (Kind::Tcb, 18432, 0, Cap::Tcb { base: 18432 }),
        (Kind::Endpoint, 6144, 0, endpoint(0, 15)),
        (Kind::CNode, 16384, 2, cnode(2, 0, 0)),
    ] {
        assert_eq!(rt; fresh(kind, base, size_bits), cap);
    }
    Ok(())
}

fn range<P: Profile>(cap: Cap) -> Option<(u64, u64)> {
    let range = range_of::<P>(cap)?;
    Some((range.first, range.bits))
}

#[test]
fn objects_have_their_ranges(rt: HostRuntime) -> Result<(), Fail> {
    for (cap, wide, narrow) in [
        (Cap::Null, None, None),
        (untyped(16384, 12), Some((16384, 12)), Some((16384, 12))),
        (endpoint(0, 15), Some((6144, 4)), Some((6144, 4))),
        (cnode(2, 0, 0), Some((16384, 7)), Some((16384, 6))),
        (Cap::Tcb { base: 2048 }, Some((2048, 11)), Some((2048, 10))),
    ] {
        assert_eq!(rt; (range::<Wide>(cap), range::<Narrow>(cap)), (wide, narrow));
    }
    Ok(())
}

#[test]
fn capabilities_name_one_object(rt: HostRuntime) -> Result<(), Fail> {
    for (a, b, same) in [
        (endpoint(0, 15), endpoint(5, 1), true),
        (cnode(2, 0, 0), cnode(2, 5, 3), true),
        (cnode(2, 0, 0), cnode(3, 0, 0), false),
        (untyped(0, 12), untyped(0, 12), false),
        (endpoint(0, 15), Cap::Tcb { base: 6144 }, false),
        (Cap::Null, Cap::Null, false),
    ] {
        assert_eq!(rt; same_object(a, b), same);
    }
    Ok(())
}

#[test]
fn regions_end_to_the_byte(rt: HostRuntime) -> Result<(), Fail> {
    for (a, b, inside) in [
        (untyped(6144, 4), endpoint(0, 15), true),
        (untyped(6144, 3), endpoint(0, 15), false),
        (untyped(6145, 5), endpoint(0, 15), false),
        (untyped(6128, 5), endpoint(0, 15), true),
        (untyped(6127, 5), endpoint(0, 15), false),
        (untyped(16384, 12), untyped(16384, 12), true),
        (untyped(16384, 7), cnode(2, 0, 0), true),
        (untyped(16384, 6), cnode(2, 0, 0), false),
        (untyped(0, 64), untyped(u64::MAX, 0), true),
        (untyped(1, 64), untyped(u64::MAX, 1), true),
        (untyped(0, 64), untyped(u64::MAX, 1), false),
        (untyped(0, 65), untyped(u64::MAX, 64), true),
        (untyped(0, 65), untyped(1, 65), false),
        (untyped(0, 12), Cap::Null, false),
        (endpoint(5, 1), endpoint(0, 15), true),
        (Cap::Null, Cap::Null, false),
    ] {
        assert_eq!(rt; in_region::<Wide>(a, b), inside);
    }
    assert!(rt; in_region::<Narrow>(untyped(16384, 6), cnode(2, 0, 0)));
    Ok(())
}
