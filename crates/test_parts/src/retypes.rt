//! The shapes and the places of objects that a retype asks for.
use cap_core::limits::MAX_RETYPE_COUNT;
use cap_core::{Cap, Kind, Narrow, Profile, Wide};
use mem_core::{plan, shape};
use std::test::Fail;

/// The kind and the bits of a shape.
fn shape_seen<P: Profile>(kind_number: u64, size_bits: u64) -> Result<(Kind, u32), u32> {
    match shape::<P>(kind_number, size_bits) {
        Ok(shape) => Ok((shape.kind, shape.bits)),
        Err(refusal) => Err(refusal.code()),
    }
}

#[test]
fn wide_shapes_are_within_the_profile(rt: HostRuntime) -> Result<(), Fail> {
    for (number, size_bits, want) in [
        (0, 3, Err(1)),
        (0, 4, Ok((Kind::Untyped, 4))),
        (0, 47, Ok((Kind::Untyped, 47))),
        (0, 48, Err(4)),
        (1, 0, Ok((Kind::Tcb, 11))),
        (1, 63, Ok((Kind::Tcb, 11))),
        (1, 64, Err(4)),
        (2, 63, Ok((Kind::Endpoint, 4))),
        (2, 64, Err(4)),
        (3, 0, Err(1)),
        (3, 64, Err(1)),
        (4, 0, Err(1)),
        (4, 1, Ok((Kind::CNode, 6))),
        (4, 42, Ok((Kind::CNode, 47))),
        (4, 43, Err(4)),
        (4, u64::MAX, Err(4)),
        (5, 4, Err(1)),
    ] {
        assert_eq!(rt; shape_seen::<Wide>(number, size_bits), want);
    }
    Ok(())
}

#[test]
fn narrow_shapes_are_within_the_profile(rt: HostRuntime) -> Result<(), Fail> {
    for (number, size_bits, want) in [
        (0, 3, Err(1)),
        (0, 4, Ok((Kind::Untyped, 4))),
        (0, 29, Ok((Kind::Untyped, 29))),
        (0, 30, Err(4)),
        (1, 31, Ok((Kind::Tcb, 10))),
        (1, 32, Err(4)),
        (2, 31, Ok((Kind::Endpoint, 4))),
        (2, 32, Err(4)),
        (4, 0, Err(1)),
        (4, 1, Ok((Kind::CNode, 5))),
        (4, 25, Ok((Kind::CNode, 29))),
        (4, 26, Err(4)),
    ] {
        assert_eq!(rt; shape_seen::<Narrow>(number, size_bits), want);
    }
    Ok(())
}

/// The plan of the objects that a retype asks for, in an untyped region of 4096 bytes at 16384.
fn plan_in_region<P: Profile>(
    free: u64,
    has_children: bool,
    number: u64,
    size_bits: u64,
    count: u64,
) -> Result<(u64, u64, u64), u32> {
    if free > 4096 || count == 0 || count > MAX_RETYPE_COUNT {
        return Err(0);
    }
    let region = Cap::Untyped {
        base: 16384,
        bits: 12,
        free,
    };
    let Ok(shape) = shape::<P>(number, size_bits) else {
        return Err(0);
    };
    match plan(region, has_children, shape, count) {
        Ok(placed) => Ok((placed.first, placed.step, placed.free)),
        Err(refusal) => Err(refusal.code()),
    }
}

#[test]
fn wide_objects_are_placed_to_the_byte(rt: HostRuntime) -> Result<(), Fail> {
    for (free, has_children, number, size_bits, count, want) in [
        (0, false, 2, 0, 2, Ok((16384, 16, 32))),
        (32, true, 1, 0, 1, Ok((18432, 2048, 4096))),
        (4096, true, 1, 0, 1, Err(10)),
        (16, true, 1, 0, 2, Err(10)),
        (16, true, 1, 0, 1, Ok((18432, 2048, 4096))),
        (2048, true, 1, 0, 1, Ok((18432, 2048, 4096))),
        (2049, true, 1, 0, 1, Err(10)),
        (4096, false, 0, 12, 1, Ok((16384, 4096, 4096))),
        (1, true, 0, 12, 1, Err(10)),
        (0, false, 0, 13, 1, Err(10)),
        (0, false, 2, 0, 256, Ok((16384, 16, 4096))),
        (1, true, 2, 0, 256, Err(10)),
        (1, true, 2, 0, 255, Ok((16400, 16, 4096))),
        (4080, true, 2, 0, 1, Ok((20464, 16, 4096))),
        (4081, true, 2, 0, 1, Err(10)),
        (0, false, 4, 2, 1, Ok((16384, 128, 128))),
    ] {
        assert_eq!(rt;
            plan_in_region::<Wide>(free, has_children, number, size_bits, count),
            want
        );
    }
    Ok(())
}

#[test]
fn narrow_objects_are_placed_to_the_byte(rt: HostRuntime) -> Result<(), Fail> {
    for (free, has_children, number, size_bits, count, want) in [
        (0, false, 1, 0, 4, Ok((16384, 1024, 4096))),
        (0, false, 1, 0, 5, Err(10)),
        (3072, true, 1, 0, 1, Ok((19456, 1024, 4096))),
        (3073, true, 1, 0, 1, Err(10)),
        (16, true, 4, 2, 1, Ok((16448, 64, 128))),
    ] {
        assert_eq!(rt;
            plan_in_region::<Narrow>(free, has_children, number, size_bits, count),
            want
        );
    }
    Ok(())
}
