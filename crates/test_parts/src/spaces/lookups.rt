//! What addresses lead to, in both profiles.
ghost use Rattle.std.specs.Prelude.{◌≡◌, ◌⊎◌};
ghost use Rattle.cap_core.specs.declared.capability.Cap.TheVariants.{Null};
ghost use Rattle.cap_core.specs.Objects.{IsLawful};
ghost use Rattle.test_parts.specs.Memory.{memory_bits};

use crate::spaces::memory::{memory, node, root};
use cap_core::{Cap, LookupFault, Narrow, Profile, Wide};
use cspace_core::{resolve, target};
use slot_core::{CapStore, RowStore};
use std::test::Fail;

/// Whether `resolve` answers so for all bits of a word, by the slot's address.
fn is_resolved<P: Profile, S: CapStore<P>>(
    store: &S,
    root: Cap,
    address: u64,
    want: Result<(u64, u32), LookupFault>,
) -> bool
    requires memory { S.memory_bits store.now ≡ memory_bits }
    requires lawful { (root ≡ Null) ⊎ IsLawful P.profile memory_bits root }
{
    match resolve::<P, S>(store, root, address, P::WORD_BITS) {
        Ok((slot, left)) => want == Ok((slot.address::<P>(), left)),
        Err(fault) => want == Err(fault),
    }
}

/// Whether `target` answers so, by the slot's address and the refusal's number and kind.
fn is_target<P: Profile, S: CapStore<P>>(
    store: &S,
    root: Cap,
    index: u64,
    depth: u64,
    want: Result<u64, (u32, u32)>,
) -> bool
    requires memory { S.memory_bits store.now ≡ memory_bits }
    requires lawful { (root ≡ Null) ⊎ IsLawful P.profile memory_bits root }
{
    match target::<P, S>(store, root, index, depth) {
        Ok(slot) => want == Ok(slot.address::<P>()),
        Err(refusal) => want == Err((refusal.code(), refusal.kind())),
    }
}

#[test]
fn invocations_go_through_two_cnodes(rt: HostRuntime) -> Result<(), Fail> {
    let store = memory::<Wide, RowStore<Wide>>(rt.alloc())?;
    for (address, want) in [
        (16, Ok((128, 2))),
        (35, Ok((16480, 0))),
        (32, Ok((16384, 0))),
        (4, Err(LookupFault::GuardMismatch)),
        (64, Err(LookupFault::GuardMismatch)),
    ] {
        assert!(rt;
            is_resolved::<Wide, RowStore<Wide>>(&store, root::<Wide>(0, 58), address, want)
        );
    }
    Ok(())
}

#[test]
fn guarded_cnodes_are_targets(rt: HostRuntime) -> Result<(), Fail> {
    let store = memory::<Wide, RowStore<Wide>>(rt.alloc())?;
    for (index, depth, want) in [
        (23, 5, Ok(16480)),
        (7, 5, Err((6, 4))),
        (10, 4, Err((6, 3))),
        (46, 6, Err((6, 3))),
    ] {
        assert!(rt; is_target::<Wide, RowStore<Wide>>(&store, node(0b101, 3), index, depth, want));
    }
    Ok(())
}

#[test]
fn guards_stand_between_cnodes(rt: HostRuntime) -> Result<(), Fail> {
    let store = memory::<Wide, RowStore<Wide>>(rt.alloc())?;
    for (index, depth, want) in [
        (0b1001_101_11, 9, Ok(16480)),
        (0b1001_101_01, 9, Ok(16416)),
        (0b1001_001_11, 9, Err((6, 4))),
        (0b1001_10, 6, Err((6, 4))),
        (0b1001_101_1, 8, Err((6, 3))),
        (0b1001_101_11_0, 10, Err((6, 3))),
        (0b1001, 4, Ok(288)),
        (0b1000_00_00_11, 10, Ok(16480)),
    ] {
        assert!(rt;
            is_target::<Wide, RowStore<Wide>>(&store, root::<Wide>(0, 0), index, depth, want)
        );
    }
    Ok(())
}

#[test]
fn narrow_words_have_32_bits(rt: HostRuntime) -> Result<(), Fail> {
    let store = memory::<Narrow, RowStore<Narrow>>(rt.alloc())?;
    let root = root::<Narrow>(0, 26);
    for (address, want) in [
        (16, Ok((64, 2))),
        (35, Ok((16432, 0))),
        (32, Ok((16384, 0))),
        (4, Err(LookupFault::GuardMismatch)),
        (64, Err(LookupFault::GuardMismatch)),
    ] {
        assert!(rt; is_resolved::<Narrow, RowStore<Narrow>>(&store, root, address, want));
    }
    for (index, depth, want) in [
        (35, 32, Ok(16432)),
        (35, 33, Err((4, 0))),
        (35, 0, Err((4, 0))),
        (16, 32, Err((6, 3))),
    ] {
        assert!(rt; is_target::<Narrow, RowStore<Narrow>>(&store, root, index, depth, want));
    }
    Ok(())
}

#[test]
fn depths_are_those_of_a_word(rt: HostRuntime) -> Result<(), Fail> {
    let store = memory::<Wide, RowStore<Wide>>(rt.alloc())?;
    for (index, depth, want) in [
        (0b11, 2, Ok(16480)),
        (0b11, 0, Err((4, 0))),
        (0b11, 65, Err((4, 0))),
        (0b11, u64::MAX, Err((4, 0))),
        (0b1, 1, Err((6, 3))),
    ] {
        assert!(rt; is_target::<Wide, RowStore<Wide>>(&store, node(0, 0), index, depth, want));
    }
    let root = root::<Wide>(0, 60);
    assert!(rt; is_target::<Wide, RowStore<Wide>>(&store, root, 4, 64, Ok(128)));
    assert!(rt; is_target::<Wide, RowStore<Wide>>(&store, root, 4, 4, Err((6, 4))));
    Ok(())
}

#[test]
fn a_root_is_a_cnode_at_every_depth(rt: HostRuntime) -> Result<(), Fail> {
    let store = memory::<Wide, RowStore<Wide>>(rt.alloc())?;
    assert!(rt;
        is_resolved::<Wide, RowStore<Wide>>(&store, Cap::Null, 4, Err(LookupFault::InvalidRoot))
    );
    for depth in [0, 1, 64, 65] {
        assert!(rt; is_target::<Wide, RowStore<Wide>>(&store, Cap::Null, 0, depth, Err((6, 1))));
    }
    Ok(())
}
