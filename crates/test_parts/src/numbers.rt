//! The numbers of refusals, rights, profiles and kinds.
use bitflags::Flags;
use cap_core::{Kind, LookupFault, Narrow, Profile, ProfileName, Refusal, Rights, Wide, kind_of};
use std::test::Fail;

#[test]
fn refusals_have_their_numbers(rt: HostRuntime) -> Result<(), Fail> {
    for (refusal, code, kind) in [
        (Refusal::InvalidArgument, 1, 0),
        (Refusal::InvalidCapability, 2, 0),
        (Refusal::IllegalOperation, 3, 0),
        (Refusal::RangeError, 4, 0),
        (Refusal::FailedLookup(LookupFault::InvalidRoot), 6, 1),
        (Refusal::FailedLookup(LookupFault::MissingCapability), 6, 2),
        (Refusal::FailedLookup(LookupFault::DepthMismatch), 6, 3),
        (Refusal::FailedLookup(LookupFault::GuardMismatch), 6, 4),
        (Refusal::DeleteFirst, 8, 0),
        (Refusal::RevokeFirst, 9, 0),
        (Refusal::NotEnoughMemory, 10, 0),
        (Refusal::NoThread, 100, 0),
        (Refusal::NotReady, 101, 0),
    ] {
        assert_eq!(rt; (refusal.code(), refusal.kind()), (code, kind));
    }
    Ok(())
}

#[test]
fn rights_are_a_set(rt: HostRuntime) -> Result<(), Fail> {
    let send = Rights::WRITE;
    let both = Rights::WRITE.union(Rights::READ);
    assert!(rt; both.contains(send) && !send.contains(Rights::READ));
    assert!(rt; both.intersection(Rights::READ).bits() == 2 && Rights::all().bits() == 15);
    Ok(())
}

fn numbers_of<P: Profile>() -> (u32, u32, u32) {
    (P::WORD_BITS, P::SLOT_BITS, P::TCB_BITS)
}

#[test]
fn profiles_have_their_numbers(rt: HostRuntime) -> Result<(), Fail> {
    assert_eq!(rt;
        (Wide::name(), numbers_of::<Wide>()),
        (ProfileName::Wide, (64, 5, 11))
    );
    assert_eq!(rt;
        (Narrow::name(), numbers_of::<Narrow>()),
        (ProfileName::Narrow, (32, 4, 10))
    );
    Ok(())
}

#[test]
fn numbers_name_kinds(rt: HostRuntime) -> Result<(), Fail> {
    for (number, kind) in [
        (0, Some(Kind::Untyped)),
        (1, Some(Kind::Tcb)),
        (2, Some(Kind::Endpoint)),
        (3, None),
        (4, Some(Kind::CNode)),
        (5, None),
        (u64::MAX, None),
    ] {
        assert_eq!(rt; kind_of(number), kind);
    }
    Ok(())
}
