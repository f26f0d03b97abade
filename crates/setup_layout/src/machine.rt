//! The numbers of a machine.
use crate::layout::Object;
use cap_core::{Kind, Narrow, Profile, ProfileName, Wide};

/// The numbers of a profile, by its name.
#[derive(Clone, Copy)]
pub struct Machine {
    pub word_bits: u32,
    pub slot_bits: u32,
    pub tcb_bits: u32,
    pub endpoint_bits: u32,
    pub guard_size_bits: u32,
    pub badge_bits: u32,
}

const WIDE: Machine = Machine {
    word_bits: Wide::WORD_BITS,
    slot_bits: Wide::SLOT_BITS,
    tcb_bits: Wide::TCB_BITS,
    endpoint_bits: Wide::ENDPOINT_BITS,
    guard_size_bits: Wide::GUARD_SIZE_BITS,
    badge_bits: Wide::BADGE_BITS,
};

const NARROW: Machine = Machine {
    word_bits: Narrow::WORD_BITS,
    slot_bits: Narrow::SLOT_BITS,
    tcb_bits: Narrow::TCB_BITS,
    endpoint_bits: Narrow::ENDPOINT_BITS,
    guard_size_bits: Narrow::GUARD_SIZE_BITS,
    badge_bits: Narrow::BADGE_BITS,
};

impl Machine {
    /// Those of a profile.
    pub fn of(profile: ProfileName) -> Machine {
        match profile {
            ProfileName::Wide => WIDE,
            ProfileName::Narrow => NARROW,
        }
    }

    /// The bytes of an object.
    pub fn size(self, object: &Object) -> u64 {
        let bits = match object.kind {
            Kind::Untyped => object.bits,
            Kind::CNode => object.bits.saturating_add(self.slot_bits),
            Kind::Tcb => self.tcb_bits,
            Kind::Endpoint => self.endpoint_bits,
        };
        1u64.checked_shl(bits).unwrap_or(u64::MAX)
    }
}
