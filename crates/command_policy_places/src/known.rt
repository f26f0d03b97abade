//! What is known of the slots of a layout, and what its objects are called.
ghost use Rattle.std.specs.Prelude.{◌<◌};

use command_parts::PartSlot;
use command_policy_breaches::Block;
use setup_policy::Labels;

/// What is looked at of a layout: its full slots, and the numbers of its joined parts.
#[derive(Drop)]
pub struct Sites {
    /// The full slots by rising address, each with the part in which it lies.
    pub slots: Vec<PartSlot>,
    pub blocks: Vec<Block>,
    /// The bits of the size of a slot.
    pub slot_bits: u32,
    ghost shifts: { slot_bits < 64 },
}

/// What slots and threads are told by: what objects are called, and the CNodes that full slots name.
#[derive(Clone, Copy)]
pub struct SiteNames<'a> {
    pub labels: &'a Labels,
    /// The full slots by rising address.
    pub slots: &'a [PartSlot],
    /// The bits of the size of a slot.
    pub slot_bits: u32,
    ghost shifts: { slot_bits < 64 },
}
