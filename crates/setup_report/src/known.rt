//! What is known of the names of objects.
ghost use Rattle.std.specs.Prelude.{◌<◌};

use crate::objects::Node;
use setup_values::Name;
use slot_core::Derivation;

/// What has the names of objects and slots.
#[derive(Drop)]
pub struct ObjectNames<'a> {
    /// The names of the set-up.
    pub names: &'a [Name],
    /// How many slots the root CNode has: a name of a number below is one of a slot.
    pub slots: u64,
    /// The full slots of boot.
    pub boot: Vec<Derivation>,
    /// The CNodes.
    pub nodes: Vec<Node>,
    /// The bits of the size of a slot.
    pub slot_bits: u32,
    ghost shifts: { slot_bits < 64 },
}
