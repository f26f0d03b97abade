//! A layout: the objects of a system, what their slots hold, and which capability is derived from which.
ghost use Rattle.std.specs.Prelude.{◌≡◌};
ghost use Rattle.setup_layout.specs.Rows.{row_pair};

use crate::fault::Remarks;
use crate::scanner::Spot;
use cap_core::{Guard, Kind, ProfileName, Rights};

/// An object that a kernel has.
#[derive(Drop)]
pub struct Object {
    /// Its name in the layout, with its number where it is one of several.
    pub name: String,
    pub kind: Kind,
    /// The bits of an untyped region's size, and the radix of a CNode; 0 of another object.
    pub bits: u32,
    /// The untyped region that covers it, by its place among the objects.
    pub cover: Option<usize>,
    /// Whether it is a thread that makes no calls.
    pub is_inactive: bool,
    /// Where it is declared.
    pub spot: Spot,
    /// The address of its first byte in a set-up.
    pub place: u32,
}

/// A full slot, and its capability. The space of a thread begins in slot 0 of the thread.
#[derive(Clone, Copy, Drop)]
pub struct Slot {
    /// The CNode or the thread, by its place among the objects.
    pub holder: usize,
    pub index: u32,
    /// The object of the capability, by its place among the objects.
    pub object: usize,
    /// The badge and the rights of an endpoint's capability.
    pub badge: u64,
    pub rights: Rights,
    /// The guard of a CNode's capability.
    pub guard: Guard,
    /// The line at which it is said.
    pub line: usize,
}

/// A row of the `cdt`: of two slots the second is derived from the first.
#[derive(Clone, Copy, Drop)]
pub struct Row {
    /// The slots, by their places among the slots; none of a slot whose capability is left out.
    pub above: Option<usize>,
    pub below: Option<usize>,
    /// Whether a kernel here can have the second right below the first.
    pub is_possible: bool,
}

impl Row {
    /// The slots, if both are there and a kernel can have the second right below the first.
    pub fn pair(self) -> Option<(usize, usize)>
        ensures { result ≡ row_pair self }
    {
        match (self.is_possible, self.above, self.below) {
            (true, Some(above), Some(below)) => Some((above, below)),
            _ => None,
        }
    }
}

/// The bits that an object has while it is read which no kernel here has, and which counts as an endpoint or a CNode.
pub const OTHER_BITS: u32 = 64;

/// How a layout is read.
#[derive(Clone, Copy)]
pub struct Reading {
    /// The bits to which larger untyped regions that cover nothing are cut.
    pub shrink: Option<u64>,
    /// Whether each object counts that a kernel here lacks, as an endpoint or a CNode.
    pub flows: bool,
    /// Whether such objects do not count in a `.system` file either; else they count there in any case.
    pub plain: bool,
    /// Whether a capability has all rights where a `.system` file says nothing of them; else it has the least.
    pub all_rights: bool,
    /// Whether it is asked for that these are taken; else they are assumed.
    pub are_rights_asked: bool,
    /// Whether a layout is refused of which anything that may carry authority is left out or assumed.
    pub strict: bool,
}

/// Which rights capabilities have of which a text says none.
#[derive(Clone, Copy)]
pub enum AssumedRights {
    /// There is no such capability.
    NoRights,
    AllRights,
    LeastRights,
}

/// What is read of a text: what is left out of it is in the gaps and in the notes.
#[derive(Drop)]
pub struct Layout {
    /// The machine.
    pub profile: ProfileName,
    /// Whether each object counts that a kernel here lacks.
    pub flows: bool,
    pub objects: Vec<Object>,
    pub slots: Vec<Slot>,
    /// Of two slots the first one above the second, which is derived from it, by their places among the slots.
    pub derived: Vec<(usize, usize)>,
    /// The rows of the `cdt`, but those of what an untyped region covers, which is derived from it without a word.
    pub rows: Vec<Row>,
    pub assumed: AssumedRights,
    /// What is wrong with it.
    pub faults: Remarks,
    /// What may carry authority, and is left out of it or assumed.
    pub gaps: Remarks,
    /// What else is left out of it, and what is to be known of it.
    pub notes: Remarks,
    /// Where the text names the machine.
    pub spot: Spot,
}
