//! Why a set-up is refused.
ghost use Rattle.std.specs.Prelude.{◌≡◌};
ghost use Rattle.setup_format.specs.declared.fault.SetupFault.TheVariants.{Memory};

use kernel_boot::PlanDefect;
pub use setup_values::Wrong;
use std::alloc::{AllocError, AllocFailed};

/// Which table of a set-up. The tables of an array count from 1.
#[derive(Clone, Copy)]
pub enum Place {
    /// The whole document.
    Top,
    /// A table of the array `untyped`.
    Untyped(usize),
    /// A table of the array `call`.
    Call(usize),
}

/// A key: one that set-ups have, or another that the document has.
#[derive(Drop)]
pub enum Key {
    Known(&'static str),
    Found(String),
}

/// The first fault of a set-up, in the order in which a set-up is read.
#[derive(Drop)]
pub enum SetupFault {
    /// The bytes are no TOML document.
    Text,
    /// A key is not as it should be.
    At {
        wrong: Wrong,
        place: Place,
        key: Key,
    },
    /// The boot objects and the untyped regions cannot be laid out in the memory.
    Layout(PlanDefect),
    /// Memory was refused. This may be answered in place of any other answer.
    Memory,
}

impl SetupFault {
    ghost use Rattle.setup_format.specs.Faults.{setup_fault_code};

    /// The number of the fault, 200 to 206. The numbers are this project's profile.
    pub fn code(&self) -> u32
        ensures { result ≡ setup_fault_code self.now }
    {
        match self {
            SetupFault::Text => 200,
            SetupFault::At { wrong, .. } => wrong.code(),
            SetupFault::Layout(_) => 205,
            SetupFault::Memory => 206,
        }
    }
}

impl From<AllocError> for SetupFault {
    ghost from_gives = { λ _ e. e ≡ Memory };

    fn from(_e: AllocError) -> SetupFault {
        SetupFault::Memory
    }
}

impl<T: Drop> From<AllocFailed<T>> for SetupFault {
    ghost from_gives = { λ _ e. e ≡ Memory };

    fn from(_e: AllocFailed<T>) -> SetupFault {
        SetupFault::Memory
    }
}
