//! Why a call is refused.
ghost use Rattle.std.specs.Prelude.{◌≡◌};
ghost use Rattle.cap_core.specs.Refusals.{refusal_code, refusal_kind};

/// Why an address leads to no slot (seL4 Reference Manual, on lookup failures).
#[derive(Clone, Copy, PartialEq, Eq, Debug)]
pub enum LookupFault {
    /// The root is no CNode.
    InvalidRoot,
    /// The slot is empty.
    MissingCapability,
    /// The bits end inside a CNode's index, or some are left over.
    DepthMismatch,
    /// The bits are not those of a CNode's guard.
    GuardMismatch,
}

/// Why a call is refused (seL4 Reference Manual, on error codes; the last two are this project's profile).
#[derive(Clone, Copy, PartialEq, Eq, Debug)]
pub enum Refusal {
    InvalidArgument,
    InvalidCapability,
    IllegalOperation,
    RangeError,
    FailedLookup(LookupFault),
    DeleteFirst,
    RevokeFirst,
    NotEnoughMemory,
    /// No live thread control block is at the address.
    NoThread,
    /// The thread waits, or is inactive.
    NotReady,
}

impl Refusal {
    /// The number of the refusal.
    pub fn code(&self) -> u32
        ensures { result ≡ refusal_code self.now }
    {
        match self {
            Refusal::InvalidArgument => 1,
            Refusal::InvalidCapability => 2,
            Refusal::IllegalOperation => 3,
            Refusal::RangeError => 4,
            Refusal::FailedLookup(_) => 6,
            Refusal::DeleteFirst => 8,
            Refusal::RevokeFirst => 9,
            Refusal::NotEnoughMemory => 10,
            Refusal::NoThread => 100,
            Refusal::NotReady => 101,
        }
    }

    /// The number of the lookup failure's kind, and 0 for every other refusal.
    pub fn kind(&self) -> u32
        ensures { result ≡ refusal_kind self.now }
    {
        match self {
            Refusal::FailedLookup(fault) => match fault {
                LookupFault::InvalidRoot => 1,
                LookupFault::MissingCapability => 2,
                LookupFault::DepthMismatch => 3,
                LookupFault::GuardMismatch => 4,
            },
            _ => 0,
        }
    }
}
