//! Why a boot plan cannot be laid out, and the addresses of its objects.
ghost use Rattle.std.specs.Prelude.{◌≡◌, ◌<◌};

/// Why a boot plan cannot be laid out. A place is that of an untyped region in the plan's list, 0 the first.
#[derive(Clone, Copy, Debug, PartialEq, Eq)]
pub enum PlanDefect {
    /// The boot objects end past the memory.
    Outside,
    /// The base of an untyped region is no multiple of its size.
    Unaligned(usize),
    /// An untyped region ends past the memory.
    UntypedOutside(usize),
    /// An untyped region has an address in common with a boot object or an earlier untyped region.
    Overlap(usize),
    /// The root CNode has too few slots.
    Slots,
}

/// The addresses from `start` up to and without `end`, which may lie past the last address of a word.
#[derive(Clone, Copy)]
pub struct Extent {
    pub start: u128,
    pub end: u128,
}

impl Extent {
    ghost use Rattle.kernel_abstract.specs.Plan.{extent, overlap};

    /// The addresses of an object or a region of 2^`bits` bytes.
    pub fn new(base: u64, bits: u32) -> Extent
        requires { bits < 64 }
        ensures { result ≡ extent base bits }
    {
        let start = u128::from(base);
        Extent {
            start,
            end: start + (1 << bits),
        }
    }

    /// Whether both have an address in common.
    pub fn overlaps(self, other: Extent) -> bool
        ensures { result ≡ overlap self other }
    {
        self.start < other.end && other.start < self.end
    }
}
