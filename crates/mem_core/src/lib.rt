//! Retype, before any slot is touched: what objects are asked for, and where in an untyped region they are placed.
#![tactic(auto)]

ghost use Rattle.std.specs.Prelude.{◌≡◌, ◌+◌, ◌-◌, ◌*◌, ◌/◌, ◌<◌, ◌≤◌, IfOk};
ghost use Rattle.mem_core.specs.Shapes.{shape_of, IsShape, IsLawfulShape};
ghost use Rattle.mem_core.specs.Plans.{IsRetypable, IsRetypePlan, LieInUntyped, placed_in};

pub mod objects;

use cap_core::limits::MAX_RETYPE_COUNT;
use cap_core::{Cap, Kind, Profile, Refusal, kind_of, object_bits};
pub use objects::{Placed, Shape};

/// The shape of the objects that a retype asks for, by the number of their kind and their size (seL4 Reference Manual, on
/// `seL4_Untyped_Retype`).
///
/// `InvalidArgument`: no kind has the number. `RangeError`: `size_bits` is not below the bits of a word, or an object of that
/// size is larger than a retype makes. `InvalidArgument`: a CNode without slots, or an untyped region smaller than the least.
/// The first of these that holds is answered.
pub fn shape<P: Profile>(kind_number: u64, size_bits: u64) -> Result<Shape, Refusal>
    ensures value { result ≡ shape_of P.profile kind_number size_bits }
    ensures lawful { IfOk result (IsLawfulShape P.profile) }
{
    let Some(kind) = kind_of(kind_number) else {
        return Err(Refusal::InvalidArgument);
    };
    let Some(bits) = object_bits::<P>(kind, size_bits) else {
        return Err(Refusal::RangeError);
    };
    let is_too_small = match kind {
        Kind::Untyped => size_bits < P::MIN_UNTYPED_BITS as u64,
        Kind::CNode => size_bits == 0,
        Kind::Tcb | Kind::Endpoint => false,
    };
    if is_too_small {
        return Err(Refusal::InvalidArgument);
    }
    Ok(Shape {
        kind,
        size_bits: size_bits as u32,
        bits,
    })
}

/// Where the `count` objects of a retype are placed in the untyped region that `cap` names (seL4 Reference Manual, on
/// `seL4_Untyped_Retype`): one after another, from the first multiple of their size on that is not used. Where the region
/// has no children, nothing of it is used.
///
/// `NotEnoughMemory`: fewer objects than `count` fit into what is not used.
pub fn plan(cap: Cap, has_children: bool, shape: Shape, count: u64) -> Result<Placed, Refusal>
    requires untyped { IsRetypable cap }
    requires shape { IsShape shape }
    requires some { 1 ≤ count }
    requires most { count ≤ MAX_RETYPE_COUNT }
    ensures value { result ≡ placed_in has_children shape.bits count cap }
    ensures plan { IsRetypePlan cap has_children shape.bits count result }
    ensures objects { IfOk result (LieInUntyped cap has_children shape.bits count) }
{
    let Cap::Untyped { base, bits, free } = cap else {
        unreachable!()
    };
    let start = if has_children { free } else { 0 };
    let size = 1u64 << shape.bits;
    let room = ((1u64 << bits) - start) >> shape.bits;
    if room < count {
        return Err(Refusal::NotEnoughMemory);
    }
    let first = (start + (size - 1)) / size * size;
    Ok(Placed {
        first: base + first,
        step: size,
        free: first + count * size,
    })
}
