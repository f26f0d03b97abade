//! Where slots, endpoints and threads can stand in a memory.
ghost use Rattle.std.specs.Prelude.{◌≡◌, ◌≤◌, ◌<◌, ◌^◌, IfSome, IfNone, IsTrue, ◌↔◌};
ghost use Rattle.slot_core.specs.Places.{address_of};
ghost use Rattle.ipc_core.specs.Waits.{IsEndpointAddress, IsThreadAddress};
ghost use Rattle.kernel_abstract.specs.Memory.{IsSlotAddress};

use cap_core::Profile;
use cap_core::limits::MAX_MEMORY_BITS;
use slot_core::Slot;

/// The slot at an address within a memory of 2^`memory_bits` bytes, if one can stand there.
pub fn slot_within<P: Profile>(memory_bits: u32, address: u64) -> Option<Slot>
    requires { memory_bits ≤ MAX_MEMORY_BITS }
    ensures slot { IfSome result (λ s. address_of P.profile s ≡ address) }
    ensures within { IfSome result (λ s. address < 2 ^ memory_bits) }
    ensures none { IfNone result (IsSlotAddress P.profile memory_bits address → ⊥) }
{
    if address >> memory_bits == 0 {
        Slot::at::<P>(address)
    } else {
        None
    }
}

/// Whether an endpoint can stand at an address within a memory of 2^`memory_bits` bytes.
pub fn is_endpoint_address<P: Profile>(memory_bits: u32, address: u64) -> bool
    requires { memory_bits ≤ MAX_MEMORY_BITS }
    ensures { IsTrue result ↔ IsEndpointAddress P.profile memory_bits address }
{
    address >> memory_bits == 0 && address % (1 << P::ENDPOINT_BITS) == 0
}

/// Whether a thread control block can stand at an address within a memory of 2^`memory_bits` bytes.
pub fn is_thread_address<P: Profile>(memory_bits: u32, address: u64) -> bool
    requires { memory_bits ≤ MAX_MEMORY_BITS }
    ensures { IsTrue result ↔ IsThreadAddress P.profile memory_bits address }
{
    address >> memory_bits == 0 && address % (1 << P::TCB_BITS) == 0
}
