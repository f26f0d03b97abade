//! The machine with words of 64 bits, once for each subject that is measured over a kernel.
ghost use Rattle.std.specs.Prelude.{refl};
ghost use Rattle.cap_core.specs.declared.profile.ProfileName.TheVariants as Name;

use cap_core::{Profile, ProfileName, Wide};
use ipc_core::LinkedWaiters;
use kernel_core::Kernel;
use slot_core::LinkedStore;

/// The kernel of a machine over the linked forms.
pub type LinkedKernel<P> = Kernel<P, LinkedStore<P>, LinkedWaiters<P>>;

/// `Wide` by another name. Over a machine of its own the kernel of each subject is compiled by itself, and inlined as in a
/// program that has no other kernel.
pub struct WideOf<const SUBJECT: u8>;

/// The machine of `steps`.
pub type StepsMachine = WideOf<0>;

/// The machine of `replies`.
pub type RepliesMachine = WideOf<1>;

/// The machine of `revoke`.
pub type RevokeMachine = WideOf<2>;

impl<const SUBJECT: u8> Profile for WideOf<SUBJECT> {
    const WORD_BITS: u32 = Wide::WORD_BITS;

    const SLOT_BITS: u32 = Wide::SLOT_BITS;

    const TCB_BITS: u32 = Wide::TCB_BITS;

    const ENDPOINT_BITS: u32 = Wide::ENDPOINT_BITS;

    const MIN_UNTYPED_BITS: u32 = Wide::MIN_UNTYPED_BITS;

    const MAX_OBJECT_BITS: u32 = Wide::MAX_OBJECT_BITS;

    const GUARD_SIZE_BITS: u32 = Wide::GUARD_SIZE_BITS;

    const BADGE_BITS: u32 = Wide::BADGE_BITS;

    const LABEL_BITS: u32 = Wide::LABEL_BITS;

    ghost WORD_BITS = { 64 };

    ghost SLOT_BITS = { 5 };

    ghost TCB_BITS = { 11 };

    ghost ENDPOINT_BITS = { 4 };

    ghost MIN_UNTYPED_BITS = { 4 };

    ghost MAX_OBJECT_BITS = { 47 };

    ghost GUARD_SIZE_BITS = { 6 };

    ghost BADGE_BITS = { 64 };

    ghost LABEL_BITS = { 52 };

    ghost profile = { Name.Wide };

    ghost word_bits_is = { refl };

    ghost slot_bits_is = { refl };

    ghost tcb_bits_is = { refl };

    ghost endpoint_bits_is = { refl };

    ghost min_untyped_bits_is = { refl };

    ghost max_object_bits_is = { refl };

    ghost guard_size_bits_is = { refl };

    ghost badge_bits_is = { refl };

    ghost label_bits_is = { refl };

    fn name() -> ProfileName {
        ProfileName::Wide
    }
}
