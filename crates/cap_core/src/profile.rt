//! The numbers that depend on the word size, each named once.
ghost use Rattle.std.specs.Prelude.{◌≡◌, ℕ, refl};
ghost use Rattle.cap_core.specs.declared.profile.ProfileName.{ProfileName};
ghost use Rattle.cap_core.specs.declared.profile.ProfileName.TheVariants as Name;
ghost use Rattle.cap_core.specs.Numbers.{word_bits, slot_bits, tcb_bits, endpoint_bits, min_untyped_bits, max_object_bits, guard_size_bits, badge_bits, label_bits};

/// Which profile: the machine with words of 64 bits, or that with words of 32 bits.
#[derive(Clone, Copy, PartialEq, Eq, Debug)]
pub enum ProfileName {
    /// Words of 64 bits.
    Wide,
    /// Words of 32 bits.
    Narrow,
}

/// The numbers of a machine. Contracts name them by functions of `ProfileName`, and each constant is equal to its function.
pub trait Profile {
    /// The bits of a word. It is also the greatest depth of a lookup, and the most that a guard's size and a radix may be together.
    const WORD_BITS: u32;

    /// The bits of a capability slot's size in bytes.
    const SLOT_BITS: u32;

    /// The bits of a thread control block's size in bytes.
    const TCB_BITS: u32;

    /// The bits of an endpoint's size in bytes.
    const ENDPOINT_BITS: u32;

    /// The fewest bits of an untyped region's size in bytes.
    const MIN_UNTYPED_BITS: u32;

    /// The most bits of the size in bytes of an untyped region and of an object that a retype makes.
    const MAX_OBJECT_BITS: u32;

    /// How many low bits of a guard word hold the guard's size; the value stands above them.
    const GUARD_SIZE_BITS: u32;

    /// The bits of a badge: a word that is given for a badge is cut to them.
    const BADGE_BITS: u32;

    /// The bits of a message's label.
    const LABEL_BITS: u32;

    ghost WORD_BITS: { ℕ };

    ghost SLOT_BITS: { ℕ };

    ghost TCB_BITS: { ℕ };

    ghost ENDPOINT_BITS: { ℕ };

    ghost MIN_UNTYPED_BITS: { ℕ };

    ghost MAX_OBJECT_BITS: { ℕ };

    ghost GUARD_SIZE_BITS: { ℕ };

    ghost BADGE_BITS: { ℕ };

    ghost LABEL_BITS: { ℕ };

    ghost profile: { ProfileName };

    /// Which profile this is.
    fn name() -> ProfileName
        ensures { result ≡ profile };

    ghost word_bits_is: { WORD_BITS ≡ word_bits profile };

    ghost slot_bits_is: { SLOT_BITS ≡ slot_bits profile };

    ghost tcb_bits_is: { TCB_BITS ≡ tcb_bits profile };

    ghost endpoint_bits_is: { ENDPOINT_BITS ≡ endpoint_bits profile };

    ghost min_untyped_bits_is: { MIN_UNTYPED_BITS ≡ min_untyped_bits profile };

    ghost max_object_bits_is: { MAX_OBJECT_BITS ≡ max_object_bits profile };

    ghost guard_size_bits_is: { GUARD_SIZE_BITS ≡ guard_size_bits profile };

    ghost badge_bits_is: { BADGE_BITS ≡ badge_bits profile };

    ghost label_bits_is: { LABEL_BITS ≡ label_bits profile };
}

/// The machine with words of 64 bits (seL4 on x86-64, ARM and RISC-V of 64 bits).
pub struct Wide;

impl Profile for Wide {
    const WORD_BITS: u32 = 64;

    const SLOT_BITS: u32 = 5;

    const TCB_BITS: u32 = 11;

    const ENDPOINT_BITS: u32 = 4;

    const MIN_UNTYPED_BITS: u32 = 4;

    const MAX_OBJECT_BITS: u32 = 47;

    const GUARD_SIZE_BITS: u32 = 6;

    const BADGE_BITS: u32 = 64;

    const LABEL_BITS: u32 = 52;

    ghost WORD_BITS = { 64 };

    ghost SLOT_BITS = { 5 };

    ghost TCB_BITS = { 11 };

    ghost ENDPOINT_BITS = { 4 };

    ghost MIN_UNTYPED_BITS = { 4 };

    ghost MAX_OBJECT_BITS = { 47 };

    ghost GUARD_SIZE_BITS = { 6 };

    ghost BADGE_BITS = { 64 };

    ghost LABEL_BITS = { 52 };

    ghost profile = { Name.Wide };

    ghost word_bits_is = { refl };

    ghost slot_bits_is = { refl };

    ghost tcb_bits_is = { refl };

    ghost endpoint_bits_is = { refl };

    ghost min_untyped_bits_is = { refl };

    ghost max_object_bits_is = { refl };

    ghost guard_size_bits_is = { refl };

    ghost badge_bits_is = { refl };

    ghost label_bits_is = { refl };

    fn name() -> ProfileName {
        ProfileName::Wide
    }
}

/// The machine with words of 32 bits (seL4 on 32-bit ARM, whose badges have 28 bits).
pub struct Narrow;

impl Profile for Narrow {
    const WORD_BITS: u32 = 32;

    const SLOT_BITS: u32 = 4;

    const TCB_BITS: u32 = 10;

    const ENDPOINT_BITS: u32 = 4;

    const MIN_UNTYPED_BITS: u32 = 4;

    const MAX_OBJECT_BITS: u32 = 29;

    const GUARD_SIZE_BITS: u32 = 5;

    const BADGE_BITS: u32 = 28;

    const LABEL_BITS: u32 = 20;

    ghost WORD_BITS = { 32 };

    ghost SLOT_BITS = { 4 };

    ghost TCB_BITS = { 10 };

    ghost ENDPOINT_BITS = { 4 };

    ghost MIN_UNTYPED_BITS = { 4 };

    ghost MAX_OBJECT_BITS = { 29 };

    ghost GUARD_SIZE_BITS = { 5 };

    ghost BADGE_BITS = { 28 };

    ghost LABEL_BITS = { 20 };

    ghost profile = { Name.Narrow };

    ghost word_bits_is = { refl };

    ghost slot_bits_is = { refl };

    ghost tcb_bits_is = { refl };

    ghost endpoint_bits_is = { refl };

    ghost min_untyped_bits_is = { refl };

    ghost max_object_bits_is = { refl };

    ghost guard_size_bits_is = { refl };

    ghost badge_bits_is = { refl };

    ghost label_bits_is = { refl };

    fn name() -> ProfileName {
        ProfileName::Narrow
    }
}
