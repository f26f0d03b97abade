//! What a capability of an endpoint allows.
ghost use Rattle.std.specs.Prelude.{⊤, [], ◌∷◌, codes};

use bitflags::{Flag, Flags, bitflag_items};

/// The rights of an endpoint capability (seL4 Reference Manual, on access rights). The bits are this project's profile.
#[derive(Clone, Copy, PartialEq, Eq, Debug)]
pub struct Rights(pub u8);

bitflag_items! {
    impl Rights: u8 {
        const WRITE = 1;
        const READ = 2;
        const GRANT = 4;
        const GRANT_REPLY = 8;
    }
}

impl Rights {
    /// Every right, as the capability of a new endpoint has them (seL4 Reference Manual, on `seL4_Untyped_Retype`).
    pub const ALL: Rights = Rights(15);
}

impl Flags for Rights {
    type Bits = u8;

    ghost exact = { ⊤ };

    ghost table = { (codes "WRITE", 1) ∷ (codes "READ", 2) ∷ (codes "GRANT", 4) ∷ (codes "GRANT_REPLY", 8) ∷ [] };

    ghost set_of = { λ r. r.0 };

    fn flags<'a>() -> &'a [Flag<Rights>] {
        Rights::FLAGS
    }

    fn bits(&self) -> u8 {
        self.0
    }

    fn from_bits_retain(bits: u8) -> Rights {
        Rights(bits)
    }
}
