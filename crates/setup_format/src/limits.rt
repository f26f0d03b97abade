//! The bounds of what a set-up may ask for besides those of a boot. They are this project's profile.
ghost use Rattle.std.specs.Prelude.{◌≡◌};
ghost use Rattle.setup_format.specs.Limits.{first_format, newest_format, max_calls, max_shown_key_bytes};

pub use setup_values::limits::MAX_EXPECT_BYTES;

/// The first format of set-ups. It has no names.
pub const FIRST_FORMAT: u32 = 1;

/// The newest format of set-ups that is read.
pub const NEWEST_FORMAT: u32 = 2;

/// The most calls of a set-up.
pub const MAX_CALLS: usize = 65536;

/// The most bytes of a key that the line of a refusal shows.
pub const MAX_SHOWN_KEY_BYTES: usize = 40;

/// Each limit of the code is that of the definitions.
pub fn limits_of_set_ups_are_those_of_the_definitions()
    ensures first { FIRST_FORMAT ≡ first_format }
    ensures newest { NEWEST_FORMAT ≡ newest_format }
    ensures calls { MAX_CALLS ≡ max_calls }
    ensures shown { MAX_SHOWN_KEY_BYTES ≡ max_shown_key_bytes }
{}
