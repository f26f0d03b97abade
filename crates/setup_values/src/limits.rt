//! The bounds of values. They are this project's profile.
ghost use Rattle.std.specs.Prelude.{◌≡◌};
ghost use Rattle.setup_values.specs.Limits.{max_expect_bytes, max_name_bytes};

/// The most bytes of an expectation.
pub const MAX_EXPECT_BYTES: usize = 120;

/// The most bytes of a name.
pub const MAX_NAME_BYTES: usize = 40;

/// Each limit of the code is that of the definitions.
pub fn limits_of_values_are_those_of_the_definitions()
    ensures expect { MAX_EXPECT_BYTES ≡ max_expect_bytes }
    ensures name { MAX_NAME_BYTES ≡ max_name_bytes }
{}
