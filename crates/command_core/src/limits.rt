//! How much an engine reads. The bound is this project's profile.
ghost use Rattle.std.specs.Prelude.{◌≡◌};
ghost use Rattle.command_core.specs.Limits.{input_limit};

/// The number of bytes that an input has to stay below.
pub const INPUT_LIMIT: usize = 67_108_864;

/// The limit of the code is that of the definitions.
pub fn limit_is_that_of_the_definitions()
    ensures { INPUT_LIMIT ≡ input_limit }
{}
