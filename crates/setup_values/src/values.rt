//! What values are read as, and what is wrong with one.
ghost use Rattle.std.specs.Prelude.{◌≡◌};

use cap_core::limits::MAX_MESSAGE_WORDS;

/// What is wrong at a key.
#[derive(Clone, Copy)]
pub enum Wrong {
    /// The table has no such key.
    Unknown,
    /// The key is required and not there.
    Missing,
    /// The value has another type than the key's.
    OtherType,
    /// The value has the key's type and is not one that the key takes.
    OtherValue,
}

impl Wrong {
    ghost use Rattle.setup_values.specs.Kinds.{wrong_code};

    /// The number of the fault, 201 to 204.
    pub fn code(self) -> u32
        ensures { result ≡ wrong_code self }
    {
        match self {
            Wrong::Unknown => 201,
            Wrong::Missing => 202,
            Wrong::OtherType => 203,
            Wrong::OtherValue => 204,
        }
    }
}

/// The words of a message: the first `count` of `words`. The others are 0.
#[derive(Clone, Copy)]
pub struct Words {
    pub words: [u64; MAX_MESSAGE_WORDS],
    pub count: u32,
}

impl Words {
    ghost use Rattle.std.specs.Prelude.{[]};
    ghost use Rattle.setup_values.specs.Kinds.{filled};

    /// No words.
    pub fn none() -> Words
        ensures { result ≡ filled [] }
    {
        Words {
            words: [0; MAX_MESSAGE_WORDS],
            count: 0,
        }
    }
}
