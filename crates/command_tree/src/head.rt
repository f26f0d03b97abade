//! What is said of a derivation forest before it.
ghost use Rattle.std.specs.Prelude.{◌≡◌, Some};
ghost use Rattle.command_tree.specs.Tree as spec;

use setup_format::Setup;
use setup_values::profile_text;
use std::fmt;

/// The version of the text's form, how large the set-up is, and how many of its calls are made.
#[derive(Clone, Copy)]
pub struct Head {
    profile: &'static str,
    memory_bits: u32,
    calls: usize,
    made: usize,
}

impl Head {
    /// That of a set-up of which so many calls are made.
    pub fn new(setup: &Setup, made: usize) -> Head
        ensures { spec.head_words result.profile.now result.memory_bits result.calls result.made ≡ spec.head_text setup.now made }
    {
        Head {
            profile: profile_text(setup.profile()),
            memory_bits: setup.plan().memory_bits(),
            calls: setup.calls().len(),
            made,
        }
    }
}

impl fmt::Display for Head {
    ghost output = { λ head. Some (spec.head_words head.profile.now head.memory_bits head.calls head.made) };

    fn fmt<W: fmt::Write>(&self, f: &mut fmt::Formatter<W>) -> fmt::Result {
        let profile = self.profile;
        let memory_bits = self.memory_bits;
        let calls = self.calls;
        let made = self.made;
        write!(
            f,
            "tree 1 {profile} memory_bits {memory_bits} calls {calls} after {made}"
        )
    }
}
