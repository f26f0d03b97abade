//! The line of an answer that is no witness.
ghost use Rattle.std.specs.Prelude.{◌≡◌, Some};
ghost use Rattle.std.specs.Fmt.{decimal};
ghost use Rattle.command_never.specs.Open.{part_text};
ghost use Rattle.command_how.specs.Line as spec;

use command_how_witness::Happening;
use std::fmt;

/// Why no calls are given.
#[derive(Clone, Copy, PartialEq, Eq, Debug, Drop)]
pub enum NoWitness {
    /// The laws say that it can't happen.
    Excluded,
    /// It is not excluded by the parts, but by flows.
    ExcludedByFlow,
    /// It is not excluded, and none were found.
    NotFound,
    /// The same, if the search ended at so many copies of the kernel.
    NotFoundOf(u64),
}

impl fmt::Display for NoWitness {
    ghost output = { λ n. Some (spec.answer_text n) };

    fn fmt<W: fmt::Write>(&self, f: &mut fmt::Formatter<W>) -> fmt::Result {
        match self {
            NoWitness::Excluded => write!(f, "excluded"),
            NoWitness::ExcludedByFlow => write!(f, "excluded by flow"),
            NoWitness::NotFound => write!(f, "not found"),
            NoWitness::NotFoundOf(most) => write!(f, "not found of {most}"),
        }
    }
}

/// The word for what is to happen.
pub fn happening_word(what: Happening) -> &'static str
    ensures { result.now ≡ spec.happening_text what }
{
    match what {
        Happening::Message => "message",
        Happening::Hold => "hold",
        Happening::Loss => "loss",
    }
}

/// The number of a part, or that there is none.
#[derive(Clone, Copy)]
pub struct PartText(pub Option<u64>);

impl fmt::Display for PartText {
    ghost output = { λ p. Some (part_text decimal p.0) };

    fn fmt<W: fmt::Write>(&self, f: &mut fmt::Formatter<W>) -> fmt::Result {
        match self.0 {
            None => write!(f, "none"),
            Some(part) => write!(f, "{part}"),
        }
    }
}
