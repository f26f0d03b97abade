//! Texts with a mark in them, and the numbers that they say.
ghost use Rattle.std.specs.Prelude.{◌≡◌, ◌<◌, Some};
ghost use Rattle.command_line.specs.CommandLine.{Says};
ghost use Rattle.program.specs.Texts.{before_mark, behind_mark};

/// The base in which numbers are written.
const DECIMAL: u32 = 10;

/// The number of 64 bits that a text says.
pub(crate) fn number_said(text: &str) -> Option<u64>
    ensures { Says (Some text.now) result }
{
    u64::from_str_radix(text, DECIMAL).ok()
}

/// What stands before the first mark, and what stands after it; without a mark, the text and nothing.
pub(crate) fn around(text: &str, mark: char) -> (&str, &str)
    requires { mark < 128 }
    ensures before { result.0.now ≡ before_mark mark text.now }
    ensures behind { result.1.now ≡ behind_mark mark text.now }
{
    match text.split_once(mark) {
        Some((before, behind)) => (before, behind),
        None => (text, ""),
    }
}
