//! Expectations that ask.
ghost use Rattle.std.specs.Prelude.{◌≡◌};
ghost use Rattle.setup_format.specs.Expectations as spec;

/// Whether an expectation asks what the reply is: it begins with `?`. No reply does, so it is never met, and nobody is told the
/// reply for it. The calls of an exercise have such expectations.
#[tactic(auto, using(crate::proofs::Expectations::asks_first))]
pub fn asks(expected: &str) -> bool
    ensures { result ≡ spec.asks expected.now }
{
    match expected.as_bytes() {
        [] => false,
        [byte, ..] => *byte == b'?',
    }
}
