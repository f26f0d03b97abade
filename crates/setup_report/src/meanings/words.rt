//! The number that a word gives.
ghost use Rattle.std.specs.Prelude.{◌≡◌, ◌<◌, IfSome, find, option_copied, string_bytes};
ghost use Rattle.std.specs.Str.{bytes_eq};
ghost use Rattle.setup_values.specs.Names.{names_view, word_named};
ghost use Rattle.setup_report.specs.Words as spec;

use setup_values::Name;

/// A number from which on no further digit is taken.
const MOST: u64 = 1_000_000_000_000_000_000;

fn digit(byte: u8) -> Option<u8>
    ensures digit { result ≡ spec.decimal_digit byte }
    ensures small { IfSome result (λ d. d < 10) }
{
    match byte {
        b'0'..=b'9' => Some(byte - b'0'),
        _ => None,
    }
}

/// The number of decimal digits.
fn digits(text: &[u8]) -> Option<u64>
    ensures { result ≡ spec.number_after 0 text.now }
{
    let mut number = 0u64;
    for byte in text {
        if number >= MOST {
            return None;
        }
        match digit(*byte) {
            None => return None,
            Some(d) => number = 10 * number + u64::from(d),
        }
    }
    Some(number)
}

fn named<'t>(names: &'t [Name], text: &[u8]) -> Option<&'t Name>
    ensures { option_copied result ≡ find (λ n. bytes_eq (string_bytes n.text) text.now) names.now }
{
    for name in names {
        if name.text.as_bytes() == text {
            return Some(name);
        }
    }
    None
}

/// The word of a name.
#[tactic(auto, using(setup_values::proofs::LookUp::no_word, setup_values::proofs::LookUp::one_word))]
fn word_of(names: &[Name], text: &[u8]) -> Option<u64>
    ensures { result ≡ word_named (names_view names.now) text.now }
{
    let name = named(names, text)?;
    Some(name.word)
}

fn number_or_name(names: &[Name], text: &[u8]) -> Option<u64>
    ensures { result ≡ spec.or_named (names_view names.now) text.now (spec.number_after 0 text.now) }
{
    match digits(text) {
        Some(number) => Some(number),
        None => word_of(names, text),
    }
}

/// The number that a word gives: decimal digits, or a name of the set-up, also after a `@`.
pub fn number_meant(names: &[Name], text: &[u8]) -> Option<u64>
    ensures { result ≡ spec.number_meant (names_view names.now) text.now }
{
    match text {
        [] => None,
        [b'@', name @ ..] => word_of(names, name),
        _ => number_or_name(names, text),
    }
}
