//! The kinds of value that a set-up's keys take.
ghost use Rattle.std.specs.Prelude.{◌≡◌, ◌<◌, ◌≤◌, ◌^◌, length, IfSome, IfOk, Some, map, nat_lt};
ghost use Rattle.std.specs.List.{list_all};
ghost use Rattle.toml.specs.View.{view, table_view};
ghost use Rattle.toml.specs.Data.{as_array, as_integer, as_str, as_table};
ghost use Rattle.cap_core.specs.Numbers.{word_bits};
ghost use Rattle.setup_values.specs.Names.{names_view};
ghost use Rattle.setup_values.specs.Kinds.{seen};
ghost use Rattle.setup_values.specs.Kinds as kind;

use crate::limits::MAX_EXPECT_BYTES;
use crate::names::{KnownNames, is_name};
use crate::operations::OpName;
use crate::values::{Words, Wrong};
use cap_core::limits::MAX_MESSAGE_WORDS;
use cap_core::{Profile, ProfileName, Rights};
use toml::{Table, Value};

/// A kind of value: which values a key accepts, and what each is read as, by a profile and the names of a set-up.
pub trait Kind {
    ghost use Rattle.std.specs.Prelude.{Result};
    ghost use Rattle.toml.specs.Data.{Data};
    ghost use Rattle.cap_core.specs.declared.profile.ProfileName.{ProfileName};
    ghost use Rattle.setup_values.specs.Names.{Names};
    ghost use Rattle.setup_values.specs.declared.values.Wrong.{Wrong};

    /// What a value is read as.
    type Out: Copy;

    /// What each value is read as, or what is wrong with it.
    ghost means: { Self → ProfileName → Names → Data → Result Self.Out Wrong };

    /// What is so of all that is read.
    ghost holds: { Self → Self.Out → Type 0 } = { λ _ _. Unit {0} };

    /// Reads a value.
    ///
    /// # Errors
    ///
    /// `OtherType` or `OtherValue` if the kind does not accept it.
    fn read<P: Profile>(&self, names: &KnownNames<'_>, value: &Value) -> Result<Self::Out, Wrong>
        ensures means { result ≡ means self.now P.profile (names_view names.now) (view value.now) }
        ensures holds { IfOk result (holds self.now) };
}

/// An integer from the first to the second.
#[derive(Clone, Copy)]
pub struct Number(pub u32, pub u32);

impl Kind for Number {
    ghost use Rattle.setup_values.specs.Kinds.{number};

    type Out = u32;

    ghost means = { λ k _ _. number k.0 k.1 };

    ghost holds = { λ k n. (k.0 ≤ n) × (n ≤ k.1) };

    fn read<P: Profile>(&self, _names: &KnownNames<'_>, value: &Value) -> Result<u32, Wrong> {
        let n = value.as_integer().ok_or(Wrong::OtherType)?;
        if n < i64::from(self.0) || n > i64::from(self.1) {
            Err(Wrong::OtherValue)
        } else {
            Ok(n as u32)
        }
    }
}

fn digit(byte: u8) -> Option<u8>
    ensures digit { result ≡ kind.digit byte }
    ensures small { IfSome result (λ d. d < 16) }
{
    match byte {
        b'0'..=b'9' => Some(byte - b'0'),
        b'a'..=b'f' => Some(byte - b'a' + 10),
        b'A'..=b'F' => Some(byte - b'A' + 10),
        _ => None,
    }
}

fn digits(text: &[u8]) -> Option<u64>
    requires { length text.now ≤ 16 }
    ensures { result ≡ kind.digits_after 0 text.now }
{
    let mut number = 0u64;
    for byte in text {
        match digit(*byte) {
            None => return None,
            Some(d) => number = 16 * number + u64::from(d),
        }
    }
    Some(number)
}

#[tactic(auto, unfolding(crate::specs::Kinds::hexadecimal))]
fn hexadecimal(text: &[u8]) -> Option<u64>
    ensures { result ≡ kind.hexadecimal text.now }
{
    if text.len() < 3 || text.len() > 18 || &text[..2] != b"0x".as_slice() {
        return None;
    }
    digits(&text[2..])
}

/// The number that a text stands for: `@` and a name, or `0x` and hexadecimal digits.
fn spelt(names: &KnownNames<'_>, text: &[u8]) -> Option<u64>
    ensures { result ≡ kind.spelt (names_view names.now) text.now }
{
    match text {
        [b'@', name @ ..] => names.word_of(name),
        _ => hexadecimal(text),
    }
}

/// A number not below 0, as an integer or as a text.
fn natural(names: &KnownNames<'_>, value: &Value) -> Result<u64, Wrong>
    ensures { result ≡ kind.natural (names_view names.now) (view value.now) }
{
    if let Some(n) = value.as_integer() {
        return if n < 0 {
            Err(Wrong::OtherValue)
        } else {
            Ok(n as u64)
        };
    }
    match value.as_str() {
        None => Err(Wrong::OtherType),
        Some(text) => spelt(names, text.as_bytes()).ok_or(Wrong::OtherValue),
    }
}

fn is_word<P: Profile>(number: u64) -> bool
    ensures { result ≡ nat_lt number (2 ^ word_bits P.profile) }
{
    number <= u64::MAX >> (u64::BITS - P::WORD_BITS)
}

/// A number that fits a word: an integer, a text `0x` and 1 to 16 hexadecimal digits, or a text `@` and one of the names.
#[derive(Clone, Copy)]
pub struct Word;

impl Kind for Word {
    ghost use Rattle.setup_values.specs.Kinds.{word};

    type Out = u64;

    ghost means = { λ _ p names. word p names };

    fn read<P: Profile>(&self, names: &KnownNames<'_>, value: &Value) -> Result<u64, Wrong> {
        let number = natural(names, value)?;
        if is_word::<P>(number) {
            Ok(number)
        } else {
            Err(Wrong::OtherValue)
        }
    }
}

/// A word that fits a label. It takes no name.
#[derive(Clone, Copy)]
pub struct Label;

impl Kind for Label {
    ghost use Rattle.setup_values.specs.Kinds.{label};

    type Out = u64;

    ghost means = { λ _ p _. label p };

    fn read<P: Profile>(&self, _names: &KnownNames<'_>, value: &Value) -> Result<u64, Wrong> {
        let number = Word.read::<P>(&KnownNames::none(), value)?;
        if number < 1 << P::LABEL_BITS {
            Ok(number)
        } else {
            Err(Wrong::OtherValue)
        }
    }
}

/// The rights that a number from 0 to that of all rights stands for.
#[derive(Clone, Copy)]
pub struct RightsKind;

impl Kind for RightsKind {
    ghost use Rattle.setup_values.specs.Kinds.{rights};
    ghost use Rattle.cap_core.specs.declared.rights.Rights.{Rights};

    type Out = Rights;

    ghost means = { λ _ _ _. rights };

    fn read<P: Profile>(&self, names: &KnownNames<'_>, value: &Value) -> Result<Rights, Wrong> {
        let number = Number(0, u32::from(Rights::ALL.0)).read::<P>(names, value)?;
        Ok(Rights(number as u8))
    }
}

/// The elements of an array of `low` to `high` elements.
#[tactic(auto, using(crate::proofs::Loops::array_short, crate::proofs::Loops::array_long, crate::proofs::Loops::array_fits))]
pub fn array(value: &Value, low: usize, high: usize) -> Result<&[Value], Wrong>
    ensures elements { seen (λ a. map view a.now) result ≡ kind.array_in low high (as_array (view value.now)) }
    ensures length { IfOk result (λ a. length a.now ≤ high) }
{
    let Some(array) = value.as_array() else {
        return Err(Wrong::OtherType);
    };
    let elements = array.as_slice();
    if elements.len() < low {
        return Err(Wrong::OtherValue);
    }
    if elements.len() > high {
        return Err(Wrong::OtherValue);
    }
    Ok(elements)
}

/// An array of no more words than a message has. The other words are 0.
#[derive(Clone, Copy)]
pub struct WordsKind;

impl Kind for WordsKind {
    ghost use Rattle.setup_values.specs.Kinds.{words};
    ghost use Rattle.setup_values.specs.declared.values.Words.{Words};

    type Out = Words;

    ghost means = { λ _ p names. words p names };

    fn read<P: Profile>(&self, names: &KnownNames<'_>, value: &Value) -> Result<Words, Wrong> {
        let elements = array(value, 0, MAX_MESSAGE_WORDS)?;
        let mut words = [0; MAX_MESSAGE_WORDS];
        for (i, element) in elements.iter().enumerate() {
            words[i] = Word.read::<P>(names, element)?;
        }
        Ok(Words {
            words,
            count: elements.len() as u32,
        })
    }
}

/// A table.
pub fn table_in(value: &Value) -> Result<&Table, Wrong>
    ensures { seen (λ t. table_view t.now) result ≡ kind.table_in (as_table (view value.now)) }
{
    value.as_table().ok_or(Wrong::OtherType)
}

/// The word that an entry of a table of names gives to its name. It takes no name itself.
pub fn named_word<P: Profile>(name: &str, value: &Value) -> Result<u64, Wrong>
    ensures { seen (λ n. (name.now, n)) result ≡ kind.entry P.profile (name.now, view value.now) }
{
    if !is_name(name.as_bytes()) {
        return Err(Wrong::OtherValue);
    }
    Word.read::<P>(&KnownNames::none(), value)
}

fn is_shown(text: &[u8]) -> bool
    ensures { result ≡ list_all (kind.between 32 126) text.now }
{
    for byte in text {
        if *byte < b' ' || b'~' < *byte {
            return false;
        }
    }
    true
}

/// A text of 1 to 120 bytes, each from a space to `~`.
pub fn expect(value: &Value) -> Result<&str, Wrong>
    ensures { seen (λ s. Some s.now) result ≡ kind.expect (view value.now) }
{
    let Some(text) = value.as_str() else {
        return Err(Wrong::OtherType);
    };
    if text.len() < 1 || text.len() > MAX_EXPECT_BYTES || !is_shown(text.as_bytes()) {
        return Err(Wrong::OtherValue);
    }
    Ok(text)
}

/// A text that names a profile.
#[derive(Clone, Copy)]
pub struct ProfileKind;

impl Kind for ProfileKind {
    ghost use Rattle.setup_values.specs.Kinds.{profile};
    ghost use Rattle.cap_core.specs.declared.profile.ProfileName.{ProfileName};

    type Out = ProfileName;

    ghost means = { λ _ _ _. profile };

    fn read<P: Profile>(
        &self,
        _names: &KnownNames<'_>,
        value: &Value,
    ) -> Result<ProfileName, Wrong> {
        match value.as_str() {
            None => Err(Wrong::OtherType),
            Some("wide") => Ok(ProfileName::Wide),
            Some("narrow") => Ok(ProfileName::Narrow),
            Some(_) => Err(Wrong::OtherValue),
        }
    }
}

/// A text that names an operation.
#[derive(Clone, Copy)]
pub struct OpKind;

impl Kind for OpKind {
    ghost use Rattle.setup_values.specs.Kinds.{op};
    ghost use Rattle.setup_values.specs.declared.operations.OpName.{OpName};

    type Out = OpName;

    ghost means = { λ _ _ _. op };

    fn read<P: Profile>(&self, _names: &KnownNames<'_>, value: &Value) -> Result<OpName, Wrong> {
        let text = value.as_str().ok_or(Wrong::OtherType)?;
        OpName::named(text).ok_or(Wrong::OtherValue)
    }
}
