//! The values of a policy's keys.
ghost use Rattle.std.specs.Prelude.{◌≡◌, IfOk, IsErr, MatchOption, None, Some, map, option_and_then};
ghost use Rattle.toml.specs.View.{view};
ghost use Rattle.setup_policy_file.specs.Values as spec;
ghost use Rattle.setup_policy_file.specs.Files.{with_write};

use crate::fault::Fault;
use crate::file::Word;
use cap_core::{Rights, Wide};
use setup_policy::PolicyVersion;
use setup_values::kinds::Word as SetupWord;
use setup_values::{Kind as SetupKind, KnownNames};
use std::alloc::{AllocError, Global};
use std::slice::from_ref;
use toml::Value;

/// The most bytes of a group's name.
const MOST_NAME_BYTES: usize = 40;

/// Why a value is not taken.
#[derive(Drop)]
pub enum Bad {
    Memory,
    Wrong(Fault, String),
}

impl From<AllocError> for Bad {
    fn from(_refused: AllocError) -> Bad {
        Bad::Memory
    }
}

/// A value as it is told.
fn shown(alloc: Global, value: &Value) -> Result<String, AllocError> {
    match value {
        Value::String(text) => format!(in alloc; "\"{text}\""),
        Value::Integer(number) => format!(in alloc; "{number}"),
        Value::Boolean(true) => String::from_str(alloc, "true"),
        Value::Boolean(false) => String::from_str(alloc, "false"),
        other => format!(in alloc; "of the type {}", other.type_str()),
    }
}

/// That a value is of another type, with what it has to be.
fn wrong_type<T>(alloc: Global, what: &str, value: &Value, remedy: &str) -> Result<T, Bad>
    ensures { IsErr result }
{
    let shown = shown(alloc, value)?;
    let words = format!(in alloc; "the {what} {shown}; {remedy}")?;
    Err(Bad::Wrong(Fault::Type, words))
}

/// That a value is not allowed.
pub fn wrong_value<T>(words: String) -> Result<T, Bad>
    ensures { IsErr result }
{
    Err(Bad::Wrong(Fault::Value, words))
}

/// A kind of value: what a key of a policy takes.
pub trait Kind {
    ghost use Rattle.std.specs.Prelude.{Option};
    ghost use Rattle.toml.specs.Data.{Data};

    /// What a value is read as.
    type Out: Drop;

    /// The same, as a policy's text says it.
    ghost View: { Type 0 };

    ghost shown: { Self.Out → View };

    ghost reads: { Data → Option View };

    /// Reads a value.
    ///
    /// # Errors
    /// `Wrong` of a value of another type, or one that is not allowed; `Memory` if it was refused.
    fn read(alloc: Global, value: &Value) -> Result<Self::Out, Bad>
        ensures { IfOk result (λ x. reads (view value.now) ≡ Some (shown x)) };
}

/// The version of the form.
pub struct Version;

impl Kind for Version {
    ghost use Rattle.setup_policy.specs.declared.policy.PolicyVersion.{PolicyVersion};
    ghost use Rattle.setup_policy_file.specs.Values.{version_of};

    type Out = PolicyVersion;

    ghost View = { PolicyVersion };

    ghost shown = { λ v. v };

    ghost reads = { version_of };

    fn read(alloc: Global, value: &Value) -> Result<PolicyVersion, Bad> {
        match value {
            Value::Integer(1) => Ok(PolicyVersion::One),
            Value::Integer(2) => Ok(PolicyVersion::Two),
            Value::Integer(other) => wrong_value(format!(in alloc;
                "the value is {other}; this program reads policy = 1 and policy = 2"
            )?),
            other => wrong_type(alloc, "value is", other, "write policy = 2"),
        }
    }
}

/// `true` or `false`.
pub struct Switch;

impl Kind for Switch {
    ghost use Rattle.std.specs.Prelude.{Bool};
    ghost use Rattle.setup_policy_file.specs.Values.{switch_of};

    type Out = bool;

    ghost View = { Bool };

    ghost shown = { λ b. b };

    ghost reads = { switch_of };

    fn read(alloc: Global, value: &Value) -> Result<bool, Bad> {
        match value {
            Value::Boolean(is_on) => Ok(*is_on),
            other => wrong_type(
                alloc,
                "value is",
                other,
                "write true or false, without quotes",
            ),
        }
    }
}

/// A number of calls.
pub struct Number;

impl Kind for Number {
    ghost use Rattle.std.specs.Prelude.{ℕ};
    ghost use Rattle.setup_policy_file.specs.Values.{number_of};

    type Out = u64;

    ghost View = { ℕ };

    ghost shown = { λ n. n };

    ghost reads = { number_of };

    fn read(alloc: Global, value: &Value) -> Result<u64, Bad> {
        match value {
            Value::Integer(number) => match u64::try_from(*number) {
                Ok(number) => Ok(number),
                Err(_) => wrong_value(format!(in alloc;
                    "the value is {number}; it has to be a number from 0 on"
                )?),
            },
            other => wrong_type(alloc, "value is", other, "it has to be a number"),
        }
    }
}

fn is_name_byte(byte: u8) -> bool
    ensures { result ≡ spec.is_name_byte byte }
{
    byte.is_ascii_alphanumeric() || byte == b'_' || byte == b'-'
}

/// Whether a text may be a group's name.
pub fn is_group_name(text: &str) -> bool
    ensures { result ≡ spec.is_group_name text.now }
{
    let bytes = text.as_bytes();
    for byte in bytes {
        if !is_name_byte(*byte) {
            return false;
        }
    }
    bytes.len() >= 1 && bytes.len() <= MOST_NAME_BYTES
}

/// The name of a group.
pub struct Name;

impl Kind for Name {
    ghost use Rattle.std.specs.Prelude.{List, ℕ, string_bytes};
    ghost use Rattle.setup_policy_file.specs.Values.{group_name_of};

    type Out = String;

    ghost View = { List ℕ };

    ghost shown = { string_bytes };

    ghost reads = { group_name_of };

    fn read(alloc: Global, value: &Value) -> Result<String, Bad> {
        match value {
            Value::String(text) if is_group_name(text.as_str()) => {
                Ok(String::from_str(alloc, text.as_str())?)
            }
            Value::String(text) => wrong_value(format!(in alloc;
                "the value is \"{text}\"; a name has 1 to 40 letters, digits, _ and -"
            )?),
            other => wrong_type(alloc, "value is", other, "it has to be a name in quotes"),
        }
    }
}

/// The number of a text of decimal digits; none of another text, nor where it is longer than a number may be.
fn decimal(text: &[u8]) -> Option<u64>
    ensures { result ≡ spec.decimal_after 0 text.now }
{
    let mut number = 0u64;
    for byte in text {
        if !byte.is_ascii_digit() {
            return None;
        }
        let digit = u64::from(*byte - b'0');
        match number.checked_mul(10) {
            Some(tens) => match tens.checked_add(digit) {
                Some(sum) => number = sum,
                None => return None,
            },
            None => return None,
        }
    }
    Some(number)
}

/// A word for a thread, an endpoint or a region, from a text.
pub fn word_in(alloc: Global, text: &str) -> Result<Word, Bad>
    ensures { IfOk result (λ w. spec.word_in text.now ≡ Some (spec.word_view w)) }
{
    let name = text.strip_prefix("@").unwrap_or(text);
    if name.is_empty() {
        return wrong_value(String::from_str(alloc, "the name is empty")?);
    }
    match decimal(text.as_bytes()) {
        Some(number) => Ok(Word::Number(number)),
        None => Ok(Word::Name(String::from_str(alloc, name)?)),
    }
}

/// A word for an object.
pub struct ObjectWord;

impl Kind for ObjectWord {
    ghost use Rattle.setup_policy_file.specs.Values.{WordView, word_of, word_view};

    type Out = Word;

    ghost View = { WordView };

    ghost shown = { word_view };

    ghost reads = { word_of };

    fn read(alloc: Global, value: &Value) -> Result<Word, Bad> {
        match value {
            Value::Integer(number) => match u64::try_from(*number) {
                Ok(number) => Ok(Word::Number(number)),
                Err(_) => wrong_value(format!(in alloc;
                    "the value is {number}; an address is a number from 0 on"
                )?),
            },
            Value::String(text) => word_in(alloc, text.as_str()),
            other => wrong_type(
                alloc,
                "value is",
                other,
                "it has to be a name of the set-up in quotes, or an address",
            ),
        }
    }
}

/// The elements of a value that is a list.
#[tactic(auto, using(setup_values::proofs::Loops::item_list_view))]
pub fn listed(value: &Value) -> Option<&[Value]>
    ensures { MatchOption result (spec.elements_of (view value.now) ≡ None) (λ es. spec.elements_of (view value.now) ≡ Some (map view es.now)) }
{
    let array = value.as_array()?;
    Some(array.as_slice())
}

/// The values at a key: in version 1 the one; in version 2 also those of a list, which is not empty.
pub fn values_in(alloc: Global, version: PolicyVersion, value: &Value) -> Result<&[Value], Bad>
    ensures { IfOk result (λ vs. spec.values_in version (view value.now) ≡ Some (map view vs.now)) }
{
    if version == PolicyVersion::One {
        return Ok(from_ref(value));
    }
    match listed(value) {
        None => Ok(from_ref(value)),
        Some([]) => wrong_value(String::from_str(alloc, "the list is empty")?),
        Some(elements) => Ok(elements),
    }
}

/// The elements of a list.
pub fn elements(alloc: Global, value: &Value) -> Result<&[Value], Bad>
    ensures { IfOk result (λ es. spec.elements_of (view value.now) ≡ Some (map view es.now)) }
{
    let Some(elements) = listed(value) else {
        let shown = shown(alloc, value)?;
        let words = format!(in alloc; "the value is {shown}; it has to be a list: [{shown}]")?;
        return Err(Bad::Wrong(Fault::Type, words));
    };
    Ok(elements)
}

/// A badge, 0 for any.
pub struct Badge;

impl Kind for Badge {
    ghost use Rattle.std.specs.Prelude.{ℕ};
    ghost use Rattle.setup_policy_file.specs.Values.{badge_of};

    type Out = u64;

    ghost View = { ℕ };

    ghost shown = { λ n. n };

    ghost reads = { badge_of };

    fn read(alloc: Global, value: &Value) -> Result<u64, Bad> {
        if value.as_str() == Some("any") {
            return Ok(0);
        }
        match (SetupWord.read::<Wide>(&KnownNames::none(), value), value) {
            (Ok(0), _) => wrong_value(String::from_str(
                alloc,
                "the badge is 0; who holds an endpoint without a badge may mint any: write badge = \"any\"",
            )?),
            (Ok(number), _) => Ok(number),
            (Err(_), Value::String(text)) => wrong_value(format!(in alloc;
                "the badge is \"{text}\"; write a number, or \"any\""
            )?),
            (Err(_), Value::Integer(number)) => wrong_value(format!(in alloc;
                "the badge is {number}; it has to be a number from 1 to 2^64 - 1"
            )?),
            (Err(_), other) => {
                wrong_type(alloc, "badge is", other, "write a number, or \"any\"")
            }
        }
    }
}

/// The rights with one more, by its letter; none where no right has it.
fn with_letter(rights: Rights, letter: u8) -> Option<Rights>
    ensures { result ≡ spec.with_letter rights letter }
{
    let right = match letter {
        b'w' => Rights::WRITE,
        b'r' => Rights::READ,
        b'g' => Rights::GRANT,
        b'p' => Rights::GRANT_REPLY,
        b'-' => return Some(rights),
        _ => return None,
    };
    Some(Rights(rights.0 | right.0))
}

/// Rights, by their letters.
pub struct Letters;

impl Kind for Letters {
    ghost use Rattle.cap_core.specs.declared.rights.Rights.{Rights};
    ghost use Rattle.setup_policy_file.specs.Values.{rights_of};

    type Out = Rights;

    ghost View = { Rights };

    ghost shown = { λ r. r };

    ghost reads = { rights_of };

    fn read(alloc: Global, value: &Value) -> Result<Rights, Bad> {
        let Value::String(text) = value else {
            return wrong_type(
                alloc,
                "rights are",
                value,
                "write letters of wrgp in quotes, as \"w\"",
            );
        };
        let mut rights = Rights(0);
        let letters = text.as_bytes();
        for letter in letters {
            match with_letter(rights, *letter) {
                Some(more) => rights = more,
                None => {
                    return wrong_value(format!(in alloc;
                        "the rights are \"{text}\"; the letters are w (Write), r (Read), g (Grant) and p (GrantReply)"
                    )?);
                }
            }
        }
        Ok(rights)
    }
}

/// The rights of a way, which have Write.
pub fn way_rights(alloc: Global, version: PolicyVersion, value: &Value) -> Result<Rights, Bad>
    ensures { IfOk result (λ r. option_and_then with_write (spec.rights_of (view value.now)) ≡ Some r) }
{
    let rights = Letters::read(alloc, value)?;
    if rights.0 & Rights::WRITE.0 != 0 {
        return Ok(rights);
    }
    if version == PolicyVersion::One {
        return wrong_value(String::from_str(
            alloc,
            "a way carries Write; add w, or say by a use what else may be held",
        )?);
    }
    let shown = shown(alloc, value)?;
    wrong_value(format!(in alloc;
        "the rights are {shown}; who sends needs w: write it, or a use for what is not sent"
    )?)
}
