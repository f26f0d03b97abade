//! What the keys of a set-up accept.
use crate::document::Formats;
use crate::spot::Spot;
use cap_core::limits::{
    MAX_BOOT_ENDPOINTS, MAX_BOOT_THREADS, MAX_BOOT_UNTYPEDS, MAX_CLIENTS, MAX_HISTORY_LIMIT,
    MAX_MEMORY_BITS, MAX_MESSAGE_WORDS, MAX_ROOT_RADIX, MIN_BOOT_THREADS, MIN_MEMORY_BITS,
    MIN_ROOT_RADIX,
};
use cap_core::{Narrow, Profile, ProfileName, Wide};
use setup_format::Place;
use setup_format::limits::{FIRST_FORMAT, MAX_CALLS, MAX_EXPECT_BYTES, NEWEST_FORMAT};
use setup_values::OpName;
use std::alloc::{AllocError, Global};

/// What a name has.
pub const A_NAME: &str = "1 to 40 of the letters a to z, the digits and _";

/// What a word of a call accepts, but for its bound.
const A_WORD: &str =
    "a number from 0 on, a text of 0x and 1 to 16 hexadecimal digits, or in format 2 a text of @ and a name from names";

/// What a word that takes no name accepts, but for its bound.
pub const A_NUMBER: &str = "a number from 0 on, or a text of 0x and 1 to 16 hexadecimal digits";

/// The kinds of the objects that a retype makes.
const KINDS: &str = "0 (untyped), 1 (thread control block), 2 (endpoint) and 4 (CNode)";

/// The names of the operations.
pub fn operations() -> [&'static str; 15] {
    OpName::ALL.map(|op| op.text())
}

/// The bound of a word, if the words of the machine are shorter than a set-up's.
pub fn word_bound(profile: ProfileName) -> &'static str {
    match profile {
        ProfileName::Wide => "",
        ProfileName::Narrow => "; in a narrow set-up it is below 2^32",
    }
}

/// What a key of a document accepts, or an element of the array there.
pub fn accepted(spot: Spot<'_>) -> Result<String, AllocError> {
    let (document, key) = (spot.document, spot.key);
    let (alloc, profile) = (document.alloc, document.profile());
    let bound = word_bound(profile);
    match spot.place {
        _ if spot.element.is_some() => format!(in alloc; "{A_WORD}{bound}"),
        Place::Top => accepted_in_top(alloc, document.formats, key),
        Place::Untyped(_) if key == "bits" => accepted_bits(alloc, profile),
        Place::Untyped(_) => format!(in alloc; "{A_NUMBER}{bound}"),
        Place::Call(_) => accepted_in_call(alloc, profile, key),
    }
}

/// What a key of the top table accepts.
#[rattlefmt::skip]
fn accepted_in_top(alloc: Global, formats: Formats, key: &str) -> Result<String, AllocError> {
    match (key, formats) {
        ("format", Formats::First) => format!(in alloc; "1, since only a set-up of format 1 is migrated"),
        ("format", Formats::All) => format!(in alloc; "a number from {FIRST_FORMAT} to {NEWEST_FORMAT}"),
        ("profile", _) => format!(in alloc; "\"wide\" or \"narrow\""),
        ("memory_bits", _) => format!(in alloc; "a number from {MIN_MEMORY_BITS} to {MAX_MEMORY_BITS}"),
        ("root_radix", _) => format!(in alloc; "a number from {MIN_ROOT_RADIX} to {MAX_ROOT_RADIX}"),
        ("threads", _) => format!(in alloc; "a number from {MIN_BOOT_THREADS} to {MAX_BOOT_THREADS}"),
        ("endpoints", _) => format!(in alloc; "a number from 0 to {MAX_BOOT_ENDPOINTS}"),
        ("clients", _) => format!(in alloc; "a number from 1 to {MAX_CLIENTS}"),
        ("limit", _) => format!(in alloc; "a number from 1 to {MAX_HISTORY_LIMIT}"),
        ("names", _) => format!(in alloc; "a table of numbers, whose keys have {A_NAME}"),
        ("untyped", _) => format!(in alloc; "an array of at most {MAX_BOOT_UNTYPEDS} tables"),
        _ => format!(in alloc; "an array of at most {MAX_CALLS} tables"),
    }
}

/// What the number of bits of an untyped region's size may be.
fn accepted_bits(alloc: Global, profile: ProfileName) -> Result<String, AllocError> {
    let (low, high) = match profile {
        ProfileName::Wide => (Wide::MIN_UNTYPED_BITS, Wide::MAX_OBJECT_BITS),
        ProfileName::Narrow => (Narrow::MIN_UNTYPED_BITS, Narrow::MAX_OBJECT_BITS),
    };
    format!(in alloc; "the number of bits of an untyped region's size, from {low} to {high}")
}

/// What a key of a call accepts. One that is not named here holds a word.
#[rattlefmt::skip]
fn accepted_in_call(alloc: Global, profile: ProfileName, key: &str) -> Result<String, AllocError> {
    let bound = word_bound(profile);
    let label_bits = match profile {
        ProfileName::Wide => Wide::LABEL_BITS,
        ProfileName::Narrow => Narrow::LABEL_BITS,
    };
    match key {
        "op" => format!(in alloc; "one of {}", operations().join(alloc, ", ")?),
        "client" => format!(in alloc; "a number from 0 on and below the number of clients"),
        "expect" => format!(in alloc; "a text of 1 to {MAX_EXPECT_BYTES} characters, each from a space to ~"),
        "kind" => format!(in alloc; "{A_WORD}{bound}; the kinds are {KINDS}"),
        "label" => format!(in alloc; "{A_NUMBER}, below 2^{label_bits}"),
        "rights" => format!(in alloc; "a number from 0 to 15, the sum of 1 for w, 2 for r, 4 for g and 8 for p"),
        "words" => format!(in alloc; "an array of at most {MAX_MESSAGE_WORDS} of these: {A_WORD}{bound}"),
        _ => format!(in alloc; "{A_WORD}{bound}"),
    }
}
