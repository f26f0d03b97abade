//! Values that their keys do not take, in words.
use crate::accepted::{A_NAME, A_NUMBER, accepted, operations, word_bound};
use crate::document::Formats;
use crate::message::{MAX_SHOWN, found, is_decimal, question, quoted, with_list};
use crate::near::nearest;
use crate::spot::Spot;
use setup_format::Place;
use setup_values::names::is_name;
use std::alloc::{AllocError, Global};
use toml::{Table, Value};

/// seL4's system calls and methods that no operation stands for, without their `seL4_`.
#[rattlefmt::skip]
const LEFT_OUT: [&str; 16] = [
    "Call", "Reply", "ReplyRecv", "Signal", "Wait", "Poll", "Yield", "CNode_Rotate", "CNode_SaveCaller",
    "call", "reply", "reply_recv", "signal", "wait", "poll", "yield",
];

/// The operations that stand in place of seL4's call, which is left out too.
const NO_CALL: &str = "a call is a send and a recv, on two endpoints";

/// What is said of the others.
const IS_LEFT_OUT: &str = "this one of seL4's is left out";

/// No number of bits is so large.
const NO_BITS: u64 = 64;

/// The most names that are listed if none looks like the one that is not there.
const FEW_NAMES: usize = 8;

/// Why a value is not taken, or that there is none: what was found, what is accepted, and a hint.
fn not_taken(spot: Spot<'_>, hint: &str) -> Result<String, AllocError> {
    let (alloc, accepted) = (spot.document.alloc, accepted(spot)?);
    match spot.value {
        None => format!(in alloc; "{spot}: the key is missing; it has to be {accepted}{hint}"),
        Some(value) => {
            let found = found(alloc, value)?;
            format!(in alloc; "{spot}: the value is {found}; it has to be {accepted}{hint}")
        }
    }
}

/// Why a number is no number of bits. It may be the size that so many bits give.
fn no_bits(spot: Spot<'_>, number: i64) -> Result<String, AllocError> {
    match u64::try_from(number) {
        Ok(size) if size >= NO_BITS && size.is_power_of_two() => {
            let bits = size.trailing_zeros();
            let hint = format!(in spot.document.alloc; "; 2^{bits} is {size}")?;
            not_taken(spot, hint.as_str())
        }
        _ => not_taken(spot, ""),
    }
}

/// Why a text names no operation.
fn no_operation(spot: Spot<'_>, text: &str) -> Result<String, AllocError> {
    let (alloc, method) = (
        spot.document.alloc,
        text.strip_prefix("seL4_").unwrap_or(text),
    );
    let name = quoted(alloc, text)?;
    let fault = format!(in alloc; "{spot}: there is no operation {name}")?;
    let hint = hint_on_operation(spot, method)?;
    let list = operations().join(alloc, ", ")?;
    with_list(
        alloc,
        fault.as_str(),
        hint.as_str(),
        "operations",
        list.as_str(),
    )
}

/// What may have been meant by a text that names no operation.
fn hint_on_operation(spot: Spot<'_>, method: &str) -> Result<String, AllocError> {
    let alloc = spot.document.alloc;
    match method {
        "Call" | "call" => format!(in alloc; "; {NO_CALL}"),
        _ if LEFT_OUT.contains(&method) => format!(in alloc; "; {IS_LEFT_OUT}"),
        _ => question(alloc, nearest(alloc, method, &operations())?),
    }
}

/// Whether a name may stand for the value.
fn takes_name(spot: Spot<'_>) -> bool {
    match (spot.place, spot.key) {
        (Place::Call(_), "words") => spot.element.is_some(),
        (Place::Call(_), key) => !["client", "expect", "label", "op", "rights"].contains(&key),
        _ => false,
    }
}

/// Why a text is none of the names. It may lack the sign before a name.
fn no_name(spot: Spot<'_>, text: &str) -> Result<String, AllocError> {
    let alloc = spot.document.alloc;
    match (spot.document.names(), text.strip_prefix('@')) {
        (Some(names), Some(name)) if text.len() <= MAX_SHOWN => {
            let mut known = Vec::new(alloc);
            for key in names.keys() {
                known.push(key.as_str())?;
            }
            let hint = hint_on_name(alloc, name, known.as_slice())?;
            format!(in alloc; "{spot}: names has no {name:?}{hint}")
        }
        (Some(names), None) if names.get(text).is_some() => {
            format!(in alloc; "{spot}: a name is written with @, as \"@{text}\"")
        }
        _ => quoted_number(spot, text),
    }
}

/// What may have been meant by a name that is not there: the one that looks most like it, or which there are, if they are few.
fn hint_on_name(alloc: Global, name: &str, known: &[&str]) -> Result<String, AllocError> {
    match nearest(alloc, name, known)? {
        None if !known.is_empty() && known.len() <= FEW_NAMES => {
            let names = known.join(alloc, ", ")?;
            format!(in alloc; "; the names are {names}")
        }
        near => question(alloc, near),
    }
}

/// Why a text is no value of a key that takes numbers. It may be a number in quotes.
fn quoted_number(spot: Spot<'_>, text: &str) -> Result<String, AllocError> {
    if is_decimal(text) && text.len() <= MAX_SHOWN {
        let hint = format!(in spot.document.alloc; "; write {text} without quotes")?;
        return not_taken(spot, hint.as_str());
    }
    match spot.key {
        "label" if text.starts_with('@') => not_taken(spot, "; a label takes no name"),
        _ => not_taken(spot, ""),
    }
}

/// Whether a key takes a number and no text.
fn takes_number(spot: Spot<'_>) -> bool {
    !matches!(
        spot.key,
        "profile" | "expect" | "op" | "names" | "untyped" | "call"
    )
}

/// Why a number is none of a client's.
fn no_client(spot: Spot<'_>) -> Result<String, AllocError> {
    match spot.document.table.get("clients") {
        Some(Value::Integer(_)) => not_taken(spot, ""),
        _ => not_taken(spot, "; without the key clients there is one client, 0"),
    }
}

/// What helps if a value has the type of another spelling of the same.
fn hint_on_type(spot: Spot<'_>) -> &'static str {
    let takes_all = matches!(spot.document.formats, Formats::All);
    match (spot.key, spot.value) {
        ("format", None) if takes_all => "; begin with format = 2, as sel4sim new does",
        ("names", Some(Value::Array(_))) => "; write [names]",
        ("call", Some(Value::Table(_))) => "; write [[call]]",
        ("untyped", Some(Value::Table(_))) => "; write [[untyped]]",
        _ => "",
    }
}

/// Why a table holds other than names, by its first such entry.
fn no_names(spot: Spot<'_>, names: &Table) -> Result<String, AllocError> {
    let (document, alloc) = (spot.document, spot.document.alloc);
    let bound = word_bound(document.profile());
    for (name, value) in names.iter() {
        if !is_name(name.as_bytes()) {
            let key = quoted(alloc, name.as_str())?;
            return format!(in alloc; "{spot}: the key {key} is no name; a name has {A_NAME}");
        }
        if !document.is_plain_word(value) {
            let value = found(alloc, value)?;
            return format!(in alloc;
                "{spot}: the value of {name} is {value}; it has to be {A_NUMBER}{bound}"
            );
        }
    }
    not_taken(spot, "")
}

/// Why the value at a key is not taken, or that there is none.
pub fn value_words(spot: Spot<'_>) -> Result<String, AllocError> {
    match (spot.key, spot.value) {
        ("memory_bits" | "root_radix" | "bits", Some(Value::Integer(n))) => no_bits(spot, *n),
        ("op", Some(Value::String(text))) => no_operation(spot, text.as_str()),
        ("names", Some(Value::Table(names))) => no_names(spot, names),
        ("client", Some(Value::Integer(_))) => no_client(spot),
        (_, Some(Value::String(text))) if takes_name(spot) => no_name(spot, text.as_str()),
        (_, Some(Value::String(text))) if takes_number(spot) => quoted_number(spot, text.as_str()),
        _ => not_taken(spot, hint_on_type(spot)),
    }
}
