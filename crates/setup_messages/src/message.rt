//! What messages are made of.
use std::alloc::{AllocError, Global};
use toml::Value;

/// The most bytes of a key or a value that are shown.
pub const MAX_SHOWN: usize = 60;

/// A value that was found: a short text or a number as it is, how many elements an array has, and the type of any other.
pub fn found(alloc: Global, value: &Value) -> Result<String, AllocError> {
    match value {
        Value::Integer(number) => format!(in alloc; "{number}"),
        Value::String(text) if text.len() <= MAX_SHOWN => format!(in alloc; "{text:?}"),
        Value::Array(elements) => format!(in alloc; "an array of {}", elements.len()),
        other => format!(in alloc; "of the type {}", other.type_str()),
    }
}

/// Whether a text is one or more decimal digits.
pub fn is_decimal(text: &str) -> bool {
    for byte in text.as_bytes() {
        if !byte.is_ascii_digit() {
            return false;
        }
    }
    !text.is_empty()
}

/// A key of the set-up, in quotes, and of a long one how long it is.
pub fn quoted(alloc: Global, key: &str) -> Result<String, AllocError> {
    match key.len() {
        length if length > MAX_SHOWN => format!(in alloc; "of {length} bytes"),
        _ => format!(in alloc; "{key:?}"),
    }
}

/// Asks whether a name was meant, if there is one.
pub fn question(alloc: Global, name: Option<&str>) -> Result<String, AllocError> {
    match name {
        Some(name) => format!(in alloc; "; did you mean {name}?"),
        None => Ok(String::new(alloc)),
    }
}

/// A fault, what may have been meant, and behind them a list of what there is.
pub fn with_list(
    alloc: Global,
    fault: &str,
    hint: &str,
    noun: &str,
    list: &str,
) -> Result<String, AllocError> {
    if hint.ends_with('?') {
        format!(in alloc; "{fault}{hint} The {noun} are {list}")
    } else {
        format!(in alloc; "{fault}{hint}; the {noun} are {list}")
    }
}
