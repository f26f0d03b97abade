//! Steps over the parts of a text that is a TOML document.
use std::alloc::{AllocError, Global};
use toml_parser::text::{first, skip_blank, skip_ws};
use toml_parser::{Key, ParseError, dotted_key, quoted, starts_string, unquoted};

/// Why a part of a text was not found.
#[derive(Clone, Copy)]
pub enum Unfound {
    /// It is not there, or the text is no TOML document.
    Nowhere,
    /// Memory was refused.
    Memory,
}

impl From<AllocError> for Unfound {
    fn from(_refused: AllocError) -> Unfound {
        Unfound::Memory
    }
}

impl From<ParseError> for Unfound {
    fn from(fault: ParseError) -> Unfound {
        match fault {
            ParseError::OutOfMemory => Unfound::Memory,
            ParseError::At(..) => Unfound::Nowhere,
        }
    }
}

/// What was found, or `None` if it is not there.
pub fn found<T>(searched: Result<T, Unfound>) -> Result<Option<T>, AllocError> {
    match searched {
        Ok(part) => Ok(Some(part)),
        Err(Unfound::Nowhere) => Ok(None),
        Err(Unfound::Memory) => Err(AllocError),
    }
}

/// The text behind its first bytes, so many.
fn behind(text: &str, bytes: usize) -> Result<&str, Unfound> {
    text.get(bytes..).ok_or(Unfound::Nowhere)
}

/// The text after a string at its front.
fn after_string(alloc: Global, text: &str) -> Result<&str, Unfound> {
    if starts_string(text) {
        Ok(quoted(alloc, text)?.1)
    } else {
        Err(Unfound::Nowhere)
    }
}

/// The text after one string, bracket or other byte at its front, and how many brackets are open there.
fn after_token(alloc: Global, text: &str, open: usize) -> Result<(&str, usize), Unfound> {
    let open_there = match first(text) {
        b'"' | b'\'' => return Ok((after_string(alloc, text)?, open)),
        b'[' | b'{' => open.checked_add(1),
        b']' | b'}' => open.checked_sub(1),
        _ => Some(open),
    };
    Ok((behind(text, 1)?, open_there.ok_or(Unfound::Nowhere)?))
}

/// The text after an array or an inline table at its front.
fn after_brackets(alloc: Global, text: &str) -> Result<&str, Unfound> {
    let (mut rest, mut open) = (text, 0usize);
    for _token in 0..text.len() {
        (rest, open) = after_token(alloc, skip_blank(rest, true), open)?;
        if open == 0 {
            return Ok(rest);
        }
    }
    Err(Unfound::Nowhere)
}

/// The text after a value at its front.
pub fn after_value(alloc: Global, text: &str) -> Result<&str, Unfound> {
    match first(text) {
        b'"' | b'\'' => after_string(alloc, text),
        b'[' | b'{' => after_brackets(alloc, text),
        _ => Ok(unquoted(alloc, text)?.1),
    }
}

/// The text after a comma that comes next, and after white space and comments.
pub fn after_comma(text: &str) -> Result<&str, Unfound> {
    let rest = skip_blank(text, true).strip_prefix(',');
    Ok(skip_blank(rest.ok_or(Unfound::Nowhere)?, true))
}

/// The text after a bracket at its front, and after white space and comments.
pub fn after_bracket(text: &str) -> Result<&str, Unfound> {
    Ok(skip_blank(behind(text, 1)?, true))
}

/// The key at the front of a text, and the text from its value on.
pub fn entry_of(alloc: Global, text: &str) -> Result<(Key, &str), Unfound> {
    let (key, rest) = dotted_key(alloc, text)?;
    match rest.strip_prefix('=') {
        Some(value) => Ok((key, skip_ws(value))),
        None => Err(Unfound::Nowhere),
    }
}

/// The key of a table's head at the front of a text, `[KEY]` or `[[KEY]]`, whether it begins a table of an array, and the text after it.
pub fn head_of(alloc: Global, text: &str) -> Result<(Key, bool, &str), Unfound> {
    let brackets = if text.starts_with("[[") { 2 } else { 1 };
    let (key, rest) = dotted_key(alloc, skip_ws(behind(text, brackets)?))?;
    Ok((key, brackets == 2, behind(rest, brackets)?))
}

/// Whether the first part of a key is this name.
pub fn begins_with(key: &Key, name: &str) -> bool {
    key.path.first().unwrap_or(&key.last).as_str() == name
}

/// Whether a key is this name alone.
pub fn is_key(key: &Key, name: &str) -> bool {
    key.path.is_empty() && key.last.as_str() == name
}
