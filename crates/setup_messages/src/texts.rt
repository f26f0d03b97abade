//! Why a text is no TOML document, in words.
use crate::message::MAX_SHOWN;
use setup_positions::NamedText;
use std::alloc::{AllocError, Global};

/// How a message begins that is on a text which is no TOML document.
const NO_TOML: &str = "TOML parse error";

const SAVE_AS_UTF8: &str = "save the text as UTF-8";

const IS_UTF16: &str = "this looks like UTF-16; save the text as UTF-8";

const IS_JSON: &str = "this looks like JSON; a set-up is TOML, with lines as threads = 2";

const LACKS_QUOTES: &str = "a text stands in plain quotes, as \"send\"";

const TOO_LARGE: &str =
    "TOML's integers end at 2^63 - 1; a greater word is written as \"0xFFFFFFFFFFFFFFFF\", in quotes";

const NO_COMMENT: &str = "a comment begins with #";

const LACKS_COMMA: &str = "a comma stands between two elements, as [1, 2]";

const BEGINS_WITH_0: &str = "a decimal number begins with no 0, as 7";

const NO_COLON: &str = "a key has = behind it, as threads = 2";

const LACKS_QUOTE: &str = "the quotation mark at the end is missing";

const NO_SEMICOLON: &str = "a value has no ; behind it";

const NO_SUM: &str = "a value is one number, and no sum or product";

/// What helps if a value is none that TOML knows, by what stands there.
fn hint_on_value(there: &str) -> &'static str {
    let mut letters = there.chars();
    match (letters.next(), letters.next()) {
        (Some('0'), Some('x')) => TOO_LARGE,
        (Some('0'), Some('0'..='9')) => BEGINS_WITH_0,
        (Some('0'..='9'), _) => LACKS_COMMA,
        (Some('a'..='z' | 'A'..='Z' | '@' | '\u{2018}' | '\u{201C}'), _) => LACKS_QUOTES,
        _ => "",
    }
}

/// What helps if something stands behind a value.
fn hint_behind(there: &str) -> &'static str {
    match there.trim_start().chars().next() {
        Some('/') => NO_COMMENT,
        Some(';') => NO_SEMICOLON,
        Some('+' | '-' | '*') => NO_SUM,
        _ => "",
    }
}

/// What helps to mend a text, by the words of the fault, its bytes and what stands at the fault, or nothing.
fn hint(fault: &str, bytes: &[u8], there: &str) -> &'static str {
    match bytes.trim_ascii_start() {
        [0xFF, 0xFE, ..] | [0xFE, 0xFF, ..] => IS_UTF16,
        [b'{', ..] => IS_JSON,
        _ if fault == "invalid UTF-8" => SAVE_AS_UTF8,
        _ if fault == "number out of range" => TOO_LARGE,
        _ if fault == "invalid string" => LACKS_QUOTE,
        _ if fault.starts_with("invalid key") && there.starts_with("//") => NO_COMMENT,
        _ if fault.starts_with("key with no value") && there.trim_start().starts_with(':') =>
            NO_COLON,
        _ if fault.starts_with("invalid value") => hint_on_value(there),
        _ if fault.starts_with("unexpected key or value") => hint_behind(there),
        _ => "",
    }
}

/// Whether a line begins with a key that has a value behind it.
fn is_line_of(line: &str, key: &str) -> bool {
    match line.trim_start().strip_prefix(key) {
        Some(behind) => behind.trim_start().starts_with('='),
        None => false,
    }
}

/// The number of the last line, 1 the first, that begins with a key and has a value behind it.
fn line_of(above: &str, key: &str) -> Option<usize> {
    let mut last = None;
    for (i, line) in above.lines().enumerate() {
        if is_line_of(line, key) {
            last = Some(i.saturating_add(1));
        }
    }
    last
}

/// The words on bytes that are no TOML document, which were read from a file of that name. The text up to the fault is UTF-8.
pub fn text_words(alloc: Global, bytes: &[u8], name: &str) -> Result<String, AllocError> {
    let Err(error) = toml::table_from_slice(alloc, bytes) else {
        return Ok(String::new(alloc));
    };
    let span = error.span().ok_or(AllocError)?;
    let text = match bytes.utf8_chunks().next() {
        Some(chunk) => chunk.valid(),
        None => "",
    };
    let (above, there) = text.split_at_checked(span.start).unwrap_or((text, ""));
    let key = there.split('=').next().unwrap_or("").trim_end();
    let excerpt = NamedText { name, text }.excerpt(span);
    match (error.message(), line_of(above, key)) {
        ("duplicate key", Some(line)) if key.len() <= MAX_SHOWN => {
            format!(in alloc;
                "{NO_TOML}: duplicate key; {key} stands in line {line} already\n{excerpt}"
            )
        }
        (fault, _) => {
            let hint = hint(fault, bytes, there);
            let then = if hint.is_empty() { "" } else { "; " };
            format!(in alloc; "{NO_TOML}: {fault}{then}{hint}\n{excerpt}")
        }
    }
}
