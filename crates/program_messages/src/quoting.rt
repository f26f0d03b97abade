//! Words as a shell takes them.
use std::alloc::{AllocError, Global};

/// What stands for a quote between quotes.
const QUOTE: &str = "'\\''";

/// Whether a byte means nothing but itself to a shell.
fn is_plain(byte: u8) -> bool {
    byte.is_ascii_alphanumeric()
        || !byte.is_ascii()
        || matches!(
            byte,
            b'/' | b'.' | b'_' | b'-' | b'+' | b',' | b':' | b'=' | b'@' | b'%'
        )
}

/// Whether each byte of a word means nothing but itself to a shell.
fn is_plain_word(word: &str) -> bool {
    for byte in word.as_bytes() {
        if !is_plain(*byte) {
            return false;
        }
    }
    !word.is_empty()
}

/// A file's name as it is written for a shell: as it is, or between quotes. Where it would be an option, `./` is before it.
///
/// # Errors
/// Where memory was refused.
pub fn shell_word(alloc: Global, name: &str) -> Result<String, AllocError> {
    let is_option = name != "-" && name.starts_with("-");
    let front = if is_option { "./" } else { "" };
    if is_plain_word(name) {
        return format!(in alloc; "{front}{name}");
    }
    let mut text = format!(in alloc; "{front}'")?;
    for (i, part) in name.split('\'').enumerate() {
        if i > 0 {
            text.push_str(QUOTE)?;
        }
        text.push_str(part)?;
    }
    text.push_str("'")?;
    Ok(text)
}
