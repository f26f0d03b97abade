//! Names of objects as capDL text has them.
use std::alloc::{AllocError, Global};
use std::fmt::Write;

/// The name of an object in capDL text. Each byte that no name has there is `%` and its number, and a name begins with a letter or `_`.
pub fn text_name(alloc: Global, name: &str) -> Result<String, AllocError> {
    let mut made = String::new(alloc);
    for byte in name.bytes() {
        if made.is_empty() && !byte.is_ascii_alphabetic() && byte != b'_' {
            made.push('_')?;
        }
        if byte.is_ascii_alphanumeric() || b"_@.-/".contains(&byte) {
            made.push(char::from(byte))?;
        } else {
            write!(&mut made, "%{byte:02X}")?;
        }
    }
    Ok(made)
}
