//! The name that looks most like a given one.
use std::alloc::{AllocError, Global};
use strsim::osa_distance;

/// The most edits that lead from a short name to one that looks like it.
const MOST_EDITS: usize = 2;

/// Of a longer name, one edit for so many bytes.
const BYTES_AN_EDIT: usize = 3;

/// Nothing looks like a longer text.
const MOST_BYTES: usize = 60;

/// Asks whether a name was meant: of some names the first that looks most like the word, if one does; otherwise the words behind
/// it.
///
/// # Errors
/// If memory was refused.
pub fn did_you_mean(
    alloc: Global,
    word: &str,
    names: &[&str],
    else_words: &str,
) -> Result<String, AllocError> {
    let most = MOST_EDITS.max(word.len() / BYTES_AN_EDIT);
    let (mut nearest, mut fewest) = (None, most.saturating_add(1));
    if word.len() <= MOST_BYTES {
        for name in names {
            let edits = osa_distance(alloc, word, *name)?;
            if edits < fewest {
                (nearest, fewest) = (Some(*name), edits);
            }
        }
    }
    match nearest {
        Some(name) => format!(in alloc; "; did you mean {name}?"),
        None => String::from_str(alloc, else_words),
    }
}
