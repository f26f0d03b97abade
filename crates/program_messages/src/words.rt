//! Words of a command line that may be commands.
use std::alloc::{AllocError, Global};
use strsim::osa_distance;

/// The commands.
const COMMANDS: [&str; 18] = [
    "check", "marks", "record", "trace", "threads", "migrate", "why", "audit", "ever", "never",
    "draft", "how", "policy", "explore", "tree", "new", "import", "help",
];

/// The most edits that lead from a command to a word that looks like it, and how many bytes a word has for each of them.
const MOST_EDITS: usize = 2;

const BYTES_AN_EDIT: usize = 3;

/// The most bytes of a word that can look like a command.
const MOST_BYTES: usize = 16;

/// The command that looks most like a word, where one does.
pub fn near_command(alloc: Global, word: &str) -> Result<Option<&'static str>, AllocError> {
    let mut nearest = None;
    if word.len() > MOST_BYTES {
        return Ok(nearest);
    }
    let mut fewest = MOST_EDITS.min((word.len() + 1) / BYTES_AN_EDIT) + 1;
    for command in COMMANDS {
        let edits = osa_distance(alloc, word, command)?;
        if edits < fewest {
            fewest = edits;
            nearest = Some(command);
        }
    }
    Ok(nearest)
}

/// Whether this is the first word behind the program's name, and looks neither like an option nor like a file's name, which has
/// a dot or a slash.
pub fn may_be_command(words: &[&str], word: &str) -> bool {
    let bytes = word.as_bytes();
    let looks_like_file = bytes.contains(&b'.') || bytes.contains(&b'/');
    let is_first = words.get(1) == Some(&word);
    is_first && !word.is_empty() && !word.starts_with("-") && !looks_like_file
}

/// Whether a word is a command.
pub fn is_command(word: &str) -> bool {
    COMMANDS.contains(&word)
}
