//! Where in its layout a call of a set-up stands: import writes comments that say it.
use std::alloc::{AllocError, Global};
use std::io::{self, Eprint};

/// The path that the comment of a layout's file tells; none of another comment.
fn path_in(alloc: Global, comment: &str) -> Result<Option<String>, AllocError> {
    let Some(rest) = comment.strip_prefix("# layout \"") else {
        return Ok(None);
    };
    let Some(quoted) = rest.strip_suffix("\"") else {
        return Ok(None);
    };
    let (mut path, mut is_marked) = (String::new(alloc), false);
    for letter in quoted.chars() {
        if letter == '\\' && !is_marked {
            is_marked = true;
            continue;
        }
        if letter == '"' && !is_marked {
            return Ok(None);
        }
        path.push(letter)?;
        is_marked = false;
    }
    Ok(if is_marked { None } else { Some(path) })
}

/// A line of a text, 0 the first.
fn line_at(text: &str, number: usize) -> Option<&str> {
    for (at, line) in text.lines().enumerate() {
        if at == number {
            return Some(line);
        }
    }
    None
}

/// The line of the format, 0 the first, if the format is the first key.
fn format_line(text: &str) -> Option<usize> {
    for (number, line) in text.lines().enumerate() {
        if line.starts_with("format") {
            return Some(number);
        }
        if !line.is_empty() && !line.starts_with("#") {
            break;
        }
    }
    None
}

/// The path of the layout of which a set-up was made, if the line right above the format, which is its first key, tells it.
fn layout_path(alloc: Global, text: &str) -> Result<Option<String>, AllocError> {
    let Some(number) = format_line(text) else {
        return Ok(None);
    };
    match line_at(text, number.wrapping_sub(1)) {
        Some(above) => path_in(alloc, above),
        None => Ok(None),
    }
}

/// The line of the layout that a comment of a call has, and its words.
fn origin_in(comment: &str) -> Option<(u64, &str)> {
    let (number, words) = comment.split_once(": ")?;
    Some((number.parse().ok()?, words))
}

/// The same of the call that begins in a line, 1 the first: the comment stands behind the call there, or in the line right above it.
fn origin_of(text: &str, line: usize) -> Option<(u64, &str)> {
    let row = line_at(text, line.wrapping_sub(1))?;
    match row.split_once(" },  # ") {
        Some((_, comment)) => origin_in(comment),
        None => origin_in(line_at(text, line.wrapping_sub(2))?.strip_prefix("# ")?),
    }
}

/// Says of the call of a set-up that begins in a line where in the layout its slot stands, if the set-up has comments that say it.
pub fn note_on_origin<R: Eprint + AllocGlobal>(rt: &R, text: &str, line: usize) {
    if let Some((number, words)) = origin_of(text, line)
        && let Ok(Some(path)) = layout_path(rt.alloc(), text)
    {
        let _ = eprintln!(rt; "{path}:{number}:1: note: {words}");
    }
}
