//! The search for a key of a set-up in its text.
use crate::steps::{
    Unfound, after_bracket, after_comma, after_value, begins_with, entry_of, found, head_of, is_key,
};
use setup_format::Place;
use std::alloc::{AllocError, Global};
use std::ops::Range;
use toml_parser::text::{first, skip_blank};
use toml_parser::{ParseError, dotted_key};

/// A part of a key with its value.
#[derive(Clone, Copy)]
pub enum Part {
    /// The key.
    Key,
    /// The value.
    Value,
    /// An element of the value, which is an array; 1 the first.
    Element(usize),
}

/// A key of a set-up that is looked for in its text.
#[derive(Clone, Copy)]
pub struct SoughtKey<'a> {
    /// The table.
    pub place: Place,
    /// The key.
    pub key: &'a str,
    /// The part of it that is looked for.
    pub part: Part,
}

/// The key of the array of tables in which a table stands, and the table's number there, 1 the first; none of the top table.
pub fn array_of(place: Place) -> Option<(&'static str, usize)> {
    match place {
        Place::Top => None,
        Place::Untyped(n) => Some(("untyped", n)),
        Place::Call(n) => Some(("call", n)),
    }
}

/// The text from an element of an array on, 1 the first; the text begins with the array.
fn element_at(alloc: Global, text: &str, n: usize) -> Result<&str, Unfound> {
    let mut rest = after_bracket(text)?;
    for _passed in 1..n {
        rest = after_comma(after_value(alloc, rest)?)?;
    }
    Ok(rest)
}

/// The text from a key of an inline table on; the text begins with the table.
fn key_within<'t>(alloc: Global, text: &'t str, name: &str) -> Result<&'t str, Unfound> {
    let mut rest = after_bracket(text)?;
    for _passed in 0..text.len() {
        let (key, value) = entry_of(alloc, rest)?;
        if begins_with(&key, name) {
            return Ok(rest);
        }
        rest = after_comma(after_value(alloc, value)?)?;
    }
    Err(Unfound::Nowhere)
}

/// How far the search for a key of a table is, behind some lines of a document.
#[derive(Clone, Copy)]
struct Search<'t, 's> {
    /// The key that is looked for.
    name: &'s str,
    /// The array in which its table stands, and the table's number there.
    array: Option<(&'static str, usize)>,
    /// How many tables of the array there were.
    passed: usize,
    /// Whether the lines that follow belong to the top table.
    is_top: bool,
    /// Whether the lines that follow belong to the table.
    is_inside: bool,
    /// The text from the head of the table on.
    table: Option<&'t str>,
    /// The text from the key on.
    key: Option<&'t str>,
}

impl<'t> Search<'t, '_> {
    /// Passes the head of a table, and gives the text behind it: none if the table in which the key stands has ended.
    fn pass_head(&mut self, alloc: Global, at: &'t str) -> Result<&'t str, Unfound> {
        if self.table.is_some() {
            return Ok("");
        }
        let (key, is_element, rest) = head_of(alloc, at)?;
        self.is_top = false;
        self.is_inside = false;
        match self.array {
            None if begins_with(&key, self.name) => self.key = Some(at),
            Some((array, n)) if is_element && is_key(&key, array) => {
                self.passed = self.passed.saturating_add(1);
                self.is_inside = self.passed == n;
            }
            _ => {}
        }
        if self.is_inside {
            self.table = Some(at);
        }
        Ok(rest)
    }

    /// Passes a key with its value, and gives the text behind it: none if the table was in that value.
    fn pass_entry(&mut self, alloc: Global, at: &'t str) -> Result<&'t str, Unfound> {
        let (key, value) = entry_of(alloc, at)?;
        match self.array {
            _ if self.is_inside && begins_with(&key, self.name) => self.key = Some(at),
            Some((array, n)) if self.is_top && is_key(&key, array) => {
                if let Some(table) = found(element_at(alloc, value, n))? {
                    self.key = found(key_within(alloc, table, self.name))?;
                    self.table = Some(table);
                    return Ok("");
                }
            }
            _ => {}
        }
        after_value(alloc, value)
    }
}

/// The text from the key on; from the head of the table on, if the key is not there.
fn text_from<'t>(
    alloc: Global,
    text: &'t str,
    array: Option<(&'static str, usize)>,
    name: &str,
) -> Result<&'t str, Unfound> {
    let mut search = Search {
        name,
        array,
        passed: 0,
        is_top: true,
        is_inside: array.is_none(),
        table: None,
        key: None,
    };
    let mut at = skip_blank(text, true);
    for _passed in 0..text.len() {
        if at.is_empty() || search.key.is_some() {
            break;
        }
        let rest = match first(at) {
            b'[' => search.pass_head(alloc, at)?,
            _ => search.pass_entry(alloc, at)?,
        };
        at = skip_blank(rest, true);
    }
    search.key.or(search.table).ok_or(Unfound::Nowhere)
}

/// How many bytes of a text its first key has, its first bracket, or both brackets of a table of an array.
fn length_at(alloc: Global, text: &str) -> Result<usize, AllocError> {
    match dotted_key(alloc, text) {
        Ok((_, rest)) => Ok(text.strip_suffix(rest).unwrap_or("").trim_end().len()),
        Err(ParseError::OutOfMemory) => Err(AllocError),
        Err(_) if text.starts_with("[[") => Ok(2),
        Err(_) => Ok(1),
    }
}

/// The text from the value on that stands behind a key, or from an element of it on, and how many bytes that has.
fn value_at(alloc: Global, text: &str, part: Part) -> Result<(&str, usize), Unfound> {
    let (_, value) = entry_of(alloc, text)?;
    let from = match part {
        Part::Key => return Err(Unfound::Nowhere),
        Part::Value => value,
        Part::Element(n) => element_at(alloc, value, n)?,
    };
    let rest = after_value(alloc, from)?;
    let length = from.len().checked_sub(rest.len());
    Ok((from, length.ok_or(Unfound::Nowhere)?))
}

/// The text from a part of a key on, and how many bytes it has: those of the key if the part is not there.
fn part_at(alloc: Global, text: &str, part: Part) -> Result<(&str, usize), AllocError> {
    match found(value_at(alloc, text, part))? {
        Some(value) => Ok(value),
        None => Ok((text, length_at(alloc, text)?)),
    }
}

/// Which bytes of a set-up's text are a key of a table, as it is written, or the part of its value that is looked for; if the
/// key is missing, those with which the table begins. None if the text is no TOML document.
pub fn span_at(
    alloc: Global,
    text: &str,
    sought: SoughtKey<'_>,
) -> Result<Option<Range<usize>>, AllocError> {
    span_in(alloc, text, array_of(sought.place), sought.key, sought.part)
}

/// The same of a key of a table of an array of whatever name, which may be that of another document than a set-up. The tables of an array
/// count from 1.
pub fn span_in(
    alloc: Global,
    text: &str,
    array: Option<(&'static str, usize)>,
    key: &str,
    part: Part,
) -> Result<Option<Range<usize>>, AllocError> {
    let Some(at) = found(text_from(alloc, text, array, key))? else {
        return Ok(None);
    };
    let (from, length) = part_at(alloc, at, part)?;
    if let Some(start) = text.len().checked_sub(from.len())
        && let Some(end) = start.checked_add(length)
    {
        return Ok(Some(start..end));
    }
    Ok(None)
}
