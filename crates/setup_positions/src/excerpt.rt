//! A line of a text, with some of its bytes underlined.
use crate::search::{SoughtKey, span_at};
use std::alloc::{AllocError, Global};
use std::fmt;
use std::ops::Range;

/// The most characters of a line that are shown.
const MAX_SHOWN: usize = 100;

/// How many characters are shown before what is underlined, if a line is too long to be shown whole.
const SHOWN_BEFORE: usize = 40;

/// The text of a set-up, and the name of the file from which it was read.
#[derive(Clone, Copy)]
pub struct NamedText<'a> {
    /// The name.
    pub name: &'a str,
    /// The text.
    pub text: &'a str,
}

impl<'a> NamedText<'a> {
    /// Some bytes of the text, by their places.
    pub fn excerpt(self, span: Range<usize>) -> Excerpt<'a> {
        Excerpt { source: self, span }
    }

    /// The bytes of the text that are a key of a table, or a part of its value, or, if the key is missing, those with which
    /// the table begins. None if the text is no TOML document.
    pub fn excerpt_at(
        self,
        alloc: Global,
        sought: SoughtKey<'_>,
    ) -> Result<Option<Excerpt<'a>>, AllocError> {
        match span_at(alloc, self.text, sought)? {
            Some(span) => Ok(Some(self.excerpt(span))),
            None => Ok(None),
        }
    }
}

/// Some bytes of a text. It is shown in four lines, each of which begins with a space: the name with the line and the column, both
/// counted from 1, and the line with the bytes underlined. A column counts characters.
#[derive(Clone, Drop)]
pub struct Excerpt<'a> {
    source: NamedText<'a>,
    span: Range<usize>,
}

impl fmt::Display for Excerpt<'_> {
    /// Writes a space in the place of each character that is none to see.
    fn fmt<W: fmt::Write>(&self, f: &mut fmt::Formatter<W>) -> fmt::Result {
        let NamedText { name, text } = self.source;
        let (above, below) = text.split_at_checked(self.span.start).unwrap_or((text, ""));
        let before = above.rsplit('\n').next().unwrap_or(above);
        let after = below.lines().next().unwrap_or(below);
        let (number, left) = (above.split('\n').count(), before.chars().count());
        let is_long = left.saturating_add(after.chars().count()) > MAX_SHOWN;
        let most = if is_long { SHOWN_BEFORE } else { left };
        let (column, shown) = (left.saturating_add(1), left.min(most));
        let gutter = 2 + number.checked_ilog10().unwrap_or(0) as usize;
        writeln!(f, "{:gutter$}--> {name}:{number}:{column}", "")?;
        write!(f, "{:gutter$} |\n {number} | ", "")?;
        let line = before.chars().chain(after.chars());
        for c in line.skip(left - shown).take(MAX_SHOWN) {
            f.write_char(if c.is_control() { ' ' } else { c })?;
        }
        let marks = self.span.len().max(1);
        write!(f, "\n{0:gutter$} | {0:shown$}{0:^<marks$}", "")
    }
}
