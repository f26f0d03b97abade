//! What is wrong with a policy, and where.
ghost use Rattle.std.specs.Prelude.{◌≤◌};

use setup_positions::{Part, span_in};
use std::alloc::{AllocError, Global};
use std::fmt;

/// Why a policy is refused.
#[derive(Clone, Copy)]
pub enum Fault {
    /// The text is no TOML document.
    Text,
    /// A key that there is not.
    Unknown,
    /// A key is missing.
    Missing,
    /// A value of another type.
    Type,
    /// A value that is not allowed.
    Value,
    /// A name, a group, a thread, an endpoint or a region that there is not.
    NoSuch,
    /// What stands already.
    Twice,
    /// A live thread in no group.
    Nowhere,
}

impl Fault {
    /// Its number.
    pub fn code(self) -> u32
        ensures { (600 ≤ result) × (result ≤ 607) }
    {
        match self {
            Fault::Text => 600,
            Fault::Unknown => 601,
            Fault::Missing => 602,
            Fault::Type => 603,
            Fault::Value => 604,
            Fault::NoSuch => 605,
            Fault::Twice => 606,
            Fault::Nowhere => 607,
        }
    }
}

/// A table of a policy, or an element of `alone`; each counts from 1.
#[derive(Clone, Copy)]
pub enum Place {
    Top,
    Alone(usize),
    Group(usize),
    Way(usize),
    Use(usize),
    Take(usize),
}

impl fmt::Display for Place {
    fn fmt<W: fmt::Write>(&self, f: &mut fmt::Formatter<W>) -> fmt::Result {
        match self {
            Place::Top => write!(f, "top"),
            Place::Alone(n) => write!(f, "alone {n}"),
            Place::Group(n) => write!(f, "group {n}"),
            Place::Way(n) => write!(f, "way {n}"),
            Place::Use(n) => write!(f, "use {n}"),
            Place::Take(n) => write!(f, "take {n}"),
        }
    }
}

/// Where in a policy something is at fault.
#[derive(Clone, Copy)]
pub enum Spot<'a> {
    /// In the text, at this byte.
    Text(usize),
    /// At a key of a table.
    Key(Place, &'a str),
    /// At an element of the list at a key of a table, 1 the first.
    Element(Place, &'a str, usize),
    /// Among the threads of the state.
    Threads,
}

impl fmt::Display for Spot<'_> {
    fn fmt<W: fmt::Write>(&self, f: &mut fmt::Formatter<W>) -> fmt::Result {
        match self {
            Spot::Text(_) => write!(f, "text"),
            Spot::Threads => write!(f, "threads"),
            Spot::Key(place, key) => write!(f, "{place} key {key}"),
            Spot::Element(place, key, _) => write!(f, "{place} key {key}"),
        }
    }
}

/// The line and the column of a byte of a text, both from 1. A column counts characters.
fn place_of(text: &str, at: usize) -> (usize, usize) {
    let above = match text.split_at_checked(at) {
        Some((above, _)) => above,
        None => text,
    };
    let before = above.rsplit('\n').next().unwrap_or(above);
    (
        above.split('\n').count(),
        before.chars().count().saturating_add(1),
    )
}

/// The line and the column of a spot of a policy, both from 1: those of the key or the element, or of the table where the key is
/// missing.
///
/// # Errors
/// Where memory was refused.
pub fn line_and_column(
    alloc: Global,
    text: &str,
    spot: Spot<'_>,
) -> Result<(usize, usize), AllocError> {
    let (place, key, part) = match spot {
        Spot::Text(at) => return Ok(place_of(text, at)),
        Spot::Threads => return Ok((1, 1)),
        Spot::Key(place, key) => (place, key, Part::Key),
        Spot::Element(place, key, n) => (place, key, Part::Element(n)),
    };
    let (array, key) = match place {
        Place::Top => (None, key),
        Place::Alone(_) => (None, "alone"),
        Place::Group(n) => (Some(("group", n)), key),
        Place::Way(n) => (Some(("way", n)), key),
        Place::Use(n) => (Some(("use", n)), key),
        Place::Take(n) => (Some(("take", n)), key),
    };
    match span_in(alloc, text, array, key, part)? {
        Some(span) => Ok(place_of(text, span.start)),
        None => Ok((1, 1)),
    }
}
