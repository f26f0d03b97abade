//! What is said of a layout: its faults, and what a set-up leaves out of it.
use crate::scanner::Spot;
use std::alloc::{AllocError, Global};
use std::fmt::{self, Display, Write};
use strsim::osa_distance;

/// The most faults, and the most notes, that are told.
const MOST_TOLD: usize = 20;

/// The most edits that lead from a name to one that looks like it.
const MAX_EDITS: usize = 2;

/// The most bytes of a name for which one is looked for that looks like it.
const MAX_LENGTH: usize = 60;

/// What remarks are about, of which the first one is told, and counts the others.
#[derive(Clone, Copy, PartialEq, Eq)]
pub enum Topic {
    /// A thread has no space.
    NoSpace,
    /// A capability has `G`.
    HandsOver,
    /// An untyped region is cut.
    Cut,
    /// An object that is left out lies in an untyped region.
    Covered,
    /// A parameter of what is left out is not known.
    Parameter,
}

/// What is said of a part of the text.
#[derive(Drop)]
pub struct Remark {
    pub spot: Spot,
    /// The words.
    pub words: String,
    /// What it is about, where it stands for all remarks on that.
    topic: Option<Topic>,
    /// For how many others it stands.
    others: usize,
}

impl Display for Remark {
    fn fmt<W: Write>(&self, f: &mut fmt::Formatter<W>) -> fmt::Result {
        f.write_str(self.words.as_str())?;
        match self.others {
            0 => Ok(()),
            others => write!(f, "; and {others} more such"),
        }
    }
}

/// What is said of the parts of a text, in the order in which it was found: so many remarks at the most, and how many more.
#[derive(Drop)]
pub struct Remarks {
    alloc: Global,
    pub told: Vec<Remark>,
    pub more: usize,
    /// Whether memory for a remark was refused: then it is missing.
    pub is_refused: bool,
}

impl Remarks {
    /// Nothing is said.
    pub fn new(alloc: Global) -> Remarks {
        Remarks {
            alloc,
            told: Vec::new(alloc),
            more: 0,
            is_refused: false,
        }
    }

    /// Whether no more is told, but counted.
    pub fn is_full(&self) -> bool {
        self.told.len() >= MOST_TOLD
    }

    /// Says something of a part of the text.
    pub fn say(&mut self, spot: Spot, words: impl Display + Drop) {
        self.add(spot, None, 0, words);
    }

    /// Says something on a topic; where something is said on it already, that counts this one.
    pub fn say_on(&mut self, topic: Topic, spot: Spot, words: impl Display + Drop) {
        for remark in self.told.iter_mut() {
            if remark.topic == Some(topic) {
                remark.others = remark.others.saturating_add(1);
                return;
            }
        }
        self.add(spot, Some(topic), 0, words);
    }

    /// Counts remarks that are not told.
    pub fn count(&mut self, more: usize) {
        self.more = self.more.saturating_add(more);
    }

    /// Says the same as another remark, of a part of this text.
    pub fn say_again(&mut self, spot: Spot, remark: &Remark) {
        self.add(spot, remark.topic, remark.others, remark.words.as_str());
    }

    /// Adds a remark.
    fn add(&mut self, spot: Spot, topic: Option<Topic>, others: usize, words: impl Display + Drop) {
        if self.is_full() {
            self.more = self.more.saturating_add(1);
            return;
        }
        let Ok(words) = words.to_string(self.alloc) else {
            self.is_refused = true;
            return;
        };
        let remark = Remark {
            spot,
            words,
            topic,
            others,
        };
        self.is_refused |= self.told.push(remark).is_err();
    }

    /// The question whether the one of these names was meant that looks most like what was found; nothing where none does.
    pub fn hint(&mut self, found: &str, names: &[&str]) -> String {
        let (mut nearest, mut fewest) = (None, MAX_EDITS + 1);
        if self.is_full() || found.len() > MAX_LENGTH {
            return String::new(self.alloc);
        }
        for name in names {
            if name.len().abs_diff(found.len()) <= MAX_EDITS {
                match osa_distance(self.alloc, found, *name) {
                    Ok(edits) if edits < fewest => (nearest, fewest) = (Some(*name), edits),
                    Ok(_) => {}
                    Err(_) => self.is_refused = true,
                }
            }
        }
        let hint = match nearest {
            Some(name) => format!(in self.alloc; "; did you mean {name}?"),
            None => Ok(String::new(self.alloc)),
        };
        self.is_refused |= hint.is_err();
        hint.unwrap_or(String::new(self.alloc))
    }
}
