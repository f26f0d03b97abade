//! The faults of a policy, as they are found, and what is told of them.
ghost use Rattle.std.specs.Prelude.{◌≡◌, IfSome, Ok};

use crate::fault::{Fault, Spot, line_and_column};
use crate::values::Bad;
use std::alloc::{AllocError, AllocFailed, Global};

/// The most faults that are told.
const MOST: usize = 20;

/// A fault as standard error tells it: the line and the column, both from 1, and the words.
#[derive(Drop)]
pub struct Note {
    pub line: usize,
    pub column: usize,
    pub words: String,
}

/// Why a policy is refused.
#[derive(Drop)]
pub enum Refusal {
    /// Memory was refused.
    Memory,
    /// The policy is at fault.
    At {
        /// The fault that was found first, of which the line on standard output tells, and its place.
        fault: Fault,
        place: String,
        /// The faults of which standard error tells, in the order of the text: those that were found first.
        notes: Vec<Note>,
        /// How many more there are.
        more: usize,
    },
}

impl<T: Drop> From<AllocFailed<T>> for Refusal {
    fn from(_refused: AllocFailed<T>) -> Refusal {
        Refusal::Memory
    }
}

impl From<AllocError> for Refusal {
    fn from(_refused: AllocError) -> Refusal {
        Refusal::Memory
    }
}

impl Refusal {
    /// A fault at a spot of a text, with these words.
    pub fn new(alloc: Global, text: &str, fault: Fault, spot: Spot<'_>, words: String) -> Refusal {
        Refusal::at(alloc, text, fault, spot, spot, words)
    }

    /// A fault at a spot of a text, with these words, and another spot at which it is shown.
    pub fn at(
        alloc: Global,
        text: &str,
        fault: Fault,
        spot: Spot<'_>,
        shown: Spot<'_>,
        words: String,
    ) -> Refusal {
        let mut faults = Faults::new(alloc, text);
        faults.add(fault, spot, shown, words);
        faults.refusal()
    }
}

/// The faults of a policy that were found so far.
#[derive(Drop)]
pub struct Faults<'a> {
    pub alloc: Global,
    pub text: &'a str,
    /// The first that was found, and its place.
    first: Option<(Fault, String)>,
    /// Those that are told, in the order of the text.
    notes: Vec<Note>,
    more: usize,
    /// Whether memory was refused: then nothing is told of them.
    is_refused: bool,
}

impl<'a> Faults<'a> {
    /// None of a policy's text.
    pub fn new(alloc: Global, text: &'a str) -> Faults<'a> {
        Faults {
            alloc,
            text,
            first: None,
            notes: Vec::new(alloc),
            more: 0,
            is_refused: false,
        }
    }

    /// Tells of a fault behind those that stand above it in the text.
    fn tell(
        &mut self,
        fault: Fault,
        spot: Spot<'_>,
        shown: Spot<'_>,
        words: String,
    ) -> Result<(), AllocError> {
        let (line, column) = line_and_column(self.alloc, self.text, shown)?;
        if self.first.is_none() {
            self.first = Some((fault, format!(in self.alloc; "{spot}")?));
        }
        let mut place = 0usize;
        for note in self.notes.as_slice() {
            if (note.line, note.column) > (line, column) {
                break;
            }
            place += 1;
        }
        self.notes.insert(
            place,
            Note {
                line,
                column,
                words,
            },
        )?;
        Ok(())
    }

    /// Adds a fault at a spot of the text, with these words, and the spot at which it is shown.
    pub fn add(&mut self, fault: Fault, spot: Spot<'_>, shown: Spot<'_>, words: String) {
        if self.notes.len() == MOST {
            self.more = self.more.saturating_add(1);
        } else {
            let told = self.tell(fault, spot, shown, words);
            self.is_refused |= told.is_err();
        }
    }

    /// What was read; none where that is a fault, which is added at this spot.
    pub fn taken<T>(&mut self, spot: Spot<'_>, read: Result<T, Bad>) -> Option<T>
        ensures { IfSome result (λ x. read ≡ Ok x) }
    {
        match read {
            Ok(value) => Some(value),
            Err(Bad::Memory) => {
                self.is_refused = true;
                None
            }
            Err(Bad::Wrong(fault, words)) => {
                self.add(fault, spot, spot, words);
                None
            }
        }
    }

    /// What was made; none where memory was refused, which is kept in mind.
    pub fn kept<T, E: Drop>(&mut self, made: Result<T, E>) -> Option<T>
        ensures { IfSome result (λ x. made ≡ Ok x) }
    {
        self.is_refused |= made.is_err();
        made.ok()
    }

    /// Why the policy is refused, which has a fault.
    pub fn refusal(self) -> Refusal {
        let Faults {
            first,
            notes,
            more,
            is_refused,
            ..
        } = self;
        match first {
            Some((fault, place)) if !is_refused => Refusal::At {
                fault,
                place,
                notes,
                more,
            },
            _ => Refusal::Memory,
        }
    }
}
