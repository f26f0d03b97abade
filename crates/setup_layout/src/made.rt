//! capDL texts that are made of a file in another language, and the reading of such.
use crate::fault::Remarks;
use crate::layout::{Layout, Reading};
use crate::reading::read_text;
use crate::scanner::{Scanner, Spot};
use std::alloc::{AllocError, Global};
use std::fmt::{Display, Write};

/// Lines, and for each of them the part of the file of which it was made.
#[derive(Drop)]
pub struct Lines {
    pub text: String,
    pub spots: Vec<Spot>,
}

impl Lines {
    /// No line.
    pub fn new(alloc: Global) -> Lines {
        Lines {
            text: String::new(alloc),
            spots: Vec::new(alloc),
        }
    }

    /// Adds lines that are made of one part of the file.
    pub fn put(&mut self, spot: Spot, words: impl Display + Drop) -> Result<(), AllocError> {
        let length = self.text.len();
        writeln!(&mut self.text, "{words}")?;
        let added = self.text.as_str().get(length..).unwrap_or("");
        for _line in added.lines() {
            self.spots.push(spot)?;
        }
        Ok(())
    }

    /// Adds the line of a memory region that is mapped, with the letters of its rights, where each line before is one of such.
    pub fn put_map(&mut self, region: &str, letters: &str, spot: Spot) -> Result<(), AllocError> {
        let number = self.spots.len();
        self.put(spot, format_args!("{number}: {region} ({letters})"))
    }

    /// Adds other lines.
    pub fn append(&mut self, others: &Lines) -> Result<(), AllocError> {
        self.text.push_str(others.text.as_str())?;
        self.spots.extend_from_slice(others.spots.as_slice())
    }

    /// The part of the file of which a line was made.
    fn source_of(&self, line: usize) -> Spot {
        let spots = self.spots.as_slice();
        match spots.get(line.saturating_sub(1)).or(spots.first()) {
            Some(spot) => *spot,
            None => Scanner::new("").spot(0),
        }
    }

    /// Says of the file what is said of these lines.
    fn move_remarks(&self, from: &Remarks, to: &mut Remarks) {
        for remark in from.told.as_slice() {
            to.say_again(self.source_of(remark.spot.line), remark);
        }
        to.more = to.more.saturating_add(from.more);
        to.is_refused |= from.is_refused;
    }

    /// Has the objects and the slots of a layout stand in the file.
    fn move_layout(&self, layout: &mut Layout) {
        for object in layout.objects.iter_mut() {
            object.spot = self.source_of(object.spot.line);
        }
        for slot in layout.slots.iter_mut() {
            slot.line = self.source_of(slot.line).line;
        }
        layout.spot = self.source_of(layout.spot.line);
    }
}

/// What is said of a file of which a text is made.
#[derive(Drop)]
pub struct Said {
    pub faults: Remarks,
    /// What may carry authority, and is left out or assumed.
    pub gaps: Remarks,
    pub notes: Remarks,
}

impl Said {
    /// Nothing is said.
    pub fn new(alloc: Global) -> Said {
        Said {
            faults: Remarks::new(alloc),
            gaps: Remarks::new(alloc),
            notes: Remarks::new(alloc),
        }
    }

    /// Whether the file has a fault.
    pub fn has_faults(&self) -> bool {
        !self.faults.told.is_empty()
    }
}

/// The text that is made of a file, and what is said of the file.
#[derive(Drop)]
pub struct MadeText {
    pub lines: Lines,
    pub said: Said,
}

impl MadeText {
    /// Reads the layout. What is said of the lines is said of the parts of the file of which they were made.
    pub fn read(self, alloc: Global, reading: Reading) -> Result<Layout, AllocError> {
        let MadeText { lines, said } = self;
        let Said {
            mut faults,
            mut gaps,
            mut notes,
        } = said;
        let mut layout = read_text(alloc, lines.text.as_bytes(), reading)?;
        lines.move_remarks(&layout.faults, &mut faults);
        lines.move_remarks(&layout.gaps, &mut gaps);
        lines.move_remarks(&layout.notes, &mut notes);
        lines.move_layout(&mut layout);
        if faults.is_refused || gaps.is_refused || notes.is_refused {
            return Err(AllocError);
        }
        layout.faults = faults;
        layout.gaps = gaps;
        layout.notes = notes;
        Ok(layout)
    }
}
