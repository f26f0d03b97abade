//! The reading of a layout.
use crate::derived::{Tree, kept_pairs};
use crate::fault::Topic;
use crate::kinds::{ARCHES, NARROW_ARCHES, place_of};
use crate::layout::{AssumedRights, Layout, Reading, Row};
use crate::objects::Objects;
use crate::scanner::{Scanner, Spot, Token, TokenKind};
use crate::slots::Slots;
use crate::words::Words;
use cap_core::{Kind, ProfileName};
use std::alloc::{AllocError, Global};

/// The sections that are read.
const SECTIONS: [&str; 3] = ["objects", "caps", "cdt"];

/// A text that is read, and what is read of it.
#[derive(Drop)]
struct Reader<'a> {
    words: Words<'a>,
    objects: Objects<'a>,
    slots: Slots<'a>,
    tree: Tree<'a>,
}

impl<'a> Reader<'a> {
    /// Reads a section.
    fn read_section(&mut self) -> Result<(), AllocError> {
        let Token { text, spot, .. } = self.words.advance();
        match text {
            "objects" => return self.objects.read(&mut self.words),
            "caps" => return self.slots.read(&mut self.words),
            "cdt" => return self.tree.read(&mut self.words),
            "irq" => {
                self.words.need("maps");
                return self.objects.hardware.read_maps(&mut self.words);
            }
            "asid" => {
                self.words.need("slots");
                self.words.skip_block();
            }
            _ => {
                self.say_no_section(spot, text);
            }
        }
        Ok(())
    }

    /// Says that there is no such section: of the first one, since the words behind it are none either.
    fn say_no_section(&mut self, spot: Spot, text: &str) {
        if !self.words.has_failed {
            let hint = self.words.faults.hint(text, &SECTIONS);
            self.words.faults.say(
                spot,
                format_args!(
                    "there is no section {text}; there are objects, caps, cdt, irq maps and asid slots{hint}"
                ),
            );
        }
        self.words.has_failed = true;
    }

    /// Reads the profile of the machine that a text names.
    fn read_machine(&mut self) -> Result<Token<'a>, AllocError> {
        self.words.need("arch");
        let arch = self.words.name("the name of a machine");
        match place_of(&ARCHES, arch.text) {
            Some(place) if place < NARROW_ARCHES => self.objects.profile = ProfileName::Narrow,
            Some(_) => self.objects.profile = ProfileName::Wide,
            None if self.words.is_broken => {}
            None => {
                let name = arch.text;
                let hint = self.words.faults.hint(name, &ARCHES);
                let names = ARCHES.join(self.words.alloc, ", ")?;
                self.words.faults.say(
                    arch.spot,
                    format_args!("there is no machine {name}{hint}; the machines are {names}"),
                );
            }
        }
        Ok(arch)
    }

    /// Says which threads have no space.
    fn say_spaceless(&mut self) {
        for (number, object) in self.objects.objects.as_slice().iter().enumerate() {
            if object.kind == Kind::Tcb && !self.slots.places.contains_key(&(number, 0)) {
                let name = object.name.as_str();
                let told = format_args!("{name} has no cspace: it can make no call");
                self.words.notes.say_on(Topic::NoSpace, object.spot, told);
            }
        }
    }

    /// Fills the slots of a text that was read to its end. Answers which are derived from which.
    fn finish(&mut self) -> Result<Vec<Row>, AllocError> {
        if self.words.has_failed {
            return Ok(Vec::new(self.words.alloc));
        }
        self.objects.finish(&mut self.words)?;
        self.slots.add_texts(&mut self.words, &mut self.objects)?;
        for slot in self.slots.texts.as_slice() {
            self.tree.add_beside(*slot)?;
        }
        let rows = self.tree.rows(&mut self.words, &self.objects, &self.slots)?;
        self.objects.say_left_out(&mut self.words);
        self.say_spaceless();
        Ok(rows)
    }
}

/// The layout of a text.
fn layout_of(alloc: Global, text: &str, reading: Reading) -> Result<Layout, AllocError> {
    let mut reader = Reader {
        words: Words::new(alloc, text),
        objects: Objects::new(alloc, reading)?,
        slots: Slots::new(alloc),
        tree: Tree::new(alloc),
    };
    let arch = reader.read_machine()?;
    for _section in 0..reader.words.left() {
        reader.words.is_broken = false;
        if reader.words.token.kind == TokenKind::End {
            break;
        }
        reader.read_section()?;
    }
    let rows = reader.finish()?;
    let derived = kept_pairs(alloc, rows.as_slice())?;
    let Reader {
        words,
        objects,
        slots,
        ..
    } = reader;
    if words.faults.is_refused || words.gaps.is_refused || words.notes.is_refused {
        return Err(AllocError);
    }
    Ok(Layout {
        profile: objects.profile,
        flows: objects.reading.flows,
        objects: objects.objects,
        slots: slots.slots,
        derived,
        rows,
        assumed: if slots.are_rights_assumed {
            AssumedRights::AllRights
        } else {
            AssumedRights::NoRights
        },
        faults: words.faults,
        gaps: words.gaps,
        notes: words.notes,
        spot: arch.spot,
    })
}

/// Reads a layout as capDL text. What is wrong with it is in its faults.
pub fn read_text(alloc: Global, bytes: &[u8], reading: Reading) -> Result<Layout, AllocError> {
    let text = std::str::from_utf8(bytes);
    let mut layout = layout_of(alloc, text.unwrap_or("arch x86_64"), reading)?;
    if text.is_err() {
        let told = "the bytes are no text in UTF-8";
        layout.faults.say(Scanner::new("").spot(0), told);
    }
    if layout.faults.is_refused {
        return Err(AllocError);
    }
    Ok(layout)
}
