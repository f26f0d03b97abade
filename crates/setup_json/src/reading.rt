//! The reading of a text in the form.
use crate::kinds::{PARTS, WORDS};
use crate::names::text_name;
use crate::spots::{count_members, object_spots, spot_at};
use serde_json::Value;
use setup_layout::{Lines, MadeText, Said, Spot, place_of};
use std::alloc::{AllocError, Global};
use std::collections::HashMap;
use std::fmt::Display;

/// The mark with which a text can begin, by which some programs know that it is UTF-8.
const BYTE_ORDER_MARK: char = '\u{feff}';

/// What is told of the machine, which the form does not name.
const NO_MACHINE: &str = "the form names no machine: words of 64 bits are taken";

/// Where a text begins.
const FRONT: Spot = Spot {
    start: 0,
    length: 0,
    line: 1,
};

/// A variant of the form: its word, and what is said of it, if anything is.
#[derive(Clone, Copy)]
pub(crate) struct Variant<'a> {
    pub word: &'a str,
    pub fields: Option<&'a Value>,
}

/// An object of the form.
#[derive(Drop)]
pub(crate) struct Declared {
    /// Its name in capDL text.
    pub name: String,
    /// The place of its kind among the kinds; none of one that is not known.
    pub kind: Option<usize>,
}

/// A text in the form, and what is read of it.
#[derive(Drop)]
pub(crate) struct Reader<'a> {
    pub alloc: Global,
    text: &'a str,
    /// Where each of the objects stands, and what is read now.
    spots: Vec<Spot>,
    pub spot: Spot,
    pub declared: Vec<Declared>,
    /// The names, and the regions of which a capability is in a slot already, by their places.
    names: HashMap<String, bool>,
    pub held: HashMap<usize, bool>,
    /// Which region covers objects, by their places: the region, the first object and the one behind the last.
    pub covers: Vec<(usize, u64, u64)>,
    pub objects: Lines,
    pub caps: Lines,
    pub interrupts: Lines,
    pub said: Said,
}

/// A word of the form in small letters, without `_` and without `handler` at its end.
fn plain_word(alloc: Global, word: &str) -> Result<String, AllocError> {
    let mut plain = String::new(alloc);
    for letter in word.chars() {
        if letter != '_' {
            plain.push(letter.to_ascii_lowercase())?;
        }
    }
    let kept = plain.as_str().strip_suffix("handler").map(str::len);
    plain.truncate(kept.unwrap_or(plain.len()));
    Ok(plain)
}

/// The variant that a value is: a word, or an object whose one member has the word.
pub(crate) fn variant_of(value: &Value) -> Option<Variant<'_>> {
    if let Some(word) = value.as_str() {
        return Some(Variant { word, fields: None });
    }
    let members = value.as_object()?;
    if members.len() != 1 {
        return None;
    }
    let (word, fields) = members.iter().next()?;
    let (word, fields) = (word.as_str(), Some(fields));
    Some(Variant { word, fields })
}

impl Reader<'_> {
    /// Says what is wrong with what is read now.
    pub fn fail(&mut self, words: impl Display + Drop) {
        self.said.faults.say(self.spot, words);
    }

    /// The place of the kind that a word means.
    pub fn kind_of(&mut self, word: &str) -> Result<Option<usize>, AllocError> {
        let plain = plain_word(self.alloc, word)?;
        let kind = place_of(&WORDS, plain.as_str());
        if kind.is_none() {
            self.fail(format_args!("there is no kind of object {word}"));
        }
        Ok(kind)
    }

    /// The number that is said of something, if any is.
    pub fn number(&mut self, fields: &Value, key: &str, of: &str) -> Option<u64> {
        let value = fields.get(key)?;
        if value.is_null() {
            return None;
        }
        let number = value.as_u64();
        if number.is_none() {
            self.fail(format_args!("{key} of {of} is a number of at most 64 bits"));
        }
        number
    }

    /// The number that has to be said of something.
    pub fn needed(&mut self, fields: &Value, key: &str, of: &str) -> u64 {
        let number = self.number(fields, key, of);
        if number.is_none() {
            self.fail(format_args!("{of} needs a number {key}"));
        }
        number.unwrap_or(0)
    }

    /// Says which members of an object are left out: all but those of these names.
    pub fn note_others(&mut self, fields: &Value, known: &str, of: &str) -> Result<(), AllocError> {
        let known: Vec<&str> = known.split_ascii_whitespace().collect(self.alloc)?;
        let Value::Object(members) = fields else {
            self.fail(format_args!("what is said of {of} is no object of JSON"));
            return Ok(());
        };
        for (key, _value) in members.iter() {
            let key = key.as_str();
            if !known.as_slice().contains(&key) {
                let hint = self.said.gaps.hint(key, known.as_slice());
                let told = format_args!("{key} of {of} is left out{hint}");
                self.said.gaps.say(self.spot, told);
            }
        }
        Ok(())
    }

    /// The items of a list, if there is one.
    pub fn list_of<'v>(&mut self, value: Option<&'v Value>, name: &str) -> &'v [Value] {
        match value {
            Some(Value::Array(items)) => return items.as_slice(),
            None | Some(Value::Null) => {}
            Some(_) => self.fail(format_args!("{name} is a list")),
        }
        &[]
    }

    /// Begins to read the object of a number.
    pub fn begin(&mut self, number: usize) {
        self.spot = match self.spots.get(number) {
            Some(spot) => *spot,
            None => FRONT,
        };
    }

    /// The place of the object that is said somewhere.
    pub fn object(&mut self, fields: &Value, key: &str, of: &str) -> Option<usize> {
        let number = self.needed(fields, key, of);
        let count = self.declared.len();
        if number >= count as u64 {
            self.fail(format_args!(
                "{of}: there is no object {number}; there are {count}, from 0 on"
            ));
            return None;
        }
        Some(number as usize)
    }

    /// Says where names are given twice in one object of JSON: then it has more members in the text than what is read of it.
    fn check_members(&mut self, written: &str, read: &Value) -> Result<(), AllocError> {
        let read = read.to_string(self.alloc)?;
        if count_members(written) != count_members(read.as_str()) {
            self.fail("a name is given twice in one object of JSON here");
        }
        Ok(())
    }

    /// The name of an object in capDL text.
    fn name_of(&mut self, number: usize, value: &Value) -> Result<String, AllocError> {
        match value.get("name") {
            Some(Value::String(name)) => text_name(self.alloc, name.as_str()),
            None | Some(Value::Null) => format!(in self.alloc; "object_{number}"),
            Some(_) => {
                self.fail("the name of an object is a string");
                Ok(String::new(self.alloc))
            }
        }
    }

    /// Notes the name and the kind of an object.
    fn declare(&mut self, number: usize, value: &Value) -> Result<(), AllocError> {
        self.begin(number);
        let end = self.spot.start.saturating_add(self.spot.length);
        let written = self.text.get(self.spot.start..end).unwrap_or("");
        self.check_members(written, value)?;
        let name = self.name_of(number, value)?;
        if self.names.insert(name.clone()?, true)?.is_some() {
            let name = name.as_str();
            self.fail(format_args!("{name} is the name of two objects"));
        }
        self.note_others(value, "name object", name.as_str())?;
        let mut kind = None;
        match value.get("object").and_then(variant_of) {
            Some(variant) => kind = self.kind_of(variant.word)?,
            None => {
                let name = name.as_str();
                let told = format_args!("{name} needs an object, which is of one kind");
                self.fail(told);
            }
        }
        self.declared.push(Declared { name, kind })?;
        Ok(())
    }

    /// Reads a text.
    fn read(&mut self, value: &Value) -> Result<(), AllocError> {
        let Some(Value::Array(objects)) = value.get("objects") else {
            self.fail("a text in this form has a list objects");
            return Ok(());
        };
        if self.spots.len() != objects.len() {
            self.spots.clear();
        }
        for (number, object) in objects.as_slice().iter().enumerate() {
            self.declare(number, object)?;
        }
        self.spot = FRONT;
        if !self.said.has_faults() {
            self.check_members(self.text, value)?;
        }
        self.note_others(value, PARTS, "the text")?;
        self.said.notes.say(FRONT, NO_MACHINE);
        self.read_covers(value.get("untyped_covers"))?;
        for (number, object) in objects.as_slice().iter().enumerate() {
            self.add_object(number, object)?;
        }
        self.spot = FRONT;
        self.read_interrupts(value.get("irqs"))
    }

    /// The text of what was read; that of nothing, where it has faults.
    fn finish(self) -> Result<MadeText, AllocError> {
        let mut lines = Lines::new(self.alloc);
        lines.put(FRONT, "arch x86_64")?;
        if !self.said.has_faults() {
            lines.put(FRONT, "objects {")?;
            lines.append(&self.objects)?;
            lines.put(FRONT, "}\ncaps {")?;
            lines.append(&self.caps)?;
            lines.put(FRONT, "}\nirq maps {")?;
            lines.append(&self.interrupts)?;
            lines.put(FRONT, "}")?;
        }
        let said = self.said;
        Ok(MadeText { lines, said })
    }
}

/// The capDL text of a text in the form, and what is said of that.
pub fn json_text(alloc: Global, text: &str) -> Result<MadeText, AllocError> {
    let mut reader = Reader {
        alloc,
        text,
        spots: object_spots(alloc, text)?,
        spot: FRONT,
        declared: Vec::new(alloc),
        names: HashMap::new(alloc),
        held: HashMap::new(alloc),
        covers: Vec::new(alloc),
        objects: Lines::new(alloc),
        caps: Lines::new(alloc),
        interrupts: Lines::new(alloc),
        said: Said::new(alloc),
    };
    let inside = text.strip_prefix(BYTE_ORDER_MARK).unwrap_or(text);
    match Value::from_str(alloc, inside) {
        Ok(value) => reader.read(&value)?,
        Err(error) if error.is_memory() => return Err(AllocError),
        Err(error) => {
            let mut spot = spot_at(inside, error.line(), error.column());
            spot.start = spot
                .start
                .saturating_add(text.len().saturating_sub(inside.len()));
            reader
                .said
                .faults
                .say(spot, format_args!("this is no JSON: {error}"));
        }
    }
    reader.finish()
}
