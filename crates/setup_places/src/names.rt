//! The names of a layout's objects in a set-up. An object has its own name there where that can stand in a set-up; any other name has a
//! tail that is made of the whole own name, so that it means this object whatever else the layout declares.
use cap_core::Kind;
use setup_layout::{Layout, Object, Remarks};
use setup_marks::IMPORT_FLOWS;
use std::alloc::{AllocError, Global};
use std::collections::HashMap;

/// The name of the thread that makes the calls.
pub const LOADER: &str = "loader";

/// The names that no object of a layout has.
const RESERVED: [&str; 2] = [LOADER, IMPORT_FLOWS];

/// The most letters of a name.
const MOST_LETTERS: usize = 36;

/// How many letters of an object's own name stand before a tail.
const LETTERS_BEFORE_TAIL: usize = 27;

/// The name of an object in a set-up.
#[derive(Drop)]
pub struct SetupName {
    pub text: String,
    /// Whether it is the object's own name, and has no tail.
    pub is_own: bool,
}

/// The names of a layout's objects in a set-up, by the places of the objects.
#[derive(Drop)]
pub struct SetupNames {
    /// None of a region of untyped memory at whose address another object stands.
    pub list: Vec<Option<SetupName>>,
    /// Which of them have a tail.
    pub notes: Remarks,
}

impl SetupNames {
    /// No names.
    pub(crate) fn none(alloc: Global) -> SetupNames {
        SetupNames {
            list: Vec::new(alloc),
            notes: Remarks::new(alloc),
        }
    }
}

/// Whether this is a name that a set-up can have.
fn is_plain(name: &str) -> bool {
    for letter in name.bytes() {
        if !matches!(letter, b'a'..=b'z' | b'0'..=b'9' | b'_') {
            return false;
        }
    }
    !name.is_empty() && name.len() <= MOST_LETTERS
}

/// A letter that a name of a set-up can have.
fn plain_letter(letter: char) -> char {
    if letter.is_ascii_alphanumeric() {
        letter.to_ascii_lowercase()
    } else {
        '_'
    }
}

/// A number that is made of each byte of a name, in their order (FNV-1a).
fn hash_of(name: &str) -> u32 {
    let mut hash = 0x811c_9dc5u32;
    for byte in name.bytes() {
        hash = (hash ^ u32::from(byte)).wrapping_mul(0x0100_0193);
    }
    hash
}

/// The first letters of a name, with `_` in the place of each that a set-up cannot have and nothing in that of the last bracket, and
/// a tail.
fn with_tail(alloc: Global, name: &str) -> Result<String, AllocError> {
    let mut letters = String::new(alloc);
    for letter in name.chars() {
        if letter != ']' && letters.len() < LETTERS_BEFORE_TAIL {
            letters.push(plain_letter(letter))?;
        }
    }
    let hash = hash_of(name);
    format!(in alloc; "{letters}_{hash:08x}")
}

/// The names that were given.
#[derive(Drop)]
struct Names<'a> {
    alloc: Global,
    objects: &'a [Object],
    /// How many of the objects the layout declares. The others are those that stand beside them for their slots or their answers.
    declared: usize,
    /// The object that has a name, by its place.
    taken: HashMap<String, usize>,
    list: Vec<Option<SetupName>>,
}

impl<'a> Names<'a> {
    /// Gives an object its own name, where a set-up can have it and no other object has it. That of an object beside a declared one
    /// has `_` in place of its point.
    fn give_own(&mut self, number: usize, object: &Object) -> Result<(), AllocError> {
        let (name, mut own) = (object.name.as_str(), String::new(self.alloc));
        match name.rsplit_once('.') {
            Some((declared, what)) if number >= self.declared => {
                own.push_str(declared)?;
                own.push('_')?;
                own.push_str(what)?;
            }
            _ => own.push_str(name)?,
        }
        let is_free = !RESERVED.contains(&own.as_str()) && !self.taken.contains_key(own.as_str());
        if is_free && is_plain(own.as_str()) {
            self.give(number, own, true)?;
        }
        Ok(())
    }

    /// Gives an object a name.
    fn give(&mut self, number: usize, text: String, is_own: bool) -> Result<(), AllocError> {
        self.taken.insert(text.clone()?, number)?;
        if let Some(entry) = self.list.get_mut(number) {
            *entry = Some(SetupName { text, is_own });
        }
        Ok(())
    }

    /// Gives own names to the objects from one place up to another, where they have a name in the set-up.
    fn give_all_own(
        &mut self,
        first: usize,
        end: usize,
        are_named: &[bool],
    ) -> Result<(), AllocError> {
        for number in first..end {
            if let (Some(object), Some(true)) = (
                self.objects.get(number),
                are_named.get(number).copied(),
            ) {
                self.give_own(number, object)?;
            }
        }
        Ok(())
    }

    /// Gives names with tails to the objects that have none yet, and tells them. Two of which these are alike are a fault.
    fn give_tails(
        &mut self,
        are_named: &[bool],
        faults: &mut Remarks,
        notes: &mut Remarks,
    ) -> Result<(), AllocError> {
        for (number, object) in self.objects.iter().enumerate() {
            let has_own = matches!(self.list.get(number), Some(Some(_)));
            if has_own || are_named.get(number).copied() != Some(true) {
                continue;
            }
            let name = object.name.as_str();
            let text = with_tail(self.alloc, name)?;
            match self.taken.get(text.as_str()).copied() {
                Some(other) => say_alike(faults, self.objects, object, other),
                None => {
                    say_tail(notes, object, text.as_str());
                    self.give(number, text, false)?;
                }
            }
        }
        Ok(())
    }
}

/// Says that an object has a name with a tail, and why where its own is the importer's.
fn say_tail(notes: &mut Remarks, object: &Object, text: &str) {
    let name = object.name.as_str();
    if is_plain(name) {
        let told = format_args!(
            "{name} is a name of the importer: this object is {text} in the set-up"
        );
        notes.say(object.spot, told);
    } else {
        let told = format_args!("{name} is {text} in the set-up");
        notes.say(object.spot, told);
    }
}

/// Says that two objects would have one name in a set-up.
fn say_alike(faults: &mut Remarks, objects: &[Object], object: &Object, other: usize) {
    let other = match objects.get(other) {
        Some(other) => other.name.as_str(),
        None => "another object",
    };
    let name = object.name.as_str();
    let told = format_args!("{name} and {other} have one name in a set-up; change one of the two");
    faults.say(object.spot, told);
}

/// Which objects have a name in a set-up: all but a region of untyped memory at whose address another object stands.
fn named_objects(alloc: Global, objects: &[Object]) -> Result<Vec<bool>, AllocError> {
    let mut counts = HashMap::new(alloc);
    for object in objects {
        let before = counts.get(&object.place).copied().unwrap_or(0u64);
        counts.insert(object.place, before.saturating_add(1))?;
    }
    let mut named = Vec::new(alloc);
    for object in objects {
        let is_alone = counts.get(&object.place).copied() == Some(1);
        named.push(object.kind != Kind::Untyped || is_alone)?;
    }
    Ok(named)
}

/// The names of a layout's objects, which have their places. So many of them are declared; the others are those that stand beside
/// these. Objects whose names cannot be told apart are a fault of the layout.
pub fn names_of(
    alloc: Global,
    layout: &mut Layout,
    declared: usize,
) -> Result<SetupNames, AllocError> {
    let mut list = Vec::new(alloc);
    for _object in layout.objects.as_slice() {
        list.push(None)?;
    }
    let named = named_objects(alloc, layout.objects.as_slice())?;
    let mut names = Names {
        alloc,
        objects: layout.objects.as_slice(),
        declared,
        taken: HashMap::new(alloc),
        list,
    };
    let (are_named, end) = (named.as_slice(), names.objects.len());
    let mut notes = Remarks::new(alloc);
    names.give_all_own(declared, end, are_named)?;
    names.give_all_own(0, declared, are_named)?;
    names.give_tails(are_named, &mut layout.faults, &mut notes)?;
    let list = names.list;
    Ok(SetupNames { list, notes })
}
