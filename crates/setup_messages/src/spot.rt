//! Where in a document something is at fault.
use crate::document::Document;
use cap_core::limits::MAX_MESSAGE_WORDS;
use setup_format::Place;
use setup_positions::Part;
use std::fmt;
use toml::Value;

/// A key of a table of a document, or an element of the array there, 1 the first, and the value; none if the key is missing.
#[derive(Clone, Copy)]
pub struct Spot<'a> {
    pub document: Document<'a>,
    pub place: Place,
    pub key: &'a str,
    pub element: Option<usize>,
    pub value: Option<&'a Value>,
}

impl<'a> Spot<'a> {
    /// A key of the table at a place; of the words of a call the first that is none.
    pub fn at(document: Document<'a>, place: Place, key: &'a str) -> Spot<'a> {
        let value = document.value_at(place, key);
        let mut spot = Spot {
            document,
            place,
            key,
            element: None,
            value,
        };
        if let (Place::Call(_), "words", Some(Value::Array(words))) = (place, key, value) {
            spot.find_element(words.as_slice());
        }
        spot
    }

    /// Goes to the first of some words that is none; not if there are more than a message has.
    fn find_element(&mut self, words: &'a [Value]) {
        if words.len() > MAX_MESSAGE_WORDS {
            return;
        }
        for (i, word) in words.iter().enumerate() {
            if !self.document.is_word(word) {
                self.element = Some(i.saturating_add(1));
                self.value = Some(word);
                return;
            }
        }
    }

    /// The part of the text that is at fault: a name, if the value is one, and else the key.
    pub fn part(&self) -> Part {
        let Some(Value::String(text)) = self.value else {
            return Part::Key;
        };
        match self.element {
            _ if !text.as_str().starts_with('@') => Part::Key,
            Some(n) => Part::Element(n),
            None => Part::Value,
        }
    }
}

impl fmt::Display for Spot<'_> {
    fn fmt<W: fmt::Write>(&self, f: &mut fmt::Formatter<W>) -> fmt::Result {
        let (place, key) = (self.place, self.key);
        match self.element {
            Some(n) => write!(f, "{place}, key {key}, element {n}"),
            None => write!(f, "{place}, key {key}"),
        }
    }
}
