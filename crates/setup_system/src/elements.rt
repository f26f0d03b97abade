//! The elements of a text that is XML, as far as `.system` files use it.
use setup_layout::{Remarks, Scanner, Spot, front_length};
use std::alloc::{AllocError, Global};
use std::fmt::Display;

/// The most elements that stand in one another.
const MOST_OPEN: usize = 16;

/// The most attributes of an element.
const MOST_ATTRIBUTES: usize = 32;

/// An attribute of an element.
#[derive(Clone, Copy)]
pub struct Attribute<'a> {
    pub name: &'a str,
    pub value: &'a str,
    pub spot: Spot,
}

/// An element.
#[derive(Drop)]
pub struct Element<'a> {
    pub name: &'a str,
    /// Where its name stands.
    pub spot: Spot,
    /// The element in which it stands, by its place among the elements.
    pub outer: Option<usize>,
    pub attributes: Vec<Attribute<'a>>,
}

/// The value of an attribute among others.
fn value_in<'a>(attributes: &[Attribute<'a>], name: &str) -> Option<&'a str> {
    for attribute in attributes {
        if attribute.name == name {
            return Some(attribute.value);
        }
    }
    None
}

impl<'a> Element<'a> {
    /// The value of an attribute.
    pub fn value(&self, name: &str) -> Option<&'a str> {
        value_in(self.attributes.as_slice(), name)
    }
}

/// A text that is read. Behind a fault reading goes on at the next element.
#[derive(Drop)]
pub struct Elements<'a> {
    alloc: Global,
    scanner: Scanner<'a>,
    /// Whether no more is read of the part that begins with the last `<`.
    is_broken: bool,
    /// The elements that are not closed yet, by their places among the elements.
    open: Vec<usize>,
    /// In the order of the text.
    pub list: Vec<Element<'a>>,
    pub faults: Remarks,
}

impl<'a> Elements<'a> {
    /// Says what is wrong with a part of the text, of which no more is read.
    fn fail(&mut self, spot: Spot, words: impl Display + Drop) {
        if !self.is_broken {
            self.faults.say(spot, words);
        }
        self.is_broken = true;
    }

    /// Reads a mark, where it is next behind blanks.
    fn has(&mut self, mark: &str) -> bool {
        let (rest, inside) = (self.scanner.rest, self.scanner.rest.trim_ascii_start());
        self.scanner.take(rest.len().saturating_sub(inside.len()));
        let has = !self.is_broken && inside.starts_with(mark);
        if has {
            self.scanner.take(mark.len());
        }
        has
    }

    /// Reads a mark that is needed.
    fn need(&mut self, mark: &str) {
        if !self.has(mark) {
            let spot = self.scanner.spot(0);
            self.fail(spot, format_args!("{mark} is needed here"));
        }
    }

    /// Reads a name.
    fn name(&mut self) -> (&'a str, Spot) {
        let length = front_length(self.scanner.rest, b"_-.:");
        let spot = self.scanner.spot(length);
        if length == 0 {
            self.fail(
                spot,
                "the name of an element or of an attribute is needed here; is a > missing?",
            );
        }
        (self.scanner.take(length), spot)
    }

    /// Reads a value in quotes.
    fn value(&mut self) -> &'a str {
        let mut quote = "'";
        if !self.has(quote) {
            quote = "\"";
            self.need(quote);
        }
        let mut spot = self.scanner.spot(0);
        if self.is_broken {
            return "";
        }
        let Some(length) = self.scanner.rest.find(quote) else {
            self.fail(
                spot,
                format_args!("this value has no end; write {quote} behind it"),
            );
            return "";
        };
        spot.length = length;
        let value = self.scanner.take(length);
        self.scanner.take(1);
        if value.contains('<') || value.contains('&') && !value.contains(';') {
            self.fail(
                spot,
                "a value has no < and no & by itself: is its closing quote missing? A sign has a name, as &amp;",
            );
        }
        value
    }

    /// Reads an attribute.
    fn attribute(&mut self, attributes: &mut Vec<Attribute<'a>>) -> Result<(), AllocError> {
        let (name, spot) = self.name();
        self.need("=");
        let value = self.value();
        if value_in(attributes.as_slice(), name).is_some() {
            self.fail(spot, format_args!("{name} is given twice"));
        }
        attributes.push(Attribute { name, value, spot })?;
        Ok(())
    }

    /// Adds an element, which may be open.
    fn add(&mut self, element: Element<'a>, is_open: bool) -> Result<(), AllocError> {
        let spot = element.spot;
        if element.outer.is_none() && !self.list.is_empty() {
            self.fail(
                spot,
                "a file has one outermost element, and this is another one",
            );
        }
        if is_open {
            self.open.push(self.list.len())?;
        }
        if self.open.len() > MOST_OPEN {
            let told = format_args!("more than {MOST_OPEN} elements stand in one another here");
            self.fail(spot, told);
        }
        self.list.push(element)?;
        Ok(())
    }

    /// Reads an element up to the end of its attributes.
    fn element(&mut self) -> Result<(), AllocError> {
        self.scanner.take(1);
        let (name, spot) = self.name();
        let mut element = Element {
            name,
            spot,
            outer: self.open.last().copied(),
            attributes: Vec::new(self.alloc),
        };
        for _attribute in 0..=MOST_ATTRIBUTES {
            if self.has("/>") {
                return self.add(element, false);
            }
            if self.has(">") {
                return self.add(element, true);
            }
            if self.is_broken {
                break;
            }
            self.attribute(&mut element.attributes)?;
        }
        self.fail(
            spot,
            format_args!("an element has {MOST_ATTRIBUTES} attributes at most"),
        );
        let is_open = self.is_left_open();
        self.add(element, is_open)
    }

    /// Whether an element that is broken seems to stand open: up to the next one no end of it is there.
    fn is_left_open(&self) -> bool {
        let rest = self.scanner.rest;
        let (left, _) = rest.split_once('<').unwrap_or((rest, ""));
        !left.trim_ascii_end().ends_with("/>")
    }

    /// Reads the end of an element.
    fn close(&mut self) {
        self.scanner.take(2);
        let (name, spot) = self.name();
        self.need(">");
        let Some(element) = self.list.get(self.open.pop().unwrap_or(self.list.len())) else {
            self.fail(spot, "no element is open here");
            return;
        };
        let (opened, line) = (element.name, element.spot.line);
        if opened != name {
            let told = format_args!("the open element is {opened}, of line {line}, and not {name}");
            self.fail(spot, told);
            self.close_up_to(name);
        }
    }

    /// Closes the open elements up to one of this name, if there is one: those in it have lost their ends.
    fn close_up_to(&mut self, name: &str) {
        let mut depth = self.open.len();
        for (place, number) in self.open.iter().enumerate() {
            if let Some(element) = self.list.get(*number) {
                if element.name == name {
                    depth = place;
                }
            }
        }
        self.open.truncate(depth);
    }

    /// Passes over a part of the text up to its end.
    fn pass(&mut self, front: usize, end: &str) {
        let spot = self.scanner.spot(front);
        self.scanner.take(front);
        match self.scanner.rest.find(end) {
            Some(length) => {
                self.scanner.take(length.saturating_add(end.len()));
            }
            None => {
                self.fail(spot, format_args!("this has no end; write {end} behind it"));
                self.scanner.rest = "";
            }
        }
    }

    /// Reads a part of the text that begins with a mark.
    fn part(&mut self) -> Result<(), AllocError> {
        let rest = self.scanner.rest;
        if rest.starts_with("<!--") {
            self.pass(4, "-->");
        } else if rest.starts_with("<?") {
            self.pass(2, "?>");
        } else if rest.starts_with("</") {
            self.close();
        } else if rest.starts_with("<!") {
            let spot = self.scanner.spot(2);
            self.fail(spot, "behind <! only comments are read, as <!-- this -->");
            self.scanner.take(2);
        } else {
            return self.element();
        }
        Ok(())
    }

    /// Reads a text.
    pub fn read(alloc: Global, text: &'a str) -> Result<Elements<'a>, AllocError> {
        let mut elements = Elements {
            alloc,
            scanner: Scanner::new(text),
            is_broken: false,
            open: Vec::new(alloc),
            list: Vec::new(alloc),
            faults: Remarks::new(alloc),
        };
        for _part in 0..text.len() {
            let rest = elements.scanner.rest;
            elements.scanner.take(rest.find('<').unwrap_or(rest.len()));
            if elements.scanner.rest.is_empty() {
                break;
            }
            elements.is_broken = false;
            elements.part()?;
        }
        let last = elements.open.last().copied();
        let is_read = elements.faults.told.is_empty();
        if let (true, Some(element)) = (
            is_read,
            elements.list.get(last.unwrap_or(elements.list.len())),
        ) {
            let (name, spot) = (element.name, element.spot);
            elements.is_broken = false;
            elements.fail(spot, format_args!("{name} is not closed; write </{name}>"));
        }
        Ok(elements)
    }
}
