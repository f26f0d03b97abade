//! Where the objects of a text in the form stand.
use setup_layout::Spot;
use std::alloc::{AllocError, Global};

/// The bytes of a text that stand in no string, one after the other.
#[derive(Drop)]
struct Walk {
    /// How many brackets are open.
    depth: usize,
    /// Whether the byte that was read last is in a string, and has a `\` before it.
    is_in_string: bool,
    is_escaped: bool,
}

impl Walk {
    /// No byte is read yet.
    fn new() -> Walk {
        Walk {
            depth: 0,
            is_in_string: false,
            is_escaped: false,
        }
    }

    /// Reads a byte. Answers whether it stands in no string.
    fn read(&mut self, byte: u8) -> bool {
        if self.is_in_string {
            if self.is_escaped {
                self.is_escaped = false;
            } else {
                self.is_escaped = byte == b'\\';
                self.is_in_string = byte != b'"';
            }
            return false;
        }
        match byte {
            b'"' => self.is_in_string = true,
            b'{' | b'[' => self.depth = self.depth.saturating_add(1),
            b'}' | b']' => self.depth = self.depth.saturating_sub(1),
            _ => {}
        }
        true
    }
}

/// How many members the objects of a text have.
pub fn count_members(text: &str) -> usize {
    let (mut walk, mut count) = (Walk::new(), 0usize);
    for byte in text.bytes() {
        if walk.read(byte) && byte == b':' {
            count = count.saturating_add(1);
        }
    }
    count
}

/// Where the entries of the list `objects` stand in a text.
pub fn object_spots(alloc: Global, text: &str) -> Result<Vec<Spot>, AllocError> {
    let (mut spots, mut walk) = (Vec::new(alloc), Walk::new());
    let (mut line, mut begin, mut is_list) = (
        1usize,
        Spot {
            start: 0,
            length: 0,
            line: 1,
        },
        false,
    );
    for (place, byte) in text.bytes().enumerate() {
        let is_outside = walk.read(byte);
        if byte == b'\n' {
            line = line.saturating_add(1);
        }
        match (byte, walk.depth) {
            (b'[', 2) if is_outside => is_list = is_of_objects(text, place),
            (b'{', 3) if is_outside => begin = Spot {
                start: place,
                length: 0,
                line,
            },
            (b'}', 2) if is_outside && is_list => {
                let length = place.saturating_sub(begin.start).saturating_add(1);
                spots.push(Spot { length, ..begin })?;
            }
            _ => {}
        }
    }
    Ok(spots)
}

/// Whether the name before a place of a text is `objects`.
fn is_of_objects(text: &str, place: usize) -> bool {
    let before = text.get(..place).unwrap_or("").trim_ascii_end();
    let name = before.strip_suffix(':').unwrap_or("").trim_ascii_end();
    name.ends_with("\"objects\"")
}

/// A line of a text, from one of its columns on.
pub fn spot_at(text: &str, line: usize, column: usize) -> Spot {
    let (mut start, mut number) = (0usize, 1usize);
    for part in text.split('\n') {
        if number >= line {
            break;
        }
        number = number.saturating_add(1);
        start = start.saturating_add(part.len()).saturating_add(1);
    }
    let start = start
        .saturating_add(column.saturating_sub(1))
        .min(text.len());
    Spot {
        start,
        length: 1,
        line: number,
    }
}
