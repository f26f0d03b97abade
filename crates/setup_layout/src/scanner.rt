//! The words of a layout's text.

/// A part of a text: its first byte, how many bytes it has, and its line, which counts from 1.
#[derive(Clone, Copy)]
pub struct Spot {
    pub start: usize,
    pub length: usize,
    pub line: usize,
}

/// What a word of the text is.
#[derive(Clone, Copy, PartialEq, Eq)]
pub enum TokenKind {
    /// A name of an object, a kind, a section or a key.
    Name,
    /// A number, decimal or hexadecimal.
    Number,
    /// A bracket or a mark.
    Sign,
    /// A text in quotes.
    Quoted,
    /// What begins no word.
    Unknown,
    /// The end of the text.
    End,
}

/// A word of the text, and where it stands.
#[derive(Clone, Copy)]
pub struct Token<'a> {
    pub kind: TokenKind,
    pub text: &'a str,
    pub spot: Spot,
}

impl Token<'_> {
    /// Whether the word is this mark, or this name.
    pub fn is(&self, text: &str) -> bool {
        self.text == text && self.kind != TokenKind::Quoted
    }

    /// The value of a number; none of what is no number, and of one that has more than 64 bits.
    pub fn number(&self) -> Option<u64> {
        if self.kind != TokenKind::Number {
            return None;
        }
        number_of(self.text)
    }
}

/// The value of a number, decimal or hexadecimal; none of what is no number, and of one that has more than 64 bits.
pub fn number_of(text: &str) -> Option<u64> {
    match text.strip_prefix("0x") {
        Some(digits) => u64::from_str_radix(digits, 16).ok(),
        None => text.parse::<u64>().ok(),
    }
}

/// The mark with which a text can begin, by which some programs know that it is UTF-8.
const BYTE_ORDER_MARK: char = '\u{feff}';

/// A text without such a mark and blanks at its front.
pub fn without_front(text: &str) -> &str {
    text.strip_prefix(BYTE_ORDER_MARK)
        .unwrap_or(text)
        .trim_ascii_start()
}

/// How many bytes of space, or of one comment, stand at the front of a text.
fn gap_length(text: &str) -> usize {
    let inside = text.get(2..).unwrap_or("");
    let behind = match text.get(..2) {
        Some("--" | "//") => inside.split_once('\n'),
        Some("/*") => inside.split_once("*/"),
        Some("{-") => inside.split_once("-}"),
        _ => Some(("", without_front(text))),
    };
    match behind {
        Some((_, rest)) => text.len().saturating_sub(rest.len()),
        None => text.len(),
    }
}

/// How many letters, digits and bytes of these stand at the front of a text.
pub fn front_length(text: &str, others: &[u8]) -> usize {
    let mut length = 0usize;
    for byte in text.bytes() {
        if !byte.is_ascii_alphanumeric() && !others.contains(&byte) {
            break;
        }
        length = length.saturating_add(1);
    }
    length
}

/// The kind and the length of the name or number at the front of a text. A number ends where two points follow.
fn word_at(text: &str) -> (TokenKind, usize) {
    let length = front_length(text, b"_");
    let word = text.get(..length).unwrap_or("");
    let (digits, is_decimal) = match word.strip_prefix("0x") {
        Some(digits) => (digits, false),
        None => (word, true),
    };
    let mut is_number = !digits.is_empty();
    for byte in digits.bytes() {
        is_number &= byte.is_ascii_digit() || !is_decimal && byte.is_ascii_hexdigit();
    }
    if is_number {
        (TokenKind::Number, length)
    } else {
        (TokenKind::Name, front_length(text, b"_@.-/%"))
    }
}

/// The kind and the length of the word at the front of a text.
fn token_at(text: &str) -> (TokenKind, usize) {
    match text.chars().next() {
        None => (TokenKind::End, 0),
        Some(c) if c.is_ascii_alphanumeric() || c == '_' => word_at(text),
        Some('"') => {
            let inside = text.get(1..).unwrap_or("").lines().next().unwrap_or("");
            let length = inside.find('"').unwrap_or(inside.len());
            (TokenKind::Quoted, length.saturating_add(2))
        }
        Some('.') if text.starts_with("..") => (TokenKind::Sign, 2),
        Some('{' | '}' | '(' | ')' | '[' | ']' | ':' | '=' | ',' | ';' | '<' | '>' | '-') => {
            (TokenKind::Sign, 1)
        }
        Some(c) => (TokenKind::Unknown, c.len_utf8()),
    }
}

/// A text, of which the words are read from the first on.
#[derive(Clone, Copy)]
pub struct Scanner<'a> {
    /// What is left.
    pub rest: &'a str,
    /// The first byte of it in the text, and its line.
    pub start: usize,
    pub line: usize,
}

impl<'a> Scanner<'a> {
    /// A text of which nothing is read yet.
    pub fn new(text: &'a str) -> Scanner<'a> {
        Scanner {
            rest: text,
            start: 0,
            line: 1,
        }
    }

    /// The next bytes, so many.
    pub fn spot(&self, length: usize) -> Spot {
        let (start, line) = (self.start, self.line);
        Spot {
            start,
            length,
            line,
        }
    }

    /// Reads so many bytes.
    pub fn take(&mut self, length: usize) -> &'a str {
        let (taken, rest) = self
            .rest
            .split_at_checked(length)
            .unwrap_or((self.rest, ""));
        let lines = taken.split('\n').count().saturating_sub(1);
        self.start = self.start.saturating_add(taken.len());
        self.line = self.line.saturating_add(lines);
        self.rest = rest;
        taken
    }

    /// The next word, behind spaces and comments.
    pub fn next_token(&mut self) -> Token<'a> {
        for _gap in 0..self.rest.len() {
            let length = gap_length(self.rest);
            if length == 0 {
                break;
            }
            self.take(length);
        }
        let (kind, length) = token_at(self.rest);
        let mut spot = self.spot(length);
        let text = self.take(length);
        spot.length = text.len();
        Token { kind, text, spot }
    }
}
