//! The words of a layout's text as they are read. Where one is not what is needed, that is told, and reading goes on at the next `}`.
use crate::fault::Remarks;
use crate::scanner::{Scanner, Token, TokenKind};
use std::alloc::{AllocError, Global};

/// An object by its name, and by its number where it is one of several.
#[derive(Clone, Copy)]
pub struct Reference<'a> {
    pub name: Token<'a>,
    pub index: Option<u64>,
}

/// A parameter: its first words, and how many it has.
#[derive(Clone, Copy)]
pub struct Parameter<'a> {
    pub words: [Token<'a>; 8],
    pub count: usize,
}

impl<'a> Parameter<'a> {
    /// The first three words.
    pub fn front(&self) -> [Token<'a>; 3] {
        let [first, second, third, _, _, _, _, _] = self.words;
        [first, second, third]
    }

    /// The number that is given to a word, where this is such.
    pub fn number(&self, word: &str) -> Option<u64> {
        let [first, second, third] = self.front();
        if self.count == 3 && first.is(word) && second.is(":") {
            third.number()
        } else {
            None
        }
    }
}

/// A text that is read, and what is said of it.
#[derive(Drop)]
pub struct Words<'a> {
    pub alloc: Global,
    scanner: Scanner<'a>,
    /// The word that is read next.
    pub token: Token<'a>,
    /// Whether a word was not what is needed: no more is read up to the next `}`.
    pub is_broken: bool,
    /// Whether that was so anywhere.
    pub has_failed: bool,
    pub faults: Remarks,
    /// What may carry authority, and is left out or assumed.
    pub gaps: Remarks,
    pub notes: Remarks,
}

impl<'a> Words<'a> {
    /// Nothing of the text is read yet.
    pub fn new(alloc: Global, text: &'a str) -> Words<'a> {
        let mut scanner = Scanner::new(text);
        let token = scanner.next_token();
        Words {
            alloc,
            scanner,
            token,
            is_broken: false,
            has_failed: false,
            faults: Remarks::new(alloc),
            gaps: Remarks::new(alloc),
            notes: Remarks::new(alloc),
        }
    }

    /// At the most as many words are left, with the end.
    pub fn left(&self) -> usize {
        self.scanner.rest.len().saturating_add(2)
    }

    /// Reads a word.
    pub fn advance(&mut self) -> Token<'a> {
        let token = self.token;
        self.token = self.scanner.next_token();
        token
    }

    /// Reads a mark or a name, where it is next.
    pub fn has(&mut self, text: &str) -> bool {
        let has = !self.is_broken && self.token.is(text);
        if has {
            self.advance();
        }
        has
    }

    /// Whether there is more to read: behind a part of the text that is broken, what stands from the next `}` on.
    pub fn goes_on(&mut self) -> bool {
        if !self.is_broken {
            return true;
        }
        for _word in 0..self.left() {
            if self.token.kind == TokenKind::End || self.token.is("}") {
                break;
            }
            self.advance();
        }
        self.is_broken = self.token.kind == TokenKind::End;
        !self.is_broken
    }

    /// Says that this is needed in the place of the next word, and reads no further there.
    pub fn fail(&mut self, wanted: &str) {
        let Token { kind, text, spot } = self.token;
        if !self.is_broken {
            match kind {
                TokenKind::End => self.faults.say(
                    spot,
                    format_args!("the text ends here, and {wanted} is needed; is a }} missing?"),
                ),
                TokenKind::Unknown => self.faults.say(
                    spot,
                    format_args!("{wanted} is needed; no word begins with {text}"),
                ),
                _ => self
                    .faults
                    .say(spot, format_args!("{wanted} is needed, and not {text}")),
            }
        }
        self.is_broken = true;
        self.has_failed = true;
    }

    /// Reads a mark that is needed.
    pub fn need(&mut self, text: &str) {
        if !self.has(text) {
            self.fail(text);
        }
    }

    /// Reads a number of at most 64 bits.
    pub fn number(&mut self) -> u64 {
        match self.token.number() {
            Some(number) if !self.is_broken => {
                self.advance();
                number
            }
            _ => {
                self.fail("a number of at most 64 bits");
                0
            }
        }
    }

    /// Reads a name. A number is a name too.
    pub fn name(&mut self, wanted: &str) -> Token<'a> {
        let token = self.token;
        match token.kind {
            TokenKind::Name | TokenKind::Number if !self.is_broken => self.advance(),
            _ => {
                self.fail(wanted);
                token
            }
        }
    }

    /// Reads the name of an object, with a number in brackets where a bracket is next.
    pub fn reference(&mut self) -> Reference<'a> {
        let name = self.name("the name of an object");
        let mut index = None;
        if self.token.spot.line == name.spot.line && self.has("[") {
            index = Some(self.number());
            self.need("]");
        }
        Reference { name, index }
    }

    /// Reads one number, or two with points between them, up to the bracket behind them.
    pub fn range(&mut self) -> (u64, u64) {
        let first = self.number();
        let last = if self.has("..") { self.number() } else { first };
        self.need("]");
        (first, last)
    }

    /// Reads the parameters behind a name, where there are any.
    pub fn parameters(&mut self) -> Result<Vec<Parameter<'a>>, AllocError> {
        let mut parameters = Vec::new(self.alloc);
        let mut inner = 0usize;
        let mut parameter = Parameter {
            words: [self.token; 8],
            count: 0,
        };
        if !self.has("(") {
            return Ok(parameters);
        }
        for _word in 0..self.left() {
            let token = self.token;
            if token.kind == TokenKind::End || inner == 0 && token.is("}") {
                break;
            }
            self.advance();
            if inner == 0 && (token.is(",") || token.is(")")) {
                if parameter.count > 0 {
                    parameters.push(parameter)?;
                }
                if token.is(")") {
                    return Ok(parameters);
                }
                parameter.count = 0;
                continue;
            }
            if token.kind == TokenKind::Sign && "([{<".contains(token.text) {
                inner = inner.saturating_add(1);
            }
            if token.kind == TokenKind::Sign && ")]}>".contains(token.text) {
                inner = inner.saturating_sub(1);
            }
            let count = parameter.count;
            if let Some(word) = parameter.words.get_mut(count) {
                *word = token;
            }
            parameter.count = count.saturating_add(1);
        }
        self.fail("a )");
        Ok(parameters)
    }

    /// Reads over what stands in braces.
    pub fn skip_block(&mut self) {
        self.need("{");
        if self.is_broken {
            return;
        }
        let mut depth = 1usize;
        for _word in 0..self.left() {
            let token = self.advance();
            if token.is("{") {
                depth = depth.saturating_add(1);
            } else if token.is("}") {
                depth = depth.saturating_sub(1);
            } else if token.kind == TokenKind::End {
                break;
            }
            if depth == 0 {
                return;
            }
        }
        self.fail("a }");
    }
}
