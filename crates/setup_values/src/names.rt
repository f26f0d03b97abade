//! Names that stand for words.
ghost use Rattle.std.specs.Prelude.{◌≡◌, find, option_copied, string_bytes, IfOk};
ghost use Rattle.std.specs.Str.{bytes_eq};
ghost use Rattle.std.specs.List.{list_all};
ghost use Rattle.setup_values.specs.Names.{word_named, names_view};
ghost use Rattle.setup_values.specs.Kinds as kind;
ghost use Rattle.setup_values.specs.Names.{AreWordsOf};

use crate::limits::MAX_NAME_BYTES;
use std::alloc::{AllocError, Global};
use std::collections::HashMap;
use std::marker::Model;

/// A name that a set-up gives to a word. A call can then write `@NAME` for the word. Set-ups of format 1 give none.
#[derive(Drop)]
pub struct Name {
    pub text: String,
    pub word: u64,
}

fn is_name_byte(byte: u8) -> bool
    ensures { result ≡ kind.is_name_byte byte }
{
    matches!(byte, b'a'..=b'z' | b'0'..=b'9' | b'_')
}

fn has_name_bytes(text: &[u8]) -> bool
    ensures { result ≡ list_all kind.is_name_byte text.now }
{
    for byte in text {
        if !is_name_byte(*byte) {
            return false;
        }
    }
    true
}

/// Whether a text may stand as a name: 1 to 40 lower-case ASCII letters, digits or `_`.
pub fn is_name(text: &[u8]) -> bool
    ensures { result ≡ kind.is_name text.now }
{
    text.len() >= 1 && text.len() <= MAX_NAME_BYTES && has_name_bytes(text)
}

fn named<'t>(names: &'t [Name], text: &[u8]) -> Option<&'t Name>
    ensures { option_copied result ≡ find (λ n. bytes_eq (string_bytes n.text) text.now) names.now }
{
    for name in names {
        if name.text.as_bytes() == text {
            return Some(name);
        }
    }
    None
}

/// The word of a name, which is looked for from the first on.
#[tactic(auto, using(crate::proofs::LookUp::no_word, crate::proofs::LookUp::one_word))]
fn word_listed(names: &[Name], text: &[u8]) -> Option<u64>
    ensures { result ≡ word_named (names_view names.now) text.now }
{
    let name = named(names, text)?;
    Some(name.word)
}

/// The word of each name, by its bytes.
type WordTable<'a> = HashMap<&'a [u8], u64>;

/// The names that a set-up gives, by which words are looked up; in a table, if there can be many.
#[derive(Drop)]
pub struct KnownNames<'a> {
    names: &'a [Name],
    words: Option<WordTable<'a>>,
}

impl<'a> Model for KnownNames<'a> {
    ghost use Rattle.std.specs.Prelude.{List, IfSome};
    ghost use Rattle.setup_values.specs.declared.names.Name.{Name};
    ghost use Rattle.setup_values.specs.Names.{AreWordsOf};

    ghost Value = { List Name };

    ghost view = { λ k. k.names.now };

    ghost invariant = { λ k. IfSome k.words (AreWordsOf k.names.now) };
}

/// The words of names, by their bytes.
fn words_of<'a>(alloc: Global, names: &'a [Name]) -> Result<WordTable<'a>, AllocError>
    ensures { IfOk result (AreWordsOf names.now) }
{
    let mut words = HashMap::new(alloc);
    for behind in 0..names.len() {
        // From the last name on, so that of equal names the first one stays.
        let name = &names[names.len() - 1 - behind];
        words.insert(name.text.as_bytes(), name.word)?;
    }
    Ok(words)
}

impl<'a> KnownNames<'a> {
    ghost use Rattle.std.specs.Prelude.{◌≡◌, [], IfOk};
    ghost use Rattle.setup_values.specs.Names.{word_named, names_view};

    /// No names.
    pub fn none() -> KnownNames<'a>
        ensures { result ≡ [] }
    {
        KnownNames {
            names: &[],
            words: None,
        }
    }

    /// These names.
    pub fn new(alloc: Global, names: &'a [Name]) -> Result<KnownNames<'a>, AllocError>
        ensures { IfOk result (λ known. known ≡ names.now) }
    {
        let words = Some(words_of(alloc, names)?);
        Ok(KnownNames { names, words })
    }

    /// The word of a name.
    pub fn word_of(&self, text: &[u8]) -> Option<u64>
        ensures { result ≡ word_named (names_view self.now) text.now }
    {
        match &self.words {
            None => word_listed(self.names, text),
            Some(words) => words.get(text).copied(),
        }
    }
}
