//! The words of a call, each with its key.
ghost use Rattle.std.specs.Prelude.{◌≡◌, ◌∷◌, ◌++◌, [], find, map, option_copied, take};
ghost use Rattle.std.specs.Str.{bytes_eq};
ghost use Rattle.command_why.specs.Keys as spec;

use bitflags::Flags;
use cap_core::Message;
use kernel_core::Op;
use std::marker::Model;

/// A key of a call, and its word.
#[derive(Clone, Copy)]
pub struct KeyWord {
    pub key: &'static str,
    pub word: u64,
}

/// How many words an operation has at most.
const MAX_WORDS: usize = 8;

/// The words of a call, each with its key, in the order in which a trace lists them.
#[derive(Drop)]
pub struct KeyWords {
    words: [KeyWord; MAX_WORDS],
    count: usize,
}

impl Model for KeyWords {
    ghost use Rattle.std.specs.Prelude.{◌≡◌, ◌≤◌, ℕ, List, length, map, take};
    ghost use Rattle.command_why.specs.Keys.{key_word, most_words};

    ghost Value = { List (List ℕ × ℕ) };

    ghost view = { λ k. map key_word (take k.count k.words) };

    ghost invariant = { λ k. (k.count ≤ most_words) × (length k.words ≡ most_words) };
}

impl KeyWords {
    /// The word that names the capability which a call uses.
    fn cap(word: u64) -> Self
        ensures { result ≡ spec.cap_word word }
    {
        let key = "cap";
        KeyWords {
            words: [KeyWord { key, word }; MAX_WORDS],
            count: 1,
        }
    }

    /// The words that name the slot which a call fills, or is about.
    fn slot(cap: u64, index: u64, depth: u64) -> Self
        ensures { result ≡ spec.slot_key_words cap index depth }
    {
        KeyWords::cap(cap).with("index", index).with("depth", depth)
    }

    /// The words that name the slot which a call fills, and the one which it takes from.
    fn transfer(cap: u64, to: (u64, u64), src_root: u64, from: (u64, u64)) -> Self
        ensures { result ≡ spec.transfer_words cap to.0 to.1 src_root from.0 from.1 }
    {
        let (index, depth) = to;
        let (src_index, src_depth) = from;
        KeyWords::slot(cap, index, depth)
            .with("src_root", src_root)
            .with("src_index", src_index)
            .with("src_depth", src_depth)
    }

    /// These words, and one more if there is room. For the words of an operation there always is.
    fn with(mut self, key: &'static str, word: u64) -> Self
        ensures { result ≡ take spec.most_words (self ++ (key.now, word) ∷ []) }
    {
        if self.count < MAX_WORDS {
            self.words[self.count] = KeyWord { key, word };
            self.count += 1;
        }
        self
    }

    /// Each word with its key.
    pub fn as_slice(&self) -> &[KeyWord]
        ensures { map spec.key_word result.now ≡ self.now }
    {
        &self.words[..self.count]
    }

    /// The word of a key; 0 if the operation has no such key.
    #[tactic(auto, using(crate::proofs::Keyed::no_word, crate::proofs::Keyed::one_word))]
    pub fn word_of(&self, key: &str) -> u64
        ensures { result ≡ spec.word_of self.now key.now }
    {
        match first_of(self.as_slice(), key) {
            Some(pair) => pair.word,
            None => 0,
        }
    }
}

/// The first of some words that has a key.
fn first_of<'w>(words: &'w [KeyWord], key: &str) -> Option<&'w KeyWord>
    ensures { option_copied result ≡ find (λ pair. bytes_eq pair.key.now key.now) words.now }
{
    words.iter().find(|pair| pair.key == key)
}

/// The words of an operation, without the message that it sends.
#[rattlefmt::skip]
pub fn key_words(op: &Op) -> KeyWords
    ensures { result ≡ spec.key_words op.now }
{
    match *op {
        Op::Retype { cap, kind, size_bits, root, index, depth, offset, count } => KeyWords::cap(cap)
            .with("kind", kind)
            .with("size_bits", size_bits)
            .with("root", root)
            .with("index", index)
            .with("depth", depth)
            .with("offset", offset)
            .with("count", count),
        Op::CapCopy { cap, index, depth, src_root, src_index, src_depth, rights } =>
            KeyWords::transfer(cap, (index, depth), src_root, (src_index, src_depth))
                .with("rights", u64::from(rights.bits())),
        Op::CapMint { cap, index, depth, src_root, src_index, src_depth, rights, word } =>
            KeyWords::transfer(cap, (index, depth), src_root, (src_index, src_depth))
                .with("rights", u64::from(rights.bits()))
                .with("word", word),
        Op::CapMove { cap, index, depth, src_root, src_index, src_depth } =>
            KeyWords::transfer(cap, (index, depth), src_root, (src_index, src_depth)),
        Op::CapMutate { cap, index, depth, src_root, src_index, src_depth, word } =>
            KeyWords::transfer(cap, (index, depth), src_root, (src_index, src_depth)).with("word", word),
        Op::CapDelete { cap, index, depth }
        | Op::CapRevoke { cap, index, depth }
        | Op::CancelBadged { cap, index, depth } => KeyWords::slot(cap, index, depth),
        Op::SetSpace { cap, root, word } => KeyWords::cap(cap).with("root", root).with("word", word),
        Op::Send { cap, .. }
        | Op::NbSend { cap, .. }
        | Op::Recv { cap }
        | Op::NbRecv { cap }
        | Op::Suspend { cap }
        | Op::Resume { cap } => KeyWords::cap(cap),
    }
}

/// The message that an operation sends.
pub fn sent(op: &Op) -> Option<Message>
    ensures { result ≡ spec.sent_message op.now }
{
    match *op {
        Op::Send { message, .. } | Op::NbSend { message, .. } => Some(message),
        _ => None,
    }
}
