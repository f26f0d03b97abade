//! The words that checks are about.
ghost use Rattle.std.specs.Prelude.{◌≡◌};
ghost use Rattle.command_why.specs.Words as spec;

use crate::reasons::keys::KeyWords;
use kernel_core::Word;

/// The key of a word that a check is about.
pub fn key_of(word: Word) -> &'static str
    ensures { result.now ≡ spec.word_key word }
{
    match word {
        Word::Invoked => "cap",
        Word::Root => "root",
        Word::SourceRoot => "src_root",
        Word::Index => "index",
        Word::SourceIndex => "src_index",
    }
}

/// The value of a word that a check is about.
pub fn value_of(words: &KeyWords, word: Word) -> u64
    ensures { result ≡ spec.value_of words.now word }
{
    words.word_of(key_of(word))
}

/// The key of the depth that belongs to an index.
pub fn depth_key(word: Word) -> &'static str
    ensures { result.now ≡ spec.depth_key word }
{
    match word {
        Word::SourceIndex => "src_depth",
        _ => "depth",
    }
}

/// The value of the depth that belongs to an index.
pub fn depth_of(words: &KeyWords, word: Word) -> u64
    ensures { result ≡ spec.depth_of words.now word }
{
    words.word_of(depth_key(word))
}

/// Whether a word is looked up whole, from the thread's root on: it is no index.
pub fn is_whole(word: Word) -> bool
    ensures { result ≡ spec.is_whole word }
{
    match word {
        Word::Index | Word::SourceIndex => false,
        _ => true,
    }
}

/// The word that leads to the CNode from which an index is looked up, if that is no CNode.
pub fn root_of(word: Word) -> Word
    ensures { result ≡ spec.root_of word }
{
    match word {
        Word::SourceIndex => Word::SourceRoot,
        _ => Word::Root,
    }
}
