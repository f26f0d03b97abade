//! Messages.
use crate::limits::MAX_MESSAGE_WORDS;

/// A message: a label below 2^`LABEL_BITS` and the first `count` of `words`, at most `MAX_MESSAGE_WORDS`; the other words are 0.
#[derive(Clone, Copy, PartialEq, Eq, Debug)]
pub struct Message {
    pub label: u64,
    pub words: [u64; MAX_MESSAGE_WORDS],
    pub count: u32,
}
