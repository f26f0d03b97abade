//! What is asked of a witness.
use query_parts::PartMemory;

/// What is to happen.
#[derive(Clone, Copy, PartialEq, Eq, Debug, Drop)]
pub enum Happening {
    /// A message of the one thread is delivered to the other.
    Message,
    /// The one thread has a word for a capability to the other's control block.
    Hold,
    /// A delete or a revoke of the one thread's takes something of the other's.
    Loss,
}

/// What is asked: whether it can happen from one thread to another, by calls of threads that lie in parts with this memory, but for
/// those of `without`. Only messages by other endpoints than those of `by` count, with the badge, if one is given.
#[derive(Clone, Copy)]
pub struct Asked<'a> {
    pub what: Happening,
    pub from: u64,
    pub to: u64,
    pub by: &'a [u64],
    pub badge: Option<u64>,
    pub memory: &'a [PartMemory],
    pub without: &'a [u64],
}
