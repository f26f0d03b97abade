//! What a client asks of the history and of the kernel, and what it is answered.
use crate::Entry;
use cap_core::Cap;
use kernel_abstract::{Inbox, ThreadState};

/// What a look asks for.
#[derive(Clone, Copy)]
pub enum Query {
    /// How many entries the history has.
    Length,
    /// The entry at a place of the history, 0 the first.
    Entry(u32),
    /// What the thread at an address does.
    State(u64),
    /// The last message that was delivered to the thread at an address.
    InboxOf(u64),
    /// The capability that the slot at an address holds.
    CapAt(u64),
    /// The thread that waits on the endpoint at an address, at a place of its waiting list, 0 the first.
    WaitingAt(u64, u64),
}

/// What a look is answered, by the query of the same name.
#[derive(Debug, Clone, Copy, PartialEq, Eq)]
pub enum Answer {
    Length(u32),
    /// `None` past the history's end.
    Entry(Option<Entry>),
    /// `None` where no live thread control block is at the address.
    State(Option<ThreadState>),
    /// `None` where nothing was delivered to the thread, or it is not live.
    InboxOf(Option<Inbox>),
    /// `Null` where the slot is empty.
    CapAt(Cap),
    /// `None` past the waiting list's end, and where no live endpoint is at the address.
    WaitingAt(Option<u64>),
}
