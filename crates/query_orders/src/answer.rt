//! What a call comes to in an order, and calls that wait.
use kernel_abstract::Reply;

/// What a call comes to in an order of the clients' calls. A send or a receive that waits is answered at once that it waits;
/// on a real kernel it returns when the wait ends (seL4 Reference Manual, on endpoints), so the end of the wait is told.
#[derive(Clone, Copy, Debug, PartialEq, Eq)]
pub enum Answer {
    /// The call did not wait: its reply.
    Replied(Reply),
    /// The call waited until another served it: the other's reply, which is a delivery.
    Served(Reply),
    /// The call waited until the wait was ended with no delivery.
    Cancelled,
    /// The call waits, and the order ends before it is served.
    Waits,
    /// The order ends before the call is made.
    NotMade,
}

/// A call that waits: the address of its thread, the client that made it, and its place among that client's calls, from 0 on.
#[derive(Clone, Copy, Debug, PartialEq, Eq)]
pub struct WaitingCall {
    pub thread: u64,
    pub client: usize,
    pub place: usize,
}
