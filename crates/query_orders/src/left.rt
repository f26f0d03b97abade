//! Calls that an order leaves.
use kernel_abstract::ThreadState;

/// The next call of a client that has calls left where an order ends: the client, the call's place among the client's calls,
/// from 0 on, the address of its thread, and what that thread does; `None` where no live thread is at the address.
#[derive(Clone, Copy, Debug, PartialEq, Eq)]
pub struct LeftCall {
    pub client: usize,
    pub place: usize,
    pub thread: u64,
    pub state: Option<ThreadState>,
}
