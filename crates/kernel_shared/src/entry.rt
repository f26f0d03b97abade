//! One call of a history.
use kernel_abstract::{Call, Reply};

/// A client's call, the client's number for it, from 0 on in order, and the reply.
#[derive(Debug, Clone, Copy, PartialEq, Eq, Drop)]
pub struct Entry {
    pub client: u32,
    pub number: u32,
    pub call: Call,
    pub reply: Reply,
}
