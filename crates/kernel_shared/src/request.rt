//! What the writer hands to both copies.
use kernel_abstract::Call;

/// A call of a client, under the client's number for it.
#[derive(Clone, Copy)]
pub struct Request {
    pub client: u32,
    pub number: u32,
    pub call: Call,
}
