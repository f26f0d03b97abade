//! What a kernel shows, as words: kernels that have the same words show the same. So states of kernels can be told apart, and
//! be looked up in a set.

pub mod laws;
mod parts;
mod slots;
mod waits;

pub(crate) use self::slots::add_slots;
pub use self::slots::words_of;
