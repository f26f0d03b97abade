//! Which slots a thread can name, and by which words: a search of its capability space; and through which slots it comes to an
//! object.
#![tactic(auto)]

mod chains;
mod endpoints;
mod explore;
mod filled;
mod held;
mod kernel;
pub mod laws;
mod nodes;
mod paths;
mod reached;
mod receivers;
mod search;
mod senders;
mod table;

pub use chains::{Target, shortest_chain};
pub use endpoints::{EndpointWord, endpoint_words};
pub use filled::{FullSlot, full_slots};
pub use held::{Held, held_slots};
pub use kernel::kernel_slots;
pub use reached::{Reached, reached_slots};
pub use receivers::{by_endpoint, words_at};
pub use senders::{Channel, channels, receivers_without_sender};
