//! The exploration of every order of the calls that clients make of one kernel, over any store and waiting threads: layer by
//! layer, by the number of calls, with orders that lead to the same state taken together.

mod answers;
mod ends;
pub(crate) mod exploration;
mod found;
mod kernels;
mod layer;
mod layers;
pub(crate) mod node;
mod order;
mod stuck;
mod waits;
mod words;

pub use self::exploration::{
    Explored, empty_layers_are_the_last, explore, orders_to_the_same_state_are_taken_together,
};
pub use self::found::{FoundAnswer, FoundAnswers};
pub use self::node::Node;
pub use self::order::Order;
pub use self::stuck::FoundStuck;
