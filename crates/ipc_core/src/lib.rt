//! Threads that wait on endpoints.
#![tactic(auto)]

pub mod law;
pub mod linked;
mod row;
pub mod rows;
mod tables;
pub mod waiter;
pub mod waiters;

pub use linked::LinkedWaiters;
pub use rows::RowWaiters;
pub use waiter::{Offer, Received, Role, Sent, Waiter};
pub use waiters::{MakeWaiters, SaveWaiters, Waiters};
