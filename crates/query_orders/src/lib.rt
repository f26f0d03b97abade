//! The orders in which clients can make their calls of one kernel, what each call comes to in them, and the exploration of all of
//! these orders.
//!
//! Which orders there are and where one ends are definitions and laws over the abstract kernel. The exploration (`exploring`) goes
//! over any store and waiting threads, and tells states apart by what a kernel shows, as words (`words`). Clients that share
//! no thread and no endpoint form groups, each of which can be explored by itself (`groups`).
#![tactic(auto)]

pub mod answer;
pub mod exploring;
pub mod groups;
pub mod laws;
pub mod left;
pub mod words;

pub use answer::{Answer, WaitingCall};
pub use exploring::{
    Explored, FoundAnswer, FoundAnswers, FoundStuck, Node, Order, empty_layers_are_the_last,
    explore, orders_to_the_same_state_are_taken_together,
};
pub use groups::{CallObject, GroupExplored, GroupsExplored, explore_groups, is_in_group};
pub use left::LeftCall;
pub use words::words_of;
