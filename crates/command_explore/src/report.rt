//! The report on every order of the calls that the clients of a set-up make, of all clients or of each group that shares nothing
//! with the others: for each call what it comes to, each way to end stuck, and how many states and orders there are. And set-ups
//! that make the calls of one of these orders.

mod answers;
mod calls;
mod clients;
mod ends;
mod groups;
pub mod laws;
mod making;
mod marks;
mod naming;
mod numbers;
mod rows;
mod run;
mod tables;
mod unmet;
mod witness;

pub use answers::AnswerText;
pub use clients::{calls_of_clients, first_clients};
pub use groups::groups_report;
pub use making::make_witness;
pub use run::{ExploredText, explored_report};
pub use witness::Witness;
