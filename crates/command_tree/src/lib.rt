//! The derivation forest of a set-up as text: each full slot below the slot that it is derived from, or a graph.
#![tactic(auto)]

mod command;
mod form;
mod graph;
mod head;
mod laws;
mod lines;
mod path;
mod slot;
mod text;

pub use command::Tree;
pub use form::Form;
pub use laws::lines_tell_the_forest;
