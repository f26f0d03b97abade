//! The commands that tell what the calls of a set-up come to in every order of its clients' calls, and that write a set-up which
//! makes the calls of one of these orders. The reports are made by `report`.
#![tactic(auto)]

mod exploring;
mod groups;
pub mod laws;
mod report;
mod witnessing;

pub use exploring::{Explore, ExploreOptions};
pub use groups::ExploreGroups;
pub use report::{
    AnswerText, ExploredText, Witness, calls_of_clients, explored_report, first_clients,
    groups_report, make_witness,
};
pub use witnessing::WriteWitness;
