//! Set-ups: the grammar by which a text or a table is read, and the line by which another is refused.
#![tactic(auto)]

mod expectation;
pub mod fault;
mod laws;
pub mod limits;
mod operations;
mod reading;
mod refusal;
pub mod setup;
mod tables;

pub use expectation::asks;
pub use fault::{Key, Place, SetupFault, Wrong};
pub use laws::what_is_read_is_the_set_up;
pub use operations::op_name;
pub use reading::{
    read, read_document, read_first_format, read_setup, read_table, table_of, top_keys,
    untyped_keys,
};
pub use setup::{ReadSetup, Setup};
