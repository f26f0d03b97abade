//! Migration: the set-up of format 2 that stands for a set-up of format 1; and the text of a table.
#![tactic(auto)]

mod calls;
mod migration;
mod names;
mod tables;
mod text;

pub use migration::migrate;
pub use text::table_text;
