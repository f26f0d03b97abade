//! The command that tells whether one thread's part of a set-up's layout is kept from another's, but for the endpoints that are
//! named, whatever calls threads make.
#![tactic(auto)]

mod asking;
mod parts_kept;

pub use asking::Question;
pub use parts_kept::{Never, never_by_parts, never_gets, what_is_not_open_is_kept};
