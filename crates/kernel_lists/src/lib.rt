//! The theory of two sorts of lists: those whose elements belong to keys, of which each key made some (`keyed`), and those of
//! which the first of each kind is kept, alone or with a count for each kind (`firsts`).
#![tactic(auto)]

pub mod firsts;
pub mod keyed;
