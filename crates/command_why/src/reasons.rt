//! The reasons for which calls are refused, in words: by the names that spell a call, which check failed and what was found there.

mod asked;
mod capabilities;
mod facts;
mod keys;
mod laws;
mod lookups;
mod names;
mod retypes;
mod text;
mod threads;
mod words;

pub use asked::Asked;
pub use capabilities::add_capability;
pub use keys::{KeyWord, KeyWords, key_words, sent};
pub use laws::reasons_have_one_to_four_lines;
pub use lookups::{add_no_depth, add_not_found};
pub use threads::{
    add_address, add_live, add_not_ready, threads_told_are_those_of_the_definitions,
};
