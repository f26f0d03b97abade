//! Laws of a report's texts: what can be read back from them.
#![tactic(auto)]

mod laws;

pub use laws::{
    capabilities_are_told_in_one_line, capabilities_are_within_words,
    texts_of_capabilities_end_by_themselves, texts_tell_capabilities,
};
