//! Layouts as capDL text. What is read of them is tested, and no clause says what it is. One says which rows of a `cdt` are kept.
#![tactic(auto)]

mod derived;
mod fault;
mod hardware;
mod kinds;
mod layout;
mod machine;
mod made;
mod objects;
mod reading;
mod scanner;
mod slots;
mod words;

pub use derived::kept_pairs;
pub use fault::{Remark, Remarks};
pub use kinds::{SLOT_WORDS, place_of};
pub use layout::{AssumedRights, Layout, OTHER_BITS, Object, Reading, Row, Slot};
pub use machine::Machine;
pub use made::{Lines, MadeText, Said};
pub use reading::read_text;
pub use scanner::{Scanner, Spot, front_length, number_of};
