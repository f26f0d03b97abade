//! Layouts in capDL's JSON form, which become capDL texts. What is read is tested, and no clause says what it is.
#![tactic(auto)]

mod caps;
mod kinds;
mod names;
mod objects;
mod reading;
mod spots;

pub use reading::json_text;
