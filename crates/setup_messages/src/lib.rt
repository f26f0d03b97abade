//! What is said in words of a set-up, besides the report and the line of a refusal: why it is refused, and which
//! expectations no reply can meet. The texts are tested, and no clause says what they are.
#![tactic(auto)]

mod accepted;
mod document;
mod expectations;
mod mending;
mod message;
mod near;
mod refused;
mod regions;
mod spot;
mod texts;
mod values;

pub use document::Formats;
pub use expectations::unmeetable_expectations;
pub use refused::refusal_words;
