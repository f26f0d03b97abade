//! The text of a layout that is held to a policy: a line for each breach and for each allowance of which nothing is there.
#![tactic(auto)]

mod calls;
pub mod kinds;
mod names;
mod places;
mod text;
mod told;

pub use calls::call_breaches;
pub use names::{Letters, label, numbers_text, object, part_label, version_text};
pub use places::{Origin, places_of};
pub use text::{breach_lines, policy_text};
pub use told::{
    Held, Told, allowed_badges, allowed_rights, capability_text, end_label, is_other_badge,
    told_text,
};
