//! Where what breaks a policy comes from: the slots and the threads of the layout, and the calls of the set-up that filled the slots, or
//! by which the threads wait.
#![tactic(auto)]

mod calls;
mod known;
mod links;
mod names;
mod places;
mod searches;
mod sites;
mod text;

pub use calls::{Fill, FirstCalls, PlaceCalls, fills, slots_named};
pub use known::{SiteNames, Sites};
pub use links::{Link, United, links_of};
pub use names::label_of;
pub use places::{Place, Role, Sited};
pub use text::{PlaceText, add_place};
