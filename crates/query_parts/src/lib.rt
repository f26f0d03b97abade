//! Confinement: a bound on what threads can ever get, whatever calls they make.
#![tactic(auto)]

mod arranged;
mod keyed;
mod laws;
mod least;
mod listed;
mod order;
mod parts;

pub use keyed::{UseKey, uses_at, uses_by_key};
pub use laws::{
    calls_keep_within_their_part, closed_parts_stay_closed, deliveries_stay_within_uses,
    joined_parts_are_closed, least_parts_are_the_same, live_threads_are_addressed,
    parts_that_pass_messages_get_nothing, regions_stay_within, revokes_take_what_stands_below,
    threads_name_slots_of_their_part,
};
pub use listed::{PartMemory, PartUse, part_at};
pub use order::owns_endpoint;
pub use parts::{Parts, PartsFault, are_parts_closed, parts_around};
