//! A layout held to a policy: what of a state is held to it, what no entry and no way of it allows, and what it allows and is not there.
#![tactic(auto)]

mod breaches;
mod held;
mod joining;
mod layout;
mod sides;
mod takes;
mod unused;
mod ways;

pub use breaches::{
    Hold, badges_amiss, holds, is_entry, joins_amiss, lets_ever, parts_of_several, regions_amiss,
    rights_amiss, strays, unlisted, waits_amiss,
};
pub use held::{Block, HeldRegion, Home, Layout, Waiting};
pub use joining::{Join, blocks, homes_joined, joins};
pub use layout::{layout_of, trusted_threads};
pub use sides::groups_at;
pub use takes::{takes_amiss, unused_takes};
pub use unused::{
    count_of_parts, is_idle, unused_regions, unused_uses, unused_ways, uses_with_idle_rights,
    ways_with_idle_rights,
};
pub use ways::{End, Passage, count_between_parts, is_way_between, passages, passages_amiss};
