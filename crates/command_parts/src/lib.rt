//! What the threads of a set-up can never get, as text: the parts of its layout, and the ways between them.
#![tactic(auto)]

mod command;
mod head;
mod laws;
mod messages;
mod parts;
mod sets;
mod takes;
mod telling;
mod text;
mod threads;
mod ways;

pub use command::Ever;
pub use head::{Heading, add_heading, none_text};
pub use laws::{parts_of_messages_keep_to_their_uses, what_is_not_told_is_not_taken};
pub use messages::passes_alone;
pub use parts::{BadgeText, is_of_part};
pub use sets::{is_in, listed, rising};
pub use takes::{PartSlot, Take, add_take_of, part_slots, part_takes};
pub use telling::{Home, PartNaming, PartTold};
pub use text::{all_trusted, ever, parts_of_callers};
pub use threads::{ObjectWords, Trust, absent_answer, named};
pub use ways::{
    Passing, Way, add_sel4_lines, has_use_to_receive, has_use_to_send, uses_on, ways_by,
};
