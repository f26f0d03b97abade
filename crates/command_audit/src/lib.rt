//! The audit of a set-up: what each thread can name, who can send to whom, and what each revoke would do.
#![tactic(auto)]

mod channels;
mod ends;
mod head;
mod laws;
mod others;
mod revokes;
mod slot;
mod spaces;
mod state;
mod text;
mod threads;

pub use ends::Asked;
pub use laws::{a_revoke_does_this, told_as_is_the_same};
pub use others::StateAudit;
pub use slot::SlotAudit;
pub use threads::ThreadSlots;
