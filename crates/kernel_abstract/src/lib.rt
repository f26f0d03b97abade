//! The abstract kernel: what a call receives, what it does and what it is answered, and, in `specs/`, the definitions of its
//! state, of boot, of a step and of runs. There is next to no code here: this is what the kernel's contracts cite.
#![tactic(auto)]

pub mod call;
pub mod invocation;
pub mod laws;
pub mod plan;
pub mod reason;

pub use call::{Call, Inbox, Op, Reply, ThreadState};
pub use plan::PlanDefect;
pub use reason::{Held, Miss, Reason, Right, Word};
