//! The kernel: boot, one step, and runs, over any capability store and any store of waiting threads.
#![tactic(auto)]

mod addresses;
mod boot;
mod cancelling;
mod deletion;
mod ending;
pub mod kernel;
mod objects;
mod placements;
mod refusals;
mod revoking;
mod rows;
mod saving;

pub use kernel::Kernel;
pub use kernel_abstract::reason::{Held, Miss, Reason, Right, Word};
pub use kernel_abstract::{Call, Inbox, Op, Reply, ThreadState, call, invocation};
pub use kernel_boot::{BootPlan, PlanDefect, plan};
pub use kernel_checks::Hint;
pub use saving::SavedKernel;
