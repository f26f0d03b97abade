//! The names that a program takes for a kernel of its own, for kernels that clients share and for set-ups, each from the
//! crate that has it.
pub use cap_core::{
    Badge, Cap, Guard, Kind, LookupFault, Message, Narrow, Profile, ProfileName, Range, Refusal,
    Rights, Wide, fresh, in_region, kind_of, mask, object_bits, range_of, same_object, set_data,
};
pub use cspace_core::{resolve, target};
pub use ipc_core::{LinkedWaiters, MakeWaiters, Received, Role, RowWaiters, Sent, Waiters};
pub use kernel_core::{BootPlan, Call, Inbox, Kernel, Op, PlanDefect, Reply, ThreadState};
pub use kernel_shared::{
    Answer, Book, BookFault, Client, DriveFault, Driven, Entry, Front, Gate, Query, SettleFault,
    SharedFault, SharedKernel, StartFault, Stop, drive, give_up, look, settle,
};
pub use mem_core::{Placed, Shape, plan, shape};
pub use setup_read::{Setup, SetupFault, migrate, read_setup, read_table, report, shared_report};
pub use slot_core::{CapStore, Link, LinkedStore, MakeStore, RowStore, Slot};
