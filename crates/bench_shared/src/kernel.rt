//! The kernel that is shared: two threads, one endpoint and one untyped region.
ghost use Rattle.std.specs.Prelude.{IfSome};
ghost use Rattle.cap_core.specs.declared.profile.ProfileName.TheVariants as Name;
ghost use Rattle.kernel_abstract.specs.Plan.{IsPlan};

use cap_core::{Message, Wide};
use ipc_core::LinkedWaiters;
use kernel_core::{BootPlan, Call, Kernel, Op};
use kernel_shared::{Book, SharedKernel};
use slot_core::LinkedStore;
use std::alloc::Global;

pub type LinkedKernel = Kernel<Wide, LinkedStore<Wide>, LinkedWaiters<Wide>>;

pub type LinkedBook<N> = Book<N, Wide, LinkedStore<Wide>, LinkedWaiters<Wide>>;

pub type LinkedShared<N> = SharedKernel<N, Wide, LinkedStore<Wide>, LinkedWaiters<Wide>>;

/// A send that finds no receiver: it is dropped.
pub const DROPPED_SEND: Call = Call {
    thread: 2048,
    op: Op::NbSend {
        cap: 4,
        message: Message {
            label: 0,
            words: [0; 4],
            count: 0,
        },
    },
};

/// The plan of the kernel.
pub fn plan(alloc: Global) -> Option<BootPlan>
    ensures { IfSome result (λ plan. IsPlan Name.Wide plan) }
{
    let mut untypeds = Vec::new(alloc);
    untypeds.push((16384, 12)).ok()?;
    BootPlan::new::<Wide>(16, 4, 2, 1, untypeds).ok()
}
