//! The shared kernel of the tests: two threads, one endpoint and one untyped region.
ghost use Rattle.std.specs.Prelude.{◌≡◌, IfOk, vec_len};
ghost use Rattle.cap_core.specs.declared.profile.ProfileName.TheVariants as Name;
ghost use Rattle.kernel_abstract.specs.Plan.{IsPlan};
ghost use Rattle.kernel_abstract.specs.Boot.{boot};
ghost use Rattle.kernel_abstract.specs.State.{shown};

use cap_core::{Message, Wide};
use ipc_core::MakeWaiters;
use kernel_core::{BootPlan, Call, Kernel, Op};
use kernel_shared::{Book, Client, Naming, SharedKernel, StartFault, client, settle, shared};
use slot_core::MakeStore;
use std::alloc::{AllocError, Global};
use std::process::Abort;
use std::sync::Wait;
use std::sync::ledger::Blank;

/// The threads, the endpoint, and the address of the slot with its capability.
pub const FIRST: u64 = 2048;

pub const SECOND: u64 = 4096;

pub const ENDPOINT: u64 = 6144;

pub const ENDPOINT_SLOT: u64 = 128;

/// With wide words, over a capability store and a store of waiting threads: a shared kernel, a client of it and its book.
pub type Shared<N, S, W> = SharedKernel<N, Wide, S, W>;

pub type Caller<N, S, W> = Client<N, Wide, S, W>;

pub type History<N, S, W> = Book<N, Wide, S, W>;

/// A shared kernel and a client of it, whatever its copies are.
pub type SharedOver<N, T> = shared::Shared<N, T>;

pub type CallerOver<N, T> = client::Client<N, T>;

pub const EMPTY: Message = Message {
    label: 0,
    words: [0; 4],
    count: 0,
};

/// Calls of the first thread and of the second that send an empty message through the endpoint if a receiver waits.
pub const FIRST_CALL: Call = Call {
    thread: FIRST,
    op: Op::NbSend {
        cap: 4,
        message: EMPTY,
    },
};

pub const SECOND_CALL: Call = Call {
    thread: SECOND,
    op: Op::NbSend {
        cap: 4,
        message: EMPTY,
    },
};

pub fn plan(rt: &impl Abort, alloc: Global) -> Result<BootPlan, AllocError>
    ensures { IfOk result (λ plan. IsPlan Name.Wide plan) }
{
    let mut untypeds = Vec::new(alloc);
    untypeds.push((16384, 12))?;
    Ok(BootPlan::new::<Wide>(16, 4, 2, 1, untypeds).expect(rt, "no defect"))
}

/// Boots a kernel and shares it among so many clients, at least one.
pub fn begin<N: Naming, S: MakeStore<Wide>, W: MakeWaiters<Wide>, R: Wait>(
    rt: &R,
    alloc: Global,
    blank: Blank,
    plan: &BootPlan,
    clients: u32,
    limit: u32,
) -> Result<(Shared<N, S, W>, Vec<Caller<N, S, W>>), StartFault>
    requires name { blank.name ≡ N.name }
    requires parts { (blank.parts ≡ N.parts) × (blank.parts ≡ clients) }
    requires plan { IsPlan Name.Wide plan.now }
    requires profile { N.profile ≡ Name.Wide }
    requires start { N.start ≡ boot Name.Wide plan.now }
    requires opening { N.opening ≡ shown (boot Name.Wide plan.now) }
    requires limit { N.limit ≡ limit }
    ensures { IfOk result (λ r. vec_len r.1 ≡ clients) }
{
    if clients == 0 {
        return Err(StartFault::Reader);
    }
    let kernel = Kernel::<Wide, S, W>::boot(alloc, plan)?;
    SharedKernel::start(rt, alloc, blank, kernel, clients, limit)
}

/// The book of a shared kernel that is settled. If it cannot be, it is given up.
pub fn settled<N: Naming, S: MakeStore<Wide>, W: MakeWaiters<Wide>, R: Wait>(
    rt: &R,
    shared: Shared<N, S, W>,
    clients: Vec<Caller<N, S, W>>,
) -> Option<History<N, S, W>> {
    match settle(rt, shared, clients) {
        Ok(book) => Some(book),
        Err(unsettled) => {
            unsettled.give_up(rt);
            None
        }
    }
}
