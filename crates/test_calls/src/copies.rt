//! Copies of a kernel, which go on by themselves.
use cap_core::{Cap, Message, Wide};
use ipc_core::MakeWaiters;
use kernel_core::{BootPlan, Call, Kernel, Op, Reply, ThreadState};
use slot_core::MakeStore;
use std::alloc::Global;

/// The endpoint behind four threads, from 2048 on; its capability is in slot 6, and that of an untyped region at 16384 in slot 7.
const ENDPOINT: u64 = 10240;

/// The thread that waits, and the one that makes the calls of the copy.
const WAITING: u64 = 4096;

const CALLER: u64 = 2048;

/// The calls of the copy: the waiting thread's capability is deleted, and a thread control block is made.
const CALLS: [Op; 2] = [
    Op::CapDelete {
        cap: 1,
        index: 3,
        depth: 64,
    },
    Op::Retype {
        cap: 7,
        kind: 1,
        size_bits: 0,
        root: 1,
        index: 0,
        depth: 0,
        offset: 8,
        count: 1,
    },
];

/// A kernel in which a thread waits to send, or `None` if it was out of memory.
pub fn waiting<S: MakeStore<Wide>, W: MakeWaiters<Wide>>(
    alloc: Global,
) -> Option<Kernel<Wide, S, W>> {
    let region = vec![in alloc; (16384, 12)].ok()?;
    let plan = BootPlan::new::<Wide>(16, 4, 4, 1, region).ok()?;
    let mut kernel = Kernel::<Wide, S, W>::boot(alloc, &plan).ok()?;
    let message = Message {
        label: 1,
        words: [0; 4],
        count: 0,
    };
    kernel.step(Call {
        thread: WAITING,
        op: Op::Send { cap: 6, message },
    });
    Some(kernel)
}

/// What the calls of the copy change: how the thread waits that is deleted in it, what its slot and slot 8 hold, and the thread
/// that is made.
type Shown = (Option<ThreadState>, Cap, Cap, Option<ThreadState>);

fn shown<S: MakeStore<Wide>, W: MakeWaiters<Wide>>(kernel: &Kernel<Wide, S, W>) -> Shown {
    (
        kernel.thread_state(WAITING),
        kernel.cap_at(96),
        kernel.cap_at(256),
        kernel.thread_state(16384),
    )
}

/// Makes a copy, and its calls: whether it goes on by itself, and these change nothing of the kernel.
pub fn copy<S: MakeStore<Wide>, W: MakeWaiters<Wide>>(
    alloc: Global,
    kernel: &Kernel<Wide, S, W>,
) -> Option<bool> {
    let sending = Some(ThreadState::Sending(ENDPOINT));
    let before = (sending, Cap::Tcb { base: WAITING }, Cap::Null, None);
    let after = (
        None,
        Cap::Null,
        Cap::Tcb { base: 16384 },
        Some(ThreadState::Inactive),
    );
    let mut copied = kernel.copy(alloc).ok()?;
    if shown(&copied) != before {
        return Some(false);
    }
    for op in CALLS {
        if copied.step(Call { thread: CALLER, op }) != Reply::Done {
            return Some(false);
        }
    }
    Some(shown(&copied) == after && shown(kernel) == before)
}
