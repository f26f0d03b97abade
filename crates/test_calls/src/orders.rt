//! The exploration of orders, if a limit on states ends it, and after first calls.
use cap_core::{Message, Wide};
use ipc_core::RowWaiters;
use kernel_core::{BootPlan, Call, Kernel, Op};
use query_orders::{Explored, explore};
use slot_core::RowStore;
use std::alloc::Global;

macro_rules! send {
    ($thread:expr, $cap:expr, $label:expr) => {
        Call {
            thread: $thread,
            op: Op::Send {
                cap: $cap,
                message: Message {
                    label: $label,
                    words: [0, 0, 0, 0],
                    count: 0,
                },
            },
        }
    };
}

macro_rules! recv {
    ($thread:expr, $cap:expr) => {
        Call {
            thread: $thread,
            op: Op::Recv { cap: $cap },
        }
    };
}

/// Two clients that each take two locks, kept by two others that serve them in different orders: the calls of four threads over
/// four endpoints, whose capabilities are in the slots 6 to 9.
const TWO_LOCKS: [[Call; 4]; 4] = [
    [
        send!(2048, 6, 1),
        recv!(2048, 7),
        send!(2048, 6, 1),
        recv!(2048, 7),
    ],
    [
        send!(4096, 8, 2),
        recv!(4096, 9),
        send!(4096, 8, 2),
        recv!(4096, 9),
    ],
    [
        recv!(6144, 6),
        recv!(6144, 8),
        send!(6144, 9, 0),
        send!(6144, 7, 0),
    ],
    [
        recv!(8192, 8),
        recv!(8192, 6),
        send!(8192, 7, 0),
        send!(8192, 9, 0),
    ],
];

/// So many calls there are, and one more.
const COUNT: usize = 17;

/// What the orders give that begin with calls of these clients, as far as the limit on states lets them go; `None` if it was
/// out of memory.
fn explored(alloc: Global, first: &[usize], limit: u64) -> Option<Explored> {
    let mut calls = Vec::new(alloc);
    for of_client in TWO_LOCKS {
        calls.push(Vec::from_slice(alloc, &of_client).ok()?).ok()?;
    }
    let plan = BootPlan::new::<Wide>(16, 4, 4, 4, Vec::new(alloc)).ok()?;
    let kernel = Kernel::<Wide, RowStore<Wide>, RowWaiters<Wide>>::boot(alloc, &plan).ok()?;
    explore(alloc, calls.as_slice(), &kernel, first, limit, COUNT).ok()
}

/// Whether the orders have as many calls as wanted, and so many states are left to go on from; `None` if it was out of memory.
pub fn orders(alloc: Global) -> Option<bool> {
    let limited = explored(alloc, &[], 60)?;
    let behind = explored(alloc, &[0, 1], 1000)?;
    Some(
        (limited.calls, limited.layer.nodes().len()) == (6, 18)
            && (behind.calls, behind.layer.nodes().len()) == (15, 0),
    )
}
