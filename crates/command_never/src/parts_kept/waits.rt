//! Who waits on an endpoint, to send or to receive.
ghost use Rattle.std.specs.Prelude.{◌≡◌, IfOk};
ghost use Rattle.std.specs.List.{filter_map};
ghost use Rattle.command_never.specs.Waits as spec;

use cap_core::Profile;
use ipc_core::Waiters;
use kernel_core::{Kernel, ThreadState};
use list_questions::{Finds, all_found};
use slot_core::CapStore;
use std::alloc::{AllocError, Global};

/// A thread that waits on an endpoint: to send if `sends` is set, and else to receive.
#[derive(Clone, Copy)]
pub struct Wait {
    pub thread: u64,
    pub endpoint: u64,
    pub sends: bool,
}

/// Whether a thread waits, and where.
#[derive(Drop)]
struct WaitOf<'a, P: Profile, S: CapStore<P> + Drop, W: Waiters<P> + Drop> {
    kernel: &'a Kernel<P, S, W>,
}

impl<P: Profile, S: CapStore<P> + Drop, W: Waiters<P> + Drop> Finds<u64, Wait>
    for WaitOf<'_, P, S, W> {
    ghost found = { λ f thread. spec.wait_of f.kernel.now thread };

    fn find(&self, thread: &u64) -> Option<Wait> {
        let thread = *thread;
        match self.kernel.thread_state(thread) {
            Some(ThreadState::Sending(endpoint)) => Some(Wait {
                thread,
                endpoint,
                sends: true,
            }),
            Some(ThreadState::Receiving(endpoint)) => Some(Wait {
                thread,
                endpoint,
                sends: false,
            }),
            Some(ThreadState::Ready) | Some(ThreadState::Inactive) | None => None,
        }
    }
}

/// Those of some threads that wait.
pub fn waits<P: Profile, S: CapStore<P> + Drop, W: Waiters<P> + Drop>(
    alloc: Global,
    kernel: &Kernel<P, S, W>,
    threads: &[u64],
) -> Result<Vec<Wait>, AllocError>
    ensures { IfOk result (λ v. v.items ≡ filter_map (spec.wait_of kernel.now) threads.now) }
{
    all_found(alloc, threads, &WaitOf { kernel })
}
