//! The threads of a kernel, and what ends of them with an object.
ghost use Rattle.std.specs.Prelude.{◌≡◌, ◌*◌, ◌^◌, ◌≤◌, length, IsSome};
ghost use Rattle.std.specs.FinMap.{get};
ghost use Rattle.cap_core.specs.declared.limits.TheConstants.{MAX_MEMORY_BITS};
ghost use Rattle.cap_core.specs.Numbers.{tcb_size};
ghost use Rattle.ipc_core.specs.Waits.{IsEndpointAddress, IsThreadAddress};
ghost use Rattle.ipc_core.specs.Cancelled.{after_cancel_thread};
ghost use Rattle.kernel_core.specs.Rows.{rows_map};
ghost use Rattle.kernel_core.specs.Private.NewRows.{with_stopped};
ghost use Rattle.kernel_core.specs.Private.Ended.{AreLeft, HaveEnded, is_endpoint_at, is_thread_at};
ghost use Rattle.kernel_core.specs.Evidence.EndedLaws.{nothing_ended, ended_twice};

use crate::addresses::{is_endpoint_address, is_thread_address};
use crate::rows::{ThreadRow, ThreadRows};
use cap_core::{Cap, Profile};
use ipc_core::Waiters;
use kernel_delete::Finalise;
use std::marker::PhantomData;

/// The threads that wait, and a row for each thread control block of the memory.
#[derive(Drop)]
pub struct Threads<P: Profile, W: Waiters<P>> {
    pub waiters: W,
    pub rows: ThreadRows,
    pub memory_bits: u32,
    pub of: PhantomData<P>,
    ghost memory: { W.memory_bits waiters ≡ memory_bits },
    ghost most: { memory_bits ≤ MAX_MEMORY_BITS },
    ghost fill: { length rows * tcb_size P.profile ≡ 2 ^ memory_bits },
}

impl<P: Profile, W: Waiters<P>> Threads<P, W> {
    /// A thread waits no more, and is inactive or not. What was delivered to it last stays.
    #[inline(never)]
    pub fn stop(&mut self, thread: u64, inactive: bool)
        requires { IsSome (get (rows_map (tcb_size P.profile) self.old.rows) thread) }
        ensures waits { W.waits self.new.waiters ≡ after_cancel_thread thread (W.waits self.old.waiters) }
        ensures rows { rows_map (tcb_size P.profile) self.new.rows ≡
            with_stopped thread inactive (rows_map (tcb_size P.profile) self.old.rows) }
        ensures memory { self.new.memory_bits ≡ self.old.memory_bits }
    {
        self.waiters.cancel_thread(thread);
        if let Some(row) = self.rows.row_at::<P>(thread) {
            let stopped = ThreadRow {
                inactive,
                inbox: row.inbox,
            };
            self.rows.set_row::<P>(thread, stopped);
        }
    }

    /// Nobody waits on an endpoint that ended.
    fn end_endpoint(&mut self, endpoint: u64)
        ensures { IsEndpointAddress P.profile self.old.memory_bits endpoint →
            AreLeft P.profile (is_endpoint_at endpoint) self.old.memory_bits self.new.memory_bits
            self.old.rows self.new.rows (W.waits self.old.waiters) (W.waits self.new.waiters) }
    {
        if is_endpoint_address::<P>(self.memory_bits, endpoint) {
            self.waiters.cancel_endpoint(endpoint);
        }
    }

    /// A thread that ended waits nowhere, and has no row.
    fn end_thread(&mut self, tcb: u64)
        ensures { IsThreadAddress P.profile self.old.memory_bits tcb →
            AreLeft P.profile (is_thread_at tcb) self.old.memory_bits self.new.memory_bits
            self.old.rows self.new.rows (W.waits self.old.waiters) (W.waits self.new.waiters) }
    {
        if is_thread_address::<P>(self.memory_bits, tcb) {
            self.waiters.cancel_thread(tcb);
            let place = (tcb >> P::TCB_BITS) as usize;
            self.rows.remove(place);
        }
    }
}

impl<P: Profile, W: Waiters<P>> Finalise for Threads<P, W> {
    ghost Ended = { λ ended old new. HaveEnded P.profile ended old.memory_bits new.memory_bits
        old.rows new.rows (W.waits old.waiters) (W.waits new.waiters) };

    ghost none_ended = { λ w. nothing_ended P.profile w.memory_bits w.rows (W.waits w.waiters) };

    ghost both_ended = { λ p q u v w first then. ended_twice P.profile p q u.memory_bits v.memory_bits w.memory_bits
        u.rows v.rows w.rows (W.waits u.waiters) (W.waits v.waiters) (W.waits w.waiters) first then };

    fn finalise(&mut self, cap: Cap) {
        match cap {
            Cap::Endpoint { base, .. } => self.end_endpoint(base),
            Cap::Tcb { base } => self.end_thread(base),
            Cap::Null | Cap::Untyped { .. } | Cap::CNode { .. } => {}
        }
    }
}
