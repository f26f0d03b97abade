//! Waiting threads as queues inside tables.
ghost use Rattle.std.specs.Prelude.{◌*◌, ◌^◌, ◌≤◌, length};
ghost use Rattle.cap_core.specs.Numbers.{tcb_size, endpoint_size};
ghost use Rattle.ipc_core.specs.Agreement.{AreAlike};
ghost use Rattle.ipc_core.specs.Representation.Linked.{IsLinked, waits_in};
ghost use Rattle.ipc_core.specs.Evidence.TablesAgree.{tables_agree};
ghost use Rattle.ipc_core.specs.Evidence.Alike.{linked-prop, alike-prop};

use crate::tables::{EndpointRow, QueueRow, Tables};
use crate::waiter::{Offer, Received, Role, Sent};
use crate::waiters::{MakeWaiters, SaveWaiters, Waiters};
use cap_core::{Badge, Message, Profile};
use std::alloc::{AllocError, Global};
use std::marker::PhantomData;

/// The threads that wait, each in a row of its own that names the threads before and after it.
///
/// There is a row for every thread and for every endpoint of the memory from the first, so that no call takes memory.
/// `send`, `recv` and `cancel_thread` look at a few rows, however many threads wait.
#[derive(Drop)]
pub struct LinkedWaiters<P: Profile> {
    tables: Tables,
    memory_bits: u32,
    profile: PhantomData<P>,
    ghost linked: { IsLinked P.profile tables } by { linked-prop P.profile tables },
    ghost alike: { AreAlike (waits_in P.profile tables) } by { alike-prop (waits_in P.profile tables) },
    ghost threads: { 2 ^ memory_bits ≤ length tables.threads.items * tcb_size P.profile },
    ghost endpoints: { 2 ^ memory_bits ≤ length tables.endpoints.items * endpoint_size P.profile },
}

impl<P: Profile> Waiters<P> for LinkedWaiters<P> {
    ghost waits = { λ w. waits_in P.profile w.tables };

    ghost memory_bits = { λ w. w.memory_bits };

    ghost agree = { λ w. tables_agree P.profile w.tables w.linked w.alike };

    #[inline]
    fn send(
        &mut self,
        endpoint: u64,
        thread: u64,
        badge: Badge,
        message: Message,
        block: bool,
    ) -> Sent {
        match self.tables.first_receiver::<P>(endpoint) {
            Some(to) => {
                self.tables.take_out::<P>(to);
                Sent::Delivered { to }
            },
            None if block => {
                let row = QueueRow::sending(endpoint, badge, message);
                self.tables.wait_last::<P>(endpoint, thread, row);
                Sent::Waiting
            },
            None => Sent::Dropped,
        }
    }

    #[inline]
    fn recv(&mut self, endpoint: u64, thread: u64, block: bool) -> Received {
        match self.tables.first_sender::<P>(endpoint) {
            Some(offer) => {
                self.tables.take_out::<P>(offer.thread);
                Received::Delivered {
                    from: offer.thread,
                    badge: offer.badge,
                    message: offer.message,
                }
            },
            None if block => {
                let row = QueueRow::receiving(endpoint);
                self.tables.wait_last::<P>(endpoint, thread, row);
                Received::Waiting
            },
            None => Received::Empty,
        }
    }

    fn cancel_thread(&mut self, thread: u64) {
        self.tables.take_out::<P>(thread);
    }

    fn cancel_badge(&mut self, endpoint: u64, badge: Badge) {
        self.tables.cancel_badge::<P>(endpoint, badge);
    }

    fn cancel_endpoint(&mut self, endpoint: u64) {
        self.tables.cancel_endpoint::<P>(endpoint);
    }

    fn role(&self, thread: u64) -> Option<Role> {
        self.tables.thread::<P>(thread).role
    }

    fn offer(&self, thread: u64) -> Option<Offer> {
        self.tables.thread::<P>(thread).offer(thread)
    }

    fn waiting(&self, endpoint: u64, place: u64) -> Option<u64> {
        self.tables.waiting_at::<P>(endpoint, place)
    }

    fn next_waiting(&self, thread: u64) -> Option<u64> {
        self.tables.next_waiting::<P>(thread)
    }
}

impl<P: Profile> MakeWaiters<P> for LinkedWaiters<P> {
    fn new(alloc: Global, memory_bits: u32) -> Result<Self, AllocError> {
        let threads = 1usize << (memory_bits - P::TCB_BITS);
        let endpoints = 1usize << (memory_bits - P::ENDPOINT_BITS);
        let idle = EndpointRow {
            first: None,
            last: None,
        };
        let tables = Tables {
            threads: vec![in alloc; QueueRow::free(); threads]?,
            endpoints: vec![in alloc; idle; endpoints]?,
        };
        Ok(LinkedWaiters {
            tables,
            memory_bits,
            profile: PhantomData,
        })
    }

    fn copy(&self, alloc: Global) -> Result<Self, AllocError> {
        let tables = Tables {
            threads: Vec::from_slice(alloc, &self.tables.threads)?,
            endpoints: Vec::from_slice(alloc, &self.tables.endpoints)?,
        };
        Ok(LinkedWaiters {
            tables,
            memory_bits: self.memory_bits,
            profile: PhantomData,
        })
    }
}

impl<P: Profile> SaveWaiters<P> for LinkedWaiters<P> {
    type Saved = LinkedWaiters<P>;

    ghost saved_waits = { λ w. waits_in P.profile w.tables };

    ghost saved_memory = { λ w. w.memory_bits };

    fn copy_into(&self, spare: Self) -> Result<Self, AllocError> {
        let Tables {
            mut threads,
            mut endpoints,
        } = spare.tables;
        threads.clear();
        threads.extend_from_slice(&self.tables.threads)?;
        endpoints.clear();
        endpoints.extend_from_slice(&self.tables.endpoints)?;
        Ok(LinkedWaiters {
            tables: Tables { threads, endpoints },
            memory_bits: self.memory_bits,
            profile: PhantomData,
        })
    }

    fn save(&self, alloc: Global) -> Result<LinkedWaiters<P>, AllocError> {
        self.copy(alloc)
    }

    fn restore(saved: &LinkedWaiters<P>, spare: Self) -> Result<Self, AllocError> {
        saved.copy_into(spare)
    }
}
