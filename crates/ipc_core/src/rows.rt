//! Waiting threads as rows.
ghost use Rattle.std.specs.Prelude.{◌*◌, ◌^◌, ◌≤◌, vec_capacity};
ghost use Rattle.cap_core.specs.Numbers.{tcb_size};
ghost use Rattle.ipc_core.specs.Agreement.{AreAlike};
ghost use Rattle.ipc_core.specs.Representation.Rows.{waits_of, AreDistinct, ArePlaced};
ghost use Rattle.ipc_core.specs.Evidence.RowsAgree.{rows_agree};
ghost use Rattle.ipc_core.specs.Evidence.Alike.{alike-prop};

use crate::row::{
    WaitRow, first_receiver, first_sender, next_waiting, push_row, remove_first, row_of, waiter_at,
};
use crate::waiter::{Offer, Received, Role, Sent, Waiter};
use crate::waiters::{MakeWaiters, SaveWaiters, Waiters};
use cap_core::{Badge, Message, Profile};
use std::alloc::{AllocError, Global};
use std::marker::PhantomData;

/// The threads that wait, a row each, in the order of waiting.
///
/// There is room for every thread of the memory from the first, so that no call takes memory.
#[derive(Drop)]
pub struct RowWaiters<P: Profile> {
    rows: Vec<WaitRow>,
    memory_bits: u32,
    profile: PhantomData<P>,
    ghost distinct: { AreDistinct rows.items },
    ghost placed: { ArePlaced P.profile memory_bits rows.items },
    ghost alike: { AreAlike (waits_of rows.items) } by { alike-prop (waits_of rows.items) },
    ghost room: { 2 ^ memory_bits ≤ vec_capacity rows * tcb_size P.profile },
}

/// The threads that wait, a row each, in the order of waiting, and how many there is room for.
#[derive(Drop)]
pub struct SavedRows<P: Profile> {
    rows: Vec<WaitRow>,
    room: usize,
    memory_bits: u32,
    profile: PhantomData<P>,
    ghost distinct: { AreDistinct rows.items },
    ghost placed: { ArePlaced P.profile memory_bits rows.items },
    ghost alike: { AreAlike (waits_of rows.items) } by { alike-prop (waits_of rows.items) },
    ghost fits: { 2 ^ memory_bits ≤ room * tcb_size P.profile },
}

impl<P: Profile> Waiters<P> for RowWaiters<P> {
    ghost waits = { λ w. waits_of w.rows.items };

    ghost memory_bits = { λ w. w.memory_bits };

    ghost agree = { λ w. rows_agree w.rows.items w.distinct w.alike };

    fn send(
        &mut self,
        endpoint: u64,
        thread: u64,
        badge: Badge,
        message: Message,
        block: bool,
    ) -> Sent {
        match first_receiver(&self.rows, endpoint) {
            Some(to) => {
                remove_first(&mut self.rows, endpoint);
                Sent::Delivered { to }
            },
            None if block => {
                let waiter = Waiter::Sender {
                    thread,
                    badge,
                    message,
                };
                push_row(&mut self.rows, WaitRow { endpoint, waiter });
                Sent::Waiting
            },
            None => Sent::Dropped,
        }
    }

    fn recv(&mut self, endpoint: u64, thread: u64, block: bool) -> Received {
        match first_sender(&self.rows, endpoint) {
            Some(offer) => {
                remove_first(&mut self.rows, endpoint);
                Received::Delivered {
                    from: offer.thread,
                    badge: offer.badge,
                    message: offer.message,
                }
            },
            None if block => {
                let waiter = Waiter::Receiver { thread };
                push_row(&mut self.rows, WaitRow { endpoint, waiter });
                Received::Waiting
            },
            None => Received::Empty,
        }
    }

    fn cancel_thread(&mut self, thread: u64) {
        self.rows.retain(|row| row.waiter.thread() != thread);
    }

    fn cancel_badge(&mut self, endpoint: u64, badge: Badge) {
        self.rows.retain(|row| row.endpoint != endpoint || !row.waiter.is_sender_with(badge));
    }

    fn cancel_endpoint(&mut self, endpoint: u64) {
        self.rows.retain(|row| row.endpoint != endpoint);
    }

    fn role(&self, thread: u64) -> Option<Role> {
        let row = row_of(&self.rows, thread)?;
        Some(row.waiter.role_at(row.endpoint))
    }

    fn offer(&self, thread: u64) -> Option<Offer> {
        row_of(&self.rows, thread)?.waiter.offer()
    }

    fn waiting(&self, endpoint: u64, place: u64) -> Option<u64> {
        let waiter = waiter_at(&self.rows, endpoint, place as usize)?;
        Some(waiter.thread())
    }

    fn next_waiting(&self, thread: u64) -> Option<u64> {
        next_waiting(&self.rows, thread)
    }
}

impl<P: Profile> MakeWaiters<P> for RowWaiters<P> {
    fn new(alloc: Global, memory_bits: u32) -> Result<Self, AllocError> {
        let threads = 1usize << (memory_bits - P::TCB_BITS);
        Ok(RowWaiters {
            rows: Vec::with_capacity(alloc, threads)?,
            memory_bits,
            profile: PhantomData,
        })
    }

    fn copy(&self, alloc: Global) -> Result<Self, AllocError> {
        let mut rows = Vec::with_capacity(alloc, self.rows.capacity())?;
        rows.extend_from_slice(&self.rows)?;
        Ok(RowWaiters {
            rows,
            memory_bits: self.memory_bits,
            profile: PhantomData,
        })
    }
}

impl<P: Profile> SaveWaiters<P> for RowWaiters<P> {
    type Saved = SavedRows<P>;

    ghost saved_waits = { λ w. waits_of w.rows.items };

    ghost saved_memory = { λ w. w.memory_bits };

    fn copy_into(&self, spare: Self) -> Result<Self, AllocError> {
        let mut rows = spare.rows;
        rows.clear();
        rows.reserve_exact(self.rows.capacity())?;
        rows.extend_from_slice(self.rows.as_slice())?;
        Ok(RowWaiters {
            rows,
            memory_bits: self.memory_bits,
            profile: PhantomData,
        })
    }

    fn save(&self, alloc: Global) -> Result<SavedRows<P>, AllocError> {
        Ok(SavedRows {
            rows: Vec::from_slice(alloc, &self.rows)?,
            room: self.rows.capacity(),
            memory_bits: self.memory_bits,
            profile: PhantomData,
        })
    }

    fn restore(saved: &SavedRows<P>, spare: Self) -> Result<Self, AllocError> {
        let mut rows = spare.rows;
        rows.clear();
        rows.reserve_exact(saved.room)?;
        rows.extend_from_slice(saved.rows.as_slice())?;
        Ok(RowWaiters {
            rows,
            memory_bits: saved.memory_bits,
            profile: PhantomData,
        })
    }
}
