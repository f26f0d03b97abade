//! A kernel, and the history of the calls that led to it.
ghost use Rattle.std.specs.Prelude.{◌≡◌, ◌≢◌, ◌<◌, ◌≤◌, ◌↔◌, ◌++◌, ◌∷◌, [], Ok, Err, IsTrue, IfOk, OnErr, length, slice_get, slice_index, cond, ℕ, ◌==◌, vec_len, vec_capacity};
ghost use Rattle.cap_core.specs.declared.limits.TheConstants.{MAX_CLIENTS};
ghost use Rattle.kernel_abstract.specs.State.{State, shown};
ghost use Rattle.kernel_abstract.specs.Step.{step};
ghost use Rattle.kernel_abstract.specs.Reached.{IsReached};
ghost use Rattle.kernel_shared.specs.Laws.{Lawful, StandsAfter, AreCounts, client_entry, count_of};

use crate::entry::Entry;
use crate::naming::Naming;
use cap_core::Profile;
use cap_core::limits::MAX_CLIENTS;
use ipc_core::Waiters;
use kernel_abstract::{Call, Reply};
use kernel_core::Kernel;
use slot_core::CapStore;
use std::alloc::{AllocError, Global};
use std::marker::PhantomData;

/// How many clients a set-up can name, and so the length of the table of counts.
const COUNTED: usize = MAX_CLIENTS as usize;

/// Why a book does not take a call.
#[derive(Debug, Clone, Copy, PartialEq, Eq, Drop)]
pub enum BookFault {
    /// The history has as many entries as it may.
    Full,
    /// The call's number is not how many entries its client has.
    NameTaken,
}

/// A kernel, and the history of the calls that led to it from its opening. At every moment the history is lawful, and the
/// kernel stands for the state after it.
#[derive(Drop)]
pub struct Book<N: Naming, P: Profile, S: CapStore<P> + Drop, W: Waiters<P> + Drop> {
    pub kernel: Kernel<P, S, W>,
    pub history: Vec<Entry>,
    /// How many entries each client has that a set-up can name.
    counts: [u32; COUNTED],
    limit: u32,
    of: PhantomData<N>,
    pub ghost lawful: { ∥ Lawful P.profile N.opening history.items ∥₁ },
    pub ghost stands: { ∥ StandsAfter P.profile N.opening history.items kernel ∥₁ },
    pub ghost limited: { limit ≡ N.limit },
    pub ghost short: { vec_len history ≤ limit },
    ghost room: { limit ≤ vec_capacity history },
    ghost counted: { AreCounts counts history.items },
}

impl<N: Naming, P: Profile, S: CapStore<P> + Drop, W: Waiters<P> + Drop> Book<N, P, S, W> {
    /// A kernel at its opening, with no history yet and room for `limit` entries.
    pub fn open(
        alloc: Global,
        kernel: Kernel<P, S, W>,
        limit: u32,
    ) -> Result<Book<N, P, S, W>, AllocError>
        requires opening { kernel ≡ N.opening }
        requires limit { limit ≡ N.limit }
        ensures history { IfOk result (λ b. b.history.items ≡ []) }
        ensures kernel { IfOk result (λ b. b.kernel ≡ kernel) }
    {
        let history = Vec::with_capacity(alloc, limit as usize)?;
        Ok(Book {
            kernel,
            history,
            counts: [0; COUNTED],
            limit,
            of: PhantomData,
        })
    }

    /// How many entries the history has. It takes no memory.
    pub fn length(&self) -> u32
        ensures { result ≡ vec_len self.now.history }
    {
        let _limit = self.limit;
        self.history.len() as u32
    }

    /// The entry at a place of the history, 0 the first; `None` past its end. It takes no memory.
    pub fn entry(&self, place: u32) -> Option<Entry>
        ensures { result ≡ slice_get self.now.history.items place }
    {
        self.history.get(place as usize).copied()
    }

    /// The kernel. It takes no memory.
    pub fn kernel(&self) -> &Kernel<P, S, W>
        ensures { result.now ≡ self.now.kernel }
    {
        &self.kernel
    }

    /// Whether the history has as many entries as it may. It takes no memory.
    pub fn is_full(&self) -> bool
        ensures { IsTrue result ↔ (length self.now.history.items ≡ N.limit) }
    {
        self.history.len() == self.limit as usize
    }

    /// How many entries a client has. For clients below `MAX_CLIENTS` it takes no longer in a longer history. It takes no
    /// memory.
    pub fn made_by(&self, client: u32) -> usize
        ensures { result ≡ count_of client self.now.history.items }
    {
        if client < MAX_CLIENTS {
            self.counts[client as usize] as usize
        } else {
            self.history.iter().filter(|e| e.client == client).count()
        }
    }

    /// Takes a call of a client, under the client's number for it: the kernel makes the step, and the history has one more
    /// entry with the reply. It takes no memory.
    ///
    /// # Errors
    ///
    /// - `Full` where the history has `limit` entries;
    /// - else `NameTaken` where the number is not how many entries the client has.
    ///
    /// Neither changes anything.
    pub fn take(&mut self, client: u32, number: u32, call: Call) -> Result<Reply, BookFault>
        ensures full { (result ≡ Err BookFault.Full) ↔ (length self.old.history.items ≡ N.limit) }
        ensures name_taken { (result ≡ Err BookFault.NameTaken) ↔ ((length self.old.history.items ≢ N.limit) × (number ≢ count_of client self.old.history.items)) }
        ensures ok { IfOk result (λ r. self.new.history.items ≡ self.old.history.items ++ client_entry client number call r ∷ []) }
        ensures reply { IfOk result (λ r. (A : State) → IsReached P.profile A → self.old.kernel ≡ shown A → r ≡ (step P.profile A call).reply) }
        ensures err { OnErr result ((self.new.history.items ≡ self.old.history.items) × (self.new.kernel ≡ self.old.kernel)) }
    {
        if self.history.len() == self.limit as usize {
            return Err(BookFault::Full);
        }
        let made = self.made_by(client);
        if made != number as usize {
            return Err(BookFault::NameTaken);
        }
        let Book {
            kernel,
            history,
            counts,
            ..
        } = self;
        let reply = kernel.step(call);
        history.push_reserved(Entry {
            client,
            number,
            call,
            reply,
        });
        set_count(counts, client, number + 1);
        Ok(reply)
    }
}

/// Keeps how many entries a client has, where it is one that a set-up can name.
fn set_count(counts: &mut [u32; COUNTED], client: u32, made: u32)
    ensures { (i : ℕ) → i < MAX_CLIENTS → slice_index counts.new i ≡ cond (i == client) made (slice_index counts.old i) }
{
    if client < MAX_CLIENTS {
        counts[client as usize] = made;
    }
}
