//! A history that grows by a call at a time.
ghost use Rattle.std.specs.Prelude.{◌≡◌, ◌<◌, ◌+◌, ◌^◌, ◌++◌, ◌∷◌, [], ◌==◌, true, ℕ, IfOk, OnOk, OnErr, cond, slice_index, vec_len};
ghost use Rattle.cap_core.specs.declared.limits.TheConstants.{MAX_CLIENTS};
ghost use Rattle.kernel_shared.specs.Laws.{AreCounts, count_of, client_entry, are_entries_numbered};

use cap_core::limits::MAX_CLIENTS;
use kernel_core::{Call, Reply};
use kernel_shared::Entry;
use std::alloc::{AllocError, Global};

/// How many clients a set-up can name, and so the length of the table of counts.
const COUNTED: usize = MAX_CLIENTS as usize;

/// A history that grows by a call at a time. Each client's entries are numbered from 0 on, in order.
#[derive(Drop)]
pub struct Numbered {
    pub entries: Vec<Entry>,
    /// How many entries each client has that a set-up can name.
    counts: [u32; COUNTED],
    pub ghost numbered: { are_entries_numbered [] entries.items ≡ true },
    ghost counted: { AreCounts counts entries.items },
}

impl Numbered {
    /// No entries yet, and room for so many.
    pub fn with_capacity(alloc: Global, room: usize) -> Result<Numbered, AllocError>
        ensures { IfOk result (λ n. n.entries.items ≡ []) }
    {
        let entries = Vec::with_capacity(alloc, room)?;
        Ok(Numbered {
            entries,
            counts: [0; COUNTED],
        })
    }

    /// How many entries a client has.
    fn made_by(&self, client: u32) -> usize
        ensures { result ≡ count_of client self.now.entries.items }
    {
        if client < MAX_CLIENTS {
            self.counts[client as usize] as usize
        } else {
            self.entries.iter().filter(|e| e.client == client).count()
        }
    }

    /// Adds a client's call with the reply to it.
    ///
    /// # Errors
    ///
    /// Memory was refused. Nothing changes then.
    pub fn push(&mut self, client: u32, call: Call, reply: Reply) -> Result<(), AllocError>
        requires room { vec_len self.old.entries + 1 < 2 ^ 32 }
        ensures entries { OnOk result (self.new.entries.items ≡ self.old.entries.items
            ++ client_entry client (count_of client self.old.entries.items) call reply ∷ []) }
        ensures err { OnErr result (self.new.entries.items ≡ self.old.entries.items) }
    {
        let number = self.made_by(client) as u32;
        let Numbered { entries, counts } = self;
        entries.reserve(1)?;
        entries.push_reserved(Entry {
            client,
            number,
            call,
            reply,
        });
        set_count(counts, client, number + 1);
        Ok(())
    }
}

/// Keeps how many entries a client has, if it is one that a set-up can name.
fn set_count(counts: &mut [u32; COUNTED], client: u32, made: u32)
    ensures { (i : ℕ) → i < MAX_CLIENTS → slice_index counts.new i ≡ cond (i == client) made (slice_index counts.old i) }
{
    if client < MAX_CLIENTS {
        counts[client as usize] = made;
    }
}
