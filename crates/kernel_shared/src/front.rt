//! A beginning of the history.
ghost use Rattle.std.specs.Prelude.{◌≡◌, ◌≤◌, length, take};
ghost use Rattle.kernel_shared.specs.Laws.{Lawful};
ghost use Rattle.kernel_shared.specs.Readers.{seen_of};

use crate::Naming;
use crate::history_copy::HistoryCopy;
use crate::rule::{Published, View};
use left_right::reader::Reader;
use std::marker::{Model, PhantomData};
use std::snapshot::Snapshot;

/// A lawful beginning of the history, of which only the length is kept. Contracts see it as its entries.
#[derive(Drop)]
pub struct Front<N: Naming, T: HistoryCopy<N>> {
    entries: u32,
    of: Snapshot<Option<Reader<T, View, Published>>>,
    named: PhantomData<N>,
}

impl<N: Naming, T: HistoryCopy<N>> Model for Front<N, T> {
    ghost use Rattle.std.specs.Prelude.{List, take, length, ◌≤◌};
    ghost use Rattle.kernel_shared.specs.declared.entry.Entry.{Entry};
    ghost use Rattle.kernel_shared.specs.Laws.{Lawful};
    ghost use Rattle.kernel_shared.specs.Readers.{seen_of};

    ghost Value = { List Entry };

    ghost view = { λ f. take f.entries (seen_of f.of.value) };

    ghost invariant = { λ f. (f.entries ≤ length (seen_of f.of.value)) × ∥ Lawful N.profile N.opening (seen_of f.of.value) ∥₁ };
}

impl<N: Naming, T: HistoryCopy<N>> Front<N, T> {
    /// So many of the entries that a reader saw.
    pub fn of(reader: &Option<Reader<T, View, Published>>, entries: u32) -> Front<N, T>
        requires within { entries ≤ length (seen_of reader.now) }
        requires lawful { ∥ Lawful N.profile N.opening (seen_of reader.now) ∥₁ }
        ensures { result ≡ take entries (seen_of reader.now) }
    {
        Front {
            entries,
            of: Snapshot::of(reader),
            named: PhantomData,
        }
    }

    /// How many entries it has. It takes no memory.
    pub fn length(&self) -> u32
        ensures count { result ≡ length self.now }
    {
        self.entries
    }
}
