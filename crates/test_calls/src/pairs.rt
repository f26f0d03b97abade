//! The check of a set-up over a pair of a capability store and a store of waiting threads.
use crate::stored::input;
use cap_core::{Narrow, Wide};
use command_check::{Answer, WriterSink, text_of, write_all};
use ipc_core::{LinkedWaiters, RowWaiters};
use slot_core::{LinkedStore, RowStore};
use std::alloc::{AllocError, Global};
use std::io::{self, Input};

/// A capability store and a store of waiting threads.
#[derive(Clone, Copy, Drop)]
pub enum Pair {
    /// The list inside a table, and the queues inside tables.
    Linked,
    /// The plain rows, twice.
    Rows,
    /// The list inside a table, and the plain rows of waiting threads.
    LinkedStoreRowWaiters,
    /// The plain rows of capabilities, and the queues inside tables.
    RowStoreLinkedWaiters,
}

impl Pair {
    /// The pair of the stores with these names.
    pub fn named(store: &str, waiters: &str) -> Option<Pair> {
        match (store, waiters) {
            ("LinkedStore", "LinkedWaiters") => Some(Pair::Linked),
            ("RowStore", "RowWaiters") => Some(Pair::Rows),
            ("LinkedStore", "RowWaiters") => Some(Pair::LinkedStoreRowWaiters),
            ("RowStore", "LinkedWaiters") => Some(Pair::RowStoreLinkedWaiters),
            _ => None,
        }
    }

    /// What is written for a set-up's bytes over this pair, in the profile of the set-up, and the verdict.
    fn run(self, alloc: Global, setup: &[u8]) -> Result<Answer, AllocError> {
        match self {
            Pair::Linked => text_of::<
                LinkedStore<Wide>,
                LinkedWaiters<Wide>,
                LinkedStore<Narrow>,
                LinkedWaiters<Narrow>,
            >(alloc, setup),
            Pair::Rows => text_of::<
                RowStore<Wide>,
                RowWaiters<Wide>,
                RowStore<Narrow>,
                RowWaiters<Narrow>,
            >(alloc, setup),
            Pair::LinkedStoreRowWaiters => text_of::<
                LinkedStore<Wide>,
                RowWaiters<Wide>,
                LinkedStore<Narrow>,
                RowWaiters<Narrow>,
            >(alloc, setup),
            Pair::RowStoreLinkedWaiters => text_of::<
                RowStore<Wide>,
                LinkedWaiters<Wide>,
                RowStore<Narrow>,
                LinkedWaiters<Narrow>,
            >(alloc, setup),
        }
    }

    /// Writes what is written for the set-up on standard input over this pair, and answers the exit status of that.
    pub fn check_input<R: Input + Print + AllocGlobal>(self, rt: &R) -> anyhow::Result<u8> {
        let setup = input(rt)?;
        let answer = self.run(rt.alloc(), setup.as_slice())?;
        write_all(&mut WriterSink::new(io::writer(rt)), answer.text.as_slice())?;
        Ok(answer.verdict.status())
    }
}
