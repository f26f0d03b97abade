//! One of the two copies of a book.
ghost use Rattle.std.specs.Prelude.{◌≡◌, refl};
ghost use Rattle.kernel_shared.specs.Laws.{Begins};
ghost use Rattle.kernel_shared.specs.Taking.{taken};

use crate::history_copy::HistoryCopy;
use crate::query::{Answer, Query};
use crate::request::Request;
use crate::{Book, Entry, Naming};
use cap_core::Profile;
use ipc_core::Waiters;
use left_right::Absorb;
use slot_core::CapStore;
use std::alloc::AllocError;
use std::marker::Model;

/// A book whose opening stands for the state that its name names. Contracts see its history.
#[derive(Drop)]
pub struct BookCopy<N: Naming, P: Profile, S: CapStore<P> + Drop, W: Waiters<P> + Drop> {
    book: Book<N, P, S, W>,
}

impl<N: Naming, P: Profile, S: CapStore<P> + Drop, W: Waiters<P> + Drop> Model
    for BookCopy<N, P, S, W> {
    ghost use Rattle.std.specs.Prelude.{◌≡◌, List};
    ghost use Rattle.kernel_shared.specs.declared.entry.Entry.{Entry};
    ghost use Rattle.kernel_shared.specs.Laws.{Begins};

    ghost Value = { List Entry };

    ghost view = { λ s. s.book.history.items };

    ghost invariant = { λ s. ∥ Begins P.profile N.start N.opening ∥₁ × (N.profile ≡ P.profile) };
}

impl<N: Naming, P: Profile, S: CapStore<P> + Drop, W: Waiters<P> + Drop> Absorb<Request>
    for BookCopy<N, P, S, W> {
    // A clause reads an array as a list, of any length.
    type State = [Entry; 0];

    ghost state = { λ s. s };

    ghost applied = { taken N.profile N.start N.limit };

    ghost never_fails = { Unit {0} };

    fn absorb_first(
        &mut self,
        operation: &Request,
        _other: &BookCopy<N, P, S, W>,
    ) -> Result<(), AllocError> {
        let _ = self
            .book
            .take(operation.client, operation.number, operation.call);
        Ok(())
    }
}

impl<N: Naming, P: Profile, S: CapStore<P> + Drop, W: Waiters<P> + Drop> BookCopy<N, P, S, W> {
    /// A book as a copy.
    pub fn new(book: Book<N, P, S, W>) -> BookCopy<N, P, S, W>
        requires begins { ∥ Begins P.profile N.start N.opening ∥₁ }
        requires profile { N.profile ≡ P.profile }
        ensures { result ≡ book.history.items }
    {
        BookCopy { book }
    }

    /// The book.
    pub fn into_book(self) -> Book<N, P, S, W>
        ensures { result.history.items ≡ self }
    {
        let BookCopy { book } = self;
        book
    }
}

impl<N: Naming, P: Profile, S: CapStore<P> + Drop, W: Waiters<P> + Drop> HistoryCopy<N>
    for BookCopy<N, P, S, W> {
    fn length(&self) -> u32 {
        self.book.length()
    }

    fn is_full(&self) -> bool {
        self.book.is_full()
    }

    fn made_by(&self, client: u32) -> usize {
        self.book.made_by(client)
    }

    fn entry(&self, place: u32) -> Option<Entry> {
        self.book.entry(place)
    }

    fn answer(&self, query: Query) -> Answer {
        let kernel = self.book.kernel();
        match query {
            Query::Length => Answer::Length(self.book.length()),
            Query::Entry(place) => Answer::Entry(self.book.entry(place)),
            Query::State(tcb) => Answer::State(kernel.thread_state(tcb)),
            Query::InboxOf(tcb) => Answer::InboxOf(kernel.inbox(tcb)),
            Query::CapAt(slot) => Answer::CapAt(kernel.cap_at(slot)),
            Query::WaitingAt(endpoint, place) => {
                Answer::WaitingAt(kernel.waiting(endpoint, place))
            }
        }
    }

    fn assert_lawful(&self) {
        let _ = &self.book;
    }

    ghost applies = { λ h r. refl };

    ghost sure = { tt };
}
