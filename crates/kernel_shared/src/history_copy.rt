//! What both copies of a book do, whatever store and waiters they stand over.
use crate::query::{Answer, Query};
use crate::request::Request;
use crate::{Entry, Naming};
use left_right::Absorb;

/// A copy of a book: its state is the history, and a request is taken as a book takes a call. None of its calls takes
/// memory.
pub trait HistoryCopy<N: Naming>: Absorb<Request, State = [Entry; 0]> + Drop {
    ghost use Rattle.std.specs.Prelude.{◌≡◌, ◌↔◌, IsTrue, List, length, slice_get};
    ghost use Rattle.kernel_shared.specs.declared.entry.Entry.{Entry};
    ghost use Rattle.kernel_shared.specs.Laws.{Lawful, count_of};
    ghost use Rattle.kernel_shared.specs.declared.request.Request.{Request};
    ghost use Rattle.kernel_shared.specs.Answers.{IsAnswer};
    ghost use Rattle.kernel_shared.specs.Taking.{taken};

    /// How many entries the history has.
    fn length(&self) -> u32
        ensures { result ≡ length (Self.state self.now) };

    /// Whether the history has as many entries as it may.
    fn is_full(&self) -> bool
        ensures { IsTrue result ↔ (length (Self.state self.now) ≡ N.limit) };

    /// How many entries a client has.
    fn made_by(&self, client: u32) -> usize
        ensures { result ≡ count_of client (Self.state self.now) };

    /// The entry at a place of the history.
    fn entry(&self, place: u32) -> Option<Entry>
        ensures { result ≡ slice_get (Self.state self.now) place };

    /// The value of a query after the whole history.
    fn answer(&self, query: Query) -> Answer
        ensures { IsAnswer N.profile N.opening (Self.state self.now) query result };

    /// Nothing is done: a caller learns that every copy's history is lawful.
    fn assert_lawful(&self)
        ensures { ∥ Lawful N.profile N.opening (Self.state self.now) ∥₁ };

    ghost applies: { (h : List Entry) (r : Request) → Self.applied h r ≡ taken N.profile N.start N.limit h r };

    ghost sure: { Self.never_fails };
}
