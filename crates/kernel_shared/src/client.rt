//! A client: its calls are numbered, and it looks without waiting.
ghost use Rattle.std.specs.Prelude.{◌≡◌, ◌+◌, ◌≤◌, ◌<◌, ◌↔◌, ◌++◌, ◌∷◌, [], length, Some, None, slice_get, IfSome, IfNone, OnOk, IfErr, OnErr, IsTrue, ◌^◌, take};
ghost use Rattle.kernel_shared.specs.Laws.{Lawful, count_of, client_entry};
ghost use Rattle.kernel_shared.specs.Fronts.{StartsWith};
ghost use Rattle.kernel_shared.specs.Answers.{IsAnswer};
ghost use Rattle.kernel_shared.specs.ClientStates.{lost, made, client_state};
ghost use Rattle.kernel_shared.specs.Faults.{Told};
ghost use Rattle.left_right.specs.Sides.{view};
ghost use Rattle.kernel_abstract.specs.declared.call.Call.{Call};

use crate::fault::SharedFault;
use crate::front::Front;
use crate::history_copy::HistoryCopy;
use crate::query::{Answer, Query};
use crate::request::Request;
use crate::rule::{Published, SeesBook, View};
use crate::writer_state::{NotPublished, WriterState};
use crate::{Entry, Naming};
use kernel_abstract::{Call, Reply};
use left_right::reader::Reader;
use std::marker::Model;
use std::sync::Wait;
use std::sync::ledger::Share;

/// A call that was published and not found afterwards, and how many entries the client had seen when it missed it.
#[derive(Clone, Copy)]
pub struct Stray {
    pub call: Call,
    pub seen: u32,
}

/// A client of a shared kernel. It holds its share of the ledger of all calls that were made, and a reader of its own.
///
/// Contracts see it as its number, how many of its calls were answered, the front that it saw last, and the call that was
/// published and not found, where there is one.
#[derive(Drop)]
pub struct Client<N: Naming, T: HistoryCopy<N>> {
    id: u32,
    done: u32,
    share: Share<N>,
    reader: Option<Reader<T, View, Published>>,
    seen: u32,
    stray: Option<Stray>,
}

impl<N: Naming, T: HistoryCopy<N>> Model for Client<N, T> {
    ghost use Rattle.std.specs.Prelude.{take};
    ghost use Rattle.kernel_shared.specs.Readers.{seen_of};
    ghost use Rattle.kernel_shared.specs.ClientStates.{ClientState, client_state, lost_of, IsClient};

    ghost Value = { ClientState };

    ghost view = { λ c. client_state c.id c.done (take c.seen (seen_of c.reader)) (lost_of c.stray (seen_of c.reader)) };

    ghost invariant = { λ c. IsClient N.profile N.opening c.id c.done c.share.parts c.share.amount c.seen c.stray (seen_of c.reader) };
}

/// What a client read under the lock: whether the history is full, and how many entries the client has.
#[derive(Clone, Copy)]
struct Refresh {
    full: bool,
    own: usize,
}

impl<N: Naming, T: HistoryCopy<N>> Client<N, T> {
    /// A client that saw nothing yet.
    pub fn new(id: u32, share: Share<N>, reader: Reader<T, View, Published>) -> Client<N, T>
        requires share { (share.parts ≡ 1) × (share.amount ≡ 0) }
        requires reader { view reader.place ≡ [] }
        ensures { result ≡ client_state id 0 [] None }
    {
        Client {
            id,
            done: 0,
            share,
            reader: Some(reader),
            seen: 0,
            stray: None,
        }
    }

    /// Its number, from 0 on.
    pub fn id(&self) -> u32
        ensures { result ≡ self.now.id }
    {
        self.id
    }

    /// How many of its calls were answered.
    pub fn done(&self) -> u32
        ensures { result ≡ self.now.done }
    {
        self.done
    }

    /// The front that it saw last.
    pub fn front(&self) -> Front<N, T>
        ensures front { result ≡ self.now.front }
        ensures lawful { ∥ Lawful N.profile N.opening self.now.front ∥₁ }
    {
        Front::of(&self.reader, self.seen)
    }

    /// The front of the call that was lost, or `None` where no call was.
    pub fn stray(&self) -> Option<Front<N, T>>
        ensures some { IfSome result (λ f. (call : Call) × (self.now.stray ≡ Some (lost call f))) }
        ensures just { IfSome result (λ f. count_of self.now.id f ≡ self.now.done) }
        ensures lawful { IfSome result (λ f. ∥ Lawful N.profile N.opening f ∥₁) }
        ensures none { IfNone result (self.now.stray ≡ None) }
    {
        match self.stray {
            Some(stray) => Some(Front::of(&self.reader, stray.seen)),
            None => None,
        }
    }

    /// The value of a query after a front of the history that begins with all that the client had seen, and which it has
    /// then seen. That it is the newest, with all that is published at that moment, is shown by a test, and no clause says
    /// it. `None` where the reader gave no entry; then nothing changes. It waits for nobody, and takes no memory.
    pub fn look(&mut self, query: Query) -> Option<Answer>
        ensures some { IfSome result (λ a. IsAnswer N.profile N.opening self.new.front query a) }
        ensures later { StartsWith self.new.front self.old.front }
        ensures none { IfNone result (self.new ≡ self.old) }
        ensures same { (self.new.id ≡ self.old.id) × (self.new.done ≡ self.old.done) × (self.new.stray ≡ self.old.stray) }
    {
        let Some(reader) = self.reader.take() else {
            return None;
        };
        match reader.enter_as::<SeesBook>() {
            Ok(reading) => {
                reading.get().assert_lawful();
                self.seen = reading.get().length();
                let answer = reading.get().answer(query);
                self.reader = Some(reading.leave());
                Some(answer)
            }
            Err(reader) => {
                self.reader = Some(reader);
                None
            }
        }
    }

    /// Nothing is done: a caller learns that the front is lawful, and has the entries of its calls.
    pub fn assert_lawful(&self)
        ensures lawful { ∥ Lawful N.profile N.opening self.now.front ∥₁ }
        ensures done { self.now.done ≤ count_of self.now.id self.now.front }
    {
        let _ = &self.seen;
    }

    /// Reads what is published, for the refusals. `None` where the reader gave no entry.
    fn refresh(&mut self) -> Option<Refresh>
        ensures full { IfSome result (λ r. IsTrue r.full ↔ (length self.new.front ≡ N.limit)) }
        ensures own { IfSome result (λ r. r.own ≡ count_of self.new.id self.new.front) }
        ensures later { StartsWith self.new.front self.old.front }
        ensures same { (self.new.id ≡ self.old.id) × (self.new.done ≡ self.old.done) × (self.new.stray ≡ self.old.stray) }
    {
        let Some(reader) = self.reader.take() else {
            return None;
        };
        match reader.enter_as::<SeesBook>() {
            Ok(reading) => {
                reading.get().assert_lawful();
                self.seen = reading.get().length();
                let refresh = Refresh {
                    full: reading.get().is_full(),
                    own: reading.get().made_by(self.id),
                };
                self.reader = Some(reading.leave());
                Some(refresh)
            }
            Err(reader) => {
                self.reader = Some(reader);
                None
            }
        }
    }

    /// Publishes a call, which counts as lost until it is found.
    fn publish<R: Wait>(
        &mut self,
        rt: &R,
        state: WriterState<N, T>,
        call: Call,
    ) -> (WriterState<N, T>, Result<(), NotPublished>)
        requires whole { self.old.stray ≡ None }
        requires just { count_of self.old.id self.old.front ≡ self.old.done }
        ensures ok { OnOk result.1 (self.new ≡ client_state self.old.id self.old.done self.old.front (Some (lost call self.old.front))) }
        ensures err { OnErr result.1 (self.new ≡ self.old) }
    {
        let request = Request {
            client: self.id,
            number: self.done,
            call,
        };
        let (state, made) = state.make(rt, request, &mut self.share);
        if made.is_ok() {
            self.stray = Some(Stray {
                call,
                seen: self.seen,
            });
        }
        (state, made)
    }

    /// Publishes a call under the lock, unless it is refused.
    pub fn ask<R: Wait>(
        &mut self,
        rt: &R,
        state: WriterState<N, T>,
        call: Call,
    ) -> (WriterState<N, T>, Result<(), SharedFault<N, T>>)
        requires { self.old.stray ≡ None }
        ensures later { StartsWith self.new.front self.old.front }
        ensures same { (self.new.id ≡ self.old.id) × (self.new.done ≡ self.old.done) }
        ensures ok { OnOk result.1 ((self.new.stray ≡ Some (lost call self.new.front)) × (count_of self.new.id self.new.front ≡ self.new.done)) }
        ensures err { OnErr result.1 (self.new.stray ≡ None) }
        ensures told { IfErr result.1 (Told N.limit self.new) }
    {
        let Some(refresh) = self.refresh() else {
            return (state, Err(SharedFault::NoEntry));
        };
        if refresh.full {
            return (state, Err(SharedFault::Full));
        }
        self.assert_lawful();
        if refresh.own != self.done as usize {
            return (state, Err(SharedFault::NameTaken(self.front())));
        }
        let (state, made) = self.publish(rt, state, call);
        match made {
            Ok(()) => (state, Ok(())),
            Err(NotPublished::Memory) => (state, Err(SharedFault::Memory)),
            Err(NotPublished::Moved) => (state, Err(SharedFault::NoEntry)),
        }
    }

    /// The reply of a call that was published, where its entry comes directly after what was seen. The client has then
    /// seen that entry too. `None` where the reader gave no entry, or that entry is another.
    pub fn confirm(&mut self, call: Call) -> Option<Reply>
        requires { self.old.stray ≡ Some (lost call self.old.front) }
        ensures some { IfSome result (λ r. self.new ≡ client_state self.old.id (self.old.done + 1) (self.old.front ++ client_entry self.old.id self.old.done call r ∷ []) None) }
        ensures none { IfNone result (self.new ≡ self.old) }
    {
        let Some(reader) = self.reader.take() else {
            return None;
        };
        match reader.enter_as::<SeesBook>() {
            Ok(reading) => {
                reading.get().assert_lawful();
                let request = Request {
                    client: self.id,
                    number: self.done,
                    call,
                };
                let reply = found::<N, T>(reading.get(), self.seen, request);
                self.reader = Some(reading.leave());
                let Some(reply) = reply else {
                    return None;
                };
                self.done += 1;
                self.seen += 1;
                self.stray = None;
                Some(reply)
            }
            Err(reader) => {
                self.reader = Some(reader);
                None
            }
        }
    }

    /// Whether what it saw begins a book's history. It waits for nobody.
    pub fn begins(&mut self, book: &T) -> bool
        ensures begins { IsTrue result → StartsWith (T.state book.now) self.old.front }
        ensures same { self.new ≡ self.old }
    {
        let Some(reader) = self.reader.take() else {
            return false;
        };
        match reader.enter_as::<SeesBook>() {
            Ok(reading) => {
                reading.get().assert_lawful();
                let same = alike::<N, T>(reading.get(), book, self.seen);
                self.reader = Some(reading.leave());
                same
            }
            Err(reader) => {
                self.reader = Some(reader);
                false
            }
        }
    }

    /// Its share of the calls that were made.
    pub fn into_share(self) -> Share<N>
        ensures parts { result.parts ≡ 1 }
        ensures amount { result.amount ≡ made self }
    {
        let Client { share, .. } = self;
        share
    }
}

/// [`Client::look`], as a function.
pub fn look<N: Naming, T: HistoryCopy<N>>(client: &mut Client<N, T>, query: Query) -> Option<Answer>
    ensures some { IfSome result (λ a. IsAnswer N.profile N.opening client.new.front query a) }
    ensures later { StartsWith client.new.front client.old.front }
    ensures none { IfNone result (client.new ≡ client.old) }
    ensures same { (client.new.id ≡ client.old.id) × (client.new.done ≡ client.old.done) × (client.new.stray ≡ client.old.stray) }
{
    client.look(query)
}

/// The reply of the entry at a place, where that is a request's.
fn found<N: Naming, T: HistoryCopy<N>>(book: &T, place: u32, request: Request) -> Option<Reply>
    ensures stands { IfSome result (λ r. slice_get (T.state book.now) place ≡ Some (client_entry request.client request.number request.call r)) }
    ensures fits { IfSome result (λ _. place + 1 < 2 ^ 32) }
{
    if place >= book.length() {
        return None;
    }
    let entry = book.entry(place)?;
    let wanted = Entry {
        client: request.client,
        number: request.number,
        call: request.call,
        reply: entry.reply,
    };
    if is_same(entry, wanted) {
        Some(entry.reply)
    } else {
        None
    }
}

/// Whether two copies have the same first entries, so many as were seen.
fn alike<N: Naming, T: HistoryCopy<N>>(one: &T, other: &T, seen: u32) -> bool
    requires { seen ≤ length (T.state one.now) }
    ensures { IsTrue result → take seen (T.state one.now) ≡ take seen (T.state other.now) }
{
    for place in 0..seen {
        if !same_entry(one.entry(place), other.entry(place)) {
            return false;
        }
    }
    true
}

/// Whether both are there and are the same.
fn same_entry(one: Option<Entry>, other: Option<Entry>) -> bool
    ensures { IsTrue result → one ≡ other }
{
    match (one, other) {
        (Some(a), Some(b)) => is_same(a, b),
        _ => false,
    }
}

fn is_same(one: Entry, other: Entry) -> bool
    ensures { IsTrue result → one ≡ other }
{
    one == other
}
