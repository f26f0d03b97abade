//! The end of a shared kernel.
ghost use Rattle.std.specs.Prelude.{◌≡◌, ◌<◌, ◌≤◌, ◌↔◌, length, IfOk, IfErr, IsErr, IsTrue, sum_by, vec_len};
ghost use Rattle.kernel_shared.specs.ClientStates.{EachBegins, made};
ghost use Rattle.kernel_shared.specs.declared.settling.SettleFault.TheVariants as Why;

use crate::book_copy::BookCopy;
use crate::client::Client;
use crate::history_copy::HistoryCopy;
use crate::shared::Shared;
use crate::writer_state::WriterState;
use crate::{Book, Naming};
use cap_core::Profile;
use ipc_core::Waiters;
use slot_core::CapStore;
use std::sync::Wait;

/// Why a shared kernel was not settled.
#[derive(Debug, Clone, Copy, PartialEq, Eq)]
pub enum SettleFault {
    /// 304: fewer clients were handed in than started.
    Missing,
    /// 303: memory was wanted and not there. No call answers so today, since settling takes none.
    Memory,
    /// 305: the reader of a client gave no entry, or one that does not begin the book.
    NoEntry,
}

/// What comes back where a shared kernel was not settled. It is not `Drop`: give it up, or settle what it holds.
pub struct Unsettled<N: Naming, T: HistoryCopy<N>> {
    pub why: SettleFault,
    pub shared: Shared<N, T>,
    pub clients: Vec<Client<N, T>>,
}

impl<N: Naming, T: HistoryCopy<N>> Unsettled<N, T> {
    /// Ends the shared kernel without its book. It takes no memory.
    pub fn give_up<R: Wait>(self, rt: &R) {
        let Unsettled {
            why: _,
            shared,
            clients: _,
        } = self;
        shared.give_up(rt);
    }
}

/// Ends a shared kernel with all its clients, and gives its book: the history has as many entries as the clients made, and
/// the front of each client begins it. It waits for readers that are in the copy that it takes.
///
/// # Errors
///
/// The shared kernel and the clients come back.
///
/// - `Missing` where fewer clients are handed in than were started;
/// - `NoEntry` where a client's reader gave no entry.
pub fn settle<N: Naming, P: Profile, S: CapStore<P> + Drop, W: Waiters<P> + Drop, R: Wait>(
    rt: &R,
    shared: Shared<N, BookCopy<N, P, S, W>>,
    clients: Vec<Client<N, BookCopy<N, P, S, W>>>,
) -> Result<Book<N, P, S, W>, Unsettled<N, BookCopy<N, P, S, W>>>
    ensures entries { IfOk result (λ b. length b.history.items ≡ sum_by made clients.items) }
    ensures fronts { IfOk result (λ b. EachBegins b.history.items clients.items) }
    ensures missing { vec_len clients < N.parts → IsErr result }
    ensures why { IfErr result (λ e. (e.why ≡ Why.Missing) ↔ (vec_len clients < N.parts)) }
    ensures back { IfErr result (λ e. e.clients.items ≡ clients.items) }
{
    match settle_copies(rt, shared, clients) {
        Ok(copy) => Ok(copy.into_book()),
        Err(unsettled) => Err(unsettled),
    }
}

/// The same over any copies.
fn settle_copies<N: Naming, T: HistoryCopy<N>, R: Wait>(
    rt: &R,
    shared: Shared<N, T>,
    clients: Vec<Client<N, T>>,
) -> Result<T, Unsettled<N, T>>
    ensures entries { IfOk result (λ b. length (T.state b) ≡ sum_by made clients.items) }
    ensures fronts { IfOk result (λ b. EachBegins (T.state b) clients.items) }
    ensures missing { vec_len clients < N.parts → IsErr result }
    ensures why { IfErr result (λ e. (e.why ≡ Why.Missing) ↔ (vec_len clients < N.parts)) }
    ensures back { IfErr result (λ e. e.clients.items ≡ clients.items) }
{
    if clients.len() < shared.client_count().clients() as usize {
        return Err(Unsettled {
            why: SettleFault::Missing,
            shared,
            clients,
        });
    }
    let mut clients = clients;
    match shared.opened() {
        Ok((state, count)) => {
            if all_begin(&mut clients, state.writer.published()) {
                Ok(settle_ledger(rt, state, clients))
            } else {
                Err(Unsettled {
                    why: SettleFault::NoEntry,
                    shared: Shared::new(state, count),
                    clients,
                })
            }
        }
        Err(shared) => Err(Unsettled {
            why: SettleFault::NoEntry,
            shared,
            clients,
        }),
    }
}

/// Whether what each client saw begins a book's history.
fn all_begin<N: Naming, T: HistoryCopy<N>>(clients: &mut Vec<Client<N, T>>, book: &T) -> bool
    ensures begin { IsTrue result → EachBegins (T.state book.now) clients.old.items }
    ensures same { clients.new.items ≡ clients.old.items }
{
    for place in 0..clients.len() {
        if !clients[place].begins(book) {
            return false;
        }
    }
    true
}

/// Ends the writer, whose ledger holds just what the clients made.
fn settle_ledger<N: Naming, T: HistoryCopy<N>, R: Wait>(
    rt: &R,
    state: WriterState<N, T>,
    clients: Vec<Client<N, T>>,
) -> T
    requires { N.parts ≤ vec_len clients }
    ensures entries { length (T.state result) ≡ sum_by made clients.items }
    ensures book { result ≡ state.writer.desk.shown.value }
{
    let WriterState {
        writer,
        mut made,
        none,
    } = state;
    let mut all = none;
    for client in clients {
        all.merge(client.into_share());
    }
    made.audit(&mut all);
    Box::into_inner(writer.take(rt))
}
