//! How a kernel comes to be shared.
ghost use Rattle.std.specs.Prelude.{ℕ, ◌≡◌, ◌<◌, [], None, Some, slice_get, IfOk, vec_len};
ghost use Rattle.kernel_shared.specs.Laws.{Begins};
ghost use Rattle.kernel_shared.specs.ClientStates.{client_state};

use crate::book_copy::BookCopy;
use crate::client::Client;
use crate::client_count::ClientCount;
use crate::history_copy::HistoryCopy;
use crate::shared::Shared;
use crate::writer_state::WriterState;
use crate::{Book, Naming};
use cap_core::Profile;
use ipc_core::MakeWaiters;
use kernel_core::Kernel;
use left_right::writer::Writer;
use slot_core::MakeStore;
use std::alloc::{AllocError, Global};
use std::sync::Wait;
use std::sync::ledger::Blank;

/// Why no kernel was shared.
#[derive(Debug, Clone, Copy, PartialEq, Eq)]
pub enum StartFault {
    /// Memory was wanted and not there.
    Memory,
    /// No reader was given to a client.
    Reader,
}

impl From<AllocError> for StartFault {
    ghost use Rattle.kernel_shared.specs.declared.start.StartFault.TheVariants.{Memory};

    ghost from_gives = { λ _ e. e ≡ Memory };

    fn from(_: AllocError) -> StartFault {
        StartFault::Memory
    }
}

/// Shares two copies among so many clients.
pub fn share<N: Naming, T: HistoryCopy<N>, R: Wait>(
    rt: &R,
    alloc: Global,
    blank: Blank,
    first: T,
    second: T,
    clients: u32,
) -> Result<(Shared<N, T>, Vec<Client<N, T>>), StartFault>
    requires name { blank.name ≡ N.name }
    requires parts { blank.parts ≡ N.parts }
    requires each { blank.parts ≡ clients }
    requires some { 0 < clients }
    requires empty { (T.state first ≡ []) × (T.state second ≡ []) }
    ensures len { IfOk result (λ r. vec_len r.1 ≡ clients) }
    ensures each { IfOk result (λ r. (i : ℕ) (c : _) → slice_get r.1.items i ≡ Some c → c ≡ client_state i 0 [] None) }
{
    let mut all = Vec::with_capacity(alloc, clients as usize)?;
    let writer = Writer::new(alloc, first, second, clients as usize)?;
    let (made, mut rest) = blank.open::<N>();
    for id in 0..clients {
        let Ok(reader) = writer.factory().reader() else {
            writer.take(rt);
            return Err(StartFault::Reader);
        };
        let share = rest.split_off(1, 0);
        all.push_reserved(Client::new(id, share, reader));
    }
    let state = WriterState {
        writer,
        made,
        none: rest,
    };
    Ok((Shared::new(state, ClientCount::new(clients)), all))
}

impl<N: Naming, P: Profile, S: MakeStore<P>, W: MakeWaiters<P>> Shared<N, BookCopy<N, P, S, W>> {
    /// Shares a kernel among so many clients, numbered from 0, with room for a history of `limit` calls. The second copy is
    /// made here, and all room of the books.
    ///
    /// The blank has a part for each client. The kernel is at the opening that `N` names, the limit is `N`'s, and so is the
    /// profile; `N` names a state that runs reach and that the opening stands for. On an error the kernel is given up.
    ///
    /// # Errors
    ///
    /// - `Memory` where memory was wanted and not there;
    /// - `Reader` where a client was given no reader.
    pub fn start<R: Wait>(
        rt: &R,
        alloc: Global,
        blank: Blank,
        kernel: Kernel<P, S, W>,
        clients: u32,
        limit: u32,
    ) -> Result<
        (
            Shared<N, BookCopy<N, P, S, W>>,
            Vec<Client<N, BookCopy<N, P, S, W>>>,
        ),
        StartFault,
    >
        requires name { blank.name ≡ N.name }
        requires parts { blank.parts ≡ N.parts }
        requires each { blank.parts ≡ clients }
        requires some { 0 < clients }
        requires profile { N.profile ≡ P.profile }
        requires opening { kernel ≡ N.opening }
        requires begins { ∥ Begins P.profile N.start N.opening ∥₁ }
        requires limit { limit ≡ N.limit }
        ensures len { IfOk result (λ r. vec_len r.1 ≡ clients) }
        ensures each { IfOk result (λ r. (i : ℕ) (c : _) → slice_get r.1.items i ≡ Some c → c ≡ client_state i 0 [] None) }
    {
        let copy = kernel.copy(alloc)?;
        let first = BookCopy::new(Book::<N, P, S, W>::open(alloc, kernel, limit)?);
        let second = BookCopy::new(Book::<N, P, S, W>::open(alloc, copy, limit)?);
        share(rt, alloc, blank, first, second, clients)
    }
}
