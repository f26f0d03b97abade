//! One kernel for many clients: calls.
ghost use Rattle.std.specs.Prelude.{◌≡◌, ◌++◌, ◌∷◌, [], Some, None, IfOk, Err, OnOk, OnErr, IfErr, ◌⊎◌};
ghost use Rattle.kernel_shared.specs.Laws.{count_of};
ghost use Rattle.kernel_shared.specs.declared.fault.SharedFault.TheVariants as Fault;
ghost use Rattle.kernel_shared.specs.Fronts.{StartsWith};
ghost use Rattle.kernel_shared.specs.Faults.{Told};
ghost use Rattle.kernel_shared.specs.ClientStates.{Lost, IsAnswered, client_calls_made, lost, lost_calls};

use crate::Naming;
use crate::client::Client;
use crate::client_count::ClientCount;
use crate::fault::SharedFault;
use crate::history_copy::HistoryCopy;
use crate::writer_state::WriterState;
use kernel_abstract::{Call, Reply};
use std::sync::{Mutex, MutexGuard, Wait};

/// A kernel that client threads share: two copies of its book, of which one is read while the other is written, and one
/// writer under a lock. It is not `Drop`: end it by `settle` or by `give_up`.
pub struct Shared<N: Naming, T: HistoryCopy<N>> {
    state: Mutex<Option<WriterState<N, T>>>,
    count: ClientCount<N>,
}

impl<N: Naming, T: HistoryCopy<N>> Shared<N, T> {
    /// Puts the state under the lock.
    pub fn new(state: WriterState<N, T>, count: ClientCount<N>) -> Shared<N, T> {
        Shared {
            state: Mutex::new(Some(state)),
            count,
        }
    }

    /// How many clients it was started with.
    pub fn client_count(&self) -> &ClientCount<N> {
        &self.count
    }

    /// What lay under the lock, or the shared kernel again where nothing did, which never happens.
    pub fn opened(self) -> Result<(WriterState<N, T>, ClientCount<N>), Shared<N, T>> {
        let Shared { state, count } = self;
        match state.into_inner() {
            Some(state) => Ok((state, count)),
            None => Err(Shared {
                state: Mutex::new(None),
                count,
            }),
        }
    }

    /// Makes a client's call, and answers it. It waits for the lock, and for readers that are in a copy at that moment.
    ///
    /// Where it is answered, the client has seen a front that begins with all that it had seen; past that stands an entry
    /// with the client, its next number, the call and the reply, once; and of the client's calls the front has just those
    /// that it made.
    ///
    /// # Errors
    ///
    /// In this order; all but `Stray` take no step:
    ///
    /// - `Stray` again, where a call of this client was answered so: nothing changes, and the front is that of then;
    /// - `NoEntry` where the reader gave no entry;
    /// - `Full` where the history has as many entries as it may: the client has seen that;
    /// - `NameTaken` where the history has more entries of the client than it made; none does, for a client of this start;
    /// - `Memory` where memory was wanted and not there;
    /// - `Stray` where the call was published, and the reader gave no entry after it or one that does not hold the call.
    pub fn call<R: Wait>(
        &self,
        rt: &R,
        client: &mut Client<N, T>,
        call: Call,
    ) -> Result<Reply, SharedFault<N, T>>
        ensures answered { IfOk result (λ r. IsAnswered client.old call r client.new) }
        ensures made { OnOk result (client_calls_made client.new ≡ client_calls_made client.old ++ call ∷ []) }
        ensures later { StartsWith client.new.front client.old.front }
        ensures id { client.new.id ≡ client.old.id }
        ensures unanswered { OnErr result (client.new.done ≡ client.old.done) }
        ensures told { IfErr result (Told N.limit client.new) }
        ensures unmade { OnErr result (client.old.stray ≡ None → client_calls_made client.new ≡ client_calls_made client.old ++ lost_calls client.new.stray) }
        ensures lost { OnErr result (client.old.stray ≡ None → (client.new.stray ≡ None) ⊎ (client.new.stray ≡ Some (lost call client.new.front))) }
        ensures stuck { (s : Lost) → client.old.stray ≡ Some s → (result ≡ Err (Fault.Stray s.front)) × (client.new ≡ client.old) }
    {
        if let Some(front) = client.stray() {
            return Err(SharedFault::Stray(front));
        }
        client.assert_lawful();
        let written = self.write(rt, client, call);
        client.assert_lawful();
        if let Err(fault) = written {
            return Err(fault);
        }
        let reply = client.confirm(call);
        client.assert_lawful();
        match reply {
            Some(reply) => Ok(reply),
            None => Err(SharedFault::Stray(client.front())),
        }
    }

    /// Publishes a call under the lock, unless it is refused.
    fn write<R: Wait>(
        &self,
        rt: &R,
        client: &mut Client<N, T>,
        call: Call,
    ) -> Result<(), SharedFault<N, T>>
        requires { client.old.stray ≡ None }
        ensures later { StartsWith client.new.front client.old.front }
        ensures same { (client.new.id ≡ client.old.id) × (client.new.done ≡ client.old.done) }
        ensures ok { OnOk result ((client.new.stray ≡ Some (lost call client.new.front)) × (count_of client.new.id client.new.front ≡ client.new.done)) }
        ensures err { OnErr result (client.new.stray ≡ None) }
        ensures told { IfErr result (Told N.limit client.new) }
    {
        let mut guard = self.state.lock(rt);
        let Some(state) = guard.take() else {
            MutexGuard::unlock(guard);
            return Err(SharedFault::NoEntry);
        };
        let (state, result) = client.ask(rt, state, call);
        // The place is empty. That is tested first, so that what lies there, nothing, need not be read out.
        if guard.is_some() {
            state.give_up(rt);
        } else if let Some(other) = guard.replace(state) {
            other.give_up(rt);
        }
        MutexGuard::unlock(guard);
        result
    }

    /// Ends a shared kernel without its book. It takes no memory.
    pub fn give_up<R: Wait>(self, rt: &R) {
        let Shared { state, count: _ } = self;
        match state.into_inner() {
            Some(state) => state.give_up(rt),
            None => {}
        }
    }
}

/// [`Shared::give_up`], as a function.
pub fn give_up<N: Naming, T: HistoryCopy<N>, R: Wait>(rt: &R, shared: Shared<N, T>) {
    shared.give_up(rt)
}
