//! The clients of a drive, once they have ended.
ghost use Rattle.std.specs.Prelude.{◌≡◌, All, None, Err, IfOk, false, map};
ghost use Rattle.command_threads.specs.declared.returning.ReturnFault.TheVariants.{Ended};
ghost use Rattle.command_threads.specs.Private.Settled.{HadMemory, IsFinished, IsReturnable};

use kernel_shared::Naming;
use kernel_shared::client::Client;
use kernel_shared::driving::{Driven, Stop};
use kernel_shared::fault::SharedFault;
use kernel_shared::history_copy::HistoryCopy;
use std::alloc::Global;

/// Why the clients of a drive are not handed back.
#[derive(Clone, Copy)]
pub enum ReturnFault {
    /// Memory was wanted and not there, by a client's call or by this one.
    Memory,
    /// A client lost a call, or its reader gave no entry, or its name was taken, and no client wanted memory.
    Ended,
}

/// A client after all of its calls, after those that the history had room for, or after those before the gate ended it.
fn client_after<N: Naming, T: HistoryCopy<N>>(
    driven: Driven<N, T>,
) -> Result<Client<N, T>, ReturnFault>
    ensures same { IfOk result (λ c. c ≡ driven.client) }
    ensures whole { IfOk result (λ c. c.stray ≡ None) }
    ensures finished { IfOk result (λ _. IsFinished driven.stopped) }
    ensures ended { result ≡ Err Ended → IsReturnable driven → ⊥ }
{
    let Driven {
        client,
        stopped,
        ..
    } = driven;
    match stopped {
        None | Some(Stop::Gate) | Some(Stop::Fault(SharedFault::Full)) => {}
        Some(Stop::Fault(SharedFault::Memory)) => return Err(ReturnFault::Memory),
        Some(_) => return Err(ReturnFault::Ended),
    }
    match client.stray() {
        None => Ok(client),
        Some(_) => Err(ReturnFault::Ended),
    }
}

/// Whether the client's last call wanted memory that was not there.
fn wanted_memory<N: Naming, T: HistoryCopy<N>>(driven: &Driven<N, T>) -> bool
    ensures { result ≡ false → HadMemory driven.now.stopped }
{
    matches!(driven.stopped, Some(Stop::Fault(SharedFault::Memory)))
}

/// Whether any client wanted memory that was not there.
fn any_wanted_memory<N: Naming, T: HistoryCopy<N>>(all: &[Driven<N, T>]) -> bool
    ensures { result ≡ false → All (λ d. HadMemory d.stopped) all.now }
{
    for driven in all {
        if wanted_memory(driven) {
            return true;
        }
    }
    false
}

/// The clients of a drive, in their order, if each made all of its calls, found the history full, or was ended by the
/// gate.
///
/// # Errors
///
/// - `Memory` if any client's call wanted memory, whatever stopped the others, or if this call wanted it;
/// - `Ended` if another client lost a call, found its name taken, or was given no entry by its reader.
pub fn clients_after<N: Naming, T: HistoryCopy<N>>(
    alloc: Global,
    all: Vec<Driven<N, T>>,
) -> Result<Vec<Client<N, T>>, ReturnFault>
    ensures same { IfOk result (λ v. v.items ≡ map (λ d. d.client) all.items) }
    ensures whole { IfOk result (λ v. All (λ c. c.stray ≡ None) v.items) }
    ensures finished { IfOk result (λ _. All (λ d. IsFinished d.stopped) all.items) }
    ensures ended { result ≡ Err Ended → All (λ d. IsReturnable d) all.items → ⊥ }
    ensures memory { result ≡ Err Ended → All (λ d. HadMemory d.stopped) all.items }
{
    if any_wanted_memory(all.as_slice()) {
        return Err(ReturnFault::Memory);
    }
    let Ok(mut clients) = Vec::with_capacity(alloc, all.len()) else {
        return Err(ReturnFault::Memory);
    };
    for driven in all {
        clients.push_reserved(client_after::<N, T>(driven)?);
    }
    Ok(clients)
}
