//! A shared run of a set-up: its clients make their calls of one kernel, each in a thread of its own.
ghost use Rattle.std.specs.Prelude.{◌≡◌, ◌↔◌, ◌-◌, All, Err, IfOk, IfErr, map, drop};
ghost use Rattle.command_core.specs.declared.fault.RunFault.TheVariants as Told;
ghost use Rattle.kernel_shared.specs.declared.start.StartFault.TheVariants as Start;
ghost use Rattle.kernel_shared.specs.declared.driving.DriveFault.TheVariants as Drive;
ghost use Rattle.kernel_shared.specs.declared.settling.SettleFault.TheVariants as Settle;
ghost use Rattle.command_threads.specs.declared.returning.ReturnFault.TheVariants as Returns;
ghost use Rattle.kernel_abstract.specs.Reached.{IsReached};
ghost use Rattle.kernel_abstract.specs.State.{shown};
ghost use Rattle.command_threads.specs.Private.Begun.{IsSharedFrom};
ghost use Rattle.command_threads.specs.Private.Settled.{AreSettled, HadMemory, IsFinished, IsOwnFault};

use crate::client_calls::calls_of_clients;
use crate::returning::{ReturnFault, clients_after};
use cap_core::Profile;
use command_core::RunFault;
use ipc_core::MakeWaiters;
use kernel_core::Kernel;
use kernel_shared::{
    Book, DriveFault, Driven, Gate, Naming, SettleFault, SharedKernel, StartFault, drive, settle,
};
use setup_format::Setup;
use slot_core::MakeStore;
use std::alloc::Global;
use std::sync::Wait;
use std::sync::ledger::Blank;
use std::thread::Threads;

/// The fault that stands for one of a start.
fn start_fault(fault: StartFault) -> RunFault
    ensures own { IsOwnFault result }
    ensures memory { (result ≡ Told.Memory) ↔ (fault ≡ Start.Memory) }
{
    match fault {
        StartFault::Memory => RunFault::Memory,
        StartFault::Reader => RunFault::Thread,
    }
}

/// The fault that stands for one of a drive.
fn drive_fault(fault: DriveFault) -> RunFault
    ensures own { IsOwnFault result }
    ensures memory { (result ≡ Told.Memory) ↔ (fault ≡ Drive.Memory) }
{
    match fault {
        DriveFault::Memory => RunFault::Memory,
        DriveFault::Thread => RunFault::Thread,
    }
}

/// The fault that stands for one of a settlement.
fn settle_fault(fault: SettleFault) -> RunFault
    ensures own { IsOwnFault result }
    ensures memory { (result ≡ Told.Memory) ↔ (fault ≡ Settle.Memory) }
{
    match fault {
        SettleFault::Memory => RunFault::Memory,
        SettleFault::Missing | SettleFault::NoEntry => RunFault::Thread,
    }
}

/// The fault that stands for one of the clients of a drive.
fn return_fault(fault: ReturnFault) -> RunFault
    ensures own { IsOwnFault result }
    ensures memory { (result ≡ Told.Memory) ↔ (fault ≡ Returns.Memory) }
{
    match fault {
        ReturnFault::Memory => RunFault::Memory,
        ReturnFault::Ended => RunFault::Thread,
    }
}

/// Settles a shared kernel after a drive of its clients, or ends it without its book.
fn settle_after<N: Naming, P: Profile, S: MakeStore<P>, W: MakeWaiters<P>, R: Wait>(
    rt: &R,
    alloc: Global,
    shared: SharedKernel<N, P, S, W>,
    all: Vec<Driven<N, P, S, W>>,
) -> Result<Book<N, P, S, W>, RunFault>
    ensures settled { IfOk result (λ b. AreSettled b.history.items (map (λ d. d.client) all.items)) }
    ensures finished { IfOk result (λ _. All (λ d. IsFinished d.stopped) all.items) }
    ensures memory { result ≡ Err Told.Thread → All (λ d. HadMemory d.stopped) all.items }
    ensures fault { IfErr result IsOwnFault }
{
    let clients = match clients_after(alloc, all) {
        Ok(clients) => clients,
        Err(fault) => {
            shared.give_up(rt);
            return Err(return_fault(fault));
        }
    };
    match settle(rt, shared, clients) {
        Ok(book) => Ok(book),
        Err(unsettled) => {
            let fault = settle_fault(unsettled.why);
            unsettled.give_up(rt);
            Err(fault)
        }
    }
}

/// Shares a kernel among the set-up's clients, and lets each make its calls after the first `made` of the set-up, in order, in a
/// thread of its own.
///
/// # Errors
/// `Memory` if memory was wanted and not there, by any client too, whatever stopped the others. `Thread` if a thread
/// could not be started, the shared kernel gave a reader no entry, or a client lost a call or found its name taken.
pub fn shared_run<
    N: Naming + Send + Sync,
    P: Profile + Send + Sync,
    S: MakeStore<P> + Send + Sync,
    W: MakeWaiters<P> + Send + Sync,
    R: Threads + Wait + Sync,
    G: Gate + Sync,
>(
    rt: &R,
    alloc: Global,
    blank: Blank,
    setup: &Setup,
    kernel: Kernel<P, S, W>,
    made: usize,
    gate: &G,
) -> Result<Book<N, P, S, W>, RunFault>
    requires name { blank.name ≡ N.name }
    requires parts { blank.parts ≡ N.parts }
    requires clients { blank.parts ≡ setup.now.clients }
    requires profile { N.profile ≡ P.profile }
    requires opening { kernel ≡ N.opening }
    requires reached { IsReached P.profile N.start }
    requires shows { N.opening ≡ shown N.start }
    requires limit { N.limit ≡ setup.now.limit - made }
    ensures run { IfOk result (λ b. IsSharedFrom G.ends P.profile N.start (drop made setup.now.calls) N.limit b.history.items) }
    ensures fault { IfErr result IsOwnFault }
{
    let Ok(lists) = calls_of_clients(alloc, setup, made) else {
        return Err(RunFault::Memory);
    };
    let limit = (setup.limit() as usize).saturating_sub(made) as u32;
    let (shared, clients) = match SharedKernel::<N, P, S, W>::start(
        rt,
        alloc,
        blank,
        kernel,
        setup.clients(),
        limit,
    ) {
        Ok(started) => started,
        Err(fault) => return Err(start_fault(fault)),
    };
    match drive(rt, alloc, &shared, clients, lists.as_slice(), gate) {
        Ok(all) => settle_after(rt, alloc, shared, all),
        Err(fault) => {
            shared.give_up(rt);
            Err(drive_fault(fault))
        }
    }
}
