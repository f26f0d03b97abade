//! The first calls of a set-up, which are made before its clients begin.
ghost use Rattle.std.specs.Prelude.{◌≡◌, ◌<◌, ◌≤◌, ◌+◌, ◌^◌, IfOk, OnOk, length, take, vec_len};
ghost use Rattle.kernel_abstract.specs.Plan.{IsPlan};
ghost use Rattle.command_threads.specs.SharedRuns.{count_first};
ghost use Rattle.command_threads.specs.Private.Begun.{AreBehind, AreEntriesOf, IsBegunKernel, IsWhole};

use crate::numbered::Numbered;
use cap_core::Profile;
use ipc_core::MakeWaiters;
use kernel_core::{Kernel, Reply};
use kernel_shared::Entry;
use setup_format::Setup;
use slot_core::MakeStore;
use std::alloc::{AllocError, Global};

/// A kernel after the first calls of a set-up, and the replies to these.
#[derive(Drop)]
pub struct Begun<P: Profile, S: MakeStore<P>, W: MakeWaiters<P>> {
    pub kernel: Kernel<P, S, W>,
    pub replies: Vec<Reply>,
}

/// How many calls of a set-up are made first: so many, but not more than it has, or than the history has room for.
fn first_count(setup: &Setup, first: usize) -> usize
    ensures { result ≡ count_first first setup.now }
{
    first.min(setup.limit() as usize).min(setup.calls().len())
}

/// Boots a kernel from the set-up's plan, and makes the first calls of the set-up.
pub fn begin<P: Profile, S: MakeStore<P>, W: MakeWaiters<P>>(
    alloc: Global,
    setup: &Setup,
    first: usize,
) -> Result<Begun<P, S, W>, AllocError>
    requires { IsPlan P.profile setup.now.plan }
    ensures begun { IfOk result (λ b. IsBegunKernel P.profile setup.now first b.replies.items b.kernel) }
    ensures many { IfOk result (λ b. vec_len b.replies ≡ count_first first setup.now) }
{
    let calls = &setup.calls()[..first_count(setup, first)];
    let mut kernel = Kernel::<P, S, W>::boot(alloc, setup.plan())?;
    let mut replies = Vec::with_capacity(alloc, calls.len())?;
    kernel.run(calls, &mut replies);
    Ok(Begun { kernel, replies })
}

/// Adds the first calls of a set-up to a history, with their replies.
fn add_first(history: &mut Numbered, setup: &Setup, replies: &[Reply]) -> Result<(), AllocError>
    requires empty { vec_len history.old.entries ≡ 0 }
    requires within { length replies.now ≤ length setup.now.calls }
    requires room { length replies.now < 2 ^ 32 }
    ensures { OnOk result (AreEntriesOf (take (length replies.now) setup.now.calls) replies.now history.new.entries.items) }
{
    for (i, reply) in replies.iter().enumerate() {
        history.push(setup.client_of(i), setup.calls()[i], *reply)?;
    }
    Ok(())
}

/// Adds the calls of another history to one, behind what it has.
fn add_later(history: &mut Numbered, later: &[Entry]) -> Result<(), AllocError>
    requires room { vec_len history.old.entries + length later.now < 2 ^ 32 }
    ensures { OnOk result (AreBehind history.old.entries.items later.now history.new.entries.items) }
{
    for entry in later {
        history.push(entry.client, entry.call, entry.reply)?;
    }
    Ok(())
}

/// The history of the first calls of a set-up, with their replies, and then of the calls that clients made behind them. The
/// numbers of each client go on from those of its first calls.
pub fn whole_history(
    alloc: Global,
    setup: &Setup,
    replies: &[Reply],
    later: &[Entry],
) -> Result<Vec<Entry>, AllocError>
    requires within { length replies.now ≤ length setup.now.calls }
    requires room { length replies.now + length later.now < 2 ^ 32 }
    ensures { IfOk result (λ v. IsWhole (take (length replies.now) setup.now.calls) replies.now later.now v.items) }
{
    let mut history = Numbered::with_capacity(alloc, replies.len() + later.len())?;
    add_first(&mut history, setup, replies)?;
    add_later(&mut history, later)?;
    let Numbered { entries, .. } = history;
    Ok(entries)
}
