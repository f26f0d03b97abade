//! A kernel that is booted and shared, under a name of its own.
ghost use Rattle.std.specs.Prelude.{◌≡◌};
ghost use Rattle.cap_core.specs.declared.profile.ProfileName.TheVariants as Name;
ghost use Rattle.kernel_abstract.specs.Plan.{IsPlan};
ghost use Rattle.kernel_abstract.specs.Boot.{boot};
ghost use Rattle.kernel_abstract.specs.State.{shown};

use crate::calls::{looks_beside, take_all};
use crate::kernel::{LinkedBook, LinkedKernel, LinkedShared, plan};
use kernel_core::BootPlan;
use kernel_shared::Naming;
use std::alloc::Global;
use std::marker::Brand;
use std::sync::Wait;
use std::sync::ledger::Blank;
use std::thread::Threads;

/// What is done with the kernel.
#[derive(Clone, Copy, PartialEq, Eq, Drop)]
pub enum Job {
    Take,
    Call,
    Look,
}

/// Opens a book and takes so many calls: whether each was taken.
fn book_run<N: Naming>(alloc: Global, plan: &BootPlan, limit: u32) -> bool
    requires plan { IsPlan Name.Wide plan.now }
    requires opening { N.opening ≡ shown (boot Name.Wide plan.now) }
    requires limit { N.limit ≡ limit }
{
    let Ok(kernel) = LinkedKernel::boot(alloc, plan) else {
        return false;
    };
    match LinkedBook::<N>::open(alloc, kernel, limit) {
        Ok(mut book) => take_all(&mut book, limit),
        Err(_) => false,
    }
}

/// Shares a kernel with so many clients, one of which makes calls until the history is full while the others look: how many
/// looks were answered, if each call was.
fn shared_run<N: Naming + Send + Sync, R: Threads + Wait + Sync>(
    rt: &R,
    alloc: Global,
    blank: Blank,
    plan: &BootPlan,
    clients: u32,
    limit: u32,
) -> Option<u64>
    requires name { blank.name ≡ N.name }
    requires parts { (blank.parts ≡ N.parts) × (blank.parts ≡ clients) }
    requires plan { IsPlan Name.Wide plan.now }
    requires profile { N.profile ≡ Name.Wide }
    requires start { N.start ≡ boot Name.Wide plan.now }
    requires opening { N.opening ≡ shown (boot Name.Wide plan.now) }
    requires limit { N.limit ≡ limit }
{
    if clients == 0 {
        return None;
    }
    let kernel = LinkedKernel::boot(alloc, plan).ok()?;
    let (shared, all) = LinkedShared::<N>::start(rt, alloc, blank, kernel, clients, limit).ok()?;
    let looks = looks_beside(rt, &shared, all, limit);
    shared.give_up(rt);
    looks
}

/// Does a job once: how many looks were answered, if each call was taken.
fn play<N: Naming + Send + Sync, R: Threads + Wait + Sync>(
    rt: &R,
    alloc: Global,
    blank: Blank,
    plan: &BootPlan,
    clients: u32,
    limit: u32,
    job: Job,
) -> Option<u64>
    requires name { blank.name ≡ N.name }
    requires parts { (blank.parts ≡ N.parts) × (blank.parts ≡ clients) }
    requires plan { IsPlan Name.Wide plan.now }
    requires profile { N.profile ≡ Name.Wide }
    requires start { N.start ≡ boot Name.Wide plan.now }
    requires opening { N.opening ≡ shown (boot Name.Wide plan.now) }
    requires limit { N.limit ≡ limit }
{
    match job {
        Job::Take => book_run::<N>(alloc, plan, limit).then_some(0),
        _ => shared_run::<N, R>(rt, alloc, blank, plan, clients, limit),
    }
}

/// Does a job once with so many calls, and for looks with so many clients that look.
pub fn run<R: Threads + Wait + AllocGlobal + Sync>(
    rt: &R,
    job: Job,
    calls: u32,
    readers: u32,
) -> Option<u64> {
    let plan = plan(rt.alloc())?;
    let clients = readers.saturating_add(1);
    let blank = Blank::new(u64::from(clients));
    play::<Brand, _>(rt, rt.alloc(), blank, &plan, clients, calls, job)
}
