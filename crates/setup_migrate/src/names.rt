//! The names that a migrated set-up gives to what a boot makes.
ghost use Rattle.std.specs.Prelude.{◌≡◌, ◌+◌, ◌*◌, ◌<◌, ◌^◌, IfOk};
ghost use Rattle.toml.specs.Data.{no_members};
ghost use Rattle.toml.specs.View.{table_view};
ghost use Rattle.cap_core.specs.Numbers.{tcb_size};
ghost use Rattle.kernel_abstract.specs.Plan.{IsPlan};
ghost use Rattle.setup_migrate.specs.Migration as spec;

use crate::tables::put;
use cap_core::Profile;
use kernel_boot::BootPlan;
use std::alloc::{AllocError, Global};
use toml::{Table, Value};

/// The slot of the first capability that a boot puts after that of the root CNode.
const FIRST_SLOT: u64 = 2;

/// Adds a name for each of `count` things: the prefix and the thing's number, from 0. The first stands for the word
/// `first`, and each further one for a word that is `step` more.
fn add_names(
    alloc: Global,
    names: &mut Table,
    prefix: &str,
    count: u32,
    first: u64,
    step: u64,
) -> Result<(), AllocError>
    requires { first + step * count < 2 ^ 63 }
    ensures { IfOk result (λ _. table_view names.new
        ≡ spec.with_words (spec.numbered_names prefix.now (λ i. first + step * i) count) (table_view names.old)) }
{
    for i in 0..count {
        let word = first + step * u64::from(i);
        let name = format!(in alloc; "{prefix}{i}")?;
        put(names, name, Value::from(word as i64))?;
    }
    Ok(())
}

/// The bytes of a thread control block.
fn tcb_size<P: Profile>() -> u64
    ensures { result ≡ tcb_size P.profile }
{
    1 << P::TCB_BITS
}

/// A table of names: one for the slot of each untyped region, endpoint and thread of a boot, and one for each thread's
/// address.
pub fn boot_names<P: Profile>(alloc: Global, plan: &BootPlan) -> Result<Table, AllocError>
    requires { IsPlan P.profile plan.now }
    ensures { IfOk result (λ names. table_view names ≡ spec.with_words (spec.boot_names P.profile plan.now) no_members) }
{
    let threads = plan.threads();
    let endpoints = plan.endpoints();
    let untypeds = plan.untypeds().len() as u32;
    let first_endpoint = FIRST_SLOT + u64::from(threads);
    let first_untyped = first_endpoint + u64::from(endpoints);
    let mut names = Table::new(alloc);
    add_names(alloc, &mut names, "untyped_", untypeds, first_untyped, 1)?;
    add_names(alloc, &mut names, "ep_", endpoints, first_endpoint, 1)?;
    add_names(alloc, &mut names, "tcb_", threads, FIRST_SLOT, 1)?;
    let first_thread = plan.first_tcb::<P>();
    add_names(
        alloc,
        &mut names,
        "thread_",
        threads,
        first_thread,
        tcb_size::<P>(),
    )?;
    Ok(names)
}
