//! The threads of a set-up's calls, by their names.
ghost use Rattle.std.specs.Prelude.{◌≡◌, codes, IfOk};
ghost use Rattle.toml.specs.View.{view, items_view, table_view};
ghost use Rattle.kernel_abstract.specs.Plan.{IsPlan};
ghost use Rattle.setup_migrate.specs.Migration as spec;

use cap_core::Profile;
use kernel_boot::BootPlan;
use setup_values::KnownNames;
use setup_values::kinds::{Kind, Word};
use std::alloc::{AllocError, Global};
use toml::{Table, Value};

/// The number of the boot thread at an address.
fn thread_at<P: Profile>(plan: &BootPlan, address: u64) -> Option<u32>
    requires { IsPlan P.profile plan.now }
    ensures { result ≡ spec.boot_thread_at P.profile plan.now address }
{
    (0..plan.threads()).find(|i| plan.tcb_place::<P>(*i) == address)
}

/// The number of the boot thread whose address a value stands for.
fn boot_thread<P: Profile>(plan: &BootPlan, thread: &Value) -> Option<u32>
    requires { IsPlan P.profile plan.now }
    ensures { result ≡ spec.boot_thread_of P.profile plan.now (view thread.now) }
{
    let address = Word.read::<P>(&KnownNames::none(), thread).ok()?;
    thread_at::<P>(plan, address)
}

/// Replaces the thread of a call by its name, if it is a boot thread.
fn name_thread<P: Profile>(
    alloc: Global,
    plan: &BootPlan,
    call: &mut Table,
) -> Result<(), AllocError>
    requires { IsPlan P.profile plan.now }
    ensures { IfOk result (λ _. table_view call.new
        ≡ spec.with_changed (codes "thread") (spec.named_thread P.profile plan.now) (table_view call.old)) }
{
    if let Some(thread) = call.get_mut("thread") {
        if let Some(i) = boot_thread::<P>(plan, thread) {
            *thread = Value::String(format!(in alloc; "@thread_{i}")?);
        }
    }
    Ok(())
}

/// Replaces the thread of a call by its name, in the value that holds the call.
fn name_call<P: Profile>(alloc: Global, plan: &BootPlan, call: &mut Value) -> Result<(), AllocError>
    requires { IsPlan P.profile plan.now }
    ensures { IfOk result (λ _. view call.new ≡ spec.named_call P.profile plan.now (view call.old)) }
{
    if let Some(call) = call.as_table_mut() {
        name_thread::<P>(alloc, plan, call)?;
    }
    Ok(())
}

/// Replaces the thread of each call by its name.
fn name_each_call<P: Profile>(
    alloc: Global,
    plan: &BootPlan,
    calls: &mut [Value],
) -> Result<(), AllocError>
    requires { IsPlan P.profile plan.now }
    ensures { IfOk result (λ _. items_view calls.new
        ≡ spec.each_item (spec.named_call P.profile plan.now) (items_view calls.old)) }
{
    for i in 0..calls.len() {
        name_call::<P>(alloc, plan, &mut calls[i])?;
    }
    Ok(())
}

/// Replaces the thread of each call by its name, in the value that holds the calls.
fn name_calls<P: Profile>(
    alloc: Global,
    plan: &BootPlan,
    calls: &mut Value,
) -> Result<(), AllocError>
    requires { IsPlan P.profile plan.now }
    ensures { IfOk result (λ _. view calls.new ≡ spec.named_calls P.profile plan.now (view calls.old)) }
{
    if let Value::Array(calls) = calls {
        name_each_call::<P>(alloc, plan, calls)?;
    }
    Ok(())
}

/// Replaces the threads of the calls of a set-up's table by their names.
pub fn name_threads<P: Profile>(
    alloc: Global,
    plan: &BootPlan,
    table: &mut Table,
) -> Result<(), AllocError>
    requires { IsPlan P.profile plan.now }
    ensures { IfOk result (λ _. table_view table.new
        ≡ spec.with_changed (codes "call") (spec.named_calls P.profile plan.now) (table_view table.old)) }
{
    if let Some(calls) = table.get_mut("call") {
        name_calls::<P>(alloc, plan, calls)?;
    }
    Ok(())
}
