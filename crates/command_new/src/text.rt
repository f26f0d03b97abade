//! The text of a new set-up.
ghost use Rattle.std.specs.Prelude.{◌≡◌, ◌+◌, ◌<◌, ◌^◌, ◌++◌, string_bytes, OnOk, IfOk};
ghost use Rattle.std.specs.List.{flat_map};
ghost use Rattle.kernel_abstract.specs.Plan.{IsPlan, IsWithinLimits};
ghost use Rattle.command_new.specs.Text as spec;

use crate::names::FIRST_THREAD_SLOT;
use cap_core::Profile;
use kernel_boot::BootPlan;
use setup_format::limits::NEWEST_FORMAT;
use setup_values::profile_text;
use std::alloc::{AllocError, Global};
use std::fmt::Write;

/// Adds the keys that say how the text is read.
fn add_format<P: Profile>(out: &mut String) -> Result<(), AllocError>
    ensures { OnOk result (string_bytes out.new ≡ string_bytes out.old ++ spec.format_text P.profile) }
{
    let profile = profile_text(P::name());
    writeln!(out, "format = {NEWEST_FORMAT}\nprofile = \"{profile}\"")
}

/// Adds a key with a number.
fn add_number(out: &mut String, key: &str, number: u32) -> Result<(), AllocError>
    ensures { OnOk result (string_bytes out.new ≡ string_bytes out.old ++ spec.number_line key.now number) }
{
    writeln!(out, "{key} = {number}")
}

/// Adds the keys of the sizes.
fn add_sizes(out: &mut String, plan: &BootPlan) -> Result<(), AllocError>
    ensures { OnOk result (string_bytes out.new ≡ string_bytes out.old ++ spec.sizes_text plan.now) }
{
    add_number(out, "memory_bits", plan.memory_bits())?;
    add_number(out, "root_radix", plan.root_radix())?;
    add_number(out, "threads", plan.threads())?;
    add_number(out, "endpoints", plan.endpoints())?;
    Ok(())
}

/// Adds the table of an untyped region.
fn add_untyped(out: &mut String, region: (u64, u32)) -> Result<(), AllocError>
    ensures { OnOk result (string_bytes out.new ≡ string_bytes out.old ++ spec.untyped_text region) }
{
    let (base, bits) = region;
    writeln!(out, "\n[[untyped]]\nbase = {base}\nbits = {bits}")
}

/// Adds a table for each untyped region.
fn add_untypeds(out: &mut String, untypeds: &[(u64, u32)]) -> Result<(), AllocError>
    ensures { OnOk result (string_bytes out.new ≡ string_bytes out.old ++ flat_map spec.untyped_text untypeds.now) }
{
    for region in untypeds {
        add_untyped(out, *region)?;
    }
    Ok(())
}

/// Adds the names of a thread's address and of its slot.
fn add_thread<P: Profile>(out: &mut String, plan: &BootPlan, thread: u32) -> Result<(), AllocError>
    requires limits { IsWithinLimits P.profile plan.now }
    requires thread { thread < plan.now.threads }
    ensures { OnOk result (string_bytes out.new ≡ string_bytes out.old ++ spec.thread_names P.profile plan.now thread) }
{
    let address = plan.tcb_place::<P>(thread);
    let slot = FIRST_THREAD_SLOT + thread;
    writeln!(out, "thread_{thread} = {address}\ntcb_{thread} = {slot}")
}

/// Adds the names of the threads' addresses and of their slots.
fn add_threads<P: Profile>(out: &mut String, plan: &BootPlan) -> Result<(), AllocError>
    requires { IsWithinLimits P.profile plan.now }
    ensures { OnOk result (string_bytes out.new ≡ string_bytes out.old ++ spec.new_threads_text P.profile plan.now) }
{
    writeln!(
        out,
        "\n[names]\n# thread_N is the address of thread N, tcb_N the slot of its capability"
    )?;
    for thread in 0..plan.threads() {
        add_thread::<P>(out, plan, thread)?;
    }
    Ok(())
}

/// Adds the name of a slot.
fn add_slot(out: &mut String, prefix: &str, first: u32, number: u32) -> Result<(), AllocError>
    requires { first + number < 2 ^ 32 }
    ensures { OnOk result (string_bytes out.new ≡ string_bytes out.old ++ spec.slot_name prefix.now first number) }
{
    let slot = first + number;
    writeln!(out, "{prefix}_{number} = {slot}")
}

/// Adds the names of the slots of so many capabilities, from a slot on.
fn add_slots(out: &mut String, prefix: &str, first: u32, count: u32) -> Result<(), AllocError>
    requires { first + count < 2 ^ 32 }
    ensures { OnOk result (string_bytes out.new ≡ string_bytes out.old ++ spec.slots_text prefix.now first count) }
{
    for number in 0..count {
        add_slot(out, prefix, first, number)?;
    }
    Ok(())
}

/// Adds the names of the slots of the endpoints and of the untyped regions.
fn add_objects<P: Profile>(out: &mut String, plan: &BootPlan) -> Result<(), AllocError>
    requires { IsWithinLimits P.profile plan.now }
    ensures { OnOk result (string_bytes out.new ≡ string_bytes out.old ++ spec.objects_text plan.now) }
{
    writeln!(
        out,
        "# the slots of the endpoints and of the untyped regions"
    )?;
    let endpoints = FIRST_THREAD_SLOT + plan.threads();
    add_slots(out, "ep", endpoints, plan.endpoints())?;
    let untypeds = endpoints + plan.endpoints();
    add_slots(out, "untyped", untypeds, plan.untypeds().len() as u32)?;
    Ok(())
}

/// Adds a call as an example: a send if there is an endpoint, and else one that makes the thread inactive.
fn add_call(out: &mut String, plan: &BootPlan) -> Result<(), AllocError>
    ensures { OnOk result (string_bytes out.new ≡ string_bytes out.old ++ spec.first_call_text plan.now) }
{
    if plan.endpoints() == 0 {
        writeln!(
            out,
            "\n[[call]]\nop = \"suspend\"\nthread = \"@thread_0\"\ncap = \"@tcb_0\""
        )
    } else {
        writeln!(
            out,
            "\n[[call]]\nop = \"send\"\nthread = \"@thread_0\"\ncap = \"@ep_0\"\nlabel = 7\nwords = [1]"
        )
    }
}

/// The text of a set-up of that plan, with names of what stands in it, and with a call.
pub(crate) fn whole_text<P: Profile>(alloc: Global, plan: &BootPlan) -> Result<String, AllocError>
    requires { IsPlan P.profile plan.now }
    ensures { IfOk result (λ text. string_bytes text ≡ spec.new_text P.profile plan.now) }
{
    let mut out = String::new(alloc);
    add_format::<P>(&mut out)?;
    add_sizes(&mut out, plan)?;
    add_threads::<P>(&mut out, plan)?;
    add_objects::<P>(&mut out, plan)?;
    add_untypeds(&mut out, plan.untypeds())?;
    add_call(&mut out, plan)?;
    Ok(out)
}
