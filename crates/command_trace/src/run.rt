//! The trace of a set-up's run.
ghost use Rattle.std.specs.Prelude.{◌≡◌, ◌++◌, IfOk, OnOk, codes, string_bytes};
ghost use Rattle.toml.specs.View.{table_view};
ghost use Rattle.kernel_abstract.specs.Boot.{boot};
ghost use Rattle.kernel_abstract.specs.Plan.{IsPlan};
ghost use Rattle.setup_values.specs.Names.{names_view};
ghost use Rattle.setup_report.specs.Naming.{naming_view};
ghost use Rattle.setup_report.specs.Report.{terminated, met_count, expectation_count};
ghost use Rattle.command_trace.specs.Trace as spec;

use crate::calls::add_calls;
use crate::head::add_head;
use crate::lines::{add_names, tell};
use cap_core::Profile;
use command_check::unmet_calls;
use command_core::CallNote;
use ipc_core::MakeWaiters;
use kernel_core::Kernel;
use setup_format::Setup;
use setup_report::{ExpectationCount, Naming, expectations};
use setup_values::Name;
use slot_core::{DerivationStore, MakeStore};
use std::alloc::{AllocError, Global};
use std::fmt::Write;
use toml::Table;

fn add_boot(out: &mut String) -> Result<(), AllocError>
    ensures { OnOk result (string_bytes out.new ≡ string_bytes out.old ++ terminated (codes "0 boot")) }
{
    writeln!(out, "0 boot")
}

/// Adds the last line: how many of the expectations are met.
fn add_expectations(out: &mut String, count: ExpectationCount) -> Result<(), AllocError>
    ensures { OnOk result (string_bytes out.new ≡ string_bytes out.old ++ spec.count_line count.met count.expected) }
{
    let met = count.met;
    let expected = count.expected;
    writeln!(out, "expected {met} of {expected}")
}

/// The trace of a set-up's run, in the profile of its plan: the names by which it was spelt, what the boot gives, and
/// for each call the report's own line, its words, with `ways` the way of each of them, why it is refused, and what it changed: each
/// line of the state that is gone and each that is new; and how many of the expectations are met. `table` is the table that the set-up was read from: a
/// value that it spells by a name has that name beside it, where a reason speaks of it. A line tells of a thread, of the last
/// message delivered to one, of an endpoint, of a full slot with the slot that it stands right below, of a CNode that only
/// slots of its own name, or of the sibling right in front of a full slot. Objects and slots stand as `naming` tells them.
///
/// The lines are this project's profile.
#[tactic(auto, unfolding(crate::specs::Trace::trace_told))]
pub fn trace<P: Profile, S: MakeStore<P> + DerivationStore<P>, W: MakeWaiters<P>>(
    alloc: Global,
    naming: &Naming<'_>,
    ways: bool,
    table: &Table,
    names: &[Name],
    setup: &Setup,
) -> Result<(Vec<u8>, ExpectationCount, Vec<CallNote>), AllocError>
    requires { IsPlan P.profile setup.now.plan }
    ensures text { IfOk result (λ r. r.0.items ≡ spec.trace_told ways (naming_view naming.now) P.profile (table_view table.now) (names_view names.now) setup.now) }
    ensures met { IfOk result (λ r. r.1.met ≡ met_count setup.now.calls (spec.replies_to P.profile setup.now)) }
    ensures expected { IfOk result (λ r. r.1.expected
        ≡ expectation_count setup.now.calls (spec.replies_to P.profile setup.now)) }
{
    let mut kernel = Kernel::<P, S, W>::boot(alloc, setup.plan())?;
    let mut out = String::new(alloc);
    add_head(&mut out, setup)?;
    add_names(&mut out, names)?;
    add_boot(&mut out)?;
    let told = tell::<P, S, W>(alloc, &mut out, naming, &kernel)?;
    let replies = add_calls::<P, S, W>(
        alloc,
        &mut out,
        naming,
        ways,
        setup,
        table,
        &mut kernel,
        told,
    )?;
    let count = expectations(alloc, setup, replies.as_slice())?;
    add_expectations(&mut out, count)?;
    let unmet = unmet_calls(alloc, setup, replies.as_slice(), count)?;
    Ok((out.into_bytes(), count, unmet))
}
