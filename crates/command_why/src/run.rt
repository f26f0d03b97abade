//! What is said of a set-up's calls.
ghost use Rattle.std.specs.Prelude.{◌≡◌, ◌++◌, IfOk, OnOk, length, string_bytes};
ghost use Rattle.toml.specs.View.{table_view};
ghost use Rattle.kernel_abstract.specs.Plan.{IsPlan};
ghost use Rattle.setup_values.specs.Names.{names_view};
ghost use Rattle.setup_report.specs.Naming.{naming_view};
ghost use Rattle.setup_report.specs.Report.{met_count, expectation_count};
ghost use Rattle.command_check.specs.Program.{texts_after};
ghost use Rattle.command_why.specs.Why as spec;

use crate::calls::add_calls;
use cap_core::Profile;
use command_check::{run_calls, unmet_calls};
use command_core::CallNote;
use ipc_core::MakeWaiters;
use kernel_core::{Kernel, Reply};
use setup_format::Setup;
use setup_report::{ExpectationCount, Naming, expectations};
use setup_values::Name;
use slot_core::{DerivationStore, MakeStore};
use std::alloc::{AllocError, Global};
use std::fmt::Write;
use toml::Table;

/// How many of some replies are refusals.
fn refused_count(replies: &[Reply]) -> usize
    ensures { result ≡ spec.refused_count replies.now }
{
    replies
        .iter()
        .filter(|reply| matches!(reply, Reply::Refused(_)))
        .count()
}

/// Adds the last lines, if no call is chosen: of how many calls how many are refused, and how many of the expectations are
/// met.
fn add_ending(
    out: &mut String,
    chosen: Option<u64>,
    replies: &[Reply],
    count: ExpectationCount,
) -> Result<(), AllocError>
    ensures { OnOk result (string_bytes out.new ≡ string_bytes out.old
        ++ spec.why_ending chosen (length replies.now) (spec.refused_count replies.now) count.met count.expected) }
{
    if chosen.is_some() {
        return Ok(());
    }
    let refused = refused_count(replies);
    let calls = replies.len();
    let met = count.met;
    let expected = count.expected;
    writeln!(out, "refused {refused} of {calls}")?;
    writeln!(out, "expected {met} of {expected}")
}

/// How objects and slots are told of a set-up: by addresses alone, or by the names of its objects in the state after all of its
/// calls. Only for names a kernel is made that makes the calls.
pub fn naming_after<'a, P: Profile, S: MakeStore<P> + DerivationStore<P>, W: MakeWaiters<P>>(
    alloc: Global,
    by_name: bool,
    names: &'a [Name],
    setup: &Setup,
) -> Result<Naming<'a>, AllocError>
    requires { IsPlan P.profile setup.now.plan }
    ensures { IfOk result (λ naming. naming_view naming ≡ texts_after by_name P.profile (names_view names.now) setup.now) }
{
    if !by_name {
        return Ok(Naming::plain());
    }
    let (kernel, _) = run_calls::<P, S, W>(alloc, setup)?;
    Naming::in_report::<P, S, W>(alloc, true, names, setup.plan(), &kernel)
}

/// Why the calls of a set-up are refused, in the profile of its plan: for each refused call the report's own line, and one to
/// four lines below it of the check that failed and of what was found there; then how many calls are refused, and how many of
/// the expectations are met. If a call is chosen by its number from 1 on, its lines alone, also if it is not refused.
/// All calls are made. `table` is the table that the set-up was read from: a value that it spells by a name has that name
/// beside it. Objects and slots stand as a naming writes them.
///
/// The lines are this project's profile.
#[tactic(auto, unfolding(crate::specs::Why::why_of))]
pub fn why<P: Profile, S: MakeStore<P> + DerivationStore<P>, W: MakeWaiters<P>>(
    alloc: Global,
    naming: &Naming<'_>,
    table: &Table,
    setup: &Setup,
    chosen: Option<u64>,
) -> Result<(Vec<u8>, ExpectationCount, Vec<CallNote>), AllocError>
    requires { IsPlan P.profile setup.now.plan }
    ensures text { IfOk result (λ r. r.0.items ≡ spec.why_of (naming_view naming.now) P.profile (table_view table.now) chosen setup.now) }
    ensures met { IfOk result (λ r. r.1.met ≡ met_count setup.now.calls (spec.replies_to P.profile setup.now)) }
    ensures expected { IfOk result (λ r. r.1.expected
        ≡ expectation_count setup.now.calls (spec.replies_to P.profile setup.now)) }
{
    let mut kernel = Kernel::<P, S, W>::boot(alloc, setup.plan())?;
    let mut out = String::new(alloc);
    let replies = add_calls::<P, S, W>(alloc, &mut out, naming, setup, table, chosen, &mut kernel)?;
    let count = expectations(alloc, setup, replies.as_slice())?;
    add_ending(&mut out, chosen, replies.as_slice(), count)?;
    let unmet = unmet_calls(alloc, setup, replies.as_slice(), count)?;
    Ok((out.into_bytes(), count, unmet))
}
