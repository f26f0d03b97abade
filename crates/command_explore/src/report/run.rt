//! The exploration of a set-up, and its report.
ghost use Rattle.std.specs.Prelude.{◌≡◌, ◌++◌, ◌==◌, ◌&&◌, IfOk, OnOk, length, string_bytes};
ghost use Rattle.kernel_abstract.specs.Plan.{IsPlan};
ghost use Rattle.query_orders.specs.Found.{stuck_of};
ghost use Rattle.setup_report.specs.Naming.{naming_view};
ghost use Rattle.setup_values.specs.Names.{names_view};
ghost use Rattle.command_explore.specs.Report as spec;
ghost use Rattle.command_explore.specs.Views.{explored_view};

use crate::report::calls::add_calls;
use crate::report::clients::{calls_of_clients, first_clients};
use crate::report::ends::add_stuck;
use crate::report::marks::CountText;
use crate::report::naming::naming_at_boot;
use crate::report::unmet::unmet_answers;
use cap_core::Profile;
use command_check::numbers_of_clients;
use command_core::CallNote;
use ipc_core::SaveWaiters;
use kernel_core::Kernel;
use query_orders::{Explored, FoundStuck, explore};
use setup_format::Setup;
use setup_report::{ExpectationCount, Naming};
use setup_values::{Name, profile_text};
use slot_core::{DerivationStore, SaveStore};
use std::alloc::{AllocError, Global};
use std::fmt::Write;

/// The report on an exploration, and whether all is well: all orders are explored, each expectation is met in each of them,
/// and none ends stuck.
#[derive(Drop)]
pub struct ExploredText {
    pub text: Vec<u8>,
    pub is_well: bool,
    /// The answers that do not meet the expectation of their call.
    pub unmet: Vec<CallNote>,
}

/// Adds the first line: the version of the report's form, and how large the set-up is.
pub fn add_head(out: &mut String, setup: &Setup) -> Result<(), AllocError>
    ensures { OnOk result (string_bytes out.new ≡ string_bytes out.old ++ spec.explore_head_line setup.now) }
{
    let profile = profile_text(setup.profile());
    let clients = setup.clients();
    let calls = setup.calls().len();
    writeln!(out, "explore 2 {profile} clients {clients} calls {calls}")
}

/// Adds how many states and orders there are, where all orders are explored.
fn add_counts(out: &mut String, explored: &Explored) -> Result<(), AllocError>
    ensures { OnOk result (string_bytes out.new ≡ string_bytes out.old
        ++ spec.count_lines explored.now.states explored.now.found.ends explored.now.found.orders explored.now.found.stuck_orders) }
{
    let states = CountText(explored.states);
    let ends = CountText(explored.found.ends);
    let orders = CountText(explored.found.orders);
    let stuck = CountText(explored.found.stuck_orders);
    writeln!(
        out,
        "states {states} ends {ends}\norders {orders} stuck {stuck}"
    )
}

/// Adds the last line: how many expectations are met in every order.
pub fn add_expected(out: &mut String, count: ExpectationCount) -> Result<(), AllocError>
    ensures { OnOk result (string_bytes out.new ≡ string_bytes out.old ++ spec.expected_line count.met count.expected) }
{
    let met = count.met;
    let expected = count.expected;
    writeln!(out, "expected {met} of {expected}")
}

/// Adds the last lines: how many states and orders there are, or the limit that was reached, and how many expectations are
/// met in every order.
fn add_end(
    out: &mut String,
    explored: &Explored,
    first: usize,
    limit: u64,
    count: ExpectationCount,
) -> Result<(), AllocError>
    ensures { OnOk result (string_bytes out.new ≡ string_bytes out.old
        ++ spec.end_lines first limit count.met count.expected (explored_view explored.now)) }
{
    if explored.layer.nodes().is_empty() {
        add_counts(out, explored)?;
    } else {
        let calls = first as u128 + explored.calls as u128;
        writeln!(out, "states {limit} limit calls {calls}")?;
    }
    add_expected(out, count)
}

/// Whether all is well: all orders are explored, each expectation is met, and there is no way to end stuck.
pub fn is_well(is_whole: bool, count: ExpectationCount, stuck: &[FoundStuck]) -> bool
    ensures { result ≡ (is_whole && (count.met == count.expected) && (length (stuck_of stuck.now) == 0)) }
{
    is_whole && count.met == count.expected && stuck.is_empty()
}

/// The report on an exploration of a set-up whose orders begin with `first` calls.
#[tactic(auto, unfolding(crate::specs::Report::report_on))]
fn explored_text(
    alloc: Global,
    naming: &Naming<'_>,
    setup: &Setup,
    explored: &Explored,
    first: usize,
    limit: u64,
) -> Result<ExploredText, AllocError>
    ensures { IfOk result (λ r. (r.text.items, r.is_well) ≡ spec.report_on (naming_view naming.now) setup.now first limit (explored_view explored.now)) }
{
    let lists = numbers_of_clients(alloc, setup)?;
    let numbers = lists.as_slice();
    let answers = explored.found.answers.answers();
    let stuck = explored.found.stuck.as_slice();
    let is_whole = explored.layer.nodes().is_empty();
    let mut out = String::new(alloc);
    add_head(&mut out, setup)?;
    let count = add_calls(alloc, &mut out, naming, setup, numbers, is_whole, answers)?;
    add_stuck(alloc, &mut out, naming, numbers, stuck)?;
    add_end(&mut out, explored, first, limit, count)?;
    Ok(ExploredText {
        text: out.into_bytes(),
        is_well: is_well(is_whole, count, stuck),
        unmet: unmet_answers(alloc, setup, numbers, answers)?,
    })
}

/// Explores every order of the calls that the clients of a set-up make, from its boot on, behind the first calls of the set-up.
pub fn explore_setup<P: Profile, S: SaveStore<P> + DerivationStore<P>, W: SaveWaiters<P>>(
    alloc: Global,
    setup: &Setup,
    first: usize,
    limit: u64,
) -> Result<Explored, AllocError>
    requires { IsPlan P.profile setup.now.plan }
    ensures { IfOk result (λ e. explored_view e ≡ spec.exploration P.profile setup.now first limit) }
{
    let kernel = Kernel::<P, S, W>::boot(alloc, setup.plan())?;
    let calls = calls_of_clients(alloc, setup)?;
    let begin = first_clients(alloc, setup, first)?;
    let count = setup.calls().len() + 1;
    let explored = explore(
        alloc,
        calls.as_slice(),
        &kernel,
        begin.as_slice(),
        limit,
        count,
    )?;
    Ok(explored)
}

/// Explores every order of the calls that the clients of a set-up make, from its boot on, and reports on it. The first calls
/// of the set-up, as many as `first` says, are made before the clients begin. Where the states are more than the limit, the
/// report is on the orders of as many calls as it allows. Threads and endpoints are told by their addresses, or, where
/// `by_name` says so, by their names; expectations are compared by addresses either way.
#[tactic(auto, unfolding(crate::specs::Report::explored_report))]
pub fn explored_report<P: Profile, S: SaveStore<P> + DerivationStore<P>, W: SaveWaiters<P>>(
    alloc: Global,
    by_name: bool,
    names: &[Name],
    setup: &Setup,
    first: usize,
    limit: u64,
) -> Result<ExploredText, AllocError>
    requires { IsPlan P.profile setup.now.plan }
    ensures { IfOk result (λ r. (r.text.items, r.is_well) ≡ spec.explored_report by_name P.profile (names_view names.now) setup.now first limit) }
{
    let begin = first_clients(alloc, setup, first)?;
    let explored = explore_setup::<P, S, W>(alloc, setup, first, limit)?;
    let naming = naming_at_boot::<P, S, W>(alloc, by_name, names, setup)?;
    let told = explored_text(alloc, &naming, setup, &explored, begin.len(), limit)?;
    Ok(told)
}
