//! The report on clients that share nothing, each group by itself.
ghost use Rattle.std.specs.Prelude.{◌≡◌, ◌++◌, IfOk, OnOk, map, string_bytes};
ghost use Rattle.std.specs.List.{flat_map};
ghost use Rattle.kernel_abstract.specs.Plan.{IsPlan};
ghost use Rattle.query_orders.specs.Found.{answers_of, stuck_of};
ghost use Rattle.setup_report.specs.Naming.{naming_view};
ghost use Rattle.setup_values.specs.Names.{names_view};
ghost use Rattle.command_explore.specs.Groups as spec;
ghost use Rattle.command_explore.specs.Views.{explored_view};

use crate::report::calls::add_calls;
use crate::report::clients::{calls_of_clients, first_clients};
use crate::report::ends::add_stuck;
use crate::report::marks::CountText;
use crate::report::naming::naming_at_boot;
use crate::report::run::{ExploredText, add_expected, add_head, is_well};
use crate::report::unmet::unmet_answers;
use cap_core::Profile;
use command_check::numbers_of_clients;
use ipc_core::SaveWaiters;
use kernel_core::Kernel;
use query_orders::{
    Explored, FoundAnswer, FoundStuck, GroupExplored, GroupsExplored, explore_groups, is_in_group,
};
use setup_format::Setup;
use setup_report::Naming;
use setup_values::Name;
use slot_core::{DerivationStore, SaveStore};
use std::alloc::{AllocError, Global};
use std::fmt::Write;

/// Adds the answers of a group's own clients.
fn add_answers_of(
    out: &mut Vec<FoundAnswer>,
    groups: &[usize],
    group: &GroupExplored,
) -> Result<(), AllocError>
    ensures { OnOk result (answers_of out.new.items ≡ answers_of out.old.items ++ spec.answers_in groups.now (spec.group_view group.now)) }
{
    let answers = group.explored.found.answers.answers();
    for answer in answers {
        if is_in_group(groups, group.first, answer.client) {
            out.push(answer.share()?)?;
        }
    }
    Ok(())
}

/// The answers of each group's own clients, group by group.
fn answers_of_groups(
    alloc: Global,
    groups: &[usize],
    explored: &[GroupExplored],
) -> Result<Vec<FoundAnswer>, AllocError>
    ensures { IfOk result (λ answers. answers_of answers.items ≡ spec.group_answers groups.now (map spec.group_view explored.now)) }
{
    let mut answers = Vec::new(alloc);
    for group in explored {
        add_answers_of(&mut answers, groups, group)?;
    }
    Ok(answers)
}

/// Adds the ways in which orders of a group end stuck.
fn add_stuck_of(
    alloc: Global,
    out: &mut Vec<FoundStuck>,
    explored: &Explored,
) -> Result<(), AllocError>
    ensures { OnOk result (stuck_of out.new.items ≡ stuck_of out.old.items ++ (explored_view explored.now).stuck) }
{
    let ends = explored.found.stuck.as_slice();
    for end in ends {
        let order = end.order.share()?;
        let left = Vec::from_slice(alloc, end.left.as_slice())?;
        out.push(FoundStuck { order, left })?;
    }
    Ok(())
}

/// The ways in which orders of the groups end stuck, group by group.
fn stuck_of_groups(alloc: Global, explored: &[GroupExplored]) -> Result<Vec<FoundStuck>, AllocError>
    ensures { IfOk result (λ stuck. stuck_of stuck.items ≡ spec.group_stuck (map spec.group_view explored.now)) }
{
    let mut stuck = Vec::new(alloc);
    for group in explored {
        add_stuck_of(alloc, &mut stuck, &group.explored)?;
    }
    Ok(stuck)
}

/// Whether all orders of each group are explored.
fn are_whole(explored: &[GroupExplored]) -> bool
    ensures { result ≡ spec.are_whole (map spec.group_view explored.now) }
{
    for group in explored {
        if !group.explored.layer.nodes().is_empty() {
            return false;
        }
    }
    true
}

/// Adds the clients of a group.
fn add_clients(out: &mut String, groups: &[usize], group: usize) -> Result<(), AllocError>
    ensures { OnOk result (string_bytes out.new ≡ string_bytes out.old ++ spec.clients_text groups.now group) }
{
    for client in 0..groups.len() {
        if is_in_group(groups, group, client) {
            write!(out, " {client}")?;
        }
    }
    Ok(())
}

/// Adds how many states and orders a group has, or the limit that was reached.
fn add_counts(
    out: &mut String,
    explored: &Explored,
    first: usize,
    limit: u64,
) -> Result<(), AllocError>
    ensures { OnOk result (string_bytes out.new ≡ string_bytes out.old ++ spec.group_counts first limit (explored_view explored.now)) }
{
    if !explored.layer.nodes().is_empty() {
        let calls = first as u128 + explored.calls as u128;
        return write!(out, " states {limit} limit calls {calls}");
    }
    let states = CountText(explored.states);
    let ends = CountText(explored.found.ends);
    let orders = CountText(explored.found.orders);
    let stuck = CountText(explored.found.stuck_orders);
    write!(
        out,
        " states {states} ends {ends} orders {orders} stuck {stuck}"
    )
}

/// Adds the line of a group.
fn add_group(
    out: &mut String,
    groups: &[usize],
    group: &GroupExplored,
    first: usize,
    limit: u64,
) -> Result<(), AllocError>
    ensures { OnOk result (string_bytes out.new ≡ string_bytes out.old ++ spec.group_line first limit groups.now (spec.group_view group.now)) }
{
    write!(out, "clients")?;
    add_clients(out, groups, group.first)?;
    add_counts(out, &group.explored, first, limit)?;
    writeln!(out)
}

/// Adds a line for each group.
fn add_groups(
    out: &mut String,
    groups: &[usize],
    explored: &[GroupExplored],
    first: usize,
    limit: u64,
) -> Result<(), AllocError>
    ensures { OnOk result (string_bytes out.new ≡ string_bytes out.old
        ++ flat_map (spec.group_line first limit groups.now) (map spec.group_view explored.now)) }
{
    for group in explored {
        add_group(out, groups, group, first, limit)?;
    }
    Ok(())
}

/// The report on what groups give, of a set-up whose orders begin with `first` calls.
#[tactic(auto, unfolding(crate::specs::Groups::groups_report_on))]
fn groups_text(
    alloc: Global,
    naming: &Naming<'_>,
    setup: &Setup,
    found: &GroupsExplored,
    first: usize,
    limit: u64,
) -> Result<ExploredText, AllocError>
    ensures { IfOk result (λ r. (r.text.items, r.is_well) ≡ spec.groups_report_on (naming_view naming.now) setup.now first limit found.now.groups.items (map spec.group_view found.now.explored.items)) }
{
    let groups = found.groups.as_slice();
    let explored = found.explored.as_slice();
    let lists = numbers_of_clients(alloc, setup)?;
    let numbers = lists.as_slice();
    let answers = answers_of_groups(alloc, groups, explored)?;
    let stuck = stuck_of_groups(alloc, explored)?;
    let is_whole = are_whole(explored);
    let mut out = String::new(alloc);
    add_head(&mut out, setup)?;
    let count = add_calls(
        alloc,
        &mut out,
        naming,
        setup,
        numbers,
        is_whole,
        answers.as_slice(),
    )?;
    add_stuck(alloc, &mut out, naming, numbers, stuck.as_slice())?;
    add_groups(&mut out, groups, explored, first, limit)?;
    add_expected(&mut out, count)?;
    Ok(ExploredText {
        text: out.into_bytes(),
        is_well: is_well(is_whole, count, stuck.as_slice()),
        unmet: unmet_answers(alloc, setup, numbers, answers.as_slice())?,
    })
}

/// Explores the orders of each group of clients by itself, and reports on them: clients that share a thread or an endpoint, by the
/// calls that they have left behind the first calls of the set-up, are in one group. Where some call that is left may change
/// capabilities, all clients are in one. The limit is of the states of each group. Else all is as in
/// [`explored_report`](crate::explored_report).
pub fn groups_report<P: Profile, S: SaveStore<P> + DerivationStore<P>, W: SaveWaiters<P>>(
    alloc: Global,
    by_name: bool,
    names: &[Name],
    setup: &Setup,
    first: usize,
    limit: u64,
) -> Result<ExploredText, AllocError>
    requires { IsPlan P.profile setup.now.plan }
    ensures { IfOk result (λ r. spec.IsGroupsReport by_name P.profile (names_view names.now) setup.now first limit (r.text.items, r.is_well)) }
{
    let kernel = Kernel::<P, S, W>::boot(alloc, setup.plan())?;
    let calls = calls_of_clients(alloc, setup)?;
    let begin = first_clients(alloc, setup, first)?;
    let count = setup.calls().len() + 1;
    let found = explore_groups(
        alloc,
        calls.as_slice(),
        &kernel,
        begin.as_slice(),
        limit,
        count,
    )?;
    let naming = naming_at_boot::<P, S, W>(alloc, by_name, names, setup)?;
    let told = groups_text(alloc, &naming, setup, &found, begin.len(), limit)?;
    Ok(told)
}
