//! A set-up that makes the calls of a witness.
ghost use Rattle.std.specs.Prelude.{◌≡◌, IfOk, option_map};
ghost use Rattle.toml.specs.View.{table_view};
ghost use Rattle.kernel_abstract.specs.Plan.{IsPlan};
ghost use Rattle.command_explore.specs.Views.{explored_view};
ghost use Rattle.command_explore.specs.Witnesses as spec;

use crate::report::numbers::order_numbers;
use crate::report::run::explore_setup;
use crate::report::tables::keep_calls;
use crate::report::witness::{Witness, expecting, named_order};
use cap_core::Profile;
use command_check::numbers_of_clients;
use ipc_core::SaveWaiters;
use query_orders::Explored;
use setup_format::Setup;
use slot_core::{DerivationStore, SaveStore};
use std::alloc::{AllocError, Global};
use toml::Table;

/// The table of a set-up, of which the calls are those of the order that an exploration tells.
fn witness_in(
    alloc: Global,
    setup: &Setup,
    explored: &Explored,
    witness: Witness,
    table: Table,
) -> Result<Option<Table>, AllocError>
    ensures { IfOk result (λ made. option_map table_view made ≡ spec.witness_in setup.now (explored_view explored.now) witness (table_view table)) }
{
    let lists = numbers_of_clients(alloc, setup)?;
    let Some(order) = named_order(lists.as_slice(), explored, witness) else {
        return Ok(None);
    };
    let numbers = order_numbers(alloc, lists.as_slice(), order)?;
    let mut table = table;
    keep_calls(alloc, &mut table, numbers.as_slice(), expecting(witness))?;
    Ok(Some(table))
}

/// Explores every order of the calls that the clients of a set-up make, as `explored_report` does, and makes of the set-up's
/// table that of one in the newest format with the calls of the first order that tells what the witness is of, in that order.
/// All their keys are as they were, but that only the call of the witness keeps its expectation. `None` where the report tells
/// no such answer, and no such way to end stuck.
#[tactic(auto, unfolding(crate::specs::Witnesses::witness_of))]
pub fn make_witness<P: Profile, S: SaveStore<P> + DerivationStore<P>, W: SaveWaiters<P>>(
    alloc: Global,
    setup: &Setup,
    first: usize,
    limit: u64,
    witness: Witness,
    table: Table,
) -> Result<Option<Table>, AllocError>
    requires { IsPlan P.profile setup.now.plan }
    ensures { IfOk result (λ made. option_map table_view made ≡ spec.witness_of P.profile setup.now first limit witness (table_view table)) }
{
    let explored = explore_setup::<P, S, W>(alloc, setup, first, limit)?;
    witness_in(alloc, setup, &explored, witness, table)
}
