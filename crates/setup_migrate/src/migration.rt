//! A set-up of format 1 in format 2.
ghost use Rattle.std.specs.Prelude.{◌≡◌, IfOk, IfErr};
ghost use Rattle.toml.specs.View.{table_view};
ghost use Rattle.kernel_abstract.specs.Plan.{IsPlan};
ghost use Rattle.setup_format.specs.Faults.{Fails, Gives};
ghost use Rattle.setup_format.specs.Setups.{setup_of, setup_of_bytes, first_format_setup_of_bytes};
ghost use Rattle.setup_migrate.specs.Migration as spec;

use crate::calls::name_threads;
use crate::names::boot_names;
use crate::tables::put;
use cap_core::{Narrow, Profile, ProfileName, Wide};
use kernel_boot::BootPlan;
use setup_format::limits::NEWEST_FORMAT;
use setup_format::{SetupFault, read_document, read_first_format};
use std::alloc::{AllocError, Global};
use toml::{Table, Value};

/// Rewrites the table of a set-up of format 1 with this plan in format 2.
fn rewrite<P: Profile>(alloc: Global, plan: &BootPlan, table: &mut Table) -> Result<(), AllocError>
    requires { IsPlan P.profile plan.now }
    ensures { IfOk result (λ _. table_view table.new ≡ spec.migrated P.profile plan.now (table_view table.old)) }
{
    put(
        table,
        String::from_str(alloc, "format")?,
        Value::from(NEWEST_FORMAT),
    )?;
    let names = boot_names::<P>(alloc, plan)?;
    put(table, String::from_str(alloc, "names")?, Value::from(names))?;
    name_threads::<P>(alloc, plan, table)
}

/// The table of format 2 that stands for a set-up of format 1: the document's, with `format` 2; with `names` for the
/// address and the slot of each boot thread (`thread_0`, `tcb_0`) and for the slot of each boot endpoint (`ep_0`) and
/// untyped region (`untyped_0`); and with `@thread_0` for the thread of a call that is boot thread 0, however its
/// address is spelt. It is read as the same set-up.
///
/// # Errors
///
/// The first fault of the set-up by the rules of format 1 alone, in which format 2 is no format; or `Memory` in place
/// of any answer if memory was refused.
#[tactic(auto, unfolding(crate::specs::Migration::migrated_bytes, setup_format::specs::Setups::first_format_setup_of_bytes))]
pub fn migrate(alloc: Global, bytes: &[u8]) -> Result<Table, SetupFault>
    ensures table { Gives table_view result (spec.migrated_bytes bytes.now) }
    ensures refused { IfErr result (λ e. Fails e (first_format_setup_of_bytes bytes.now)) }
    ensures same_setup { IfOk result (λ t. setup_of (table_view t) ≡ first_format_setup_of_bytes bytes.now) }
    ensures same_as_read { IfOk result (λ t. setup_of (table_view t) ≡ setup_of_bytes bytes.now) }
{
    let mut table = read_document(alloc, bytes)?;
    let setup = read_first_format(alloc, &table)?;
    match setup.profile() {
        ProfileName::Wide => rewrite::<Wide>(alloc, setup.plan(), &mut table)?,
        ProfileName::Narrow => rewrite::<Narrow>(alloc, setup.plan(), &mut table)?,
    }
    Ok(table)
}
