//! How a report tells threads and endpoints.
ghost use Rattle.std.specs.Prelude.{◌≡◌, IfOk};
ghost use Rattle.kernel_abstract.specs.Plan.{IsPlan};
ghost use Rattle.setup_values.specs.Names.{names_view};
ghost use Rattle.setup_report.specs.Naming.{naming_view};
ghost use Rattle.command_explore.specs.Report.{texts_at_boot};

use cap_core::Profile;
use ipc_core::SaveWaiters;
use kernel_core::Kernel;
use setup_format::Setup;
use setup_report::Naming;
use setup_values::Name;
use slot_core::{DerivationStore, SaveStore};
use std::alloc::{AllocError, Global};

/// How a report tells threads and endpoints: by addresses alone, or by the names that objects have. Only for names a kernel
/// is booted.
pub fn naming_at_boot<'a, P: Profile, S: SaveStore<P> + DerivationStore<P>, W: SaveWaiters<P>>(
    alloc: Global,
    by_name: bool,
    names: &'a [Name],
    setup: &Setup,
) -> Result<Naming<'a>, AllocError>
    requires { IsPlan P.profile setup.now.plan }
    ensures { IfOk result (λ naming. naming_view naming ≡ texts_at_boot by_name P.profile (names_view names.now) setup.now) }
{
    if !by_name {
        return Ok(Naming::plain());
    }
    let plan = setup.plan();
    let kernel = Kernel::<P, S, W>::boot(alloc, plan)?;
    Naming::in_report::<P, S, W>(alloc, true, names, plan, &kernel)
}
