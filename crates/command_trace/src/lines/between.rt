//! How the states of two kernels differ.
ghost use Rattle.std.specs.Prelude.{◌≡◌, ◌++◌, IfOk, OnOk, string_bytes};
ghost use Rattle.setup_report.specs.Naming.{naming_view};
ghost use Rattle.command_trace.specs.Changes.{changes, lines_of_state};
ghost use Rattle.command_trace.specs.Views.{IsViewOf};

use crate::lines::state::{View, add_view_changes, view_of};
use cap_core::Profile;
use ipc_core::Waiters;
use kernel_core::Kernel;
use setup_report::Naming;
use slot_core::DerivationStore;
use std::alloc::{AllocError, Global};

/// What is told of a kernel's state.
fn view_of_kernel<P: Profile, S: DerivationStore<P> + Drop, W: Waiters<P> + Drop>(
    alloc: Global,
    naming: &Naming<'_>,
    kernel: &Kernel<P, S, W>,
) -> Result<View, AllocError>
    ensures { IfOk result (IsViewOf (naming_view naming.now) P.profile kernel.now) }
{
    let slots = kernel.derivations(alloc)?;
    view_of::<P, S, W>(alloc, naming, slots, kernel)
}

/// Adds how the state of a kernel differs from that of another one, as a trace tells what a call changed: each line of the
/// old state that is gone, and each that is new.
pub fn add_changes_between<P: Profile, S: DerivationStore<P> + Drop, W: Waiters<P> + Drop>(
    alloc: Global,
    out: &mut String,
    naming: &Naming<'_>,
    old: &Kernel<P, S, W>,
    new: &Kernel<P, S, W>,
) -> Result<(), AllocError>
    ensures { OnOk result (string_bytes out.new ≡ string_bytes out.old
        ++ changes (lines_of_state (naming_view naming.now) P.profile old.now) (lines_of_state (naming_view naming.now) P.profile new.now)) }
{
    let before = view_of_kernel::<P, S, W>(alloc, naming, old)?;
    let after = view_of_kernel::<P, S, W>(alloc, naming, new)?;
    add_view_changes::<P>(alloc, out, naming, &before, &after)
}
