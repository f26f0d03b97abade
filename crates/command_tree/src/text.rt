//! The derivation forest of a kernel as text, in either form.
ghost use Rattle.std.specs.Prelude.{◌≡◌, IfOk};
ghost use Rattle.setup_report.specs.Naming.{naming_view};
ghost use Rattle.command_tree.specs.Tree as spec;

use crate::form::Form;
use crate::graph::{add_graph_head, add_nodes};
use crate::head::Head;
use crate::lines::add_forest;
use cap_core::Profile;
use ipc_core::MakeWaiters;
use kernel_core::Kernel;
use setup_format::Setup;
use setup_report::Naming;
use slot_core::{DerivationStore, MakeStore};
use std::alloc::{AllocError, Global};
use std::fmt::Write;

/// The forest of a kernel after so many calls of a set-up, as lines.
fn lines_text<P: Profile, S: MakeStore<P> + DerivationStore<P>, W: MakeWaiters<P>>(
    alloc: Global,
    naming: &Naming<'_>,
    setup: &Setup,
    made: usize,
    kernel: &Kernel<P, S, W>,
) -> Result<Vec<u8>, AllocError>
    ensures { IfOk result (λ text. text.items ≡ spec.forest_text (naming_view naming.now) setup.now made kernel.now.derivations) }
{
    let rows = kernel.derivations(alloc)?;
    let head = Head::new(setup, made);
    let mut out = String::new(alloc);
    writeln!(&mut out, "{head}")?;
    add_forest::<P>(alloc, &mut out, naming, rows.as_slice())?;
    Ok(out.into_bytes())
}

/// The same as a graph.
fn graph_text<P: Profile, S: MakeStore<P> + DerivationStore<P>, W: MakeWaiters<P>>(
    alloc: Global,
    naming: &Naming<'_>,
    setup: &Setup,
    made: usize,
    kernel: &Kernel<P, S, W>,
) -> Result<Vec<u8>, AllocError>
    ensures { IfOk result (λ text. text.items ≡ spec.graph_text (naming_view naming.now) setup.now made kernel.now.derivations) }
{
    let rows = kernel.derivations(alloc)?;
    let label = format!(in alloc; "{}", Head::new(setup, made))?;
    let mut out = String::new(alloc);
    add_graph_head(&mut out, label.as_str())?;
    add_nodes::<P>(&mut out, naming, rows.as_slice())?;
    writeln!(&mut out, "}}")?;
    Ok(out.into_bytes())
}

/// The same in a form.
pub fn text_in<P: Profile, S: MakeStore<P> + DerivationStore<P>, W: MakeWaiters<P>>(
    alloc: Global,
    form: Form,
    naming: &Naming<'_>,
    setup: &Setup,
    made: usize,
    kernel: &Kernel<P, S, W>,
) -> Result<Vec<u8>, AllocError>
    ensures { IfOk result (λ text. text.items ≡ spec.text_in form (naming_view naming.now) setup.now made kernel.now.derivations) }
{
    match form {
        Form::Lines => lines_text::<P, S, W>(alloc, naming, setup, made, kernel),
        Form::Dot => graph_text::<P, S, W>(alloc, naming, setup, made, kernel),
    }
}
