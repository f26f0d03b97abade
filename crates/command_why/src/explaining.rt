//! The lines of a reason.
ghost use Rattle.std.specs.Prelude.{◌≡◌, ◌++◌, IfOk, OnOk, option_map, string_bytes};
ghost use Rattle.command_why.specs.Asked.{asked_texts, asked_view};
ghost use Rattle.command_why.specs.Reasons.{reason_lines};
ghost use Rattle.command_why.specs.Why.{reason_lines_of};

use crate::reasons::{Asked, add_capability, add_no_depth, add_not_found, add_not_ready};
use crate::threads::add_no_thread;
use cap_core::Profile;
use ipc_core::Waiters;
use kernel_core::{Kernel, Reason};
use slot_core::DerivationStore;
use std::alloc::{AllocError, Global};

/// Adds the lines of a reason, as the kernel stands before the call.
fn add_reason<P: Profile, S: DerivationStore<P> + Drop, W: Waiters<P> + Drop>(
    alloc: Global,
    out: &mut String,
    kernel: &Kernel<P, S, W>,
    asked: Asked<'_, '_>,
    reason: Reason,
) -> Result<(), AllocError>
    ensures { OnOk result (string_bytes out.new ≡ string_bytes out.old
        ++ reason_lines (asked_texts asked.entry) P.profile kernel.now (asked_view asked.entry) reason) }
{
    match reason {
        Reason::NoThread => add_no_thread::<P, S, W>(alloc, out, kernel, asked),
        Reason::NotReady(state) => add_not_ready(out, asked, state),
        Reason::NotFound { word, from, miss } => {
            add_not_found::<P, S, W>(alloc, out, kernel, asked, word, from, miss)
        }
        Reason::NoDepth { word, from, most } => {
            add_no_depth::<P, S, W>(out, kernel, asked, word, from, most)
        }
        _ => add_capability(out, asked, reason),
    }
}

/// The lines of the reason why the kernel, as it stands, refuses a call; `None` if it does not.
pub fn explain<P: Profile, S: DerivationStore<P> + Drop, W: Waiters<P> + Drop>(
    alloc: Global,
    kernel: &Kernel<P, S, W>,
    asked: Asked<'_, '_>,
) -> Result<Option<String>, AllocError>
    ensures { IfOk result (λ lines. option_map string_bytes lines ≡ reason_lines_of (asked_texts asked.entry) P.profile kernel.now (asked_view asked.entry)) }
{
    match kernel.reason(asked.call) {
        None => Ok(None),
        Some(reason) => {
            let mut lines = String::new(alloc);
            add_reason::<P, S, W>(alloc, &mut lines, kernel, asked, reason)?;
            Ok(Some(lines))
        }
    }
}
