//! The report of a run: each call with its reply, what the kernel shows at the end, and how many expectations are met; and how
//! texts name objects, slots and threads, by addresses or by the names that a set-up gives. And what a word of a command line or of
//! a policy stands for (`meanings`).
#![tactic(auto)]

ghost use Rattle.std.specs.Prelude.{◌≡◌, length, IfOk};
ghost use Rattle.setup_report.specs.Naming.{naming_view};
ghost use Rattle.setup_report.specs.Report.{report_of, report_told, met_count, expectation_count};

mod behind;
mod calls;
mod known;
mod lines;
mod live;
mod meanings;
mod memory;
mod naming;
mod objects;
mod state;
mod text;

pub use behind::{calls_made, count_refused, kernel_after, run_first};
pub use calls::{ExpectationCount, add_call, expectations};
use cap_core::Profile;
use ipc_core::Waiters;
use kernel_core::{Kernel, Reply};
pub use known::ObjectNames;
pub use lines::{EndpointLine, SlotLine, ThreadLine};
pub use live::{NamedObject, base_named, named, selfheld};
pub use memory::{add_state, first_sends, waiting_threads};
pub use naming::{Naming, Told};
pub use objects::{Node, Object};
use setup_format::Setup;
use slot_core::DerivationStore;
pub use state::{StateRows, state_rows};
use std::alloc::{AllocError, Global};
use std::fmt::Write;
pub use text::{
    AnsweredText, CapText, HeldSlot, InboxText, MessageText, NumbersText, RefusalText, ReplyText,
    RightsText, StateText, ThreadsText,
};

/// The report of a run as text: a line for each call of the set-up with its reply; of the memory, as `kernel` shows it,
/// a line for each live thread, each live endpoint, each full slot and each CNode that only slots of its own name, each
/// by rising address; and how many of the expectations are met.
///
/// `replies` has the reply to each call, in order. The lines, and what is read of a kernel, are this project's profile.
pub fn report<P: Profile, S: DerivationStore<P> + Drop, W: Waiters<P> + Drop>(
    alloc: Global,
    setup: &Setup,
    replies: &[Reply],
    kernel: &Kernel<P, S, W>,
) -> Result<Vec<u8>, AllocError>
    requires replies { length replies.now ≡ length setup.now.calls }
    ensures { IfOk result (λ v. v.items ≡ report_of P.profile setup.now.calls replies.now kernel.now) }
{
    let (text, _) = counted_report(alloc, &Naming::plain(), setup, replies, kernel)?;
    Ok(text)
}

/// The report of a run as `report` gives it, but for objects and slots, which stand as a naming writes them; and the count of
/// its expectations, as `expectations` gives it.
#[tactic(auto, unfolding(crate::specs::Report::report_told))]
pub fn counted_report<P: Profile, S: DerivationStore<P> + Drop, W: Waiters<P> + Drop>(
    alloc: Global,
    naming: &Naming<'_>,
    setup: &Setup,
    replies: &[Reply],
    kernel: &Kernel<P, S, W>,
) -> Result<(Vec<u8>, ExpectationCount), AllocError>
    requires replies { length replies.now ≡ length setup.now.calls }
    ensures report { IfOk result (λ r. r.0.items ≡ report_told (naming_view naming.now) P.profile setup.now.calls replies.now kernel.now) }
    ensures met { IfOk result (λ r. r.1.met ≡ met_count setup.now.calls replies.now) }
    ensures expected { IfOk result (λ r. r.1.expected ≡ expectation_count setup.now.calls replies.now) }
{
    let mut out = String::new(alloc);
    let count = calls::add_calls(alloc, &mut out, naming, setup, replies)?;
    add_state::<P, S, W>(alloc, &mut out, naming, kernel)?;
    let met = count.met;
    let expected = count.expected;
    writeln!(out, "expected {met} of {expected}")?;
    Ok((out.into_bytes(), count))
}

pub use meanings::{
    ObjectKind, absent_object, absent_slot, are_meant, number_meant, object_meant, objects_meant,
    slot_meant,
};
