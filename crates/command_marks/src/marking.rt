//! The run of a set-up, and the marks of its calls.
ghost use Rattle.std.specs.Prelude.{◌≡◌, IfOk, length};
ghost use Rattle.kernel_abstract.specs.Plan.{IsPlan};
ghost use Rattle.setup_report.specs.Report.{met_count, expectation_count};
ghost use Rattle.command_check.specs.Program.{replies_to};
ghost use Rattle.command_marks.specs.Marks as spec;

use crate::mark::{Mark, mark_of};
use cap_core::Profile;
use command_check::run_calls;
use ipc_core::MakeWaiters;
use kernel_core::Reply;
use setup_format::Setup;
use setup_report::{ExpectationCount, expectations};
use slot_core::MakeStore;
use std::alloc::{AllocError, Global};

/// The marks of a set-up's calls, given the reply to each.
fn marks(alloc: Global, setup: &Setup, replies: &[Reply]) -> Result<Vec<Mark>, AllocError>
    requires { length replies.now ≡ length setup.now.calls }
    ensures { IfOk result (λ marks. marks.items ≡ spec.marks_of setup.now.calls replies.now) }
{
    let mut marks = Vec::new(alloc);
    for (i, call) in setup.calls().iter().enumerate() {
        let mark = mark_of(alloc, i + 1, call, setup.expect(i), replies[i])?;
        marks.push(mark)?;
    }
    Ok(marks)
}

/// The marks of a set-up's calls, and how many of its expectations are met.
#[derive(Drop)]
pub(crate) struct Marked {
    pub(crate) marks: Vec<Mark>,
    pub(crate) count: ExpectationCount,
}

/// Runs the set-up in a profile, and marks its calls.
#[tactic(auto, using(crate::proofs::Sequences::replies_length, crate::proofs::Sequences::marks_length))]
pub(crate) fn mark_setup<P: Profile, S: MakeStore<P>, W: MakeWaiters<P>>(
    alloc: Global,
    setup: &Setup,
) -> Result<Marked, AllocError>
    requires { IsPlan P.profile setup.now.plan }
    ensures marks { IfOk result (λ made. made.marks.items ≡ spec.marks_of setup.now.calls (replies_to P.profile setup.now)) }
    ensures length { IfOk result (λ made. length made.marks.items ≡ length setup.now.calls) }
    ensures met { IfOk result (λ made. made.count.met ≡ met_count setup.now.calls (replies_to P.profile setup.now)) }
    ensures expected { IfOk result (λ made. made.count.expected
        ≡ expectation_count setup.now.calls (replies_to P.profile setup.now)) }
{
    let (_, replies) = run_calls::<P, S, W>(alloc, setup)?;
    let marks = marks(alloc, setup, replies.as_slice())?;
    let count = expectations(alloc, setup, replies.as_slice())?;
    Ok(Marked { marks, count })
}
