//! The run of a set-up: from the bytes of an input to the text that is written for it.
ghost use Rattle.std.specs.Prelude.{◌≡◌, IfOk, codes, ◌++◌, []};
ghost use Rattle.kernel_abstract.specs.Boot.{boot as boot_state};
ghost use Rattle.kernel_abstract.specs.Plan.{IsPlan};
ghost use Rattle.kernel_abstract.specs.State.{shown};
ghost use Rattle.setup_format.specs.Refusal.{setup_fault_text};
ghost use Rattle.setup_format.specs.Setups.{setup_of_bytes};
ghost use Rattle.command_check.specs.Notes.{unexpected_from, unexpected_in};
ghost use Rattle.setup_values.specs.Names.{names_view};
ghost use Rattle.command_check.specs.Program.{IsTextTold, IsTextOfSetup, program, replies_to, end_state, texts_after, verdict_in, verdict_on as verdict_of_counts};

use crate::notes::notes_on;
use cap_core::{Narrow, Profile, ProfileName, Wide};
use command_core::{Answer, Notes, Verdict};
use ipc_core::MakeWaiters;
use kernel_core::{BootPlan, Kernel, Reply};
use setup_format::{Setup, SetupFault, read_setup};
use setup_report::{ExpectationCount, Naming, counted_report};
use setup_values::Name;
use slot_core::{DerivationStore, MakeStore};
use std::alloc::{AllocError, Global};

/// The text that is written for an input, the count of its expectations, and what standard error says.
#[derive(Drop)]
pub struct CountedText {
    /// The report, or the line by which the set-up is refused.
    pub text: Vec<u8>,
    /// How many calls have an expectation, and how many of these are met; nothing if the set-up is refused.
    pub count: Option<ExpectationCount>,
    /// What standard error says.
    pub notes: Notes,
}

impl CountedText {
    /// Whether all expectations are met, one is not, or the set-up is refused.
    pub fn verdict(&self) -> Verdict
        ensures { result ≡ verdict_in self.now.count }
    {
        match self.count {
            Some(count) => verdict_on(count),
            None => Verdict::Refused,
        }
    }

    /// The text with its verdict, and what standard error says.
    pub fn answer(self) -> Answer
        ensures text { result.text ≡ self.text }
        ensures verdict { result.verdict ≡ verdict_in self.count }
        ensures notes { result.notes ≡ self.notes }
    {
        let verdict = self.verdict();
        let CountedText { text, notes, .. } = self;
        Answer {
            text,
            verdict,
            notes,
        }
    }
}

/// Boots a kernel. Out of line, as are the other parts of a run, so that a profile tells them apart.
#[inline(never)]
fn boot<P: Profile, S: MakeStore<P>, W: MakeWaiters<P>>(
    alloc: Global,
    plan: &BootPlan,
) -> Result<Kernel<P, S, W>, AllocError>
    requires { IsPlan P.profile plan.now }
    ensures { IfOk result (λ kernel. kernel ≡ shown (boot_state P.profile plan.now)) }
{
    Kernel::boot(alloc, plan)
}

/// Boots a kernel from the set-up's plan and makes its calls: the kernel then, and the replies.
#[inline(never)]
#[tactic(auto, unfolding(crate::specs::Program::replies_to, crate::specs::Program::end_state))]
pub fn run_calls<P: Profile, S: MakeStore<P>, W: MakeWaiters<P>>(
    alloc: Global,
    setup: &Setup,
) -> Result<(Kernel<P, S, W>, Vec<Reply>), AllocError>
    requires { IsPlan P.profile setup.now.plan }
    ensures kernel { IfOk result (λ r. r.0 ≡ shown (end_state P.profile setup.now)) }
    ensures replies { IfOk result (λ r. r.1.items ≡ replies_to P.profile setup.now) }
{
    let mut kernel = boot::<P, S, W>(alloc, setup.plan())?;
    let calls = setup.calls();
    let mut replies = Vec::with_capacity(alloc, calls.len())?;
    kernel.run(calls, &mut replies);
    Ok((kernel, replies))
}

/// Runs the set-up in a profile, and reports on it by addresses, or by names.
#[inline(never)]
#[tactic(auto, using(crate::proofs::Runs::length_replies_to))]
pub fn run_setup<P: Profile, S: MakeStore<P> + DerivationStore<P>, W: MakeWaiters<P>>(
    alloc: Global,
    by_name: bool,
    names: &[Name],
    setup: &Setup,
) -> Result<CountedText, AllocError>
    requires { IsPlan P.profile setup.now.plan }
    ensures text { IfOk result (IsTextTold (texts_after by_name P.profile (names_view names.now) setup.now) P.profile setup.now) }
    ensures refused { IfOk result (λ made. made.notes.refused.items ≡ unexpected_from 1 setup.now.calls (replies_to P.profile setup.now)) }
{
    let (kernel, made) = run_calls::<P, S, W>(alloc, setup)?;
    let replies = made.as_slice();
    let naming = Naming::in_report::<P, S, W>(alloc, by_name, names, setup.plan(), &kernel)?;
    let (text, count) = counted_report(alloc, &naming, setup, replies, &kernel)?;
    let notes = notes_on(alloc, setup, replies, count)?;
    Ok(CountedText {
        text,
        count: Some(count),
        notes,
    })
}

/// Whether all expectations are met.
pub fn verdict_on(count: ExpectationCount) -> Verdict
    ensures { result ≡ verdict_of_counts count.met count.expected }
{
    if count.met == count.expected {
        Verdict::AllMet
    } else {
        Verdict::NotMet
    }
}

/// The line by which a set-up is refused.
pub fn refusal(alloc: Global, fault: &SetupFault) -> Result<Vec<u8>, AllocError>
    ensures { IfOk result (λ text. text.items ≡ setup_fault_text fault.now ++ codes "\n") }
{
    let text = format!(in alloc; "{fault}\n")?;
    Ok(text.into_bytes())
}

/// The answer that refuses a set-up.
pub fn refused(alloc: Global, fault: &SetupFault) -> Result<Answer, AllocError>
    ensures text { IfOk result (λ made. made.text.items ≡ setup_fault_text fault.now ++ codes "\n") }
    ensures verdict { IfOk result (λ made. made.verdict ≡ Verdict.Refused) }
    ensures unmet { IfOk result (λ made. made.notes.unmet.items ≡ []) }
{
    let text = refusal(alloc, fault)?;
    Ok(Answer::new(alloc, text, Verdict::Refused))
}

/// The text that the program writes for the bytes of its input, and the count of the expectations. The kernel has the words
/// of the set-up's profile: `S` and `W` are the stores of a wide kernel, `T` and `V` those of a narrow one. The text is the
/// same whatever stores it is made of.
pub fn counted_text_of<
    S: MakeStore<Wide> + DerivationStore<Wide>,
    W: MakeWaiters<Wide>,
    T: MakeStore<Narrow> + DerivationStore<Narrow>,
    V: MakeWaiters<Narrow>,
>(alloc: Global, bytes: &[u8]) -> Result<CountedText, AllocError>
    ensures text { IfOk result (IsTextOfSetup (setup_of_bytes bytes.now)) }
    ensures refused { IfOk result (λ made. made.notes.refused.items ≡ unexpected_in (setup_of_bytes bytes.now)) }
{
    match read_setup(alloc, bytes) {
        Ok(setup) => match setup.profile() {
            ProfileName::Wide => run_setup::<Wide, S, W>(alloc, false, &[], &setup),
            ProfileName::Narrow => run_setup::<Narrow, T, V>(alloc, false, &[], &setup),
        },
        Err(SetupFault::Memory) => Err(AllocError),
        Err(fault) => Ok(CountedText {
            text: refusal(alloc, &fault)?,
            count: None,
            notes: Notes::none(alloc),
        }),
    }
}

/// The text that the program writes for the bytes of its input, and the verdict, as `counted_text_of` gives them.
pub fn text_of<
    S: MakeStore<Wide> + DerivationStore<Wide>,
    W: MakeWaiters<Wide>,
    T: MakeStore<Narrow> + DerivationStore<Narrow>,
    V: MakeWaiters<Narrow>,
>(alloc: Global, bytes: &[u8]) -> Result<Answer, AllocError>
    ensures text { IfOk result (λ made. (made.text.items, made.verdict) ≡ program bytes.now) }
    ensures refused { IfOk result (λ made. made.notes.refused.items ≡ unexpected_in (setup_of_bytes bytes.now)) }
{
    let made = counted_text_of::<S, W, T, V>(alloc, bytes)?;
    Ok(made.answer())
}
