//! The check of one file, strict or not, written by addresses or by names.
ghost use Rattle.std.specs.Prelude.{◌≡◌};
ghost use Rattle.command_files.specs.Strict as spec;

use cap_core::{Narrow, Profile, Wide};
use command_check::{Command, run_setup, text_of};
use command_core::{Answer, Engine, RunFault, Verdict};
use ipc_core::{LinkedWaiters, SaveWaiters};
use setup_format::ReadSetup;
use slot_core::{DerivationStore, LinkedStore, SaveStore};
use std::alloc::{AllocError, Global};

/// The verdict, by the numbers of the calls that were refused and of which nothing was expected. A strict check counts such a call as
/// one whose expectation is not met.
pub(crate) fn strict_verdict(strict: bool, refused: &[usize], verdict: Verdict) -> Verdict
    ensures { result ≡ spec.strict_verdict strict refused.now verdict }
{
    if !strict {
        return verdict;
    }
    match (refused, verdict) {
        ([_, ..], Verdict::AllMet) => Verdict::NotMet,
        _ => verdict,
    }
}

/// The answer, with that verdict.
fn judged(strict: bool, answer: Answer) -> Answer
    ensures text { result.text ≡ answer.text }
    ensures verdict { result.verdict ≡ spec.strict_verdict strict answer.notes.refused.items answer.verdict }
{
    let verdict = strict_verdict(strict, answer.notes.refused.as_slice(), answer.verdict);
    let Answer { text, notes, .. } = answer;
    Answer {
        text,
        verdict,
        notes,
    }
}

/// The report of a set-up's run, by the linked forms, and the verdict of the expectations.
#[derive(Clone, Copy)]
pub struct FileCheck {
    /// Whether a call that is refused, and of which nothing was expected, counts as one whose expectation is not met.
    pub strict: bool,
}

impl Engine for FileCheck {
    ghost use Rattle.command_files.specs.Strict.{checked};

    ghost means = { λ check input text verdict. checked check.strict input ≡ (text, verdict) };

    #[tactic(auto, using(crate::proofs::Verdicts::checked_is))]
    fn make(&self, alloc: Global, input: &[u8]) -> Result<Answer, RunFault> {
        let made = text_of::<
            LinkedStore<Wide>,
            LinkedWaiters<Wide>,
            LinkedStore<Narrow>,
            LinkedWaiters<Narrow>,
        >(alloc, input);
        match made {
            Ok(answer) => Ok(judged(self.strict, answer)),
            Err(_) => Err(RunFault::Memory),
        }
    }
}

/// The same with names in place of addresses: objects and slots that have a name in the state after the calls are written by it.
#[derive(Clone, Copy, Drop)]
pub struct NamedCheck {
    /// As `FileCheck` has it.
    pub strict: bool,
}

impl Command for NamedCheck {
    ghost use Rattle.command_files.specs.Strict.{IsNamedCheck};

    ghost answers = { λ check. IsNamedCheck check.strict };

    fn answer<P: Profile, S: SaveStore<P> + DerivationStore<P>, W: SaveWaiters<P>>(
        &self,
        alloc: Global,
        read: &ReadSetup,
    ) -> Result<Answer, AllocError> {
        let names = read.names.as_slice();
        let made = run_setup::<P, S, W>(alloc, true, names, &read.setup)?;
        Ok(judged(self.strict, made.answer()))
    }
}
