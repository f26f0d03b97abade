//! How a breach of a policy happens, as the answer of a command.
ghost use Rattle.std.specs.Prelude.{◌≡◌, ◌≤◌, IfOk, codes, length, map, option_map, string_bytes};
ghost use Rattle.kernel_abstract.specs.Plan.{IsPlan};
ghost use Rattle.command_policy.specs.Policies.{IsJudged};
ghost use Rattle.command_policy_how.specs.Breach.{breach_at};
ghost use Rattle.command_policy_how.specs.Told as spec;
ghost use Rattle.command_how.specs.How.{IsNothing, most_of as most_of_states};
ghost use Rattle.command_how.specs.Line.{answer_text};
ghost use Rattle.setup_values.specs.Names.{names_view};

use crate::asking::{BreachOutcome, ask};
use crate::breach::{asked_breaches, told_by};
use cap_core::Profile;
use command_check::{Behind, Command};
use command_core::{Answer, Verdict};
use command_how::{NoWitness, most_of};
use command_policy::{HeldTo, Judged, Judging};
use command_policy_text::Told;
use ipc_core::{MakeWaiters, SaveWaiters};
use setup_format::{ReadSetup, Setup};
use setup_marks::is_for_flows;
use setup_policy::PolicyVersion;
use setup_report::{count_refused, kernel_after};
use slot_core::{DerivationStore, MakeStore, SaveStore};
use std::alloc::{AllocError, Global};

/// By which calls the breach with this number, from 1, of a policy's text happens. The policy is given by its bytes; so many calls are
/// made, and so many copies of the kernel are tried at most, where the command line says so.
///
/// The verdict is `AllMet` where the text is a witness: a set-up that makes the first calls, then others by which the breach happens,
/// and meets all that it expects; `NotMet` with a line where it is excluded, no calls are found, or it is asked of no two threads; or
/// `Absent` with nothing written: where the text has fewer breaches, where the breach is of what is there already, and where
/// `import --flows` made the set-up.
#[derive(Clone, Copy, Drop)]
pub struct BreachHow<'a> {
    pub policy: &'a [u8],
    pub breach: u64,
    pub after: Option<u64>,
    pub states: Option<u64>,
}

/// The line with a number, from 1.
fn line_at(lines: &[String], number: u64) -> Option<&str>
    ensures { option_map (λ s. s.now) result ≡ breach_at (map string_bytes lines.now) number }
{
    let place = number.checked_sub(1)?;
    let line = lines.get(place as usize)?;
    Some(line.as_str())
}

/// The line that no calls are told of a breach.
fn line_of(alloc: Global, breach: u64, answer: NoWitness) -> Result<Answer, AllocError>
    ensures { IfOk result (λ made. (made.text.items ≡ spec.breach_how_line breach (answer_text answer)) × (made.verdict ≡ Verdict.NotMet)) }
{
    let line = format!(in alloc; "how {breach} {answer}\n")?;
    Ok(Answer::new(alloc, line.into_bytes(), Verdict::NotMet))
}

/// The line that it is asked of no two threads how a breach happens.
fn line_of_none(alloc: Global, breach: u64) -> Result<Answer, AllocError>
    ensures { IfOk result (λ made. (made.text.items ≡ spec.breach_how_line breach (codes "not asked")) × (made.verdict ≡ Verdict.NotMet)) }
{
    let line = format!(in alloc; "how {breach} not asked\n")?;
    Ok(Answer::new(alloc, line.into_bytes(), Verdict::NotMet))
}

/// Where the slots of a breach are shown, by its line: in version 2 the line below it has them, if there is one.
fn where_shown(version: PolicyVersion, line: &str) -> &'static str {
    let is_alone = line.starts_with("breach call ") || line.starts_with("breach joined ");
    match version {
        PolicyVersion::Two if !is_alone => "the line below it has its slot",
        _ => "sel4sim never has the chain of slots",
    }
}

impl BreachHow<'_> {
    /// No text, and what standard error says: the text has no such breach; or no calls are looked for, since `import --flows` made the
    /// set-up, or since the breach is not one of which it is asked.
    fn absent(
        &self,
        alloc: Global,
        judged: &Judged,
        lines: &[String],
        is_asked: bool,
    ) -> Result<Answer, AllocError>
        ensures { IfOk result (λ made. IsNothing made.text.items made.verdict) }
    {
        let number = self.breach;
        let Some(line) = line_at(lines, number) else {
            let count = lines.len();
            let words = format!(in alloc; "--how {number}: count of breaches: {count}")?;
            return Ok(Answer::absent(alloc, words));
        };
        let why = if is_asked {
            "the set-up is one of import --flows, where no calls are looked for"
        } else {
            "this is there already, and no calls to come are asked for"
        };
        let shown = where_shown(judged.policy.version, line);
        let words = format!(in alloc; "--how {number}: {line}: {why}; {shown}")?;
        Ok(Answer::absent(alloc, words))
    }

    /// The breach that is asked of, where calls are asked for.
    fn breach_in(
        &self,
        alloc: Global,
        judged: &Judged,
        lines: &[String],
    ) -> Result<Option<Told>, AllocError>
        ensures { IfOk result (spec.IsFoundIn self.now.breach (map string_bytes lines.now) judged.now) }
    {
        let Some(line) = line_at(lines, self.breach) else {
            return Ok(None);
        };
        let held = judged.held();
        let breaches = asked_breaches(alloc, held, judged.passages.as_slice())?;
        told_by(alloc, held, breaches.as_slice(), line)
    }

    /// The answer for a breach.
    fn answer_to<P: Profile, S: MakeStore<P> + DerivationStore<P>, W: MakeWaiters<P>>(
        &self,
        alloc: Global,
        behind: &Behind<'_>,
        judged: &Judged,
        told: Told,
    ) -> Result<Answer, AllocError>
        requires plan { IsPlan P.profile behind.now.setup.now.plan }
        requires made { behind.now.made ≤ length behind.now.setup.now.calls }
        requires judged { IsJudged P.profile behind.now.setup.now behind.now.made judged.now }
        ensures { IfOk result (λ answer. spec.IsToldOfBreach self.now.breach (most_of_states self.now.states) P.profile behind.now.setup.now behind.now.made judged.now told answer.text.items answer.verdict) }
    {
        let kernel = kernel_after::<P, S, W>(alloc, behind.setup, behind.made)?;
        let most = most_of(self.states);
        match ask::<P, S, W>(alloc, behind, &kernel, judged.held(), told, most)? {
            BreachOutcome::Witness(text) => Ok(Answer::new(alloc, text, Verdict::AllMet)),
            BreachOutcome::Without(answer) => line_of(alloc, self.breach, answer),
            BreachOutcome::NotAsked => line_of_none(alloc, self.breach),
        }
    }

    /// The answer for a set-up that is judged.
    fn answer_of<P: Profile, S: MakeStore<P> + DerivationStore<P>, W: MakeWaiters<P>>(
        &self,
        alloc: Global,
        behind: &Behind<'_>,
        judged: &Judged,
    ) -> Result<Answer, AllocError>
        requires plan { IsPlan P.profile behind.now.setup.now.plan }
        requires made { behind.now.made ≤ length behind.now.setup.now.calls }
        requires judged { IsJudged P.profile behind.now.setup.now behind.now.made judged.now }
        ensures { IfOk result (λ answer. spec.IsAnswerUnlessFlows self.now.breach (most_of_states self.now.states) P.profile (names_view behind.now.names.now)
            behind.now.setup.now behind.now.made judged.now answer.text.items answer.verdict) }
    {
        let lines = judged.breach_lines(alloc, behind.setup)?;
        let found = self.breach_in(alloc, judged, lines.as_slice())?;
        if is_for_flows(behind.names) {
            return self.absent(alloc, judged, lines.as_slice(), found.is_some());
        }
        match found {
            Some(told) => self.answer_to::<P, S, W>(alloc, behind, judged, told),
            None => self.absent(alloc, judged, lines.as_slice(), false),
        }
    }
}

impl Command for BreachHow<'_> {
    ghost use Rattle.command_policy_how.specs.Told.{IsBreachHow};

    ghost answers = { λ how. IsBreachHow how.breach how.policy.now how.after how.states };

    fn answer<P: Profile, S: SaveStore<P> + DerivationStore<P>, W: SaveWaiters<P>>(
        &self,
        alloc: Global,
        read: &ReadSetup,
    ) -> Result<Answer, AllocError> {
        let held = HeldTo {
            policy: self.policy,
            after: self.after,
        };
        match held.judged::<P, S, W>(alloc, read)? {
            Judging::Answered(answer) => Ok(answer),
            Judging::Done { judged, made, .. } => {
                let behind = Behind {
                    names: read.names.as_slice(),
                    setup: &read.setup,
                    text: read.text.as_slice(),
                    made,
                    refused: count_refused(judged.replies.as_slice()),
                };
                self.answer_of::<P, S, W>(alloc, &behind, &judged)
            }
        }
    }
}
