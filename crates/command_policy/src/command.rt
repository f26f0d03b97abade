//! A set-up that is held to a policy, as the answer of a command.
ghost use Rattle.std.specs.Prelude.{◌≡◌, false, IfOk, Some};
ghost use Rattle.std.specs.Option.{option_or};
ghost use Rattle.kernel_abstract.specs.Plan.{IsPlan};
ghost use Rattle.setup_format.specs.Read.{read_view};
ghost use Rattle.setup_report.specs.Behind.{calls_made as calls_made_of};
ghost use Rattle.setup_report.specs.State.{is_in};
ghost use Rattle.setup_policy_file.specs.Files.{IsPolicyText};
ghost use Rattle.command_policy.specs.Policies.{IsJudging, IsPolicyRefused, refused_line};

use crate::judging::{Judged, judge, origin_of};
use crate::notes::{note_on_refusal, notes_on};
use cap_core::Profile;
use command_check::Command;
use command_core::{Answer, PolicyNote, Verdict};
use ipc_core::{MakeWaiters, SaveWaiters};
use setup_format::ReadSetup;
use setup_policy_file::{Fault, Place, PolicyFile, Refusal, Spot, read_policy};
use setup_report::calls_made;
use slot_core::{DerivationStore, MakeStore, SaveStore};
use std::alloc::{AllocError, Global};

/// The bytes of a policy, and how many calls are made, where the command line says so.
#[derive(Clone, Copy, Drop)]
pub struct HeldTo<'a> {
    pub policy: &'a [u8],
    pub after: Option<u64>,
}

/// The text of a policy's bytes, so far as they are one.
fn text_of(bytes: &[u8]) -> &str {
    match bytes.utf8_chunks().next() {
        Some(chunk) => chunk.valid(),
        None => "",
    }
}

fn has_line_end(text: &[u8]) -> bool
    ensures { result ≡ is_in 10 text.now }
{
    text.contains(&b'\n')
}

/// A place, which stands in one line.
fn in_one_line(place: &str) -> &str
    ensures { is_in 10 result.now ≡ false }
{
    if has_line_end(place.as_bytes()) {
        ""
    } else {
        place
    }
}

/// The answer by which a policy is refused for a fault at a place.
fn refused_at(
    alloc: Global,
    code: u32,
    place: &str,
    notes: Vec<PolicyNote>,
) -> Result<Answer, AllocError>
    ensures text { IfOk result (λ made. made.text.items ≡ refused_line code place.now) }
    ensures verdict { IfOk result (λ made. made.verdict ≡ Verdict.Refused) }
{
    let line = format!(in alloc; "policy refused {code} at {place}\n")?;
    Ok(Answer::with_policy(alloc, line.into_bytes(), Verdict::Refused, notes))
}

/// The answer for a policy that is refused.
fn refused(alloc: Global, refusal: &Refusal) -> Result<Answer, AllocError>
    ensures { IfOk result (λ made. IsPolicyRefused made.text.items made.verdict) }
{
    let notes = note_on_refusal(alloc, refusal)?;
    match refusal {
        Refusal::Memory => Err(AllocError),
        Refusal::At { fault, place, .. } => {
            refused_at(alloc, fault.code(), in_one_line(place.as_str()), notes)
        }
    }
}

/// That a policy asks for more calls than there are.
fn too_many(alloc: Global, text: &str, file: &PolicyFile, calls: usize) -> Refusal {
    let after = file.after.unwrap_or(0);
    match format!(in alloc; "the set-up has {calls} calls, and after is {after}") {
        Ok(words) => {
            let spot = Spot::Key(Place::Top, "after");
            Refusal::new(alloc, text, Fault::Value, spot, words)
        }
        Err(_) => Refusal::Memory,
    }
}

/// What comes of a policy for a set-up: what is judged behind so many of its calls; or the answer, where the policy is refused or the
/// set-up has fewer calls.
#[derive(Drop)]
pub enum Judging {
    Done {
        judged: Judged,
        file: PolicyFile,
        made: usize,
    },
    Answered(Answer),
}

impl HeldTo<'_> {
    /// What is judged of a set-up behind so many calls, by a policy file.
    fn judged_behind<P: Profile, S: MakeStore<P> + DerivationStore<P>, W: MakeWaiters<P>>(
        &self,
        alloc: Global,
        file: PolicyFile,
        read: &ReadSetup,
        made: usize,
    ) -> Result<Judging, AllocError>
        requires plan { IsPlan P.profile read.now.setup.plan }
        requires says { IsPolicyText self.now.policy.now file }
        requires made { calls_made_of read.now.setup (option_or self.now.after file.after) ≡ Some made }
        ensures { IfOk result (IsJudging self.now.policy.now self.now.after P.profile (read_view read.now)) }
    {
        let text = text_of(self.policy);
        let (names, setup) = (read.names.as_slice(), &read.setup);
        match judge::<P, S, W>(alloc, &file, text, names, setup, made) {
            Ok(judged) => Ok(Judging::Done { judged, file, made }),
            Err(refusal) => Ok(Judging::Answered(refused(alloc, &refusal)?)),
        }
    }

    /// What comes of the policy for a set-up.
    pub fn judged<P: Profile, S: MakeStore<P> + DerivationStore<P>, W: MakeWaiters<P>>(
        &self,
        alloc: Global,
        read: &ReadSetup,
    ) -> Result<Judging, AllocError>
        requires { IsPlan P.profile read.now.setup.plan }
        ensures { IfOk result (IsJudging self.now.policy.now self.now.after P.profile (read_view read.now)) }
    {
        let file = match read_policy(alloc, self.policy) {
            Ok(file) => file,
            Err(refusal) => return Ok(Judging::Answered(refused(alloc, &refusal)?)),
        };
        if let Some(made) = calls_made(&read.setup, self.after.or(file.after)) {
            return self.judged_behind::<P, S, W>(alloc, file, read, made);
        }
        let calls = read.setup.calls().len();
        match self.after {
            Some(after) => {
                let absent = format!(in alloc; "--after {after}: the set-up has {calls} calls")?;
                Ok(Judging::Answered(Answer::absent(alloc, absent)))
            }
            None => {
                let refusal = too_many(alloc, text_of(self.policy), &file, calls);
                Ok(Judging::Answered(refused(alloc, &refusal)?))
            }
        }
    }
}

impl Command for HeldTo<'_> {
    ghost use Rattle.command_policy.specs.Policies.{IsPolicyOf};

    ghost answers = { λ held. IsPolicyOf held.policy.now held.after };

    fn answer<P: Profile, S: SaveStore<P> + DerivationStore<P>, W: SaveWaiters<P>>(
        &self,
        alloc: Global,
        read: &ReadSetup,
    ) -> Result<Answer, AllocError> {
        match self.judged::<P, S, W>(alloc, read)? {
            Judging::Done { judged, file, made } => {
                let (text, setup) = (text_of(self.policy), &read.setup);
                let (told, sources) = judged.told::<P, S, W>(alloc, setup, made)?;
                let origin = origin_of(&sources, setup, made, &judged);
                let notes = notes_on(alloc, &file, text, &judged, setup, origin, told.verdict)?;
                Ok(Answer::with_policy(alloc, told.text, told.verdict, notes))
            }
            Judging::Answered(answer) => Ok(answer),
        }
    }
}
