//! A draft is read back and judged before it is written.
ghost use Rattle.std.specs.Prelude.{◌≡◌, ◌≤◌, ◌↔◌, IfOk, IfSome, IsTrue, length, map, string_bytes};
ghost use Rattle.kernel_abstract.specs.Plan.{IsPlan};
ghost use Rattle.setup_values.specs.Names.{names_view};
ghost use Rattle.command_policy.specs.Policies.{IsJudged};
ghost use Rattle.command_policy_draft.specs.Drafts as spec;

use crate::entries::SoFar;
use crate::groups::{first_text, groups_text};
use crate::tables::{folded, tables_text};
use cap_core::Profile;
use command_policy::{Judged, judge};
use command_policy_text::{kinds, told_text};
use ipc_core::MakeWaiters;
use setup_format::Setup;
use setup_policy::{Member, PolicyVersion};
use setup_policy_file::{Fault, Place, Refusal, Spot, read_policy};
use setup_report::calls_made;
use setup_values::Name;
use slot_core::{DerivationStore, MakeStore};
use std::alloc::{AllocError, Global};

/// How many steps add ways. Of each two steps the first adds what has any badge.
const WAY_STEPS: u32 = 2;
/// How many steps there are: for ways, for uses, and for threads that wait.
const STEPS: u32 = 6;

/// What a draft is asked of: a set-up, how many of its calls are made, and the number that was asked for; and the live threads: those
/// that are trusted to make no more calls, those that are trusted to send and receive alone, and the others.
#[derive(Clone, Copy)]
pub struct Asked<'a> {
    pub alloc: Global,
    pub names: &'a [Name],
    pub setup: &'a Setup,
    pub made: usize,
    pub after: Option<u64>,
    pub silent: &'a [u64],
    pub messages: &'a [u64],
    pub others: &'a [u64],
}

/// What is judged of the policy that a text is. It asks for as many calls as are asked for and made.
fn read_back<P: Profile, S: MakeStore<P> + DerivationStore<P>, W: MakeWaiters<P>>(
    asked: Asked<'_>,
    text: &str,
) -> Result<Judged, Refusal>
    requires plan { IsPlan P.profile asked.setup.now.plan }
    requires made { asked.made ≤ length asked.setup.now.calls }
    ensures judged { IfOk result (IsJudged P.profile asked.entry.setup.now asked.entry.made) }
    ensures fit { IfOk result (λ j. length j.replies.items ≤ length asked.entry.setup.now.calls) }
    ensures read { IfOk result (spec.IsReadOf P.profile (names_view asked.entry.names.now) asked.entry.setup.now asked.entry.after asked.entry.made text.now) }
{
    let alloc = asked.alloc;
    let file = read_policy(alloc, text.as_bytes())?;
    if file.after != asked.after || calls_made(asked.setup, asked.after) != Some(asked.made) {
        let words = String::from_str(alloc, "the draft is of other calls than are asked for")?;
        let spot = Spot::Key(Place::Top, "after");
        return Err(Refusal::new(alloc, text, Fault::Value, spot, words));
    }
    judge::<P, S, W>(alloc, &file, text, asked.names, asked.setup, asked.made)
}

/// A draft that is not judged as a whole: entries are added for what breaks the policy so far.
fn draft_text<P: Profile, S: MakeStore<P> + DerivationStore<P>, W: MakeWaiters<P>>(
    asked: Asked<'_>,
) -> Result<String, Refusal>
    requires plan { IsPlan P.profile asked.setup.now.plan }
    requires made { asked.made ≤ length asked.setup.now.calls }
{
    let alloc = asked.alloc;
    let mut text = first_text(asked)?;
    let first = read_back::<P, S, W>(asked, text.as_str())?;
    let groups = groups_text::<P, S, W>(asked, &first)?;
    let mut tables = Vec::new(alloc);
    for step in 0..STEPS {
        let entries = tables_text(alloc, tables.as_slice())?;
        text = format!(in alloc; "{groups}]\n{entries}")?;
        let judged = &read_back::<P, S, W>(asked, text.as_str())?;
        let so_far = SoFar {
            alloc,
            judged,
            with_any: step % 2 == 0,
        };
        so_far.add_takes(&mut tables)?;
        if step < WAY_STEPS {
            so_far.add_ways(&mut tables)?;
        } else {
            so_far.add_uses(&mut tables)?;
        }
    }
    let tables = folded(alloc, tables)?;
    let entries = tables_text(alloc, tables.as_slice())?;
    Ok(format!(in alloc; "{groups}]\n{entries}")?)
}

fn threads_of(alloc: Global, members: &[Member]) -> Result<Vec<u64>, AllocError>
    ensures { IfOk result (λ v. v.items ≡ map (λ m. m.thread) members.now) }
{
    let mut threads = Vec::new(alloc);
    for member in members {
        threads.push(member.thread)?;
    }
    Ok(threads)
}

fn are_threads(alloc: Global, members: &[Member], threads: &[u64]) -> Result<bool, AllocError>
    ensures { IfOk result (λ are. IsTrue are ↔ map (λ m. m.thread) members.now ≡ threads.now) }
{
    let own = threads_of(alloc, members)?;
    Ok(own.as_slice() == threads)
}

/// The lines that tell of the trusted threads whose control blocks parts have, which no policy allows.
fn thread_lines(alloc: Global, judged: &Judged) -> Result<Vec<String>, AllocError>
    ensures { IfOk result (λ v. map string_bytes v.items ≡ spec.thread_lines judged.now) }
{
    let held = judged.held();
    let threads = kinds::threads(alloc, held)?;
    let mut lines = Vec::new(alloc);
    for told in &threads {
        let line = told_text(alloc, held, *told)?;
        lines.push(line)?;
    }
    Ok(lines)
}

/// Whether nothing breaks a policy but that parts have the control blocks of trusted threads.
fn is_held(alloc: Global, judged: &Judged, setup: &Setup) -> Result<bool, AllocError>
    requires { length judged.now.replies.items ≤ length setup.now.calls }
    ensures { IfOk result (λ is. IsTrue is → spec.IsHeldAsWritten judged.now setup.now) }
{
    let threads = thread_lines(alloc, judged)?;
    let lines = judged.breach_lines(alloc, setup)?;
    for line in &lines {
        if !threads.contains(line) {
            return Ok(false);
        }
    }
    Ok(true)
}

fn is_version_two(version: PolicyVersion) -> bool
    ensures { IsTrue result ↔ version ≡ PolicyVersion.Two }
{
    match version {
        PolicyVersion::One => false,
        PolicyVersion::Two => true,
    }
}

/// Whether a policy is of version 2, trusts whom it is to trust, and is held to.
fn is_kept(asked: Asked<'_>, judged: &Judged) -> Result<bool, AllocError>
    requires { length judged.now.replies.items ≤ length asked.setup.now.calls }
    ensures { IfOk result (λ is. IsTrue is → spec.IsKeptBy asked.entry.setup.now asked.entry.silent.now asked.entry.messages.now judged.now) }
{
    let (alloc, policy) = (asked.alloc, &judged.policy);
    if !is_version_two(policy.version) {
        return Ok(false);
    }
    let silent = are_threads(alloc, policy.silent.as_slice(), asked.silent)?;
    let messages = are_threads(alloc, policy.messages.as_slice(), asked.messages)?;
    if !silent {
        return Ok(false);
    }
    if !messages {
        return Ok(false);
    }
    is_held(alloc, judged, asked.setup)
}

/// The text of a policy that the state behind the first calls of a set-up keeps; none where what was made is not kept.
///
/// # Errors
/// `Memory`, or a fault of what was made.
pub fn kept_text<P: Profile, S: MakeStore<P> + DerivationStore<P>, W: MakeWaiters<P>>(
    asked: Asked<'_>,
) -> Result<Option<String>, Refusal>
    requires plan { IsPlan P.profile asked.setup.now.plan }
    requires made { asked.made ≤ length asked.setup.now.calls }
    ensures { IfOk result (λ found. IfSome found (λ text. spec.IsKept P.profile (names_view asked.entry.names.now) asked.entry.setup.now asked.entry.after asked.entry.made asked.entry.silent.now asked.entry.messages.now (string_bytes text))) }
{
    let text = draft_text::<P, S, W>(asked)?;
    let judged = read_back::<P, S, W>(asked, text.as_str())?;
    if is_kept(asked, &judged)? {
        Ok(Some(text))
    } else {
        Ok(None)
    }
}
