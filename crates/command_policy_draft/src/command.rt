//! The policy that a layout keeps now, as the answer of a command.
ghost use Rattle.std.specs.Prelude.{◌≡◌, ◌≤◌, ℕ, IfOk, filter, length, not, ◌&&◌};
ghost use Rattle.kernel_abstract.specs.Plan.{IsPlan};
ghost use Rattle.setup_values.specs.Names.{names_view};
ghost use Rattle.setup_report.specs.State.{is_in as is_in_list};
ghost use Rattle.command_parts.specs.Threads.{trusted_by};
ghost use Rattle.command_policy_draft.specs.Drafts as spec;

use crate::judged::{Asked, kept_text};
use cap_core::Profile;
use command_check::{Behind, StateCommand};
use command_core::{Answer, Verdict};
use command_parts::{Trust, is_in, listed, named};
use ipc_core::{MakeWaiters, Waiters};
use kernel_core::Kernel;
use setup_policy_file::Refusal;
use setup_report::{ObjectKind, state_rows};
use slot_core::{DerivationStore, MakeStore};
use std::alloc::{AllocError, Global};

/// What is said where what was made of a layout is no policy that it keeps.
const NOT_KEPT: &str =
    "the layout does not keep the policy that was made of it, so it is not written";

/// The policy that a layout keeps now, whatever its threads call, behind its first `after` calls, or behind all: groups of what is
/// one part, the ways between them, and what else they hold. Some threads are trusted. The verdict is `AllMet`, or `Absent` with
/// nothing written where the set-up has fewer calls, where a word stands for no thread, and where no such policy was found.
#[derive(Clone, Copy, Drop)]
pub struct Draft<'a> {
    pub trust: Trust<'a>,
    pub after: Option<u64>,
}

/// Those of some threads that are live, and none of others.
fn live_of(
    alloc: Global,
    threads: &[u64],
    live: &[u64],
    others: &[u64],
) -> Result<Vec<u64>, AllocError>
    ensures { IfOk result (λ v. v.items ≡ spec.live_of threads.now live.now others.now) }
{
    let mut left = Vec::new(alloc);
    for thread in threads {
        if is_in(live, *thread) && !is_in(others, *thread) {
            left.push(*thread)?;
        }
    }
    Ok(left)
}

/// The answer where threads are trusted.
fn answer_by<P: Profile, S: MakeStore<P> + DerivationStore<P>, W: MakeWaiters<P>>(
    asked: Asked<'_>,
) -> Result<Answer, AllocError>
    requires plan { IsPlan P.profile asked.setup.now.plan }
    requires made { asked.made ≤ length asked.setup.now.calls }
    ensures { IfOk result (λ made. spec.IsDraftText P.profile (names_view asked.entry.names.now) asked.entry.setup.now asked.entry.after asked.entry.made asked.entry.silent.now asked.entry.messages.now made.text.items made.verdict) }
{
    let alloc = asked.alloc;
    match kept_text::<P, S, W>(asked) {
        Ok(Some(text)) => Ok(Answer::new(alloc, text.into_bytes(), Verdict::AllMet)),
        Ok(None) => Ok(Answer::absent(alloc, String::from_str(alloc, NOT_KEPT)?)),
        Err(Refusal::Memory) => Err(AllocError),
        Err(Refusal::At { mut notes, .. }) => {
            let words = match notes.pop() {
                Some(note) => note.words,
                None => String::from_str(alloc, NOT_KEPT)?,
            };
            Ok(Answer::absent(alloc, words))
        }
    }
}

impl StateCommand for Draft<'_> {
    ghost use Rattle.command_parts.specs.Threads.{trusted_by};
    ghost use Rattle.command_policy_draft.specs.Drafts.{IsDraft};

    ghost answers = { λ draft. IsDraft (trusted_by draft.trust) draft.after };

    fn answer<P: Profile, S: MakeStore<P> + DerivationStore<P>, W: MakeWaiters<P>>(
        &self,
        alloc: Global,
        behind: &Behind<'_>,
        kernel: &Kernel<P, S, W>,
    ) -> Result<Answer, AllocError> {
        let Behind {
            names,
            setup,
            made,
            ..
        } = *behind;
        if !self.trust.is_meant::<P, S, W>(names, setup, kernel) {
            return self.trust.absent::<P, S, W>(alloc, behind, kernel);
        }
        let Trust { without, messages } = self.trust;
        let without = named::<P, S, W>(alloc, names, setup, kernel, ObjectKind::Thread, without)?;
        let messages = named::<P, S, W>(alloc, names, setup, kernel, ObjectKind::Thread, messages)?;
        let rows = state_rows::<P, S, W>(alloc, kernel)?;
        let live = listed(alloc, &rows.threads)?;
        let live = live.as_slice();
        let silent = live_of(alloc, without.as_slice(), live, &[])?;
        let messages = live_of(alloc, messages.as_slice(), live, silent.as_slice())?;
        let callers = live_of(alloc, live, live, silent.as_slice())?;
        let others = live_of(alloc, callers.as_slice(), live, messages.as_slice())?;
        answer_by::<P, S, W>(Asked {
            alloc,
            names,
            setup,
            made,
            after: self.after,
            silent: silent.as_slice(),
            messages: messages.as_slice(),
            others: others.as_slice(),
        })
    }
}
