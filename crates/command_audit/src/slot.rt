//! The audit of one slot that a word stands for, by addresses or by names, as the answer of a command.
ghost use Rattle.std.specs.Prelude.{◌≡◌, IfOk, option_map};
ghost use Rattle.kernel_abstract.specs.Plan.{IsPlan};
ghost use Rattle.kernel_abstract.specs.Reached.{IsReached};
ghost use Rattle.kernel_abstract.specs.State.{State, shown};
ghost use Rattle.setup_values.specs.Names.{names_view};
ghost use Rattle.setup_report.specs.Naming.{texts_of};
ghost use Rattle.command_check.specs.Commands.{text_or_absent as answered_of};
ghost use Rattle.command_audit.specs.Audit as spec;

use crate::revokes::is_cleared;
use crate::state::audit_of_slot;
use cap_core::Profile;
use command_check::{Behind, Command, OnState, StateCommand};
use command_core::{Answer, Verdict};
use ipc_core::{MakeWaiters, SaveWaiters};
use kernel_core::Kernel;
use setup_format::{ReadSetup, Setup};
use setup_report::{Naming, absent_slot, slot_meant};
use setup_values::Name;
use slot_core::{DerivationStore, MakeStore, SaveStore};
use std::alloc::{AllocError, Global};

/// The audit of a slot, by addresses or by the names of objects, where it is full.
fn slot_answer<P: Profile, S: MakeStore<P> + DerivationStore<P>, W: MakeWaiters<P>>(
    alloc: Global,
    by_name: bool,
    names: &[Name],
    setup: &Setup,
    made: usize,
    slot: u64,
    kernel: &Kernel<P, S, W>,
) -> Result<Option<Vec<u8>>, AllocError>
    requires { IsPlan P.profile setup.now.plan }
    ensures { IfOk result (λ text. (A : State) → IsReached P.profile A → kernel.now ≡ shown A
        → option_map (λ v. v.items) text
        ≡ spec.slot_answer P.profile (texts_of by_name P.profile (names_view names.now) setup.now.plan (shown A)) setup.now made slot A) }
{
    if is_cleared::<P, S, W>(slot, kernel) {
        return Ok(None);
    }
    let naming = Naming::of::<P, S, W>(alloc, by_name, names, setup.plan(), kernel)?;
    let text = audit_of_slot::<P, S, W>(alloc, &naming, setup, made, slot, kernel)?;
    Ok(Some(text))
}

/// The answer where there is a text; where there is none, no full slot is at the address that is asked for.
fn answered(
    alloc: Global,
    text: Option<Vec<u8>>,
    slot: u64,
    made: usize,
) -> Result<Answer, AllocError>
    ensures { IfOk result (λ answer. (answer.text.items, answer.verdict) ≡ answered_of (option_map (λ v. v.items) text)) }
{
    match text {
        Some(text) => Ok(Answer::new(alloc, text, Verdict::AllMet)),
        None => {
            let absent = format!(in alloc;
                "--slot {slot}: no full slot is there after {made} calls"
            )?;
            Ok(Answer::absent(alloc, absent))
        }
    }
}

/// The audit of a revoke of the slot that a word stands for: an address in decimal digits, or a name of the set-up. It is made
/// after the first `after` calls, or after all. If `names` is set, slots and objects that have a name are told by it. The verdict
/// is `AllMet`, or `Absent` with nothing written where the word stands for no slot, or for none that is full, and where the
/// set-up has fewer calls.
#[derive(Clone, Copy, Drop)]
pub struct SlotAudit<'a> {
    pub slot: &'a str,
    pub names: bool,
    pub after: Option<u64>,
}

/// The audit of a revoke of the slot at an address.
#[derive(Clone, Copy, Drop)]
struct RevokeAudit {
    slot: u64,
    names: bool,
}

impl StateCommand for RevokeAudit {
    ghost use Rattle.command_audit.specs.Audits.{IsAudited};

    ghost answers = { λ audit. IsAudited audit.names audit.slot };

    fn answer<P: Profile, S: MakeStore<P> + DerivationStore<P>, W: MakeWaiters<P>>(
        &self,
        alloc: Global,
        behind: &Behind<'_>,
        kernel: &Kernel<P, S, W>,
    ) -> Result<Answer, AllocError> {
        let slot = self.slot;
        let Behind {
            names,
            setup,
            made,
            ..
        } = *behind;
        let text = slot_answer::<P, S, W>(alloc, self.names, names, setup, made, slot, kernel)?;
        let answer = answered(alloc, text, slot, made)?;
        Ok(answer)
    }
}

impl Command for SlotAudit<'_> {
    ghost use Rattle.command_audit.specs.Audits.{IsSlotAudited};

    ghost answers = { λ audit. IsSlotAudited audit.slot.now audit.names audit.after };

    fn answer<P: Profile, S: SaveStore<P> + DerivationStore<P>, W: SaveWaiters<P>>(
        &self,
        alloc: Global,
        read: &ReadSetup,
    ) -> Result<Answer, AllocError> {
        let (names, word) = (read.names.as_slice(), self.slot.as_bytes());
        match slot_meant::<P>(names, &read.setup, word) {
            None => Ok(Answer::absent(alloc, absent_slot(alloc, names, "--slot", self.slot)?)),
            Some(slot) => {
                let SlotAudit { names, after, .. } = *self;
                let command = RevokeAudit { slot, names };
                OnState { command, after }.answer::<P, S, W>(alloc, read)
            }
        }
    }
}
