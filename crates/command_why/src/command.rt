//! Why the calls of a set-up are refused, as the answer of a command.
ghost use Rattle.std.specs.Prelude.{◌≡◌, IfOk};
ghost use Rattle.kernel_abstract.specs.Plan.{IsPlan};
ghost use Rattle.setup_format.specs.Read.{read_view};
ghost use Rattle.command_why.specs.Explained.{explained_in, is_absent};

use crate::run::{naming_after, why};
use cap_core::Profile;
use command_check::{Command, verdict_on};
use command_core::Answer;
use ipc_core::{MakeWaiters, SaveWaiters};
use setup_format::{ReadSetup, table_of};
use slot_core::{DerivationStore, MakeStore, SaveStore};
use std::alloc::{AllocError, Global};

/// Runs the set-up in a profile, and tells why calls are refused.
#[tactic(auto, unfolding(crate::specs::Explained::explained_in))]
fn explain_setup<P: Profile, S: MakeStore<P> + DerivationStore<P>, W: MakeWaiters<P>>(
    alloc: Global,
    by_name: bool,
    call: Option<u64>,
    read: &ReadSetup,
) -> Result<Answer, AllocError>
    requires { IsPlan P.profile read.now.setup.plan }
    ensures { IfOk result (λ made. (made.text.items, made.verdict) ≡ explained_in by_name P.profile call (read_view read.now)) }
{
    let (table, setup) = (table_of(alloc, read.text.as_slice())?, &read.setup);
    let naming = naming_after::<P, S, W>(alloc, by_name, read.names.as_slice(), setup)?;
    let (text, count, unmet) = why::<P, S, W>(alloc, &naming, &table, setup, call)?;
    Ok(Answer::with_unmet(alloc, text, verdict_on(count), unmet))
}

/// Whether a set-up of so many calls has no call of the number that is chosen.
fn is_absent(call: Option<u64>, calls: usize) -> bool
    ensures { result ≡ is_absent call calls }
{
    match call {
        None => false,
        Some(number) => number == 0 || number > calls as u64,
    }
}

/// Why the calls of a set-up are refused: of each that is, or of the one with a number, counted from 1. The verdict is that of
/// the expectations, or `Absent` with nothing written if the set-up has no call of that number. If `names` is set, objects and
/// slots that have a name in the state after all calls are written by it.
#[derive(Clone, Copy, Drop)]
pub struct Why {
    pub call: Option<u64>,
    pub names: bool,
}

impl Command for Why {
    ghost use Rattle.command_why.specs.Explained.{IsWhy};

    ghost answers = { λ why. IsWhy why.names why.call };

    fn answer<P: Profile, S: SaveStore<P> + DerivationStore<P>, W: SaveWaiters<P>>(
        &self,
        alloc: Global,
        read: &ReadSetup,
    ) -> Result<Answer, AllocError> {
        let calls = read.setup.calls().len();
        if is_absent(self.call, calls) {
            let asked = self.call.unwrap_or(0);
            let absent = format!(in alloc; "--call {asked}: the set-up has {calls} calls")?;
            return Ok(Answer::absent(alloc, absent));
        }
        explain_setup::<P, S, W>(alloc, self.names, self.call, read)
    }
}
