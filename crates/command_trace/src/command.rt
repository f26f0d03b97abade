//! The trace of a set-up's run, as the answer of a command.
ghost use Rattle.std.specs.Prelude.{◌≡◌, IfOk};
ghost use Rattle.kernel_abstract.specs.Plan.{IsPlan};
ghost use Rattle.setup_format.specs.Read.{read_view};
ghost use Rattle.command_trace.specs.Traces.{traced_in};

use crate::run::trace;
use cap_core::Profile;
use command_check::{Command, verdict_on};
use command_core::{Answer, Verdict};
use command_why::naming_after;
use ipc_core::{MakeWaiters, SaveWaiters};
use setup_format::{ReadSetup, table_of};
use slot_core::{DerivationStore, MakeStore, SaveStore};
use std::alloc::{AllocError, Global};

/// Runs the set-up in a profile, and tells what each call changes, by addresses or by names, with the ways of words or without.
#[tactic(auto, unfolding(crate::specs::Traces::traced_in))]
fn trace_setup<P: Profile, S: MakeStore<P> + DerivationStore<P>, W: MakeWaiters<P>>(
    alloc: Global,
    by_name: bool,
    ways: bool,
    read: &ReadSetup,
) -> Result<Answer, AllocError>
    requires { IsPlan P.profile read.now.setup.plan }
    ensures { IfOk result (λ made. (made.text.items, made.verdict) ≡ traced_in by_name ways P.profile (read_view read.now)) }
{
    let (names, setup) = (read.names.as_slice(), &read.setup);
    let naming = naming_after::<P, S, W>(alloc, by_name, names, setup)?;
    let table = table_of(alloc, read.text.as_slice())?;
    let (text, count, unmet) = trace::<P, S, W>(alloc, &naming, ways, &table, names, setup)?;
    Ok(Answer::with_unmet(alloc, text, verdict_on(count), unmet))
}

/// What each call of a set-up changes, in a line each. If `names` is set, objects and slots that have a name in the state after
/// all calls are told by it. If `ways` is set, the way of each word of a call is told, in bits. The verdict is that of the expectations.
#[derive(Clone, Copy, Drop)]
pub struct Trace {
    pub names: bool,
    pub ways: bool,
}

impl Command for Trace {
    ghost use Rattle.command_trace.specs.Traces.{IsTrace};

    ghost answers = { λ trace. IsTrace trace.names trace.ways };

    fn answer<P: Profile, S: SaveStore<P> + DerivationStore<P>, W: SaveWaiters<P>>(
        &self,
        alloc: Global,
        read: &ReadSetup,
    ) -> Result<Answer, AllocError> {
        trace_setup::<P, S, W>(alloc, self.names, self.ways, read)
    }
}
