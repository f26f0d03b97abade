//! A set-up that makes the calls of one order, as the answer of a command.
ghost use Rattle.std.specs.Prelude.{IfOk, option_map};
ghost use Rattle.toml.specs.View.{table_view};
ghost use Rattle.command_explore.specs.Witnessed.{IsTextOfTable};

use crate::exploring::ExploreOptions;
use crate::report::{Witness, make_witness};
use cap_core::Profile;
use command_check::Command;
use command_core::{Answer, Verdict};
use ipc_core::{RowWaiters, SaveWaiters};
use setup_format::{ReadSetup, table_of};
use setup_migrate::table_text;
use slot_core::{DerivationStore, RowStore, SaveStore};
use std::alloc::{AllocError, Global};
use toml::Table;

/// The text that is written for a table, where there is one, and the verdict.
fn witness_text(alloc: Global, made: Option<Table>) -> Result<Answer, AllocError>
    ensures { IfOk result (λ written. IsTextOfTable (option_map table_view made) written.text.items written.verdict) }
{
    match made {
        Some(table) => {
            let text = table_text(alloc, &table)?;
            Ok(Answer::new(alloc, text, Verdict::AllMet))
        }
        None => Ok(Answer::new(alloc, Vec::new(alloc), Verdict::Absent)),
    }
}

/// A set-up in the newest format with the calls of the first order that tells what the witness is of. It is made by the plain
/// forms. The verdict is `AllMet`, or `Absent` with nothing written where no order is told for the witness.
#[derive(Clone, Copy, Drop)]
pub struct WriteWitness {
    pub options: ExploreOptions,
    pub witness: Witness,
}

impl Command for WriteWitness {
    ghost use Rattle.command_explore.specs.Witnessed.{IsExploreWitness};

    ghost answers = { λ write. IsExploreWitness write.options.first write.options.states write.witness };

    fn answer<P: Profile, S: SaveStore<P> + DerivationStore<P>, W: SaveWaiters<P>>(
        &self,
        alloc: Global,
        read: &ReadSetup,
    ) -> Result<Answer, AllocError> {
        let ExploreOptions { first, states } = self.options;
        let table = table_of(alloc, read.text.as_slice())?;
        let made = make_witness::<P, RowStore<P>, RowWaiters<P>>(
            alloc,
            &read.setup,
            first,
            states,
            self.witness,
            table,
        )?;
        witness_text(alloc, made)
    }
}
