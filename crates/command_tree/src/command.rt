//! The derivation forest of a state, as the answer of a command.
use crate::form::Form;
use crate::text::text_in;
use cap_core::Profile;
use command_check::{Behind, StateCommand};
use command_core::{Answer, Verdict};
use ipc_core::MakeWaiters;
use kernel_core::Kernel;
use setup_report::Naming;
use slot_core::{DerivationStore, MakeStore};
use std::alloc::{AllocError, Global};

/// The derivation forest after the first calls of a set-up, as text. As lines: after a first line, which says
/// how many calls are made, a line for each full slot, with its address, what the slot holds, and the thread's name behind a thread,
/// if exactly one name of the set-up has its address. A slot stands below the one that it is derived from, two spaces further in, and
/// the slots that stand right below one slot, or below none, in the kernel's order. As a graph: a node with the same text for each
/// full slot, and an edge to it from the one that it is derived from. If `names` is set, slots and objects that have a name are told
/// by it. The verdict is `AllMet`.
#[derive(Clone, Copy, Drop)]
pub struct Tree {
    pub form: Form,
    pub names: bool,
}

impl StateCommand for Tree {
    ghost use Rattle.command_tree.specs.Trees.{IsTree};

    ghost answers = { λ tree. IsTree tree.form tree.names };

    fn answer<P: Profile, S: MakeStore<P> + DerivationStore<P>, W: MakeWaiters<P>>(
        &self,
        alloc: Global,
        behind: &Behind<'_>,
        kernel: &Kernel<P, S, W>,
    ) -> Result<Answer, AllocError> {
        let Behind {
            names,
            setup,
            made,
            ..
        } = *behind;
        let naming = Naming::of::<P, S, W>(alloc, self.names, names, setup.plan(), kernel)?;
        let text = text_in::<P, S, W>(alloc, self.form, &naming, setup, made, kernel)?;
        Ok(Answer::new(alloc, text, Verdict::AllMet))
    }
}
