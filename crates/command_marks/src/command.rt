//! The marks of a set-up, as the answer of a command.
use crate::marking::mark_setup;
use crate::text::marks_text;
use cap_core::Profile;
use command_check::{Command, verdict_on};
use command_core::Answer;
use ipc_core::SaveWaiters;
use setup_format::ReadSetup;
use slot_core::{DerivationStore, SaveStore};
use std::alloc::{AllocError, Global};

/// Which of a set-up's expectations are met. The verdict is that of the expectations, as `check` has it.
#[derive(Clone, Copy, Drop)]
pub struct Marks;

impl Command for Marks {
    ghost use Rattle.command_marks.specs.Text.{IsMarks};

    ghost answers = { λ marks. IsMarks };

    fn answer<P: Profile, S: SaveStore<P> + DerivationStore<P>, W: SaveWaiters<P>>(
        &self,
        alloc: Global,
        read: &ReadSetup,
    ) -> Result<Answer, AllocError> {
        let made = mark_setup::<P, S, W>(alloc, &read.setup)?;
        let text = marks_text(alloc, &read.setup, made.marks.as_slice(), made.count)?;
        Ok(Answer::new(alloc, text, verdict_on(made.count)))
    }
}
