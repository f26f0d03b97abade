//! The calls of a history whose expectation is not met.
ghost use Rattle.std.specs.Prelude.{◌≡◌, IfOk};
ghost use Rattle.command_check.specs.Notes.{noted};
ghost use Rattle.command_threads.specs.SharedRuns.{unmet_in};

use command_check::{add_unmet, expected_of, number_at, numbers_of_clients};
use command_core::CallNote;
use kernel_shared::Entry;
use setup_format::Setup;
use std::alloc::{AllocError, Global};

/// What is said about the calls of a history whose expectation is not met, in the order of the history. Each is told by its number
/// in the set-up.
pub fn unmet_calls(
    alloc: Global,
    setup: &Setup,
    history: &[Entry],
) -> Result<Vec<CallNote>, AllocError>
    ensures { IfOk result (λ v. noted v.items ≡ unmet_in setup.now history.now) }
{
    let numbers = numbers_of_clients(alloc, setup)?;
    let mut unmet = Vec::new(alloc);
    for entry in history {
        let call = number_at(
            numbers.as_slice(),
            entry.client as usize,
            entry.number as usize,
        );
        add_unmet(
            alloc,
            &mut unmet,
            call,
            expected_of(setup, call),
            entry.reply,
        )?;
    }
    Ok(unmet)
}
