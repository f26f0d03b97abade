//! How orders end.
ghost use Rattle.std.specs.Prelude.{◌≡◌, ◌++◌, Some, OnOk, string_bytes};
ghost use Rattle.std.specs.List.{flat_map};
ghost use Rattle.query_orders.specs.Ends.{stuck_end};
ghost use Rattle.query_orders.specs.Found.{stuck_of};
ghost use Rattle.setup_report.specs.Naming.{naming_view};
ghost use Rattle.command_explore.specs.Numbers.{numbers_in};
ghost use Rattle.command_explore.specs.Text as spec;

use crate::report::numbers::add_order;
use command_check::number_at;
use kernel_core::ThreadState;
use query_orders::{FoundStuck, LeftCall};
use setup_report::{Naming, Object, StateText};
use std::alloc::{AllocError, Global};
use std::fmt::{self, Write};

/// Why a call that is left is not made: what its thread does, or that there is none.
#[derive(Clone, Copy)]
struct ReasonText<'a> {
    naming: &'a Naming<'a>,
    state: Option<ThreadState>,
}

impl fmt::Display for ReasonText<'_> {
    ghost output = { λ r. Some (spec.reason_text (naming_view r.naming.now) r.state) };

    fn fmt<W: fmt::Write>(&self, f: &mut fmt::Formatter<W>) -> fmt::Result {
        let naming = self.naming;
        match self.state {
            None => write!(f, "gone"),
            Some(state) => {
                let state = StateText { naming, state };
                write!(f, "{state}")
            }
        }
    }
}

/// Adds a line for each call that is left: its number, its thread, and why it is not made.
fn add_left(
    out: &mut String,
    naming: &Naming<'_>,
    numbers: &[Vec<usize>],
    left: &[LeftCall],
) -> Result<(), AllocError>
    ensures { OnOk result (string_bytes out.new ≡ string_bytes out.old
        ++ flat_map (spec.left_line (naming_view naming.now) (numbers_in numbers.now)) left.now) }
{
    for call in left {
        let number = number_at(numbers, call.client, call.place);
        let thread = naming.object(Object::Thread(call.thread));
        let reason = ReasonText {
            naming: &*naming,
            state: call.state,
        };
        writeln!(out, "  {number} {thread} {reason}")?;
    }
    Ok(())
}

/// Adds a way to end stuck: its place among these ways, the first order that ends so, and what it leaves.
fn add_stuck_end(
    alloc: Global,
    out: &mut String,
    naming: &Naming<'_>,
    numbers: &[Vec<usize>],
    place: usize,
    stuck: &FoundStuck,
) -> Result<(), AllocError>
    ensures { OnOk result (string_bytes out.new ≡ string_bytes out.old
        ++ spec.stuck_block (naming_view naming.now) (numbers_in numbers.now) place (stuck_end stuck.now.order stuck.now.left.items)) }
{
    write!(out, "stuck.{place}")?;
    add_order(alloc, out, numbers, "by", &stuck.order)?;
    writeln!(out)?;
    add_left(out, naming, numbers, stuck.left.as_slice())
}

/// Adds each way to end stuck.
pub fn add_stuck(
    alloc: Global,
    out: &mut String,
    naming: &Naming<'_>,
    numbers: &[Vec<usize>],
    stuck: &[FoundStuck],
) -> Result<(), AllocError>
    ensures { OnOk result (string_bytes out.new ≡ string_bytes out.old
        ++ spec.stuck_blocks (naming_view naming.now) (numbers_in numbers.now) 1 (stuck_of stuck.now)) }
{
    for (i, end) in stuck.iter().enumerate() {
        add_stuck_end(alloc, out, naming, numbers, i + 1, end)?;
    }
    Ok(())
}
