//! The calls of a set-up, each with its words and with what it changed.
ghost use Rattle.std.specs.Prelude.{◌≡◌, ◌++◌, ◌+◌, ◌<◌, IfOk, OnOk, Some, length, map, option_map, slice_get, string_bytes};
ghost use Rattle.toml.specs.View.{table_view};
ghost use Rattle.kernel_abstract.specs.Reached.{IsReached, StepsTo};
ghost use Rattle.kernel_abstract.specs.State.{State, shown};
ghost use Rattle.kernel_abstract.specs.Step.{replies_of};
ghost use Rattle.setup_format.specs.Views.{CallView};
ghost use Rattle.setup_report.specs.Naming.{naming_view};
ghost use Rattle.command_trace.specs.Told.{told_lines};
ghost use Rattle.command_trace.specs.Foreseen.{IsKept};
ghost use Rattle.command_trace.specs.Views.{IsStateTold};
ghost use Rattle.command_why.specs.Tables.{call_table as call_table_of};
ghost use Rattle.command_why.specs.Why.{reason_lines_of};
ghost use Rattle.command_trace.specs.Trace.{words_line, why_text, traced_call_lines, traced_calls_lines};
ghost use Rattle.command_trace.specs.Ways.{ways_asked as ways_asked_of};

use crate::lines::{Told, foresee, tell_made};
use crate::ways::ways_asked;
use crate::words::OpWords;
use cap_core::Profile;
use command_why::{Asked, call_table, explain};
use ipc_core::Waiters;
use kernel_core::{Kernel, Op, Reply};
use setup_format::Setup;
use setup_report::{Naming, add_call};
use slot_core::DerivationStore;
use std::alloc::{AllocError, Global};
use std::fmt::Write;
use toml::Table;

/// Adds the line with the words of an operation.
fn add_words(out: &mut String, op: Op) -> Result<(), AllocError>
    ensures { OnOk result (string_bytes out.new ≡ string_bytes out.old ++ words_line op) }
{
    let words = OpWords(op);
    writeln!(out, "  with{words}")
}

/// Adds the lines of the reason for which a call is refused, where it is.
fn add_why(out: &mut String, why: &Option<String>) -> Result<(), AllocError>
    ensures { OnOk result (string_bytes out.new ≡ string_bytes out.old ++ why_text (option_map string_bytes why.now)) }
{
    match why {
        None => Ok(()),
        Some(lines) => out.push_str(lines.as_str()),
    }
}

/// Makes the call at place `i` of a set-up, and adds its line, its words, their ways where these are asked for, why it is refused, and
/// what it changed. `told` is what was told of the state before it, where that is kept.
fn make_call<P: Profile, S: DerivationStore<P> + Drop, W: Waiters<P> + Drop>(
    alloc: Global,
    out: &mut String,
    naming: &Naming<'_>,
    ways: bool,
    setup: &Setup,
    table: &Table,
    i: usize,
    kernel: &mut Kernel<P, S, W>,
    told: Option<Told>,
) -> Result<(Option<Told>, Reply), AllocError>
    requires within { i < length setup.now.calls }
    requires reached { (A : State) × IsReached P.profile A × (kernel.old ≡ shown A) }
    requires told { IsKept (naming_view naming.now) P.profile kernel.old told }
    ensures steps { IfOk result (λ r. (A : State) (call : CallView) → IsReached P.profile A → kernel.old ≡ shown A
        → slice_get setup.now.calls i ≡ Some call → StepsTo P.profile A call.call r.1 kernel.new) }
    ensures text { IfOk result (λ r. (call : CallView) → slice_get setup.now.calls i ≡ Some call
        → string_bytes out.new ≡ string_bytes out.old
        ++ traced_call_lines (naming_view naming.now) (i + 1) call r.1
        (ways_asked_of ways (naming_view naming.now) P.profile kernel.old call.call)
        (reason_lines_of (naming_view naming.now) P.profile kernel.old (record { call = call.call; table = call_table_of (table_view table.now) i }))
        (told_lines (naming_view naming.now) P.profile kernel.old) (told_lines (naming_view naming.now) P.profile kernel.new)) }
    ensures told { IfOk result (λ r. IsKept (naming_view naming.now) P.profile kernel.new r.0) }
{
    let call = setup.calls()[i];
    let asked = Asked {
        naming: &*naming,
        call: &call,
        table: call_table(table, i),
    };
    let why = explain::<P, S, W>(alloc, kernel, asked)?;
    let ways = ways_asked::<P, S, W>(alloc, ways, naming, kernel, &call)?;
    let found = kernel.explain_call(&call);
    let foreseen = foresee::<P, S, W>(alloc, naming, told, kernel, found)?;
    let reply = kernel.step(call);
    add_call(alloc, out, naming, i + 1, &call, setup.expect(i), reply)?;
    add_words(out, call.op)?;
    out.push_str(ways.as_str())?;
    add_why(out, &why)?;
    let told = tell_made::<P, S, W>(alloc, out, naming, foreseen, kernel, reply)?;
    Ok((told, reply))
}

/// Makes the calls of a set-up in order, and adds the lines of each: the replies. `first` is what was told of the state before
/// them.
pub fn add_calls<P: Profile, S: DerivationStore<P> + Drop, W: Waiters<P> + Drop>(
    alloc: Global,
    out: &mut String,
    naming: &Naming<'_>,
    ways: bool,
    setup: &Setup,
    table: &Table,
    kernel: &mut Kernel<P, S, W>,
    first: Told,
) -> Result<Vec<Reply>, AllocError>
    requires reached { (A : State) × IsReached P.profile A × (kernel.old ≡ shown A) }
    requires told { IsStateTold (naming_view naming.now) P.profile kernel.old first }
    ensures replies { IfOk result (λ replies. (A : State) → IsReached P.profile A → kernel.old ≡ shown A
        → replies.items ≡ replies_of P.profile A (map (λ c. c.call) setup.now.calls)) }
    ensures text { IfOk result (λ replies. (A : State) → IsReached P.profile A → kernel.old ≡ shown A
        → string_bytes out.new ≡ string_bytes out.old
        ++ traced_calls_lines ways (naming_view naming.now) P.profile (table_view table.now) 0 A setup.now.calls) }
{
    let mut told = Some(first);
    let mut replies = Vec::with_capacity(alloc, setup.calls().len())?;
    for i in 0..setup.calls().len() {
        let (next, reply) = make_call::<P, S, W>(
            alloc, out, naming, ways, setup, table, i, kernel, told,
        )?;
        told = next;
        replies.push(reply)?;
    }
    Ok(replies)
}
