//! The calls of a set-up, each made, and told if it is refused or chosen.
ghost use Rattle.std.specs.Prelude.{◌≡◌, ◌++◌, ◌+◌, ◌<◌, IfOk, OnOk, Some, length, map, option_map, option_copied, slice_get, string_bytes};
ghost use Rattle.toml.specs.View.{table_view};
ghost use Rattle.kernel_abstract.specs.Reached.{IsReached, StepsTo};
ghost use Rattle.kernel_abstract.specs.State.{State, shown};
ghost use Rattle.kernel_abstract.specs.Step.{replies_of};
ghost use Rattle.setup_format.specs.Views.{CallView};
ghost use Rattle.setup_report.specs.Naming.{naming_view};
ghost use Rattle.setup_report.specs.Report.{call_text};
ghost use Rattle.command_why.specs.Asked.{asked_texts};
ghost use Rattle.command_why.specs.Tables.{call_table as call_table_of};
ghost use Rattle.command_why.specs.Why as spec;

use crate::explaining::explain;
use crate::reasons::Asked;
use crate::tables::call_table;
use cap_core::Profile;
use ipc_core::Waiters;
use kernel_core::{Kernel, Reply};
use setup_format::Setup;
use setup_report::{Naming, add_call};
use slot_core::DerivationStore;
use std::alloc::{AllocError, Global};
use std::fmt::Write;
use toml::Table;

/// Whether a call is told, by its number from 1 on and by the lines of its reason.
fn is_told(chosen: Option<u64>, number: usize, why: &Option<String>) -> bool
    ensures { result ≡ spec.is_told chosen number (option_map string_bytes why.now) }
{
    match chosen {
        None => why.is_some(),
        Some(chosen) => chosen == number as u64,
    }
}

/// Adds why a call is refused.
fn add_why(out: &mut String, why: &Option<String>) -> Result<(), AllocError>
    ensures { OnOk result (string_bytes out.new ≡ string_bytes out.old
        ++ spec.why_lines (option_map string_bytes why.now)) }
{
    match why {
        None => writeln!(out, "  not refused"),
        Some(lines) => out.push_str(lines.as_str()),
    }
}

/// Adds the lines of a call, with its number from 1 on, if it is told.
fn add_call_lines(
    alloc: Global,
    out: &mut String,
    chosen: Option<u64>,
    number: usize,
    asked: Asked<'_, '_>,
    expected: Option<&str>,
    reply: Reply,
    why: &Option<String>,
) -> Result<(), AllocError>
    ensures { OnOk result (string_bytes out.new ≡ string_bytes out.old
        ++ spec.explained_lines chosen number (call_text (asked_texts asked.entry) number asked.entry.call.now reply (option_copied expected.entry))
        (option_map string_bytes why.now)) }
{
    if is_told(chosen, number, why) {
        let Asked { naming, call, .. } = asked;
        add_call(alloc, out, naming, number, call, expected, reply)?;
        add_why(out, why)
    } else {
        Ok(())
    }
}

/// Makes the call at place `i` of a set-up, and adds its lines if it is told: its line of the report, and why it is
/// refused.
fn make_call<P: Profile, S: DerivationStore<P> + Drop, W: Waiters<P> + Drop>(
    alloc: Global,
    out: &mut String,
    naming: &Naming<'_>,
    setup: &Setup,
    table: &Table,
    chosen: Option<u64>,
    i: usize,
    kernel: &mut Kernel<P, S, W>,
) -> Result<Reply, AllocError>
    requires within { i < length setup.now.calls }
    ensures steps { IfOk result (λ reply. (A : State) (call : CallView) → IsReached P.profile A → kernel.old ≡ shown A
        → slice_get setup.now.calls i ≡ Some call → StepsTo P.profile A call.call reply kernel.new) }
    ensures text { IfOk result (λ reply. (call : CallView) → slice_get setup.now.calls i ≡ Some call
        → string_bytes out.new ≡ string_bytes out.old ++ spec.why_call_lines (naming_view naming.now) chosen (i + 1) call reply
        (spec.reason_lines_of (naming_view naming.now) P.profile kernel.old (record { call = call.call; table = call_table_of (table_view table.now) i }))) }
{
    let call = setup.calls()[i];
    let asked = Asked {
        naming,
        call: &call,
        table: call_table(table, i),
    };
    let why = explain::<P, S, W>(alloc, kernel, asked)?;
    let reply = kernel.step(call);
    let expected = setup.expect(i);
    add_call_lines(alloc, out, chosen, i + 1, asked, expected, reply, &why)?;
    Ok(reply)
}

/// Makes the calls of a set-up in order, and adds the lines of each that is told: the replies.
pub fn add_calls<P: Profile, S: DerivationStore<P> + Drop, W: Waiters<P> + Drop>(
    alloc: Global,
    out: &mut String,
    naming: &Naming<'_>,
    setup: &Setup,
    table: &Table,
    chosen: Option<u64>,
    kernel: &mut Kernel<P, S, W>,
) -> Result<Vec<Reply>, AllocError>
    ensures replies { IfOk result (λ replies. (A : State) → IsReached P.profile A → kernel.old ≡ shown A
        → replies.items ≡ replies_of P.profile A (map (λ c. c.call) setup.now.calls)) }
    ensures text { IfOk result (λ replies. (A : State) → IsReached P.profile A → kernel.old ≡ shown A
        → string_bytes out.new ≡ string_bytes out.old
        ++ spec.calls_lines (naming_view naming.now) P.profile (table_view table.now) chosen 0 A setup.now.calls) }
{
    let mut replies = Vec::with_capacity(alloc, setup.calls().len())?;
    for i in 0..setup.calls().len() {
        let reply = make_call::<P, S, W>(alloc, out, naming, setup, table, chosen, i, kernel)?;
        replies.push(reply)?;
    }
    Ok(replies)
}
