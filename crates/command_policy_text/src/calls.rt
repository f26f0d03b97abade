//! The calls that were refused where nothing was expected, or answered otherwise than expected.
ghost use Rattle.std.specs.Prelude.{◌≡◌, ◌++◌, ◌≤◌, length, IfOk, OnOk, map, option_copied, string_bytes};
ghost use Rattle.setup_report.specs.Text as text;
ghost use Rattle.command_policy_text.specs.Calls as spec;

use kernel_core::{Call, Reply};
use setup_format::{Setup, op_name};
use setup_report::{Naming, ReplyText};
use std::alloc::{AllocError, Global};

/// Whether a text is the expected one, or begins with it followed by a space.
#[tactic(auto, using(setup_report::proofs::Sequences::Begins::begins_not, setup_report::proofs::Sequences::Begins::begins_whole, setup_report::proofs::Sequences::Begins::begins_first))]
fn is_met(shown: &str, expected: &str) -> bool
    ensures { result ≡ text.begins_as shown.now expected.now }
{
    match shown.as_bytes().strip_prefix(expected.as_bytes()) {
        None => false,
        Some([]) => true,
        Some([byte, ..]) => *byte == b' ',
    }
}

fn is_refused(reply: Reply) -> bool
    ensures { result ≡ spec.is_refusal reply }
{
    matches!(reply, Reply::Refused(_))
}

/// What a call was answered.
fn answer_line(
    alloc: Global,
    number: usize,
    call: &Call,
    reply: Reply,
) -> Result<String, AllocError>
    ensures { IfOk result (λ s. string_bytes s ≡ spec.refused_call_text number call.now reply) }
{
    let op = op_name(&call.op).text();
    let naming = &Naming::plain();
    let answer = ReplyText { naming, reply };
    format!(in alloc; "breach call {number} {op}: {answer}")
}

fn unmet_line(
    alloc: Global,
    number: usize,
    call: &Call,
    expected: &str,
    reply: Reply,
) -> Result<String, AllocError>
    ensures { IfOk result (λ s. string_bytes s ≡ spec.unmet_text number call.now expected.now reply) }
{
    let line = answer_line(alloc, number, call, reply)?;
    format!(in alloc; "{line}, not met: {expected}")
}

fn is_reply_met(alloc: Global, reply: Reply, expected: &str) -> Result<bool, AllocError>
    ensures { IfOk result (λ met. met ≡ text.begins_as (text.reply_text reply) expected.now) }
{
    let naming = &Naming::plain();
    let answer = ReplyText { naming, reply }.to_string(alloc)?;
    Ok(is_met(answer.as_str(), expected))
}

fn add_unmet(
    alloc: Global,
    lines: &mut Vec<String>,
    number: usize,
    call: &Call,
    expected: &str,
    reply: Reply,
) -> Result<(), AllocError>
    ensures { OnOk result (map string_bytes lines.new.items ≡ map string_bytes lines.old.items ++ spec.unmet number call.now expected.now reply) }
{
    if is_reply_met(alloc, reply, expected)? {
        return Ok(());
    }
    let line = unmet_line(alloc, number, call, expected, reply)?;
    lines.push(line)?;
    Ok(())
}

fn add_refused(
    alloc: Global,
    lines: &mut Vec<String>,
    number: usize,
    call: &Call,
    reply: Reply,
) -> Result<(), AllocError>
    ensures { OnOk result (map string_bytes lines.new.items ≡ map string_bytes lines.old.items ++ spec.refused number call.now reply) }
{
    if is_refused(reply) {
        let line = answer_line(alloc, number, call, reply)?;
        lines.push(line)?;
    }
    Ok(())
}

fn add_call(
    alloc: Global,
    lines: &mut Vec<String>,
    number: usize,
    call: &Call,
    expected: Option<&str>,
    reply: Reply,
) -> Result<(), AllocError>
    ensures { OnOk result (map string_bytes lines.new.items ≡ map string_bytes lines.old.items ++ spec.call_breach number call.now (option_copied expected.entry) reply) }
{
    match expected {
        None => add_refused(alloc, lines, number, call, reply),
        Some(expected) => add_unmet(alloc, lines, number, call, expected, reply),
    }
}

/// A line for each call that was refused where nothing was expected, or answered otherwise than expected. `replies` has what the
/// first calls of a set-up were answered.
pub fn call_breaches(
    alloc: Global,
    setup: &Setup,
    replies: &[Reply],
) -> Result<Vec<String>, AllocError>
    requires { length replies.now ≤ length setup.now.calls }
    ensures { IfOk result (λ v. map string_bytes v.items ≡ spec.call_breaches 1 setup.now.calls replies.now) }
{
    let mut lines = Vec::new(alloc);
    for (i, reply) in replies.iter().enumerate() {
        let call = &setup.calls()[i];
        add_call(alloc, &mut lines, i + 1, call, setup.expect(i), *reply)?;
    }
    Ok(lines)
}
