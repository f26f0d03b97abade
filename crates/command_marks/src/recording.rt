//! A set-up of which each call expects the reply that it gets, as the answer of a command.
ghost use Rattle.std.specs.Prelude.{◌≡◌, ◌++◌, codes, map, string_bytes, IfOk, OnOk};
ghost use Rattle.toml.specs.Data.{get_item};
ghost use Rattle.toml.specs.View.{view, items_view, table_view};
ghost use Rattle.setup_migrate.specs.Migration.{with_changed};
ghost use Rattle.command_marks.specs.Recorded as spec;

use cap_core::{Message, Profile};
use command_check::{Command, run_calls};
use command_core::{Answer, Verdict};
use ipc_core::SaveWaiters;
use kernel_core::Reply;
use setup_format::{ReadSetup, table_of};
use setup_migrate::table_text;
use setup_report::{Naming, ReplyText};
use setup_values::limits::MAX_EXPECT_BYTES;
use slot_core::{DerivationStore, SaveStore};
use std::alloc::{AllocError, Global};
use toml::{Table, Value};

/// A delivery as if its message had no words, and any other reply.
fn without_words(reply: Reply) -> Reply
    ensures { result ≡ spec.without_words reply }
{
    match reply {
        Reply::Delivered {
            endpoint,
            from,
            to,
            badge,
            message,
        } => Reply::Delivered {
            endpoint,
            from,
            to,
            badge,
            message: Message {
                count: 0,
                ..message
            },
        },
        other => other,
    }
}

/// What a call is to expect of this reply: its text, but for the words of its message if that is longer than an expectation may
/// be.
fn expectation_of(alloc: Global, reply: Reply) -> Result<String, AllocError>
    ensures { IfOk result (λ text. string_bytes text ≡ spec.expectation_of reply) }
{
    let naming = &Naming::plain();
    let text = ReplyText { naming, reply }.to_string(alloc)?;
    if text.len() <= MAX_EXPECT_BYTES {
        return Ok(text);
    }
    let reply = without_words(reply);
    ReplyText { naming, reply }.to_string(alloc)
}

/// Has a call expect this reply, in place of what it expected.
fn expect(alloc: Global, call: &mut Table, reply: Reply) -> Result<(), AllocError>
    ensures { IfOk result (λ _. table_view call.new ≡ spec.with_expectation reply (table_view call.old)) }
{
    let text = expectation_of(alloc, reply)?;
    call.insert(String::from_str(alloc, "expect")?, Value::String(text))?;
    Ok(())
}

/// Has the call that a value holds expect this reply.
fn expect_in(alloc: Global, call: &mut Value, reply: Reply) -> Result<(), AllocError>
    ensures { IfOk result (λ _. view call.new ≡ spec.expecting reply (view call.old)) }
{
    if let Some(members) = call.as_table_mut() {
        expect(alloc, members, reply)?;
    }
    Ok(())
}

/// A copy of a call, which expects this reply.
fn expecting(alloc: Global, call: &Value, reply: Reply) -> Result<Value, AllocError>
    ensures { IfOk result (λ made. view made ≡ spec.expecting reply (view call.now)) }
{
    let mut copy = call.clone()?;
    expect_in(alloc, &mut copy, reply)?;
    Ok(copy)
}

/// Adds a copy of the call at a place, if there is one, which expects this reply.
fn add_expecting(
    alloc: Global,
    made: &mut Vec<Value>,
    calls: &[Value],
    place: usize,
    reply: Reply,
) -> Result<(), AllocError>
    ensures { OnOk result (map view made.new.items ≡ map view made.old.items ++ spec.answered (get_item place (items_view calls.now)) reply) }
{
    if let Some(call) = calls.get(place) {
        made.push(expecting(alloc, call, reply)?)?;
    }
    Ok(())
}

/// Copies of the calls, each of which expects its own reply.
fn all_expecting(
    alloc: Global,
    calls: &[Value],
    replies: &[Reply],
) -> Result<Vec<Value>, AllocError>
    ensures { IfOk result (λ made. map view made.items ≡ spec.all_expecting (items_view calls.now) 0 replies.now) }
{
    let mut made = Vec::new(alloc);
    for (place, reply) in replies.iter().enumerate() {
        add_expecting(alloc, &mut made, calls, place, *reply)?;
    }
    Ok(made)
}

/// The value that holds the calls, each of which expects its own reply.
fn calls_expecting(alloc: Global, calls: &Value, replies: &[Reply]) -> Result<Value, AllocError>
    ensures { IfOk result (λ made. view made ≡ spec.calls_expecting replies.now (view calls.now)) }
{
    match calls {
        Value::Array(calls) => {
            let made = all_expecting(alloc, calls.as_slice(), replies)?;
            Ok(Value::Array(made))
        }
        other => other.clone(),
    }
}

/// Has each call of a set-up's table expect its own reply.
fn expect_replies(alloc: Global, table: &mut Table, replies: &[Reply]) -> Result<(), AllocError>
    ensures { IfOk result (λ _. table_view table.new ≡ with_changed (codes "call") (spec.calls_expecting replies.now) (table_view table.old)) }
{
    if let Some(calls) = table.get_mut("call") {
        *calls = calls_expecting(alloc, calls, replies)?;
    }
    Ok(())
}

/// Writes the set-up with each call's reply as what the call expects; all else of it is as it was. The verdict is `AllMet`.
#[derive(Clone, Copy, Drop)]
pub struct Record;

impl Command for Record {
    ghost use Rattle.command_marks.specs.Recorded.{IsRecord};

    ghost answers = { λ it. IsRecord };

    fn answer<P: Profile, S: SaveStore<P> + DerivationStore<P>, W: SaveWaiters<P>>(
        &self,
        alloc: Global,
        read: &ReadSetup,
    ) -> Result<Answer, AllocError> {
        let (_, replies) = run_calls::<P, S, W>(alloc, &read.setup)?;
        let mut table = table_of(alloc, read.text.as_slice())?;
        expect_replies(alloc, &mut table, replies.as_slice())?;
        let text = table_text(alloc, &table)?;
        Ok(Answer::new(alloc, text, Verdict::AllMet))
    }
}
