//! The table of a set-up that makes the first calls of another, and then those that were found.
use cap_core::{Profile, Rights};
use command_why::{KeyWord, KeyWords, key_words};
use kernel_core::{Call, Op, Reply};
use setup_format::limits::NEWEST_FORMAT;
use setup_format::op_name;
use setup_report::{Naming, ReplyText};
use setup_values::{Name, thread_name};
use std::alloc::{AllocError, Global};
use toml::{Table, Value};

/// Puts a value at a key of a table, in place of the one that the key had.
fn put(alloc: Global, table: &mut Table, key: &str, value: Value) -> Result<(), AllocError> {
    table.insert(String::from_str(alloc, key)?, value)?;
    Ok(())
}

/// A word, as a number if that can hold it, and as a hexadecimal string if not.
fn word_value(alloc: Global, word: u64) -> Result<Value, AllocError> {
    if word > i64::MAX as u64 {
        return Ok(Value::String(format!(in alloc; "0x{word:x}")?));
    }
    Ok(Value::from(word as i64))
}

/// Whether a word of a call is the one that is meant if its key is left out.
fn is_default<P: Profile>(op: &Op, words: &KeyWords, pair: &KeyWord) -> bool {
    let is_retype = matches!(*op, Op::Retype { .. });
    let is_space = matches!(*op, Op::SetSpace { .. });
    let (key, word) = (pair.key, pair.word);
    let whole = if is_retype {
        0
    } else {
        u64::from(P::WORD_BITS)
    };
    key == "src_root" && word == words.word_of("cap")
        || (key == "depth" || key == "src_depth") && word == whole
        || (key == "index" || key == "size_bits") && is_retype && word == 0
        || key == "word" && is_space && word == 0
        || key == "rights" && word == u64::from(Rights::ALL.0)
}

/// A call that was found, with what it is answered.
fn found_call<P: Profile>(
    alloc: Global,
    names: &[Name],
    call: &Call,
    reply: Reply,
) -> Result<Value, AllocError> {
    let mut table = Table::new(alloc);
    let thread = match thread_name(names, call.thread).name {
        Some(name) => Value::String(format!(in alloc; "@{name}")?),
        None => word_value(alloc, call.thread)?,
    };
    put(alloc, &mut table, "thread", thread)?;
    let op = String::from_str(alloc, op_name(&call.op).text())?;
    put(alloc, &mut table, "op", Value::String(op))?;
    let words = key_words(&call.op);
    for pair in words.as_slice() {
        if !is_default::<P>(&call.op, &words, pair) {
            let value = word_value(alloc, pair.word)?;
            put(alloc, &mut table, pair.key, value)?;
        }
    }
    let naming = &Naming::plain();
    let reply = ReplyText { naming, reply };
    let expect = format!(in alloc; "{reply}")?;
    put(alloc, &mut table, "expect", Value::String(expect))?;
    Ok(Value::Table(table))
}

/// A copy of a call, without what it expects.
fn first_call(call: &Value) -> Result<Value, AllocError> {
    let mut copy = call.clone()?;
    if let Some(table) = copy.as_table_mut() {
        table.remove("expect");
    }
    Ok(copy)
}

/// Copies of the first calls of a set-up's table, without what they expect.
fn first_calls(alloc: Global, table: &Table, made: usize) -> Result<Vec<Value>, AllocError> {
    let mut first = Vec::new(alloc);
    if let Some(Value::Array(calls)) = table.get("call") {
        for call in calls.as_slice().iter().take(made) {
            first.push(first_call(call)?)?;
        }
    }
    Ok(first)
}

/// The table of a set-up in the newest format, with the first calls of another, without what they expect, and then the calls that
/// were found, with what they are answered.
pub fn with_calls<P: Profile>(
    alloc: Global,
    table: &Table,
    names: &[Name],
    made: usize,
    calls: &[Call],
    replies: &[Reply],
) -> Result<Table, AllocError> {
    let mut list = first_calls(alloc, table, made)?;
    for (call, reply) in calls.iter().zip(replies) {
        list.push(found_call::<P>(alloc, names, call, *reply)?)?;
    }
    let mut table = table.clone()?;
    put(alloc, &mut table, "format", Value::from(NEWEST_FORMAT))?;
    put(alloc, &mut table, "call", Value::Array(list))?;
    Ok(table)
}
