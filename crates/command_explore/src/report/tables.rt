//! The table of a set-up, with some of its calls.
ghost use Rattle.std.specs.Prelude.{◌≡◌, ◌++◌, codes, map, IfOk, OnOk, option_map, string_bytes};
ghost use Rattle.std.specs.List.{flat_map};
ghost use Rattle.toml.specs.View.{view, items_view, table_view};
ghost use Rattle.setup_migrate.specs.Migration.{with_member, with_changed};
ghost use Rattle.command_explore.specs.Witnesses as spec;

use setup_format::limits::NEWEST_FORMAT;
use std::alloc::{AllocError, Global};
use toml::{Table, Value};

/// Takes the expectation of a call out of its table.
fn remove_expectation(call: &mut Table)
    ensures { table_view call.new ≡ spec.table_without (codes "expect") (table_view call.old) }
{
    call.remove("expect");
}

/// Takes the expectation of a call out of the value that holds it.
fn drop_expectation(call: &mut Value)
    ensures { view call.new ≡ spec.unexpecting (view call.old) }
{
    if let Some(call) = call.as_table_mut() {
        remove_expectation(call);
    }
}

/// A copy of a call, with its expectation or without it.
fn copy_of(call: &Value, expects: bool) -> Result<Value, AllocError>
    ensures { IfOk result (λ copy. view copy ≡ spec.call_as expects (view call.now)) }
{
    let mut copy = call.clone()?;
    if !expects {
        drop_expectation(&mut copy);
    }
    Ok(copy)
}

/// The call with a number, from 1 on.
fn call_numbered(calls: &[Value], number: usize) -> Option<&Value>
    ensures { option_map (λ call. view call.now) result ≡ spec.call_numbered (items_view calls.now) number }
{
    let i = number.checked_sub(1)?;
    calls.get(i)
}

/// Adds a copy of the call with a number, where there is one; with its expectation if the number is `kept`.
fn add_call(
    chosen: &mut Vec<Value>,
    calls: &[Value],
    number: usize,
    kept: usize,
) -> Result<(), AllocError>
    ensures { OnOk result (map view chosen.new.items ≡ map view chosen.old.items ++ spec.chosen_call kept (items_view calls.now) number) }
{
    if let Some(call) = call_numbered(calls, number) {
        chosen.push(copy_of(call, number == kept)?)?;
    }
    Ok(())
}

/// Copies of the calls with these numbers, in this order.
fn chosen_items(
    alloc: Global,
    calls: &[Value],
    numbers: &[usize],
    kept: usize,
) -> Result<Vec<Value>, AllocError>
    ensures { IfOk result (λ chosen. map view chosen.items ≡ flat_map (spec.chosen_call kept (items_view calls.now)) numbers.now) }
{
    let mut chosen = Vec::new(alloc);
    for number in numbers {
        add_call(&mut chosen, calls, *number, kept)?;
    }
    Ok(chosen)
}

/// The value that holds the calls with these numbers, of the one that holds all calls.
fn chosen_calls(
    alloc: Global,
    calls: &Value,
    numbers: &[usize],
    kept: usize,
) -> Result<Value, AllocError>
    ensures { IfOk result (λ chosen. view chosen ≡ spec.chosen_calls kept numbers.now (view calls.now)) }
{
    match calls {
        Value::Array(calls) => {
            let chosen = chosen_items(alloc, calls.as_slice(), numbers, kept)?;
            Ok(Value::Array(chosen))
        }
        other => other.clone(),
    }
}

/// Keeps of the calls of a set-up's table those with these numbers, in this order.
fn choose_calls(
    alloc: Global,
    table: &mut Table,
    numbers: &[usize],
    kept: usize,
) -> Result<(), AllocError>
    ensures { IfOk result (λ _. table_view table.new ≡ with_changed (codes "call") (spec.chosen_calls kept numbers.now) (table_view table.old)) }
{
    if let Some(calls) = table.get_mut("call") {
        *calls = chosen_calls(alloc, calls, numbers, kept)?;
    }
    Ok(())
}

/// Puts a value at a key of a table, in place of the one that the key had.
fn put(table: &mut Table, key: String, value: Value) -> Result<(), AllocError>
    ensures { IfOk result (λ _. table_view table.new ≡ with_member (string_bytes key) (view value) (table_view table.old)) }
{
    table.insert(key, value)?;
    Ok(())
}

/// Makes of the table of a set-up that of one in the newest format, with the calls that have these numbers, in this order.
/// Only the call with the number `kept` keeps its expectation.
pub fn keep_calls(
    alloc: Global,
    table: &mut Table,
    numbers: &[usize],
    kept: usize,
) -> Result<(), AllocError>
    ensures { IfOk result (λ _. table_view table.new ≡ spec.with_calls kept numbers.now (table_view table.old)) }
{
    put(
        table,
        String::from_str(alloc, "format")?,
        Value::from(NEWEST_FORMAT),
    )?;
    choose_calls(alloc, table, numbers, kept)
}
