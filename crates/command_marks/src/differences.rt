//! Where a set-up is another one than the exercise.
ghost use Rattle.std.specs.Prelude.{◌≡◌, IfOk, find, map, not, option_copied, option_map, string_bytes};
ghost use Rattle.std.specs.Cmp.Lexicographic.{pointwise};
ghost use Rattle.toml.specs.View.{view, table_view};
ghost use Rattle.kernel_abstract.specs.contracts.call.CallPartialEq.TheImpl as call_eq;
ghost use Rattle.setup_format.specs.Read.{read_view};
ghost use Rattle.command_marks.specs.Differences as spec;

use cap_core::limits::MAX_MESSAGE_WORDS;
use kernel_core::Call;
use setup_format::{ReadSetup, Setup, op_name, table_of};
use setup_values::kinds::array;
use std::alloc::{AllocError, Global};
use toml::{Table, Value};

/// Whether two values are the same number or the same text, or neither is one.
fn is_same_scalar(a: &Value, b: &Value) -> bool
    ensures { result ≡ spec.same_scalar (view a.now) (view b.now) }
{
    a.as_integer() == b.as_integer() && a.as_str() == b.as_str()
}

/// Whether so many values are the same, one by one.
fn are_same(a: &[Value], b: &[Value]) -> bool
    ensures { result ≡ pointwise spec.same_scalar (map view a.now) (map view b.now) }
{
    match (a, b) {
        ([], []) => true,
        ([first, rest @ ..], [other, others @ ..]) => {
            is_same_scalar(first, other) && are_same(rest, others)
        }
        _ => false,
    }
}

/// Whether two values have the same elements, or neither is an array.
fn is_same_array(a: &Value, b: &Value) -> bool
    ensures { result ≡ spec.same_elements (spec.message_in (view a.now)) (spec.message_in (view b.now)) }
{
    match (
        array(a, 0, MAX_MESSAGE_WORDS),
        array(b, 0, MAX_MESSAGE_WORDS),
    ) {
        (Ok(a), Ok(b)) => are_same(a, b),
        (Err(_), Err(_)) => true,
        _ => false,
    }
}

/// The value at a key of a call.
fn value_at<'t>(call: Option<&'t Value>, key: &str) -> Option<&'t Value>
    ensures { option_map (λ v. view v.now) result ≡ spec.value_at (option_map (λ v. view v.now) call.entry) key.now }
{
    match call {
        Some(call) => call.get(key),
        None => None,
    }
}

/// Whether two calls have the same value at a key, or one that makes no difference.
fn is_same_at(a: Option<&Value>, b: Option<&Value>, key: &str) -> bool
    ensures { result ≡ spec.same_at (option_map (λ v. view v.now) a.entry) (option_map (λ v. view v.now) b.entry) key.now }
{
    if key == "expect" || key == "client" {
        return true;
    }
    match (value_at(a, key), value_at(b, key)) {
        (Some(a), Some(b)) => is_same_scalar(a, b) && is_same_array(a, b),
        (None, None) => true,
        _ => false,
    }
}

/// The first of some keys whose values in the two calls differ.
fn first_differing(
    keys: &[&'static str],
    a: Option<&Value>,
    b: Option<&Value>,
) -> Option<&'static str>
    ensures { option_copied result ≡ find (λ key. not (spec.same_at (option_map (λ v. view v.now) a.entry) (option_map (λ v. view v.now) b.entry) key)) (map (λ k. k.now) keys.now) }
{
    match keys {
        [] => None,
        [key, rest @ ..] => {
            if is_same_at(a, b, *key) {
                first_differing(rest, a, b)
            } else {
                Some(*key)
            }
        }
    }
}

/// The value that spells the call at a place of a set-up, 0 the first.
fn spelt_call(table: &Table, i: usize) -> Option<&Value>
    ensures { option_map (λ v. view v.now) result ≡ spec.spelt_call (table_view table.now) i }
{
    match table.get("call") {
        Some(calls) => calls.get(i),
        None => None,
    }
}

/// Whether two calls are the same.
fn is_same_call(a: &Call, b: &Call) -> bool
    ensures { result ≡ call_eq.ghosts.eq a.now b.now }
{
    a == b
}

/// How many calls at the front are the same.
fn same_front(a: &[Call], b: &[Call]) -> usize
    ensures { result ≡ spec.same_front a.now b.now }
{
    let shorter = a.len().min(b.len());
    for i in 0..shorter {
        if !is_same_call(&a[i], &b[i]) {
            return i;
        }
    }
    shorter
}

/// The key of the top table in which what is booted differs first.
fn boot_key(a: &Setup, b: &Setup) -> Option<&'static str>
    ensures { option_copied result ≡ spec.boot_key a.now b.now }
{
    let (plan, other) = (a.plan(), b.plan());
    if a.profile() != b.profile() {
        Some("profile")
    } else if plan.memory_bits() != other.memory_bits() {
        Some("memory_bits")
    } else if plan.root_radix() != other.root_radix() {
        Some("root_radix")
    } else if plan.threads() != other.threads() {
        Some("threads")
    } else if plan.endpoints() != other.endpoints() {
        Some("endpoints")
    } else if plan.untypeds() != other.untypeds() {
        Some("untyped")
    } else {
        None
    }
}

/// How the call at a place, 0 the first, differs: that of the exercise and that of the set-up, where they have one there.
fn call_differs(
    alloc: Global,
    asked: &Table,
    given: &Table,
    i: usize,
    call: Option<&Call>,
    other: Option<&Call>,
) -> Result<String, AllocError>
    ensures { IfOk result (λ text. string_bytes text
        ≡ spec.call_differs (table_view asked.now) (table_view given.now) i (option_copied call.entry) (option_copied other.entry)) }
{
    let number = i as u128 + 1;
    match (call, other) {
        (Some(call), Some(_)) => {
            let keys = op_name(&call.op).keys();
            match first_differing(keys, spelt_call(asked, i), spelt_call(given, i)) {
                Some(key) => format!(in alloc; "differs at call {number} key {key}"),
                None => format!(in alloc; "differs at top key names"),
            }
        }
        (Some(_), None) => format!(in alloc; "differs at call {number} missing"),
        (None, Some(_)) => format!(in alloc; "differs at call {number} added"),
        (None, None) => format!(in alloc; "differs"),
    }
}

/// How the first call differs that is not the same in both.
fn first_call(
    alloc: Global,
    asked: &Table,
    given: &Table,
    a: &[Call],
    b: &[Call],
) -> Result<String, AllocError>
    ensures { IfOk result (λ text. string_bytes text ≡ spec.first_call (table_view asked.now) (table_view given.now) a.now b.now) }
{
    let i = same_front(a, b);
    call_differs(alloc, asked, given, i, a.get(i), b.get(i))
}

/// Where a set-up differs first from the exercise.
pub(crate) fn differs_text(
    alloc: Global,
    exercise: &ReadSetup,
    read: &ReadSetup,
) -> Result<Vec<u8>, AllocError>
    ensures { IfOk result (λ text. text.items ≡ spec.differs_text (read_view exercise.now) (read_view read.now)) }
{
    let (a, b) = (&exercise.setup, &read.setup);
    let text = match boot_key(a, b) {
        Some(key) => format!(in alloc; "differs at top key {key}")?,
        None => {
            let table = table_of(alloc, exercise.text.as_slice())?;
            let other = table_of(alloc, read.text.as_slice())?;
            first_call(alloc, &table, &other, a.calls(), b.calls())?
        }
    };
    Ok(text.into_bytes())
}
