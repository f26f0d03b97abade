//! The tables of a set-up's calls.
ghost use Rattle.std.specs.Prelude.{◌≡◌, codes, option_map};
ghost use Rattle.toml.specs.Data.{get_member, as_array};
ghost use Rattle.toml.specs.View.{view, table_view};
ghost use Rattle.setup_values.specs.Kinds.{array_in};
ghost use Rattle.setup_format.specs.Limits.{max_calls};
ghost use Rattle.command_why.specs.Tables as spec;

use setup_format::limits::MAX_CALLS;
use setup_values::kinds::array;
use toml::{Table, Value};

/// The value of the key `call` of a set-up.
fn calls_in(setup: &Table) -> Option<&Value>
    ensures { option_map (λ v. view v.now) result ≡ get_member (codes "call") (table_view setup.now) }
{
    setup.get("call")
}

/// The table at a place of an array of calls.
fn table_in(calls: &Value, i: usize) -> Option<&Table>
    ensures { option_map (λ t. table_view t.now) result
        ≡ spec.table_of_call (array_in 0 max_calls (as_array (view calls.now))) i }
{
    match array(calls, 0, MAX_CALLS) {
        Ok(calls) => match calls.get(i) {
            Some(call) => call.as_table(),
            None => None,
        },
        Err(_) => None,
    }
}

/// The table of the call at a place of a set-up, 0 the first.
pub fn call_table(setup: &Table, i: usize) -> Option<&Table>
    ensures { option_map (λ t. table_view t.now) result ≡ spec.call_table (table_view setup.now) i }
{
    match calls_in(setup) {
        Some(calls) => table_in(calls, i),
        None => None,
    }
}
