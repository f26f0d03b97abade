//! How deep the arrays and tables of a TOML table nest.
ghost use Rattle.std.specs.Prelude.{◌↔◌, ◌≤◌, IsTrue};
ghost use Rattle.toml.specs.Data.{depth, items_depth, members_depth};
ghost use Rattle.toml.specs.View.{view, array_view, table_view};

use toml::value::Array;
use toml::{Table, Value};

/// Whether arrays and tables nest at most so many levels in a value.
#[cycle(levels)]
fn value_is_within(value: &Value, levels: usize) -> bool
    ensures { IsTrue result ↔ (depth (view value.now) ≤ levels) }
{
    match value {
        Value::Array(array) => levels > 0 && array_is_within(array, levels - 1),
        Value::Table(table) => levels > 0 && table_is_within(table, levels - 1),
        _ => true,
    }
}

/// Whether arrays and tables nest at most so many levels in each element of an array.
#[cycle(levels)]
fn array_is_within(array: &Array, levels: usize) -> bool
    ensures { IsTrue result ↔ (items_depth (array_view array.now) ≤ levels) }
{
    'items: for item in array {
        if !value_is_within(item, levels) {
            return false;
        }
    }
    true
}

/// Whether arrays and tables nest at most so many levels in each value of a table.
#[cycle(levels)]
pub fn table_is_within(table: &Table, levels: usize) -> bool
    ensures { IsTrue result ↔ (members_depth (table_view table.now) ≤ levels) }
{
    'members: for (_key, member) in table.iter() {
        if !value_is_within(member, levels) {
            return false;
        }
    }
    true
}
