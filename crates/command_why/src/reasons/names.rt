//! The names by which a set-up spells the values of a call's keys.
ghost use Rattle.std.specs.Prelude.{◌≡◌, Some, option_map, option_copied};
ghost use Rattle.toml.specs.Data.{get_member};
ghost use Rattle.toml.specs.View.{view, table_view};
ghost use Rattle.command_why.specs.Names as spec;

use toml::{Table, Value};

/// The value of a key.
fn find<'t>(table: &'t Table, key: &str) -> Option<&'t Value>
    ensures { option_map (λ v. view v.now) result ≡ get_member key.now (table_view table.now) }
{
    table.get(key)
}

/// What follows a first `@`.
fn name_in(text: &str) -> Option<&str>
    ensures { option_copied result ≡ spec.name_in text.now }
{
    text.strip_prefix('@')
}

/// The name by which a value is spelt, if it is a text that begins with `@`.
fn name_of(value: &Value) -> Option<&str>
    ensures { option_copied result ≡ spec.spelt_name (view value.now) }
{
    name_in(value.as_str()?)
}

/// The name by which a table spells the value of a key.
fn name_in_table<'t>(call: &'t Table, key: &str) -> Option<&'t str>
    ensures { option_copied result ≡ spec.name_at (Some (table_view call.now)) key.now }
{
    match find(call, key) {
        Some(value) => name_of(value),
        None => None,
    }
}

/// The name by which a call's table spells the value of a key.
pub fn name_at<'t>(call: Option<&'t Table>, key: &str) -> Option<&'t str>
    ensures { option_copied result ≡ spec.name_at (option_map (λ t. table_view t.now) call.entry) key.now }
{
    match call {
        Some(call) => name_in_table(call, key),
        None => None,
    }
}
