//! A value put into a table.
ghost use Rattle.std.specs.Prelude.{◌≡◌, IfOk, string_bytes};
ghost use Rattle.toml.specs.View.{view, table_view};
ghost use Rattle.setup_migrate.specs.Migration.{with_member};

use std::alloc::AllocError;
use toml::{Table, Value};

/// Puts a value at a key of a table, in place of the one that the key had.
pub fn put(table: &mut Table, key: String, value: Value) -> Result<(), AllocError>
    ensures { IfOk result (λ _. table_view table.new
        ≡ with_member (string_bytes key) (view value) (table_view table.old)) }
{
    table.insert(key, value)?;
    Ok(())
}
