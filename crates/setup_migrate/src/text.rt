//! The text of a set-up's table.
ghost use Rattle.std.specs.Prelude.{◌≡◌, IfOk, Ok};
ghost use Rattle.toml.specs.View.{table_view};
ghost use Rattle.setup_format.specs.Setups.{document_of};

use setup_values::table_is_within;
use std::alloc::{AllocError, Global};
use toml::Table;

/// How many levels of arrays and tables `toml` reads.
const TOML_LEVELS: usize = 80;

/// The text that `toml` prints of a table that is to be a set-up's, and that it reads as that table.
///
/// # Errors
///
/// Memory was refused, or the table is none of a set-up: it has a date, or too many levels to be read again.
#[tactic(auto, using(crate::proofs::Texts::document_of_string))]
pub fn table_text(alloc: Global, table: &Table) -> Result<Vec<u8>, AllocError>
    ensures { IfOk result (λ text. document_of text.items ≡ Ok (table_view table.now)) }
{
    // The tables of a set-up have four levels and no dates. So only memory can be lacking.
    if !table_is_within(table, TOML_LEVELS) {
        return Err(AllocError);
    }
    match toml::table_to_string(alloc, table) {
        Ok(text) => Ok(text.into_bytes()),
        Err(_) => Err(AllocError),
    }
}
