//! The words of a text between its commas.
ghost use Rattle.std.specs.Prelude.{◌≡◌, Some, IfOk, map, option_map};
ghost use Rattle.program.specs.Commas.{words_in as words_in_definition};

use std::alloc::{AllocError, Global};

/// The words of a text between its commas.
fn words_between_commas<'a>(alloc: Global, text: &'a str) -> Result<Vec<&'a str>, AllocError>
    ensures { IfOk result (λ v. map (λ w. w.now) v.items ≡ words_in_definition (Some text.now)) }
{
    text.split(',').collect(alloc)
}

/// The same; none, if there is no text.
pub(crate) fn words_in<'a>(alloc: Global, text: Option<&'a str>) -> Result<Vec<&'a str>, AllocError>
    ensures { IfOk result (λ v. map (λ w. w.now) v.items ≡ words_in_definition (option_map (λ s. s.now) text.entry)) }
{
    match text {
        None => Ok(Vec::new(alloc)),
        Some(text) => words_between_commas(alloc, text),
    }
}
