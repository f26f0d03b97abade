//! What the options of a command line ask for and there is not.
use crate::sizes::absent_size;
use command_line::{Job, Line, Options};
use std::alloc::{AllocError, Global};

/// The order that is absent of an exploration.
fn absent_order(alloc: Global, options: Options<'_>) -> Result<Option<String>, AllocError> {
    match options.witness {
        None => Ok(None),
        Some(which) => {
            let text = format!(in alloc; "--witness {which}: explore tells no such order")?;
            Ok(Some(text))
        }
    }
}

/// Says which order an exploration does not tell, or why there is no set-up of the sizes that the options give; nothing of other
/// commands, whose answer itself says what is absent.
///
/// # Errors
/// Where memory was refused.
pub fn absence(alloc: Global, line: &Line<'_>) -> Result<Option<String>, AllocError> {
    match line.job {
        Job::New => Ok(Some(absent_size(alloc, line.options)?)),
        Job::Explore => absent_order(alloc, line.options),
        _ => Ok(None),
    }
}
