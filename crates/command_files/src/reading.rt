//! What is made of one of several files.
ghost use Rattle.std.specs.Prelude.{◌≡◌, false, IfOk, List, ℕ, Option};
ghost use Rattle.command_files.specs.Files.{HasContents, IsFile, IsInput, IsStandard};
ghost use Rattle.command_files.specs.Private.{IsJudgedFound};

use crate::inputs::{Inputs, Listener, Used};
use crate::telling::{FileAnswer, Telling, told_in};
use command_core::{INPUT_LIMIT, RunFault, Source, read_below};
use std::alloc::{AllocError, Global};

/// Reads the source to its end, and makes what is said about it; nothing, if it cannot be read.
fn make_source<T: Telling, S: Source>(
    alloc: Global,
    telling: &T,
    source: &mut S,
) -> Result<Option<FileAnswer>, AllocError>
    requires source { S.failed source.old ≡ false }
    ensures { IfOk result (λ found. (contents : Option (List ℕ)) × HasContents S.Source source.old source.new contents × IsJudgedFound (T.verdict telling.now) (T.is_made telling.now) contents found) }
{
    match read_below(alloc, source, INPUT_LIMIT) {
        Ok(input) => Ok(Some(telling.make(alloc, input.as_slice())?)),
        Err(RunFault::Reading) => Ok(None),
        Err(_) => Err(AllocError),
    }
}

/// Makes what is said about standard input.
fn make_standard<I: Inputs, L: Listener<I::Standard, I::File, I::Fault>, T: Telling>(
    alloc: Global,
    inputs: &I,
    listener: &L,
    telling: &T,
    name: &str,
) -> Result<Option<FileAnswer>, AllocError>
    ensures { IfOk result (λ found. (contents : Option (List ℕ))
        × IsStandard (I.is_standard inputs.now) I.Standard.Source contents × IsJudgedFound (T.verdict telling.now) (T.is_made telling.now) contents found) }
{
    let mut source = inputs.standard();
    let found = make_source(alloc, telling, &mut source)?;
    listener.hear(name, &Used::Standard(source), told_in(&found));
    Ok(found)
}

/// Makes what is said about the file of that name.
fn make_named<I: Inputs, L: Listener<I::Standard, I::File, I::Fault>, T: Telling>(
    alloc: Global,
    inputs: &I,
    listener: &L,
    telling: &T,
    name: &str,
) -> Result<Option<FileAnswer>, AllocError>
    ensures { IfOk result (λ found. (contents : Option (List ℕ))
        × IsFile (I.is_file inputs.now) (I.is_fault inputs.now) I.File.Source name.now contents × IsJudgedFound (T.verdict telling.now) (T.is_made telling.now) contents found) }
{
    match inputs.open(name) {
        Ok(file) => {
            let mut source = file;
            let found = make_source(alloc, telling, &mut source)?;
            listener.hear(name, &Used::File(source), told_in(&found));
            Ok(found)
        }
        Err(fault) => {
            listener.hear(name, &Used::Unopened(fault), None);
            Ok(None)
        }
    }
}

/// Makes what is said about what the name stands for.
pub(crate) fn make_file<I: Inputs, L: Listener<I::Standard, I::File, I::Fault>, T: Telling>(
    alloc: Global,
    inputs: &I,
    listener: &L,
    telling: &T,
    name: &str,
) -> Result<Option<FileAnswer>, AllocError>
    ensures { IfOk result (λ found. (contents : Option (List ℕ))
        × IsInput (I.is_standard inputs.now) (I.is_file inputs.now) (I.is_fault inputs.now) I.Standard.Source I.File.Source name.now contents
        × IsJudgedFound (T.verdict telling.now) (T.is_made telling.now) contents found) }
{
    if name == "-" {
        make_standard(alloc, inputs, listener, telling, name)
    } else {
        make_named(alloc, inputs, listener, telling, name)
    }
}
