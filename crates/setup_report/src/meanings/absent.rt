//! What standard error says about a word that stands for nothing. The texts are tested, and no clause says what they are.
ghost use Rattle.kernel_abstract.specs.Plan.{IsWithinLimits};

use crate::meanings::meant::{ObjectKind, object_meant};
use crate::meanings::words::number_meant;
use cap_core::Profile;
use ipc_core::Waiters;
use kernel_core::Kernel;
use setup_format::Setup;
use setup_values::Name;
use slot_core::CapStore;
use std::alloc::{AllocError, Global};
use strsim::osa_distance;

/// The most edits that lead from a name to one that looks like it.
const MAX_EDITS: usize = 2;

/// The longest word that is looked for among the names, in bytes.
const MAX_WORD: usize = 40;

impl ObjectKind {
    /// What a text calls such an object.
    fn word(self) -> &'static str {
        match self {
            ObjectKind::Thread => "thread",
            ObjectKind::Endpoint => "endpoint",
            ObjectKind::Region => "untyped region",
        }
    }
}

/// Whether a name is a word with an end of its own behind it, as `app_tcb` is of `app`.
fn is_begun_by(name: &str, word: &str) -> bool {
    match name.strip_prefix(word) {
        None => false,
        Some(end) => end.starts_with("_"),
    }
}

/// The name that looks most like a word; if none does, the first that begins with it.
fn nearest<'a>(
    alloc: Global,
    names: &'a [Name],
    word: &str,
) -> Result<Option<&'a str>, AllocError> {
    let (mut nearest, mut fewest) = (None, MAX_EDITS + 2);
    if word.len() > MAX_WORD {
        return Ok(None);
    }
    for name in names {
        let mut edits = osa_distance(alloc, word, name.text.as_str())?;
        if edits > MAX_EDITS && is_begun_by(name.text.as_str(), word) {
            edits = MAX_EDITS + 1;
        }
        if edits < fewest {
            (nearest, fewest) = (Some(name.text.as_str()), edits);
        }
    }
    Ok(nearest)
}

/// What is said about a word that is no number and no name.
fn no_name(alloc: Global, names: &[Name], option: &str, word: &str) -> Result<String, AllocError> {
    if word.is_empty() {
        return format!(in alloc; "{option}: a word between its commas is empty");
    }
    let text = word.strip_prefix("@").unwrap_or(word);
    match nearest(alloc, names, text)? {
        Some(name) => format!(in alloc;
            "{option} {word}: no address, and no name of the set-up; the nearest name is {name}"
        ),
        None => format!(in alloc; "{option} {word}: no address, and no name of the set-up"),
    }
}

/// What is said about a word of an option that stands for no slot, since it is no number and no name.
pub fn absent_slot(
    alloc: Global,
    names: &[Name],
    option: &str,
    word: &str,
) -> Result<String, AllocError> {
    if word.is_empty() {
        return format!(in alloc; "{option}: the word is empty");
    }
    no_name(alloc, names, option, word)
}

/// Of some words, as an option gives them, what is said about the first that stands for no object of the kind.
pub fn absent_object<P: Profile, S: CapStore<P> + Drop, W: Waiters<P> + Drop>(
    alloc: Global,
    names: &[Name],
    setup: &Setup,
    kernel: &Kernel<P, S, W>,
    kind: ObjectKind,
    option: &str,
    words: &[&str],
) -> Result<Option<String>, AllocError>
    requires { IsWithinLimits P.profile setup.now.plan }
{
    for word in words {
        if object_meant::<P, S, W>(names, setup, kernel, kind, word.as_bytes()).is_some() {
            continue;
        }
        let Some(slot) = number_meant(names, word.as_bytes()) else {
            return Ok(Some(no_name(alloc, names, option, *word)?));
        };
        let kind = kind.word();
        return Ok(Some(format!(in alloc;
            "{option} {word}: slot {slot} of the root CNode has no {kind}"
        )?));
    }
    Ok(None)
}
