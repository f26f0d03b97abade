//! Options that do not go together, and words that name nothing.
ghost use Rattle.std.specs.Prelude.{◌≡◌, not, is_some, option_map};
ghost use Rattle.command_line.specs.CommandLine.{agrees, agrees_how, agrees_import, agrees_names, are_two_threads, is_hyphen_given, is_rights};

use crate::arguments::Options;

/// What is said of words that do not go together.
const SLOT_WITH_WITHOUT: &str = "--slot and --without do not go together";

const NAMES_WITH_WITNESS: &str = "--names and --witness do not go together";

const ENDS_WITH_WITNESS: &str = "--ends and --witness do not go together";

const ONE_HAPPENING: &str = "--message, --hold and --loss do not go together";

const MESSAGES_ALONE: &str = "--by and --badge go neither with --hold nor with --loss";

const NO_HYPHEN: &str = "POLICY and --of name a file; for standard input write /dev/stdin";

const RIGHTS: &str = "--rights: all or least is accepted";

const LISTING_WITH_HOW: &str = "--listing and --how do not go together";

const TWO_THREADS: &str = "FROM,TO: two threads are accepted, with a comma between them";

/// Whether a word that names a file is a hyphen, which stands for standard input in place of FILE alone.
fn has_hyphen(name: Option<&str>) -> bool
    ensures { result ≡ is_hyphen_given (option_map (λ s. s.now) name.entry) }
{
    match name {
        Some(name) => name == "-",
        None => false,
    }
}

const FLOWS_WITH_PLAIN: &str = "--flows and --plain do not go together";

const CDL_ALONE: &str = "--cdl goes neither with --listing nor with --shrink";

/// Whether `--rights` takes its word.
fn takes_rights(rights: Option<&str>) -> bool
    ensures { result ≡ is_rights (option_map (λ s. s.now) rights.entry) }
{
    match rights {
        Some(rights) => rights == "all" || rights == "least",
        None => true,
    }
}

/// What is said of options of `import` that do not go together.
fn conflict_of_import(options: &Options) -> Option<&'static str>
    ensures { is_some result ≡ not (agrees_import options.now) }
{
    if !takes_rights(options.rights) {
        Some(RIGHTS)
    } else if options.flows && options.plain {
        Some(FLOWS_WITH_PLAIN)
    } else if options.cdl && (options.listing || options.shrink.is_some()) {
        Some(CDL_ALONE)
    } else {
        None
    }
}

/// Whether FROM,TO, where it is there, has one comma.
fn has_two_threads(from_to: Option<&str>) -> bool
    ensures { result ≡ are_two_threads (option_map (λ s. s.now) from_to.entry) }
{
    match from_to {
        Some(threads) => {
            let commas = threads.as_bytes().iter().filter(|byte| **byte == b',');
            commas.count() == 1
        }
        None => true,
    }
}

/// What is said of options of `how` that do not go together.
fn conflict_of_how(options: &Options) -> Option<&'static str>
    ensures { is_some result ≡ not (agrees_how options.now) }
{
    let has_other = options.hold || options.loss;
    if options.message && has_other || options.hold && options.loss {
        Some(ONE_HAPPENING)
    } else if has_other && (options.by.is_some() || options.badge.is_some()) {
        Some(MESSAGES_ALONE)
    } else {
        None
    }
}

/// What is said of words that name no file or no two threads, and of options of `import` and of `how` that do not go together.
fn conflict_of_names(options: &Options) -> Option<&'static str>
    ensures { is_some result ≡ not (agrees_names options.now) }
{
    if has_hyphen(options.policy) || has_hyphen(options.of) {
        Some(NO_HYPHEN)
    } else if !has_two_threads(options.from_to) {
        Some(TWO_THREADS)
    } else if let Some(conflict) = conflict_of_import(options) {
        Some(conflict)
    } else {
        conflict_of_how(options)
    }
}

/// What is said of options that do not go together, and of words that name nothing.
pub fn conflict_of(options: &Options) -> Option<&'static str>
    ensures { is_some result ≡ not (agrees options.now) }
{
    if options.slot.is_some() && options.without.is_some() {
        Some(SLOT_WITH_WITHOUT)
    } else if options.witness.is_some() && options.names {
        Some(NAMES_WITH_WITNESS)
    } else if options.witness.is_some() && options.ends {
        Some(ENDS_WITH_WITNESS)
    } else if options.listing && options.breach.is_some() {
        Some(LISTING_WITH_HOW)
    } else {
        conflict_of_names(options)
    }
}
