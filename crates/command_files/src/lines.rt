//! The line of a file, and the summary.
ghost use Rattle.std.specs.Prelude.{◌≡◌, ◌++◌, IfOk, OnOk, option_map, string_bytes};
ghost use Rattle.command_files.specs.Files.{tally_line};
ghost use Rattle.command_files.specs.Private.{count_text, found_line, line_with, named_line};

use crate::tally::Tally;
use command_check::CountedText;
use setup_report::ExpectationCount;
use std::alloc::{AllocError, Global};
use std::fmt::Write;

/// What is said of a file that cannot be read.
const UNREAD: &[u8] = b"cannot be read\n";

/// How many expectations are met, as the last line of a report has it.
fn count_line(alloc: Global, count: ExpectationCount) -> Result<String, AllocError>
    ensures { IfOk result (λ line. string_bytes line ≡ count_text count) }
{
    let mut line = String::new(alloc);
    let met = count.met;
    let expected = count.expected;
    writeln!(line, "expected {met} of {expected}")?;
    Ok(line)
}

/// Adds the last line of a text: of a report that of its count, and else the line of the refusal.
fn add_made(alloc: Global, out: &mut Vec<u8>, made: &CountedText) -> Result<(), AllocError>
    ensures { OnOk result (out.new.items ≡ out.old.items ++ line_with made.now.text.items made.now.count) }
{
    match made.count {
        None => out.extend_from_slice(made.text.as_slice()),
        Some(count) => {
            let line = count_line(alloc, count)?;
            out.extend_from_slice(line.as_bytes())
        }
    }
}

/// Adds what is said of a file.
fn add_found(
    alloc: Global,
    out: &mut Vec<u8>,
    found: Option<&CountedText>,
) -> Result<(), AllocError>
    ensures { OnOk result (out.new.items ≡ out.old.items ++ found_line (option_map (λ m. m.now) found.entry)) }
{
    match found {
        None => out.extend_from_slice(UNREAD),
        Some(made) => add_made(alloc, out, made),
    }
}

/// Adds the line of the file of that name.
pub(crate) fn add_line(
    alloc: Global,
    out: &mut Vec<u8>,
    name: &str,
    found: Option<&CountedText>,
) -> Result<(), AllocError>
    ensures { OnOk result (out.new.items ≡ out.old.items ++ named_line name.now (option_map (λ m. m.now) found.entry)) }
{
    out.extend_from_slice(name.as_bytes())?;
    out.extend_from_slice(b": ")?;
    add_found(alloc, out, found)
}

/// The summary of so many files.
pub(crate) fn summary(alloc: Global, files: usize, tally: Tally) -> Result<String, AllocError>
    ensures { IfOk result (λ line. string_bytes line ≡ tally_line files tally) }
{
    let mut line = String::new(alloc);
    let met = tally.met;
    let unmet = tally.unmet;
    let refused = tally.refused;
    let unread = tally.unread;
    writeln!(
        line,
        "files {files} met {met} unmet {unmet} refused {refused} unread {unread}"
    )?;
    Ok(line)
}
