//! The words of the command line.
ghost use Rattle.std.specs.Prelude.{◌≡◌, ◌&&◌, Some, None, [], codes, true, false, not, is_some, option_map, IfOk, IfErr, IsSome, OnOk};
ghost use Rattle.std.specs.Str.{bytes_eq};
ghost use Rattle.clap.specs.Words.{App, Rule, app_of, fault_of, first_of, found_of, rows_of, subcommand_of, subcommand_rows_of, with_rule};
ghost use Rattle.clap.specs.Values.{kind_of};
ghost use Rattle.clap.specs.Walk.{texts};
ghost use Rattle.command_line.specs.CommandLine.{Explains, ExplainsMatches, HasOptions, IsArgument, IsCommand, Says, StandsFor, agrees, and_subcommand as and_command, bare_command, command as definition, file_asked, file_of, file_rule, files_of, is_set, job_asked, job_named, job_of, lists_one as lists_one_definition, more_behind as more_behind_definition, more_files_in, more_files_rule, more_given, names_command, needed_rule, option_rule, own_rows, reads_once, row_command, several_asked, several_of, with_file_rules, with_option_rules, with_row_commands};

use crate::arguments::{Job, Line, LineFault, Options};
use crate::built::{ABOUT, VERSION};
use crate::conflicts::conflict_of;
use crate::table::{COMMANDS, CommandRow, Files, OptionRow, Takes};
use clap::builder::ValueParser;
use clap::error::ErrorKind;
use clap::{Arg, ArgAction, ArgMatches, Command, Error};
use std::alloc::{AllocError, Global};

/// The last lines of the help.
const AFTER_HELP: &str = "\
Without a command, FILE is run as by check.

Examples:
  sel4sim layout.toml            the report of a set-up
  sel4sim a.toml b.toml          a line for each of several, and a summary
  sel4sim marks layout.toml      which of its expectations are met, and no reply
  sel4sim marks --of exercise.toml a.toml b.toml
                                 the marks of answers that were handed in, as a table
  sel4sim trace layout.toml      what each of its calls changed
  sel4sim why layout.toml        why its calls are refused
  sel4sim tree layout.toml       which slot is derived from which
  sel4sim audit layout.toml      who reaches what, and who can send to whom
  sel4sim ever --without loader layout.toml
                                 what the clients can never get
  sel4sim never --by endpoint client,server layout.toml
                                 whether one of them is kept from the other
  sel4sim how client,server layout.toml
                                 calls by which one of them reaches the other
  sel4sim draft --without loader layout.toml
                                 a policy that the layout keeps
  sel4sim policy policy.toml layout.toml
                                 whether it keeps to a policy, for all calls to come
  sel4sim explore layout.toml    what every order of its calls comes to
  sel4sim check - < layout.toml  the set-up on standard input
  sel4sim new > layout.toml      a set-up to start from
  sel4sim import system.cdl      a set-up of a layout that is capDL text

Exit status:
  0  every expectation is met, or there is none; the policy is kept; it is
     excluded (never); the calls are found (how)
  1  an expectation is not met, or with --strict a call is refused that has
     none; the policy is broken; it is possible (never); no calls are found,
     or it is excluded (how); clients end stuck, or not every order was
     explored (explore); not every call is made (threads)
  2  the set-up, the policy or the layout is refused
  3  reading or writing failed, memory ran out, or a thread was not started
  4  the command line is refused, or names what the set-up does not have;
     what was made of a layout does not come to it (import)

Pages: docs/first-set-up.md, and below the installation share/doc/sel4sim";

/// What is said where standard input is named twice.
const TWO_HYPHENS: &str = "- stands for standard input, which can be read once";

/// What the help says of what stands before FILE.
const TWO_THREADS: &str = "Two threads, with a comma between them; each is an address or a name";

const A_POLICY: &str = "The file of the policy";

/// The base in which the numbers of options are written.
const DECIMAL: u32 = 10;

/// The argument FILE.
fn file<'a>(alloc: Global) -> Arg<'a>
    ensures { IsArgument file_rule result }
{
    Arg::new(alloc, "FILE").help("The set-up; without it, or if it is -, standard input is read")
}

/// The argument FILES, behind FILE.
fn more_files<'a>(alloc: Global) -> Arg<'a>
    ensures { IsArgument more_files_rule result }
{
    Arg::new(alloc, "FILES").action(ArgAction::Append).help(
        "More set-ups; of several a line for each is printed in place of the report",
    )
}

/// An argument that is needed.
fn needed<'a>(alloc: Global, name: &'a str, help: &'a str) -> Arg<'a>
    ensures { IsArgument (needed_rule name.entry.now) result }
{
    Arg::new(alloc, name).required(true).help(help)
}

/// A command with one more argument.
fn and_argument<'a>(command: Command<'a>, argument: Arg<'a>) -> Result<Command<'a>, AllocError>
    ensures { (app : App) (rule : Rule) → IsCommand app command.entry → IsArgument rule argument.entry → IfOk result (IsCommand (with_rule app rule)) }
{
    command.arg(argument)
}

/// A command with the arguments for its files, and for what stands before them.
fn with_files<'a>(
    alloc: Global,
    command: Command<'a>,
    files: Files,
) -> Result<Command<'a>, AllocError>
    ensures { (app : App) → IsCommand app command.entry → IfOk result (IsCommand (with_file_rules files app)) }
{
    match files {
        Files::Zero => Ok(command),
        Files::One => and_argument(command, file(alloc)),
        Files::Several => and_argument(and_argument(command, file(alloc))?, more_files(alloc)),
        Files::AfterThreads => {
            let threads = needed(alloc, "FROM,TO", TWO_THREADS);
            and_argument(and_argument(command, threads)?, file(alloc))
        }
        Files::AfterPolicy => {
            let policy = needed(alloc, "POLICY", A_POLICY);
            and_argument(and_argument(command, policy)?, file(alloc))
        }
    }
}

/// The option of a row.
fn option<'a>(alloc: Global, row: &OptionRow) -> Arg<'a>
    ensures { IsArgument (option_rule row.now) result }
{
    let OptionRow(name, takes, help) = *row;
    let option = Arg::new(alloc, name).long(name).help(help);
    match takes {
        Takes::Nothing => option.action(ArgAction::SetTrue),
        Takes::Number => {
            let number = ValueParser::Unsigned(0, u64::MAX);
            option.value_name("N").value_parser(number)
        }
        Takes::Text(what) => option.value_name(what),
    }
}

/// A command with the options of these rows too, in their order.
fn with_options<'a>(
    alloc: Global,
    command: Command<'a>,
    rows: &[OptionRow],
) -> Result<Command<'a>, AllocError>
    ensures { (app : App) → IsCommand app command.entry → IfOk result (IsCommand (with_option_rules app rows.now)) }
{
    let mut wider = command;
    for row in rows {
        wider = and_argument(wider, option(alloc, row))?;
    }
    Ok(wider)
}

/// The subcommand of a row.
fn subcommand<'a>(alloc: Global, row: &CommandRow) -> Result<Command<'a>, AllocError>
    ensures { IfOk result (IsCommand (row_command row.now)) }
{
    let command = Command::new(alloc, row.name).about(row.about);
    let wider = with_files(alloc, command, row.files)?;
    with_options(alloc, wider, row.options)
}

/// A command with one more subcommand.
fn and_subcommand<'a>(command: Command<'a>, made: Command<'a>) -> Result<Command<'a>, AllocError>
    ensures { (app sub : App) → IsCommand app command.entry → IsCommand sub made.entry → IfOk result (IsCommand (and_command sub app)) }
{
    command.subcommand(made)
}

/// A command with the subcommands of these rows too, in their order.
fn with_subcommands<'a>(
    alloc: Global,
    command: Command<'a>,
    rows: &[CommandRow],
) -> Result<Command<'a>, AllocError>
    ensures { (app : App) → IsCommand app command.entry → IfOk result (IsCommand (with_row_commands app rows.now)) }
{
    let mut wider = command;
    for row in rows {
        wider = and_subcommand(wider, subcommand(alloc, row)?)?;
    }
    Ok(wider)
}

/// The command without the subcommands. Clap adds its own, `help`, and the option `--version`.
fn bare<'a>(alloc: Global) -> Result<Command<'a>, AllocError>
    ensures { IfOk result (IsCommand bare_command) }
{
    let command = Command::new(alloc, "sel4sim")
        .version(VERSION)
        .about(ABOUT)
        .after_help(AFTER_HELP);
    with_files(alloc, command, Files::Several)
}

/// The command as clap reads it.
fn command<'a>(alloc: Global) -> Result<Command<'a>, AllocError>
    ensures { IfOk result (λ c. app_of c ≡ definition) }
{
    with_subcommands(alloc, bare(alloc)?, &COMMANDS)
}

/// The number that an option gives.
fn number_given(matches: &ArgMatches, name: &str) -> Option<u64>
    ensures { Says (first_of name.now (rows_of (found_of matches.now))) result }
{
    let text = matches.get_str(name)?;
    u64::from_str_radix(text, DECIMAL).ok()
}

/// The text that an option gives.
fn text_given<'a>(matches: &ArgMatches<'a>, name: &str) -> Option<&'a str>
    ensures { option_map (λ s. s.now) result ≡ first_of name.now (rows_of (found_of matches.now)) }
{
    matches.get_str(name)
}

/// Whether an option that takes no value is there.
fn flag_given(matches: &ArgMatches, name: &str) -> bool
    ensures { result ≡ is_set (first_of name.now (rows_of (found_of matches.now))) }
{
    match text_given(matches, name) {
        Some(text) => text == "true",
        None => false,
    }
}

/// What the options of a subcommand give.
fn options_in<'a>(matches: &ArgMatches<'a>) -> Options<'a>
    ensures { HasOptions (rows_of (found_of matches.now)) result }
{
    Options {
        strict: flag_given(matches, "strict"),
        quiet: flag_given(matches, "quiet"),
        call: number_given(matches, "call"),
        after: number_given(matches, "after"),
        slot: text_given(matches, "slot"),
        from_to: text_given(matches, "FROM,TO"),
        breach: number_given(matches, "how"),
        message: flag_given(matches, "message"),
        hold: flag_given(matches, "hold"),
        loss: flag_given(matches, "loss"),
        badge: number_given(matches, "badge"),
        by: text_given(matches, "by"),
        without: text_given(matches, "without"),
        messages: text_given(matches, "messages"),
        policy: text_given(matches, "POLICY"),
        names: flag_given(matches, "names"),
        first: number_given(matches, "first"),
        states: number_given(matches, "states"),
        witness: text_given(matches, "witness"),
        ends: flag_given(matches, "ends"),
        ways: flag_given(matches, "ways"),
        dot: flag_given(matches, "dot"),
        profile: text_given(matches, "profile"),
        threads: number_given(matches, "threads"),
        endpoints: number_given(matches, "endpoints"),
        untyped: text_given(matches, "untyped"),
        shrink: number_given(matches, "shrink"),
        listing: flag_given(matches, "listing"),
        cdl: flag_given(matches, "cdl"),
        of: text_given(matches, "of"),
        flows: flag_given(matches, "flows"),
        plain: flag_given(matches, "plain"),
        rights: text_given(matches, "rights"),
    }
}

/// The files behind the first, in the matches of a command that takes several.
fn more_in<'m, 'a>(matches: &'m ArgMatches<'a>) -> Option<&'m [&'a str]>
    ensures { more_given (option_map (λ v. v.now) result) ≡ more_files_in (rows_of (found_of matches.now)) }
{
    matches.get_raw("FILES")
}

/// The names of the first file and of those behind it, where there are any behind it; and else that of the one file, a hyphen
/// where it has none, if one is listed too.
fn with_first<'a>(
    alloc: Global,
    lists_one: bool,
    file: Option<&'a str>,
    more: &[&'a str],
) -> Result<Vec<&'a str>, AllocError>
    ensures { IfOk result (λ v. texts v.items ≡ several_of lists_one (option_map (λ s. s.now) file.entry) (texts more.now)) }
{
    let mut several = Vec::new(alloc);
    if more.is_empty() {
        if lists_one {
            several.push(file.unwrap_or("-"))?;
        }
        return Ok(several);
    }
    if let Some(name) = file {
        several.push(name)?;
    }
    several.extend_from_slice(more)?;
    Ok(several)
}

/// The same, where clap may give no files behind the first.
fn several_in<'a>(
    alloc: Global,
    lists_one: bool,
    file: Option<&'a str>,
    more: Option<&[&'a str]>,
) -> Result<Vec<&'a str>, AllocError>
    ensures { IfOk result (λ v. texts v.items ≡ several_of lists_one (option_map (λ s. s.now) file.entry) (more_given (option_map (λ v. v.now) more.entry))) }
{
    match more {
        Some(more) => with_first(alloc, lists_one, file, more),
        None => with_first(alloc, lists_one, file, &[]),
    }
}

/// Whether a subcommand of that name lists one file as it lists several: `marks` where `--of` is there, and `check` where `--quiet` is.
fn lists_one(name: &str, matches: &ArgMatches) -> bool
    ensures { result ≡ lists_one_definition name.now (rows_of (found_of matches.now)) }
{
    name == "marks" && text_given(matches, "of").is_some()
        || name == "check" && flag_given(matches, "quiet")
}

/// What the matches ask for where they name no subcommand.
fn bare_line<'a>(alloc: Global, matches: &ArgMatches<'a>) -> Result<Line<'a>, AllocError>
    ensures named { IfOk result (λ l. l.names_command ≡ false) }
    ensures job { IfOk result (λ l. job_of None ≡ Some l.job) }
    ensures options { IfOk result (λ l. HasOptions (own_rows None) l.options) }
    ensures file { IfOk result (λ l. file_of (rows_of (found_of matches.now)) None ≡ option_map (λ s. s.now) l.file) }
    ensures several { IfOk result (λ l. files_of (rows_of (found_of matches.now)) None ≡ texts l.several.items) }
{
    let file = matches.get_str("FILE");
    let several = several_in(alloc, false, file, more_in(matches))?;
    Ok(Line {
        names_command: false,
        job: Job::Check,
        options: Options::default(),
        file,
        several,
    })
}

/// The files behind the first, in the matches of a subcommand of that name.
fn more_behind<'m, 'a>(name: &str, matches: &'m ArgMatches<'a>) -> Option<&'m [&'a str]>
    ensures { more_given (option_map (λ v. v.now) result) ≡ more_behind_definition name.now (rows_of (found_of matches.now)) }
{
    if name == "check" || name == "marks" {
        more_in(matches)
    } else {
        None
    }
}

/// What the matches of the subcommand of that name ask for, behind those of the command.
fn subcommand_line<'a>(
    alloc: Global,
    above: &ArgMatches<'a>,
    name: &str,
    matches: &ArgMatches<'a>,
) -> Result<Line<'a>, AllocError>
    requires { IsSome (job_named name.now) }
    ensures named { IfOk result (λ l. l.names_command ≡ true) }
    ensures job { IfOk result (λ l. job_of (Some (name.now, rows_of (found_of matches.now))) ≡ Some l.job) }
    ensures options { IfOk result (λ l. HasOptions (own_rows (Some (name.now, rows_of (found_of matches.now)))) l.options) }
    ensures file { IfOk result (λ l. file_of (rows_of (found_of above.now)) (Some (name.now, rows_of (found_of matches.now)))
        ≡ option_map (λ s. s.now) l.file) }
    ensures several { IfOk result (λ l. files_of (rows_of (found_of above.now)) (Some (name.now, rows_of (found_of matches.now)))
        ≡ texts l.several.items) }
{
    let Some(job) = Job::named(name) else {
        unreachable!();
    };
    let first = matches.get_str("FILE");
    let file = first.or(above.get_str("FILE"));
    let lists_one = lists_one(name, matches);
    let several = several_in(alloc, lists_one, file, more_behind(name, matches))?;
    Ok(Line {
        names_command: true,
        job,
        options: options_in(matches),
        file,
        several,
    })
}

/// What the matches ask for.
fn line_in<'a>(alloc: Global, matches: &ArgMatches<'a>) -> Result<Line<'a>, AllocError>
    requires { IsSome (job_of (subcommand_rows_of matches.now)) }
    ensures named { IfOk result (λ l. is_some (subcommand_rows_of matches.now) ≡ l.names_command) }
    ensures job { IfOk result (λ l. job_of (subcommand_rows_of matches.now) ≡ Some l.job) }
    ensures options { IfOk result (λ l. HasOptions (own_rows (subcommand_rows_of matches.now)) l.options) }
    ensures file { IfOk result (λ l. file_of (rows_of (found_of matches.now)) (subcommand_rows_of matches.now)
        ≡ option_map (λ s. s.now) l.file) }
    ensures several { IfOk result (λ l. files_of (rows_of (found_of matches.now)) (subcommand_rows_of matches.now)
        ≡ texts l.several.items) }
{
    match matches.subcommand() {
        None => bare_line(alloc, matches),
        Some((name, inner)) => subcommand_line(alloc, matches, name, inner),
    }
}

/// Whether a name stands for standard input.
fn is_hyphen(name: &str) -> bool
    ensures { result ≡ bytes_eq name.now (codes "-") }
{
    name == "-"
}

/// Whether the names have standard input at most once.
fn read_once(names: &[&str]) -> bool
    ensures { result ≡ reads_once (texts names.now) }
{
    names.iter().filter(|name| is_hyphen(**name)).count() <= 1
}

/// What is said of words that do not go together: of options, or of files.
fn conflict_in(line: &Line<'_>) -> Option<&'static str>
    ensures { is_some result ≡ not (agrees line.now.options && reads_once (texts line.now.several.items)) }
{
    let conflict = conflict_of(&line.options);
    if conflict.is_none() && !read_once(line.several.as_slice()) {
        return Some(TWO_HYPHENS);
    }
    conflict
}

/// The fault that stands for an error of clap.
fn fault_for(alloc: Global, error: &Error) -> LineFault
    ensures { StandsFor (kind_of error.now) result }
{
    let kind = error.kind();
    if kind == ErrorKind::OutOfMemory {
        return LineFault::Memory;
    }
    if kind != ErrorKind::DisplayHelp && kind != ErrorKind::DisplayVersion {
        return LineFault::Refused;
    }
    match format!(in alloc; "{error}") {
        Ok(text) => LineFault::Help(text),
        Err(_) => LineFault::Memory,
    }
}

/// The error of clap for words that the command does not take.
fn refusal(alloc: Global, words: &[&str]) -> Option<Error> {
    command(alloc).ok()?.try_get_matches_from(words).err()
}

/// What clap says of words that the command does not take: why, what looks like them, and the usage. Nothing where it
/// takes them, or where memory was refused.
pub fn refused_line_words(alloc: Global, words: &[&str]) -> Option<String> {
    let error = refusal(alloc, words)?;
    if error.kind() == ErrorKind::OutOfMemory {
        return None;
    }
    format!(in alloc; "{error}").ok()
}

/// What the matches of words that the command takes ask for.
fn taken_line<'a>(alloc: Global, matches: &ArgMatches<'a>) -> Result<Line<'a>, LineFault>
    requires { IsSome (job_of (subcommand_rows_of matches.now)) }
    ensures named { IfOk result (λ l. is_some (subcommand_rows_of matches.now) ≡ l.names_command) }
    ensures job { IfOk result (λ l. job_of (subcommand_rows_of matches.now) ≡ Some l.job) }
    ensures options { IfOk result (λ l. HasOptions (own_rows (subcommand_rows_of matches.now)) l.options) }
    ensures agrees { IfOk result (λ l. agrees l.options ≡ true) }
    ensures file { IfOk result (λ l. file_of (rows_of (found_of matches.now)) (subcommand_rows_of matches.now)
        ≡ option_map (λ s. s.now) l.file) }
    ensures several { IfOk result (λ l. files_of (rows_of (found_of matches.now)) (subcommand_rows_of matches.now)
        ≡ texts l.several.items) }
    ensures once { IfOk result (λ l. reads_once (texts l.several.items) ≡ true) }
    ensures fault { IfErr result (ExplainsMatches (rows_of (found_of matches.now)) (subcommand_rows_of matches.now)) }
{
    let Ok(line) = line_in(alloc, matches) else {
        return Err(LineFault::Memory);
    };
    match conflict_in(&line) {
        None => Ok(line),
        Some(text) => Err(LineFault::Conflict(text)),
    }
}

/// Reads the words of a command line, of which the first is the program's name.
///
/// # Errors
/// `Help` where the words call for help or for the version, `Refused` where they are none that the command takes, `Conflict` where it takes
/// them and the options do not go together, or standard input is named twice, and `Memory` where memory ran out.
pub fn line<'a>(alloc: Global, words: &'a [&'a str]) -> Result<Line<'a>, LineFault>
    ensures named { IfOk result (λ l. names_command (texts words.now) ≡ l.names_command) }
    ensures job { IfOk result (λ l. job_asked (texts words.now) ≡ Some l.job) }
    ensures options { IfOk result (λ l. HasOptions (own_rows (subcommand_of definition (texts words.now))) l.options) }
    ensures agrees { IfOk result (λ l. agrees l.options ≡ true) }
    ensures file { IfOk result (λ l. file_asked (texts words.now) ≡ option_map (λ s. s.now) l.file) }
    ensures several { IfOk result (λ l. several_asked (texts words.now) ≡ texts l.several.items) }
    ensures once { IfOk result (λ l. reads_once (texts l.several.items) ≡ true) }
    ensures taken { OnOk result (fault_of definition (texts words.now) ≡ []) }
    ensures fault { IfErr result (Explains (texts words.now)) }
{
    let Ok(command) = command(alloc) else {
        return Err(LineFault::Memory);
    };
    match command.try_get_matches_from(words) {
        Ok(matches) => taken_line(alloc, &matches),
        Err(error) => Err(fault_for(alloc, &error)),
    }
}
