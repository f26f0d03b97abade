//! What is said on standard error. Where that fails too, nothing more is said.
use crate::absent::absence;
use crate::calls::{note_on_broken, note_on_questions, note_on_refusals, note_on_unmet};
use crate::ended::{CheckedFiles, Done, Ended, Unknown, Unread};
use crate::kinds::other_kind;
use crate::layouts::layout_words;
use crate::quoting::shell_word;
use crate::words::{is_command, may_be_command, near_command};
use command_check::CountedText;
use command_core::{
    Found, INPUT_LIMIT, KeptReader, Notes, PolicyNote, ReaderSource, RunFault, Verdict,
};
use command_files::Used;
use command_line::{Job, Line, Options, refused_line_words};
use setup_layout::Reading;
use setup_messages::{Formats, refusal_words};
use setup_positions::NamedText;
use std::fmt::Display;
use std::io::{self, Eprint};

/// An input of a process.
type HostUsed<S, F> = Used<ReaderSource<KeptReader<S>>, ReaderSource<KeptReader<F>>, io::Error>;

/// A line that was done with an input of a process.
type HostDone<'a, S, F> = Done<
    'a,
    ReaderSource<KeptReader<S>>,
    ReaderSource<KeptReader<F>>,
    io::Error,
>;

/// The end of a program over the inputs of a process.
type HostEnded<'a, S, F> = Ended<
    'a,
    ReaderSource<KeptReader<S>>,
    ReaderSource<KeptReader<F>>,
    io::Error,
>;

/// Why a read failed, or why the file could not be opened.
fn failure_of<S, F>(input: &HostUsed<S, F>) -> Option<&io::Error> {
    match input {
        Used::Standard(source) => source.reader().failure(),
        Used::File(source) => source.reader().failure(),
        Used::Unopened(error) => Some(error),
        Used::Nothing => None,
    }
}

/// What the input gave; nothing where it was not opened, or where memory for it was refused.
fn bytes_of<S, F>(input: &HostUsed<S, F>) -> Option<&[u8]> {
    match input {
        Used::Standard(source) => source.reader().bytes(),
        Used::File(source) => source.reader().bytes(),
        Used::Unopened(_) => None,
        Used::Nothing => Some(&[]),
    }
}

/// Says what went wrong.
pub fn complain(rt: &impl Eprint, fault: impl Display + Drop) {
    let _ = eprintln!(rt; "sel4sim: {fault}");
}

/// Says of what name a read failed, and why; with no error the input is too long.
fn explain_reading(rt: &impl Eprint, name: &str, failure: Option<&io::Error>) {
    match failure {
        Some(error) => complain(rt, format_args!("{name}: {error}")),
        None => complain(
            rt,
            format_args!("{name}: {INPUT_LIMIT} bytes or more; a set-up has to be shorter"),
        ),
    }
}

/// Says why a write to standard output failed; with no error it took no byte.
fn explain_writing(rt: &impl Eprint, failure: Option<&io::Error>) {
    match failure {
        Some(error) => complain(rt, format_args!("standard output: {error}")),
        None => complain(rt, "standard output: a write took no byte"),
    }
}

/// The place that a line names, where it is the first of the lines that show a part of a text.
fn place_in(line: &str) -> Option<&str> {
    if line.starts_with(' ') {
        line.trim_start().strip_prefix("--> ")
    } else {
        None
    }
}

/// Says a message that has no place, where there is one; of one of several files behind its name.
fn note_without_place(rt: &impl Eprint, name: Option<&str>, words: Option<&str>) {
    match (name, words) {
        (Some(name), Some(words)) => complain(rt, format_args!("{name}: {words}")),
        (None, Some(words)) => complain(rt, words),
        (_, None) => {}
    }
}

/// Says the messages of a text: a line of words each, and behind it, where it has a place, lines that begin with a space and show
/// it, of which the first is the place. That stands before the words, as compilers have it, with what kind of message it is. Of one of
/// several files its name stands before a message that has no place.
fn note(rt: &impl Eprint, kind: &str, name: Option<&str>, text: &str) {
    let mut words = None;
    for line in text.lines() {
        if let Some(place) = place_in(line) {
            let said = words.unwrap_or("");
            let _ = eprintln!(rt; "{place}: {kind}: {said}");
            words = None;
        } else if line.starts_with(' ') {
            let _ = eprintln!(rt; "{line}");
        } else {
            note_without_place(rt, name, words);
            words = Some(line);
        }
    }
    note_without_place(rt, name, words);
}

/// What kind of message is said of an input that is refused, and of one that is not.
const ERROR: &str = "error";

const WARNING: &str = "warning";

/// The words that clap's texts have for an option that is none, and that help nobody: it takes no such word as a value.
const USELESS_TIP: &str = "  tip: to pass '";

/// Says what clap says of words that are not taken, without that tip and the empty line behind it.
fn note_on_words(rt: &impl Eprint, text: &str) {
    let mut is_left_out = false;
    for line in text.lines() {
        is_left_out = line.starts_with(USELESS_TIP) || is_left_out && line.is_empty();
        if !is_left_out {
            let _ = eprintln!(rt; "{line}");
        }
    }
}

/// Says that one file is read in a run, where more words than one stand behind a command that reads one, and none is an option.
fn note_on_files(rt: &impl Eprint, words: &[&str]) {
    if words.len() <= 3 {
        return;
    }
    for word in words {
        if word.starts_with("-") || *word == "help" {
            return;
        }
    }
    complain(
        rt,
        "one file is read in a run; check and marks take several",
    );
}

/// Says that a word is no command, in these words, and which command looks like it.
fn note_on_command<R: Eprint + AllocGlobal>(rt: &R, word: &str, is_none: &str) {
    match near_command(rt.alloc(), word) {
        Ok(Some(command)) => complain(
            rt,
            format_args!("{word} {is_none}; did you mean {command}?"),
        ),
        Ok(None) => complain(
            rt,
            format_args!("{word} {is_none}; sel4sim --help names them"),
        ),
        Err(_) => {}
    }
}

/// Says of words that are not taken where the first of them, which was taken for a file's name, is no command.
fn note_on_first_word<R: Eprint + AllocGlobal>(rt: &R, words: &[&str]) {
    match words.get(1) {
        Some(word) if may_be_command(words, *word) && !is_command(*word) => {
            note_on_command(rt, *word, "is no command");
        }
        _ => {}
    }
}

/// What an input is called: the file's name, or standard input.
fn name_of(file: Option<&str>) -> &str {
    match file {
        Some("") => "''",
        Some(name) if name != "-" => name,
        _ => "standard input",
    }
}

/// What is said of a set-up that was made and is not read as what was asked for.
const REFUSED_TEXT: &str =
    "the text that was made is not read as the set-up that is asked for, so it is not written";

/// By which formats a job reads a set-up.
fn formats_of(job: Job) -> Formats {
    match job {
        Job::Migrate => Formats::First,
        _ => Formats::All,
    }
}

/// Says what the options name and the set-up does not have.
fn note_on_absence<R: Eprint + AllocGlobal>(rt: &R, line: &Line<'_>, found: &Found) {
    if let Some(text) = &found.notes.absent {
        note(rt, ERROR, None, text.as_str());
        return;
    }
    if let Ok(Some(text)) = absence(rt.alloc(), line) {
        note(rt, ERROR, None, text.as_str());
    }
}

/// What is said of a layout of which a set-up was made that does not come to it.
const NOT_LAID_OUT: &str =
    "the set-up that was made does not come to the layout, so it is not written";

/// Says what a text that is refused looks like, if it is of another kind than the one that the command reads; of one of several files
/// behind its name.
fn note_on_kind(rt: &impl Eprint, name: Option<&str>, bytes: &[u8], reads_layouts: bool) {
    let Ok(text) = str::from_utf8(bytes) else {
        return;
    };
    if let Some((kind, command)) = other_kind(text, reads_layouts) {
        let (name, colon) = match name {
            Some(name) => (name, ": "),
            None => ("", ""),
        };
        complain(
            rt,
            format_args!("{name}{colon}this looks like {kind}, which sel4sim {command} reads"),
        );
    }
}

/// Says what is wrong with a layout, or what is left out of it.
fn note_on_layout<R: Eprint + AllocGlobal>(
    rt: &R,
    line: &Line<'_>,
    verdict: Verdict,
    bytes: &[u8],
) {
    let (options, name) = (line.options, name_of(line.file));
    let Options {
        shrink,
        flows,
        plain,
        strict,
        ..
    } = options;
    let reading = Reading {
        shrink,
        flows,
        plain,
        all_rights: !options.takes_least(),
        are_rights_asked: options.rights.is_some(),
        strict,
    };
    if let Ok(words) = layout_words(rt.alloc(), bytes, reading, name) {
        let is_refused = matches!(verdict, Verdict::Refused);
        let kind = if is_refused { ERROR } else { WARNING };
        note(rt, kind, None, words.as_str());
    }
    match verdict {
        Verdict::Refused => note_on_kind(rt, None, bytes, true),
        Verdict::Absent => complain(rt, NOT_LAID_OUT),
        Verdict::AllMet | Verdict::NotMet => {}
    }
}

/// Says why a set-up is refused, also one that was made, or what the options name and it does not have.
fn note_on_verdict<R: Eprint + AllocGlobal>(rt: &R, line: &Line<'_>, found: &Found, bytes: &[u8]) {
    match (line.job, found.verdict) {
        (Job::New, Verdict::Refused) => complain(rt, REFUSED_TEXT),
        (Job::Import, verdict) => note_on_layout(rt, line, verdict, bytes),
        (_, Verdict::Refused) => {
            let (formats, name) = (formats_of(line.job), name_of(line.file));
            if let Ok(words) = refusal_words(rt.alloc(), bytes, formats, name) {
                note(rt, ERROR, None, words.as_str());
            }
            note_on_kind(rt, None, bytes, false);
        }
        (_, Verdict::Absent) => note_on_absence(rt, line, found),
        _ => {}
    }
}

/// Says what a command noted of the policy of that name, and of calls of the set-up that it is for.
fn note_on_policy<'a, R: Eprint + AllocGlobal>(
    rt: &R,
    policy: &str,
    file: Option<&'a str>,
    notes: &[PolicyNote],
    bytes: &'a [u8],
) {
    let (name, text) = (name_of(file), str::from_utf8(bytes).unwrap_or(""));
    for note in notes {
        match note {
            PolicyNote::Place { line, column, text } => {
                let _ = eprintln!(rt; "{policy}:{line}:{column}: {text}");
            }
            PolicyNote::Call(note) => note_on_broken(rt, NamedText { name, text }, note),
            PolicyNote::More(more) => complain(rt, format_args!("{more} more")),
        }
    }
}

/// Says of the calls of a set-up what a command noted of them. `name` is what the input is called, and `file` is its name, with
/// a space before it, where it has one.
fn note_on_calls<R: Eprint + AllocGlobal>(
    rt: &R,
    name: &str,
    file: &str,
    notes: &Notes,
    is_one_order: bool,
    bytes: &[u8],
) {
    let text = str::from_utf8(bytes).unwrap_or("");
    let source = NamedText { name, text };
    note_on_unmet(rt, source, notes.unmet.as_slice(), is_one_order);
    note_on_refusals(rt, source, file, notes.refused.as_slice());
    note_on_questions(rt, name, file, notes.asking.as_slice());
}

/// Says the same of the input of a command. Its name stands behind `sel4sim why` where it has one, as a shell takes it.
fn note_on_input<R: Eprint + AllocGlobal>(
    rt: &R,
    file: Option<&str>,
    notes: &Notes,
    is_one_order: bool,
    bytes: &[u8],
) {
    let name = name_of(file);
    match file {
        None => note_on_calls(rt, name, "", notes, is_one_order, bytes),
        Some(word) => {
            if let Ok(quoted) = shell_word(rt.alloc(), word)
                && let Ok(word) = format!(in rt.alloc(); " {quoted}")
            {
                note_on_calls(rt, name, word.as_str(), notes, is_one_order, bytes);
            }
        }
    }
}

/// Says of the file of that name, one of several, why its set-up is refused.
fn note_on_file<R: Eprint + AllocGlobal>(rt: &R, name: &str, verdict: Verdict, bytes: &[u8]) {
    if let Verdict::Refused = verdict {
        if let Ok(words) = refusal_words(rt.alloc(), bytes, Formats::All, name) {
            note(rt, ERROR, Some(name), words.as_str());
        }
        note_on_kind(rt, Some(name), bytes, false);
    }
}

/// Says of the file of that name, one of several, what is said of a file that is checked alone: why it cannot be read, why its
/// set-up is refused, whose expectations are not met, and which calls were refused where nothing was expected.
pub fn tell_of_file<R: Eprint + AllocGlobal, S, F>(
    rt: &R,
    name: &str,
    input: &HostUsed<S, F>,
    found: Option<&CountedText>,
) {
    let said = name_of(Some(name));
    match found {
        Some(made) => {
            if let Some(bytes) = bytes_of(input) {
                note_on_file(rt, said, made.verdict(), bytes);
                note_on_input(rt, Some(name), &made.notes, true, bytes);
            }
        }
        None => {
            complain(rt, RunFault::Reading);
            explain_reading(rt, said, failure_of(input));
        }
    }
}

/// Says what there is to say of a line that was done.
fn tell_of_line<R: Eprint + AllocGlobal, S, F>(
    rt: &R,
    done: &HostDone<'_, S, F>,
    failure: Option<&io::Error>,
) {
    match &done.answer {
        Ok(found) => {
            if let Some(bytes) = bytes_of(&done.input) {
                note_on_verdict(rt, &done.line, found, bytes);
                let is_one_order = !matches!(done.line.job, Job::Explore);
                note_on_input(rt, done.line.file, &found.notes, is_one_order, bytes);
                let (file, notes) = (done.line.file, found.notes.policy.as_slice());
                if let Some(policy) = done.line.options.policy {
                    note_on_policy(rt, policy, file, notes, bytes);
                }
            }
        }
        Err(RunFault::Reading) => {
            let name = name_of(done.line.file);
            explain_reading(rt, name, failure_of(&done.input));
        }
        Err(RunFault::Writing) => explain_writing(rt, failure),
        Err(RunFault::Memory | RunFault::Thread) => {}
    }
}

/// Says why a policy or an exercise could not be read.
fn tell_of_policy<S, F>(
    rt: &impl Eprint,
    unread: &Unread<'_, ReaderSource<KeptReader<S>>, ReaderSource<KeptReader<F>>, io::Error>,
) {
    if let RunFault::Reading = unread.fault {
        explain_reading(rt, unread.name, failure_of(&unread.input));
    }
}

/// Says of a word that is no command why it is no file either, and which command looks like it.
fn tell_of_word<R: Eprint + AllocGlobal>(rt: &R, words: &[&str], unknown: &Unknown<'_, io::Error>) {
    let name = name_of(Some(unknown.word));
    explain_reading(rt, name, Some(&unknown.fault));
    if may_be_command(words, unknown.word) {
        note_on_command(rt, name, "is no command either");
    }
}

/// Says what there is to say of an end: first the fault, if there is one, and then what helps to understand it; of words
/// that are not taken, what clap says. `failure` is why a write to standard output failed, where one did.
pub fn tell<R: Eprint + AllocGlobal, S, F>(
    rt: &R,
    words: &[&str],
    ended: &HostEnded<'_, S, F>,
    failure: Option<&io::Error>,
) {
    if let Some(text) = ended.fault_text() {
        complain(rt, text);
    }
    match ended {
        Ended::Did(done) => tell_of_line(rt, done, failure),
        Ended::Checked(
            CheckedFiles {
                answer: Err(RunFault::Writing),
                ..
            },
        ) => {
            explain_writing(rt, failure);
        }
        Ended::Checked(_) => {}
        Ended::Helped(Err(_)) => explain_writing(rt, failure),
        Ended::Refused => {
            if let Some(text) = refused_line_words(rt.alloc(), words) {
                note_on_words(rt, text.as_str());
                note_on_first_word(rt, words);
                note_on_files(rt, words);
            }
        }
        Ended::Conflict(text) => complain(rt, *text),
        Ended::Unknown(unknown) => tell_of_word(rt, words, unknown),
        Ended::NoPolicy(unread) => tell_of_policy(rt, unread),
        Ended::Helped(Ok(())) | Ended::NoMemory => {}
    }
}
