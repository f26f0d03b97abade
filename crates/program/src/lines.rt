//! A command line, from its words to its end.
ghost use Rattle.std.specs.Prelude.{◌≡◌, ◌==◌, ◌||◌, false, Some, None, option_map, IfOk, IfErr, IfSome};
ghost use Rattle.std.specs.List.{list_any};
ghost use Rattle.clap.specs.Walk.{texts};
ghost use Rattle.command_core.specs.Runs.{verdict_of};
ghost use Rattle.command_files.specs.Files.{IsInput};
ghost use Rattle.program.specs.Ends.{AreDone, AreMarked, is_marks as is_marks_definition, IsDone, IsEnd, IsFirstOpened, IsOpened, IsSecond, IsUnreadBy, IsWriting, looks_like_command as looks_like_command_definition, named_input};
ghost use Rattle.program.specs.NewWords.{IsNewOf};
ghost use Rattle.program.specs.Private.{IsEndOfLine};

use crate::jobs::{run_job, run_work};
use command_core::{INPUT_LIMIT, ReaderSource, RunFault, Sink, read_below, write_all};
use command_files::{Inputs, Listener, Tally, Used, check_files};
use command_line::{Job, Line, LineFault, line};
use command_marks::{mark_answers, mark_files};
use program_messages::{CheckedFiles, Done, Ended, Unknown, Unread};
use std::alloc::Global;
use std::sync::Wait;
use std::thread::Threads;

/// Does the job of a line with standard input.
fn run_standard<'a, R: Threads + Wait + Sync, I: Inputs, K: Sink>(
    rt: &R,
    alloc: Global,
    inputs: &I,
    line: Line<'a>,
    policy: &[u8],
    sink: &mut K,
) -> Done<'a, I::Standard, I::File, I::Fault>
    requires sink { K.failed sink.old ≡ false }
    ensures line { result.line ≡ line.entry }
    ensures done { IsDone (I.is_standard inputs.now) (I.is_file inputs.now) (I.is_fault inputs.now)
        I.Standard.Source I.File.Source K.Sink line.entry.job line.entry.options policy.now None result.input result.answer sink.old sink.new }
{
    let mut source = inputs.standard();
    let answer = run_job(
        rt,
        alloc,
        line.job,
        line.options,
        policy,
        None,
        &mut source,
        sink,
    );
    Done {
        line,
        input: Used::Standard(source),
        answer,
    }
}

/// Does the job of a line with a file that was opened.
fn run_file<'a, R: Threads + Wait + Sync, I: Inputs, K: Sink>(
    rt: &R,
    alloc: Global,
    inputs: &I,
    line: Line<'a>,
    policy: &[u8],
    name: &str,
    file: I::File,
    sink: &mut K,
) -> Done<'a, I::Standard, I::File, I::Fault>
    requires file { I.is_file inputs.now name.now file }
    requires source { I.File.failed file ≡ false }
    requires sink { K.failed sink.old ≡ false }
    ensures line { result.line ≡ line.entry }
    ensures opened { IsOpened result.input line.entry.names_command }
    ensures done { IsDone (I.is_standard inputs.now) (I.is_file inputs.now) (I.is_fault inputs.now)
        I.Standard.Source I.File.Source K.Sink line.entry.job line.entry.options policy.now (Some name.now) result.input result.answer sink.old sink.new }
{
    let mut source = file;
    let answer = run_job(
        rt,
        alloc,
        line.job,
        line.options,
        policy,
        Some(name),
        &mut source,
        sink,
    );
    Done {
        line,
        input: Used::File(source),
        answer,
    }
}

/// Makes a new set-up, for which nothing is read.
fn run_new<'a, S, F, E, K: Sink>(alloc: Global, line: Line<'a>, sink: &mut K) -> Done<'a, S, F, E>
    requires sink { K.failed sink.old ≡ false }
    ensures line { result.line ≡ line.entry }
    ensures input { result.input ≡ Used.Nothing }
    ensures written { IsWriting (IsNewOf line.entry.options) K.Sink sink.old sink.new (verdict_of result.answer) }
{
    let nothing: &[u8] = &[];
    let mut source = ReaderSource::new(nothing);
    let answer = run_work(
        alloc,
        Job::New,
        line.options,
        nothing,
        None,
        &mut source,
        sink,
    );
    Done {
        line,
        input: Used::Nothing,
        answer,
    }
}

/// Does what a line asks for that reads one input at the most. A file that cannot be opened is a failed read if a command is named,
/// and else its name is an unknown word.
fn run_line<'a, R: Threads + Wait + Sync, I: Inputs, K: Sink>(
    rt: &R,
    alloc: Global,
    inputs: &I,
    line: Line<'a>,
    policy: &[u8],
    sink: &mut K,
) -> Ended<'a, I::Standard, I::File, I::Fault>
    requires sink { K.failed sink.old ≡ false }
    ensures { IsEndOfLine (I.is_standard inputs.now) (I.is_file inputs.now) (I.is_fault inputs.now)
        I.Standard.Source I.File.Source K.Sink
        line.entry policy.now (named_input (option_map (λ s. s.now) line.entry.file)) result sink.old sink.new }
{
    match line.job {
        Job::New => Ended::Did(run_new(alloc, line, sink)),
        _ => match line.file {
            Some(name) if name != "-" => match inputs.open(name) {
                Ok(file) => Ended::Did(run_file(rt, alloc, inputs, line, policy, name, file, sink)),
                Err(fault) if line.names_command => Ended::Did(Done {
                    line,
                    input: Used::Unopened(fault),
                    answer: Err(RunFault::Reading),
                }),
                Err(fault) => Ended::Unknown(Unknown { word: name, fault }),
            },
            _ => Ended::Did(run_standard(rt, alloc, inputs, line, policy, sink)),
        },
    }
}

/// Whether a word has a dot or a slash.
fn has_dot_or_slash(word: &str) -> bool
    ensures { result ≡ list_any (λ byte. byte == 46 || byte == 47) word.now }
{
    word.as_bytes()
        .iter()
        .any(|byte| *byte == b'.' || *byte == b'/')
}

/// Whether a word looks like no file's name: it has no dot and no slash, and is no hyphen.
fn looks_like_command(word: &str) -> bool
    ensures { result ≡ looks_like_command_definition word.now }
{
    word != "-" && !has_dot_or_slash(word)
}

/// The first of several files, if no command is named, and it looks like no file's name and cannot be opened.
fn unknown_first<'a, I: Inputs>(inputs: &I, line: &Line<'a>) -> Option<Unknown<'a, I::Fault>>
    ensures unknown { IfSome result (λ unknown. (line.now.names_command ≡ false)
        × (named_input (option_map (λ s. s.now) line.now.file) ≡ Some unknown.word.now) × I.is_fault inputs.now unknown.word.now unknown.fault) }
    ensures opened { result ≡ None → IsFirstOpened (I.is_file inputs.now) line.now.names_command (option_map (λ s. s.now) line.now.file) }
{
    match line.file {
        Some(word) if !line.names_command && looks_like_command(word) => {
            match inputs.open(word) {
                Ok(_) => None,
                Err(fault) => Some(Unknown { word, fault }),
            }
        }
        _ => None,
    }
}

/// The bytes of the policy or of the exercise that a line names; none if it names none. A file that cannot be opened is a
/// failed read.
fn read_second<'a, I: Inputs>(
    alloc: Global,
    inputs: &I,
    name: Option<&'a str>,
) -> Result<Vec<u8>, Unread<'a, I::Standard, I::File, I::Fault>>
    ensures read { IfOk result (λ bytes. IsSecond (I.is_file inputs.now) (I.is_fault inputs.now) I.File.Source (option_map (λ s. s.now) name.entry) bytes.items) }
    ensures unread { IfErr result (λ unread. (option_map (λ s. s.now) name.entry ≡ Some unread.name.now)
        × IsUnreadBy (I.is_file inputs.now) (I.is_fault inputs.now) I.File.Source unread.name.now unread.input unread.fault) }
{
    let Some(name) = name else {
        return Ok(Vec::new(alloc));
    };
    match inputs.open(name) {
        Ok(file) => {
            let mut source = file;
            match read_below(alloc, &mut source, INPUT_LIMIT) {
                Ok(bytes) => Ok(bytes),
                Err(fault) => Err(Unread {
                    name,
                    input: Used::File(source),
                    fault,
                }),
            }
        }
        Err(fault) => Err(Unread {
            name,
            input: Used::Unopened(fault),
            fault: RunFault::Reading,
        }),
    }
}

/// Whether files are to be marked.
fn is_marks(job: Job) -> bool
    ensures { result ≡ is_marks_definition job }
{
    matches!(job, Job::Marks)
}

/// Marks the files of a line, by the exercise with these bytes if it names one.
fn mark<I: Inputs, L: Listener<I::Standard, I::File, I::Fault>, K: Sink>(
    alloc: Global,
    inputs: &I,
    listener: &L,
    line: &Line<'_>,
    exercise: &[u8],
    sink: &mut K,
) -> Result<Tally, RunFault>
    requires sink { K.failed sink.old ≡ false }
    ensures done { AreMarked (option_map (λ s. s.now) line.now.options.of) exercise.now
        (IsInput (I.is_standard inputs.now) (I.is_file inputs.now) (I.is_fault inputs.now) I.Standard.Source I.File.Source)
        K.Sink (texts line.now.several.items) sink.old sink.new result }
{
    let names = line.several.as_slice();
    match line.options.of {
        None => mark_files(alloc, inputs, listener, names, sink),
        Some(_) => mark_answers(alloc, inputs, listener, exercise, names, sink),
    }
}

/// Checks or marks the files of a line that lists them.
fn run_files<'a, I: Inputs, L: Listener<I::Standard, I::File, I::Fault>, K: Sink>(
    alloc: Global,
    inputs: &I,
    listener: &L,
    line: Line<'a>,
    exercise: &[u8],
    sink: &mut K,
) -> CheckedFiles<'a>
    requires sink { K.failed sink.old ≡ false }
    ensures line { result.line ≡ line.entry }
    ensures done { AreDone line.entry.job line.entry.options exercise.now (IsInput (I.is_standard inputs.now) (I.is_file inputs.now) (I.is_fault inputs.now) I.Standard.Source I.File.Source)
        K.Sink (texts line.entry.several.items) sink.old sink.new result.answer }
{
    let answer = if is_marks(line.job) {
        mark(alloc, inputs, listener, &line, exercise, sink)
    } else {
        let strict = line.options.strict;
        check_files(
            alloc,
            inputs,
            listener,
            strict,
            line.several.as_slice(),
            sink,
        )
    };
    CheckedFiles { line, answer }
}

/// Does what the words of a command line ask for, of which the first is the program's name: the job, with the file that
/// they name or with standard input, the check or the marks of files that are listed, of each of which the listener hears, or the help
/// text.
/// Nothing is written if they are not taken, and if a word is neither a command nor a file that can be opened.
pub fn run_words<
    'a,
    R: Threads + Wait + Sync,
    I: Inputs,
    L: Listener<I::Standard, I::File, I::Fault>,
    K: Sink,
>(
    rt: &R,
    alloc: Global,
    inputs: &I,
    listener: &L,
    words: &'a [&'a str],
    sink: &mut K,
) -> Ended<'a, I::Standard, I::File, I::Fault>
    requires sink { K.failed sink.old ≡ false }
    ensures { IsEnd (I.is_standard inputs.now) (I.is_file inputs.now) (I.is_fault inputs.now)
        I.Standard.Source I.File.Source K.Sink (texts words.now) result sink.old sink.new }
{
    match line(alloc, words) {
        Ok(line) => {
            if line.several.is_empty() {
                match read_second(alloc, inputs, line.options.policy) {
                    Ok(policy) => run_line(rt, alloc, inputs, line, policy.as_slice(), sink),
                    Err(unread) => Ended::NoPolicy(unread),
                }
            } else if let Some(unknown) = unknown_first(inputs, &line) {
                Ended::Unknown(unknown)
            } else {
                match read_second(alloc, inputs, line.options.of) {
                    Ok(exercise) => {
                        let exercise = exercise.as_slice();
                        Ended::Checked(run_files(alloc, inputs, listener, line, exercise, sink))
                    }
                    Err(unread) => Ended::NoPolicy(unread),
                }
            }
        }
        Err(LineFault::Help(text)) => Ended::Helped(write_all(sink, text.as_bytes())),
        Err(LineFault::Refused) => Ended::Refused,
        Err(LineFault::Conflict(text)) => Ended::Conflict(text),
        Err(LineFault::Memory) => Ended::NoMemory,
    }
}
