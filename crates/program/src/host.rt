//! The program over the process that it runs in: its words, its standard streams and its files.
ghost use Rattle.std.specs.Prelude.{⊤};
ghost use Rattle.std.specs.declared.io.Error.{Error};
ghost use Rattle.clap.specs.Walk.{texts};
ghost use Rattle.program.specs.Host.{IsStatusOf, IsUnread};

use crate::lines::run_words;
use command_check::CountedText;
use command_core::{KeptReader, KeptWriter, ReaderSource, Sink, Source, WriterSink};
use command_files::{Inputs, Listener, Used};
use command_line::LineFault;
use program_messages::{complain, tell, tell_of_file};
use std::env::{self, Env, FillError};
use std::fs::{self, Files};
use std::io::{self, Eprint, ErrorKind, Input, Printer};
use std::sync::Wait;
use std::thread::Threads;

/// The inputs of a process. Nobody can name their bytes: of what was opened is known that nothing was read of it yet.
#[derive(Clone, Copy)]
struct HostInputs<'a, R> {
    rt: &'a R,
}

impl<R: Files + Input + AllocGlobal> Inputs for HostInputs<'_, R> {
    type Standard = ReaderSource<KeptReader<R::Reader>>;

    type File = ReaderSource<KeptReader<R::File>>;

    type Fault = io::Error;

    ghost is_standard = { λ host source. IsUnread source };

    ghost is_file = { λ host name source. IsUnread source };

    ghost is_fault = { λ host name fault. ⊤ };

    fn standard(&self) -> ReaderSource<KeptReader<R::Reader>> {
        ReaderSource::new(KeptReader::new(self.rt.alloc(), self.rt.reader()))
    }

    fn open(&self, name: &str) -> io::Result<ReaderSource<KeptReader<R::File>>> {
        let file = fs::open(self.rt, name)?;
        Ok(ReaderSource::new(KeptReader::new(self.rt.alloc(), file)))
    }
}

/// Standard error, where is said of each of several files what there is to say.
#[derive(Clone, Copy)]
struct HostListener<'a, R> {
    rt: &'a R,
}

impl<R: Eprint + AllocGlobal, S, F> Listener<
    ReaderSource<KeptReader<S>>,
    ReaderSource<KeptReader<F>>,
    io::Error,
> for HostListener<'_, R> {
    fn hear(
        &self,
        name: &str,
        input: &Used<ReaderSource<KeptReader<S>>, ReaderSource<KeptReader<F>>, io::Error>,
        found: Option<&CountedText>,
    ) {
        tell_of_file(self.rt, name, input, found);
    }
}

/// The words that the program was started with, its name first. A word that is no text is refused.
fn words_of<R: Env + AllocGlobal>(rt: &R) -> Result<Vec<String>, LineFault> {
    let words = env::args(rt).map_err(|error| {
        if error.kind() == ErrorKind::OutOfMemory {
            LineFault::Memory
        } else {
            LineFault::Refused
        }
    })?;
    words.collect(rt.alloc()).map_err(|_| LineFault::Memory)
}

/// How many bytes of a word are looked at, if it is no text.
const MOST_BYTES: usize = 4096;

/// Says which of the first words is no text, if one is: its other bytes are written as `\xff`.
fn tell_of_bytes<R: Env + Eprint>(rt: &R) {
    let mut word = [0u8; MOST_BYTES];
    for i in 0..usize::MAX {
        match rt.arg(i, &mut word) {
            Ok(n) if str::from_utf8(&word[..n]).is_err() => {
                let shown = word[..n].escape_ascii();
                complain(
                    rt,
                    format_args!(
                        "a word is not UTF-8: {shown}; name the file otherwise, or give it as standard input"
                    ),
                );
                return;
            }
            Ok(_) | Err(FillError::TooLong) => {}
            Err(FillError::NotPresent) => return,
        }
    }
}

/// Says why there are no words, and answers the exit status.
fn refuse<R: Env + Eprint>(rt: &R, fault: LineFault) -> u8 {
    complain(rt, &fault);
    if let LineFault::Refused = fault {
        tell_of_bytes(rt);
    }
    fault.status()
}

/// Does what the words ask for, says on standard error what there is to say, and answers the exit status.
fn run_texts<R: Files + Input + Print + Eprint + AllocGlobal + Threads + Wait + Sync>(
    rt: &R,
    words: &[&str],
) -> u8
    ensures { IsStatusOf {E = Error} IsUnread (λ name. IsUnread) (λ name fault. ⊤)
        ⟦<ReaderSource<KeptReader<R::Reader>> as Source>⟧ ⟦<ReaderSource<KeptReader<R::File>> as Source>⟧
        ⟦<WriterSink<KeptWriter<Printer<'static, R>>> as Sink>⟧ (texts words.now) result }
{
    let mut sink = WriterSink::new(KeptWriter::new(io::writer(rt)));
    let ended = run_words(
        rt,
        rt.alloc(),
        &HostInputs { rt },
        &HostListener { rt },
        words,
        &mut sink,
    );
    tell(rt, words, &ended, sink.writer().failure());
    ended.status()
}

/// Does what the words of the process ask for, and answers the exit status.
pub fn run<R: Env + Files + Input + Print + Eprint + AllocGlobal + Threads + Wait + Sync>(
    rt: &R,
) -> u8 {
    let words = match words_of(rt) {
        Ok(words) => words,
        Err(fault) => return refuse(rt, fault),
    };
    let texts = words
        .iter()
        .map(|word| word.as_str())
        .collect::<Vec<&str>>(rt.alloc());
    match texts {
        Ok(texts) => run_texts(rt, texts.as_slice()),
        Err(_) => refuse(rt, LineFault::Memory),
    }
}
