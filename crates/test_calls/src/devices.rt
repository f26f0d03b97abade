//! Reads to the end of a source and writes of a text, over readers and writers of std that fail.
ghost use Rattle.std.specs.Prelude.{◌≡◌, false};

use command_check::{ReaderSource, RunFault, Sink, Source, WriterSink, read_below, write_all};
use std::alloc::Global;
use std::io::{self, ErrorKind, Read, Write};

const TEXT: &[u8] = b"format = 1\nmemory_bits = 16\nroot_radix = 4\nthreads = 2\n";

/// Gives a text in pieces, and fails at one read.
#[derive(Drop)]
struct PieceReader<'a> {
    rest: &'a [u8],
    piece: usize,
    reads_left: usize,
}

impl Read for PieceReader<'_> {
    fn read(&mut self, buffer: &mut [u8]) -> io::Result<usize> {
        if self.reads_left == 0 {
            return Err(io::Error::from(ErrorKind::Other));
        }
        self.reads_left -= 1;
        let n = self.piece.min(self.rest.len()).min(buffer.len());
        let (front, rest) = self.rest.split_at(n);
        buffer[..n].copy_from_slice(front);
        self.rest = rest;
        Ok(n)
    }
}

/// Fills each buffer, and never ends.
#[derive(Drop)]
struct EndlessReader;

impl Read for EndlessReader {
    fn read(&mut self, buffer: &mut [u8]) -> io::Result<usize> {
        buffer.fill(b'#');
        Ok(buffer.len())
    }
}

/// Takes at most `piece` bytes at a time, and none once it took `room`: then it fails, or answers 0 if it is `shy`. What it
/// takes is compared with the front of a text.
#[derive(Drop)]
struct PieceWriter<'a> {
    rest: &'a [u8],
    is_front: bool,
    piece: usize,
    room: usize,
    shy: bool,
}

impl Write for PieceWriter<'_> {
    fn write(&mut self, bytes: &[u8]) -> io::Result<usize> {
        let n = self.piece.min(self.room).min(bytes.len());
        if n == 0 && !self.shy {
            return Err(io::Error::from(ErrorKind::Other));
        }
        match self.rest.strip_prefix(&bytes[..n]) {
            Some(rest) => self.rest = rest,
            None => self.is_front = false,
        }
        self.room -= n;
        Ok(n)
    }

    fn flush(&mut self) -> io::Result<()> {
        Ok(())
    }
}

/// How the text, which has 55 bytes, is read: in pieces of so many bytes, if so many reads succeed, and below which limit;
/// whether it is read, and how many of its bytes the reader has left.
type Reading = (usize, usize, usize, bool, usize);

/// Each read fails in turn, and then none does. A text may be a byte shorter than the limit; of one that is as long no more than
/// that is asked for.
const READINGS: [Reading; 8] = [
    (16, 0, 4096, false, 55),
    (16, 1, 4096, false, 39),
    (16, 2, 4096, false, 23),
    (16, 3, 4096, false, 7),
    (16, 4, 4096, false, 0),
    (16, 5, 4096, true, 0),
    (16, 9, 56, true, 0),
    (4096, 9, 54, false, 1),
];

/// What is read below a limit, nothing if reading failed; `None` if it was out of memory.
fn read_of<S: Source>(alloc: Global, source: &mut S, limit: usize) -> Option<Option<Vec<u8>>>
    requires { S.failed source.old ≡ false }
{
    match read_below(alloc, source, limit) {
        Ok(bytes) => Some(Some(bytes)),
        Err(RunFault::Memory) => None,
        Err(_) => Some(None),
    }
}

/// Whether the text is read so; `None` if it was out of memory.
fn is_read(alloc: Global, (piece, reads_left, limit, is_read, left): Reading) -> Option<bool> {
    let mut text = PieceReader {
        rest: TEXT,
        piece,
        reads_left,
    };
    let bytes = read_of(alloc, &mut ReaderSource::new(&mut text), limit)?;
    let is_wanted = match bytes {
        Some(bytes) => is_read && bytes.as_slice() == TEXT,
        None => !is_read,
    };
    Some(is_wanted && text.rest.len() == left)
}

/// Whether one read into 8 bytes gives as many, and the next one fails.
fn counts_what_it_gives() -> bool {
    let mut source = ReaderSource::new(PieceReader {
        rest: TEXT,
        piece: 16,
        reads_left: 1,
    });
    let mut buffer = [0u8; 8];
    source.read(&mut buffer).ok() == Some(8) && source.read(&mut buffer).is_err()
}

/// Whether each reading ends as it should, also that of a source without an end; `None` if it was out of memory.
pub fn reads(alloc: Global) -> Option<bool> {
    for reading in READINGS {
        if !is_read(alloc, reading)? {
            return Some(false);
        }
    }
    let endless = read_of(alloc, &mut ReaderSource::new(EndlessReader), 10_000)?;
    Some(endless.is_none() && counts_what_it_gives())
}

/// Whether the text is written whole to a writer with this room, or a front of it, as long as the room, before writing fails.
fn is_written(room: usize, shy: bool) -> bool {
    let mut out = PieceWriter {
        rest: TEXT,
        is_front: true,
        piece: 1,
        room,
        shy,
    };
    let ended = write_all(&mut WriterSink::new(&mut out), TEXT);
    let is_wanted = match ended {
        Ok(()) => out.rest.is_empty(),
        Err(RunFault::Writing) => out.room == 0 && !out.rest.is_empty(),
        Err(_) => false,
    };
    is_wanted && out.is_front && ended.is_ok() == (room >= TEXT.len())
}

/// Whether a shy writer with room for 4 bytes takes 3 of 4, then 1, and then fails.
fn counts_what_it_takes() -> bool {
    let mut sink = WriterSink::new(PieceWriter {
        rest: b"text",
        is_front: true,
        piece: 3,
        room: 4,
        shy: true,
    });
    sink.write(b"text").ok() == Some(3)
        && sink.write(b"text").ok() == Some(1)
        && sink.write(b"text").is_err()
}

/// Whether writing fails at each byte in turn, and not if there is room for all.
pub fn writes() -> bool {
    for room in 0..TEXT.len() {
        if !is_written(room, false) || !is_written(room, true) {
            return false;
        }
    }
    is_written(4096, false) && counts_what_it_takes()
}
