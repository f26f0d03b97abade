//! A reader that keeps what it gave, and a writer that keeps why it failed.
use std::alloc::Global;
use std::io::{self, Read, Write};

/// A reader, the bytes that it gave, and why a read of it failed.
#[derive(Drop)]
pub struct KeptReader<T> {
    reader: T,
    bytes: Vec<u8>,
    is_whole: bool,
    failure: Option<io::Error>,
}

impl<T> KeptReader<T> {
    /// The reader, of which nothing was read yet.
    pub fn new(alloc: Global, reader: T) -> KeptReader<T> {
        KeptReader {
            reader,
            bytes: Vec::new(alloc),
            is_whole: true,
            failure: None,
        }
    }

    /// What the reader gave; nothing if memory for it was refused.
    pub fn bytes(&self) -> Option<&[u8]> {
        if self.is_whole {
            Some(self.bytes.as_slice())
        } else {
            None
        }
    }

    /// Why a read failed, if one did.
    pub fn failure(&self) -> Option<&io::Error> {
        self.failure.as_ref()
    }
}

impl<T: Read> Read for KeptReader<T> {
    ghost remaining = { λ k. T.remaining k.reader };

    fn read(&mut self, buffer: &mut [u8]) -> io::Result<usize> {
        match self.reader.read(buffer) {
            Ok(n) => {
                if self.bytes.extend_from_slice(&buffer[..n]).is_err() {
                    self.is_whole = false;
                }
                Ok(n)
            }
            Err(error) => {
                let kind = error.kind();
                self.failure = Some(error);
                Err(io::Error::from(kind))
            }
        }
    }
}

/// A writer, and why a write to it failed.
#[derive(Drop)]
pub struct KeptWriter<T> {
    writer: T,
    failure: Option<io::Error>,
}

impl<T> KeptWriter<T> {
    /// The writer, to which nothing was written yet.
    pub fn new(writer: T) -> KeptWriter<T> {
        KeptWriter {
            writer,
            failure: None,
        }
    }

    /// Why a write failed, if one did.
    pub fn failure(&self) -> Option<&io::Error> {
        self.failure.as_ref()
    }
}

impl<T: Write> Write for KeptWriter<T> {
    ghost contents = { λ k. T.contents k.writer };

    fn write(&mut self, buffer: &[u8]) -> io::Result<usize> {
        match self.writer.write(buffer) {
            Ok(n) => Ok(n),
            Err(error) => {
                let kind = error.kind();
                self.failure = Some(error);
                Err(io::Error::from(kind))
            }
        }
    }

    fn flush(&mut self) -> io::Result<()> {
        self.writer.flush()
    }
}
