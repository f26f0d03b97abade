//! Devices that give bytes.
ghost use Rattle.std.specs.Prelude.{◌≡◌, ◌+◌, ◌<◌, ◌≤◌, ℕ, List, Bool, true, false, Option, length, take, IfOk, OnOk, OnErr};
ghost use Rattle.std.specs.Io.KnownBytes.{Consumes, IsAtEnd};
ghost use Rattle.command_core.specs.Devices.{Counted};

use crate::device::DeviceFault;
use std::io::Read;
use std::marker::Model;

/// A device that gives bytes.
pub trait Source {
    /// The bytes that it has still to give, if the device shows them.
    ghost left: { Self → Option (List ℕ) };

    /// How many bytes it has given.
    ghost given: { Self → ℕ };

    /// A read has failed. Nothing but a failed read sets this mark.
    ghost failed: { Self → Bool };

    /// Reads some bytes into the front of the buffer, and answers how many. No byte into a buffer with room is the end.
    fn read(&mut self, buffer: &mut [u8]) -> Result<usize, DeviceFault>
        ensures count { IfOk result (λ n. n ≤ length buffer.old) }
        ensures bytes { IfOk result (λ n. Consumes (left self.old) (left self.new) (take n buffer.new)) }
        ensures end { IfOk result (λ n. n ≡ 0 → 0 < length buffer.old → IsAtEnd (left self.new)) }
        ensures given { IfOk result (λ n. given self.new ≡ given self.old + n) }
        ensures ok { OnOk result (failed self.new ≡ failed self.old) }
        ensures err { OnErr result (failed self.new ≡ true) };
}

/// A reader of std as a source: it shows the bytes that the reader shows.
#[derive(Drop)]
pub struct ReaderSource<R> {
    reader: R,
    given: u64,
    failed: bool,
}

impl<R> Model for ReaderSource<R> {
    ghost Value = { Counted R };

    ghost view = { λ s. record { device = s.reader; count = s.given; failed = s.failed } };
}

impl<R> ReaderSource<R> {
    /// The reader, of which nothing was read yet.
    pub fn new(reader: R) -> ReaderSource<R>
        ensures reader { result.device ≡ reader }
        ensures given { result.count ≡ 0 }
        ensures failed { result.failed ≡ false }
    {
        ReaderSource {
            reader,
            given: 0,
            failed: false,
        }
    }

    /// The reader.
    pub fn reader(&self) -> &R
        ensures { result.now ≡ self.now.device }
    {
        &self.reader
    }
}

impl<R: Read> Source for ReaderSource<R> {
    ghost left = { λ s. R.remaining s.device };

    ghost given = { λ s. s.count };

    ghost failed = { λ s. s.failed };

    /// A reader that has given 2^64 bytes fails: they are no longer counted.
    fn read(&mut self, buffer: &mut [u8]) -> Result<usize, DeviceFault> {
        if let Ok(n) = self.reader.read(buffer)
            && let Some(given) = self.given.checked_add(n as u64)
        {
            self.given = given;
            return Ok(n);
        }
        self.failed = true;
        Err(DeviceFault)
    }
}
