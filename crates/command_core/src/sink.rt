//! Devices that take bytes.
ghost use Rattle.std.specs.Prelude.{◌≡◌, ◌+◌, ◌<◌, ◌≤◌, ℕ, List, Bool, true, false, Option, length, take, IfOk, OnOk, OnErr};
ghost use Rattle.std.specs.Io.KnownBytes.{Appends, Keeps};
ghost use Rattle.command_core.specs.Devices.{Counted};

use crate::device::DeviceFault;
use std::io::Write;
use std::marker::Model;

/// A device that takes bytes.
pub trait Sink {
    /// The bytes that it has taken, if the device shows them.
    ghost taken: { Self → Option (List ℕ) };

    /// How many bytes it has taken.
    ghost written: { Self → ℕ };

    /// A write has failed, or has taken no byte. Nothing else sets this mark.
    ghost failed: { Self → Bool };

    /// Writes a front of the bytes, and answers how many bytes that is.
    fn write(&mut self, bytes: &[u8]) -> Result<usize, DeviceFault>
        requires { 0 < length bytes.now }
        ensures count { IfOk result (λ n. (0 < n) × (n ≤ length bytes.now)) }
        ensures bytes { IfOk result (λ n. Appends (taken self.old) (taken self.new) (take n bytes.now)) }
        ensures kept { OnErr result (Keeps (taken self.old) (taken self.new)) }
        ensures written { IfOk result (λ n. written self.new ≡ written self.old + n) }
        ensures none_written { OnErr result (written self.new ≡ written self.old) }
        ensures ok { OnOk result (failed self.new ≡ failed self.old) }
        ensures err { OnErr result (failed self.new ≡ true) };
}

/// A writer of std as a sink: it shows the bytes that the writer shows.
#[derive(Drop)]
pub struct WriterSink<W> {
    writer: W,
    written: u64,
    failed: bool,
}

impl<W> Model for WriterSink<W> {
    ghost Value = { Counted W };

    ghost view = { λ s. record { device = s.writer; count = s.written; failed = s.failed } };
}

impl<W> WriterSink<W> {
    /// The writer, to which nothing was written yet.
    pub fn new(writer: W) -> WriterSink<W>
        ensures writer { result.device ≡ writer }
        ensures written { result.count ≡ 0 }
        ensures failed { result.failed ≡ false }
    {
        WriterSink {
            writer,
            written: 0,
            failed: false,
        }
    }

    /// The writer.
    pub fn writer(&self) -> &W
        ensures { result.now ≡ self.now.device }
    {
        &self.writer
    }
}

impl<W: Write> Sink for WriterSink<W> {
    ghost taken = { λ s. W.contents s.device };

    ghost written = { λ s. s.count };

    ghost failed = { λ s. s.failed };

    /// A writer that has taken 2^64 bytes fails: they are no longer counted. So does a write that could come so far.
    fn write(&mut self, bytes: &[u8]) -> Result<usize, DeviceFault> {
        if self.written.checked_add(bytes.len() as u64).is_some()
            && let Ok(n) = self.writer.write(bytes)
            && n > 0
        {
            self.written += n as u64;
            return Ok(n);
        }
        self.failed = true;
        Err(DeviceFault)
    }
}
