//! Devices over std's readers and writers. A call that a signal interrupts is repeated.

ghost use Rattle.std.specs.Prelude.{◌≡◌, false, true};
ghost use Rattle.std.specs.Io.{ReadsAtMost, WritesAtMost};
ghost use Rattle.std.specs.Io.KnownBytes.{ReadConsumes, WriteAppends, Keeps};

use crate::traits::{DeviceFault, Sink, Source};
use std::io;
use std::io::{ErrorKind, Read, Write};

/// The most calls made if a signal interrupts each of them.
const TRIES: u32 = 1_000;

/// Returns whether a signal interrupted the call.
fn is_interrupted(error: &io::Error) -> bool {
    error.kind() == ErrorKind::Interrupted
}

/// Reads, and repeats the read if a signal interrupts it.
fn read_through<R: Read>(reader: &mut R, buffer: &mut [u8]) -> io::Result<usize>
    ensures bound { ReadsAtMost result buffer.new }
    ensures bytes { ReadConsumes (R.remaining reader.old) (R.remaining reader.new) result buffer.new }
{
    for _ in 1..TRIES {
        match reader.read(buffer) {
            Err(error) if is_interrupted(&error) => {}
            ended => return ended,
        }
    }
    reader.read(buffer)
}

/// Writes, and repeats the write if a signal interrupts it.
fn write_through<W: Write>(writer: &mut W, bytes: &[u8]) -> io::Result<usize>
    ensures bound { WritesAtMost result bytes.now }
    ensures bytes { WriteAppends (W.contents writer.old) (W.contents writer.new) result bytes.now }
{
    for _ in 1..TRIES {
        match writer.write(bytes) {
            Err(error) if is_interrupted(&error) => {}
            ended => return ended,
        }
    }
    writer.write(bytes)
}

/// Flushes, and repeats the flush if a signal interrupts it.
fn flush_through<W: Write>(writer: &mut W) -> io::Result<()>
    ensures { Keeps (W.contents writer.old) (W.contents writer.new) }
{
    for _ in 1..TRIES {
        match writer.flush() {
            Err(error) if is_interrupted(&error) => {}
            ended => return ended,
        }
    }
    writer.flush()
}

/// A source over a borrowed reader. A read that a signal interrupts is repeated, up to 999 times.
#[derive(Drop)]
pub struct FromRead<'a, R> {
    reader: &'a mut R,
    reads: u64,
    failed: bool,
}

impl<'a, R: Read> FromRead<'a, R> {
    /// Makes a source over the reader. No read is made yet.
    pub fn new(reader: &'a mut R) -> FromRead<'a, R>
        ensures remaining { ⟦<FromRead<'a, R> as Source>⟧.remaining result ≡ R.remaining reader.old }
        ensures reads { ⟦<FromRead<'a, R> as Source>⟧.reads result ≡ 0 }
        ensures fresh { ⟦<FromRead<'a, R> as Source>⟧.has_failed result ≡ false }
        ensures held { ⟦<FromRead<'a, R> as Source>⟧.holds result ≡ reader.entry.ghost_name }
        ensures borrowed { result.reader.now ≡ reader.old }
    {
        FromRead {
            reader,
            reads: 0,
            failed: false,
        }
    }
}

impl<'a, R: Read> Source for FromRead<'a, R> {
    ghost remaining = { λ s. R.remaining s.reader.now };

    ghost reads = { λ s. s.reads };

    ghost has_failed = { λ s. s.failed };

    ghost holds = { λ s. s.reader.ghost_name };

    fn read(&mut self, buffer: &mut [u8]) -> Result<usize, DeviceFault> {
        self.reads += 1;
        match read_through(self.reader, buffer) {
            Ok(count) => Ok(count),
            Err(_) => {
                self.failed = true;
                Err(DeviceFault)
            }
        }
    }
}

/// A sink over a borrowed writer. A write that takes no byte fails. A call that a signal interrupts
/// is repeated, up to 999 times.
#[derive(Drop)]
pub struct ToWrite<'a, W> {
    writer: &'a mut W,
    flushed: bool,
    failed: bool,
}

impl<'a, W: Write> ToWrite<'a, W> {
    /// Makes a sink over the writer. Nothing is written yet.
    pub fn new(writer: &'a mut W) -> ToWrite<'a, W>
        ensures contents { ⟦<ToWrite<'a, W> as Sink>⟧.contents result ≡ W.contents writer.old }
        ensures flushed { ⟦<ToWrite<'a, W> as Sink>⟧.is_flushed result ≡ true }
        ensures fresh { ⟦<ToWrite<'a, W> as Sink>⟧.has_failed result ≡ false }
        ensures held { ⟦<ToWrite<'a, W> as Sink>⟧.holds result ≡ writer.entry.ghost_name }
        ensures borrowed { result.writer.now ≡ writer.old }
    {
        ToWrite {
            writer,
            flushed: true,
            failed: false,
        }
    }
}

impl<'a, W: Write> Sink for ToWrite<'a, W> {
    ghost contents = { λ s. W.contents s.writer.now };

    ghost is_flushed = { λ s. s.flushed };

    ghost has_failed = { λ s. s.failed };

    ghost holds = { λ s. s.writer.ghost_name };

    fn write(&mut self, bytes: &[u8]) -> Result<usize, DeviceFault> {
        self.flushed = false;
        match write_through(self.writer, bytes) {
            Ok(count) if count > 0 => Ok(count),
            _ => {
                self.failed = true;
                Err(DeviceFault)
            }
        }
    }

    fn flush(&mut self) -> Result<(), DeviceFault> {
        match flush_through(self.writer) {
            Ok(()) => {
                self.flushed = true;
                Ok(())
            }
            Err(_) => {
                self.failed = true;
                Err(DeviceFault)
            }
        }
    }
}
