//! Readers and writers of connections: devices over streams that they own.

ghost use Rattle.std.specs.Prelude.{◌≡◌, false, true};

use lf_io::{DeviceFault, FromRead, Sink, Source, ToWrite};
use std::io::{Read, Write};

/// A source over an owned stream: what a client sends.
#[derive(Drop)]
pub struct ClientReader<R> {
    stream: R,
    reads: u64,
    failed: bool,
}

impl<R: Read> ClientReader<R> {
    /// Makes a source over the stream. No read is made yet.
    pub fn new(stream: R) -> ClientReader<R>
        ensures remaining { ⟦<ClientReader<R> as Source>⟧.remaining result ≡ R.remaining stream }
        ensures reads { ⟦<ClientReader<R> as Source>⟧.reads result ≡ 0 }
        ensures fresh { ⟦<ClientReader<R> as Source>⟧.has_failed result ≡ false }
    {
        ClientReader {
            stream,
            reads: 0,
            failed: false,
        }
    }
}

impl<R: Read> Source for ClientReader<R> {
    ghost remaining = { λ s. R.remaining s.stream };

    ghost reads = { λ s. s.reads };

    ghost has_failed = { λ s. s.failed };

    fn read(&mut self, buffer: &mut [u8]) -> Result<usize, DeviceFault> {
        self.reads += 1;
        let read = FromRead::new(&mut self.stream).read(buffer);
        self.failed = self.failed || read.is_err();
        read
    }
}

/// A sink over an owned stream: what is sent to a client.
#[derive(Drop)]
pub struct ClientWriter<W> {
    stream: W,
    flushed: bool,
    failed: bool,
}

impl<W: Write> ClientWriter<W> {
    /// Makes a sink over the stream. Nothing is written yet.
    pub fn new(stream: W) -> ClientWriter<W>
        ensures contents { ⟦<ClientWriter<W> as Sink>⟧.contents result ≡ W.contents stream }
        ensures flushed { ⟦<ClientWriter<W> as Sink>⟧.is_flushed result ≡ true }
        ensures fresh { ⟦<ClientWriter<W> as Sink>⟧.has_failed result ≡ false }
    {
        ClientWriter {
            stream,
            flushed: true,
            failed: false,
        }
    }
}

impl<W: Write> Sink for ClientWriter<W> {
    ghost contents = { λ s. W.contents s.stream };

    ghost is_flushed = { λ s. s.flushed };

    ghost has_failed = { λ s. s.failed };

    fn write(&mut self, bytes: &[u8]) -> Result<usize, DeviceFault> {
        self.flushed = false;
        let written = ToWrite::new(&mut self.stream).write(bytes);
        self.failed = self.failed || written.is_err();
        written
    }

    fn flush(&mut self) -> Result<(), DeviceFault> {
        let flushed = ToWrite::new(&mut self.stream).flush();
        self.flushed = flushed.is_ok();
        self.failed = self.failed || flushed.is_err();
        flushed
    }
}
