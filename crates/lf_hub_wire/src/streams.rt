//! Connected sockets.

ghost use Rattle.std.specs.Prelude.{◌≡◌, false};
ghost use Rattle.lf_hub_wire.specs.Results.{CountsRead, CountsWritten, sends_bytes};

use crate::wire::{Incoming, Outgoing};
use mio::net::UnixStream;
use std::io::{ErrorKind, Read, Write};
use std::time::Instant;

/// The seconds for which a client may take no byte of its replies.
const PATIENCE: u64 = 60;

/// A connected socket. It is not asked again until the system has reported that it is ready.
#[derive(Drop)]
pub(crate) struct Stream {
    inner: UnixStream,
    is_readable: bool,
    is_writable: bool,
    has_ended: bool,
    /// Since when the client takes no byte.
    blocked_at: Option<Instant>,
}

impl Stream {
    /// Makes a stream that may be ready.
    pub(crate) fn new(inner: UnixStream) -> Stream {
        Stream {
            inner,
            is_readable: true,
            is_writable: true,
            has_ended: false,
            blocked_at: None,
        }
    }

    /// Notes what the system has reported.
    pub(crate) fn is_reported(&mut self, is_readable: bool, is_writable: bool) {
        if is_readable {
            self.is_readable = true;
        }
        if is_writable {
            self.is_writable = true;
        }
    }

    /// Returns whether the peer sends no more.
    pub(crate) fn has_ended(&self) -> bool {
        self.has_ended
    }

    /// Reads what has come into the buffer.
    pub(crate) fn read(&mut self, buffer: &mut [u8]) -> Incoming
        ensures { CountsRead result buffer.new }
    {
        if !self.is_readable || self.has_ended || buffer.is_empty() {
            return Incoming::Nothing;
        }
        match self.inner.read(buffer) {
            Ok(0) => {
                self.has_ended = true;
                Incoming::End
            }
            Ok(count) => Incoming::Bytes { count },
            Err(error) => match error.kind() {
                ErrorKind::WouldBlock => {
                    self.is_readable = false;
                    Incoming::Nothing
                }
                ErrorKind::Interrupted => Incoming::Nothing,
                _ => Incoming::Failed,
            },
        }
    }

    /// Sends as many of the bytes as the peer takes.
    pub(crate) fn write(&mut self, rt: &HostRuntime, bytes: &[u8]) -> Outgoing
        ensures { CountsWritten result bytes.now }
    {
        if !self.is_writable {
            return self.blocked(rt);
        }
        match self.inner.write(bytes) {
            Ok(count) => {
                self.blocked_at = None;
                Outgoing::Bytes { count }
            }
            Err(error) => match error.kind() {
                ErrorKind::WouldBlock => {
                    self.is_writable = false;
                    self.blocked(rt)
                }
                ErrorKind::Interrupted => Outgoing::Nothing,
                _ => Outgoing::Failed,
            },
        }
    }

    /// Returns what a write means that sends nothing. The peer is given up if it has taken no byte for
    /// a minute.
    fn blocked(&mut self, rt: &HostRuntime) -> Outgoing
        ensures { sends_bytes result ≡ false }
    {
        let Ok(now) = Instant::now(rt) else {
            return Outgoing::Nothing;
        };
        let Some(since) = self.blocked_at else {
            self.blocked_at = Some(now);
            return Outgoing::Nothing;
        };
        if now.duration_since(since).as_secs() >= PATIENCE {
            return Outgoing::Failed;
        }
        Outgoing::Nothing
    }
}
