//! Standard output whose reader may have gone away, and messages that are not printed then.

use std::cell::Cell;
use std::io;
use std::io::{ErrorKind, Write};

/// Whether the call failed because nobody reads the pipe any more.
fn is_closed<T>(called: &io::Result<T>) -> bool {
    match called {
        Ok(_) => false,
        Err(error) => error.kind() == ErrorKind::BrokenPipe,
    }
}

/// A writer that notes in `closed` that nobody reads its pipe any more.
#[derive(Drop)]
pub(crate) struct WatchedWriter<'a, W> {
    pub(crate) writer: W,
    pub(crate) closed: &'a Cell<bool>,
}

impl<'a, W: Write> Write for WatchedWriter<'a, W> {
    fn write(&mut self, bytes: &[u8]) -> io::Result<usize> {
        let called = self.writer.write(bytes);
        if is_closed(&called) {
            self.closed.set(true);
        }
        called
    }

    fn flush(&mut self) -> io::Result<()> {
        let called = self.writer.flush();
        if is_closed(&called) {
            self.closed.set(true);
        }
        called
    }
}

/// A writer of messages, which are dropped if `closed` is true and `is_silent`.
#[derive(Drop)]
pub(crate) struct MessageWriter<'a, W> {
    pub(crate) writer: W,
    pub(crate) closed: &'a Cell<bool>,
    pub(crate) is_silent: bool,
}

impl<'a, W: Write> Write for MessageWriter<'a, W> {
    fn write(&mut self, bytes: &[u8]) -> io::Result<usize> {
        if self.is_silent && self.closed.get() {
            return Ok(bytes.len());
        }
        self.writer.write(bytes)
    }

    fn flush(&mut self) -> io::Result<()> {
        self.writer.flush()
    }
}
