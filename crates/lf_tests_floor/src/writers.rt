//! A writer for tests, which can be made to fail at any write.

use std::io;
use std::io::Write;

/// A writer that takes `left` bytes in all, at most three a call, and then fails. It keeps what it
/// takes.
#[derive(Drop)]
pub struct Room {
    pub taken: Vec<u8>,
    pub left: usize,
}

impl Write for Room {
    fn write(&mut self, bytes: &[u8]) -> io::Result<usize> {
        let count = bytes.len().min(3).min(self.left);
        if count == 0 {
            return Err(io::Error::from(io::ErrorKind::Other));
        }
        self.taken.extend_from_slice(&bytes[..count])?;
        self.left -= count;
        Ok(count)
    }

    fn flush(&mut self) -> io::Result<()> {
        Ok(())
    }
}
