//! A reader and a writer for tests; each of their calls can be made to fail.

use std::io;
use std::io::{Read, Write};

/// The error of a call that fails.
fn fault() -> io::Error {
    io::Error::from(io::ErrorKind::Other)
}

/// A reader that gives at most `most` bytes a read, and fails after its good reads.
#[derive(Drop)]
pub struct Pieces<'a> {
    pub bytes: &'a [u8],
    pub most: usize,
    pub good_reads: u32,
}

impl<'a> Read for Pieces<'a> {
    fn read(&mut self, buffer: &mut [u8]) -> io::Result<usize> {
        if self.good_reads == 0 {
            return Err(fault());
        }
        self.good_reads -= 1;
        let count = self.most.min(buffer.len());
        self.bytes.read(&mut buffer[..count])
    }
}

/// A writer that takes at most `most` bytes a call, and fails after its good writes or flushes. It
/// keeps the bytes, with a bar for each flush.
#[derive(Drop)]
pub struct Log {
    pub taken: Vec<u8>,
    pub most: usize,
    pub good_writes: u32,
    pub good_flushes: u32,
}

impl Write for Log {
    fn write(&mut self, bytes: &[u8]) -> io::Result<usize> {
        if self.good_writes == 0 {
            return Err(fault());
        }
        self.good_writes -= 1;
        let count = self.most.min(bytes.len());
        self.taken.extend_from_slice(&bytes[..count])?;
        Ok(count)
    }

    fn flush(&mut self) -> io::Result<()> {
        if self.good_flushes == 0 {
            return Err(fault());
        }
        self.good_flushes -= 1;
        self.taken.push(b'|')?;
        Ok(())
    }
}
