//! A runtime for tests, whose files are in memory.

ghost use Rattle.std.specs.Prelude.{IsErr};

use std::alloc::{Allocator, Global};
use std::fs::{Metadata, OpenFile, OpenOptions};
use std::io;
use std::io::{Read, Seek, SeekFrom, Write};
use std::rt::Files;

/// The files, each a path and its bytes. A file without bytes can be opened but not read, like a
/// folder.
#[derive(Drop)]
pub struct Shelf<'a> {
    pub alloc: Global,
    pub files: &'a [(&'a str, Option<&'a [u8]>)],
}

/// An opened file: the bytes still to be read.
#[derive(Drop)]
pub struct Opened<'a> {
    bytes: Option<&'a [u8]>,
}

/// Returns the error of every call except reading.
fn refused<T>() -> io::Result<T>
    ensures { IsErr result }
{
    Err(io::Error::from(io::ErrorKind::Unsupported))
}

impl<'a> Read for Opened<'a> {
    fn read(&mut self, buffer: &mut [u8]) -> io::Result<usize> {
        match &mut self.bytes {
            Some(bytes) => bytes.read(buffer),
            None => refused(),
        }
    }
}

impl<'a> Write for Opened<'a> {
    fn write(&mut self, _bytes: &[u8]) -> io::Result<usize> {
        refused()
    }

    fn flush(&mut self) -> io::Result<()> {
        refused()
    }
}

impl<'a> Seek for Opened<'a> {
    fn seek(&mut self, _to: SeekFrom) -> io::Result<u64> {
        refused()
    }
}

impl<'a> OpenFile for Opened<'a> {
    fn metadata(&self) -> io::Result<Metadata> {
        refused()
    }

    fn set_len(&self, _size: u64) -> io::Result<()> {
        refused()
    }

    fn sync_all(&self) -> io::Result<()> {
        refused()
    }

    fn sync_data(&self) -> io::Result<()> {
        refused()
    }
}

impl<'a> Alloc for Shelf<'a> {
    type A = Global;

    fn alloc(&self) -> Global {
        self.alloc
    }
}

impl<'a> Files for Shelf<'a> {
    type File = Opened<'a>;

    type Dir = Opened<'a>;

    fn open_file(&self, _how: &OpenOptions, path: &str) -> io::Result<Opened<'a>> {
        for (name, bytes) in self.files {
            if *name == path {
                return Ok(Opened { bytes: *bytes });
            }
        }
        Err(io::Error::from(io::ErrorKind::NotFound))
    }

    fn open_dir(&self, _path: &str) -> io::Result<Opened<'a>> {
        refused()
    }

    fn metadata(&self, _path: &str) -> io::Result<Metadata> {
        refused()
    }

    fn symlink_metadata(&self, _path: &str) -> io::Result<Metadata> {
        refused()
    }

    fn copy(&self, _from: &str, _to: &str) -> io::Result<u64> {
        refused()
    }

    fn rename(&self, _from: &str, _to: &str) -> io::Result<()> {
        refused()
    }

    fn remove_file(&self, _path: &str) -> io::Result<()> {
        refused()
    }

    fn create_dir(&self, _path: &str) -> io::Result<()> {
        refused()
    }

    fn remove_dir(&self, _path: &str) -> io::Result<()> {
        refused()
    }

    fn remove_dir_all<B: Allocator>(&self, _alloc: B, _path: &str) -> io::Result<()> {
        refused()
    }
}
