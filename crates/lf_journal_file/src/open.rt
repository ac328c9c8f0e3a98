//! Opening the file of a segment.

ghost use Rattle.std.specs.Prelude.{false, IsTrue, IfOk};
ghost use Rattle.lf_journal_file.specs.File.{file_is_usable, IsFresh};

use crate::SegmentFile;
use crate::host::Host;
use sqlite_disk::{Modelled, Start};
use std::fs::{self, OpenOptions};
use std::hash::{BuildHasher, RandomState};
use std::io;
use std::os::fd::AsRawFd;
use std::os::unix::fs::{MetadataExt, OpenOptionsExt};

/// Opens the file at `path` in the folder, or makes it if there is none. Only its owner may read
/// it, and no lock is taken.
///
/// Another thing at this name is refused: a link, a folder, a device, or a file with a second name.
/// `S` stands for what the file holds. Its value is used up, so that code over any `S` opens one file.
pub fn open_file<S: Start>(
    rt: &HostRuntime,
    folder: &str,
    path: &str,
    _start: S,
) -> io::Result<SegmentFile<S>>
    ensures usable { IfOk result (λ file. IsTrue (file_is_usable S.Start file)) }
    ensures fresh { IfOk result (λ file. IsFresh false file) }
{
    let file = open_regular(rt, path)?;
    let folder = fs::File::open(rt, folder)?;
    let key = RandomState::new(rt)?.hash_one(&0u8);
    Ok(Modelled::new(Host::settle(file, &folder, key)?, false, key))
}

/// Opens a regular file that has one name, or makes it.
fn open_regular(rt: &HostRuntime, path: &str) -> io::Result<fs::File> {
    let mut file = open_or_make(rt, path)?;
    // What is meant for a standard stream that was closed must not land in the journal.
    if file.as_raw_fd() <= 2 {
        file = file.try_clone()?;
    }
    let (found, named) = (file.metadata()?, fs::symlink_metadata(rt, path)?);
    let is_named = found.dev() == named.dev() && found.ino() == named.ino();
    if !is_named || !found.is_file() || found.nlink() != 1 {
        return Err(io::ErrorKind::Unsupported.into());
    }
    Ok(file)
}

/// Makes the file, or opens the one that is there. A link or a device at this name is not opened.
fn open_or_make(rt: &HostRuntime, path: &str) -> io::Result<fs::File> {
    match OpenOptions::new()
        .read(true)
        .write(true)
        .create_new(true)
        .mode(0o600)
        .open(rt, path)
    {
        Ok(file) => Ok(file),
        Err(error) if error.kind() == io::ErrorKind::AlreadyExists => {
            if !fs::symlink_metadata(rt, path)?.is_file() {
                return Err(io::ErrorKind::Unsupported.into());
            }
            OpenOptions::new().read(true).write(true).open(rt, path)
        }
        Err(error) => Err(error),
    }
}
