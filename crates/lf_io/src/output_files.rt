//! The files into which texts are exported.

ghost use Rattle.std.specs.Prelude.{◌≡◌, ◌||◌, ℕ, Bool, List, Option, None, OnErr, OnOk, false, true};
ghost use Rattle.std.specs.IoError.{error_kind};
ghost use Rattle.lf_io.specs.Shelf.{Put, PutsFile, is_of_file, result_of_write, unwritten_of};

use crate::replace::{is_special, replace, try_path, write_through};
use crate::text_source::TextSource;
use std::io;
use std::io::ErrorKind;
use std::rt::Files;

/// Why a file cannot be written, if the system reports it.
#[derive(Clone, Copy, Debug, PartialEq, Eq)]
pub enum WriteFailureKind {
    /// Its folder does not exist.
    NoFolder,
    /// The path is that of a folder.
    Folder,
    /// This user may not write it.
    Denied,
    /// Its file system is read-only.
    ReadOnly,
    /// The disk is full.
    Full,
    /// Another reason.
    Other,
}

/// Why a text was not written to its file. A regular file is then unchanged. A pipe, a device, or
/// the file that standard output is redirected to may hold a front of the text.
#[derive(Clone, Copy, Debug, PartialEq, Eq)]
pub enum WriteFailure {
    /// The file cannot be written.
    File(WriteFailureKind),
    /// An allocation failed.
    OutOfMemory,
}

/// Returns the reason why a file was not written.
fn unwritten_of(error: &io::Error) -> WriteFailure
    ensures { result ≡ unwritten_of (error_kind error.now) }
{
    match error.kind() {
        ErrorKind::OutOfMemory => WriteFailure::OutOfMemory,
        ErrorKind::NotFound => WriteFailure::File(WriteFailureKind::NoFolder),
        ErrorKind::IsADirectory => WriteFailure::File(WriteFailureKind::Folder),
        ErrorKind::PermissionDenied => WriteFailure::File(WriteFailureKind::Denied),
        ErrorKind::ReadOnlyFilesystem => WriteFailure::File(WriteFailureKind::ReadOnly),
        ErrorKind::StorageFull => WriteFailure::File(WriteFailureKind::Full),
        _ => WriteFailure::File(WriteFailureKind::Other),
    }
}

/// Converts the result of writing a text, or of trying a path.
fn put_result(written: io::Result<()>) -> Result<(), WriteFailure>
    ensures { result ≡ result_of_write written }
{
    match written {
        Ok(()) => Ok(()),
        Err(error) => Err(unwritten_of(&error)),
    }
}

/// Writes the text to the file of this path, or to the device.
fn write_to<T: Files + AllocGlobal, P: TextSource>(
    files: &T,
    path: &str,
    text: &P,
) -> io::Result<()> {
    if is_special(files, path)? {
        return write_through(files, path, text);
    }
    replace(files, path, text)
}

/// Writes texts to files, given by their paths: the exported text, a state, the lines of a repair.
pub trait OutputFiles {
    // The texts written so far, the latest first, if known.
    ghost puts: { Self → Option (List Put) } = { λ _. None };

    // True if a file could not be written.
    ghost has_failed: { Self → Bool };

    /// Checks, without a text, whether the file of this path can be written, as far as this can be
    /// known. Writes nothing. `Ok` is no promise. `Err` if the file cannot be written, or an
    /// allocation fails.
    fn try_path(&mut self, path: &str) -> Result<(), WriteFailure>
        ensures unput { puts self.new ≡ puts self.old }
        ensures failed { has_failed self.new ≡ (is_of_file result || has_failed self.old) };

    /// Replaces the file of this path with the whole text, and writes nothing else. `Err` if it
    /// could not. Then a regular file is unchanged, and a pipe, a device, or the file that standard
    /// output is redirected to may hold a front of the text.
    fn put<P: TextSource>(&mut self, path: &str, text: &P) -> Result<(), WriteFailure>
        ensures ok { OnOk result (PutsFile (puts self.old) (puts self.new) path.now (P.text text.now)) }
        ensures err { OnErr result (puts self.new ≡ puts self.old) }
        ensures failed { has_failed self.new ≡ (is_of_file result || has_failed self.old) };
}

/// The files of a runtime. Contracts know nothing of their contents, or of the texts written to
/// them.
#[derive(Clone, Copy)]
pub struct FsOutputFiles<'a, T> {
    files: &'a T,
    failed: bool,
}

impl<'a, T: Files + AllocGlobal> FsOutputFiles<'a, T> {
    /// Takes the files of this runtime. No file has failed yet.
    pub fn new(files: &'a T) -> Self
        ensures fresh { ⟦<FsOutputFiles<'a, T> as OutputFiles>⟧.has_failed result ≡ false }
    {
        FsOutputFiles {
            files,
            failed: false,
        }
    }
}

/// Converts the result of writing a text, or of trying a path. Sets `failed` if a file could not be
/// written.
fn note_failure(failed: &mut bool, written: io::Result<()>) -> Result<(), WriteFailure>
    ensures reported { result ≡ result_of_write written }
    ensures noted { failed.new ≡ (is_of_file result || failed.old) }
{
    let result = put_result(written);
    if let Err(WriteFailure::File(_)) = result {
        *failed = true;
    }
    result
}

impl<'a, T: Files + AllocGlobal> OutputFiles for FsOutputFiles<'a, T> {
    ghost has_failed = { λ e. e.failed };

    fn try_path(&mut self, path: &str) -> Result<(), WriteFailure> {
        note_failure(&mut self.failed, try_path(self.files, path))
    }

    fn put<P: TextSource>(&mut self, path: &str, text: &P) -> Result<(), WriteFailure> {
        note_failure(&mut self.failed, write_to(self.files, path, text))
    }
}
