//! The files from which the texts of a design are read.

ghost use Rattle.std.specs.Prelude.{◌≡◌, ℕ, List, Option, Some, None, ⊤, IfOk, IfErr};
ghost use Rattle.std.specs.IoError.{error_kind};
ghost use Rattle.lf_state_text.specs.Pieces.{text_of_chunks};
ghost use Rattle.lf_task_designs.specs.Texts.{unread_of};

use lf_task_faults::{ReadFailure, ReadFailureKind};
use std::alloc::Global;
use std::collections::VecDeque;
use std::fs::{File, OpenFile};
use std::io;
use std::io::Read;
use std::rt::Files;

/// The number of bytes of each chunk of a file, except the last.
const PIECE: usize = 1_048_576;

/// Reads texts, by the paths of their files.
pub trait InputFiles {
    ghost use Rattle.lf_state_text.specs.Pieces.{text_of_chunks};
    ghost use Rattle.lf_task_designs.specs.Texts.{IsOfFile};

    // What reading the file of a path may return: its text, or `None` if it cannot be read.
    ghost gives: { Self → List ℕ → Option (List ℕ) → Type 0 } = { λ _ _ _. ⊤ };

    /// Reads the whole text of the file of this path. `Err` if the file cannot be read, or an
    /// allocation fails.
    fn text(&self, path: &str) -> Result<Vec<u8>, ReadFailure>
        ensures ok { IfOk result (λ text. gives self.now path.now (Some text.items)) }
        ensures err { IfErr result (λ unread. IsOfFile unread → gives self.now path.now None) };

    /// Reads the text of the file of this path in chunks, which can be dropped separately. `Err` if
    /// the file cannot be read, or an allocation fails.
    fn pieces(&self, alloc: Global, path: &str) -> Result<VecDeque<Vec<u8>>, ReadFailure>
        ensures ok { IfOk result (λ pieces. gives self.now path.now (Some (text_of_chunks pieces.items))) }
        ensures err { IfErr result (λ unread. IsOfFile unread → gives self.now path.now None) };
}

/// Makes one chunk of a text that is in memory. `Err` if an allocation fails.
pub fn single_chunk(alloc: Global, text: Vec<u8>) -> Result<VecDeque<Vec<u8>>, ReadFailure>
    ensures { IfOk result (λ pieces. text_of_chunks pieces.items ≡ text.items) }
{
    let mut pieces = VecDeque::new(alloc);
    match pieces.push_back(text) {
        Ok(()) => Ok(pieces),
        Err(_) => Err(ReadFailure::OutOfMemory),
    }
}

/// The files of a runtime. Contracts know nothing of their contents.
#[derive(Clone, Copy)]
pub struct FsInputFiles<'a, T> {
    files: &'a T,
}

impl<'a, T> FsInputFiles<'a, T> {
    /// Takes the files of this runtime.
    pub fn new(files: &'a T) -> Self {
        FsInputFiles { files }
    }
}

/// Returns why a file was not read, by the system's error.
fn unread_of(error: &io::Error) -> ReadFailure
    ensures { result ≡ unread_of (error_kind error.now) }
{
    match error.kind() {
        io::ErrorKind::OutOfMemory => ReadFailure::OutOfMemory,
        io::ErrorKind::NotFound => ReadFailure::File(ReadFailureKind::Missing),
        io::ErrorKind::IsADirectory => ReadFailure::File(ReadFailureKind::Folder),
        io::ErrorKind::PermissionDenied => ReadFailure::File(ReadFailureKind::Denied),
        _ => ReadFailure::File(ReadFailureKind::Other),
    }
}

/// Reads the whole text of the file. If the system reports the file's length, the list has exactly
/// that capacity.
fn whole_text<T: Files>(files: &T, alloc: Global, path: &str) -> io::Result<Vec<u8>> {
    let mut file = File::open(files, path)?;
    let length = match file.metadata() {
        Ok(reported) => reported.len() as usize,
        Err(_) => 0,
    };
    let mut text = Vec::with_capacity(alloc, length)?;
    io::copy(&mut file, &mut text)?;
    Ok(text)
}

/// Reads the next chunk. It is empty at the end of the file.
fn next_piece<R: Read>(alloc: Global, file: &mut R) -> io::Result<Vec<u8>> {
    let mut piece = Vec::with_capacity(alloc, PIECE)?;
    io::copy(&mut file.by_ref().take(PIECE as u64), &mut piece)?;
    Ok(piece)
}

/// Reads all chunks of the file.
fn all_pieces<T: Files>(files: &T, alloc: Global, path: &str) -> io::Result<VecDeque<Vec<u8>>> {
    let mut file = File::open(files, path)?;
    let mut pieces = VecDeque::new(alloc);
    for _ in 0..u64::MAX {
        let piece = next_piece(alloc, &mut file)?;
        if piece.is_empty() {
            break;
        }
        pieces.push_back(piece)?;
    }
    Ok(pieces)
}

impl<'a, T: Files + AllocGlobal> InputFiles for FsInputFiles<'a, T> {
    fn text(&self, path: &str) -> Result<Vec<u8>, ReadFailure> {
        match whole_text(self.files, self.files.alloc(), path) {
            Ok(text) => Ok(text),
            Err(error) => Err(unread_of(&error)),
        }
    }

    fn pieces(&self, alloc: Global, path: &str) -> Result<VecDeque<Vec<u8>>, ReadFailure> {
        match all_pieces(self.files, alloc, path) {
            Ok(pieces) => Ok(pieces),
            Err(error) => Err(unread_of(&error)),
        }
    }
}
