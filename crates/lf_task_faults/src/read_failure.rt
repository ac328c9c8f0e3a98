//! Why the text of a file was not read.

/// Why a file cannot be read, if the system reports it.
#[derive(Clone, Copy, Debug, PartialEq, Eq)]
pub enum ReadFailureKind {
    /// The file does not exist.
    Missing,
    /// The path is that of a folder.
    Folder,
    /// This user may not read the file.
    Denied,
    /// Another reason.
    Other,
}

/// Why the text of a file was not read.
#[derive(Clone, Copy, Debug, PartialEq, Eq)]
pub enum ReadFailure {
    /// The file cannot be read.
    File(ReadFailureKind),
    /// An allocation failed.
    OutOfMemory,
}
