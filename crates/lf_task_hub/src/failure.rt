//! Faults of a hub.

ghost use Rattle.lf_task_hub.specs.Hubs.{IsOfHub};

use lf_hub_serve::Failure;
use lf_io::WriteFailureKind;
use lf_task_faults::{BindFailure, Fault, HubFailure};
use std::io;
use std::io::ErrorKind;

/// Returns why a file of the journal fails, by the system's error.
fn file_failure(error: &io::Error) -> WriteFailureKind {
    match error.kind() {
        ErrorKind::NotFound => WriteFailureKind::NoFolder,
        ErrorKind::IsADirectory => WriteFailureKind::Folder,
        ErrorKind::PermissionDenied => WriteFailureKind::Denied,
        ErrorKind::ReadOnlyFilesystem => WriteFailureKind::ReadOnly,
        ErrorKind::StorageFull => WriteFailureKind::Full,
        _ => WriteFailureKind::Other,
    }
}

/// Returns the fault of a journal in this folder whose file fails.
pub(crate) fn journal_fault<'a>(folder: &'a str, error: &io::Error) -> Fault<'a>
    ensures { IsOfHub result }
{
    if error.kind() == ErrorKind::OutOfMemory {
        return Fault::SetupOutOfMemory;
    }
    Fault::Hub(folder, HubFailure::Journal(file_failure(error)))
}

/// Returns the fault of a socket in this folder that cannot be made.
pub(crate) fn socket_fault<'a>(folder: &'a str, error: &io::Error) -> Fault<'a>
    ensures { IsOfHub result }
{
    let why = match error.kind() {
        ErrorKind::OutOfMemory => return Fault::SetupOutOfMemory,
        ErrorKind::AddrInUse => BindFailure::InUse,
        ErrorKind::PermissionDenied => BindFailure::Denied,
        _ => BindFailure::Other,
    };
    Fault::Hub(folder, HubFailure::Socket(why))
}

/// Returns the fault of a hub whose journal is in this folder, and which ends by this failure.
pub(crate) fn serving_fault<'a>(folder: &'a str, failure: Failure) -> Fault<'a>
    ensures { IsOfHub result }
{
    match failure {
        Failure::Disk(error) => journal_fault(folder, &error),
        Failure::UnfitRecords => Fault::Hub(folder, HubFailure::Journal(WriteFailureKind::Other)),
        Failure::OutOfMemory => Fault::SetupOutOfMemory,
    }
}
