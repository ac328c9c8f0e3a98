//! A hub over its floor and its wire, and how serving ends.

ghost use Rattle.std.specs.Prelude.{◌≡◌};
ghost use Rattle.lf_hub_serve.specs.declared.server.Failure.TheVariants.{OutOfMemory};

use lf_hub::Core;
use std::alloc::AllocError;
use std::io;

/// A hub, the floor that answers its lines, and the wire to its clients.
#[derive(Drop)]
pub struct Server<F, W> {
    pub core: Core,
    pub floor: F,
    pub wire: W,
}

/// What has failed.
#[derive(Clone, Copy, Debug)]
pub enum Failure {
    /// The disk. No reply to the last lines was sent, and the journal is to be opened again.
    Disk(io::Error),
    /// The last records have a zero byte or are too long for a batch, or the segment is too long. They
    /// were not written, and no reply to their lines was sent.
    UnfitRecords,
    /// An allocation.
    OutOfMemory,
}

/// Why a hub is no longer served.
#[derive(Clone, Copy, Debug)]
pub enum Ending {
    /// The operator has stopped it. The records of all lines that were answered are on the disk.
    Stopped,
    /// Something has failed.
    Failed(Failure),
    /// The hub was served for 2 to the power of 64 rounds.
    Spent,
}

impl From<AllocError> for Failure {
    ghost from_gives = { λ _ failure. failure ≡ OutOfMemory };

    fn from(_error: AllocError) -> Failure {
        Failure::OutOfMemory
    }
}
