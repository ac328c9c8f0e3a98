//! What a hub needs of the system.

ghost use Rattle.std.specs.Prelude.{◌≡◌, [], IfOk, IsTrue};

use lf_hub_wire::{Door, Wire};
use sqlite_disk::Disk;
use std::io;
use std::time::Clock;

/// What a hub needs of the system.
pub trait HubHost {
    ghost use Rattle.std.specs.Prelude.{◌≡◌, [], IfOk, IsTrue};

    /// The file of a segment of a journal.
    type Segment: Disk + Drop;
    /// The connections of clients and of the operator.
    type Sockets: Wire + Drop;
    /// What keeps other hubs away from a journal, as long as it lives.
    type Lock: Drop;
    /// What tells the time.
    type Clock: Clock;

    /// Locks the journal in a folder. `Ok(None)` if another hub has locked it.
    fn lock(&self, folder: &str) -> io::Result<Option<Self::Lock>>;

    /// Opens the segment of the journal in a folder, or makes it if there is none.
    fn open_segment(&self, folder: &str) -> io::Result<Self::Segment>
        ensures usable { IfOk result (λ segment. IsTrue (Self.Segment.Disk.is_usable segment)) };

    /// Listens to the sockets of these doors, and to that of the operator, in a folder.
    fn listen(&self, folder: &str, doors: &[Door<'_>]) -> io::Result<Self::Sockets>
        ensures calls { IfOk result (λ sockets. Self.Sockets.calls sockets ≡ []) }
        ensures orders { IfOk result (λ sockets. Self.Sockets.orders sockets ≡ []) };

    /// Returns what tells the time.
    fn clock(&self) -> &Self::Clock;

    /// Tells the operator something, in one line. A failure to do so is no fault.
    fn tell(&self, message: &str);
}
