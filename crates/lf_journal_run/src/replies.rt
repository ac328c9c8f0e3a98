//! The text that serving lines writes.

ghost use Rattle.std.specs.Prelude.{◌≡◌, Some, false, true};
ghost use Rattle.lf_rules.specs.Legalizer.{Legalizer};
ghost use Rattle.lf_server.specs.Connections.{KeepsDesign};
ghost use Rattle.lf_journal_run.specs.Runs.{Writes};

use lf_floor::Floor;
use lf_io::{DeviceFault, FromRead, Sink};
use lf_legalize::Seeker;
use lf_server::{Ending, ServeLimits, serve};
use std::alloc::Global;

/// A sink that keeps what is written to it.
#[derive(Drop)]
struct KeptText {
    bytes: Vec<u8>,
    is_flushed: bool,
    has_failed: bool,
}

impl Sink for KeptText {
    ghost contents = { λ s. Some s.bytes.items };

    ghost is_flushed = { λ s. s.is_flushed };

    ghost has_failed = { λ s. s.has_failed };

    fn write(&mut self, bytes: &[u8]) -> Result<usize, DeviceFault> {
        self.is_flushed = false;
        match self.bytes.extend_from_slice(bytes) {
            Ok(()) => Ok(bytes.len()),
            Err(_) => {
                self.has_failed = true;
                Err(DeviceFault)
            }
        }
    }

    fn flush(&mut self) -> Result<(), DeviceFault> {
        self.is_flushed = true;
        Ok(())
    }
}

/// What serving lines wrote, and how it ended.
#[derive(Drop)]
pub(crate) struct Replies {
    pub(crate) text: Vec<u8>,
    pub(crate) ending: Ending,
}

/// Serves the lines of this text on the floor, as those of a connection.
pub(crate) fn replies_to<K: Seeker + Drop>(
    alloc: Global,
    floor: &mut Floor<K>,
    lines: &[u8],
) -> Replies
    ensures stays { KeepsDesign floor.old floor.new }
    ensures writes { (l : Legalizer) → Writes l result.ending floor.old lines.now result.text.items floor.new }
{
    let mut rest = lines;
    let mut source = FromRead::new(&mut rest);
    let mut sink = KeptText {
        bytes: Vec::new(alloc),
        is_flushed: true,
        has_failed: false,
    };
    let limits = ServeLimits {
        lines: u64::MAX,
        reads: u64::MAX,
    };
    let served = serve(alloc, floor, &mut source, &mut sink, limits);
    Replies {
        text: sink.bytes,
        ending: served.ending,
    }
}
