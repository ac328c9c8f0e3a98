//! No system for a hub.

use crate::host::HubHost;
use lf_hub_wire::{Door, Sockets};
use lf_journal_file::{SegmentFile, Unknown};
use std::io;
use std::io::ErrorKind;
use std::time::{Clock, Duration};

/// A system that opens no file and no socket, and has no time: for programs that serve no hub.
#[derive(Clone, Copy, Debug, Drop)]
pub struct NoHub;

impl Clock for NoHub {
    fn monotonic(&self) -> io::Result<Duration> {
        Err(ErrorKind::Unsupported.into())
    }

    fn since_1970(&self) -> io::Result<Duration> {
        Err(ErrorKind::Unsupported.into())
    }
}

impl HubHost for NoHub {
    type Segment = SegmentFile<Unknown>;

    type Sockets = Sockets<'static>;

    type Lock = NoHub;

    type Clock = NoHub;

    fn lock(&self, _folder: &str) -> io::Result<Option<NoHub>> {
        Err(ErrorKind::Unsupported.into())
    }

    fn open_segment(&self, _folder: &str) -> io::Result<SegmentFile<Unknown>> {
        Err(ErrorKind::Unsupported.into())
    }

    fn listen(&self, _folder: &str, _doors: &[Door<'_>]) -> io::Result<Sockets<'static>> {
        Err(ErrorKind::Unsupported.into())
    }

    fn clock(&self) -> &NoHub {
        self
    }

    fn tell(&self, _message: &str) {}
}
