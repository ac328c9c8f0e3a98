//! The system as a process sees it.

use crate::host::HubHost;
use lf_hub_wire::{Door, Sockets};
use lf_journal_file::{SegmentFile, Unknown, open_file};
use std::fs::{File, OpenOptions, TryLockError};
use std::io;

/// The most clients at once.
const MOST_CLIENTS: usize = 1000;

/// The system as a process sees it. Messages go to standard error.
#[derive(Clone, Copy)]
pub struct ProcessHost<'a> {
    rt: &'a HostRuntime,
}

impl<'a> ProcessHost<'a> {
    /// Takes the system of a process.
    pub fn new(rt: &'a HostRuntime) -> Self {
        ProcessHost { rt }
    }
}

impl<'a> HubHost for ProcessHost<'a> {
    type Segment = SegmentFile<Unknown>;

    type Sockets = Sockets<'a>;

    type Lock = File;

    type Clock = HostRuntime;

    fn lock(&self, folder: &str) -> io::Result<Option<File>> {
        let path = format!(in self.rt.alloc(); "{folder}/lock")?;
        let file = OpenOptions::new()
            .write(true)
            .create(true)
            .open(self.rt, path.as_str())?;
        match file.try_lock() {
            Ok(()) => Ok(Some(file)),
            Err(TryLockError::WouldBlock) => Ok(None),
            Err(TryLockError::Error(error)) => Err(error),
        }
    }

    fn open_segment(&self, folder: &str) -> io::Result<SegmentFile<Unknown>> {
        let path = format!(in self.rt.alloc(); "{folder}/segment")?;
        open_file(self.rt, folder, path.as_str(), Unknown)
    }

    fn listen(&self, folder: &str, doors: &[Door<'_>]) -> io::Result<Sockets<'a>> {
        Sockets::open(self.rt, folder, doors, MOST_CLIENTS)
    }

    fn clock(&self) -> &HostRuntime {
        self.rt
    }

    fn tell(&self, message: &str) {
        let _ = eprint!(self.rt; "lefence: {message}\n");
    }
}
