//! Adding batches to a segment.

ghost use Rattle.std.specs.Prelude.{◌≡◌, ◌+◌, ◌<◌, ◌≤◌, ◌^◌, ◌++◌, [], ◌∷◌, List, ℕ, length, drop, OnOk, OnErr, IsTrue};
ghost use Rattle.sqlite_disk.specs.Disk.{MoreFaults};
ghost use Rattle.lf_journal_text.specs.Batches.{recovered, IsBatch};
ghost use Rattle.lf_journal.specs.Journals.{IsSettled, IsBeforeOrAfter, StandsFor};

use sqlite_disk::Disk;
use std::io;

/// A segment that is open: whole batches up to `end`, and zeros from there to `len`.
#[derive(Drop)]
pub struct Journal<D: Disk> {
    pub disk: D,
    pub end: usize,
    pub len: usize,
}

impl<D: Disk> Journal<D> {
    /// Adds a batch. It is on the disk at `Ok`. At `Err` the disk has failed, and the segment must
    /// be opened again.
    ///
    /// One sync is made if a torn write of this disk leaves each byte old or new, otherwise two.
    /// More zeros are written ahead if there is no room.
    pub fn put(&mut self, batch: &[u8]) -> io::Result<()>
        requires usable { IsTrue (D.Disk.is_usable self.old.disk) }
        requires settled { IsTrue (D.Disk.is_clean self.old.disk)
            → IsSettled D.Disk.seen D.Disk.may_leave self.old.disk self.old.end self.old.len }
        requires batch { IsBatch batch.now }
        requires fits { self.old.end + length batch.now + 16384 < 2 ^ 64 }
        ensures acknowledged { OnOk result (IsTrue (D.Disk.is_clean self.new.disk)
            → IsSettled D.Disk.seen D.Disk.may_leave self.new.disk self.new.end self.new.len
            × (recovered (D.Disk.seen self.new.disk) ≡ recovered (D.Disk.seen self.old.disk) ++ drop 1 batch.now ∷ [])) }
        ensures any_moment { IsTrue (D.Disk.is_clean self.new.disk) → (c : List ℕ) → D.Disk.may_leave self.new.disk c
            → IsBeforeOrAfter (recovered (D.Disk.seen self.old.disk)) batch.now c }
        ensures place { OnOk result (self.new.end ≡ self.old.end + length batch.now) }
        ensures usable { OnOk result (IsTrue (D.Disk.is_usable self.new.disk)) }
        ensures cause { OnErr result (MoreFaults (D.Disk.faults self.old.disk) (D.Disk.faults self.new.disk)) }
        ensures clean { IsTrue (D.Disk.is_clean self.new.disk) → IsTrue (D.Disk.is_clean self.old.disk) }
        ensures calm { OnOk result (D.Disk.faults self.new.disk ≡ D.Disk.faults self.old.disk) }
    {
        while self.len <= self.end + batch.len() {
            self.grow()?;
        }
        if self.disk.mixes() {
            self.append(batch)
        } else {
            self.append_twice_synced(batch)
        }
    }

    /// Adds a batch with one sync, on a disk where a torn write leaves each byte old or new.
    fn append(&mut self, batch: &[u8]) -> io::Result<()>
        requires usable { IsTrue (D.Disk.is_usable self.old.disk) }
        requires mixing { IsTrue (D.Disk.is_mixing self.old.disk) }
        requires settled { IsTrue (D.Disk.is_clean self.old.disk)
            → IsSettled D.Disk.seen D.Disk.may_leave self.old.disk self.old.end self.old.len }
        requires batch { IsBatch batch.now }
        requires room { self.old.end + length batch.now < self.old.len }
        ensures acknowledged { OnOk result (IsTrue (D.Disk.is_clean self.new.disk)
            → IsSettled D.Disk.seen D.Disk.may_leave self.new.disk self.new.end self.new.len
            × (recovered (D.Disk.seen self.new.disk) ≡ recovered (D.Disk.seen self.old.disk) ++ drop 1 batch.now ∷ [])) }
        ensures any_moment { IsTrue (D.Disk.is_clean self.new.disk) → (c : List ℕ) → D.Disk.may_leave self.new.disk c
            → IsBeforeOrAfter (recovered (D.Disk.seen self.old.disk)) batch.now c }
        ensures place { OnOk result (self.new.end ≡ self.old.end + length batch.now) }
        ensures usable { OnOk result (IsTrue (D.Disk.is_usable self.new.disk)) }
        ensures cause { OnErr result (MoreFaults (D.Disk.faults self.old.disk) (D.Disk.faults self.new.disk)) }
        ensures clean { IsTrue (D.Disk.is_clean self.new.disk) → IsTrue (D.Disk.is_clean self.old.disk) }
        ensures calm { OnOk result (D.Disk.faults self.new.disk ≡ D.Disk.faults self.old.disk) }
    {
        self.disk.write_at(self.end, batch)?;
        self.disk.sync()?;
        // Only now is the batch acknowledged.
        self.end += batch.len();
        Ok(())
    }

    /// Adds a batch with two syncs, on any disk: all but its gate, and then its gate.
    fn append_twice_synced(&mut self, batch: &[u8]) -> io::Result<()>
        requires usable { IsTrue (D.Disk.is_usable self.old.disk) }
        requires settled { IsTrue (D.Disk.is_clean self.old.disk)
            → IsSettled D.Disk.seen D.Disk.may_leave self.old.disk self.old.end self.old.len }
        requires batch { IsBatch batch.now }
        requires room { self.old.end + length batch.now < self.old.len }
        ensures acknowledged { OnOk result (IsTrue (D.Disk.is_clean self.new.disk)
            → IsSettled D.Disk.seen D.Disk.may_leave self.new.disk self.new.end self.new.len
            × (recovered (D.Disk.seen self.new.disk) ≡ recovered (D.Disk.seen self.old.disk) ++ drop 1 batch.now ∷ [])) }
        ensures any_moment { IsTrue (D.Disk.is_clean self.new.disk) → (c : List ℕ) → D.Disk.may_leave self.new.disk c
            → IsBeforeOrAfter (recovered (D.Disk.seen self.old.disk)) batch.now c }
        ensures place { OnOk result (self.new.end ≡ self.old.end + length batch.now) }
        ensures usable { OnOk result (IsTrue (D.Disk.is_usable self.new.disk)) }
        ensures cause { OnErr result (MoreFaults (D.Disk.faults self.old.disk) (D.Disk.faults self.new.disk)) }
        ensures clean { IsTrue (D.Disk.is_clean self.new.disk) → IsTrue (D.Disk.is_clean self.old.disk) }
        ensures calm { OnOk result (D.Disk.faults self.new.disk ≡ D.Disk.faults self.old.disk) }
    {
        self.disk.write_at(self.end + 1, &batch[1..])?;
        self.disk.sync()?;
        self.disk.write_at(self.end, &batch[..1])?;
        self.disk.sync()?;
        self.end += batch.len();
        Ok(())
    }

    /// Writes 16 KiB of zeros behind the file, and syncs them.
    fn grow(&mut self) -> io::Result<()>
        requires usable { IsTrue (D.Disk.is_usable self.old.disk) }
        requires settled { IsTrue (D.Disk.is_clean self.old.disk)
            → IsSettled D.Disk.seen D.Disk.may_leave self.old.disk self.old.end self.old.len }
        requires near { self.old.len ≤ self.old.end + 100037 }
        requires fits { self.old.len + 16384 < 2 ^ 64 }
        ensures settled { OnOk result (IsTrue (D.Disk.is_clean self.new.disk)
            → IsSettled D.Disk.seen D.Disk.may_leave self.new.disk self.new.end self.new.len
            × (recovered (D.Disk.seen self.new.disk) ≡ recovered (D.Disk.seen self.old.disk))) }
        ensures any_moment { IsTrue (D.Disk.is_clean self.new.disk) → (c : List ℕ) → D.Disk.may_leave self.new.disk c
            → StandsFor (recovered (D.Disk.seen self.old.disk)) c }
        ensures place { OnOk result ((self.new.len ≡ self.old.len + 16384) × (self.new.end ≡ self.old.end)) }
        ensures usable { OnOk result (IsTrue (D.Disk.is_usable self.new.disk)) }
        ensures cause { OnErr result (MoreFaults (D.Disk.faults self.old.disk) (D.Disk.faults self.new.disk)) }
        ensures clean { IsTrue (D.Disk.is_clean self.new.disk) → IsTrue (D.Disk.is_clean self.old.disk) }
        ensures calm { OnOk result (D.Disk.faults self.new.disk ≡ D.Disk.faults self.old.disk) }
    {
        let zeros = [0; 16384];
        self.disk.write_at(self.len, &zeros)?;
        self.disk.sync()?;
        self.len += 16384;
        Ok(())
    }
}
