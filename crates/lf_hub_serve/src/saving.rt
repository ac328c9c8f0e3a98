//! Records into the journal.

ghost use Rattle.std.specs.Prelude.{◌≡◌, ◌<◌, ◌≤◌, ◌+◌, ◌^◌, ◌++◌, [], List, ℕ, IfErr, IfOk, IsTrue, OnErr, OnOk, drop, length, slice_index, false, true};
ghost use Rattle.lf_hub_clients.specs.Turns.{IsAnswered};
ghost use Rattle.lf_journal_text.specs.Batches.{IsBatch};
ghost use Rattle.lf_journal.specs.Journals.{IsSettled};
ghost use Rattle.lf_hub_serve.specs.Saving.{KeepsRecords, records_of_file};
ghost use Rattle.lf_hub_serve.specs.Serving.{Serves};
ghost use Rattle.lf_hub_serve.specs.Servers.{HasFailed, service_of};

use crate::server::{Failure, Server};
use lf_hub_clients::Floor;
use lf_hub_wire::Wire;
use lf_journal::Journal;
use lf_journal_text::batch_of;
use sqlite_disk::Disk;
use std::alloc::{AllocError, Global};
use std::time::{Clock, SystemTime};

/// The latest time of a batch, in milliseconds since 1970.
const LATEST: u64 = 9_999_999_999_999;

/// The most bytes of the records of a batch.
const MOST: usize = 99_999;

/// The most bytes of a segment to which a batch is added.
const SEGMENT: usize = 1 << 62;

/// Returns the milliseconds since 1970, or 0 if the clock cannot be read.
pub fn time_of(clock: &impl Clock) -> u64
    ensures { result < 10 ^ 13 }
{
    let Ok(now) = SystemTime::now(clock) else {
        return 0;
    };
    let Ok(passed) = now.duration_since(SystemTime::UNIX_EPOCH) else {
        return 0;
    };
    match u64::try_from(passed.as_millis()) {
        Ok(time) => time.min(LATEST),
        Err(_) => LATEST,
    }
}

/// Returns whether none of the bytes is zero.
fn has_no_zero(bytes: &[u8]) -> bool
    ensures yes { result ≡ true → (i : ℕ) → i < length bytes.now → 0 < slice_index bytes.now i }
    ensures no { result ≡ false → (i : ℕ) × (i < length bytes.now) × (slice_index bytes.now i ≡ 0) }
{
    for byte in bytes {
        if *byte == 0 {
            return false;
        }
    }
    true
}

/// Returns the batch of these records, which was made at this time in milliseconds since 1970.
fn make_batch(alloc: Global, time: u64, records: &[u8]) -> Result<Vec<u8>, AllocError>
    requires time { time < 10 ^ 13 }
    requires some { 0 < length records.now }
    requires small { length records.now < 100000 }
    requires nonzero { (i : ℕ) → i < length records.now → 0 < slice_index records.now i }
    ensures batch { IfOk result (λ batch. IsBatch batch.items) }
    ensures records { IfOk result (λ batch. drop 38 batch.items ≡ records.now) }
    ensures size { IfOk result (λ batch. length batch.items ≤ 38 + length records.now) }
{
    let batch = batch_of(alloc, time, records)?;
    Ok(batch)
}

/// Adds records to the journal as one batch. They are on the disk at `Ok`.
///
/// `Err(UnfitRecords)` if they are too long for a batch, if one of their bytes is zero, or if the segment
/// is too long; then nothing was written. `Err(Disk)` if the disk fails.
fn put_records<D: Disk>(
    alloc: Global,
    time: u64,
    journal: &mut Journal<D>,
    records: &[u8],
) -> Result<(), Failure>
    requires usable { IsTrue (D.Disk.is_usable journal.old.disk) }
    requires settled { IsTrue (D.Disk.is_clean journal.old.disk)
        → IsSettled D.Disk.seen D.Disk.may_leave journal.old.disk journal.old.end journal.old.len }
    requires time { time < 10 ^ 13 }
    requires some { 0 < length records.now }
    ensures settled { OnOk result (IsTrue (D.Disk.is_clean journal.new.disk)
        → IsSettled D.Disk.seen D.Disk.may_leave journal.new.disk journal.new.end journal.new.len) }
    ensures saved { OnOk result (IsTrue (D.Disk.is_clean journal.new.disk)
        → records_of_file (D.Disk.seen journal.new.disk)
        ≡ records_of_file (D.Disk.seen journal.old.disk) ++ records.now) }
    ensures any_moment { IsTrue (D.Disk.is_clean journal.new.disk) → (c : List ℕ) → D.Disk.may_leave journal.new.disk c
        → KeepsRecords (records_of_file (D.Disk.seen journal.old.disk)) records.now c }
    ensures usable { OnOk result (IsTrue (D.Disk.is_usable journal.new.disk)) }
    ensures cause { IfErr result (λ failure. HasFailed failure (D.Disk.faults journal.old.disk)
        (D.Disk.faults journal.new.disk) records.now journal.new.end) }
    ensures calm { OnOk result (D.Disk.faults journal.new.disk ≡ D.Disk.faults journal.old.disk) }
    ensures clean { IsTrue (D.Disk.is_clean journal.new.disk) → IsTrue (D.Disk.is_clean journal.old.disk) }
{
    if records.len() > MOST {
        return Err(Failure::UnfitRecords);
    }
    if journal.end > SEGMENT {
        return Err(Failure::UnfitRecords);
    }
    if !has_no_zero(records) {
        return Err(Failure::UnfitRecords);
    }
    let batch = make_batch(alloc, time, records)?;
    match journal.put(&batch) {
        Ok(()) => Ok(()),
        Err(error) => Err(Failure::Disk(error)),
    }
}

/// Adds records to the journal, if there are any, as `put_records` does.
pub fn write_records<D: Disk>(
    alloc: Global,
    time: u64,
    journal: &mut Journal<D>,
    records: &[u8],
) -> Result<(), Failure>
    requires usable { IsTrue (D.Disk.is_usable journal.old.disk) }
    requires settled { IsTrue (D.Disk.is_clean journal.old.disk)
        → IsSettled D.Disk.seen D.Disk.may_leave journal.old.disk journal.old.end journal.old.len }
    requires time { time < 10 ^ 13 }
    ensures settled { OnOk result (IsTrue (D.Disk.is_clean journal.new.disk)
        → IsSettled D.Disk.seen D.Disk.may_leave journal.new.disk journal.new.end journal.new.len) }
    ensures saved { OnOk result (IsTrue (D.Disk.is_clean journal.new.disk)
        → records_of_file (D.Disk.seen journal.new.disk)
        ≡ records_of_file (D.Disk.seen journal.old.disk) ++ records.now) }
    ensures any_moment { IsTrue (D.Disk.is_clean journal.new.disk) → (c : List ℕ) → D.Disk.may_leave journal.new.disk c
        → KeepsRecords (records_of_file (D.Disk.seen journal.old.disk)) records.now c }
    ensures usable { OnOk result (IsTrue (D.Disk.is_usable journal.new.disk)) }
    ensures cause { IfErr result (λ failure. HasFailed failure (D.Disk.faults journal.old.disk)
        (D.Disk.faults journal.new.disk) records.now journal.new.end) }
    ensures calm { OnOk result (D.Disk.faults journal.new.disk ≡ D.Disk.faults journal.old.disk) }
    ensures clean { IsTrue (D.Disk.is_clean journal.new.disk) → IsTrue (D.Disk.is_clean journal.old.disk) }
{
    if records.is_empty() {
        return Ok(());
    }
    put_records(alloc, time, journal, records)
}

/// Saves the records since the last sync, and lets what is held be sent. At an error nothing happens to
/// the hub.
pub(crate) fn save<F: Floor, W: Wire, D: Disk>(
    alloc: Global,
    clock: &impl Clock,
    server: &mut Server<F, W>,
    journal: &mut Journal<D>,
    slots: &mut Vec<usize>,
) -> Result<(), Failure>
    requires usable { IsTrue (D.Disk.is_usable journal.old.disk) }
    requires settled { IsTrue (D.Disk.is_clean journal.old.disk)
        → IsSettled D.Disk.seen D.Disk.may_leave journal.old.disk journal.old.end journal.old.len }
    ensures ok { OnOk result (Serves (IsAnswered F.answers F.shows)
        (service_of W.calls server.old []) (service_of W.calls server.new server.old.core.hub.records)) }
    ensures empty { OnOk result (server.new.core.hub.records ≡ []) }
    ensures err { OnErr result (service_of W.calls server.new [] ≡ service_of W.calls server.old []) }
    ensures settled { OnOk result (IsTrue (D.Disk.is_clean journal.new.disk)
        → IsSettled D.Disk.seen D.Disk.may_leave journal.new.disk journal.new.end journal.new.len) }
    ensures saved { OnOk result (IsTrue (D.Disk.is_clean journal.new.disk)
        → records_of_file (D.Disk.seen journal.new.disk)
        ≡ records_of_file (D.Disk.seen journal.old.disk) ++ server.old.core.hub.records) }
    ensures any_moment { IsTrue (D.Disk.is_clean journal.new.disk) → (c : List ℕ) → D.Disk.may_leave journal.new.disk c
        → KeepsRecords (records_of_file (D.Disk.seen journal.old.disk)) server.old.core.hub.records c }
    ensures usable { OnOk result (IsTrue (D.Disk.is_usable journal.new.disk)) }
    ensures cause { IfErr result (λ failure. HasFailed failure (D.Disk.faults journal.old.disk)
        (D.Disk.faults journal.new.disk) server.old.core.hub.records journal.new.end) }
    ensures calm { OnOk result (D.Disk.faults journal.new.disk ≡ D.Disk.faults journal.old.disk) }
    ensures clean { IsTrue (D.Disk.is_clean journal.new.disk) → IsTrue (D.Disk.is_clean journal.old.disk) }
{
    write_records(alloc, time_of(clock), journal, server.core.records())?;
    server.core.synced(slots);
    Ok(())
}
