//! Reading a segment.

ghost use Rattle.std.specs.Prelude.{◌≡◌, ◌+◌, ◌-◌, ◌≤◌, ◌<◌, List, ℕ, true, false, length, take, drop, map, Option, IfOk, OnOk, option_map};
ghost use Rattle.lf_journal_text.specs.Batches.{number_at};
ghost use Rattle.lf_journal_text.specs.Records.{is_beginning, log_in, segment_of, title};
ghost use Rattle.std.specs.Str.{bytes_eq};
ghost use Rattle.lf_journal_text.specs.Views.{entry_of, log_of, Gives};
ghost use Rattle.lf_journal_text.specs.declared.segment.ReadError.TheVariants.{Damaged, Memory};

use crate::batch::{damage_kind, is_torn, number_at, size_of_batch};
use crate::damage::{Damage, DamageKind};
use crate::records::{Record, records_of};
use std::alloc::{AllocError, AllocFailed, Global};

/// A batch as it is read: its time in milliseconds since 1970, and its records.
#[derive(Drop)]
pub struct Batch<'a> {
    pub time: u64,
    pub records: Vec<Record<'a>>,
}

/// Why a segment was not read.
#[derive(Debug, Drop)]
pub enum ReadError {
    Memory,
    Damaged(Damage),
}

impl From<AllocError> for ReadError {
    ghost from_gives = { λ _ e. e ≡ Memory };

    fn from(_e: AllocError) -> ReadError {
        ReadError::Memory
    }
}

impl<T: Drop> From<AllocFailed<T>> for ReadError {
    ghost from_gives = { λ _ e. e ≡ Memory };

    fn from(_e: AllocFailed<T>) -> ReadError {
        ReadError::Memory
    }
}

/// Returns whether the record is that of a beginning of version 4.
fn has_title(first: &Record<'_>) -> bool
    ensures { result ≡ bytes_eq first.now.origin.now title }
{
    first.origin == b"lefence-journal 4".as_slice()
}

/// Returns whether the records are the beginning of a segment of version 4.
fn is_beginning(records: &[Record<'_>]) -> bool
    ensures { result ≡ is_beginning (map entry_of records.now) }
{
    if records.len() != 1 {
        return false;
    }
    has_title(&records[0])
}

/// Reads a batch without its gate. `None` if its bytes are not records.
#[tactic(auto, unfolding(crate::specs::Records::log_in))]
fn batch_in(alloc: Global, batch: &[u8]) -> Result<Option<Batch<'_>>, AllocError>
    requires { 37 ≤ length batch.now }
    ensures { IfOk result (λ found. option_map log_of found ≡ log_in batch.now) }
{
    let Some(records) = records_of(alloc, &batch[37..])? else {
        return Ok(None);
    };
    Ok(Some(Batch {
        time: number_at(batch, 12, 13),
        records,
    }))
}

/// Returns whether a batch may be at this byte: only a beginning may be at byte 0.
fn may_be_at(at: usize, batch: &Batch<'_>) -> bool
    ensures begins { result ≡ true → at ≡ 0 → is_beginning (log_of batch.now).entries ≡ true }
    ensures other { result ≡ false → (at ≡ 0) × (is_beginning (log_of batch.now).entries ≡ false) }
{
    if at != 0 {
        return true;
    }
    is_beginning(&batch.records)
}

/// Reads the batches of a segment, up to what is torn or at rest. The first one is its beginning.
/// `Err(Damaged(..))` with the first damage.
pub fn read_segment(alloc: Global, bytes: &[u8]) -> Result<Vec<Batch<'_>>, ReadError>
    ensures { Gives result (segment_of bytes.now) }
{
    let mut batches = Vec::new(alloc);
    let mut at = 0;
    let mut size = size_of_batch(bytes);
    while size != 0 {
        let Some(batch) = batch_in(alloc, &bytes[at + 1..at + size])? else {
            return Err(damaged(at, DamageKind::BadRecord));
        };
        if !may_be_at(at, &batch) {
            return Err(damaged(at, DamageKind::OtherVersion));
        }
        batches.push(batch)?;
        at += size;
        size = size_of_batch(&bytes[at..]);
    }
    if !is_torn(&bytes[at..]) {
        return Err(damaged(at, damage_kind(&bytes[at..])));
    }
    Ok(batches)
}

/// Returns the error of a damaged segment.
fn damaged(at: usize, kind: DamageKind) -> ReadError
    ensures { result ≡ Damaged (record { at = at; kind = kind }) }
{
    ReadError::Damaged(Damage { at, kind })
}
