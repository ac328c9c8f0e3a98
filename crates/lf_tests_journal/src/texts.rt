//! Batches for other modules.

ghost use Rattle.std.specs.Prelude.{◌<◌, ◌≤◌, ℕ, length, slice_index, IfOk};
ghost use Rattle.lf_journal_text.specs.Batches.{IsBatch};

use lf_journal_text::{batch_of, beginning_of};
use std::alloc::{AllocError, Global};

/// Returns the beginning of a segment.
pub(crate) fn beginning(alloc: Global) -> Result<Vec<u8>, AllocError>
    ensures { IfOk result (λ batch. IsBatch batch.items) }
{
    beginning_of(alloc, 1_700_000_000_000, b"design", b"state")
}

/// Returns a batch of one record.
pub(crate) fn batch(alloc: Global) -> Result<Vec<u8>, AllocError>
    ensures { IfOk result (λ batch. IsBatch batch.items) }
{
    batch_of(alloc, 1_700_000_000_001, b"7 ada\nundo 2\nok 5\n")
}

/// Returns a segment of a beginning and a batch, with zeros ahead.
pub(crate) fn segment(alloc: Global) -> Result<Vec<u8>, AllocError> {
    let mut text = beginning(alloc)?;
    let next = batch(alloc)?;
    text.extend_from_slice(&next)?;
    text.extend_from_slice(&[0; 8])?;
    Ok(text)
}
