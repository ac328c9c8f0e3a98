//! The text of a batch.

ghost use Rattle.std.specs.Prelude.{◌≡◌, ◌<◌, ◌^◌, ◌++◌, ℕ, length, slice_index, IfOk, OnOk};
ghost use Rattle.lf_journal_text.specs.Batches.{digits_of, IsBatch};
ghost use Rattle.lf_journal_text.specs.Records.{batch_text, head_text};

use crate::batch::sum_from;
use std::alloc::{AllocError, Global};

/// Appends the last `width` decimal digits of a number.
pub(crate) fn write_digits(text: &mut Vec<u8>, width: usize, number: u64) -> Result<(), AllocError>
    ensures { OnOk result (text.new.items ≡ text.old.items ++ digits_of width number) }
{
    if width == 0 {
        return Ok(());
    }
    write_digits(text, width - 1, number / 10)?;
    text.push(48 + (number % 10) as u8)?;
    Ok(())
}

/// Appends both lengths and the time.
fn write_head(text: &mut Vec<u8>, time: u64, size: usize) -> Result<(), AllocError>
    ensures { OnOk result (text.new.items ≡ text.old.items ++ head_text time size) }
{
    write_digits(text, 5, size as u64)?;
    text.push(b' ')?;
    write_digits(text, 5, size as u64)?;
    text.push(b' ')?;
    write_digits(text, 13, time)?;
    text.push(b' ')?;
    Ok(())
}

/// Returns the batch of these records, which was made at this time in milliseconds since 1970.
pub fn batch_of(alloc: Global, time: u64, records: &[u8]) -> Result<Vec<u8>, AllocError>
    requires time { time < 10 ^ 13 }
    requires some { 0 < length records.now }
    requires small { length records.now < 100000 }
    requires nonzero { (i : ℕ) → i < length records.now → 0 < slice_index records.now i }
    ensures text { IfOk result (λ batch. batch.items ≡ batch_text time records.now) }
    ensures batch { IfOk result (λ batch. IsBatch batch.items) }
{
    let batch = text_of(alloc, time, records)?;
    Ok(batch)
}

/// Returns the text of a batch.
#[tactic(auto, unfolding(crate::specs::Records::batch_text))]
fn text_of(alloc: Global, time: u64, records: &[u8]) -> Result<Vec<u8>, AllocError>
    ensures { IfOk result (λ batch. batch.items ≡ batch_text time records.now) }
{
    let mut head = Vec::new(alloc);
    write_head(&mut head, time, records.len())?;
    let sum = sum_from(sum_from(0, &head), records);
    let mut batch = Vec::new(alloc);
    batch.push(12)?;
    batch.extend_from_slice(&head)?;
    write_digits(&mut batch, 10, u64::from(sum))?;
    batch.push(b'\n')?;
    batch.extend_from_slice(records)?;
    Ok(batch)
}
