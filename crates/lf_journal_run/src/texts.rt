//! The lines and the replies of records as texts, and where a record is.

ghost use Rattle.std.specs.Prelude.{◌≡◌, ◌+◌, ◌<◌, ◌≤◌, ◌++◌, length, map, take, OnOk};
ghost use Rattle.lf_journal_text.specs.Records.{entries_text, entry_text, line_text};
ghost use Rattle.lf_journal_text.specs.Views.{entry_of, log_of};
ghost use Rattle.lf_journal_run.specs.Texts.{entries_in, lines_text, replies_text, same_lines};
ghost use Rattle.lf_journal_run.specs.Texts.{log_size, logs_size, record_byte};

use lf_journal_text::{Batch, Record};
use std::alloc::AllocError;

/// The bytes of the header of a batch.
const HEADER: usize = 38;

/// Appends a line and a line feed.
fn put_line(text: &mut Vec<u8>, line: &[u8]) -> Result<(), AllocError>
    ensures { OnOk result (text.new.items ≡ text.old.items ++ line_text line.now) }
{
    text.extend_from_slice(line)?;
    text.extend_from_slice(b"\n")
}

/// Appends the lines of the records.
fn put_lines(text: &mut Vec<u8>, records: &[Record<'_>]) -> Result<(), AllocError>
    ensures { OnOk result (text.new.items ≡ text.old.items ++ lines_text (map entry_of records.now)) }
{
    for record in records {
        put_line(text, record.line)?;
    }
    Ok(())
}

/// Appends the replies of the records.
fn put_replies(text: &mut Vec<u8>, records: &[Record<'_>]) -> Result<(), AllocError>
    ensures { OnOk result (text.new.items ≡ text.old.items ++ replies_text (map entry_of records.now)) }
{
    for record in records {
        put_line(text, record.reply)?;
    }
    Ok(())
}

/// Appends the lines of the records of batches.
pub(crate) fn put_all_lines(text: &mut Vec<u8>, batches: &[Batch<'_>]) -> Result<(), AllocError>
    ensures { OnOk result
        (text.new.items ≡ text.old.items ++ lines_text (entries_in (map log_of batches.now))) }
{
    for batch in batches {
        put_lines(text, &batch.records)?;
    }
    Ok(())
}

/// Appends the replies of the records of batches.
pub(crate) fn put_all_replies(text: &mut Vec<u8>, batches: &[Batch<'_>]) -> Result<(), AllocError>
    ensures { OnOk result
        (text.new.items ≡ text.old.items ++ replies_text (entries_in (map log_of batches.now))) }
{
    for batch in batches {
        put_replies(text, &batch.records)?;
    }
    Ok(())
}

/// Returns the number of lines that two texts have in common at their start.
pub(crate) fn same_lines(text: &[u8], other: &[u8]) -> usize
    ensures { result ≡ same_lines text.now other.now }
{
    let mut count = 0;
    let mut at = 0;
    while at < text.len() && at < other.len() {
        if text[at] != other[at] {
            return count;
        }
        if text[at] == b'\n' {
            count += 1;
        }
        at += 1;
    }
    count
}

/// Returns the bytes of a record.
fn size_of_record(entry: &Record<'_>) -> usize
    requires { length (entry_text (entry_of entry.now)) ≤ 18446744073709551615 }
    ensures { result ≡ length (entry_text (entry_of entry.now)) }
{
    entry.origin.len() + 1 + (entry.line.len() + 1) + (entry.reply.len() + 1)
}

/// Returns the bytes of records.
fn size_of_records(records: &[Record<'_>]) -> usize
    requires { length (entries_text (map entry_of records.now)) ≤ 18446744073709551615 }
    ensures { result ≡ length (entries_text (map entry_of records.now)) }
{
    let mut size = 0;
    for record in records {
        size += size_of_record(record);
    }
    size
}

/// Returns the bytes of a batch in front of the record of this number.
fn size_in_front(batch: &Batch<'_>, number: usize) -> usize
    requires known { number ≤ length batch.now.records.items }
    requires small { log_size (log_of batch.now) ≤ 18446744073709551615 }
    ensures size { result ≡ 38 + length (entries_text (take number (log_of batch.now).entries)) }
    ensures within { result ≤ log_size (log_of batch.now) }
{
    HEADER + size_of_records(&batch.records[..number])
}

/// Returns the bytes of a batch.
fn size_of_batch(batch: &Batch<'_>) -> usize
    requires { log_size (log_of batch.now) ≤ 18446744073709551615 }
    ensures { result ≡ log_size (log_of batch.now) }
{
    HEADER + size_of_records(&batch.records)
}

/// Returns the byte where the record of this number begins, in a journal of these batches.
pub(crate) fn record_byte(batches: &[Batch<'_>], number: usize) -> usize
    requires { logs_size (map log_of batches.now) ≤ 18446744073709551615 }
    ensures { result ≡ record_byte number 0 (map log_of batches.now) }
{
    let mut at = 0;
    let mut left = number;
    for batch in batches {
        if left < batch.records.len() {
            return at + size_in_front(batch, left);
        }
        left -= batch.records.len();
        at += size_of_batch(batch);
    }
    at
}
