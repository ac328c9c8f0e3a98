//! Records: from where a line came, the line, and its reply.

ghost use Rattle.std.specs.Prelude.{◌≡◌, ◌+◌, ◌<◌, ◌++◌, length, map, position, Option, Some, None, IfOk, IfSome, OnOk, option_map, ◌==◌};
ghost use Rattle.lf_journal_text.specs.Records.{Entry, entry_at, entry_text, entries_of, line_at};
ghost use Rattle.lf_journal_text.specs.Views.{entry_of};

use std::alloc::{AllocError, Global};

/// An accepted line. None of the three has a zero byte or a line feed.
#[derive(Clone, Copy, Debug)]
pub struct Record<'a> {
    /// From where the line came: the number of the connection, and what it said of itself.
    pub origin: &'a [u8],
    pub line: &'a [u8],
    pub reply: &'a [u8],
}

/// Returns the position of the first line feed.
fn line_feed(bytes: &[u8]) -> Option<usize>
    ensures found { result ≡ position (λ b. b == 10) bytes.now }
    ensures within { IfSome result (λ at. at < length bytes.now) }
{
    bytes.iter().position(|b| *b == 10)
}

/// Returns the first line, and the bytes behind its line feed.
#[tactic(auto, unfolding(crate::specs::Records::line_at))]
fn line_at(bytes: &[u8]) -> Option<(&[u8], &[u8])>
    ensures found { option_map (λ x. (x.0.now, x.1.now)) result ≡ line_at bytes.now }
    ensures shorter { IfSome result (λ x. length x.1.now < length bytes.now) }
{
    let at = line_feed(bytes)?;
    Some((&bytes[..at], &bytes[at + 1..]))
}

/// Returns the first record, and the bytes behind it.
#[tactic(auto, unfolding(crate::specs::Records::entry_at))]
fn record_at(bytes: &[u8]) -> Option<(Record<'_>, &[u8])>
    ensures found { option_map (λ x. (entry_of x.0, x.1.now)) result ≡ entry_at bytes.now }
    ensures shorter { IfSome result (λ x. length x.1.now < length bytes.now) }
{
    let (origin, rest) = line_at(bytes)?;
    let (line, rest) = line_at(rest)?;
    let (reply, rest) = line_at(rest)?;
    Some((
        Record {
            origin,
            line,
            reply,
        },
        rest,
    ))
}

/// Returns the records that the bytes are. `None` if they are not records.
pub fn records_of<'a>(alloc: Global, bytes: &'a [u8]) -> Result<Option<Vec<Record<'a>>>, AllocError>
    ensures { IfOk result (λ found. option_map (λ records. map entry_of records.items) found ≡ entries_of bytes.now) }
{
    let mut records = Vec::new(alloc);
    let mut rest = bytes;
    while !rest.is_empty() {
        let Some((record, behind)) = record_at(rest) else {
            return Ok(None);
        };
        records.push(record)?;
        rest = behind;
    }
    Ok(Some(records))
}

/// Appends the text of a record.
pub fn write_record(text: &mut Vec<u8>, entry: &Record<'_>) -> Result<(), AllocError>
    ensures { OnOk result (text.new.items ≡ text.old.items ++ entry_text (entry_of entry.now)) }
{
    text.extend_from_slice(entry.origin)?;
    text.extend_from_slice(b"\n")?;
    text.extend_from_slice(entry.line)?;
    text.extend_from_slice(b"\n")?;
    text.extend_from_slice(entry.reply)?;
    text.extend_from_slice(b"\n")
}
