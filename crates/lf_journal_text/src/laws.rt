//! Laws of the text of a journal.

ghost use Rattle.std.specs.Prelude.{◌≡◌, ◌<◌, ◌^◌, ℕ, true, List, [], Some, Ok, length, take, drop, slice_index};
ghost use Rattle.std.specs.List.{AllByRecursion};
ghost use Rattle.lf_journal_text.specs.Batches.{is_intact, number_at, recovered, IsBatch};
ghost use Rattle.lf_journal_text.specs.Records.{Entry, HasLines, Log, batch_text, entries_of, entries_text, logs_from, segment_of, ReadsPrefix};

/// A law: records are read back from their text.
pub fn records_read_back()
    ensures { (entries : List Entry) → AllByRecursion HasLines entries → entries_of (entries_text entries) ≡ Some entries }
{}

/// A law: bytes that are read as records are the text of these records.
pub fn records_have_their_text()
    ensures { (bytes : List ℕ) (entries : List Entry) → entries_of bytes ≡ Some entries → bytes ≡ entries_text entries }
{}

/// A law: a batch has the time and the records of which it was made.
pub fn batches_read_back()
    ensures { (time : ℕ) (records : List ℕ) → time < 10 ^ 13 → 0 < length records → length records < 100000
        → ((i : ℕ) → i < length records → 0 < slice_index records i)
        → IsBatch (batch_text time records) × (number_at 13 13 (batch_text time records) ≡ time) × (drop 38 (batch_text time records) ≡ records) }
{}

/// A law: what a segment is read to depends only on the batches that it stands for, if nothing
/// behind them is damaged.
pub fn batches_are_what_is_read()
    ensures { (file : List ℕ) → is_intact file ≡ true → segment_of file ≡ logs_from 0 (recovered file) (Ok []) }
{}

/// A law: a prefix of a segment that can be read is such a segment too, and has a prefix of its
/// batches. So a copy of the file of a running hub is a journal.
pub fn prefixes_are_journals()
    ensures { (n : ℕ) (file : List ℕ) (logs : List Log) → segment_of file ≡ Ok logs → ReadsPrefix logs (take n file) }
{}
