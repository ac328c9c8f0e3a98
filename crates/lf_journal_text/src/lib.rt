//! The text of a journal: records, batches, segments, and what is damaged in them.
//!
//! A *record* is an accepted line: from where it came, the line, and its reply, each ended by a
//! line feed. A *batch* is the records of one sync behind a header of 38 bytes:
//!
//! | bytes | what |
//! |---|---|
//! | 0 | the gate: form feed (`^L`) once all other bytes are written, zero before |
//! | 1 to 5, 7 to 11 | LENGTH, the number of bytes behind the header, twice |
//! | 13 to 25 | the time in milliseconds since 1970 |
//! | 27 to 36 | the sum: the lengths, the time and the records as one number to the base 256, modulo 4294967291 |
//! | 6, 12, 26; 37 | spaces; a line feed |
//!
//! Numbers are decimal and have leading zeros. A batch is whole if its gate is open, both lengths are
//! the same, none of its bytes is zero, and the sum is right. Any byte but zero is an open gate, since
//! a disk may tear the write of this one byte too.
//!
//! A *segment* is whole batches, and zeros ahead of the next ones. Its first batch is its beginning,
//! one record: `lefence-journal 4`, a line for the design, and the name of the state with which the
//! segment begins. A name is the length and the sum of a state's text.
//!
//! A crash may leave a *torn* batch behind the whole ones. In it, each byte is the written one or zero,
//! or its gate is zero. What is neither whole nor torn is *damaged* (`DamageKind`).
//!
//! Two damages cannot be told from a torn batch, and are read as the end of the segment:
//!
//! - a zero in place of a byte of a header, if only zeros follow from 128 KiB behind the gate on
//! - a zero in place of another byte of the last batch
//!
//! Used by `lf_journal`, `lf_journal_run`, `lf_task_faults`, `lf_task_files` and `lf_tests_journal`.
//!
//! Modules, in reading order:
//!
//! - `damage`: damage and its kinds
//! - `refusal`: why a journal is refused
//! - `batch`: whole batches, and torn ones
//! - `records`: records
//! - `frame`: the text of a batch
//! - `beginning`: the beginning of a segment
//! - `segment`: reading a segment
//! - `laws`: what is written is read back; a prefix of a journal is a journal
//!
//! From `crates/lf_journal/src/start.rt`:
//!
//! ```
//! let end = whole_length(&bytes);
//! ```
#![tactic(auto)]

mod batch;
mod beginning;
mod damage;
mod frame;
mod laws;
mod records;
mod refusal;
mod segment;

pub use batch::{damage_kind, is_torn, size_of_batch, whole_length};
pub use beginning::{beginning_of, design_line, first_record, names_state, text_name};
pub use damage::{Damage, DamageKind};
pub use frame::batch_of;
pub use laws::{
    batches_are_what_is_read, batches_read_back, prefixes_are_journals, records_have_their_text,
    records_read_back,
};
pub use records::{Record, records_of, write_record};
pub use refusal::{Refusal, RefusalKind};
pub use segment::{Batch, ReadError, read_segment};
