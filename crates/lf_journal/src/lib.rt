//! A segment of a journal on a disk: batches are added, and each is on the disk before it is acknowledged.
//!
//! `open` reads a segment that a crash may have left, and puts zeros in place of a torn batch. It refuses
//! a damaged segment, and changes nothing of it. `Journal::put` adds a batch. `roll` begins a new segment:
//! it writes the state into a file of its own, syncs it, and then puts the beginning that names it.
//!
//! Contracts see a disk as `sqlite_disk` does: what a read returns (`seen`), and what a crash at this
//! moment may leave (`may_leave`). Of `put` and `roll` they say:
//!
//! - At `Ok`, every crash leaves a segment that has the batch.
//! - At any moment of the call, at `Err` too, a crash leaves the batches from before, with the new one
//!   or without it, and nothing that `open` refuses.
//! - An error of `put` is a failure of the disk. After one, nothing more is asked of it.
//!
//! All this holds if the disk is clean: none of its answers was wrong. No code can test this.
//!
//! Used by `lf_hub_serve` and `lf_tests_journal`.
//!
//! Modules, in reading order:
//!
//! - `journal`: adding batches to a segment
//! - `start`: opening a segment that a crash may have left
//! - `next_segment`: a new segment and its state
//!
//! From `crates/lf_tests_journal/src/crashes.rt`:
//!
//! ```
//! journal.put(&batch)?;
//! ```
#![tactic(auto)]

mod journal;
mod next_segment;
mod start;

pub use journal::Journal;
pub use next_segment::roll;
pub use start::{OpenError, Opened, open};
