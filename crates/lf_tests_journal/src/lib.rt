//! Tests of journals: what no clause says of them.
//!
//! The tests cover `lf_journal_text`, `lf_journal` and `lf_journal_file`.
//!
//! Modules, in reading order:
//!
//! - `texts`: batches for other modules
//! - `reading`: prefixes of a segment, changed bytes, and zeros
//! - `crashes`: a disk that fails or tears at each call in turn
//! - `files`: a segment in a file
#![tactic(auto)]

#[cfg(test)]
mod crashes;
#[cfg(test)]
mod files;
#[cfg(test)]
mod reading;
#[cfg(test)]
mod texts;
