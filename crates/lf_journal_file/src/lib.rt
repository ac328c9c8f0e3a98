//! The file of a segment as a `Disk`: each method makes the call of the system that it notes.
//!
//! A `SegmentFile` keeps a record of its calls and their answers, which only contracts see. What a
//! contract says of the file (what a read returns, and what a crash may leave) is computed from this
//! record, by `sqlite_disk`. A program is safe whatever the file answers.
//!
//! No proof shows these points, and the theorems on crashes rest on them:
//!
//! - Each method of `Host` makes the call that it notes. They are to be read.
//! - After a crash the file holds one of the contents that `sqlite_disk` allows, by the reading of a
//!   torn write that `S` names.
//! - No other program writes to the file. No lock is taken here; the hub locks its folder.
//!
//! Used by `lf_tests_journal`.
//!
//! Modules, in reading order:
//!
//! - `record`: a record of calls, which only contracts see
//! - `host`: the calls of the system, and their notes
//! - `open`: opening the file
//!
//! From `crates/lf_tests_journal/src/files.rt`:
//!
//! ```
//! let mut file = open_file(&rt, FOLDER, PATH, Unknown)?;
//! ```
#![tactic(auto)]

mod host;
mod open;
mod record;

pub use host::Host;
pub use open::open_file;
pub use sqlite_disk::{Start, Unknown, Wary};

/// A file that held what `S` says.
pub type SegmentFile<S> = sqlite_disk::Modelled<Host, S>;
