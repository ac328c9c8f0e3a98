//! Makes the floor with which the lines of a task begin: in the state of a file, and after the journal
//! of a file, each if one is given.
//!
//! A journal must begin with the line of the design and the name of the state (`lf_journal_text`).
//! These are made of the texts of the files, which are read once more for it. So a file that can be
//! read only once, as a pipe, has another name there.
//!
//! Used by `lf_task_serve`.
//!
//! Modules, in reading order:
//!
//! - `names`: the names of the texts of files
//! - `run`: the journal of a file, run on a floor
//! - `begin`: the floor with which lines begin
//!
//! From `crates/lf_task_serve/src/serve_task.rt`:
//!
//! ```
//! let mut floor = begin_floor(alloc, &environment.texts, loaded, inputs, journal)?;
//! ```
#![tactic(auto)]

mod begin;
mod names;
mod run;

pub use begin::begin_floor;
pub use names::{line_of_files, name_of_state};
