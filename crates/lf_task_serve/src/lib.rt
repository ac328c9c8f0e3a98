//! Answers lines over designs of files, from a reader or from connections, and then writes the
//! requested files.
//!
//! `serve_files` opens a design, brings its floor into the state of a state file and runs a journal on
//! it, each if one is given (`lf_task_journal`). Then it answers lines or serves connections (`LineSource`). At the end it writes
//! the exported text and the state, each if requested. `Environment` has all devices of a task; their
//! types are one parameter (`Devices`).
//! Each function returns the exit status 0, or the fault, which is not printed here.
//!
//! Used by `lf_app`.
//!
//! Modules, in reading order:
//!
//! - `environment`: the devices of a task
//! - `serve_lines`: the lines of a source, answered within a limit
//! - `listener`: the trait of what listens on ports, and its implementation for a network
//! - `line_source`: the lines of the reader or of connections
//! - `serve_task`: the whole task, from the files of a design to the written files
//!
//! From `crates/lf_app/src/tasks.rt`:
//!
//! ```
//! let lines = LineSource::Reader { max_lines: *lines };
//! serve_files(alloc, environment, inputs, *journal, lines, outputs_of(task))
//! ```
#![tactic(auto)]

mod environment;
mod line_source;
mod listener;
mod serve_lines;
mod serve_task;

pub use environment::{Devices, DevicesOf, Environment, Shows};
pub use line_source::LineSource;
pub use listener::{NetListener, PortListener};
pub use serve_lines::serve_lines_within;
pub use serve_task::{serve_files, serve_loaded};
