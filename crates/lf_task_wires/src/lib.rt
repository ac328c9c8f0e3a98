//! Measures the nets of a design of files, and writes the lengths of their wires.
//!
//! The LEF texts and the DEF text are read as for all tasks first, with the same refusals. Then the
//! pins of the LEF texts and the nets of the DEF text are read from the same bytes, so that a path
//! may be that of a pipe. `netted_design` reads a design and its nets in this way for other tasks.
//!
//! Used by `lf_task_repair`, `lf_task_improve` and `lf_app`.
//!
//! Modules, in reading order:
//!
//! - `kept_texts`: the LEF texts of files, kept for a second reading
//! - `second_reading`: the pins of LEF texts and the nets of a DEF text
//! - `netted`: the design of files with its nets
//! - `measuring`: the report of a design
//! - `wirelength_task`: the whole task
//!
//! From `crates/lf_app/src/tasks.rt`:
//!
//! ```
//! Task::Wirelength { .. } => wirelength(alloc, &environment.texts, inputs, &mut environment.writer),
//! ```
#![tactic(auto)]

mod kept_texts;
mod measuring;
mod netted;
mod second_reading;
mod wirelength_task;

pub use netted::{NettedDesign, NettedInput, netted_design};
pub use wirelength_task::wirelength;
