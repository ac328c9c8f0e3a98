//! Improves the teams of a design from files: the work of `lefence improve`.
//!
//! `Improve` is a `Work` (`lf_task_run`). It opens a design with its nets, and improves the selected
//! teams one after the other (`lf_improve_team`). Cells move only if the wire length of the whole
//! design becomes shorter. The result of each team and the lengths are reported in lines of JSON
//! (`lf_task_reports`).
//!
//! Used by `lf_app`.
//!
//! Modules, in reading order:
//!
//! - `opening`: the design of files with its nets
//! - `improving`: the improvement of the selected teams
//! - `improve_task`: the work
//!
//! From `crates/lf_app/src/tasks.rt`:
//!
//! ```
//! let work = improvement_of(*within, *options);
//! let exports = &mut environment.exports;
//! let writer = &mut environment.writer;
//! let progress = &mut environment.progress;
//! run_task(alloc, &environment.texts, exports, writer, progress, &job, &work)
//! ```
#![tactic(auto)]

mod improve_task;
mod improving;
mod opening;

pub use improve_task::Improve;
pub use opening::DesignWires;
