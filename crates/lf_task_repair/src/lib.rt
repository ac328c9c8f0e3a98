//! Repairs the teams of a design from files: the work of `lefence repair`.
//!
//! `Repair` is a `Work` (`lf_task_run`). It opens a design (`lf_task_designs`), and repairs the selected
//! teams one after the other (`lf_repair_team`). If cells without a place are to go near their nets, it
//! opens the design with its nets (`lf_task_wires`), which give the targets of these cells
//! (`lf_wire_targets`). The result of each team is reported in a line of JSON (`lf_task_reports`).
//!
//! Used by `lf_app`.
//!
//! Modules, in reading order:
//!
//! - `repairing`: the repair of the selected teams
//! - `opening`: the design of files, and the floor with which its repair begins
//! - `repair_task`: the work
//!
//! From `crates/lf_app/src/tasks.rt`:
//!
//! ```
//! let work = repair_of(*options);
//! let exports = &mut environment.exports;
//! let writer = &mut environment.writer;
//! let progress = &mut environment.progress;
//! run_task(alloc, &environment.texts, exports, writer, progress, &job, &work)
//! ```
#![tactic(auto)]

mod opening;
mod repair_task;
mod repairing;

pub use repair_task::Repair;
pub use repairing::RepairStart;
