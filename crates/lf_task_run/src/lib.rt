//! Runs a work on the floor of a design of files: opens it, does the work, reports the result, and
//! writes the requested files.
//!
//! `run_task` is the one skeleton of such tasks. A `Work` says how its design is opened and what it
//! does on the floor; its meaning is one record of relations. All else is here: the order of the
//! faults, which device is to blame, the lines of all accepted commands, the report, and the files in
//! their order. Messages of faults are not written here.
//!
//! Used by `lf_task_serve`, `lf_task_repair`, `lf_task_improve` and `lf_app`.
//!
//! Modules, in reading order:
//!
//! - `command_log`: the command lines of a task
//! - `progress`: how far a task is
//! - `selected_teams`: the teams on which a task works
//! - `results`: the report and the files that a task writes
//! - `task`: the trait of works, and the whole task
//!
//! From `crates/lf_app/src/tasks.rt`:
//!
//! ```
//! run_task(alloc, &environment.texts, exports, writer, progress, &job, &work)
//! ```
#![tactic(auto)]

mod command_log;
mod progress;
mod results;
mod selected_teams;
mod task;

pub use command_log::CommandLog;
pub use progress::{NoProgress, Progress, ProgressSink, TimedProgress};
pub use results::{TaskResults, is_text_requested, status_by};
pub use selected_teams::{all_known, announce_team, is_selected};
pub use task::{Begun, Job, Work, run_task};
