//! Repairs a team: moves cells that break a rule or have no place to legal places by the floor's
//! commands.
//!
//! A team is repaired in one session of its own. Cells of macros that no place can hold
//! (`lf_repair_bounds`) do not move. Each command is sent to the floor, and its line is
//! written exactly if the floor accepts it. So the lines are a run of the floor, all laws on runs
//! hold for it, and they are a journal that `replay` reads. A plan of `lf_repair_planner` places
//! the cells of one row's height. Other cells, and those whose place is refused, on a soft blockage
//! or beyond reach, move to their best places.
//!
//! Used by `lf_improve_team`, `lf_task_run`, `lf_task_repair` and `lf_task_improve`.
//!
//! Modules, in reading order:
//!
//! - `run_command`: a command sent to the floor, and its line written
//! - `cell_edits`: edits of single cells as commands
//! - `session`: the session of a team, its commit and its revert
//! - `repair_input`: a team at the start of its repair
//! - `outcome`: the changed and the unrepaired cells
//! - `reach`: the longest displacement of a cell
//! - `last_pass`: the last pass, over cells that are still illegal
//! - `misplaced_pass`: the pass before it, over cells that have moved onto soft blockages or beyond
//!   reach
//! - `means`: means of displacements, over all cells and by height
//! - `stats`: the result of a repair, counted
//! - `team`: the repair of one team
//! - `laws`: a law on the runs of a team
//!
//! From `crates/lf_tests_floor/src/repairs.rt`:
//!
//! ```
//! let mut lines = ToWrite::new(writer);
//! repair_team(alloc, floor, b"A", policy, &search, &[], &mut lines)
//! ```
#![tactic(auto)]

mod cell_edits;
mod last_pass;
mod laws;
mod means;
mod misplaced_pass;
mod outcome;
mod reach;
mod repair_input;
mod run_command;
mod session;
mod stats;
mod team;

pub use cell_edits::{Buffers, TeamSession, run_edits};
pub use laws::revision_counts_changes;
pub use lf_repair_strategy::{MovePolicy, RepairSearch, RepairStats};
pub use misplaced_pass::are_off_soft;
pub use outcome::RepairOutcome;
pub use repair_input::{is_team_legal, team_input};
pub use run_command::RepairFault;
pub use session::{close, open, revert, try_commit};
pub use stats::stats_of;
pub use team::repair_team;
