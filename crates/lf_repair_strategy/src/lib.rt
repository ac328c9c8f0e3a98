//! Lists the edits of a repair: which cells of a team to unplace or place, and which legal cells to
//! unlock.
//!
//! It reads a placement, and no floor. A *pass* has for each cell whether it is *locked*, and its
//! target. Each phase of a pass (`Phase`) lists edits. `lf_repair_planner` plans those for the
//! cells of one row's height. A *local pass* (`LocalPass`) also frees legal cells near problem
//! cells: those without a place, or far from their targets. Nothing relies on these edits: a floor
//! tests each place that is requested of it.
//!
//! `RepairStats` is the result of repairing a team. `lf_repair_team` counts it, and
//! `lf_task_reports` prints it.
//!
//! Used by most other crates.
//!
//! Modules, in reading order:
//!
//! - `edit`: an edit of a cell
//! - `search`: how a repair searches for places
//! - `pass`: a team at the start of its repair
//! - `free_space`: the free sites of a team
//! - `ordered_moves`: moves in an order in which few cells are unplaced
//! - `team_plan`: the planned places of a team's cells
//! - `rounds`: the edits of each phase of a pass
//! - `local_pass`: passes that also free legal cells
//! - `window_pass`: a pass in which legal cells make room for those at fault
//! - `stats`: the result of repairing a team
//!
//! From `crates/lf_repair_team/src/team.rt`:
//!
//! ```
//! let placement = floor.placement();
//! let team = PaddedTeam::new(placement.frame(), number, floor.padding_of(number));
//! edits_for(alloc, placement, &team, pass, phase, search)
//! ```
#![tactic(auto)]

mod edit;
mod free_space;
mod local_pass;
mod ordered_moves;
mod pass;
mod rounds;
mod search;
mod stats;
mod team_plan;
mod window_pass;

pub use edit::{CellEdit, Edit};
pub use free_space::PaddedTeam;
pub use local_pass::{LocalPass, Neighborhood, edits_back, has_improved, plan_local_pass};
pub use ordered_moves::{Bands, CellMove, MoveList, with_moves};
pub use pass::{MovePolicy, Pass, RepairInput, initial_locks, working_places};
pub use rounds::{Phase, bands_of, edits_for, fits_on, free_rows_without, width_of};
pub use search::RepairSearch;
pub use stats::{DisplacementMeans, RepairStats};
pub use window_pass::plan_window_pass;
