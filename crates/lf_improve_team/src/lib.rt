//! Improves a team: moves its legal cells by the floor's commands, so that the nets become shorter.
//!
//! A team is improved in one session of its own. The edits of `lf_improve_strategy` are sent to the
//! floor, and then the team's nets are measured on the floor: no other net changes. If they are shorter,
//! all cells of the team are legal and none is too far from where it was, the team is committed.
//! Otherwise its cells are moved back by a revert. So the wire length never grows, whatever the
//! edits are. Each line of an accepted command is written, as in a repair (`lf_repair_team`).
//!
//! Used by `lf_task_improve`.
//!
//! Modules, in reading order:
//!
//! - `cells_on_floor`: the cells of a floor at their working places
//! - `laws`: laws on the wire length of a floor
//! - `team`: the improvement of one team
//!
//! From `crates/lf_task_improve/src/improving.rt`:
//!
//! ```
//! let goal = ImproveGoal {
//!     options: plan.options,
//!     length,
//! };
//! match improve_team(alloc, floor, name, &plan.wires, &goal, &plan.search, lines) {
//!     Ok(done) => Ok(done),
//!     Err(_) => Err(Fault::SetupOutOfMemory),
//! }
//! ```
#![tactic(auto)]

mod cells_on_floor;
mod laws;
mod team;

pub use cells_on_floor::CellsOnFloor;
pub use laws::{wire_length_is_one, working_places_are_one};
pub use lf_improve_strategy::{ImproveOptions, ImproveSearch, TeamNets, WireNets};
pub use lf_repair_team::RepairFault;
pub use team::{ImproveGoal, TeamImprovement, improve_team};
