//! The state of all teams in one table of each kind, and what each verb does to the rows of one
//! team.
//!
//! `Tables` has a placement with the frame and all cells, and one table each for undo entries,
//! session slots, revisions and paddings. `run_command` runs one command of one team and reads only
//! this team's rows. By its contract the reply and the new rows are the outcome that
//! `lf_floor_model` defines, and no other team's rows change. `lf_floor` finds teams by name, runs
//! many commands, saves and restores.
//!
//! Used by `lf_floor` and `lf_task_files`.
//!
//! Modules, in reading order:
//!
//! - `tables`: the tables of all teams
//! - `context`: what a team's command needs besides the tables
//! - `dispatch`: from a command to the method of its verb
//! - `sessions`: `open`, `close` and `sync`
//! - `cell_queries`: broken rules and best places of a team's own cells
//! - `team_legality`: which of a team's cells are legal, and the first that is not
//! - `report`: the report of a team's cells
//! - `queries`: `where`, `check`, `def` and `find`
//! - `recording`: room for a change, and its undo entry
//! - `single_cell`: `run_change`, which calls the method of a change; the changes of one cell:
//!   `place`, `legalize` and `unplace`
//! - `swap`: `swap`
//! - `tidy`: `tidy`
//! - `whole_team`: changes of a whole team: `revert`, `undo`, `commit` and `pad`
//!
//! From `crates/lf_floor/src/floor.rt`:
//!
//! ```
//! tables.run_command(&context, command)
//! ```
#![tactic(auto)]

mod cell_queries;
mod context;
mod dispatch;
mod queries;
mod recording;
mod report;
mod sessions;
mod single_cell;
mod swap;
mod tables;
mod team_legality;
mod tidy;
mod whole_team;

pub use context::TeamContext;
pub use tables::Tables;
pub use team_legality::is_cell_legal;
