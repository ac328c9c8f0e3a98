//! Prints the reports of repairs, of improvements and of wire lengths: a line of JSON for each
//! team, and one for all.
//!
//! Each line is compact JSON; `docs/CLI.md` has the keys. Lengths are in database units, rounded
//! down, except that `doubled` is the exact length in half database units.
//!
//! The text of a `RepairReport` is exactly the lines of the teams that were added (`team_line`).
//! Its last line is that of their sums (`all_line`), with the density before and after.
//! `least_largest` of a line is the number for that team with which the report was created, and
//! `impossible` has the reasons of the list with which it was created. The whole texts of the other
//! two are definitions over the results of the teams and the measured lengths (`improve_report`,
//! `wire_report`).
//!
//! Used by `lf_task_wires`, `lf_task_repair` and `lf_task_improve`.
//!
//! Modules, in reading order:
//!
//! - `gaps`: the widest free gap near the old place of each unrepaired cell
//! - `reasons`: why no place can hold an unrepaired cell
//! - `totals`: sums over the teams of a repair
//! - `density`: how full the fullest bins are with the cells of a floor
//! - `repair_json`: the lines as JSON
//! - `repair_report`: the report so far
//! - `improved`: the result of an improvement
//! - `improvement_json`: the lines as JSON
//! - `improvement_report`: the whole report
//! - `length_json`: the lines as JSON
//! - `length_report`: the whole report
//!
//! From `crates/lf_task_repair/src/repairing.rt`:
//!
//! ```
//! let legal = is_committed_legal(alloc, floor)?;
//! report.close(alloc, &density, legal)?;
//! ```
#![tactic(auto)]

mod density;
mod gaps;
mod improved;
mod improvement_json;
mod improvement_report;
mod length_json;
mod length_report;
mod reasons;
mod repair_json;
mod repair_report;
mod totals;

pub use density::{DensityChange, density_on, density_since};
pub use improved::ImprovedTeam;
pub use improvement_report::{LengthChange, PinChange, improve_report};
pub use length_report::wire_report;
pub use repair_report::RepairReport;
pub use totals::Totals;
