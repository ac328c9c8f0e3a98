//! Reports: the cells of a list that break a rule at their places, found among nearby cells only.
//!
//! The *verdict* of a cell is the first of the eight rules that it breaks at its place; for Overlap
//! it names the first other cell of the list that overlaps. It is `None` if the cell breaks no rule
//! or is unplaced. A report counts the cells and the unplaced ones, and lists the broken rules. It
//! is *clean* if no cell is unplaced and no cell breaks a rule. `Report`, `Violation` and `Listed`
//! are those of `lf_rules`.
//!
//! A list has either a team's cells, checked with the team's padding, or the cells of a whole
//! design, checked with no padding. In the latter case overlap is between the cells of any teams,
//! and the report is clean iff the design is fully legal.
//!
//! Used by most other crates.
//!
//! Modules, in reading order:
//!
//! - `broken_cell`: a cell that breaks a rule
//! - `verdicts`: the verdicts of a list of cells, and the report made of them
//! - `laws`: a law on reports
//!
//! From `crates/lefence_rows/src/design.rt`:
//!
//! ```
//! let report = check_all(alloc, loaded, &places)?;
//! ```
#![tactic(auto)]

mod broken_cell;
mod laws;
mod verdicts;

pub use broken_cell::BrokenCell;
pub use laws::clean_is_legal;
pub use lf_rules::{Listed, Report, Violation};
pub use verdicts::{check_all, report_from_verdicts, verdicts_of_all, verdicts_with_plan};
