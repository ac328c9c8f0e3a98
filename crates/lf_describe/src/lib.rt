//! Writes what `describe` shows of a design: JSON Lines, one object on each line.
//!
//! The design comes first, then its rows, fences, obstacles, soft blockages and movable cells, and
//! finally the totals. Each cell is shown at its place in the DEF text, with the first rule that it
//! breaks there. `docs/CLI.md` lists the keys. Each line is compact JSON. The whole text is a
//! definition (`description`) over the loaded design and the document of the DEF text.
//!
//! Used by `lf_task_reports` and `lf_task_files`.
//!
//! Modules, in reading order:
//!
//! - `counts`: the cells of a design, their verdicts, and counts
//! - `described`: the parts of a design that are described
//! - `json`: the lines as JSON values
//! - `line_output`: lines written to a sink through a buffer
//! - `line_kinds`: the kinds of lines, in order
//! - `description`: the whole description
//! - `laws`: a law on names
//!
//! From `crates/lf_task_reports/src/repair_report.rt`:
//!
//! ```
//! let name = name_value(alloc, team)?;
//! let line = team_value(alloc, name, left, gaps, least, repaired)?;
//! ```
#![tactic(auto)]

mod counts;
mod described;
mod description;
mod json;
mod laws;
mod line_kinds;
mod line_output;

pub use description::{DescribeFailure, describe};
pub use json::name_value;
pub use laws::names_are_written;
