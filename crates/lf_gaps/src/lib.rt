//! The place nearest to a target at which a width fits one span of each of several lists.
//!
//! This places a cell on several rows: each list has the free spans of one row. Spans, rising lists
//! and grids are those of `lf_units`.
//!
//! Used by `lf_occupancy` and `lf_legalize`.
//!
//! Modules, in reading order:
//!
//! - `gap_target`: a width, the grid of its left ends, and the number to be near
//! - `gap`: the nearest place in one gap
//! - `row`: the search, outwards from the target
//!
//! From `crates/lf_tests_basics/src/spans.rt`:
//!
//! ```
//! let sites = SiteGrid {
//!     origin: 0,
//!     step: 200,
//! };
//! let found = best_in_row(rt.alloc(), rows.as_slice(), &sites, 600, 0)?;
//! ```
#![tactic(auto)]

mod gap;
mod gap_target;
mod row;

pub use gap::{nearer_in_gap, nearer_of};
pub use gap_target::GapTarget;
pub use row::best_in_row;
