//! Plans a place for each cell of a team, over all of its rows at once.
//!
//! A plan has no floor. It is given the free spans of the team's rows in sites, and the cells of
//! one row's height with their targets. It has a place or `None` for each cell, so that no two
//! cells overlap. One cell after the other is inserted where the total displacement of all grows
//! least, and its neighbors make room. At the end cells of equal width exchange places. No contract
//! says how good a plan is: a floor tests each place that is requested of it.
//!
//! A `PackedSpan` has the cells of one free span, counted in sites from its first one. An
//! `Insertion` says what one more cell costs in a gap, and at which site; no contract says how good
//! it is. Whatever place is requested, `insert` keeps the cells within the span and apart. It
//! returns by how much their total displacement from their targets grows, which is exact.
//!
//! Used by `lf_repair_strategy` and `lf_improve_strategy`.
//!
//! Modules, in reading order:
//!
//! - `packed_cell`: a cell in a span
//! - `cost_curve`: the cost of moving one cell along its row
//! - `packed_insertion`: the cost of one more cell in a gap
//! - `push_apart`: cells moved apart between two sites
//! - `shifted_window`: the cells that make room for one more
//! - `packed_span`: the cells of one free span
//! - `free_rows`: the free spans of a team's rows
//! - `search_limits`: the limits of a search, and the cost of a displacement
//! - `plan_state`: the places of the cells so far
//! - `search`: the gap that costs least
//! - `order`: the order in which cells are placed
//! - `passes`: the first places of all cells, and passes that improve them
//! - `swaps`: exchanges of two cells' places
//! - `scored_plan`: a plan by one order of the cells, and its cost
//! - `plan`: the best of the plans tried
//! - `tall`: cells of several rows
//! - `scramble`: numbers that look random
//! - `window`: the cells around a cell
//! - `changes`: changed spans that may get their old cells back
//! - `recreate`: a plan improved by ruin and recreate
//!
//! From `crates/lf_repair_strategy/src/team_plan.rt`:
//!
//! ```
//! let options = steps_of(placement, team.team, cells.owns.len());
//! cells.starts = plan_cells(alloc, &free_rows, cells.cells.as_slice(), &options)?;
//! ```
#![tactic(auto)]

mod changes;
mod cost_curve;
mod free_rows;
mod order;
mod packed_cell;
mod packed_insertion;
mod packed_span;
mod passes;
mod plan;
mod plan_state;
mod push_apart;
mod recreate;
mod scored_plan;
mod scramble;
mod search;
mod search_limits;
mod shifted_window;
mod swaps;
mod tall;
mod window;

pub use cost_curve::{CostCurve, Least};
pub use free_rows::{FreeRows, FreeSpan, PlannerRow, RowKind, RowKinds};
pub use packed_cell::PackedCell;
pub use packed_insertion::{Insertion, RowGap, SearchEffort, SiteRange};
pub use packed_span::PackedSpan;
pub use plan::{PlanOptions, PlannedSite, PlannerCell, plan_cells};
pub use recreate::{RecreateOptions, recreate_plan};
