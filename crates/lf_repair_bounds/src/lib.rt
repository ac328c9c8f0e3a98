//! Computes how far the cells of a design must move at least, if each had the floor to itself.
//!
//! A cell's *least displacement* is the distance from its place to the nearest place that is
//! allowed for it if no other cell is on the floor: it is legal there, and off soft blockages. The
//! distance is 0 if the cell's own place is one. Wherever the cells of a team move, one of them
//! moves at least as far as the largest of their least displacements. So no legalizer has a smaller
//! largest displacement.
//!
//! A macro is *impossible* in a team if no place is legal for a cell of it, even if no other cell
//! is on the floor. A design with such a cell cannot be legal. `impossible_macros` lists them, each
//! with the reason (`ImpossibleReason`).
//!
//! The *gap* of a cell is the width of the widest free run of sites in the rows near a given place, as
//! the one from which the cell was to move. `widest_gaps` returns it for the cells of a team, among the
//! team's working places.
//!
//! The other searches run on a floor without cells (`EmptyFloor`), with the search for best places.
//! The crate also copies frames (`clone_frame`).
//!
//! Used by `lf_repair_team`, `lf_task_reports`, `lf_task_files` and `lf_task_repair`.
//!
//! Modules, in reading order:
//!
//! - `frame_copy`: copies of frames
//! - `empty_floor`: a floor without cells
//! - `nearest_place`: the nearest place of a cell alone
//! - `min_displacement`: least displacements, and the largest of each team
//! - `reasons`: why no place can hold a macro
//! - `impossible`: the macros that no place can hold
//! - `site_runs`: the longest run of sites between blocked sites
//! - `near_runs`: the widest of the runs in rows near a point
//! - `blocked_boxes`: the boxes that block sites for a team
//! - `free_runs`: the widest free run of sites in each strip of a team
//! - `gaps`: the widest free runs of sites near cells
//! - `laws`: what the numbers mean for any repair
//!
//! From `crates/lf_task_files/src/measured.rt`:
//!
//! ```
//! let least = max_min_displacements(alloc, loaded)?;
//! let impossible = impossible_macros(alloc, loaded)?;
//! ```
#![tactic(auto)]

mod blocked_boxes;
mod empty_floor;
mod frame_copy;
mod free_runs;
mod gaps;
mod impossible;
mod laws;
mod min_displacement;
mod near_runs;
mod nearest_place;
mod reasons;
mod site_runs;

pub use frame_copy::clone_frame;
pub use gaps::widest_gaps;
pub use impossible::{impossible_macros, is_listed};
pub use laws::no_repair_does_better;
pub use min_displacement::max_min_displacements;
pub use reasons::{ImpossibleMacro, ImpossibleReason};
