//! Holds the frame of a design and the cells of all teams, with the marks of placed cells kept in
//! step.
//!
//! A `Placement` has the frame, the cells of all teams, and an occupancy that holds each cell's box
//! at its working place. Contracts see these three. Places *fit* a team (`Fits`) if each strip of
//! the team, widened by 16 core sites on its left and right, has room for the boxes of its cells at
//! these places that share a point with it. The working places of each team fit, and so do its
//! committed places. No strip ever has less room. So a team can return to earlier places without
//! allocation.
//!
//! A placement guarantees that each cell's macro is the frame's, of whole size, and that no team
//! has more than 4,000,000 cells. A change tests its moves and makes room for them (`reserve`).
//! Then it makes the moves (`apply`), which cannot fail, and can undo them (`undo_moves`).
//!
//! Room for earlier places of a team is made without moving a cell: `reserve_undo` counts boxes in
//! each strip while it undoes moves on a list of places.
//!
//! Used by most other crates.
//!
//! Modules, in reading order:
//!
//! - `sized_cells`: a frame and cells with its macros
//! - `table_sync`: moves in the table of cells
//! - `occupancy_sync`: moved cells removed from the strips and inserted again
//! - `apply`: moves in the table and in the strips
//! - `capacity`: room for moves
//! - `counted_capacity`: room for places, found by counting
//! - `undo_capacity`: room for the places that undo entries restore
//! - `build`: the tables of a loaded design
//! - `placement`: the placement and its operations
//! - `laws`: what stays true through changes
//!
//! From `crates/lf_tests_floor/src/strips.rt`:
//!
//! ```
//! moves.push(Move::new(id.own, to))?;
//! placement.reserve(alloc, 0, moves.as_slice())?;
//! placement.apply(0, &mut moves, 0);
//! ```
#![tactic(auto)]

mod apply;
mod build;
mod capacity;
mod counted_capacity;
mod laws;
mod occupancy_sync;
mod placement;
mod sized_cells;
mod table_sync;
mod undo_capacity;

pub use laws::{fitting_is_stable, frame_rule_is_stable};
pub use placement::Placement;
