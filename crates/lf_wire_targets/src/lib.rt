//! Targets near their nets for cells without a place.
//!
//! A net is shortest while a cell's pin is in the box around the net's other pins. So all nets of a cell
//! are shortest if it is between the two middle ones of all sides of these boxes, along x and along y.
//! The middle between the two is the target. Pins without a place do not count, so a cell whose nets lead
//! to no place has no target. Nets of more than 100 pins are left out: they say little about the place of
//! one of their cells.
//!
//! Targets only advise, so no contract says where they are.
//!
//! Used by `lf_task_repair`.
//!
//! Modules, in reading order:
//!
//! - `sides`: the sides of the boxes around the other pins of a cell's nets
//! - `targets`: the targets of all teams
//!
//! From `crates/lf_task_repair/src/opening.rt`:
//!
//! ```
//! let targets = TeamTargets::near_nets(alloc, &netlist, floor.placement().cells())?;
//! ```
#![tactic(auto)]

mod sides;
mod targets;

pub use targets::TeamTargets;
