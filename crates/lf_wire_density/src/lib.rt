//! Measures how many pins of nets the fullest bins have: the pins of placed movable cells, with the
//! cells anywhere.
//!
//! A pin is at the point by which the wire length is measured: the middle of its box in the macro,
//! turned and moved with its cell. It counts once for each time that a net names it. The bins are
//! those of `lf_density`.
//!
//! Pins of the design and of FIXED components do not count. No command moves them, and a netlist does
//! not tell one from the other.
//!
//! Used by `lf_task_improve`.
//!
//! Modules, in reading order:
//!
//! - `pin_points`: the points of the pins of placed cells
//! - `pin_density`: the pin density of nets
//!
//! From `crates/lf_task_improve/src/improving.rt`:
//!
//! ```
//! pin_density_of_nets(alloc, floor.placement().frame(), &wires.netlist, &cells)
//! ```
#![tactic(auto)]

mod pin_density;
mod pin_points;

pub use pin_density::pin_density_of_nets;
