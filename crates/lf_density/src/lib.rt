//! Measures how full the core is: the utilization of the fullest bins.
//!
//! A *bin* is a square of five rows' height. The bins are a grid from the lower left corner of the
//! least box around all core rows (`BinGrid`). The *usable area* of a bin is that of the usable
//! spans of rows in it. Its *utilization* is the area of placed cells in it by its usable area, in
//! thousandths. A bin whose usable area is less than a fifth of its area does not count.
//!
//! `density_of` returns the mean utilization of the fullest 2, 5, 10 and 20 % of the bins that
//! count, as the average bin utilization of the ISPD 2015 contest.
//!
//! `pin_density_of` returns the mean number of pins of the fullest 2, 5, 10 and 20 % of all bins. A
//! pin is a point here, and the bins with the most points are the fullest.
//!
//! Used by `lf_describe`, `lf_wire_density`, `lf_task_reports`, `lf_task_repair` and `lf_task_improve`.
//!
//! Modules, in reading order:
//!
//! - `grid`: the bins of a frame
//! - `areas`: the areas of boxes in bins
//! - `fullest`: the utilization of the fullest bins
//! - `density`: the density of a design
//! - `pins`: the number of pins in the fullest bins
//!
//! From `crates/lf_describe/src/counts.rt`:
//!
//! ```
//! density_of(alloc, frame, index, boxes.as_slice())
//! ```
#![tactic(auto)]

mod areas;
mod density;
mod fullest;
mod grid;
mod pins;

pub use density::{Density, density_of};
pub use pins::{PinDensity, pin_density_of};
