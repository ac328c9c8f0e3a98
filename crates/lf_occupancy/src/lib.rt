//! Records which cells of each team are placed where in the segments of a frame, and finds free
//! spans.
//!
//! A segment's area, with its row and team, is a *strip*. A strip is *widened* by the greatest
//! padding, 16 core sites, on its left and on its right. It has a *mark* for each cell of its team
//! whose box has points in the widened strip. A mark is the cell's position in its team, with the
//! left edge and the width of that part of its box. The part itself is an *entry* of the strip.
//!
//! Contracts see of an `Occupancy` the frame's index, the width of a core site in database units,
//! and the marks of each strip. They say which boxes of all teams' cells the strips hold
//! (`MarksBoxes`). The boxes follow from the places and macros of the cells. `with_boxes` brings
//! both together as an `OccupancyView`. Contracts see of it the index, the width of a core site,
//! the boxes of each team, and for each strip how many boxes it has room for.
//!
//! A `StripCounts` counts boxes for each strip, as if some cells were at other places.
//! `reserve_counted` makes room for the counted boxes and moves no cell.
//!
//! Lists of free spans rise: each span holds a number, and ends no later than the next ones begin.
//!
//! Used by `lf_legalize`, `lf_placement`, `lf_repair_bounds`, `lf_floor` and `lf_floor_verbs`.
//!
//! Modules, in reading order:
//!
//! - `free_spans`: the free parts of a range between taken spans
//! - `widened`: the widened strips near a rectangle
//! - `boxes`: the boxes of a table's cells
//! - `strip_marks`: the marks of one strip, and what they leave free
//! - `marked_strips`: strips together with their marks and the boxes that they mark
//! - `marking`: marks of a cell added to and removed from all strips that its box reaches
//! - `queries`: overlaps and free spans in several strips
//! - `nearest_gap`: the nearest place between the marks of strips
//! - `apart`: the cells of a row that keep the padding from all others
//! - `build`: the marks of all strips, made from a table of cells
//! - `strip_counts`: counts of boxes for each strip
//! - `occupancy_view`: the strips together with the boxes that they mark
//! - `occupancy`: the strips of a frame with their marks
//! - `laws`: laws on strips
//!
//! From `crates/lf_tests_floor/src/strips.rt`:
//!
//! ```
//! let window = Span { lo: 200, hi: 1000 };
//! let padding = padding_of(strips, 100);
//! let near = strips.free_in_row(alloc, 0, *a2, &window, padding)?;
//! ```
#![tactic(auto)]

mod apart;
mod boxes;
mod build;
mod free_spans;
mod laws;
mod marked_strips;
mod marking;
mod nearest_gap;
mod occupancy;
mod occupancy_view;
mod queries;
mod strip_counts;
mod strip_marks;
mod widened;

pub use build::team_count;
pub use laws::{strips_cover, widened_strips_cover};
pub use occupancy::Occupancy;
pub use occupancy_view::OccupancyView;
pub use strip_counts::StripCounts;
