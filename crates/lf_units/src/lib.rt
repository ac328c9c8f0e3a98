//! Numbers of LEF and DEF texts, spans, points, rectangles, boxes in a tree, and the lists that
//! public types hold.
//!
//! Lengths of LEF are in whole millionths of a micron, coordinates of DEF in whole database units.
//! Nothing is rounded. Contracts see a `Sequence` as the list of its elements, and a `Name` as the
//! list of its bytes.
//!
//! A span holds the whole numbers from `lo` on and below `hi`. It is *filled* if it holds a number.
//! A list *rises* if its spans are filled and each ends no later than the next ones begin. A list
//! is in order of `lo` if no span begins before an earlier one; its spans may overlap. The
//! functions on lists return rising lists. A contract specifies the result by the filled spans that
//! lie in one of its spans. `Err` only if an allocation fails.
//!
//! A contract sees an `RTree` as the plain list of its boxes (`Placed`): rectangles in database
//! units, each with a number. A tree does not change once it is built. Numbers may repeat, and a
//! rectangle without points is never found.
//!
//! Used by most other crates.
//!
//! Modules, in reading order:
//!
//! - `span`: spans, and the trait of values that occupy a span
//! - `meet`: the intersection of lists
//! - `minus`: the free spans of a range, and the difference of lists
//! - `join`: the union of spans
//! - `window`: the free spans within a window
//! - `grid`: grids of sites, and the grid number nearest to a target
//! - `geometry`: points and rectangles
//! - `number`: decimal numbers of texts, and lengths in database units
//! - `sequence`: lists and names as public types hold them
//! - `placed`: a box with the number of its owner
//! - `bound`: the bound of several boxes
//! - `sort`: the order of boxes in a tree
//! - `bounds_above`: the bounds of a tree, built from ordered boxes
//! - `overlapping`: the search for all boxes that overlap a rectangle
//! - `least_overlapping`: the search for the least number of a box that overlaps a rectangle
//! - `tree`: the tree
//!
//! From `crates/lf_tests_basics/src/units.rt`:
//!
//! ```
//! assert_eq!(rt; micros_to_dbu(200_000, 1000), Some(200));
//! assert_eq!(rt; micros_to_dbu(190_500, 1000), None);
//! ```
#![tactic(auto)]

mod bound;
mod bounds_above;
mod geometry;
mod grid;
mod join;
mod least_overlapping;
mod meet;
mod minus;
mod number;
mod overlapping;
mod placed;
mod sequence;
mod sort;
mod span;
mod tree;
mod window;

pub use geometry::{Point, Rect};
pub use grid::{SiteGrid, nearest_fit, nearest_on_grid};
pub use join::spans_join;
pub use meet::{spans_meet, spans_meet_all};
pub use minus::{free_spans_in, spans_minus};
pub use number::{NumberFault, micros_to_dbu, read_fixed};
pub use placed::Placed;
pub use sequence::{Name, Sequence};
pub use span::{HasSpan, Span};
pub use tree::RTree;
pub use window::free_in;
