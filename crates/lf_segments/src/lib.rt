//! Segments: the maximal spans of the rows of a frame that a team may use, and the index of a frame
//! by position.
//!
//! A team may use a number of a row if the row there, over its whole height, is the team's ground
//! and in no obstacle.
//!
//! - `Segments`: a list of row, team and x span, in the order of row, team and x. A contract sees
//! the list.
//! - *Land*: the segments as if there were no obstacles.
//! - `RowStarts`: where each row's segments begin in the list.
//! - *Strips*: the areas of the segments, one for each.
//! - *Soft spans* of a segment: the maximal spans of its numbers at which a point of its strip lies
//! in a soft blockage.
//! - `RowsByY`: the rows in order of y, then x.
//! - `FrameIndex`: these, the segments and the land of one frame. A contract sees the lists.
//! - `IndexedFrame`: a frame together with its `FrameIndex`. A contract sees the frame. It
//! implements `FrameQuery` of `lf_floorplan` by binary search, without allocating.
//!
//! Used by most other crates.
//!
//! Modules, in reading order:
//!
//! - `segment`: a segment
//! - `obstacle_boxes`: the fences and obstacles of a frame in a tree
//! - `cover`: the parts of a range that boxes leave free, and those they cover over a height
//! - `cut_row`: the segments of one row
//! - `row_starts`: where each row's segments begin in the list
//! - `segment_runs`: the segments of one row and team
//! - `segments`: all segments of a frame
//! - `strip`: a strip
//! - `extent`: the rectangle that holds all rows of a frame
//! - `rows_by_y`: the rows of a frame in order of y
//! - `row_lookup`: the row at a point, and whether a box on rows lies in segments
//! - `team_starts`: where the strips of each team begin in each row
//! - `strips`: the strips of segments, and the search for them
//! - `soft_spans`: the spans of segments under soft blockages
//! - `frame_index`: the index of a frame
//! - `indexed_frame`: a frame together with its index
//! - `index_laws`: laws on segments and on rows in order of y
//!
//! From `crates/lf_tests_floor/src/segments.rt`:
//!
//! ```
//! let segments = Segments::cut(alloc, frame)?;
//! Ok(
//!     are(segments.of_row(0, 0), &[(0, 0, 0, 4000)])
//!         && are(segments.of_row(1, 0), &[(1, 0, 0, 500)])
//!         && are(segments.of_row(1, 2), &[(1, 2, 4000, 6000)]),
//! )
//! ```
#![tactic(auto)]

mod cover;
mod cut_row;
mod extent;
mod frame_index;
mod index_laws;
mod indexed_frame;
mod obstacle_boxes;
mod row_lookup;
mod row_starts;
mod rows_by_y;
mod segment;
mod segment_runs;
mod segments;
mod soft_spans;
mod strip;
mod strips;
mod team_starts;

pub use cover::{span_of, spans_of};
pub use frame_index::FrameIndex;
pub use index_laws::{cut_is_unique, lies_in_segments, runs_have_rows};
pub use indexed_frame::IndexedFrame;
pub use obstacle_boxes::push_placed;
pub use row_starts::{RowRange, RowStarts};
pub use rows_by_y::{RowEntry, RowsByY};
pub use segment::Segment;
pub use segments::{Segments, SegmentsAndLand, segments_and_land};
pub use strip::Strip;
pub use strips::StripRange;
