//! The legality of a place: eight rules, defined by points, and the first rule that is broken.
//!
//! A place is *team-legal* for a cell of a team if it keeps all eight rules (`Rule`). A *verdict*
//! is the first broken rule; if this is Overlap, it names the first other cell that overlaps. The
//! verdict of a team-legal place is `None`. A *legalizer* is any pair of functions that give
//! verdicts and best places.
//!
//! A best place is team-legal, overlaps no soft blockage, and has the least *key*: the distance
//! from the target along x plus along y, then y, then x, then the orientation in the order N, S,
//! FN, FS. To *tidy* a team is to move, in loading order, each cell that is unplaced or breaks a
//! rule to its best place. A design is fully legal if every cell is placed and keeps rules 1 to 7,
//! and no two cells share a point.
//!
//! Used by most other crates.
//!
//! Modules, in reading order:
//!
//! - `rule`: the eight rules, and a broken rule
//! - `padding`: the padding of a team
//! - `boxes`: the box of a cell
//! - `cover`: whether rectangles together cover a box
//! - `rows`: the rules on rows
//! - `overlap`: the rules on ground, obstacles and other cells
//! - `soft`: soft blockages
//! - `frame_scan`: a frame without an index
//! - `verdict`: the first broken rule
//! - `report_types`: the parts of a report
//! - `laws`: laws of legal places, best places and tidying
//!
//! From `crates/lf_placement/src/placement.rt`:
//!
//! ```
//! let mac = &self.frame.macros.as_slice()[cell_placement.mac];
//! broken_frame_rule(&self.indexed_frame(), id.team as usize, mac, place)
//! ```
#![tactic(auto)]

mod boxes;
mod cover;
mod frame_scan;
mod laws;
mod overlap;
mod padding;
mod report_types;
mod rows;
mod rule;
mod soft;
mod verdict;

pub use boxes::{box_of, box_with_points, padded_box};
pub use cover::is_covered;
pub use frame_scan::FrameScan;
pub use laws::{
    best_place_is_unique, key_is_total, keys_differ, legal_in_range, legal_is_upright,
    legalizer_exists, less_padding_keeps_legal, padding_is_symmetric, teams_make_legal,
    tidied_is_legal, tidied_keeps_cells, tidy_keeps_legal, verdict_exists, verdict_is_unique,
};
pub use lf_floorplan::Place;
pub use lf_units::Placed;
pub use padding::{Padding, widen};
pub use report_types::{Listed, Report, Violation};
pub use rows::{height_in_sites, is_bottom_row, supports};
pub use rule::{Broken, Rule};
pub use soft::overlaps_soft;
pub use verdict::{broken_frame_rule, first_broken, is_on_rail, is_oriented, overlap_of};
