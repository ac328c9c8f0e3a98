//! Finds the best place of a cell: of all its allowed places, the one with the least key.
//!
//! A place is *allowed* for a cell if it is team-legal, under its team's padding and with the
//! team's other placed cells, and the cell's box there shares no point with a soft blockage
//! (`IsAllowedPlace`). The *key* of a place for a target (X, Y) is its distance |x - X| + |y - Y|,
//! then y, then x, then its orientation in the order N, S, FN, FS. No two allowed places of a cell
//! have the same key. So all searches of the crate return the same place (`Legalizer`), whatever
//! they visit.
//!
//! `IndexSeeker` visits the rows around the target, with the free spans that an occupancy finds.
//! `PlainSeeker` and `best_place` try each orientation on each site of every row. Faster searches
//! are compared with them.
//!
//! Used by most other crates.
//!
//! Modules, in reading order:
//!
//! - `key`: the key of a place
//! - `anchors`: the target of a team's unplaced cells
//! - `neighbours`: the boxes of a team's other placed cells
//! - `search`: the arguments of the plain search
//! - `plain_search`: the search over every site of every row
//! - `extent`: the point of a rectangle that is nearest to a target
//! - `limits`: how far from the target a better place can be
//! - `occupied_frame`: a frame, cells, and the occupancy with these cells
//! - `row_search`: the arguments of the search by rows
//! - `open_spans`: free spans of a row off soft blockages
//! - `levels`: free spans on the rows that a cell covers
//! - `on_row`: the best place with a given bottom row
//! - `nearest`: the best place on the rows around the target
//! - `seeker`: the trait of searches, and the plain one
//! - `index_seeker`: the search by rows as a seeker
//!
//! From `crates/lf_repair_bounds/src/nearest_place.rt`:
//!
//! ```
//! let mac = mac_at(frame, cell.mac);
//! Ok(best_place(frame, cell.team, mac, &[], target, Padding::none()))
//! ```
#![tactic(auto)]

mod anchors;
mod extent;
mod index_seeker;
mod key;
mod levels;
mod limits;
mod nearest;
mod neighbours;
mod occupied_frame;
mod on_row;
mod open_spans;
mod plain_search;
mod row_search;
mod search;
mod seeker;

pub use anchors::anchor;
pub use index_seeker::IndexSeeker;
pub use key::has_lesser_key;
pub use neighbours::other_boxes;
pub use plain_search::best_place;
pub use seeker::{PlainSeeker, Seeker};
