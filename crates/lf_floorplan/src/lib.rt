//! The floor plan of a design: the frame, which no command changes, the cells, and their boxes.
//!
//! Loading checks a design once, and the types keep the result as clauses of their fields. Code
//! that holds a `Frame` or a `Loaded` need not check it again. The range of DEF is that of its
//! coordinates, -2147483647 to 2147483647 database units. The range of LEF is a million microns on
//! either side of 0, in millionths of a micron. A *team* is a fence, or the ground team `-`, which
//! has all ground outside the fences.
//!
//! A contract sees `LoadedCells` as the list of the cells with their names, and a `PackedPlace` as
//! an optional place. `FrameQuery` has the questions that legality asks of a frame, independent of
//! the way they are computed.
//!
//! Used by most other crates.
//!
//! Modules, in reading order:
//!
//! - `sites`: placement sites
//! - `macros`: library cells
//! - `place`: the place of a cell
//! - `packed_place`: an optional place in 12 bytes
//! - `limits`: the limits of a design
//! - `parts`: rows, fences and the header of a frame
//! - `frame`: the frame, with the facts that loading has checked
//! - `measure`: the extent of a row in database units
//! - `sizes`: sizes in database units, and the boxes of macros
//! - `design`: the macros of a frame's cells
//! - `cells`: the list of movable cells
//! - `loaded`: a loaded design
//! - `frame_query`: the questions that legality asks of a frame
//! - `laws`: laws on boxes, ground and rows
//!
//! From `crates/lf_rules/src/boxes.rt`:
//!
//! ```
//! macro_box(&mac.size, frame.header.units, place)
//! ```
#![tactic(auto)]

mod cells;
mod design;
mod frame;
mod frame_query;
mod laws;
mod limits;
mod loaded;
mod macros;
mod measure;
mod packed_place;
mod parts;
mod place;
mod sites;
mod sizes;

pub use cells::{CellParts, CellRef, LoadedCells, UnnamedCell};
pub use design::{is_sized, mac_at};
pub use frame::Frame;
pub use frame_query::FrameQuery;
pub use laws::{
    bottom_row_is_unique, cell_is_sized, obstacles_are_bounded, point_has_one_team,
    row_at_is_unique, teams_stay_apart, turning_twice_is_identity,
};
pub use limits::Limits;
pub use loaded::{Loaded, LoadedCell};
pub use macros::Macro;
pub use packed_place::PackedPlace;
pub use parts::{Header, Row, Team};
pub use place::{Place, same_place};
pub use sites::Site;
pub use sizes::{macro_box, size_in_units};
