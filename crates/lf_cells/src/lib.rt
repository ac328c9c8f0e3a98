//! The cells of all teams of a loaded design, in one table with a lookup by name.
//!
//! A cell has a *working* place, which commands change, and a *committed* place; each is `None` if
//! the cell is unplaced. A `CellId` identifies a cell: its team, and its position among the team's
//! cells in loading order, the order of the DEF text.
//!
//! A contract sees a `CellTable` as two lists for each team, in loading order: its cells, and the
//! positions of their entries among all COMPONENTS. `build` sets the cells of a table; afterwards
//! only places change.
//!
//! Used by most other crates.
//!
//! Modules, in reading order:
//!
//! - `cell`: a cell, its id, and the parts that no command changes
//! - `ids`: the ids of one team's cells
//! - `records`: the cells of one team, without their names
//! - `table_parts`: the lists of a table, and how a loaded design fills them
//! - `table`: the table of all teams' cells
//!
//! From `crates/lf_tests_floor/src/cells.rt`:
//!
//! ```
//! let Some(second) = table.find_own(0, b"a2") else {
//!     return false;
//! };
//! let place = Place::new(400, 0, Orient::N);
//! table.set_working(second, Some(place));
//! ```
#![tactic(auto)]

mod cell;
mod ids;
mod records;
mod table;
mod table_parts;

pub use cell::{Cell, CellFacts, CellId, CellPlacement};
pub use table::CellTable;
