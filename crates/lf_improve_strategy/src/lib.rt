//! Searches new places of a team's cells that make its nets shorter: exchanges, insertions and
//! flips on its free sites.
//!
//! The search has no floor. A board is made of free spans of rows, and of cells of one row's height
//! at their places; no two cells overlap on it at any time. The length of a net is half the
//! perimeter of the least box around its pins, in half database units. `make_moves` moves cells
//! only if the nets grow by less than a limit. Neither it nor a contract tests whether the sites of
//! the new places are free: `improved_places` makes only such moves. Its result never has longer
//! nets.
//!
//! `Wires` has no nets of more than 64 pins. Each net is measured by its pins alone: no box of a
//! net is kept, since most pins are at an edge of it.
//!
//! `improvement_edits` reads a placement and a netlist. Cells of several rows exchange places with
//! others over as many rows and sites. Then the cells of one row's height that are on free sites of
//! the team move. All other cells keep their places, and their sites are not free. The moves are
//! ordered so that few cells are unplaced. Nothing relies on these edits: a floor tests each place
//! that is requested of it.
//!
//! Used by `lf_improve_team`.
//!
//! Modules, in reading order:
//!
//! - `cells`: cells, their places, and the orientations that they may have
//! - `nets_on_board`: nets, as the caller lists them
//! - `limits`: numbers limited to the range of their types
//! - `runs`: runs of free sites, and the levels that they form
//! - `bins`: square bins, and the area that cells may still take in each
//! - `board`: the cell on each site, and the place of each cell
//! - `wires`: the nets that the search looks at, with the present points of their pins
//! - `change`: the exact change of the length if a few cells move
//! - `wanted`: the range in which a cell costs least
//! - `target`: a cell for which a better place is looked for, and the runs in which it is tried
//! - `scratch`: lists that the search of each cell uses again
//! - `exchange`: a cell moves to free sites, or exchanges places with another one
//! - `equal_cells`: two cells of several rows exchange places
//! - `insertion`: a cell moves between two others, which make room
//! - `flips`: a cell is mirrored at its place
//! - `draws`: random numbers, the same on each run
//! - `annealing`: random moves, of which those that make nets longer are made less and less often
//! - `rounds`: rounds of exchanges, insertions and flips over all cells, and then annealing
//! - `movable`: the cells that may move, and their free sites
//! - `board_nets`: the nets of a team, for the search
//! - `density`: the bins that must not become too full
//! - `improvement`: the edits of a team
//!
//! From `crates/lf_improve_team/src/team.rt`:
//!
//! ```
//! improvement_edits(alloc, placement, &team, attempt.wires, options, attempt.search)
//! ```
#![tactic(auto)]

mod annealing;
mod bins;
mod board;
mod board_nets;
mod cells;
mod change;
mod density;
mod draws;
mod equal_cells;
mod exchange;
mod flips;
mod improvement;
mod insertion;
mod limits;
mod movable;
mod nets_on_board;
mod rounds;
mod runs;
mod scratch;
mod target;
mod wanted;
mod wires;

pub use bins::{BinBox, Bins};
pub use board::{Board, SitePlace};
pub use cells::{CellPlace, ImprovableCell, Orientations, RowOrientations};
pub use change::SiteMove;
pub use improvement::{WireNets, improvement_edits};
pub use lf_wire_length::TeamNets;
pub use nets_on_board::{BoardNets, BoardPin, BoardPoint, OrientedOffsets};
pub use rounds::{ImproveOptions, ImproveSearch, improved_places};
pub use runs::{Level, SiteRun, SiteRuns};
pub use wanted::{CellNets, WantedRange};
pub use wires::Wires;
