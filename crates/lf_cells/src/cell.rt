//! A cell, its id, and the parts that no command changes.

use lf_floorplan::Place;
use lf_units::Name;

/// A movable cell of a team (LEF/DEF 5.8, DEF COMPONENTS).
#[derive(Drop)]
pub struct Cell {
    pub name: Name,
    /// The position of its macro in the frame.
    pub mac: usize,
    /// Its working place; `None` if it is unplaced.
    pub working: Option<Place>,
    /// Its committed place; `None` if it is unplaced.
    pub committed: Option<Place>,
}

/// A cell's team, and its position among the team's cells.
#[derive(Clone, Copy, Debug, PartialEq, Eq)]
pub struct CellId {
    pub team: u32,
    pub own: u32,
}

/// A cell's macro and working place.
#[derive(Clone, Copy)]
pub struct CellPlacement {
    /// The position of its macro in the frame.
    pub mac: usize,
    /// Its working place; `None` if it is unplaced.
    pub working: Option<Place>,
}

/// The parts of a cell that no command changes.
#[derive(Clone, Copy)]
pub struct CellFacts<'a> {
    pub name: &'a [u8],
    /// The position of its macro in the frame.
    pub mac: usize,
    /// The position of its entry among all COMPONENTS of the DEF text.
    pub component: usize,
}
