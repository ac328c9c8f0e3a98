//! A loaded design.

ghost use Rattle.std.specs.Prelude.{◌≤◌, All, length};
ghost use Rattle.lf_floorplan.specs.Design.{IsCell, CellsNamed, ComponentsRise};

use crate::cells::LoadedCells;
use crate::frame::Frame;
use crate::place::Place;
use lf_units::Name;

/// A movable cell as contracts see it: a component of the DEF text that is neither FIXED nor COVER.
#[derive(Drop)]
pub struct LoadedCell {
    pub name: Name,
    /// The number of its team: a fence's position in the frame, or the number of fences for `-`.
    pub team: usize,
    /// The position of its macro in the frame.
    pub mac: usize,
    /// Its place in the DEF text; `None` if it is unplaced there.
    pub place: Option<Place>,
    /// The position of its entry among all COMPONENTS of the DEF text.
    pub component: usize,
}

/// A frame and its movable cells, in loading order: the order of the DEF text.
///
/// There are at most 4,000,000 cells. Each has a team and a macro of the frame; the macro's size is
/// whole in database units and above 0. Each has a name of at most 1,024 bytes from 33 to 126, and
/// all names differ. The positions among COMPONENTS rise.
#[derive(Drop)]
pub struct Loaded {
    pub frame: Frame,
    pub cells: LoadedCells,
    pub ghost few_cells: { length cells ≤ 4000000 },
    pub ghost cells_known: { All (IsCell frame) cells },
    pub ghost names_differ: { CellsNamed cells },
    pub ghost components_rise: { ComponentsRise cells },
}
