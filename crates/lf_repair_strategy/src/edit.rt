//! Edits that a repair requests of a floor for the cells of a team.

use lf_floorplan::Place;
use lf_units::Point;
use std::alloc::AllocError;

/// An edit of a cell.
#[derive(Clone, Copy)]
pub enum Edit {
    /// Unplaces it.
    Unplace,
    /// Places it here.
    Place(Place),
    /// Moves it to its best place for this target.
    Legalize(Point),
}

/// An edit of the team's cell at position `own`.
#[derive(Clone, Copy)]
pub struct CellEdit {
    pub own: u32,
    pub step: Edit,
}

/// Adds the edits of a cell's move. It is unplaced if it has a place, and placed at its new place if
/// there is one.
pub(crate) fn push_move(
    own: u32,
    now: Option<Place>,
    to: Option<Place>,
    unplaced: &mut Vec<CellEdit>,
    places: &mut Vec<CellEdit>,
) -> Result<(), AllocError> {
    if now.is_some() {
        unplaced.push(CellEdit {
            own,
            step: Edit::Unplace,
        })?;
    }
    if let Some(place) = to {
        places.push(CellEdit {
            own,
            step: Edit::Place(place),
        })?;
    }
    Ok(())
}
