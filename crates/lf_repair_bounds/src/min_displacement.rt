//! The least displacements of cells, and the largest of them in each team.

ghost use Rattle.std.specs.Prelude.{◌≡◌, ◌+◌, IfOk, Some, length, option_map, replicate};
ghost use Rattle.lf_floorplan.specs.LoadedCells.{borrowed_cell};
ghost use Rattle.lf_rules.specs.Choice.{distance, spot_of};
ghost use Rattle.lf_repair_bounds.specs.MinDisplacements.{AreMaxMinDisplacements, IsMinDisplacementOrNone, corner as corner_of};
ghost use Rattle.lf_repair_bounds.specs.EmptyFloors.{IsRaised};

use crate::empty_floor::empty_floor;
use crate::nearest_place::{LoneCell, is_legal_alone, nearest};
use lf_floorplan::{Loaded, Place};
use lf_units::Point;
use std::alloc::{AllocError, Global};

/// The corner of the place.
pub(crate) fn corner(place: &Place) -> Point
    ensures { result ≡ corner_of place.now }
{
    Point {
        x: i64::from(place.x),
        y: i64::from(place.y),
    }
}

/// The distance from a place to another one.
fn displacement(from: &Place, to: &Place) -> u64
    ensures { result ≡ distance (corner_of from.now) (spot_of to.now) }
{
    u64::from(to.x.abs_diff(from.x)) + u64::from(to.y.abs_diff(from.y))
}

/// The distance to the place that was found. `None` if no place was found.
fn displacement_to(loaded_place: &Place, found: &Option<Place>) -> Option<u64>
    ensures { result ≡ option_map (λ place. distance (corner_of loaded_place.now) (spot_of place)) found.now }
{
    match found {
        Some(place) => Some(displacement(loaded_place, place)),
        None => None,
    }
}

/// The least displacement of a cell at this place. `None` if no place is allowed for it.
fn min_displacement_from(
    alloc: Global,
    lone: &LoneCell<'_>,
    loaded_place: &Place,
) -> Result<Option<u64>, AllocError>
    requires { lone.now.cell.now.place ≡ Some loaded_place.now }
    ensures { IfOk result (IsMinDisplacementOrNone lone.now.frame.now (borrowed_cell lone.now.cell.now)) }
{
    if is_legal_alone(lone, loaded_place) {
        return Ok(Some(0));
    }
    let from = corner(loaded_place);
    let found = nearest(alloc, lone, &from)?;
    Ok(displacement_to(loaded_place, &found))
}

/// The cell's least displacement. `None` if it is unplaced, or no place is allowed for it.
fn min_displacement(alloc: Global, lone: &LoneCell<'_>) -> Result<Option<u64>, AllocError>
    ensures { IfOk result (IsMinDisplacementOrNone lone.now.frame.now (borrowed_cell lone.now.cell.now)) }
{
    match lone.cell.place {
        Some(loaded_place) => min_displacement_from(alloc, lone, &loaded_place),
        None => Ok(None),
    }
}

/// Raises the team's number to the displacement, if that is larger.
fn raise(largest: &mut Vec<u64>, team: usize, way: Option<u64>)
    ensures { IsRaised team way largest.old.items largest.new.items }
{
    let Some(way) = way else {
        return;
    };
    if team < largest.len() {
        largest[team] = largest[team].max(way);
    }
}

/// A list of `count` zeros.
fn zeros(alloc: Global, count: usize) -> Result<Vec<u64>, AllocError>
    ensures { IfOk result (λ list. list.items ≡ replicate count 0) }
{
    vec![in alloc; 0; count]
}

/// For each team, by its number, the largest of the least displacements of its cells, in database
/// units. 0 if no cell has one. `Err` if an allocation fails.
pub fn max_min_displacements(alloc: Global, loaded: &Loaded) -> Result<Vec<u64>, AllocError>
    ensures many { IfOk result (λ list. length list.items ≡ length loaded.now.frame.teams + 1) }
    ensures each { IfOk result (λ list. AreMaxMinDisplacements loaded.now.frame loaded.now.cells list.items) }
{
    let bare = empty_floor(alloc, loaded)?;
    let mut largest = zeros(alloc, loaded.frame.teams.len() + 1)?;
    for at in 0..loaded.cells.len() {
        let cell = loaded.cells.get(at).unwrap();
        let lone = LoneCell {
            bare: &bare,
            frame: &loaded.frame,
            cell: &cell,
        };
        let way = min_displacement(alloc, &lone)?;
        raise(&mut largest, cell.team, way);
    }
    Ok(largest)
}
