//! Applies and reverts moves of a team's cells in the cell table alone.

ghost use Rattle.std.specs.Prelude.{◌≡◌, List, drop, take};
ghost use Rattle.lf_cells.specs.declared.cell.Cell.{Cell};
ghost use Rattle.lf_cells.specs.Cells.{cells_of, moved, working_at};
ghost use Rattle.lf_placement.specs.Placements.{HaveMoved, OtherCellsStay, moves_applied};
ghost use Rattle.lf_placement.specs.Steps.{moves_reverted, moved_positions};

use lf_cells::{CellId, CellTable};
use lf_floorplan::Place;
use lf_undo::Moves;

/// The working place of the team's cell at position `own`. `None` if it is unplaced, or there is no
/// such cell.
fn place_at(cells: &CellTable, team: usize, own: u32) -> Option<Place>
    ensures { result ≡ working_at (cells_of cells.now team) own }
{
    cells.working(cells.cell_of(team, own as usize)?)
}

/// Changes the working place of one cell, and nothing else.
fn set_place(cells: &mut CellTable, id: CellId, place: Option<Place>)
    ensures own { cells_of cells.new id.team ≡ moved (cells_of cells.old id.team) id.own place }
    ensures others { OtherCellsStay id.team cells.old cells.new }
{
    cells.set_working(id, place);
}

/// Changes the working place of the team's cell at position `own`. Does nothing if there is no such
/// cell.
fn put_at(cells: &mut CellTable, team: usize, own: u32, place: Option<Place>)
    ensures own { cells_of cells.new team ≡ moved (cells_of cells.old team) own place }
    ensures others { OtherCellsStay team cells.old cells.new }
{
    if let Some(id) = cells.cell_of(team, own as usize) {
        set_place(cells, id, place);
    }
}

/// Makes the moves from index `from` on, in their order, and stores in each the previous place of
/// its cell.
pub(crate) fn apply_in_table(cells: &mut CellTable, team: usize, moves: &mut Moves, from: usize)
    ensures own { cells_of cells.new team ≡ moves_applied (drop from moves.old) (cells_of cells.old team) }
    ensures moved { (before : List Cell) → HaveMoved before (take from moves.old) (cells_of cells.old team)
        → HaveMoved before moves.new (cells_of cells.new team) }
    ensures owns { moved_positions moves.new ≡ moved_positions moves.old }
    ensures others { OtherCellsStay team cells.old cells.new }
{
    for at in from..moves.as_slice().len() {
        let next = moves.as_slice()[at];
        let was = place_at(cells, team, next.own);
        put_at(cells, team, next.own, next.place.place());
        moves.replace(at, was);
    }
}

/// Reverts the moves, the last one first.
pub(crate) fn revert_in_table(cells: &mut CellTable, team: usize, moves: &Moves)
    ensures own { cells_of cells.new team ≡ moves_reverted moves.now (cells_of cells.old team) }
    ensures others { OtherCellsStay team cells.old cells.new }
{
    let moves = moves.as_slice();
    for at in (0..moves.len()).rev() {
        let last = moves[at];
        put_at(cells, team, last.own, last.place.place());
    }
}
