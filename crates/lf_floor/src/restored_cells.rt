//! The cells of all teams are placed at their saved places.

ghost use Rattle.std.specs.Prelude.{◌≡◌, IfOk, length, map};
ghost use Rattle.lf_cells.specs.Cells.{as_committed, cells_of, moved};
ghost use Rattle.lf_placement.specs.Placements.{OtherCellsStay, SameButPlaces, working_places_of};
ghost use Rattle.lf_state_text.specs.Saved.{team_view, team_views};
ghost use Rattle.lf_floor.specs.Saved.{map_two, restored_cell};
ghost use Rattle.lf_floor.specs.Placed.{AreAsMany, ArePlaced, without_cells};

use lf_cells::{CellId, CellTable};
use lf_floorplan::{Place, same_place};
use lf_placement::Placement;
use lf_state_text::{SavedCell, SavedTeamRow};
use std::alloc::{AllocError, Global};
use std::mem;

/// Sets the working place of the cell, and changes nothing else. Changes nothing if there is no such
/// cell.
fn put_cell(cells: &mut CellTable, id: CellId, place: Option<Place>)
    ensures own { cells_of cells.new id.team ≡ moved (cells_of cells.old id.team) id.own place }
    ensures others { OtherCellsStay id.team cells.old cells.new }
{
    cells.set_working(id, place);
}

/// Sets the working place of the team's cell at that position, and changes nothing else. Changes
/// nothing if there is no such cell.
fn put_at(cells: &mut CellTable, team: usize, own: usize, place: Option<Place>)
    ensures own { cells_of cells.new team ≡ moved (cells_of cells.old team) own place }
    ensures others { OtherCellsStay team cells.old cells.new }
{
    match cells.cell_of(team, own) {
        Some(id) => put_cell(cells, id, place),
        None => {}
    }
}

/// Sets the working places of the team's cells to the saved committed places. There is a saved cell
/// for each cell.
fn committed_are_in_place(cells: &mut CellTable, team: usize, saved: &[SavedCell])
    requires { length saved.now ≡ length (cells_of cells.old team) }
    ensures places { working_places_of (cells_of cells.new team) ≡ map (λ c. c.committed) saved.now }
    ensures same { SameButPlaces (cells_of cells.old team) (cells_of cells.new team) }
    ensures others { OtherCellsStay team cells.old cells.new }
{
    for own in 0..saved.len() {
        put_at(cells, team, own, saved[own].committed.place());
    }
}

/// Sets the working places of the team's cells to the saved working places. They are at the saved
/// committed places so far, and a cell whose two places are equal is not touched.
fn working_are_in_place(cells: &mut CellTable, team: usize, saved: &[SavedCell])
    requires { working_places_of (cells_of cells.old team) ≡ map (λ c. c.committed) saved.now }
    ensures places { working_places_of (cells_of cells.new team) ≡ map (λ c. c.working) saved.now }
    ensures same { SameButPlaces (cells_of cells.old team) (cells_of cells.new team) }
    ensures others { OtherCellsStay team cells.old cells.new }
{
    for own in 0..saved.len() {
        let place = saved[own].working.place();
        if !same_place(place, saved[own].committed.place()) {
            put_at(cells, team, own, place);
        }
    }
}

/// Commits the working places of the team's cells.
fn commit(cells: &mut CellTable, team: usize)
    ensures own { cells_of cells.new team ≡ map as_committed (cells_of cells.old team) }
    ensures others { OtherCellsStay team cells.old cells.new }
{
    cells.commit_team(team);
}

/// Sets the places of the team's cells to the saved ones. There is a saved cell for each cell.
fn place_team(cells: &mut CellTable, team: usize, saved: &[SavedCell])
    requires { length saved.now ≡ length (cells_of cells.old team) }
    ensures own { cells_of cells.new team ≡ map_two restored_cell (cells_of cells.old team) saved.now }
    ensures others { OtherCellsStay team cells.old cells.new }
{
    committed_are_in_place(cells, team, saved);
    commit(cells, team);
    working_are_in_place(cells, team, saved);
}

/// Removes the saved cells from the row and returns them.
fn take_cells(alloc: Global, row: &mut SavedTeamRow) -> Vec<SavedCell>
    ensures cells { result.items ≡ row.old.cells.items }
    ensures row { team_view row.new ≡ without_cells (team_view row.old) }
{
    mem::replace(&mut row.cells, Vec::new(alloc))
}

/// Sets the places of each team's cells to those of its row, and removes these from the row. There
/// is a saved cell for each cell.
fn place_in_table(alloc: Global, cells: &mut CellTable, rows: &mut [SavedTeamRow])
    requires { AreAsMany (team_views rows.old) cells.old }
    ensures placed { ArePlaced (team_views rows.old) cells.old cells.new }
    ensures rows { team_views rows.new ≡ map without_cells (team_views rows.old) }
{
    for team in 0..rows.len() {
        let saved = take_cells(alloc, &mut rows[team]);
        place_team(cells, team, &saved);
    }
}

/// Returns the placement with each team's cells at the places of its row, working and committed.
/// Removes these from the rows and frees them, then builds the strips again.
///
/// `Err` if an allocation fails; the placement is then dropped.
pub fn place_teams(
    alloc: Global,
    placement: Placement,
    rows: &mut [SavedTeamRow],
) -> Result<Placement, AllocError>
    requires { AreAsMany (team_views rows.old) placement.cells }
    ensures frame { IfOk result (λ placed. placed.frame ≡ placement.frame) }
    ensures cells { IfOk result (λ placed. ArePlaced (team_views rows.old) placement.cells placed.cells) }
    ensures rows { team_views rows.new ≡ map without_cells (team_views rows.old) }
{
    let (frame, cells) = placement.into_parts();
    let mut placed = cells;
    place_in_table(alloc, &mut placed, rows);
    Placement::of(alloc, frame, placed)
}
