//! The check whether the committed design of a floor is fully legal.

ghost use Rattle.std.specs.Prelude.{◌≡◌, ◌↔◌, ◌+◌, ◌++◌, ◌≤◌, [], ◌∷◌, All, IfOk, IsTrue, OnOk, Some, count_by, is_none, length, map, option_map, slice_get};
ghost use Rattle.lf_cells.specs.declared.cell.Cell.{Cell};
ghost use Rattle.lf_cells.specs.Cells.{cell_at, cells_of};
ghost use Rattle.lf_rules.specs.FullyLegal.{IsFullyLegal};
ghost use Rattle.lf_reports.specs.Reports.{IsListed, with_byte_name, design_cell_of};
ghost use Rattle.lf_legalize.specs.Members.{member_of};
ghost use Rattle.lf_floor_model.specs.Committed.{AreCommittedLegal, IsCommittedLegal, committed_member};
ghost use Rattle.lf_floor_model.specs.States.{TeamState};
ghost use Rattle.lf_task_files.specs.CommittedLegality.{AreAllLegal, committed_listed};

use lf_cells::{CellId, CellTable};
use lf_floor::Floor;
use lf_floor_verbs::is_cell_legal;
use lf_floorplan::same_place;
use lf_legalize::IndexSeeker;
use lf_placement::Placement;
use lf_reports::{Listed, verdicts_with_plan};
use lf_rules::{Padding, legalizer_exists};
use lf_segments::IndexedFrame;
use lf_task_designs::illegal_in;
use std::alloc::{AllocError, Global};

/// Returns the cell at its committed place, or `None` if there is no such cell.
fn listed_cell<'a>(cells: &'a CellTable, id: CellId) -> Option<Listed<&'a [u8]>>
    ensures { option_map with_byte_name result ≡ option_map (committed_listed id.team) (cell_at cells.now id) }
{
    let facts = cells.cell(id)?;
    Some(Listed {
        name: facts.name,
        team: id.team as usize,
        mac: facts.mac,
        place: cells.committed(id),
    })
}

/// Appends the cell at its committed place, if it exists. `Err` if an allocation fails.
fn push_cell<'a>(
    cells: &'a CellTable,
    id: CellId,
    listed: &mut Vec<Listed<&'a [u8]>>,
) -> Result<(), AllocError>
    ensures { (c : Cell) → cell_at cells.now id ≡ Some c
        → OnOk result (map with_byte_name listed.new.items
        ≡ map with_byte_name listed.old.items ++ committed_listed id.team c ∷ []) }
{
    if let Some(cell) = listed_cell(cells, id) {
        listed.push(cell)?;
    }
    Ok(())
}

/// Lists the team's cells at their committed places. `Err` if an allocation fails.
fn listed_team(
    alloc: Global,
    cells: &CellTable,
    team: usize,
) -> Result<Vec<Listed<&[u8]>>, AllocError>
    ensures { IfOk result
        (λ listed. map with_byte_name listed.items ≡ map (committed_listed team) (cells_of cells.now team)) }
{
    let ids = cells.cells_of(team);
    let mut listed = Vec::with_capacity(alloc, ids.len())?;
    for id in ids {
        push_cell(cells, *id, &mut listed)?;
    }
    Ok(listed)
}

/// Counts the unplaced cells.
fn unplaced_in(cells: &[Listed<&[u8]>]) -> usize
    ensures { result ≡ count_by (λ c. is_none c.place) (map with_byte_name cells.now) }
{
    cells.iter().filter(|cell| cell.place.is_none()).count()
}

/// Returns whether both numbers are 0.
fn are_none(unplaced: usize, illegal: usize) -> bool
    ensures { IsTrue result ↔ ((unplaced ≡ 0) × (illegal ≡ 0)) }
{
    unplaced == 0 && illegal == 0
}

/// Returns whether the cells, without padding, make a fully legal design. `Err` if an allocation
/// fails.
fn are_legal(
    alloc: Global,
    frame: &IndexedFrame<'_>,
    cells: &[Listed<&[u8]>],
) -> Result<bool, AllocError>
    requires listed { All (λ c. IsListed frame.now (with_byte_name c)) cells.now }
    requires few { length cells.now ≤ 4000000 }
    ensures { IfOk result (λ legal. IsTrue legal
        ↔ IsFullyLegal frame.now (map design_cell_of (map with_byte_name cells.now))) }
{
    legalizer_exists();
    let verdicts = verdicts_with_plan(alloc, frame, cells, Padding::none())?;
    Ok(are_none(unplaced_in(cells), illegal_in(&verdicts)))
}

/// Returns true only if each of the team's cells works at its committed place.
fn works_as_committed(cells: &CellTable, team: usize) -> bool
    ensures { IsTrue result → map member_of (cells_of cells.now team) ≡ map committed_member (cells_of cells.now team) }
{
    for id in cells.cells_of(team) {
        if !same_place(cells.working(*id), cells.committed(*id)) {
            return false;
        }
    }
    true
}

/// Returns whether each of the team's cells is placed and breaks no rule at its working place.
/// Padding is ignored. Does not allocate.
fn are_working_legal(placement: &Placement, team: usize) -> bool
    ensures { IsTrue result ↔ AreAllLegal placement.now.frame team (map member_of (cells_of placement.now.cells team)) }
{
    for id in placement.cells().cells_of(team) {
        if !is_cell_legal(placement, *id, Padding::none()) {
            return false;
        }
    }
    true
}

/// Returns whether each cell of the team of this number has a committed place that is team-legal.
/// Only a team with other working places needs memory for it. `Err` if an allocation fails.
fn is_team_legal(
    alloc: Global,
    floor: &Floor<IndexSeeker>,
    number: usize,
) -> Result<bool, AllocError>
    requires { (s : TeamState) × (slice_get floor.now.teams number ≡ Some s) }
    ensures { (s : TeamState) → slice_get floor.now.teams number ≡ Some s
        → IfOk result (λ legal. IsTrue legal ↔ AreCommittedLegal floor.now.frame number s) }
{
    floor.teams_match_frame();
    let placement = floor.placement();
    if works_as_committed(placement.cells(), number) {
        return Ok(are_working_legal(placement, number));
    }
    let cells = listed_team(alloc, placement.cells(), number)?;
    are_legal(alloc, &placement.indexed_frame(), &cells)
}

/// Returns whether the committed design is fully legal.
///
/// `Err` if an allocation fails.
pub fn is_committed_legal(alloc: Global, floor: &Floor<IndexSeeker>) -> Result<bool, AllocError>
    requires { length floor.now.teams ≡ length floor.now.frame.teams + 1 }
    ensures { IfOk result (λ legal. IsTrue legal ↔ IsCommittedLegal floor.now) }
{
    let teams = floor.placement().frame().teams.len() + 1;
    for number in 0..teams {
        if !is_team_legal(alloc, floor, number)? {
            return Ok(false);
        }
    }
    Ok(true)
}
