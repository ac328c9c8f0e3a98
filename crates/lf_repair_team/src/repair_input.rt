//! A team at the start of its repair: which of its cells are legal.

ghost use Rattle.std.specs.Prelude.{◌≡◌, ◌↔◌, [], List, ℕ, IfOk, IsTrue, OnOk, Some, option_map, slice_get};
ghost use Rattle.lf_cells.specs.Cells.{cells_of};
ghost use Rattle.lf_floor_model.specs.States.{TeamState};
ghost use Rattle.lf_floor_model.specs.Teams.{state_of, team_number};
ghost use Rattle.lf_repair_strategy.specs.Targets.{AreWorkingPlaces};
ghost use Rattle.lf_repair_team.specs.CellEdits.{AreLegalFlags, AddsLegalFlag, AreListedFlags};
ghost use Rattle.lf_repair_team.specs.TeamRepairs.{AreLegalExcept, IsListedIn};

use lf_cells::CellId;
use lf_floor::Floor;
use lf_legalize::Seeker;
use lf_placement::Placement;
use lf_repair_bounds::{ImpossibleMacro, is_listed};
use lf_repair_strategy::{MovePolicy, Pass, RepairInput, initial_locks, working_places};
use std::alloc::{AllocError, Global};

/// Whether all cells of the team with this name are placed and team-legal. Also false if there is
/// no such team. Does not allocate.
pub fn is_team_legal<S: Seeker + Drop>(floor: &Floor<S>, team: &[u8]) -> bool
    ensures whole { IsTrue result → AreLegalExcept team.now floor.now [] }
    ensures reported { (s : TeamState) → state_of floor.now team.now ≡ Some s → AreLegalExcept team.now floor.now []
        → IsTrue result }
{
    let Some(number) = floor.team_number(team) else {
        return false;
    };
    for id in floor.placement().cells().cells_of(number) {
        if !floor.is_cell_legal(number, id.own as usize) {
            return false;
        }
    }
    true
}

/// Appends whether the cell is legal.
fn mark_cell<S: Seeker + Drop>(
    floor: &Floor<S>,
    number: usize,
    id: CellId,
    legal: &mut Vec<bool>,
) -> Result<(), AllocError>
    ensures { OnOk result (AddsLegalFlag floor.now number id.own legal.old.items legal.new.items) }
{
    legal.push(floor.is_cell_legal(number, id.own as usize))?;
    Ok(())
}

/// Whether each of the team's cells is legal.
fn legal_of<S: Seeker + Drop>(
    alloc: Global,
    floor: &Floor<S>,
    number: usize,
) -> Result<Vec<bool>, AllocError>
    ensures { (team : List ℕ) → team_number floor.now.frame team ≡ Some number
        → IfOk result (λ legal. AreLegalFlags team floor.now legal.items) }
{
    let mut legal = Vec::new(alloc);
    for id in floor.placement().cells().cells_of(number) {
        mark_cell(floor, number, *id, &mut legal)?;
    }
    Ok(legal)
}

/// The number of the macro of the cell at position `own` of the team with this number. `None` if
/// there is no such cell.
fn mac_number(placement: &Placement, number: usize, own: usize) -> Option<usize>
    ensures { result ≡ option_map (λ c. c.mac) (slice_get (cells_of placement.now.cells number) own) }
{
    let id = placement.cells().cell_of(number, own)?;
    Some(placement.cells().placement_of(id)?.mac)
}

/// Whether the team's cell at position `own` is of a macro that is listed for the team.
fn is_cell_listed<S: Seeker + Drop>(
    floor: &Floor<S>,
    team: &[u8],
    number: usize,
    own: usize,
    impossible: &[ImpossibleMacro],
) -> bool
    requires { team_number floor.now.frame team.now ≡ Some number }
    ensures { IsTrue result ↔ IsListedIn impossible.now floor.now team.now own }
{
    let Some(mac) = mac_number(floor.placement(), number, own) else {
        return false;
    };
    if !is_listed(impossible, number, mac) {
        return false;
    }
    floor.name_of(team, own).is_some()
}

/// Whether each of the team's cells is of a macro that is listed for the team.
fn listed_of<S: Seeker + Drop>(
    alloc: Global,
    floor: &Floor<S>,
    team: &[u8],
    number: usize,
    impossible: &[ImpossibleMacro],
) -> Result<Vec<bool>, AllocError>
    requires { team_number floor.now.frame team.now ≡ Some number }
    ensures { IfOk result (λ flags. AreListedFlags impossible.now team.now floor.now flags.items) }
{
    let mut flags = Vec::new(alloc);
    let count = floor.placement().cells().cells_of(number).len();
    for own in 0..count {
        flags.push(is_cell_listed(floor, team, number, own, impossible))?;
    }
    Ok(flags)
}

/// The input of a repair of the team with this name and number. No place can hold the cells of the macros
/// that are listed for the team. `Err` if an allocation fails.
pub fn team_input<S: Seeker + Drop>(
    alloc: Global,
    floor: &Floor<S>,
    team: &[u8],
    number: usize,
    policy: MovePolicy,
    impossible: &[ImpossibleMacro],
) -> Result<RepairInput, AllocError>
    requires { team_number floor.now.frame team.now ≡ Some number }
    ensures marked { (team : List ℕ) → team_number floor.now.frame team ≡ Some number
        → IfOk result (λ start. AreLegalFlags team floor.now start.pass.locked.items) }
    ensures legal { (team : List ℕ) → team_number floor.now.frame team ≡ Some number → IfOk result (λ start.
        AreLegalFlags team floor.now start.legal.items) }
    ensures targets { (s : TeamState) → slice_get floor.now.teams number ≡ Some s → IfOk result (λ start.
        AreWorkingPlaces s.cells start.pass.targets.items) }
    ensures flagged { IfOk result (λ start.
        AreListedFlags impossible.now team.now floor.now start.pass.impossible.items) }
    ensures policy { IfOk result (λ start. start.policy ≡ policy) }
{
    let legal = legal_of(alloc, floor, number)?;
    let marks = initial_locks(alloc, legal.as_slice())?;
    let flags = listed_of(alloc, floor, team, number, impossible)?;
    let targets = working_places(alloc, floor.placement(), number)?;
    Ok(RepairInput {
        policy,
        legal,
        pass: Pass {
            locked: marks,
            impossible: flags,
            targets,
        },
    })
}
