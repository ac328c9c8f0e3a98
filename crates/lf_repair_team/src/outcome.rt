//! A team after the passes of its repair: the cells whose place changed, and those that are
//! unrepaired.

ghost use Rattle.std.specs.Prelude.{◌≡◌, ◌<◌, All, AllPairs, IfOk, OnOk, Some};
ghost use Rattle.lf_cells.specs.Cells.{cells_of};
ghost use Rattle.lf_floor_model.specs.Teams.{team_number};
ghost use Rattle.lf_repair_strategy.specs.Targets.{target_at};
ghost use Rattle.lf_repair_team.specs.CellEdits.{AreAtTargetsExcept, HaveLeftTargets, IsLegalOrListed, HoldsOrIsListed, TeamHasLeftTargets, TeamIsAtTargetsExcept};
ghost use Rattle.lf_repair_team.specs.TeamRepairs.{AreLegalExcept, IsIllegalIn};

use crate::cell_edits::TeamSession;
use lf_cells::CellId;
use lf_floor::Floor;
use lf_floorplan::{Place, same_place};
use lf_legalize::Seeker;
use lf_placement::Placement;
use std::alloc::{AllocError, Global};

/// The positions in a team of the cells whose place changed, and of those that are unplaced or
/// break a rule.
#[derive(Drop)]
pub struct RepairOutcome {
    pub changed: Vec<u32>,
    pub left: Vec<u32>,
}

/// The place at this position in the list, if there is one.
pub(crate) fn target_place(targets: &[Option<Place>], own: usize) -> Option<Place>
    ensures { result ≡ target_at targets.now own }
{
    *targets.get(own)?
}

/// Lists the cell at position `own`, unless its place is unchanged.
fn name_changed(
    now: Option<Place>,
    wanted_place: Option<Place>,
    own: u32,
    changed: &mut Vec<u32>,
) -> Result<(), AllocError>
    ensures { OnOk result (HoldsOrIsListed (now ≡ wanted_place) (now ≡ wanted_place
        → ⊥) own changed.old.items changed.new.items) }
{
    if same_place(now, wanted_place) {
        return Ok(());
    }
    changed.push(own)?;
    Ok(())
}

/// The positions of the team's cells whose place changed.
fn changed_cells(
    alloc: Global,
    placement: &Placement,
    number: usize,
    targets: &[Option<Place>],
) -> Result<Vec<u32>, AllocError>
    ensures changed { IfOk result (λ changed.
        AreAtTargetsExcept (cells_of placement.now.cells number) targets.now changed.items) }
    ensures moved { IfOk result (λ changed.
        HaveLeftTargets (cells_of placement.now.cells number) targets.now changed.items) }
{
    let mut changed = Vec::new(alloc);
    for id in placement.cells().cells_of(number) {
        let now = placement.cells().working(*id);
        let wanted_place = target_place(targets, id.own as usize);
        name_changed(now, wanted_place, id.own, &mut changed)?;
    }
    Ok(changed)
}

/// Lists the cell, unless it is legal.
fn note_illegal<S: Seeker + Drop>(
    floor: &Floor<S>,
    session: &TeamSession<'_>,
    id: CellId,
    unrepaired: &mut Vec<u32>,
) -> Result<(), AllocError>
    requires { team_number floor.now.frame session.now.team.now ≡ Some session.now.number }
    ensures { OnOk result (IsLegalOrListed session.now.team.now floor.now id.own unrepaired.old.items unrepaired.new.items) }
{
    if floor.is_cell_legal(session.number, id.own as usize) {
        return Ok(());
    }
    unrepaired.push(id.own)?;
    Ok(())
}

/// The positions of the team's cells that are not legal.
pub(crate) fn illegal_cells<S: Seeker + Drop>(
    alloc: Global,
    floor: &Floor<S>,
    session: &TeamSession<'_>,
) -> Result<Vec<u32>, AllocError>
    requires { team_number floor.now.frame session.now.team.now ≡ Some session.now.number }
    ensures named { IfOk result (λ left. AreLegalExcept session.now.team.now floor.now left.items) }
    ensures illegal { IfOk result (λ left. All (λ own. IsIllegalIn floor.now session.now.team.now own) left.items) }
    ensures rise { IfOk result (λ left. AllPairs (λ own later. own < later) left.items) }
{
    let mut left = Vec::new(alloc);
    for id in floor.placement().cells().cells_of(session.number) {
        note_illegal(floor, session, *id, &mut left)?;
    }
    Ok(left)
}

/// The outcome for the team, whose cells had these original places. `unrepaired` has the cells that are
/// not legal. `Err` if an allocation fails.
pub(crate) fn found_of<S: Seeker + Drop>(
    alloc: Global,
    floor: &Floor<S>,
    session: &TeamSession<'_>,
    targets: &[Option<Place>],
    unrepaired: Vec<u32>,
) -> Result<RepairOutcome, AllocError>
    requires { team_number floor.now.frame session.now.team.now ≡ Some session.now.number }
    ensures changed { IfOk result (λ found.
        TeamIsAtTargetsExcept session.now.team.now targets.now floor.now found.changed.items) }
    ensures moved { IfOk result (λ found.
        TeamHasLeftTargets session.now.team.now targets.now floor.now found.changed.items) }
    ensures unrepaired { IfOk result (λ found. found.left.items ≡ unrepaired.items) }
{
    let changed = changed_cells(alloc, floor.placement(), session.number, targets)?;
    Ok(RepairOutcome {
        changed,
        left: unrepaired,
    })
}
