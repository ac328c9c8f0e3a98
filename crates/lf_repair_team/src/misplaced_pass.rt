//! The pass over misplaced cells: it unplaces the cells that have moved onto a soft blockage or
//! beyond reach. The last pass then moves each of them to its best place, if there is one.

ghost use Rattle.std.specs.Prelude.{◌≡◌, ◌≢◌, IfOk, IfSome, IsTrue, OnErr, OnOk, Some, false, option_map, slice_get, ℕ};
ghost use Rattle.lf_floorplan.specs.Boxes.{IsSized, macro_of};
ghost use Rattle.lf_floorplan.specs.Ground.{OverlapsSoft};
ghost use Rattle.lf_rules.specs.Choice.{spot_of};
ghost use Rattle.lf_rules.specs.Legalizer.{Legalizer};
ghost use Rattle.lf_rules.specs.Team.{box_in};
ghost use Rattle.lf_cells.specs.declared.cell.Cell.{Cell};
ghost use Rattle.lf_cells.specs.Cells.{cells_of, working_at};
ghost use Rattle.lf_floor_model.specs.States.{TeamState};
ghost use Rattle.lf_floor_model.specs.Teams.{state_of, team_number};
ghost use Rattle.lf_repair_strategy.specs.Targets.{target_at};
ghost use Rattle.lf_repair_team.specs.CellEdits.{AreAtTargetsOrOffSoft, AreWithin, IsAtTargetOrOffSoft, IsWithin, KeepsCellsAtTargets, KeepsCommittedAndSettings};
ghost use Rattle.lf_repair_team.specs.TeamRepairs.{ChangesOnly, place_of_cell_in};
ghost use Rattle.lf_repair_team.specs.Runs.{IsRunWithCutLine, IsWrittenRun};

use crate::cell_edits::{Buffers, TeamSession};
use crate::last_pass::unplace_cell;
use crate::outcome::target_place;
use crate::reach::has_moved_too_far;
use crate::run_command::RepairFault;
use lf_floor::Floor;
use lf_floorplan::{Macro, Place, mac_at, same_place};
use lf_io::Sink;
use lf_legalize::Seeker;
use lf_placement::Placement;
use lf_repair_strategy::RepairSearch;
use lf_rules::{box_of, overlaps_soft};

/// The working place of the cell at position `own` of the team with this number. `None` if it is
/// unplaced, or there is no such cell.
pub(crate) fn place_at(placement: &Placement, number: usize, own: usize) -> Option<Place>
    ensures { result ≡ working_at (cells_of placement.now.cells number) own }
{
    let id = placement.cells().cell_of(number, own)?;
    placement.cells().working(id)
}

/// The macro of the cell at position `own` of the team with this number. `None` if there is no such
/// cell.
pub(crate) fn macro_at(placement: &Placement, number: usize, own: usize) -> Option<&Macro>
    ensures mac { option_map (λ mac. mac.now) result
        ≡ option_map (λ c. macro_of placement.now.frame c.mac) (slice_get (cells_of placement.now.cells number) own) }
    ensures sized { IfSome result (λ mac. IsSized placement.now.frame mac.now) }
{
    placement.cells_are_sized();
    let id = placement.cells().cell_of(number, own)?;
    let cell_placement = placement.cells().placement_of(id)?;
    Some(mac_at(placement.frame(), cell_placement.mac))
}

/// Whether the box of the team's cell at position `own`, if it is at the place, shares a point with
/// a soft blockage. False if there is no such cell.
fn is_on_soft(placement: &Placement, number: usize, own: usize, place: &Place) -> bool
    ensures { (c : Cell) → slice_get (cells_of placement.now.cells number) own ≡ Some c → result ≡ false
        → OverlapsSoft placement.now.frame (box_in placement.now.frame c.mac (spot_of place.now)) → ⊥ }
{
    let frame = placement.frame();
    match macro_at(placement, number, own) {
        Some(mac) => overlaps_soft(frame, &box_of(frame, mac, place)),
        None => false,
    }
}

/// Whether the cell at position `own` is on a soft blockage, and not at its place in
/// `targets`.
fn has_moved_onto_soft<S: Seeker + Drop>(
    floor: &Floor<S>,
    session: &TeamSession<'_>,
    own: usize,
    targets: &[Option<Place>],
) -> bool
    requires { team_number floor.now.frame session.now.team.now ≡ Some session.now.number }
    ensures moved { (s : TeamState) → state_of floor.now session.now.team.now ≡ Some s → IsTrue result
        → place_of_cell_in floor.now session.now.team.now own ≢ target_at targets.now own }
    ensures settled { result ≡ false → IsAtTargetOrOffSoft session.now.team.now targets.now floor.now own }
{
    let placement = floor.placement();
    let now = place_at(placement, session.number, own);
    if same_place(now, target_place(targets, own)) {
        return false;
    }
    match now {
        Some(place) => is_on_soft(placement, session.number, own, &place),
        None => false,
    }
}

/// Whether each cell of the team is at its place in `targets`, unplaced, or off soft blockages.
pub fn are_off_soft<S: Seeker + Drop>(
    floor: &Floor<S>,
    session: &TeamSession<'_>,
    targets: &[Option<Place>],
) -> bool
    requires { team_number floor.now.frame session.now.team.now ≡ Some session.now.number }
    ensures { IsTrue result → AreAtTargetsOrOffSoft session.now.team.now targets.now floor.now }
{
    let count = floor.placement().cells().cells_of(session.number).len();
    for own in 0..count {
        if has_moved_onto_soft(floor, session, own, targets) {
            return false;
        }
    }
    true
}

/// Whether the cell at position `own` has moved onto a soft blockage, or beyond reach of its place in
/// `targets`.
fn is_misplaced<S: Seeker + Drop>(
    floor: &Floor<S>,
    session: &TeamSession<'_>,
    own: usize,
    targets: &[Option<Place>],
    search: &RepairSearch<'_>,
) -> bool
    requires { team_number floor.now.frame session.now.team.now ≡ Some session.now.number }
    ensures moved { (s : TeamState) → state_of floor.now session.now.team.now ≡ Some s → IsTrue result
        → place_of_cell_in floor.now session.now.team.now own ≢ target_at targets.now own }
    ensures settled { result ≡ false → IsAtTargetOrOffSoft session.now.team.now targets.now floor.now own }
    ensures within { result ≡ false → IsWithin search.now.reach targets.now floor.now session.now.team.now own }
{
    if has_moved_onto_soft(floor, session, own, targets) {
        return true;
    }
    has_moved_too_far(floor, session, own, targets, search)
}

/// Unplaces the cell at position `own` if it is misplaced; otherwise sends no command.
fn unplace_if_misplaced<S: Seeker + Drop, K: Sink>(
    floor: &mut Floor<S>,
    session: &TeamSession<'_>,
    own: usize,
    targets: &[Option<Place>],
    search: &RepairSearch<'_>,
    buffers: &mut Buffers,
    lines: &mut K,
) -> Result<(), RepairFault>
    requires { team_number floor.old.frame session.now.team.now ≡ Some session.now.number }
    ensures run { (l : Legalizer) → IfOk result (λ _.
        IsWrittenRun l session.now.team.now floor.old (K.contents lines.old) (K.contents lines.new) floor.new) }
    ensures err { (l : Legalizer) → OnErr result (
        IsRunWithCutLine l session.now.team.now floor.old (K.contents lines.old) (K.contents lines.new) floor.new) }
    ensures only { ChangesOnly session.now.team.now floor.old floor.new }
    ensures committed { KeepsCommittedAndSettings session.now.team.now session.now.session floor.old floor.new }
    ensures others { (other : ℕ) → other ≢ own
        → place_of_cell_in floor.new session.now.team.now other ≡ place_of_cell_in floor.old session.now.team.now other }
    ensures targets { KeepsCellsAtTargets session.now.team.now targets.now floor.old floor.new }
    ensures settled { OnOk result (IsAtTargetOrOffSoft session.now.team.now targets.now floor.new own) }
    ensures within { OnOk result (IsWithin search.now.reach targets.now floor.new session.now.team.now own) }
{
    if !is_misplaced(floor, session, own, targets, search) {
        return Ok(());
    }
    unplace_cell(floor, session, own, buffers, lines)
}

/// Runs the pass over misplaced cells: unplaces the cells that are on a soft blockage and not at their
/// places in `targets`, and those that are beyond reach of them. Other cells do not move.
pub(crate) fn run_misplaced_pass<S: Seeker + Drop, K: Sink>(
    floor: &mut Floor<S>,
    session: &TeamSession<'_>,
    targets: &[Option<Place>],
    search: &RepairSearch<'_>,
    buffers: &mut Buffers,
    lines: &mut K,
) -> Result<(), RepairFault>
    requires { team_number floor.old.frame session.now.team.now ≡ Some session.now.number }
    ensures run { (l : Legalizer) → IfOk result (λ _.
        IsWrittenRun l session.now.team.now floor.old (K.contents lines.old) (K.contents lines.new) floor.new) }
    ensures err { (l : Legalizer) → OnErr result (
        IsRunWithCutLine l session.now.team.now floor.old (K.contents lines.old) (K.contents lines.new) floor.new) }
    ensures only { ChangesOnly session.now.team.now floor.old floor.new }
    ensures committed { KeepsCommittedAndSettings session.now.team.now session.now.session floor.old floor.new }
    ensures targets { KeepsCellsAtTargets session.now.team.now targets.now floor.old floor.new }
    ensures settled { OnOk result (AreAtTargetsOrOffSoft session.now.team.now targets.now floor.new) }
    ensures within { OnOk result (AreWithin search.now.reach targets.now session.now.team.now floor.new) }
{
    let count = floor.placement().cells().cells_of(session.number).len();
    for own in 0..count {
        match unplace_if_misplaced(floor, session, own, targets, search, buffers, lines) {
            Ok(()) => {}
            Err(fault) => return Err(fault),
        }
    }
    Ok(())
}
