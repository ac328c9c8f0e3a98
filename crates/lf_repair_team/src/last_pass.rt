//! The last pass of a repair, over the cells that are still illegal: it unplaces them all, and then
//! moves each to its best place, if there is one.

ghost use Rattle.std.specs.Prelude.{◌≡◌, ◌≢◌, [], All, Contains, IfOk, OnErr, OnOk, None, Option, Some, ℕ, ℤ};
ghost use Rattle.lf_floorplan.specs.declared.place.Place.{Place};
ghost use Rattle.lf_proto.specs.Lines.{IsLineName};
ghost use Rattle.lf_proto.specs.Requests.{IsTarget};
ghost use Rattle.lf_rules.specs.Legalizer.{Legalizer};
ghost use Rattle.lf_cells.specs.Cells.{cell_named, working_at};
ghost use Rattle.lf_floor_model.specs.States.{TeamState};
ghost use Rattle.lf_floor_model.specs.Outcomes.{name_at};
ghost use Rattle.lf_floor_model.specs.Teams.{state_of, team_number};
ghost use Rattle.lf_repair_strategy.specs.Targets.{target_at};
ghost use Rattle.lf_repair_team.specs.CellEdits.{AreMovable, AreUnrepaired, HoldsOrIsListed, IsAnotherCell, IsFlagged, IsLegalOrUnplaced, IsLegalOrWithoutPlace, IsUnplacedOrAtBest, IsUnplacedOrOffSoft, IsWithoutPlace, KeepsCommittedAndSettings, KeepsLegalCells, KeepsLockedPlaces, KeepsWithin, MovesOffSoft, RemainsLegal, SaysNoPlace};
ghost use Rattle.lf_repair_team.specs.TeamRepairs.{ChangesOnly, HasNoPlace, IsIllegalIn, corner_of, place_of_cell_in};
ghost use Rattle.lf_repair_team.specs.Runs.{IsRunWithCutLine, IsWrittenRun};

use crate::cell_edits::{
    Buffers, TeamSession, copy_name, is_locked, run_action, run_edit, target_in_range,
};
use crate::outcome::{illegal_cells, target_place};
use crate::reach::{corner_of, is_best_within};
use crate::run_command::RepairFault;
use lf_floor::{Floor, best_is_found, refusal_keeps_state};
use lf_floorplan::Place;
use lf_io::Sink;
use lf_legalize::{Seeker, anchor};
use lf_proto::{Action, Change, Refusal, Reply};
use lf_repair_strategy::{Edit, RepairSearch};
use lf_rules::{legal_in_range, legalizer_exists};
use lf_units::Point;
use std::alloc::{AllocError, Global};

/// Unplaces the cell at position `own`. `Err` also if it cannot be unplaced: no line can contain its
/// name.
pub(crate) fn unplace_cell<S: Seeker + Drop, K: Sink>(
    floor: &mut Floor<S>,
    session: &TeamSession<'_>,
    own: usize,
    buffers: &mut Buffers,
    lines: &mut K,
) -> Result<(), RepairFault>
    ensures run { (l : Legalizer) → IfOk result (λ _.
        IsWrittenRun l session.now.team.now floor.old (K.contents lines.old) (K.contents lines.new) floor.new) }
    ensures err { (l : Legalizer) → OnErr result (
        IsRunWithCutLine l session.now.team.now floor.old (K.contents lines.old) (K.contents lines.new) floor.new) }
    ensures only { ChangesOnly session.now.team.now floor.old floor.new }
    ensures cells { (other : ℕ) → other ≢ own
        → place_of_cell_in floor.new session.now.team.now other ≡ place_of_cell_in floor.old session.now.team.now other }
    ensures legal { (other : ℕ) → other ≢ own → RemainsLegal session.now.team.now floor.old floor.new other }
    ensures committed { KeepsCommittedAndSettings session.now.team.now session.now.session floor.old floor.new }
    ensures unplaced { OnOk result (place_of_cell_in floor.new session.now.team.now own ≡ None) }
{
    match run_edit(floor, session, own, &Edit::Unplace, buffers, lines) {
        Ok(()) => {}
        Err(fault) => return Err(fault),
    }
    match floor.place_of(session.team, own) {
        None => Ok(()),
        Some(_) => Err(RepairFault::Refused(Refusal::NoCell)),
    }
}

/// Unplaces each of the cells at these positions.
fn unplace_cells<S: Seeker + Drop, K: Sink>(
    floor: &mut Floor<S>,
    session: &TeamSession<'_>,
    cells: &[u32],
    targets: &[Option<Place>],
    search: &RepairSearch<'_>,
    buffers: &mut Buffers,
    lines: &mut K,
) -> Result<(), RepairFault>
    requires illegal { All (λ own. IsIllegalIn floor.old session.now.team.now own) cells.now }
    requires free { All (λ own. IsFlagged session.now.impossible.now own → ⊥) cells.now }
    ensures run { (l : Legalizer) → IfOk result (λ _.
        IsWrittenRun l session.now.team.now floor.old (K.contents lines.old) (K.contents lines.new) floor.new) }
    ensures err { (l : Legalizer) → OnErr result (
        IsRunWithCutLine l session.now.team.now floor.old (K.contents lines.old) (K.contents lines.new) floor.new) }
    ensures only { ChangesOnly session.now.team.now floor.old floor.new }
    ensures legal { KeepsLegalCells session.now.team.now floor.old floor.new }
    ensures flagged { KeepsLockedPlaces session.now.team.now session.now.impossible.now floor.old floor.new }
    ensures committed { KeepsCommittedAndSettings session.now.team.now session.now.session floor.old floor.new }
    ensures unplaced { OnOk result (All (λ own. place_of_cell_in floor.new session.now.team.now own ≡ None) cells.now) }
    ensures off_soft { OnOk result (MovesOffSoft session.now.team.now floor.old floor.new) }
    ensures within { OnOk result (KeepsWithin search.now.reach targets.now session.now.team.now floor.old floor.new) }
{
    for own in cells {
        match unplace_cell(floor, session, *own as usize, buffers, lines) {
            Ok(()) => {}
            Err(fault) => return Err(fault),
        }
    }
    Ok(())
}

/// Sends a legalize of the cell with this name.
fn legalize_named<S: Seeker + Drop, K: Sink>(
    floor: &mut Floor<S>,
    session: &TeamSession<'_>,
    cell: &[u8],
    target: &Point,
    line: &mut Vec<u8>,
    lines: &mut K,
) -> Result<Reply, RepairFault>
    requires name { IsLineName cell.now }
    requires target { IsTarget target.now }
    ensures run { (l : Legalizer) → IfOk result (λ _.
        IsWrittenRun l session.now.team.now floor.old (K.contents lines.old) (K.contents lines.new) floor.new) }
    ensures err { (l : Legalizer) → OnErr result (
        IsRunWithCutLine l session.now.team.now floor.old (K.contents lines.old) (K.contents lines.new) floor.new) }
    ensures only { ChangesOnly session.now.team.now floor.old floor.new }
    ensures cells { (other : ℕ) → IsAnotherCell floor.old session.now.team.now cell.now other
        → place_of_cell_in floor.new session.now.team.now other ≡ place_of_cell_in floor.old session.now.team.now other }
    ensures legal { (other : ℕ) → IsAnotherCell floor.old session.now.team.now cell.now other
        → RemainsLegal session.now.team.now floor.old floor.new other }
    ensures committed { KeepsCommittedAndSettings session.now.team.now session.now.session floor.old floor.new }
    ensures without { (reach : Option ℤ) (old : Option Place) (other : ℕ)
        → IsAnotherCell floor.old session.now.team.now cell.now other
        → ((s : TeamState) (own : ℕ) → state_of floor.old session.now.team.now ≡ Some s
        → cell_named cell.now s.cells ≡ Some own → working_at s.cells own ≡ None)
        → HasNoPlace reach old floor.old session.now.team.now other
        → HasNoPlace reach old floor.new session.now.team.now other }
    ensures refused { (reach : Option ℤ) (old : Option Place) (s : TeamState) (own : ℕ)
        → state_of floor.old session.now.team.now ≡ Some s
        → name_at s.cells own ≡ Some cell.now → working_at s.cells own ≡ None
        → IfOk result (λ reply. SaysNoPlace reply → HasNoPlace reach old floor.new session.now.team.now own) }
    ensures best { (s : TeamState) (own : ℕ) → state_of floor.old session.now.team.now ≡ Some s
        → name_at s.cells own ≡ Some cell.now → working_at s.cells own ≡ None
        → IsUnplacedOrAtBest floor.old session.now.team.now own target.now floor.new }
    ensures off_soft { (s : TeamState) (own : ℕ) → state_of floor.old session.now.team.now ≡ Some s
        → name_at s.cells own ≡ Some cell.now → working_at s.cells own ≡ None
        → IsUnplacedOrOffSoft floor.new session.now.team.now own }
{
    legalizer_exists();
    legal_in_range();
    best_is_found();
    refusal_keeps_state();
    floor.teams_match_frame();
    let action = Action::Change(Change::Legalize {
        cell,
        target: *target,
    });
    run_action(floor, session, action, line, lines)
}

/// `Err` unless the reply says that the cell has no best place.
fn stop_unless_no_place(reply: &Reply) -> Result<(), RepairFault>
    ensures { OnOk result (SaysNoPlace reply.now) }
{
    match reply {
        Reply::Refused(Refusal::NoPlace { .. }) => Ok(()),
        Reply::Refused(refusal) => Err(RepairFault::Refused(*refusal)),
        _ => Err(RepairFault::Refused(Refusal::NoCell)),
    }
}

/// The target of a cell that had no place: that of the search, or the team's anchor if it has none.
fn target_without_place<S: Seeker + Drop>(
    floor: &Floor<S>,
    number: usize,
    own: usize,
    search: &RepairSearch<'_>,
) -> Point {
    match search.targets.get(own) {
        Some(Some(target)) => *target,
        _ => anchor(floor.placement().frame(), number),
    }
}

/// The target of a cell: its place in `targets`, or if it has none there that of a cell that had no
/// place.
fn target_in_last_pass<S: Seeker + Drop>(
    floor: &Floor<S>,
    number: usize,
    own: usize,
    targets: &[Option<Place>],
    search: &RepairSearch<'_>,
) -> Point
    ensures target { IsTarget result }
    ensures corner { (p : Place) → target_at targets.now own ≡ Some p → result ≡ corner_of p }
{
    match target_place(targets, own) {
        Some(place) => corner_of(&place),
        None => target_in_range(&target_without_place(floor, number, own, search)),
    }
}

/// Moves the cell at position `own`, which is legal or unplaced, to its best place, unless it is
/// legal or has no place within reach.
fn legalize_cell<S: Seeker + Drop, K: Sink>(
    alloc: Global,
    floor: &mut Floor<S>,
    session: &TeamSession<'_>,
    own: usize,
    targets: &[Option<Place>],
    search: &RepairSearch<'_>,
    buffers: &mut Buffers,
    lines: &mut K,
) -> Result<(), RepairFault>
    requires { team_number floor.old.frame session.now.team.now ≡ Some session.now.number }
    ensures run { (l : Legalizer) → IfOk result (λ _.
        IsWrittenRun l session.now.team.now floor.old (K.contents lines.old) (K.contents lines.new) floor.new) }
    ensures err { (l : Legalizer) → OnErr result (
        IsRunWithCutLine l session.now.team.now floor.old (K.contents lines.old) (K.contents lines.new) floor.new) }
    ensures only { ChangesOnly session.now.team.now floor.old floor.new }
    ensures legal { KeepsLegalCells session.now.team.now floor.old floor.new }
    ensures committed { KeepsCommittedAndSettings session.now.team.now session.now.session floor.old floor.new }
    ensures others { (other : ℕ) → other ≢ own
        → place_of_cell_in floor.new session.now.team.now other ≡ place_of_cell_in floor.old session.now.team.now other }
    ensures without { IsLegalOrUnplaced floor.old session.now.team.now own
        → (other : ℕ) → IsWithoutPlace search.now.reach targets.now floor.old session.now.team.now other → other ≢ own
        → IsWithoutPlace search.now.reach targets.now floor.new session.now.team.now other }
    ensures done { IsLegalOrUnplaced floor.old session.now.team.now own → OnOk result (
        IsLegalOrWithoutPlace search.now.reach targets.now floor.new session.now.team.now own) }
    ensures off_soft { MovesOffSoft session.now.team.now floor.old floor.new }
    ensures within { OnOk result (KeepsWithin search.now.reach targets.now session.now.team.now floor.old floor.new) }
{
    floor.teams_match_frame();
    match floor.place_of(session.team, own) {
        Some(_) => return Ok(()),
        None => {}
    }
    let target = target_in_last_pass(floor, session.number, own, targets, search);
    let Buffers { name, line } = buffers;
    match copy_name(floor, session.team, own, name) {
        Ok(true) => {}
        Ok(false) => return Err(RepairFault::Refused(Refusal::NoCell)),
        Err(_) => return Err(RepairFault::OutOfMemory),
    }
    match is_best_within(alloc, floor, session, own, targets, search, &target) {
        Ok(true) => {}
        Ok(false) => return Ok(()),
        Err(_) => return Err(RepairFault::OutOfMemory),
    }
    let reply = match legalize_named(floor, session, name.as_slice(), &target, line, lines) {
        Ok(reply) => reply,
        Err(fault) => return Err(fault),
    };
    if floor.is_cell_legal(session.number, own) {
        return Ok(());
    }
    stop_unless_no_place(&reply)
}

/// Moves each of the cells at these positions to its best place, unless it is legal or has no place
/// within reach.
fn legalize_cells<S: Seeker + Drop, K: Sink>(
    alloc: Global,
    floor: &mut Floor<S>,
    session: &TeamSession<'_>,
    cells: &[u32],
    targets: &[Option<Place>],
    search: &RepairSearch<'_>,
    buffers: &mut Buffers,
    lines: &mut K,
) -> Result<(), RepairFault>
    requires number { team_number floor.old.frame session.now.team.now ≡ Some session.now.number }
    requires unplaced { All (λ own. place_of_cell_in floor.old session.now.team.now own ≡ None) cells.now }
    requires free { All (λ own. IsFlagged session.now.impossible.now own → ⊥) cells.now }
    ensures run { (l : Legalizer) → IfOk result (λ _.
        IsWrittenRun l session.now.team.now floor.old (K.contents lines.old) (K.contents lines.new) floor.new) }
    ensures err { (l : Legalizer) → OnErr result (
        IsRunWithCutLine l session.now.team.now floor.old (K.contents lines.old) (K.contents lines.new) floor.new) }
    ensures only { ChangesOnly session.now.team.now floor.old floor.new }
    ensures legal { KeepsLegalCells session.now.team.now floor.old floor.new }
    ensures flagged { KeepsLockedPlaces session.now.team.now session.now.impossible.now floor.old floor.new }
    ensures committed { KeepsCommittedAndSettings session.now.team.now session.now.session floor.old floor.new }
    ensures done { OnOk result (All (λ own.
        IsLegalOrWithoutPlace search.now.reach targets.now floor.new session.now.team.now own) cells.now) }
    ensures off_soft { OnOk result (MovesOffSoft session.now.team.now floor.old floor.new) }
    ensures within { OnOk result (KeepsWithin search.now.reach targets.now session.now.team.now floor.old floor.new) }
{
    for own in cells {
        match legalize_cell(
            alloc,
            floor,
            session,
            *own as usize,
            targets,
            search,
            buffers,
            lines,
        ) {
            Ok(()) => {}
            Err(fault) => return Err(fault),
        }
    }
    Ok(())
}

/// Lists the cell at position `own`, unless no place can hold it.
fn note_movable(flags: &[bool], own: u32, movable: &mut Vec<u32>) -> Result<(), AllocError>
    ensures { OnOk result (HoldsOrIsListed (IsFlagged flags.now own) (IsFlagged flags.now own → ⊥) own
        movable.old.items movable.new.items) }
{
    if is_locked(flags, own as usize) {
        return Ok(());
    }
    movable.push(own)?;
    Ok(())
}

/// The cells of the list, except those that no place can hold.
fn movable_of(alloc: Global, cells: &[u32], flags: &[bool]) -> Result<Vec<u32>, AllocError>
    ensures { IfOk result (λ movable. AreMovable flags.now cells.now movable.items) }
{
    let mut movable = Vec::new(alloc);
    for own in cells {
        note_movable(flags, *own, &mut movable)?;
    }
    Ok(movable)
}

/// Runs the last pass: unplaces the cells that are not legal, except those that no place can hold,
/// and then moves each to its best place, if there is one within reach. Returns the positions of those
/// without a place and of those that no place can hold, in loading order. The other cells are legal.
/// Legal cells do not move, and the cells that move are then off soft blockages and within reach.
pub(crate) fn run_last_pass<S: Seeker + Drop, K: Sink>(
    alloc: Global,
    floor: &mut Floor<S>,
    session: &TeamSession<'_>,
    targets: &[Option<Place>],
    search: &RepairSearch<'_>,
    buffers: &mut Buffers,
    lines: &mut K,
) -> Result<Vec<u32>, RepairFault>
    requires { team_number floor.old.frame session.now.team.now ≡ Some session.now.number }
    ensures run { (l : Legalizer) → IfOk result (λ _.
        IsWrittenRun l session.now.team.now floor.old (K.contents lines.old) (K.contents lines.new) floor.new) }
    ensures err { (l : Legalizer) → OnErr result (
        IsRunWithCutLine l session.now.team.now floor.old (K.contents lines.old) (K.contents lines.new) floor.new) }
    ensures only { ChangesOnly session.now.team.now floor.old floor.new }
    ensures legal { KeepsLegalCells session.now.team.now floor.old floor.new }
    ensures flagged { KeepsLockedPlaces session.now.team.now session.now.impossible.now floor.old floor.new }
    ensures committed { KeepsCommittedAndSettings session.now.team.now session.now.session floor.old floor.new }
    ensures unrepaired { IfOk result (λ unrepaired.
        AreUnrepaired search.now.reach targets.now session.now.team.now session.now.impossible.now floor.new unrepaired.items) }
    ensures off_soft { OnOk result (MovesOffSoft session.now.team.now floor.old floor.new) }
    ensures within { OnOk result (KeepsWithin search.now.reach targets.now session.now.team.now floor.old floor.new) }
{
    let Ok(unrepaired) = illegal_cells(alloc, floor, session) else {
        return Err(RepairFault::OutOfMemory);
    };
    let Ok(movable) = movable_of(alloc, unrepaired.as_slice(), session.impossible) else {
        return Err(RepairFault::OutOfMemory);
    };
    if movable.as_slice().is_empty() {
        return Ok(unrepaired);
    }
    match unplace_cells(
        floor,
        session,
        movable.as_slice(),
        targets,
        search,
        buffers,
        lines,
    ) {
        Ok(()) => {}
        Err(fault) => return Err(fault),
    }
    match legalize_cells(
        alloc,
        floor,
        session,
        movable.as_slice(),
        targets,
        search,
        buffers,
        lines,
    ) {
        Ok(()) => {}
        Err(fault) => return Err(fault),
    }
    match illegal_cells(alloc, floor, session) {
        Ok(unrepaired) => Ok(unrepaired),
        Err(_) => Err(RepairFault::OutOfMemory),
    }
}
