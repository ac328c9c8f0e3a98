//! Changes single cells, and leaves all other cells at their places.

ghost use Rattle.std.specs.Prelude.{◌≡◌, ◌≢◌, ◌↔◌, [], IfOk, IsTrue, List, OnErr, Some, ℕ, false, option_and_then, slice_get, true};
ghost use Rattle.lf_proto.specs.Lines.{IsLineName};
ghost use Rattle.lf_rules.specs.Legalizer.{Legalizer};
ghost use Rattle.lf_proto.specs.Requests.{IsInRange, IsPlainAction, IsTarget};
ghost use Rattle.lf_proto.specs.Verbs.{action_of, change_of};
ghost use Rattle.lf_proto.specs.declared.request.Command.TheVariants.{To};
ghost use Rattle.lf_proto.specs.declared.request.TeamCommand.TheVariants.{Within};
ghost use Rattle.lf_proto.specs.declared.verb.Action.TheVariants.{Change as Changing};
ghost use Rattle.lf_floor_model.specs.States.{TeamState};
ghost use Rattle.lf_floor_model.specs.Outcomes.{name_at};
ghost use Rattle.lf_floor_model.specs.Steps.{CommitsLegally, KeepsIfRefused, Step};
ghost use Rattle.lf_floor_model.specs.Teams.{state_of};
ghost use Rattle.lf_repair_team.specs.CellEdits.{IsAnotherCell, IsOfCell, IsUnchangedOrStepped, KeepsCommittedAndSettings, KeepsLockedLegal, KeepsLockedPlaces, RemainsLegal};
ghost use Rattle.lf_repair_team.specs.TeamRepairs.{ChangesOnly, place_of_cell_in};
ghost use Rattle.lf_repair_team.specs.Runs.{IsRunWithCutLine, IsWrittenRun};

use crate::run_command::{RepairFault, run_command};
use lf_floor::Floor;
use lf_floorplan::Place;
use lf_io::Sink;
use lf_legalize::Seeker;
use lf_proto::{Action, Change, Command, Refusal, Reply, TeamCommand};
use lf_repair_strategy::{CellEdit, Edit};
use lf_rules::{legal_in_range, legalizer_exists};
use lf_units::Point;
use std::alloc::{AllocError, Global};

/// A session of a team. `impossible` says of each cell whether no place can hold it. Such cells do
/// not move.
#[derive(Clone, Copy)]
pub struct TeamSession<'a> {
    pub team: &'a [u8],
    pub number: usize,
    pub session: u32,
    pub impossible: &'a [bool],
}

/// Buffers for the name of a cell and the line of a command.
#[derive(Drop)]
pub struct Buffers {
    pub(crate) name: Vec<u8>,
    pub(crate) line: Vec<u8>,
}

impl Buffers {
    /// Empty buffers, which allocate nothing.
    pub fn new(alloc: Global) -> Buffers {
        Buffers {
            name: Vec::new(alloc),
            line: Vec::new(alloc),
        }
    }
}

/// The target, limited to the range of coordinates that a line can contain.
pub(crate) fn target_in_range(target: &Point) -> Point
    ensures { IsTarget result }
{
    Point {
        x: target.x.clamp(-2_147_483_647, 2_147_483_647),
        y: target.y.clamp(-2_147_483_647, 2_147_483_647),
    }
}

/// The same place. The copy shows the prover that its coordinates are in the range that a line can
/// contain.
fn place_in_range(place: &Place) -> Place
    ensures { IsInRange result }
{
    Place::new(place.x, place.y, place.orient)
}

/// The change of the cell with this name.
fn change_of<'x>(step: &Edit, cell: &'x [u8]) -> Change<&'x [u8]>
    requires { IsLineName cell.now }
    ensures cell { IsOfCell cell.now (change_of result) }
    ensures plain { IsPlainAction (Changing (change_of result)) }
{
    match step {
        Edit::Unplace => Change::Unplace { cell },
        Edit::Place(place) => Change::Place {
            cell,
            place: place_in_range(place),
        },
        Edit::Legalize(target) => Change::Legalize {
            cell,
            target: target_in_range(target),
        },
    }
}

/// The effect of a reply on the repair: it continues unless memory ran out, or the team has no revision
/// left.
pub(crate) fn continue_unless_exhausted(reply: &Reply) -> Result<(), RepairFault> {
    match reply {
        Reply::Refused(Refusal::OutOfMemory) => Err(RepairFault::OutOfMemory),
        Reply::Refused(Refusal::RevisionsSpent) => {
            Err(RepairFault::Refused(Refusal::RevisionsSpent))
        }
        _ => Ok(()),
    }
}

/// Sends an action of the session.
pub(crate) fn run_action<S: Seeker + Drop, K: Sink>(
    floor: &mut Floor<S>,
    session: &TeamSession<'_>,
    action: Action<&[u8]>,
    line: &mut Vec<u8>,
    lines: &mut K,
) -> Result<Reply, RepairFault>
    requires { IsPlainAction (action_of action) }
    ensures run { (l : Legalizer) → IfOk result (λ _.
        IsWrittenRun l session.now.team.now floor.old (K.contents lines.old) (K.contents lines.new) floor.new) }
    ensures err { (l : Legalizer) → OnErr result (
        IsRunWithCutLine l session.now.team.now floor.old (K.contents lines.old) (K.contents lines.new) floor.new) }
    ensures only { ChangesOnly session.now.team.now floor.old floor.new }
    ensures requested { (l : Legalizer) → IsUnchangedOrStepped l floor.old
        (To session.now.team.now (Within session.now.session (action_of action.entry))) floor.new }
    ensures replied { (l : Legalizer) → IfOk result (λ reply.
        Step l floor.old (To session.now.team.now (Within session.now.session (action_of action.entry))) reply floor.new) }
    ensures committed { (l : Legalizer)
        → IfOk result (λ reply. CommitsLegally l
        (To session.now.team.now (Within session.now.session (action_of action.entry))) reply floor.new) }
    ensures refused { IfOk result (λ reply. KeepsIfRefused reply floor.old floor.new) }
{
    let request = Command::To {
        team: session.team,
        order: TeamCommand::Within {
            session: session.session,
            action,
        },
    };
    run_command(floor, &request, line, lines)
}

/// Sends the edit of the cell with this name.
fn run_edit_of<S: Seeker + Drop, K: Sink>(
    floor: &mut Floor<S>,
    session: &TeamSession<'_>,
    cell: &[u8],
    step: &Edit,
    line: &mut Vec<u8>,
    lines: &mut K,
) -> Result<(), RepairFault>
    requires { IsLineName cell.now }
    ensures run { (l : Legalizer) → IfOk result (λ _.
        IsWrittenRun l session.now.team.now floor.old (K.contents lines.old) (K.contents lines.new) floor.new) }
    ensures err { (l : Legalizer) → OnErr result (
        IsRunWithCutLine l session.now.team.now floor.old (K.contents lines.old) (K.contents lines.new) floor.new) }
    ensures only { ChangesOnly session.now.team.now floor.old floor.new }
    ensures cells { (other : ℕ) → IsAnotherCell floor.old session.now.team.now cell.now other
        → place_of_cell_in floor.new session.now.team.now other ≡ place_of_cell_in floor.old session.now.team.now other }
    ensures legal { (other : ℕ) → IsAnotherCell floor.old session.now.team.now cell.now other
        → RemainsLegal session.now.team.now floor.old floor.new other }
    ensures committed { KeepsCommittedAndSettings session.now.team.now session.now.session floor.old floor.new }
{
    legalizer_exists();
    legal_in_range();
    floor.teams_match_frame();
    let action = Action::Change(change_of(step, cell));
    match run_action(floor, session, action, line, lines) {
        Ok(reply) => continue_unless_exhausted(&reply),
        Err(fault) => Err(fault),
    }
}

/// Copies the name of the team's cell at position `own`. Returns false only if there is no such
/// cell, or if its name is empty. A line can contain each other name.
pub(crate) fn copy_name<S: Seeker + Drop>(
    floor: &Floor<S>,
    team: &[u8],
    own: usize,
    name: &mut Vec<u8>,
) -> Result<bool, AllocError>
    ensures name { (s : TeamState) → IfOk result (λ there.
        IsTrue there → state_of floor.now team.now ≡ Some s → name_at s.cells own ≡ Some name.new.items) }
    ensures known { IfOk result (λ there.
        IsTrue there → option_and_then (λ s. name_at s.cells own) (state_of floor.now team.now) ≡ Some name.new.items) }
    ensures plain { IfOk result (λ there. IsTrue there → IsLineName name.new.items) }
    ensures skipped { (its : List ℕ)
        → option_and_then (λ s. name_at s.cells own) (state_of floor.now team.now) ≡ Some its
        → IfOk result (λ there. there ≡ false → its ≡ []) }
{
    name.clear();
    let Some(bytes) = floor.name_of(team, own) else {
        return Ok(false);
    };
    name.extend_from_slice(bytes)?;
    Ok(!bytes.is_empty())
}

/// Sends the edit of the team's cell at position `own`.
pub(crate) fn run_edit<S: Seeker + Drop, K: Sink>(
    floor: &mut Floor<S>,
    session: &TeamSession<'_>,
    own: usize,
    step: &Edit,
    buffers: &mut Buffers,
    lines: &mut K,
) -> Result<(), RepairFault>
    ensures run { (l : Legalizer) → IfOk result (λ _.
        IsWrittenRun l session.now.team.now floor.old (K.contents lines.old) (K.contents lines.new) floor.new) }
    ensures err { (l : Legalizer) → OnErr result (
        IsRunWithCutLine l session.now.team.now floor.old (K.contents lines.old) (K.contents lines.new) floor.new) }
    ensures only { ChangesOnly session.now.team.now floor.old floor.new }
    ensures cells { (other : ℕ) → other ≢ own
        → place_of_cell_in floor.new session.now.team.now other ≡ place_of_cell_in floor.old session.now.team.now other }
    ensures legal { (other : ℕ) → other ≢ own → RemainsLegal session.now.team.now floor.old floor.new other }
    ensures committed { KeepsCommittedAndSettings session.now.team.now session.now.session floor.old floor.new }
{
    floor.teams_match_frame();
    let Buffers { name, line } = buffers;
    match copy_name(floor, session.team, own, name) {
        Ok(true) => run_edit_of(floor, session, name.as_slice(), step, line, lines),
        Ok(false) => Ok(()),
        Err(_) => Err(RepairFault::OutOfMemory),
    }
}

/// Whether the cell at position `own` is locked.
pub(crate) fn is_locked(locked: &[bool], own: usize) -> bool
    ensures { IsTrue result ↔ slice_get locked.now own ≡ Some true }
{
    match locked.get(own) {
        Some(marked) => *marked,
        None => false,
    }
}

/// Sends the edit, unless its cell is locked or no place can hold it.
fn run_edit_unless_locked<S: Seeker + Drop, K: Sink>(
    floor: &mut Floor<S>,
    session: &TeamSession<'_>,
    locked: &[bool],
    cell_edit: &CellEdit,
    buffers: &mut Buffers,
    lines: &mut K,
) -> Result<(), RepairFault>
    ensures run { (l : Legalizer) → IfOk result (λ _.
        IsWrittenRun l session.now.team.now floor.old (K.contents lines.old) (K.contents lines.new) floor.new) }
    ensures err { (l : Legalizer) → OnErr result (
        IsRunWithCutLine l session.now.team.now floor.old (K.contents lines.old) (K.contents lines.new) floor.new) }
    ensures only { ChangesOnly session.now.team.now floor.old floor.new }
    ensures marked { KeepsLockedPlaces session.now.team.now locked.now floor.old floor.new }
    ensures flagged { KeepsLockedPlaces session.now.team.now session.now.impossible.now floor.old floor.new }
    ensures legal { KeepsLockedLegal session.now.team.now locked.now floor.old floor.new }
    ensures committed { KeepsCommittedAndSettings session.now.team.now session.now.session floor.old floor.new }
{
    let own = cell_edit.own as usize;
    if is_locked(locked, own) {
        return Ok(());
    }
    if is_locked(session.impossible, own) {
        return Ok(());
    }
    run_edit(floor, session, own, &cell_edit.step, buffers, lines)
}

/// Sends all edits in their order, except those of cells that are locked or that no place can hold.
pub fn run_edits<S: Seeker + Drop, K: Sink>(
    floor: &mut Floor<S>,
    session: &TeamSession<'_>,
    locked: &[bool],
    cell_edits: &[CellEdit],
    buffers: &mut Buffers,
    lines: &mut K,
) -> Result<(), RepairFault>
    ensures run { (l : Legalizer) → IfOk result (λ _.
        IsWrittenRun l session.now.team.now floor.old (K.contents lines.old) (K.contents lines.new) floor.new) }
    ensures err { (l : Legalizer) → OnErr result (
        IsRunWithCutLine l session.now.team.now floor.old (K.contents lines.old) (K.contents lines.new) floor.new) }
    ensures only { ChangesOnly session.now.team.now floor.old floor.new }
    ensures marked { KeepsLockedPlaces session.now.team.now locked.now floor.old floor.new }
    ensures flagged { KeepsLockedPlaces session.now.team.now session.now.impossible.now floor.old floor.new }
    ensures legal { KeepsLockedLegal session.now.team.now locked.now floor.old floor.new }
    ensures committed { KeepsCommittedAndSettings session.now.team.now session.now.session floor.old floor.new }
{
    for cell_edit in cell_edits {
        match run_edit_unless_locked(floor, session, locked, cell_edit, buffers, lines) {
            Ok(()) => {}
            Err(fault) => return Err(fault),
        }
    }
    Ok(())
}
