//! The improvement of one team.

ghost use Rattle.std.specs.Prelude.{◌≡◌, ◌↔◌, ◌<◌, ◌≤◌, ◌-◌, ◌^◌, [], IfOk, IfSome, IsTrue, List, None, OnErr, OnOk, Some, false, is_some, length, map, slice_get, slice_index_or, unwrap_or, ℕ};
ghost use Rattle.lf_cells.specs.Cells.{cells_of};
ghost use Rattle.lf_rules.specs.Legalizer.{Legalizer};
ghost use Rattle.lf_floor_model.specs.States.{TeamState};
ghost use Rattle.lf_floor_model.specs.Outcomes.{places_of};
ghost use Rattle.lf_floor_model.specs.Steps.{AllCommittedIn};
ghost use Rattle.lf_floor_model.specs.Teams.{state_of, team_number};
ghost use Rattle.lf_repair_team.specs.CellEdits.{AreStatsOfFirst, KeepsOtherSettings};
ghost use Rattle.lf_repair_team.specs.Runs.{IsRunWithCutLine, IsWrittenRun};
ghost use Rattle.lf_repair_team.specs.Stats.{AreTeamStats};
ghost use Rattle.lf_repair_team.specs.TeamRepairs.{AreMovedOffSoft, ChangesOnly, settings_in};
ghost use Rattle.lf_improve_team.specs.FloorLengths.{AreNetsOfFloor, DecidesAfter, DecidesOn, IsLengthOfNetsOn, IsWireLengthOn};
ghost use Rattle.lf_improve_team.specs.TeamImprovements.{AreCellsNear, IsCommitted, IsImprovable, IsMovedBack, IsShortened, KeepsTeamPlaces, StaysWithin};

use crate::cells_on_floor::CellsOnFloor;
use lf_floor::Floor;
use lf_floorplan::same_place;
use lf_improve_strategy::{ImproveOptions, ImproveSearch, WireNets, improvement_edits};
use lf_io::Sink;
use lf_legalize::Seeker;
use lf_placement::Placement;
use lf_repair_strategy::{CellEdit, PaddedTeam, RepairInput};
use lf_repair_team::{
    Buffers, MovePolicy, RepairFault, RepairOutcome, RepairStats, TeamSession, are_off_soft, close,
    is_team_legal, open, revert, run_edits, stats_of, team_input, try_commit,
};
use std::alloc::{AllocError, Global};

/// What is wanted of an improvement: its options, whose distance is in database units, and the wire
/// length of the design before it, in half database units.
#[derive(Clone, Copy)]
pub struct ImproveGoal {
    pub options: ImproveOptions,
    pub length: u64,
}

/// The result of improving one team.
#[derive(Drop)]
pub struct TeamImprovement {
    /// Whether the team was left alone: a cell was unplaced or broke a rule, or a working place was
    /// not committed.
    pub is_skipped: bool,
    /// Whether cells of the team have moved. Their new places are then committed.
    pub is_improved: bool,
    /// The number of the team's cells.
    pub cells: u32,
    /// The displacements and the turned cells, from before to after. Both lists are empty.
    pub stats: RepairStats,
    /// The wire length of the design afterwards, in half database units.
    pub length: u64,
}

/// An attempt to improve a team: the team at its start, the nets, what is wanted, how it is searched,
/// and the length of the team's nets before.
#[derive(Clone, Copy)]
struct Attempt<'a> {
    input: &'a RepairInput,
    wires: &'a WireNets<'a>,
    goal: &'a ImproveGoal,
    search: &'a ImproveSearch,
    /// The length of the team's nets at its start, in half database units.
    part: u64,
}

/// Whether all cells of the team with this number are at their committed places.
fn is_committed(placement: &Placement, number: usize) -> bool
    ensures { IsTrue result ↔ map (λ c. c.committed) (cells_of placement.now.cells number)
        ≡ places_of (cells_of placement.now.cells number) }
{
    for id in placement.cells().cells_of(number) {
        if !same_place(
            placement.cells().committed(*id),
            placement.cells().working(*id),
        ) {
            return false;
        }
    }
    true
}

/// Whether all cells of the team are placed, legal and at their committed places.
fn is_improvable<S: Seeker + Drop>(floor: &Floor<S>, team: &[u8], number: usize) -> bool
    requires { team_number floor.now.frame team.now ≡ Some number }
    ensures whole { (s : TeamState) → state_of floor.now team.now ≡ Some s
        → IsTrue result ↔ IsImprovable team.now floor.now }
    ensures committed { IsTrue result → IsCommitted team.now floor.now }
{
    is_team_legal(floor, team) && is_committed(floor.placement(), number)
}

/// The edits that shorten the wires of the team with this number.
fn team_edits<S: Seeker + Drop>(
    alloc: Global,
    floor: &Floor<S>,
    number: usize,
    attempt: &Attempt<'_>,
) -> Result<Vec<CellEdit>, AllocError> {
    let placement = floor.placement();
    let team = PaddedTeam::new(placement.frame(), number, floor.padding_of(number));
    let options = &attempt.goal.options;
    improvement_edits(
        alloc,
        placement,
        &team,
        attempt.wires,
        options,
        attempt.search,
    )
}

/// The length of the nets of the team with this number, with all cells at their working places, in
/// half database units.
fn length_of_team<S: Seeker + Drop>(floor: &Floor<S>, wires: &WireNets<'_>, number: usize) -> u64
    ensures { IsLengthOfNetsOn wires.now.netlist.now.nets (slice_index_or wires.now.of_teams.now number [])
        floor.now result }
{
    let cells = CellsOnFloor::new(floor.working(), &[]);
    wires.netlist.length_of(&cells, wires.of_teams.of(number))
}

/// A law: a length in 64 bits is at most the greatest number of 64 bits.
fn length_is_bounded(length: u64)
    ensures { length ≤ 2 ^ 64 - 1 }
{
    let _ = length;
}

/// Statistics of the team with this number since its start, with empty lists.
fn team_stats<S: Seeker + Drop>(
    alloc: Global,
    floor: &Floor<S>,
    number: usize,
    input: &RepairInput,
) -> RepairStats
    ensures lists { (result.changed.items ≡ []) × (result.unrepaired.items ≡ []) }
    ensures tally { (s : TeamState) → slice_get floor.now.teams number ≡ Some s
        → AreStatsOfFirst input.now.pass.targets.items input.now.legal.items s.cells (length s.cells) result }
{
    let found = RepairOutcome {
        changed: Vec::new(alloc),
        left: Vec::new(alloc),
    };
    stats_of(floor, number, input, found)
}

/// Whether no cell of the team with this number is farther than the limit from its place at the
/// start.
fn is_near<S: Seeker + Drop>(
    alloc: Global,
    floor: &Floor<S>,
    number: usize,
    input: &RepairInput,
    limit: Option<u64>,
) -> bool
    ensures { (team : List ℕ) → team_number floor.now.frame team ≡ Some number
        → IsTrue result → AreCellsNear limit input.now.pass.targets.items team floor.now }
{
    match limit {
        None => true,
        Some(far) => team_stats(alloc, floor, number, input).max_displacement <= far,
    }
}

/// The wire length on the floor, if it is shorter than before and no cell of the team with this
/// number is too far from its place at the start. Only the team's nets are measured.
fn better_length<S: Seeker + Drop>(
    alloc: Global,
    floor: &Floor<S>,
    number: usize,
    attempt: &Attempt<'_>,
) -> Option<u64>
    requires decides { DecidesOn attempt.now.wires.now.netlist.now.nets
        (slice_index_or attempt.now.wires.now.of_teams.now number []) attempt.now.goal.now.length attempt.now.part
        floor.now }
    ensures measured { IfSome result (λ length.
        IsWireLengthOn attempt.now.wires.now.netlist.now.nets floor.now length) }
    ensures shorter { IfSome result (λ length. length < attempt.now.goal.now.length) }
    ensures near { (team : List ℕ) → team_number floor.now.frame team ≡ Some number → IfSome result (λ _.
        AreCellsNear attempt.now.goal.now.options.within attempt.now.input.now.pass.targets.items team floor.now) }
{
    let part = length_of_team(floor, attempt.wires, number);
    if part >= attempt.part {
        return None;
    }
    let gain = attempt.part.saturating_sub(part);
    if !is_near(
        alloc,
        floor,
        number,
        attempt.input,
        attempt.goal.options.within,
    ) {
        return None;
    }
    Some(attempt.goal.length.saturating_sub(gain))
}

/// Commits the team if the wire length is shorter than before, no cell is too far from its place at
/// the start, and none has moved onto a soft blockage. Returns the wire length if the floor accepts the commit. Otherwise the floor is
/// unchanged.
fn commit_if_better<S: Seeker + Drop, K: Sink>(
    alloc: Global,
    floor: &mut Floor<S>,
    session: &TeamSession<'_>,
    attempt: &Attempt<'_>,
    lines: &mut K,
) -> Result<Option<u64>, RepairFault>
    requires number { team_number floor.old.frame session.now.team.now ≡ Some session.now.number }
    requires decides { DecidesAfter session.now.team.now attempt.now.wires.now.netlist.now.nets
        (slice_index_or attempt.now.wires.now.of_teams.now session.now.number []) attempt.now.goal.now.length
        attempt.now.part floor.old }
    ensures run { (l : Legalizer) → IfOk result (λ _.
        IsWrittenRun l session.now.team.now floor.old (K.contents lines.old) (K.contents lines.new) floor.new) }
    ensures err { (l : Legalizer) → OnErr result (
        IsRunWithCutLine l session.now.team.now floor.old (K.contents lines.old) (K.contents lines.new) floor.new) }
    ensures only { ChangesOnly session.now.team.now floor.old floor.new }
    ensures settings { KeepsOtherSettings session.now.team.now session.now.session floor.old floor.new }
    ensures improved { IfOk result (λ found. IfSome found (λ length.
        IsShortened attempt.now.wires.now.netlist.now.nets attempt.now.goal.now.length
        attempt.now.goal.now.options.within attempt.now.input.now.pass.targets.items
        session.now.team.now floor.new length)) }
    ensures kept { IfOk result (λ found. found ≡ None → floor.new ≡ floor.old) }
{
    let Some(length) = better_length(alloc, floor, session.number, attempt) else {
        return Ok(None);
    };
    if !are_off_soft(floor, session, attempt.input.pass.targets.as_slice()) {
        return Ok(None);
    }
    let mut buffers = Buffers::new(alloc);
    match try_commit(floor, session, &mut buffers, lines) {
        Ok(true) => Ok(Some(length)),
        Ok(false) => Ok(None),
        Err(fault) => Err(fault),
    }
}

/// Commits the team if that is an improvement. Otherwise, or if the floor refuses the commit, moves
/// its cells back. Returns the wire length if the team is committed.
fn commit_or_move_back<S: Seeker + Drop, K: Sink>(
    alloc: Global,
    floor: &mut Floor<S>,
    session: &TeamSession<'_>,
    attempt: &Attempt<'_>,
    lines: &mut K,
) -> Result<Option<u64>, RepairFault>
    requires number { team_number floor.old.frame session.now.team.now ≡ Some session.now.number }
    requires decides { DecidesAfter session.now.team.now attempt.now.wires.now.netlist.now.nets
        (slice_index_or attempt.now.wires.now.of_teams.now session.now.number []) attempt.now.goal.now.length
        attempt.now.part floor.old }
    ensures run { (l : Legalizer) → IfOk result (λ _.
        IsWrittenRun l session.now.team.now floor.old (K.contents lines.old) (K.contents lines.new) floor.new) }
    ensures err { (l : Legalizer) → OnErr result (
        IsRunWithCutLine l session.now.team.now floor.old (K.contents lines.old) (K.contents lines.new) floor.new) }
    ensures only { ChangesOnly session.now.team.now floor.old floor.new }
    ensures settings { KeepsOtherSettings session.now.team.now session.now.session floor.old floor.new }
    ensures improved { IfOk result (λ found. IfSome found (λ length.
        IsShortened attempt.now.wires.now.netlist.now.nets attempt.now.goal.now.length
        attempt.now.goal.now.options.within attempt.now.input.now.pass.targets.items
        session.now.team.now floor.new length)) }
    ensures kept { IfOk result (λ found.
        found ≡ None → IsMovedBack session.now.team.now floor.old floor.new) }
{
    match commit_if_better(alloc, floor, session, attempt, lines) {
        Ok(Some(length)) => return Ok(Some(length)),
        Ok(None) => {}
        Err(fault) => return Err(fault),
    }
    let mut buffers = Buffers::new(alloc);
    match revert(floor, session, &mut buffers, lines) {
        Ok(()) => Ok(None),
        Err(fault) => Err(fault),
    }
}

/// Moves cells of the team, and moves them back unless that is an improvement. Returns the wire
/// length if the team is improved.
fn move_cells<S: Seeker + Drop, K: Sink>(
    alloc: Global,
    floor: &mut Floor<S>,
    session: &TeamSession<'_>,
    attempt: &Attempt<'_>,
    lines: &mut K,
) -> Result<Option<u64>, RepairFault>
    requires number { team_number floor.old.frame session.now.team.now ≡ Some session.now.number }
    requires committed { IsCommitted session.now.team.now floor.old }
    requires decides { DecidesAfter session.now.team.now attempt.now.wires.now.netlist.now.nets
        (slice_index_or attempt.now.wires.now.of_teams.now session.now.number []) attempt.now.goal.now.length
        attempt.now.part floor.old }
    ensures run { (l : Legalizer) → IfOk result (λ _.
        IsWrittenRun l session.now.team.now floor.old (K.contents lines.old) (K.contents lines.new) floor.new) }
    ensures err { (l : Legalizer) → OnErr result (
        IsRunWithCutLine l session.now.team.now floor.old (K.contents lines.old) (K.contents lines.new) floor.new) }
    ensures only { ChangesOnly session.now.team.now floor.old floor.new }
    ensures settings { KeepsOtherSettings session.now.team.now session.now.session floor.old floor.new }
    ensures improved { IfOk result (λ found. IfSome found (λ length.
        IsShortened attempt.now.wires.now.netlist.now.nets attempt.now.goal.now.length
        attempt.now.goal.now.options.within attempt.now.input.now.pass.targets.items
        session.now.team.now floor.new length)) }
    ensures kept { IfOk result (λ found.
        found ≡ None → KeepsTeamPlaces session.now.team.now floor.old floor.new) }
{
    let Ok(edits) = team_edits(alloc, floor, session.number, attempt) else {
        return Err(RepairFault::OutOfMemory);
    };
    if edits.is_empty() {
        return Ok(None);
    }
    let mut buffers = Buffers::new(alloc);
    match run_edits(floor, session, &[], edits.as_slice(), &mut buffers, lines) {
        Ok(()) => {}
        Err(fault) => return Err(fault),
    }
    commit_or_move_back(alloc, floor, session, attempt, lines)
}

/// Opens a session, moves cells of the team, and closes the session. Returns the wire length if the
/// team is improved.
fn improve_in_session<S: Seeker + Drop, K: Sink>(
    alloc: Global,
    floor: &mut Floor<S>,
    team: &[u8],
    number: usize,
    attempt: &Attempt<'_>,
    lines: &mut K,
) -> Result<Option<u64>, RepairFault>
    requires number { team_number floor.old.frame team.now ≡ Some number }
    requires committed { IsCommitted team.now floor.old }
    requires decides { DecidesAfter team.now attempt.now.wires.now.netlist.now.nets
        (slice_index_or attempt.now.wires.now.of_teams.now number []) attempt.now.goal.now.length
        attempt.now.part floor.old }
    ensures run { (l : Legalizer) → IfOk result (λ _.
        IsWrittenRun l team.now floor.old (K.contents lines.old) (K.contents lines.new) floor.new) }
    ensures err { (l : Legalizer) → OnErr result (
        IsRunWithCutLine l team.now floor.old (K.contents lines.old) (K.contents lines.new) floor.new) }
    ensures only { ChangesOnly team.now floor.old floor.new }
    ensures settings { OnOk result (settings_in floor.new team.now ≡ settings_in floor.old team.now) }
    ensures improved { IfOk result (λ found. IfSome found (λ length.
        IsShortened attempt.now.wires.now.netlist.now.nets attempt.now.goal.now.length
        attempt.now.goal.now.options.within attempt.now.input.now.pass.targets.items
        team.now floor.new length)) }
    ensures kept { IfOk result (λ found. found ≡ None → KeepsTeamPlaces team.now floor.old floor.new) }
{
    let mut buffers = Buffers::new(alloc);
    let session = match open(floor, team, &mut buffers, lines) {
        Ok(session) => session,
        Err(fault) => return Err(fault),
    };
    let team_session = TeamSession {
        team,
        number,
        session,
        impossible: &[],
    };
    let found = match move_cells(alloc, floor, &team_session, attempt, lines) {
        Ok(found) => found,
        Err(fault) => return Err(fault),
    };
    match close(floor, &team_session, &mut buffers, lines) {
        Ok(()) => Ok(found),
        Err(fault) => Err(fault),
    }
}

/// The number of cells of the team with this number.
fn team_size(placement: &Placement, number: usize) -> u32
    ensures { result ≡ length (cells_of placement.now.cells number) }
{
    placement.cells_are_sized();
    placement.cells().cells_of(number).len() as u32
}

/// The result for the team with this number. `found` has the wire length if the team is improved.
fn result_of<S: Seeker + Drop>(
    alloc: Global,
    floor: &Floor<S>,
    number: usize,
    attempt: &Attempt<'_>,
    is_skipped: bool,
    found: Option<u64>,
) -> TeamImprovement
    ensures skipped { result.is_skipped ≡ is_skipped }
    ensures improved { result.is_improved ≡ is_some found }
    ensures length { result.length ≡ unwrap_or found attempt.now.goal.now.length }
    ensures cells { (s : TeamState) → slice_get floor.now.teams number ≡ Some s → result.cells ≡ length s.cells }
    ensures lists { (result.stats.changed.items ≡ []) × (result.stats.unrepaired.items ≡ []) }
    ensures tally { (s : TeamState) → slice_get floor.now.teams number ≡ Some s
        → AreStatsOfFirst attempt.now.input.now.pass.targets.items attempt.now.input.now.legal.items s.cells
        (length s.cells) result.stats }
{
    TeamImprovement {
        is_skipped,
        is_improved: found.is_some(),
        cells: team_size(floor.placement(), number),
        stats: team_stats(alloc, floor, number, attempt.input),
        length: found.unwrap_or(attempt.goal.length),
    }
}

/// Improves a team: moves its legal cells, so that the wire length of the design becomes shorter.
///
/// The team is skipped if one of its cells is unplaced or breaks a rule, or if a working place is
/// not committed; then no command is sent. It is improved only if the wire length of the whole
/// design is then shorter, no cell of the team is farther from where it was than the options allow, and
/// each cell that is elsewhere is off soft blockages; then all its cells are legal and committed. Otherwise its working and committed places
/// are as before, and so is the wire length.
///
/// Each command is sent to the floor, and its line is written exactly if the floor accepts it. If a
/// line can contain the team's name, each line reads as its command. No other team changes, and a
/// fully legal committed design stays fully legal. The session is closed: the team's padding and
/// session slots are unchanged. The numbers in the result are exact.
///
/// `Err` says why the improvement stopped early. The floor is then as the accepted commands left
/// it, and their lines are written; of the last line perhaps only a prefix.
pub fn improve_team<S: Seeker + Drop, K: Sink>(
    alloc: Global,
    floor: &mut Floor<S>,
    team: &[u8],
    wires: &WireNets<'_>,
    goal: &ImproveGoal,
    search: &ImproveSearch,
    lines: &mut K,
) -> Result<TeamImprovement, RepairFault>
    requires measured { IsWireLengthOn wires.now.netlist.now.nets floor.old goal.now.length }
    requires nets { AreNetsOfFloor wires.now.of_teams.now wires.now.netlist.now.nets floor.old }
    ensures run { (l : Legalizer) → IfOk result (λ _.
        IsWrittenRun l team.now floor.old (K.contents lines.old) (K.contents lines.new) floor.new) }
    ensures err { (l : Legalizer) → OnErr result (
        IsRunWithCutLine l team.now floor.old (K.contents lines.old) (K.contents lines.new) floor.new) }
    ensures only { ChangesOnly team.now floor.old floor.new }
    ensures unknown { team_number floor.old.frame team.now ≡ None → result ≡ Err RepairFault.NoTeam }
    ensures settings { OnOk result (settings_in floor.new team.now ≡ settings_in floor.old team.now) }
    ensures skipped { (s : TeamState) → state_of floor.old team.now ≡ Some s
        → IfOk result (λ done. done.is_skipped ≡ false ↔ IsImprovable team.now floor.old) }
    ensures untouched { IfOk result (λ done. IsTrue done.is_skipped → floor.new ≡ floor.old) }
    ensures improved { (l : Legalizer) → IfOk result (λ done.
        IsTrue done.is_improved → AllCommittedIn l floor.new team.now) }
    ensures kept { IfOk result (λ done. done.is_improved ≡ false → KeepsTeamPlaces team.now floor.old floor.new) }
    ensures measured { IfOk result (λ done. IsWireLengthOn wires.now.netlist.now.nets floor.new done.length) }
    ensures longer { IfOk result (λ done. done.length ≤ goal.now.length) }
    ensures shorter { IfOk result (λ done. IsTrue done.is_improved → done.length < goal.now.length) }
    ensures near { IfOk result (λ done. StaysWithin goal.now.options.within team.now floor.old floor.new) }
    ensures off_soft { IfOk result (λ done. AreMovedOffSoft team.now floor.old floor.new) }
    ensures counted { IfOk result (λ done. AreTeamStats team.now floor.old floor.new done.stats) }
    ensures lists { IfOk result (λ done. (done.stats.changed.items ≡ []) × (done.stats.unrepaired.items ≡ [])) }
    ensures cells { (s : TeamState) → state_of floor.old team.now ≡ Some s
        → IfOk result (λ done. done.cells ≡ length s.cells) }
{
    let Some(number) = floor.team_number(team) else {
        return Err(RepairFault::NoTeam);
    };
    length_is_bounded(goal.length);
    let Ok(start) = team_input(alloc, floor, team, number, MovePolicy::MoveAll, &[]) else {
        return Err(RepairFault::OutOfMemory);
    };
    let attempt = Attempt {
        input: &start,
        wires,
        goal,
        search,
        part: length_of_team(floor, wires, number),
    };
    if !is_improvable(floor, team, number) {
        return Ok(result_of(alloc, floor, number, &attempt, true, None));
    }
    match improve_in_session(alloc, floor, team, number, &attempt, lines) {
        Ok(found) => Ok(result_of(alloc, floor, number, &attempt, false, found)),
        Err(fault) => Err(fault),
    }
}
