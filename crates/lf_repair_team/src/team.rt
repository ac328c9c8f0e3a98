//! The repair of one team.

ghost use Rattle.std.specs.Prelude.{◌≡◌, ◌≢◌, ◌↔◌, ◌<◌, [], All, AllPairs, IfOk, OnErr, OnOk, Option, IsTrue, Some, false, ℤ};
ghost use Rattle.lf_rules.specs.Legalizer.{Legalizer};
ghost use Rattle.lf_floor_model.specs.Steps.{AllCommittedIn};
ghost use Rattle.lf_floor_model.specs.Teams.{team_number};
ghost use Rattle.lf_floor_model.specs.VerbLaws.{is_ok};
ghost use Rattle.lf_repair_strategy.specs.declared.pass.MovePolicy.TheVariants.{KeepLegal};
ghost use Rattle.lf_repair_team.specs.CellEdits.{AreAtTargetsOrOffSoft, AreFlaggedAtTargets, AreLockedInPlace, AreUnrepaired, AreWithin, IsSettled, KeepsCommittedAndSettings, KeepsCommittedPlaces, KeepsLegalAtTargets, KeepsLockedLegal, KeepsLockedPlaces, KeepsOtherSettings, KeepsPlaces, NoneIsFlagged, TeamHasLeftTargets, TeamIsAtTargetsExcept, settings_without};
ghost use Rattle.lf_repair_team.specs.TeamRepairs.{AllListedMove, AreLegalExcept, AreMovedOffSoft, ChangesOnly, HasNoPlaceOrIsListed, IsIllegalIn, KeepsLegalPlaces, KeepsListedPlaces, OnlyListedMove, StaysWithin, WasIllegal, committed_in, settings_in};
ghost use Rattle.lf_repair_team.specs.Runs.{IsRunWithCutLine, IsWrittenRun};
ghost use Rattle.lf_repair_team.specs.Stats.{AreTeamMeans, AreTeamStats};

use crate::cell_edits::{Buffers, TeamSession, is_locked, run_edits};
use crate::last_pass::run_last_pass;
use crate::misplaced_pass::run_misplaced_pass;
use crate::outcome::{RepairOutcome, found_of};
use crate::repair_input::team_input;
use crate::run_command::RepairFault;
use crate::session::{close, commit, open};
use crate::stats::stats_of;
use lf_floor::Floor;
use lf_floorplan::Place;
use lf_io::Sink;
use lf_legalize::Seeker;
use lf_proto::Refusal;
use lf_repair_bounds::ImpossibleMacro;
use lf_repair_strategy::{
    CellEdit, LocalPass, MovePolicy, Neighborhood, PaddedTeam, Pass, Phase, RepairInput,
    RepairSearch, RepairStats, edits_back, edits_for, has_improved, plan_local_pass,
    plan_window_pass,
};
use lf_rules::legalizer_exists;
use std::alloc::{AllocError, Global};

/// Commits the team if no cell is unrepaired; otherwise sends no command.
fn commit_if_clean<S: Seeker + Drop, K: Sink>(
    floor: &mut Floor<S>,
    session: &TeamSession<'_>,
    unrepaired: &[u32],
    buffers: &mut Buffers,
    lines: &mut K,
) -> Result<(), RepairFault>
    ensures run { (l : Legalizer) → IfOk result (λ _.
        IsWrittenRun l session.now.team.now floor.old (K.contents lines.old) (K.contents lines.new) floor.new) }
    ensures err { (l : Legalizer) → OnErr result (
        IsRunWithCutLine l session.now.team.now floor.old (K.contents lines.old) (K.contents lines.new) floor.new) }
    ensures only { ChangesOnly session.now.team.now floor.old floor.new }
    ensures places { KeepsPlaces session.now.team.now floor.old floor.new }
    ensures settings { KeepsOtherSettings session.now.team.now session.now.session floor.old floor.new }
    ensures committed { (l : Legalizer) → unrepaired.now ≡ [] → IfOk result (λ _.
        AllCommittedIn l floor.new session.now.team.now) }
    ensures kept { unrepaired.now ≢ [] → floor.new ≡ floor.old }
{
    legalizer_exists();
    if !unrepaired.is_empty() {
        return Ok(());
    }
    commit(floor, session, buffers, lines)
}

/// Lists the cells whose place changed, commits the team if no cell is unrepaired, and closes the
/// session. `unrepaired` has the unrepaired cells.
fn finish<S: Seeker + Drop, K: Sink>(
    alloc: Global,
    floor: &mut Floor<S>,
    session: &TeamSession<'_>,
    targets: &[Option<Place>],
    unrepaired: Vec<u32>,
    lines: &mut K,
) -> Result<RepairOutcome, RepairFault>
    requires number { team_number floor.old.frame session.now.team.now ≡ Some session.now.number }
    ensures run { (l : Legalizer) → IfOk result (λ _.
        IsWrittenRun l session.now.team.now floor.old (K.contents lines.old) (K.contents lines.new) floor.new) }
    ensures err { (l : Legalizer) → OnErr result (
        IsRunWithCutLine l session.now.team.now floor.old (K.contents lines.old) (K.contents lines.new) floor.new) }
    ensures only { ChangesOnly session.now.team.now floor.old floor.new }
    ensures places { KeepsPlaces session.now.team.now floor.old floor.new }
    ensures changed { IfOk result (λ found.
        TeamIsAtTargetsExcept session.now.team.now targets.now floor.new found.changed.items) }
    ensures moved { IfOk result (λ found.
        TeamHasLeftTargets session.now.team.now targets.now floor.new found.changed.items) }
    ensures unrepaired { (reach : Option ℤ)
        → AreUnrepaired reach targets.now session.now.team.now session.now.impossible.now floor.old unrepaired.items
        → IfOk result (λ found.
        AreUnrepaired reach targets.now session.now.team.now session.now.impossible.now floor.new found.left.items) }
    ensures left { IfOk result (λ found. found.left.items ≡ unrepaired.items) }
    ensures committed { (l : Legalizer) → IfOk result (λ found.
        found.left.items ≡ [] → AllCommittedIn l floor.new session.now.team.now) }
    ensures uncommitted { IfOk result (λ found.
        found.left.items ≢ [] → KeepsCommittedPlaces session.now.team.now floor.old floor.new) }
    ensures settings { OnOk result (settings_in floor.new session.now.team.now
        ≡ settings_without session.now.session floor.old session.now.team.now) }
{
    legalizer_exists();
    let Ok(found) = found_of(alloc, floor, session, targets, unrepaired) else {
        return Err(RepairFault::OutOfMemory);
    };
    let mut buffers = Buffers::new(alloc);
    match commit_if_clean(floor, session, found.left.as_slice(), &mut buffers, lines) {
        Ok(()) => {}
        Err(fault) => return Err(fault),
    }
    match close(floor, session, &mut buffers, lines) {
        Ok(()) => Ok(found),
        Err(fault) => Err(fault),
    }
}

/// The phases of a pass.
const PHASES: [Phase; 4] = [
    Phase::UnplaceForTall,
    Phase::PlaceTall,
    Phase::PlacePlanned,
    Phase::PlaceRemaining,
];

/// The edits of a phase for the cells of the team with this number, at their present places.
fn cell_edits_in<S: Seeker + Drop>(
    alloc: Global,
    floor: &Floor<S>,
    number: usize,
    pass: &Pass,
    phase: Phase,
    search: &RepairSearch<'_>,
) -> Result<Vec<CellEdit>, AllocError> {
    let placement = floor.placement();
    let team = PaddedTeam::new(placement.frame(), number, floor.padding_of(number));
    edits_for(alloc, placement, &team, pass, phase, search)
}

/// Runs all phases of a pass. The edits of each phase are computed from the floor after the
/// previous one.
fn run_pass<S: Seeker + Drop, K: Sink>(
    alloc: Global,
    floor: &mut Floor<S>,
    session: &TeamSession<'_>,
    pass: &Pass,
    search: &RepairSearch<'_>,
    buffers: &mut Buffers,
    lines: &mut K,
) -> Result<(), RepairFault>
    ensures run { (l : Legalizer) → IfOk result (λ _.
        IsWrittenRun l session.now.team.now floor.old (K.contents lines.old) (K.contents lines.new) floor.new) }
    ensures err { (l : Legalizer) → OnErr result (
        IsRunWithCutLine l session.now.team.now floor.old (K.contents lines.old) (K.contents lines.new) floor.new) }
    ensures only { ChangesOnly session.now.team.now floor.old floor.new }
    ensures marked { KeepsLockedPlaces session.now.team.now pass.now.locked.items floor.old floor.new }
    ensures flagged { KeepsLockedPlaces session.now.team.now session.now.impossible.now floor.old floor.new }
    ensures legal { KeepsLockedLegal session.now.team.now pass.now.locked.items floor.old floor.new }
    ensures committed { KeepsCommittedAndSettings session.now.team.now session.now.session floor.old floor.new }
{
    for phase in &PHASES {
        let Ok(cell_edits) = cell_edits_in(alloc, floor, session.number, pass, *phase, search)
        else {
            return Err(RepairFault::OutOfMemory);
        };
        match run_edits(
            floor,
            session,
            pass.locked.as_slice(),
            cell_edits.as_slice(),
            buffers,
            lines,
        ) {
            Ok(()) => {}
            Err(fault) => return Err(fault),
        }
    }
    Ok(())
}

/// The local passes, each over a larger region than the previous one. The first one lets cells at
/// fault push legal cells aside.
const REACHES: [Neighborhood; 6] = [
    Neighborhood::Windows,
    Neighborhood::Near { rows: 2, sites: 16 },
    Neighborhood::Near { rows: 8, sites: 64 },
    Neighborhood::Near {
        rows: 32,
        sites: 256,
    },
    Neighborhood::All,
    Neighborhood::Whole,
];

/// The local pass with this reach for the team with this number, at the present places.
fn local_plan_in<S: Seeker + Drop>(
    alloc: Global,
    floor: &Floor<S>,
    number: usize,
    input: &RepairInput,
    reach: &Neighborhood,
    search: &RepairSearch<'_>,
) -> Result<Option<LocalPass>, AllocError> {
    let placement = floor.placement();
    if matches!(reach, Neighborhood::Windows) {
        let team = PaddedTeam::new(placement.frame(), number, floor.padding_of(number));
        return plan_window_pass(alloc, placement, &team, input, search);
    }
    plan_local_pass(alloc, placement, number, input, reach, search)
}

/// Whether one of these cells was legal at the start of the repair, and so was locked in its first
/// pass.
fn has_locked(input: &RepairInput, cells: &[u32]) -> bool
    ensures { result ≡ false → NoneIsFlagged input.now.pass.locked.items cells.now }
{
    for own in cells {
        if is_locked(input.pass.locked.as_slice(), *own as usize) {
            return true;
        }
    }
    false
}

/// Ends a pass: unplaces the misplaced cells, and moves each cell that is not legal to its best place,
/// if there is one within reach. Returns the positions of the unrepaired cells, in loading order.
fn settle<S: Seeker + Drop, K: Sink>(
    alloc: Global,
    floor: &mut Floor<S>,
    session: &TeamSession<'_>,
    targets: &[Option<Place>],
    search: &RepairSearch<'_>,
    buffers: &mut Buffers,
    lines: &mut K,
) -> Result<Vec<u32>, RepairFault>
    requires { team_number floor.old.frame session.now.team.now ≡ Some session.now.number }
    ensures run { (l : Legalizer) → IfOk result (λ _.
        IsWrittenRun l session.now.team.now floor.old (K.contents lines.old) (K.contents lines.new) floor.new) }
    ensures err { (l : Legalizer) → OnErr result (
        IsRunWithCutLine l session.now.team.now floor.old (K.contents lines.old) (K.contents lines.new) floor.new) }
    ensures only { ChangesOnly session.now.team.now floor.old floor.new }
    ensures committed { KeepsCommittedAndSettings session.now.team.now session.now.session floor.old floor.new }
    ensures legal { KeepsLegalAtTargets session.now.team.now targets.now floor.old floor.new }
    ensures unmoved { AreFlaggedAtTargets session.now.team.now session.now.impossible.now targets.now floor.old
        → KeepsLockedPlaces session.now.team.now session.now.impossible.now floor.old floor.new }
    ensures settled { IfOk result (λ left.
        IsSettled search.now.reach targets.now session.now.team.now session.now.impossible.now floor.new left.items) }
{
    match run_misplaced_pass(floor, session, targets, search, buffers, lines) {
        Ok(()) => {}
        Err(fault) => return Err(fault),
    }
    run_last_pass(alloc, floor, session, targets, search, buffers, lines)
}

/// Runs a pass and ends it. Returns the positions of the unrepaired cells, in loading order.
fn run_settled_pass<S: Seeker + Drop, K: Sink>(
    alloc: Global,
    floor: &mut Floor<S>,
    session: &TeamSession<'_>,
    pass: &Pass,
    targets: &[Option<Place>],
    search: &RepairSearch<'_>,
    buffers: &mut Buffers,
    lines: &mut K,
) -> Result<Vec<u32>, RepairFault>
    requires { team_number floor.old.frame session.now.team.now ≡ Some session.now.number }
    ensures run { (l : Legalizer) → IfOk result (λ _.
        IsWrittenRun l session.now.team.now floor.old (K.contents lines.old) (K.contents lines.new) floor.new) }
    ensures err { (l : Legalizer) → OnErr result (
        IsRunWithCutLine l session.now.team.now floor.old (K.contents lines.old) (K.contents lines.new) floor.new) }
    ensures only { ChangesOnly session.now.team.now floor.old floor.new }
    ensures committed { KeepsCommittedAndSettings session.now.team.now session.now.session floor.old floor.new }
    ensures marked { AreLockedInPlace session.now.team.now pass.now.locked.items targets.now floor.old
        → AreLockedInPlace session.now.team.now pass.now.locked.items targets.now floor.new }
    ensures unmoved { AreFlaggedAtTargets session.now.team.now session.now.impossible.now targets.now floor.old
        → KeepsLockedPlaces session.now.team.now session.now.impossible.now floor.old floor.new }
    ensures settled { IfOk result (λ left.
        IsSettled search.now.reach targets.now session.now.team.now session.now.impossible.now floor.new left.items) }
{
    match run_pass(alloc, floor, session, pass, search, buffers, lines) {
        Ok(()) => {}
        Err(fault) => return Err(fault),
    }
    settle(alloc, floor, session, targets, search, buffers, lines)
}

/// Takes a local pass back: each cell goes where it was at the start of the pass. Returns the positions
/// of the unrepaired cells, in loading order. `Err` also if one of these was legal at the start of the
/// repair, since the floor refused a command.
fn take_back<S: Seeker + Drop, K: Sink>(
    alloc: Global,
    floor: &mut Floor<S>,
    session: &TeamSession<'_>,
    input: &RepairInput,
    local_plan: &LocalPass,
    search: &RepairSearch<'_>,
    buffers: &mut Buffers,
    lines: &mut K,
) -> Result<Vec<u32>, RepairFault>
    requires { team_number floor.old.frame session.now.team.now ≡ Some session.now.number }
    ensures run { (l : Legalizer) → IfOk result (λ _.
        IsWrittenRun l session.now.team.now floor.old (K.contents lines.old) (K.contents lines.new) floor.new) }
    ensures err { (l : Legalizer) → OnErr result (
        IsRunWithCutLine l session.now.team.now floor.old (K.contents lines.old) (K.contents lines.new) floor.new) }
    ensures only { ChangesOnly session.now.team.now floor.old floor.new }
    ensures committed { KeepsCommittedAndSettings session.now.team.now session.now.session floor.old floor.new }
    ensures unmoved { AreFlaggedAtTargets session.now.team.now session.now.impossible.now input.now.pass.targets.items
        floor.old
        → KeepsLockedPlaces session.now.team.now session.now.impossible.now floor.old floor.new }
    ensures settled { IfOk result (λ unrepaired.
        IsSettled search.now.reach input.now.pass.targets.items session.now.team.now session.now.impossible.now floor.new
        unrepaired.items) }
    ensures free { IfOk result (λ unrepaired. NoneIsFlagged input.now.pass.locked.items unrepaired.items) }
{
    let Ok(back) = edits_back(alloc, floor.placement(), session.number, local_plan) else {
        return Err(RepairFault::OutOfMemory);
    };
    match run_edits(floor, session, &[], back.as_slice(), buffers, lines) {
        Ok(()) => {}
        Err(fault) => return Err(fault),
    }
    let targets = input.pass.targets.as_slice();
    let unrepaired = match settle(alloc, floor, session, targets, search, buffers, lines) {
        Ok(unrepaired) => unrepaired,
        Err(fault) => return Err(fault),
    };
    if has_locked(input, unrepaired.as_slice()) {
        return Err(RepairFault::Refused(Refusal::NoCell));
    }
    Ok(unrepaired)
}

/// Whether a local pass is kept: it has improved something, and none of the unrepaired cells after it
/// was legal at the start of the repair.
fn is_kept<S: Seeker + Drop>(
    alloc: Global,
    floor: &Floor<S>,
    number: usize,
    input: &RepairInput,
    local_plan: &LocalPass,
    search: &RepairSearch<'_>,
    unrepaired: &[u32],
) -> Result<bool, AllocError>
    ensures { IfOk result (λ kept. IsTrue kept → NoneIsFlagged input.now.pass.locked.items unrepaired.now) }
{
    if has_locked(input, unrepaired) {
        return Ok(false);
    }
    has_improved(alloc, floor.placement(), number, input, local_plan, search)
}

/// Runs a local pass, in which legal cells may move too: its cells are unplaced and planned again. It
/// is taken back if it has improved nothing, or left a cell that was legal. `unrepaired` has the unrepaired
/// cells before the pass. Returns those after it.
fn run_local_pass<S: Seeker + Drop, K: Sink>(
    alloc: Global,
    floor: &mut Floor<S>,
    session: &TeamSession<'_>,
    input: &RepairInput,
    reach: &Neighborhood,
    search: &RepairSearch<'_>,
    unrepaired: Vec<u32>,
    lines: &mut K,
) -> Result<Vec<u32>, RepairFault>
    requires number { team_number floor.old.frame session.now.team.now ≡ Some session.now.number }
    requires settled { IsSettled search.now.reach input.now.pass.targets.items session.now.team.now session.now.impossible.now
        floor.old unrepaired.items }
    ensures run { (l : Legalizer) → IfOk result (λ _.
        IsWrittenRun l session.now.team.now floor.old (K.contents lines.old) (K.contents lines.new) floor.new) }
    ensures err { (l : Legalizer) → OnErr result (
        IsRunWithCutLine l session.now.team.now floor.old (K.contents lines.old) (K.contents lines.new) floor.new) }
    ensures only { ChangesOnly session.now.team.now floor.old floor.new }
    ensures committed { KeepsCommittedAndSettings session.now.team.now session.now.session floor.old floor.new }
    ensures unmoved { AreFlaggedAtTargets session.now.team.now session.now.impossible.now input.now.pass.targets.items
        floor.old
        → KeepsLockedPlaces session.now.team.now session.now.impossible.now floor.old floor.new }
    ensures settled { IfOk result (λ later.
        IsSettled search.now.reach input.now.pass.targets.items session.now.team.now session.now.impossible.now floor.new
        later.items) }
    ensures free { NoneIsFlagged input.now.pass.locked.items unrepaired.items
        → IfOk result (λ later. NoneIsFlagged input.now.pass.locked.items later.items) }
{
    let local_plan = match local_plan_in(alloc, floor, session.number, input, reach, search) {
        Ok(Some(local_plan)) => local_plan,
        Ok(None) => return Ok(unrepaired),
        Err(_) => return Err(RepairFault::OutOfMemory),
    };
    let mut buffers = Buffers::new(alloc);
    let later = match run_settled_pass(
        alloc,
        floor,
        session,
        &local_plan.pass,
        input.pass.targets.as_slice(),
        search,
        &mut buffers,
        lines,
    ) {
        Ok(later) => later,
        Err(fault) => return Err(fault),
    };
    match is_kept(
        alloc,
        floor,
        session.number,
        input,
        &local_plan,
        search,
        later.as_slice(),
    ) {
        Ok(true) => Ok(later),
        Ok(false) => take_back(
            alloc,
            floor,
            session,
            input,
            &local_plan,
            search,
            &mut buffers,
            lines,
        ),
        Err(_) => Err(RepairFault::OutOfMemory),
    }
}

/// Whether legal cells may move.
fn may_legal_move(policy: MovePolicy) -> bool
    ensures { policy ≡ KeepLegal → result ≡ false }
{
    match policy {
        MovePolicy::KeepLegal => false,
        _ => true,
    }
}

/// Runs the local passes. `unrepaired` has the unrepaired cells before them. Returns those after them.
fn run_local_passes<S: Seeker + Drop, K: Sink>(
    alloc: Global,
    floor: &mut Floor<S>,
    session: &TeamSession<'_>,
    input: &RepairInput,
    search: &RepairSearch<'_>,
    unrepaired: Vec<u32>,
    lines: &mut K,
) -> Result<Vec<u32>, RepairFault>
    requires number { team_number floor.old.frame session.now.team.now ≡ Some session.now.number }
    requires settled { IsSettled search.now.reach input.now.pass.targets.items session.now.team.now session.now.impossible.now
        floor.old unrepaired.items }
    ensures run { (l : Legalizer) → IfOk result (λ _.
        IsWrittenRun l session.now.team.now floor.old (K.contents lines.old) (K.contents lines.new) floor.new) }
    ensures err { (l : Legalizer) → OnErr result (
        IsRunWithCutLine l session.now.team.now floor.old (K.contents lines.old) (K.contents lines.new) floor.new) }
    ensures only { ChangesOnly session.now.team.now floor.old floor.new }
    ensures committed { KeepsCommittedAndSettings session.now.team.now session.now.session floor.old floor.new }
    ensures unmoved { AreFlaggedAtTargets session.now.team.now session.now.impossible.now input.now.pass.targets.items
        floor.old
        → KeepsLockedPlaces session.now.team.now session.now.impossible.now floor.old floor.new }
    ensures settled { IfOk result (λ later.
        IsSettled search.now.reach input.now.pass.targets.items session.now.team.now session.now.impossible.now floor.new
        later.items) }
    ensures free { NoneIsFlagged input.now.pass.locked.items unrepaired.items
        → IfOk result (λ later. NoneIsFlagged input.now.pass.locked.items later.items) }
{
    let mut later = unrepaired;
    for reach in &REACHES {
        later = match run_local_pass(alloc, floor, session, input, reach, search, later, lines) {
            Ok(later) => later,
            Err(fault) => return Err(fault),
        };
    }
    Ok(later)
}

/// Runs all passes. Returns the positions of the unrepaired cells, in loading order.
fn run_passes<S: Seeker + Drop, K: Sink>(
    alloc: Global,
    floor: &mut Floor<S>,
    session: &TeamSession<'_>,
    input: &RepairInput,
    search: &RepairSearch<'_>,
    lines: &mut K,
) -> Result<Vec<u32>, RepairFault>
    requires { team_number floor.old.frame session.now.team.now ≡ Some session.now.number }
    ensures run { (l : Legalizer) → IfOk result (λ _.
        IsWrittenRun l session.now.team.now floor.old (K.contents lines.old) (K.contents lines.new) floor.new) }
    ensures err { (l : Legalizer) → OnErr result (
        IsRunWithCutLine l session.now.team.now floor.old (K.contents lines.old) (K.contents lines.new) floor.new) }
    ensures only { ChangesOnly session.now.team.now floor.old floor.new }
    ensures committed { KeepsCommittedAndSettings session.now.team.now session.now.session floor.old floor.new }
    ensures marked { input.now.policy ≡ KeepLegal
        → AreLockedInPlace session.now.team.now input.now.pass.locked.items input.now.pass.targets.items floor.old
        → KeepsLockedPlaces session.now.team.now input.now.pass.locked.items floor.old floor.new }
    ensures unmoved { AreFlaggedAtTargets session.now.team.now session.now.impossible.now input.now.pass.targets.items
        floor.old
        → KeepsLockedPlaces session.now.team.now session.now.impossible.now floor.old floor.new }
    ensures settled { IfOk result (λ unrepaired.
        IsSettled search.now.reach input.now.pass.targets.items session.now.team.now session.now.impossible.now floor.new
        unrepaired.items) }
    ensures free { AreLockedInPlace session.now.team.now input.now.pass.locked.items input.now.pass.targets.items floor.old
        → IfOk result (λ unrepaired. NoneIsFlagged input.now.pass.locked.items unrepaired.items) }
{
    let mut buffers = Buffers::new(alloc);
    let unrepaired = match run_settled_pass(
        alloc,
        floor,
        session,
        &input.pass,
        input.pass.targets.as_slice(),
        search,
        &mut buffers,
        lines,
    ) {
        Ok(unrepaired) => unrepaired,
        Err(fault) => return Err(fault),
    };
    if !may_legal_move(input.policy) {
        return Ok(unrepaired);
    }
    run_local_passes(alloc, floor, session, input, search, unrepaired, lines)
}

/// Opens a session, runs all passes, and finishes.
fn repair_in_session<'a, S: Seeker + Drop, K: Sink>(
    alloc: Global,
    floor: &mut Floor<S>,
    team: &'a [u8],
    number: usize,
    input: &'a RepairInput,
    search: &RepairSearch<'_>,
    lines: &mut K,
) -> Result<RepairOutcome, RepairFault>
    requires { team_number floor.old.frame team.now ≡ Some number }
    ensures run { (l : Legalizer) → IfOk result (λ _.
        IsWrittenRun l team.now floor.old (K.contents lines.old) (K.contents lines.new) floor.new) }
    ensures err { (l : Legalizer) → OnErr result (
        IsRunWithCutLine l team.now floor.old (K.contents lines.old) (K.contents lines.new) floor.new) }
    ensures only { ChangesOnly team.now floor.old floor.new }
    ensures marked { input.now.policy ≡ KeepLegal
        → AreLockedInPlace team.now input.now.pass.locked.items input.now.pass.targets.items floor.old
        → KeepsLockedPlaces team.now input.now.pass.locked.items floor.old floor.new }
    ensures unmoved { AreFlaggedAtTargets team.now input.now.pass.impossible.items input.now.pass.targets.items
        floor.old
        → KeepsLockedPlaces team.now input.now.pass.impossible.items floor.old floor.new }
    ensures changed { IfOk result (λ found.
        TeamIsAtTargetsExcept team.now input.now.pass.targets.items floor.new found.changed.items) }
    ensures moved { IfOk result (λ found.
        TeamHasLeftTargets team.now input.now.pass.targets.items floor.new found.changed.items) }
    ensures unrepaired { IfOk result (λ found.
        AreUnrepaired search.now.reach input.now.pass.targets.items team.now input.now.pass.impossible.items floor.new
        found.left.items) }
    ensures within { OnOk result (AreWithin search.now.reach input.now.pass.targets.items team.now floor.new) }
    ensures committed { (l : Legalizer) → IfOk result (λ found.
        found.left.items ≡ [] → AllCommittedIn l floor.new team.now) }
    ensures uncommitted { IfOk result (λ found.
        found.left.items ≢ [] → KeepsCommittedPlaces team.now floor.old floor.new) }
    ensures settings { OnOk result (settings_in floor.new team.now ≡ settings_in floor.old team.now) }
    ensures off_soft { OnOk result (
        AreAtTargetsOrOffSoft team.now input.now.pass.targets.items floor.new) }
    ensures free { AreLockedInPlace team.now input.now.pass.locked.items input.now.pass.targets.items floor.old
        → IfOk result (λ found. NoneIsFlagged input.now.pass.locked.items found.left.items) }
{
    let mut buffers = Buffers::new(alloc);
    let session = match open(floor, team, &mut buffers, lines) {
        Ok(session) => session,
        Err(fault) => return Err(fault),
    };
    let team_session = TeamSession {
        team,
        number,
        session,
        impossible: input.pass.impossible.as_slice(),
    };
    let unrepaired = match run_passes(alloc, floor, &team_session, input, search, lines) {
        Ok(unrepaired) => unrepaired,
        Err(fault) => return Err(fault),
    };
    let targets = input.pass.targets.as_slice();
    finish(alloc, floor, &team_session, targets, unrepaired, lines)
}

/// Repairs a team: moves its cells that break a rule or have no place to legal places.
///
/// With `MoveAll` other cells may move too, with `MoveAsNeeded` only if a cell would otherwise have
/// no place or a long displacement. With `KeepLegal` legal cells never move, whether or not the
/// repair succeeds. The cells of the macros that are listed for the team never move either. All
/// cells whose place changed are listed.
///
/// Each command is sent to the floor, and its line is written exactly if the floor accepts it. If a
/// line can contain the team's name, each line reads as its command.
///
/// A cell is unrepaired only if it has no place, or is of a listed macro. It has no place if it is
/// unplaced, and next to the team's other cells no place off soft blockages is legal for it, or only
/// places beyond reach. All other cells are legal: also each that was legal before, whatever cells may
/// move. The unrepaired cells are listed in loading order.
/// Each placed cell that is elsewhere than before is off soft blockages. Each cell that had a place
/// and has one is within reach of the place that it had.
///
/// Nothing else depends on the search. It advises where cells go.
///
/// The team is committed if and only if no cell is unrepaired. Otherwise its cells stay at their
/// working places, and the committed places are unchanged. No other team changes, and a fully legal
/// committed design stays fully legal. The session in which it is repaired is closed: the team's padding
/// and session slots are unchanged. The numbers in the result are exact.
///
/// `Err` says why the repair stopped early. The floor is then as the accepted commands left it, and
/// their lines are written; of the last line perhaps only a prefix.
pub fn repair_team<S: Seeker + Drop, K: Sink>(
    alloc: Global,
    floor: &mut Floor<S>,
    team: &[u8],
    policy: MovePolicy,
    search: &RepairSearch<'_>,
    impossible: &[ImpossibleMacro],
    lines: &mut K,
) -> Result<RepairStats, RepairFault>
    ensures run { (l : Legalizer) → IfOk result (λ _.
        IsWrittenRun l team.now floor.old (K.contents lines.old) (K.contents lines.new) floor.new) }
    ensures err { (l : Legalizer) → OnErr result (
        IsRunWithCutLine l team.now floor.old (K.contents lines.old) (K.contents lines.new) floor.new) }
    ensures only { ChangesOnly team.now floor.old floor.new }
    ensures unknown { team_number floor.old.frame team.now ≡ None → result ≡ Err RepairFault.NoTeam }
    ensures kept { policy ≡ KeepLegal → KeepsLegalPlaces team.now floor.old floor.new }
    ensures unmoved { KeepsListedPlaces impossible.now team.now floor.old floor.new }
    ensures changed { IfOk result (λ repaired. OnlyListedMove team.now floor.old floor.new repaired.changed.items) }
    ensures moved { IfOk result (λ repaired. AllListedMove team.now floor.old floor.new repaired.changed.items) }
    ensures named { IfOk result (λ repaired. AreLegalExcept team.now floor.new repaired.unrepaired.items) }
    ensures illegal { IfOk result
        (λ repaired. All (λ own. IsIllegalIn floor.new team.now own) repaired.unrepaired.items) }
    ensures complete { IfOk result
        (λ repaired. All (HasNoPlaceOrIsListed search.now.reach impossible.now floor.old floor.new team.now)
        repaired.unrepaired.items) }
    ensures were_illegal { IfOk result
        (λ repaired. All (λ own. WasIllegal floor.old team.now own) repaired.unrepaired.items) }
    ensures within { OnOk result (StaysWithin search.now.reach team.now floor.old floor.new) }
    ensures rise { IfOk result (λ repaired. AllPairs (λ own later. own < later) repaired.unrepaired.items) }
    ensures committed { (l : Legalizer) → IfOk result (λ repaired.
        repaired.unrepaired.items ≡ [] ↔ AllCommittedIn l floor.new team.now) }
    ensures uncommitted { IfOk result (λ repaired.
        repaired.unrepaired.items ≢ [] → committed_in floor.new team.now ≡ committed_in floor.old team.now) }
    ensures settings { OnOk result (settings_in floor.new team.now ≡ settings_in floor.old team.now) }
    ensures off_soft { OnOk result (AreMovedOffSoft team.now floor.old floor.new) }
    ensures reported { IfOk result (λ repaired. AreTeamStats team.now floor.old floor.new repaired) }
    ensures means { IfOk result (λ repaired. AreTeamMeans team.now floor.old floor.new repaired.means) }
{
    let Some(number) = floor.team_number(team) else {
        return Err(RepairFault::NoTeam);
    };
    let Ok(input) = team_input(alloc, floor, team, number, policy, impossible) else {
        return Err(RepairFault::OutOfMemory);
    };
    match repair_in_session(alloc, floor, team, number, &input, search, lines) {
        Ok(found) => Ok(stats_of(floor, number, &input, found)),
        Err(fault) => Err(fault),
    }
}
