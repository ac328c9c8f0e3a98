//! Repairs the selected teams of a floor: its own commands give their cells legal places.

ghost use Rattle.std.specs.Prelude.{◌≡◌, ◌≢◌, ◌+◌, ◌-◌, ◌^◌, ℕ, List, Some, IfErr, IfOk, OnOk, length, map, min, pos};
ghost use Rattle.lf_cli.specs.declared.parse.LegalCells.TheVariants.{KeepLegal};
ghost use Rattle.lf_rules.specs.Legalizer.{Legalizer};
ghost use Rattle.lf_floor_model.specs.States.{TeamState};
ghost use Rattle.lf_floor_model.specs.Teams.{state_of, team_number};
ghost use Rattle.lf_repair_strategy.specs.declared.pass.MovePolicy.TheVariants.{KeepLegal as Keep};
ghost use Rattle.lf_repair_team.specs.TeamRepairs.{ChangesOnly, KeepsLegalPlaces, place_of_cell_in};
ghost use Rattle.lf_repair_strategy.specs.Targets.{AreWorkingPlaces};
ghost use Rattle.lf_repair_strategy.specs.declared.stats.RepairStats.{RepairStats};
ghost use Rattle.lf_task_reports.specs.RepairReports.{IsOneMore};
ghost use Rattle.lf_task_faults.specs.Faults.{IsEarly};
ghost use Rattle.lf_task_faults.specs.declared.faults.Fault.TheVariants.{SetupOutOfMemory};
ghost use Rattle.lf_task_run.specs.Commands.{IsKeptRun, kept_text};
ghost use Rattle.lf_task_run.specs.Tasks.{IsWorkDone, request_of};
ghost use Rattle.lf_task_run.specs.Teams.{AreKnown, IsStatusOf, OnlySelectedChange, selected_at, selected_names};
ghost use Rattle.lf_task_repair.specs.Reports.{AddsTeamLines, AddsTotalLine, IsRepairOf, KeepsAllLegalPlaces, policy_of, reach_of_rows};
ghost use Rattle.lf_task_repair.specs.Repairs.{IsRepairFault, IsTeamFault, repair_means};

use lf_cli::{LegalCells, RepairOptions};
use lf_density::Density;
use lf_floor::{Floor, team_name};
use lf_floorplan::{Frame, Place};
use lf_legalize::IndexSeeker;
use lf_proto::Refusal;
use lf_repair_strategy::working_places;
use lf_repair_team::{MovePolicy, RepairFault, RepairSearch, repair_team};
use lf_rules::legalizer_exists;
use lf_task_faults::{Fault, TeamRefusal};
use lf_task_files::{RepairLimits, is_committed_legal};
use lf_task_reports::{RepairReport, density_on, density_since};
use lf_task_run::{
    CommandLog, Job, Progress, ProgressSink, TaskResults, announce_team, is_selected, status_by,
};
use lf_wire_targets::TeamTargets;
use std::alloc::{AllocError, Global};

/// The greatest distance that a cell may be allowed to go, in database units.
const MOST_REACH: u64 = 9_223_372_036_854_775_807;

/// Which of a team's cells may move.
fn policy_of(legal: LegalCells) -> MovePolicy
    ensures { result ≡ policy_of legal }
{
    match legal {
        LegalCells::KeepLegal => MovePolicy::KeepLegal,
        LegalCells::MoveAsNeeded => MovePolicy::MoveAsNeeded,
        LegalCells::MoveAll => MovePolicy::MoveAll,
    }
}

/// Returns the working places of the cells of the team with this name, in loading order. Empty if no team
/// has the name. `Err` if an allocation fails.
fn places_in_team(
    alloc: Global,
    floor: &Floor<IndexSeeker>,
    team: &[u8],
) -> Result<Vec<Option<Place>>, AllocError>
    ensures { (s : TeamState) → state_of floor.now team.now ≡ Some s
        → IfOk result (λ places. AreWorkingPlaces s.cells places.items) }
{
    let Some(number) = floor.team_number(team) else {
        return Ok(Vec::new(alloc));
    };
    working_places(alloc, floor.placement(), number)
}

/// Returns the fault of a task that could not repair the team with this name.
fn fault_of<'f>(alloc: Global, team: &[u8], fault: RepairFault) -> Fault<'f>
    ensures { IsTeamFault team.now result }
{
    let why = match fault {
        RepairFault::Refused(Refusal::SessionsFull) => TeamRefusal::SessionsFull,
        RepairFault::Refused(Refusal::RevisionsSpent) => TeamRefusal::RevisionsSpent,
        RepairFault::Refused(Refusal::OutOfMemory) => return Fault::SetupOutOfMemory,
        RepairFault::Refused(_) => TeamRefusal::Other,
        _ => return Fault::SetupOutOfMemory,
    };
    match Vec::from_slice(alloc, team) {
        Ok(name) => Fault::RefusedTeam(name, why),
        Err(_) => Fault::SetupOutOfMemory,
    }
}

/// Repairs the team with this name, and adds its line to the report. `Err` if an allocation fails, or
/// if the floor refuses a command: a restored state may have no free session slot, or no revision
/// left.
fn repair_named<'f, P: Progress>(
    alloc: Global,
    floor: &mut Floor<IndexSeeker>,
    name: &[u8],
    policy: MovePolicy,
    search: &RepairSearch<'_>,
    lines: &mut ProgressSink<'_, P>,
    report: &mut RepairReport,
) -> Result<(), Fault<'f>>
    ensures run { (l : Legalizer)
        → OnOk result (IsKeptRun l floor.old (kept_text lines.old.lines) (kept_text lines.new.lines) floor.new) }
    ensures only { ChangesOnly name.now floor.old floor.new }
    ensures kept { policy ≡ Keep → KeepsLegalPlaces name.now floor.old floor.new }
    ensures reported { OnOk result
        ((repaired : RepairStats)
        × IsOneMore floor.new name.now (place_of_cell_in floor.old name.now) repaired report.old report.new
        × IsRepairOf search.now.reach report.old.impossible.items name.now floor.old floor.new repaired) }
    ensures err { IfErr result (IsTeamFault name.now) }
{
    let old_places = places_in_team(alloc, floor, name)?;
    let impossible = report.impossible.as_slice();
    match repair_team(alloc, floor, name, policy, search, impossible, lines) {
        Ok(repaired) => {
            report.add(alloc, floor, name, old_places.as_slice(), &repaired)?;
            Ok(())
        }
        Err(fault) => Err(fault_of(alloc, name, fault)),
    }
}

/// Returns the distance, or the greatest number of 63 bits if it is greater.
fn in_63_bits(distance: u64) -> i64
    ensures { result ≡ pos (min distance (2 ^ 63 - 1)) }
{
    distance.min(MOST_REACH) as i64
}

/// Returns the distance in database units that a cell may move, given as a number of rows. `None` if
/// there is no limit.
fn reach_of_rows(frame: &Frame, rows: Option<u32>) -> Option<i64>
    ensures { result ≡ reach_of_rows frame.now rows }
{
    let height = frame.pitch.y.unsigned_abs();
    Some(in_63_bits(height.saturating_mul(u64::from(rows?))))
}

/// What a repair of the teams of a floor needs besides the floor.
#[derive(Clone, Copy)]
struct RepairPlan<'a> {
    /// The names of the selected teams. All teams are selected if it is empty.
    teams: &'a [&'a str],
    options: &'a RepairOptions,
    /// The targets of cells without a place.
    targets: &'a TeamTargets,
}

/// Returns how a repair of the team with this number searches for places.
fn search_of<'t>(
    frame: &Frame,
    options: &RepairOptions,
    targets: &'t TeamTargets,
    number: usize,
) -> RepairSearch<'t>
    ensures { result.reach ≡ reach_of_rows frame.now options.now.within }
{
    RepairSearch {
        tries: options.tries,
        reach: reach_of_rows(frame, options.within),
        balances_heights: options.balances_heights,
        targets: targets.of_team(number),
    }
}

/// Repairs the team with this number, if it is selected.
#[tactic(auto, using(lf_task_run::proofs::Running::nothing_requested, lf_task_run::proofs::Running::none_changes))]
fn repair_numbered<'f, P: Progress>(
    alloc: Global,
    floor: &mut Floor<IndexSeeker>,
    number: usize,
    plan: &RepairPlan<'_>,
    lines: &mut ProgressSink<'_, P>,
    report: &mut RepairReport,
) -> Result<(), Fault<'f>>
    ensures run { (l : Legalizer)
        → OnOk result (IsKeptRun l floor.old (kept_text lines.old.lines) (kept_text lines.new.lines) floor.new) }
    ensures only { OnOk result
        (OnlySelectedChange (map (λ team. team.now) plan.now.teams.now) floor.old floor.new) }
    ensures reported { OnOk result (AddsTeamLines (reach_of_rows floor.old.frame plan.now.options.now.within) (selected_at floor.old.frame
        (map (λ team. team.now) plan.now.teams.now) number) floor.old floor.new report.old report.new) }
    ensures err { IfErr result (IsRepairFault (map (λ team. team.now) plan.now.teams.now) floor.old) }
    ensures kept { plan.now.options.now.legal ≡ KeepLegal → (team : List ℕ) → team_number floor.old.frame team ≡ Some number
        → KeepsLegalPlaces team floor.old floor.new }
    ensures others { (team : List ℕ) → team_number floor.old.frame team ≢ Some number
        → state_of floor.new team ≡ state_of floor.old team }
{
    let Some(name) = team_name(floor.placement().frame(), number) else {
        return Ok(());
    };
    let copy = Vec::from_slice(alloc, name)?;
    let name = copy.as_slice();
    if !is_selected(plan.teams, name) {
        return Ok(());
    }
    let frame = floor.placement().frame();
    announce_team(lines.progress, "repairing", frame, name, number);
    let search = search_of(frame, plan.options, plan.targets, number);
    let legal = plan.options.legal;
    repair_named(alloc, floor, name, policy_of(legal), &search, lines, report)
}

/// Repairs the selected teams in their order.
fn repair_teams<'f, P: Progress>(
    alloc: Global,
    floor: &mut Floor<IndexSeeker>,
    plan: &RepairPlan<'_>,
    lines: &mut ProgressSink<'_, P>,
    report: &mut RepairReport,
) -> Result<(), Fault<'f>>
    ensures run { (l : Legalizer)
        → OnOk result (IsKeptRun l floor.old (kept_text lines.old.lines) (kept_text lines.new.lines) floor.new) }
    ensures only { OnOk result
        (OnlySelectedChange (map (λ team. team.now) plan.now.teams.now) floor.old floor.new) }
    ensures kept { plan.now.options.now.legal ≡ KeepLegal → OnOk result (KeepsAllLegalPlaces floor.old floor.new) }
    ensures reported { OnOk result (AddsTeamLines (reach_of_rows floor.old.frame plan.now.options.now.within) (selected_names floor.old.frame
        (map (λ team. team.now) plan.now.teams.now)) floor.old floor.new report.old report.new) }
    ensures err { IfErr result (IsRepairFault (map (λ team. team.now) plan.now.teams.now) floor.old) }
{
    let teams = floor.placement().frame().teams.len() + 1;
    for number in 0..teams {
        repair_numbered(alloc, floor, number, plan, lines, report)?;
    }
    Ok(())
}

/// Adds the line of all teams to the report, given the density before the repair, and returns the
/// exit status.
fn close_report<'f>(
    alloc: Global,
    floor: &Floor<IndexSeeker>,
    before: Density,
    report: &mut RepairReport,
) -> Result<u8, Fault<'f>>
    requires { length floor.now.teams ≡ length floor.now.frame.teams + 1 }
    ensures ok { IfOk result (IsStatusOf floor.now) }
    ensures reported { OnOk result (AddsTotalLine before floor.now report.old report.new) }
    ensures err { IfErr result (λ fault. fault ≡ SetupOutOfMemory) }
{
    let density = density_since(alloc, floor, before)?;
    let legal = is_committed_legal(alloc, floor)?;
    report.close(alloc, &density, legal)?;
    Ok(status_by(legal))
}

/// What is opened for a repair besides the floor.
#[derive(Drop)]
pub struct RepairStart {
    pub limits: RepairLimits,
    /// The targets of cells without a place.
    pub targets: TeamTargets,
}

/// Repairs the selected teams, and reports the results with the limits of the repair.
pub(crate) fn repair_selected<'f, P: Progress>(
    alloc: Global,
    floor: &mut Floor<IndexSeeker>,
    options: &RepairOptions,
    start: &RepairStart,
    job: &Job<'f>,
    progress: &mut P,
) -> Result<TaskResults, Fault<'f>>
    requires whole { length floor.old.teams ≡ length floor.old.frame.teams + 1 }
    requires known { AreKnown floor.old.frame (request_of job.now).teams }
    ensures ok { IfOk result (λ done. IsWorkDone (repair_means options.now) (request_of job.now) start.now
        floor.old floor.new (kept_text done.lines) done.report.items done.status) }
    ensures err { IfErr result (IsRepairFault (request_of job.now).teams floor.old) }
    ensures early { IfErr result IsEarly }
{
    legalizer_exists();
    let plan = RepairPlan {
        teams: job.teams,
        options,
        targets: &start.targets,
    };
    let lines = CommandLog::new(alloc, job.files.lines);
    let mut lines = ProgressSink { lines, progress };
    let before = density_on(alloc, floor)?;
    let least = start.limits.least.as_slice();
    let impossible = start.limits.impossible.as_slice();
    let mut report = RepairReport::new(alloc, least, impossible)?;
    repair_teams(alloc, floor, &plan, &mut lines, &mut report)?;
    let status = close_report(alloc, floor, before, &mut report)?;
    let ProgressSink { lines, .. } = lines;
    let RepairReport { text, .. } = report;
    Ok(TaskResults {
        lines,
        report: text,
        status,
    })
}
