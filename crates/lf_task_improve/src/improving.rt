//! Improves the selected teams of a floor, one after the other.

ghost use Rattle.std.specs.Prelude.{◌≡◌, ◌≢◌, ◌≤◌, ◌++◌, ◌∷◌, ◌+◌, ℕ, List, [], Some, IfErr, IfOk, OnOk, length, map};
ghost use Rattle.lf_rules.specs.Legalizer.{Legalizer};
ghost use Rattle.lf_floor_model.specs.Teams.{state_of, team_number};
ghost use Rattle.lf_repair_team.specs.TeamRepairs.{ChangesOnly};
ghost use Rattle.lf_improve_team.specs.FloorLengths.{AreNetsOfFloor, IsWireLengthOn};
ghost use Rattle.lf_task_faults.specs.declared.faults.Fault.TheVariants.{SetupOutOfMemory};
ghost use Rattle.lf_task_run.specs.Commands.{IsKeptRun, kept_text};
ghost use Rattle.lf_task_run.specs.Teams.{OnlySelectedChange, selected_at, selected_names, AreKnown};
ghost use Rattle.lf_task_run.specs.Tasks.{IsWorkDone, request_of};
ghost use Rattle.lf_task_improve.specs.Works.{improve_means};
ghost use Rattle.lf_task_improve.specs.Improvements.{AddsResults, AreLengthsOnFloor, IsImprovementOf, IsPinDensityOn, distance_of_rows};

use crate::improve_task::Improve;
use crate::opening::DesignWires;
use lf_density::PinDensity;
use lf_floor::{Floor, team_name};
use lf_floorplan::Frame;
use lf_improve_team::{
    CellsOnFloor, ImproveGoal, ImproveOptions, ImproveSearch, TeamImprovement, WireNets,
    improve_team, wire_length_is_one,
};
use lf_legalize::IndexSeeker;
use lf_rules::legalizer_exists;
use lf_task_faults::Fault;
use lf_task_files::is_committed_legal;
use lf_task_reports::{
    ImprovedTeam, LengthChange, PinChange, density_on, density_since, improve_report,
};
use lf_task_run::{
    CommandLog, Job, Progress, ProgressSink, TaskResults, announce_team, is_selected, status_by,
};
use lf_wire_density::pin_density_of_nets;
use lf_wire_length::WireLengths;
use std::alloc::{AllocError, Global};

/// Returns the distance in database units that a cell may move, given as a number of rows. `None` if
/// there is no limit.
fn distance_of_rows(frame: &Frame, rows: Option<u32>) -> Option<u64>
    ensures { result ≡ distance_of_rows frame.now rows }
{
    let height = frame.pitch.y.unsigned_abs();
    Some(height.saturating_mul(u64::from(rows?)))
}

/// What an improvement of teams needs besides the floor.
#[derive(Clone, Copy)]
struct ImprovePlan<'a> {
    /// The names of the selected teams, or none if all are.
    teams: &'a [&'a str],
    wires: WireNets<'a>,
    options: ImproveOptions,
    search: ImproveSearch,
}

/// The results so far.
#[derive(Drop)]
struct ImproveResults {
    /// The results of the teams that were improved or skipped.
    teams: Vec<ImprovedTeam>,
    /// The wire length of the design, in half database units.
    length: u64,
}

/// Improves the team with this name. `Err` only if an allocation fails: the team exists, its floor has
/// a free session slot, and lines are kept in memory.
fn improve_named<'f, P: Progress>(
    alloc: Global,
    floor: &mut Floor<IndexSeeker>,
    name: &[u8],
    plan: &ImprovePlan<'_>,
    length: u64,
    lines: &mut ProgressSink<'_, P>,
) -> Result<TeamImprovement, Fault<'f>>
    requires measured { IsWireLengthOn plan.now.wires.netlist.now.nets floor.old length }
    requires nets { AreNetsOfFloor plan.now.wires.of_teams.now plan.now.wires.netlist.now.nets floor.old }
    ensures run { (l : Legalizer)
        → OnOk result (IsKeptRun l floor.old (kept_text lines.old.lines) (kept_text lines.new.lines) floor.new) }
    ensures only { ChangesOnly name.now floor.old floor.new }
    ensures done { IfOk result (λ done. IsImprovementOf plan.now.options.within name.now floor.old floor.new
        done.is_skipped done.cells done.stats) }
    ensures measured { IfOk result (λ done. IsWireLengthOn plan.now.wires.netlist.now.nets floor.new done.length) }
    ensures longer { IfOk result (λ done. done.length ≤ length) }
    ensures err { IfErr result (λ fault. fault ≡ SetupOutOfMemory) }
{
    let goal = ImproveGoal {
        options: plan.options,
        length,
    };
    match improve_team(alloc, floor, name, &plan.wires, &goal, &plan.search, lines) {
        Ok(done) => Ok(done),
        Err(_) => Err(Fault::SetupOutOfMemory),
    }
}

/// Appends the result of the team with this number.
fn add_result(
    results: &mut ImproveResults,
    number: usize,
    done: TeamImprovement,
) -> Result<(), AllocError>
    ensures length { OnOk result (results.new.length ≡ done.length) }
    ensures teams { OnOk result (results.new.teams.items ≡ results.old.teams.items
        ++ record { number = number; is_skipped = done.is_skipped; cells = done.cells; stats = done.stats } ∷ []) }
{
    let TeamImprovement {
        is_skipped,
        cells,
        stats,
        length,
        ..
    } = done;
    results.teams.push(ImprovedTeam {
        number,
        is_skipped,
        cells,
        stats,
    })?;
    results.length = length;
    Ok(())
}

/// Improves the team with this number, if it is selected.
#[tactic(auto, using(lf_task_run::proofs::Running::nothing_requested, lf_task_run::proofs::Running::none_changes))]
fn improve_numbered<'f, P: Progress>(
    alloc: Global,
    floor: &mut Floor<IndexSeeker>,
    number: usize,
    plan: &ImprovePlan<'_>,
    lines: &mut ProgressSink<'_, P>,
    results: &mut ImproveResults,
) -> Result<(), Fault<'f>>
    requires measured { IsWireLengthOn plan.now.wires.netlist.now.nets floor.old results.old.length }
    requires nets { AreNetsOfFloor plan.now.wires.of_teams.now plan.now.wires.netlist.now.nets floor.old }
    ensures run { (l : Legalizer)
        → OnOk result (IsKeptRun l floor.old (kept_text lines.old.lines) (kept_text lines.new.lines) floor.new) }
    ensures only { OnOk result
        (OnlySelectedChange (map (λ team. team.now) plan.now.teams.now) floor.old floor.new) }
    ensures others { (team : List ℕ) → team_number floor.old.frame team ≢ Some number
        → state_of floor.new team ≡ state_of floor.old team }
    ensures reported { OnOk result (AddsResults
        (selected_at floor.old.frame (map (λ team. team.now) plan.now.teams.now) number)
        plan.now.options.within floor.old floor.new results.old.teams.items results.new.teams.items) }
    ensures measured { OnOk result (IsWireLengthOn plan.now.wires.netlist.now.nets floor.new results.new.length) }
    ensures longer { OnOk result (results.new.length ≤ results.old.length) }
    ensures err { IfErr result (λ fault. fault ≡ SetupOutOfMemory) }
{
    let Some(name) = team_name(floor.placement().frame(), number) else {
        return Ok(());
    };
    let copy = Vec::from_slice(alloc, name)?;
    let name = copy.as_slice();
    if !is_selected(plan.teams, name) {
        return Ok(());
    }
    let frame = floor.placement().frame();
    announce_team(lines.progress, "improving", frame, name, number);
    let done = improve_named(alloc, floor, name, plan, results.length, lines)?;
    add_result(results, number, done)?;
    Ok(())
}

/// Improves the selected teams in their order.
fn improve_teams<'f, P: Progress>(
    alloc: Global,
    floor: &mut Floor<IndexSeeker>,
    plan: &ImprovePlan<'_>,
    lines: &mut ProgressSink<'_, P>,
    results: &mut ImproveResults,
) -> Result<(), Fault<'f>>
    requires measured { IsWireLengthOn plan.now.wires.netlist.now.nets floor.old results.old.length }
    requires nets { AreNetsOfFloor plan.now.wires.of_teams.now plan.now.wires.netlist.now.nets floor.old }
    ensures run { (l : Legalizer)
        → OnOk result (IsKeptRun l floor.old (kept_text lines.old.lines) (kept_text lines.new.lines) floor.new) }
    ensures only { OnOk result
        (OnlySelectedChange (map (λ team. team.now) plan.now.teams.now) floor.old floor.new) }
    ensures reported { OnOk result (AddsResults
        (selected_names floor.old.frame (map (λ team. team.now) plan.now.teams.now))
        plan.now.options.within floor.old floor.new results.old.teams.items results.new.teams.items) }
    ensures measured { OnOk result (IsWireLengthOn plan.now.wires.netlist.now.nets floor.new results.new.length) }
    ensures longer { OnOk result (results.new.length ≤ results.old.length) }
    ensures err { IfErr result (λ fault. fault ≡ SetupOutOfMemory) }
{
    let teams = floor.placement().frame().teams.len() + 1;
    for number in 0..teams {
        improve_numbered(alloc, floor, number, plan, lines, results)?;
    }
    Ok(())
}

/// Returns the wire lengths of the cells of the floor at their working places.
fn lengths_on(
    alloc: Global,
    floor: &Floor<IndexSeeker>,
    wires: &DesignWires,
) -> Result<WireLengths, AllocError>
    ensures { IfOk result (AreLengthsOnFloor wires.now.teams.items wires.now.netlist.nets floor.now) }
{
    let cells = CellsOnFloor::new(floor.working(), wires.teams.as_slice());
    let teams = floor.placement().frame().teams.len() + 1;
    wires.netlist.lengths(alloc, &cells, teams)
}

/// Returns the pin density of the nets, with the cells of the floor at their working places.
fn pin_density_on(
    alloc: Global,
    floor: &Floor<IndexSeeker>,
    wires: &DesignWires,
) -> Result<PinDensity, AllocError>
    ensures { IfOk result (IsPinDensityOn wires.now.netlist.nets floor.now) }
{
    let cells = CellsOnFloor::new(floor.working(), wires.teams.as_slice());
    pin_density_of_nets(alloc, floor.placement().frame(), &wires.netlist, &cells)
}

/// Improves the selected teams. Returns their results.
fn results_of<'f, P: Progress>(
    alloc: Global,
    floor: &mut Floor<IndexSeeker>,
    wires: &DesignWires,
    teams: &[&str],
    work: &Improve,
    length: u64,
    lines: &mut ProgressSink<'_, P>,
) -> Result<ImproveResults, Fault<'f>>
    requires measured { IsWireLengthOn wires.now.netlist.nets floor.old length }
    requires nets { AreNetsOfFloor wires.now.of_teams wires.now.netlist.nets floor.old }
    ensures run { (l : Legalizer)
        → OnOk result (IsKeptRun l floor.old (kept_text lines.old.lines) (kept_text lines.new.lines) floor.new) }
    ensures only { OnOk result
        (OnlySelectedChange (map (λ team. team.now) teams.now) floor.old floor.new) }
    ensures reported { IfOk result (λ results. AddsResults
        (selected_names floor.old.frame (map (λ team. team.now) teams.now))
        (distance_of_rows floor.old.frame work.now.within) floor.old floor.new [] results.teams.items) }
    ensures measured { IfOk result (λ results. IsWireLengthOn wires.now.netlist.nets floor.new results.length) }
    ensures longer { IfOk result (λ results. results.length ≤ length) }
    ensures err { IfErr result (λ fault. fault ≡ SetupOutOfMemory) }
{
    let options = ImproveOptions {
        rounds: work.options.rounds,
        within: distance_of_rows(floor.placement().frame(), work.within),
    };
    let plan = ImprovePlan {
        teams,
        wires: WireNets {
            netlist: &wires.netlist,
            of_teams: &wires.of_teams,
        },
        options,
        search: ImproveSearch {
            moves: work.options.moves,
            density: work.options.density,
        },
    };
    let mut results = ImproveResults {
        teams: Vec::new(alloc),
        length,
    };
    improve_teams(alloc, floor, &plan, lines, &mut results)?;
    Ok(results)
}

/// Improves the selected teams, and makes the report and the exit status.
pub(crate) fn improve_selected<'f, P: Progress>(
    alloc: Global,
    floor: &mut Floor<IndexSeeker>,
    wires: &DesignWires,
    work: &Improve,
    job: &Job<'f>,
    progress: &mut P,
) -> Result<TaskResults, Fault<'f>>
    requires whole { length floor.old.teams ≡ length floor.old.frame.teams + 1 }
    requires nets { AreNetsOfFloor wires.now.of_teams wires.now.netlist.nets floor.old }
    requires known { AreKnown floor.old.frame (request_of job.now).teams }
    ensures ok { IfOk result (λ done. IsWorkDone (improve_means work.now.within) (request_of job.now) wires.now
        floor.old floor.new (kept_text done.lines) done.report.items done.status) }
    ensures err { IfErr result (λ fault. fault ≡ SetupOutOfMemory) }
{
    legalizer_exists();
    wire_length_is_one();
    let lines = CommandLog::new(alloc, job.files.lines);
    let mut lines = ProgressSink { lines, progress };
    let density_before = density_on(alloc, floor)?;
    let pins_before = pin_density_on(alloc, floor, wires)?;
    let before = lengths_on(alloc, floor, wires)?;
    let results = results_of(
        alloc,
        floor,
        wires,
        job.teams,
        work,
        before.length,
        &mut lines,
    )?;
    let after = lengths_on(alloc, floor, wires)?;
    let density = density_since(alloc, floor, density_before)?;
    let pins_after = pin_density_on(alloc, floor, wires)?;
    let pins = PinChange {
        before: pins_before,
        after: pins_after,
    };
    let legal = is_committed_legal(alloc, floor)?;
    let lengths = LengthChange {
        before: &before,
        after: &after,
    };
    let frame = floor.placement().frame();
    let report = improve_report(
        alloc,
        frame,
        &results.teams,
        lengths,
        &density,
        &pins,
        legal,
    )?;
    let ProgressSink { lines, .. } = lines;
    Ok(TaskResults {
        lines,
        report,
        status: status_by(legal),
    })
}
