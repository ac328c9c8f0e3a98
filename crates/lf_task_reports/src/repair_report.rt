//! The report so far.

ghost use Rattle.std.specs.Prelude.{◌≡◌, ◌++◌, [], IfOk, OnOk, false};
ghost use Rattle.serde_json.specs.View.{view};
ghost use Rattle.serde_json.specs.Written.{has_float};
ghost use Rattle.lf_repair_bounds.specs.Gaps.{place_at};
ghost use Rattle.lf_task_reports.specs.RepairReports.{HasTeamMembers, IsOneMore, IsTeamData, all_line, least_for, no_sums, report_line_text};

use crate::density::DensityChange;
use crate::gaps::gaps_near;
use crate::reasons::reason_values;
use crate::repair_json::{
    all_value, array_value, count_values, name_values, team_value, with_impossible, with_means,
};
use crate::totals::{Totals, none, with_one};
use lf_describe::name_value;
use lf_floor::Floor;
use lf_floorplan::Place;
use lf_legalize::Seeker;
use lf_repair_bounds::ImpossibleMacro;
use lf_repair_strategy::RepairStats;
use serde_json::Value;
use std::alloc::{AllocError, Global};

/// The lines so far, and the sums over their teams.
#[derive(Drop)]
pub struct RepairReport {
    /// The lines, each with its line feed.
    pub text: Vec<u8>,
    /// The sums over the teams that have a line.
    pub sums: Totals,
    /// For each team of the frame, the ground team last, the largest of the least displacements of
    /// its cells. It is from the start of the repair, in database units.
    pub least: Vec<u64>,
    /// The macros whose cells no place can hold, with the reasons.
    pub impossible: Vec<ImpossibleMacro>,
}

/// The number for this team. 0 if there is no number for it.
fn least_at(least: &[u64], number: Option<usize>) -> u64
    ensures { result ≡ least_for least.now number }
{
    let Some(number) = number else {
        return 0;
    };
    match least.get(number) {
        Some(least) => *least,
        None => 0,
    }
}

/// Appends the value as a line.
fn push_line(alloc: Global, text: &mut Vec<u8>, value: &Value) -> Result<(), AllocError>
    requires { has_float (view value.now) ≡ false }
    ensures { OnOk result (text.new.items ≡ text.old.items ++ report_line_text (view value.now)) }
{
    let line = value.to_string(alloc)?;
    text.extend_from_slice(line.as_bytes())?;
    text.push(b'\n')?;
    Ok(())
}

/// The line of a team without the reasons, given the old places of its cells, the result of its repair
/// on the floor and the largest of the least displacements of its cells.
fn members_of<S: Seeker + Drop>(
    alloc: Global,
    floor: &Floor<S>,
    team: &[u8],
    old_places: &[Option<Place>],
    repaired: &RepairStats,
    least: u64,
) -> Result<Value, AllocError>
    ensures { IfOk result (λ v.
        HasTeamMembers floor.now team.now (place_at old_places.now) repaired.now least (view v)) }
{
    let found = gaps_near(alloc, floor, team, old_places, &repaired.unrepaired)?;
    let gaps = array_value(count_values(alloc, &found)?);
    let left = array_value(name_values(alloc, floor, team, &repaired.unrepaired)?);
    let name = name_value(alloc, team)?;
    let line = team_value(alloc, name, left, gaps, least, repaired)?;
    with_means(alloc, line, &repaired.means)
}

/// The line of a team, given the old places of its cells, the result of its repair on the floor and the
/// largest of the least displacements of its cells.
fn line_of<S: Seeker + Drop>(
    alloc: Global,
    floor: &Floor<S>,
    team: &[u8],
    old_places: &[Option<Place>],
    list: &[ImpossibleMacro],
    repaired: &RepairStats,
    least: u64,
) -> Result<Value, AllocError>
    ensures { IfOk result (λ v.
        IsTeamData floor.now team.now (place_at old_places.now) list.now repaired.now least (view v)) }
{
    let members = members_of(alloc, floor, team, old_places, repaired, least)?;
    let reasons = reason_values(alloc, floor, team, list, &repaired.unrepaired)?;
    with_impossible(alloc, members, array_value(reasons))
}

impl RepairReport {
    /// A report without lines. `least` has the largest of the least displacements of each team's
    /// cells, and `impossible` the macros whose cells no place can hold. `Err` if an allocation
    /// fails.
    pub fn new(
        alloc: Global,
        least: &[u64],
        impossible: &[ImpossibleMacro],
    ) -> Result<RepairReport, AllocError>
        ensures text { IfOk result (λ report. report.text.items ≡ []) }
        ensures sums { IfOk result (λ report. report.sums ≡ no_sums) }
        ensures least { IfOk result (λ report. report.least.items ≡ least.now) }
        ensures impossible { IfOk result (λ report. report.impossible.items ≡ impossible.now) }
    {
        Ok(RepairReport {
            text: Vec::new(alloc),
            sums: none(),
            least: Vec::from_slice(alloc, least)?,
            impossible: Vec::from_slice(alloc, impossible)?,
        })
    }

    /// Appends the line of a team, given the result of its repair on the floor. `old_places` has the
    /// place from which each cell of the team was to move, in loading order. `Err` if an allocation
    /// fails.
    pub fn add<S: Seeker + Drop>(
        &mut self,
        alloc: Global,
        floor: &Floor<S>,
        team: &[u8],
        old_places: &[Option<Place>],
        repaired: &RepairStats,
    ) -> Result<(), AllocError>
        ensures { OnOk result
            (IsOneMore floor.now team.now (place_at old_places.now) repaired.now self.old self.new) }
    {
        let least = least_at(&self.least, floor.team_number(team));
        let list = self.impossible.as_slice();
        let line = line_of(alloc, floor, team, old_places, list, repaired, least)?;
        push_line(alloc, &mut self.text, &line)?;
        self.sums = with_one(&self.sums, repaired, least);
        Ok(())
    }

    /// Appends the line of all teams, with the densities before and after. `legal` says whether the
    /// committed design is then fully legal. `Err` if an allocation fails.
    pub fn close(
        &mut self,
        alloc: Global,
        density: &DensityChange,
        legal: bool,
    ) -> Result<(), AllocError>
        ensures { OnOk result (self.new.text.items
            ≡ self.old.text.items ++ all_line density.now self.old.sums legal) }
    {
        let line = all_value(alloc, &self.sums, density, legal)?;
        push_line(alloc, &mut self.text, &line)
    }
}
