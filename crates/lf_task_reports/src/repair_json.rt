//! Builds the lines as JSON.

ghost use Rattle.std.specs.Prelude.{◌≡◌, ◌++◌, IfOk, OnOk, codes, map};
ghost use Rattle.serde_json.specs.Data.{Members, array, object, put};
ghost use Rattle.serde_json.specs.View.{items_of, members_view, view};
ghost use Rattle.lf_task_reports.specs.Densities.{with_change, with_density};
ghost use Rattle.lf_task_reports.specs.RepairReports.{all_data, all_members, cell_names, counted_members, report_number, name_of_cell, report_text_value, with_means};

use crate::density::DensityChange;
use crate::totals::{Totals, mean_displacement};
use lf_describe::name_value;
use lf_floor::Floor;
use lf_legalize::Seeker;
use lf_repair_strategy::{DisplacementMeans, RepairStats};
use serde_json::{Map, Value, json};
use std::alloc::{AllocError, Global};

/// Appends the name of the team's cell at position `own`, if there is one.
fn push_name<S: Seeker + Drop>(
    alloc: Global,
    floor: &Floor<S>,
    team: &[u8],
    own: u32,
    names: &mut Vec<Value>,
) -> Result<(), AllocError>
    ensures { OnOk result (map view names.new.items
        ≡ map view names.old.items ++ map report_text_value (name_of_cell floor.now team.now own)) }
{
    let Some(name) = floor.name_of(team, own as usize) else {
        return Ok(());
    };
    let value = name_value(alloc, name)?;
    names.push(value)?;
    Ok(())
}

/// The names of the team's cells at these positions.
pub(crate) fn name_values<S: Seeker + Drop>(
    alloc: Global,
    floor: &Floor<S>,
    team: &[u8],
    owns: &[u32],
) -> Result<Vec<Value>, AllocError>
    ensures { IfOk result
        (λ values. map view values.items ≡ map report_text_value (cell_names floor.now team.now owns.now)) }
{
    let mut names = Vec::with_capacity(alloc, owns.len())?;
    for own in owns {
        push_name(alloc, floor, team, *own, &mut names)?;
    }
    Ok(names)
}

/// A whole number.
fn count_value(count: u64) -> Value
    ensures { view result ≡ report_number count }
{
    Value::from(count)
}

/// The numbers, in their order.
pub(crate) fn count_values(alloc: Global, counts: &[u64]) -> Result<Vec<Value>, AllocError>
    ensures { IfOk result (λ values. map view values.items ≡ map report_number counts.now) }
{
    let mut values = Vec::with_capacity(alloc, counts.len())?;
    for count in counts {
        values.push(count_value(*count))?;
    }
    Ok(values)
}

/// The values, in their order.
pub(crate) fn array_value(values: Vec<Value>) -> Value
    ensures { view result ≡ array (items_of (map view values.items)) }
{
    Value::Array(values)
}

/// The members of a team's line, except the means and the reasons: its name, its unrepaired cells and
/// the gaps near them, the largest of the least displacements, and the counts.
pub(crate) fn team_value(
    alloc: Global,
    name: Value,
    left: Value,
    gaps: Value,
    least: u64,
    repaired: &RepairStats,
) -> Result<Value, AllocError>
    ensures { IfOk result
        (λ v. view v ≡ object (counted_members (view name) (view left) (view gaps) least repaired.now)) }
{
    let mean = mean_displacement(repaired.total_displacement, u64::from(repaired.moved));
    let (cells, kept, largest) = (repaired.cells, repaired.kept, repaired.max_displacement);
    let (moved, placed, pushed) = (repaired.moved, repaired.placed, repaired.displaced_legal);
    let (total, turned) = (repaired.total_displacement, repaired.turned);
    json!(in alloc; {
        "cells": cells, "gaps": gaps, "kept": kept, "largest": largest, "least_largest": least, "left": left, "mean": mean,
        "moved": moved, "placed": placed, "pushed": pushed, "team": name, "total": total, "turned": turned
    })
}

/// The line of a team with two members more: the means of the displacements.
pub(crate) fn with_means(
    alloc: Global,
    line: Value,
    means: &DisplacementMeans,
) -> Result<Value, AllocError>
    ensures { (ms : Members) → view line ≡ object ms
        → IfOk result (λ v. view v ≡ object (with_means means.now ms)) }
{
    match line {
        Value::Object(mut members) => {
            serde_json::put(&mut members, alloc, "average", count_value(means.all))?;
            serde_json::put(
                &mut members,
                alloc,
                "mean_by_height",
                count_value(means.by_height),
            )?;
            Ok(Value::Object(members))
        }
        other => Ok(other),
    }
}

/// The line of a team with one member more: for each unrepaired cell why no place can hold it.
pub(crate) fn with_impossible(
    alloc: Global,
    line: Value,
    impossible: Value,
) -> Result<Value, AllocError>
    ensures { (ms : Members) → view line ≡ object ms
        → IfOk result (λ v. view v ≡ object (put (codes "impossible") (view impossible) ms)) }
{
    match line {
        Value::Object(mut members) => {
            serde_json::put(&mut members, alloc, "impossible", impossible)?;
            Ok(Value::Object(members))
        }
        other => Ok(other),
    }
}

/// Puts a number into the members, and what it was before. `Err` if an allocation fails.
pub fn put_change(
    members: &mut Map<String, Value>,
    alloc: Global,
    key: &str,
    key_before: &str,
    before: u64,
    after: u64,
) -> Result<(), AllocError>
    ensures { OnOk result (members_view members.new.entries
        ≡ with_change key.now key_before.now before after (members_view members.old.entries)) }
{
    serde_json::put(members, alloc, key, count_value(after))?;
    serde_json::put(members, alloc, key_before, count_value(before))?;
    Ok(())
}

/// Adds the densities to the line: the mean utilization of the fullest bins, before and after. `Err`
/// if an allocation fails.
pub fn with_density(
    alloc: Global,
    line: Value,
    density: &DensityChange,
) -> Result<Value, AllocError>
    ensures { (ms : Members) → view line ≡ object ms
        → IfOk result (λ v. view v ≡ object (with_density density.now ms)) }
{
    let DensityChange { before, after } = density;
    match line {
        Value::Object(mut members) => {
            let (b, a) = (before.fullest_10, after.fullest_10);
            put_change(&mut members, alloc, "fullest_10", "fullest_10_before", b, a)?;
            let (b, a) = (before.fullest_2, after.fullest_2);
            put_change(&mut members, alloc, "fullest_2", "fullest_2_before", b, a)?;
            let (b, a) = (before.fullest_20, after.fullest_20);
            put_change(&mut members, alloc, "fullest_20", "fullest_20_before", b, a)?;
            let (b, a) = (before.fullest_5, after.fullest_5);
            put_change(&mut members, alloc, "fullest_5", "fullest_5_before", b, a)?;
            Ok(Value::Object(members))
        }
        other => Ok(other),
    }
}

/// Makes the line of all teams without the densities. `Err` if an allocation fails.
fn sums_value(alloc: Global, sums: &Totals, legal: bool) -> Result<Value, AllocError>
    ensures { IfOk result (λ v. view v ≡ object (all_members sums.now legal)) }
{
    let mean = mean_displacement(sums.total_displacement, sums.moved);
    let (cells, kept, largest, left) = (
        sums.cells,
        sums.kept,
        sums.max_displacement,
        sums.unrepaired,
    );
    let least = sums.least_largest;
    let (moved, placed, pushed) = (sums.moved, sums.placed, sums.displaced_legal);
    let (teams, total, turned) = (sums.teams, sums.total_displacement, sums.turned);
    json!(in alloc; {
        "cells": cells, "kept": kept, "largest": largest, "least_largest": least, "left_cells": left,
        "legal": legal, "mean": mean, "moved": moved, "placed": placed, "pushed": pushed,
        "teams": teams, "total": total, "turned": turned
    })
}

/// Makes the line of all teams. `legal` says whether the committed design is then fully legal. `Err`
/// if an allocation fails.
pub(crate) fn all_value(
    alloc: Global,
    sums: &Totals,
    density: &DensityChange,
    legal: bool,
) -> Result<Value, AllocError>
    ensures { IfOk result (λ v. view v ≡ all_data density.now sums.now legal) }
{
    let line = sums_value(alloc, sums, legal)?;
    with_density(alloc, line, density)
}
