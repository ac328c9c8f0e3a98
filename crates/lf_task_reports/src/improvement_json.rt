//! The lines as JSON.

ghost use Rattle.std.specs.Prelude.{◌≡◌, IfOk, codes};
ghost use Rattle.serde_json.specs.Data.{Members, boolean, object, put};
ghost use Rattle.serde_json.specs.View.{view};
ghost use Rattle.lf_task_reports.specs.ImproveReports.{improved_team_data, improvement_data, improvement_members, with_pins};

use crate::density::DensityChange;
use crate::improved::{ImprovedTeam, ImprovementTotals};
use crate::improvement_report::{LengthChange, PinChange};
use crate::repair_json::{put_change, with_density};
use crate::totals::mean_displacement;
use lf_wire_length::TeamLengths;
use serde_json::{Value, json};
use std::alloc::{AllocError, Global};

/// Makes the line of a team with this name, given its lengths at the beginning and at the end. `Err`
/// if an allocation fails.
pub(crate) fn team_value(
    alloc: Global,
    name: Value,
    before: &TeamLengths,
    after: &TeamLengths,
    team: &ImprovedTeam,
) -> Result<Value, AllocError>
    ensures { IfOk result (λ v. view v ≡ improved_team_data (view name) before.now after.now team.now) }
{
    let stats = &team.stats;
    let mean = mean_displacement(stats.total_displacement, u64::from(stats.moved));
    let (cells, moved, turned) = (team.cells, stats.moved, stats.turned);
    let (largest, total) = (stats.max_displacement, stats.total_displacement);
    let (crossing, own) = (after.crossing / 2, after.own / 2);
    let (crossing_before, own_before) = (before.crossing / 2, before.own / 2);
    let skipped = team.is_skipped;
    json!(in alloc; {
        "cells": cells, "crossing": crossing, "crossing_before": crossing_before, "largest": largest, "mean": mean,
        "moved": moved, "own": own, "own_before": own_before, "skipped": skipped, "team": name, "total": total,
        "turned": turned
    })
}

/// Makes the line of all teams without `legal` and the densities, given the lengths at the beginning
/// and at the end. `Err` if an allocation fails.
fn sums_value(
    alloc: Global,
    sums: &ImprovementTotals,
    lengths: LengthChange<'_>,
) -> Result<Value, AllocError>
    ensures { IfOk result (λ v. view v
        ≡ object (improvement_members sums.now lengths.entry.before.now lengths.entry.after.now)) }
{
    let LengthChange { before, after } = lengths;
    let mean = mean_displacement(sums.total_displacement, sums.moved);
    let (cells, moved, turned) = (sums.cells, sums.moved, sums.turned);
    let (largest, total) = (sums.max_displacement, sums.total_displacement);
    let (doubled, length) = (after.length, after.length / 2);
    let (doubled_before, length_before) = (before.length, before.length / 2);
    let (skipped, teams) = (sums.skipped, sums.teams);
    json!(in alloc; {
        "cells": cells, "doubled": doubled, "doubled_before": doubled_before, "largest": largest,
        "length": length, "length_before": length_before, "mean": mean, "moved": moved, "skipped": skipped,
        "teams": teams, "total": total, "turned": turned
    })
}

/// Adds to the line whether the committed design is fully legal. `Err` if an allocation fails.
fn with_legal(alloc: Global, line: Value, legal: bool) -> Result<Value, AllocError>
    ensures { IfOk result (λ v. (ms : Members) → view line ≡ object ms
        → view v ≡ object (put (codes "legal") (boolean legal) ms)) }
{
    match line {
        Value::Object(mut members) => {
            serde_json::put(&mut members, alloc, "legal", Value::Bool(legal))?;
            Ok(Value::Object(members))
        }
        other => Ok(other),
    }
}

/// Adds the pin densities to the line: the mean number of pins of the fullest bins, before and after.
/// `Err` if an allocation fails.
fn with_pins(alloc: Global, line: Value, pins: &PinChange) -> Result<Value, AllocError>
    ensures { IfOk result (λ v. (ms : Members) → view line ≡ object ms → view v ≡ object (with_pins pins.now ms)) }
{
    let PinChange { before, after } = pins;
    match line {
        Value::Object(mut members) => {
            let (b, a) = (before.fullest_10, after.fullest_10);
            put_change(&mut members, alloc, "pins_10", "pins_10_before", b, a)?;
            let (b, a) = (before.fullest_2, after.fullest_2);
            put_change(&mut members, alloc, "pins_2", "pins_2_before", b, a)?;
            let (b, a) = (before.fullest_20, after.fullest_20);
            put_change(&mut members, alloc, "pins_20", "pins_20_before", b, a)?;
            let (b, a) = (before.fullest_5, after.fullest_5);
            put_change(&mut members, alloc, "pins_5", "pins_5_before", b, a)?;
            Ok(Value::Object(members))
        }
        other => Ok(other),
    }
}

/// Makes the line of all teams, given the lengths and the densities of cells and of pins at the
/// beginning and at the end. `legal` says whether the committed design is then fully legal. `Err` if
/// an allocation fails.
pub(crate) fn all_value(
    alloc: Global,
    sums: &ImprovementTotals,
    lengths: LengthChange<'_>,
    density: &DensityChange,
    pins: &PinChange,
    legal: bool,
) -> Result<Value, AllocError>
    ensures { IfOk result (λ v. view v
        ≡ improvement_data sums.now lengths.entry.before.now lengths.entry.after.now density.now pins.now legal) }
{
    let line = sums_value(alloc, sums, lengths)?;
    let checked = with_legal(alloc, line, legal)?;
    let counted = with_pins(alloc, checked, pins)?;
    with_density(alloc, counted, density)
}
