//! Why no place can hold an unrepaired cell.

ghost use Rattle.std.specs.Prelude.{◌≡◌, IfOk, Some, find, map, option_map, slice_get};
ghost use Rattle.serde_json.specs.Data.{string};
ghost use Rattle.serde_json.specs.View.{view};
ghost use Rattle.lf_floor_model.specs.States.{TeamState};
ghost use Rattle.lf_repair_bounds.specs.ImpossibleMacros.{is_of_macro};
ghost use Rattle.lf_task_reports.specs.RepairReports.{cell_reasons, listed_reason, reason_data, reason_of_cell, impossible_words};

use lf_floor::Floor;
use lf_legalize::Seeker;
use lf_repair_bounds::{ImpossibleMacro, ImpossibleReason};
use serde_json::{Value, json};
use std::alloc::{AllocError, Global};

/// The entry of the macro in the team with this number, if the list has one.
fn entry_of(list: &[ImpossibleMacro], number: usize, mac: usize) -> Option<&ImpossibleMacro>
    ensures { option_map (λ m. m.now) result ≡ find (is_of_macro number mac) list.now }
{
    list.iter()
        .find(|entry| entry.team == number && entry.mac == mac)
}

/// The reason of the first entry of the macro in the team with this number.
fn listed_reason(list: &[ImpossibleMacro], number: usize, mac: usize) -> Option<ImpossibleReason>
    ensures { result ≡ listed_reason list.now number mac }
{
    Some(entry_of(list, number, mac)?.reason)
}

/// The number of the macro of the cell at position `own` of the team with this number. `None` if
/// there is no such cell.
fn mac_number<S: Seeker + Drop>(floor: &Floor<S>, number: usize, own: usize) -> Option<usize>
    ensures { (s : TeamState) → slice_get floor.now.teams number ≡ Some s
        → result ≡ option_map (λ c. c.mac) (slice_get s.cells own) }
{
    let cells = floor.placement().cells();
    let id = cells.cell_of(number, own)?;
    Some(cells.placement_of(id)?.mac)
}

/// Why no place can hold the team's cell at position `own`. `None` if its macro is not listed.
fn reason_of<S: Seeker + Drop>(
    floor: &Floor<S>,
    team: &[u8],
    list: &[ImpossibleMacro],
    own: usize,
) -> Option<ImpossibleReason>
    ensures { result ≡ reason_of_cell list.now floor.now team.now own }
{
    let number = floor.team_number(team)?;
    floor.name_of(team, own)?;
    let mac = mac_number(floor, number, own)?;
    listed_reason(list, number, mac)
}

/// The reason in words.
fn words_of(reason: ImpossibleReason) -> &'static str
    ensures { result.now ≡ impossible_words reason }
{
    match reason {
        ImpossibleReason::Height => "not 1 to 8 rows high",
        ImpossibleReason::Orientation => "no row allows its orientations and rail",
        ImpossibleReason::Width => "wider than every segment",
        ImpossibleReason::Ground => "no ground of its team holds it",
    }
}

/// The text as JSON.
fn text_value(alloc: Global, text: &str) -> Result<Value, AllocError>
    ensures { IfOk result (λ v. view v ≡ string text.now) }
{
    json!(in alloc; text)
}

/// The reason as JSON: null without one.
fn reason_value(alloc: Global, reason: Option<ImpossibleReason>) -> Result<Value, AllocError>
    ensures { IfOk result (λ v. view v ≡ reason_data reason) }
{
    match reason {
        None => Ok(Value::Null),
        Some(reason) => text_value(alloc, words_of(reason)),
    }
}

/// For each of the team's cells at these positions, why no place can hold it. `Err` if an
/// allocation fails.
pub(crate) fn reason_values<S: Seeker + Drop>(
    alloc: Global,
    floor: &Floor<S>,
    team: &[u8],
    list: &[ImpossibleMacro],
    owns: &[u32],
) -> Result<Vec<Value>, AllocError>
    ensures { IfOk result (λ values. map view values.items
        ≡ map reason_data (cell_reasons list.now floor.now team.now owns.now)) }
{
    let mut values = Vec::with_capacity(alloc, owns.len())?;
    for own in owns {
        let reason = reason_of(floor, team, list, *own as usize);
        values.push(reason_value(alloc, reason)?)?;
    }
    Ok(values)
}
