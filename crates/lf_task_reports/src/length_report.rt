//! The whole report.

ghost use Rattle.std.specs.Prelude.{◌≡◌, ◌++◌, IfOk, OnOk, false};
ghost use Rattle.serde_json.specs.View.{view};
ghost use Rattle.serde_json.specs.Written.{has_float};
ghost use Rattle.lf_describe.specs.Description.{described_team_name, line_text};
ghost use Rattle.lf_task_reports.specs.WireReports.{wires_line, team_wires_line, team_wires_lines, wire_report};

use crate::length_json::{all_value, team_value};
use lf_describe::name_value;
use lf_floorplan::Frame;
use lf_wire_length::{TeamLengths, WireLengths};
use serde_json::Value;
use std::alloc::{AllocError, Global};

/// Returns the name of the team of this number.
fn team_name(frame: &Frame, team: usize) -> &[u8]
    ensures { result.now ≡ described_team_name frame.now team }
{
    match frame.teams.as_slice().get(team) {
        Some(fence) => fence.name.as_bytes(),
        None => b"-",
    }
}

/// Appends the value as a line.
fn push_line(alloc: Global, text: &mut Vec<u8>, value: &Value) -> Result<(), AllocError>
    requires { has_float (view value.now) ≡ false }
    ensures { OnOk result (text.new.items ≡ text.old.items ++ line_text (view value.now)) }
{
    let line = value.to_string(alloc)?;
    text.extend_from_slice(line.as_bytes())?;
    text.push(b'\n')?;
    Ok(())
}

/// Appends the line of the team of this number.
fn push_team(
    alloc: Global,
    frame: &Frame,
    text: &mut Vec<u8>,
    team: usize,
    lengths: &TeamLengths,
) -> Result<(), AllocError>
    ensures { OnOk result (text.new.items ≡ text.old.items ++ team_wires_line frame.now team lengths.now) }
{
    let name = name_value(alloc, team_name(frame, team))?;
    let value = team_value(alloc, name, lengths)?;
    push_line(alloc, text, &value)
}

/// Appends the lines of the teams, in the order of their numbers.
fn push_teams(
    alloc: Global,
    frame: &Frame,
    text: &mut Vec<u8>,
    teams: &[TeamLengths],
) -> Result<(), AllocError>
    ensures { OnOk result (text.new.items ≡ text.old.items ++ team_wires_lines frame.now 0 teams.now) }
{
    for (team, lengths) in teams.iter().enumerate() {
        push_team(alloc, frame, text, team, lengths)?;
    }
    Ok(())
}

/// Returns the lines of a design with these lengths, and with this number of nets that are supplies.
/// `Err` if an allocation fails.
pub fn wire_report(
    alloc: Global,
    frame: &Frame,
    lengths: &WireLengths,
    supplies: usize,
) -> Result<Vec<u8>, AllocError>
    ensures { IfOk result (λ text. text.items ≡ wire_report frame.now lengths.now supplies) }
{
    let mut text = Vec::new(alloc);
    push_teams(alloc, frame, &mut text, &lengths.teams)?;
    let value = all_value(alloc, lengths, supplies)?;
    push_line(alloc, &mut text, &value)?;
    Ok(text)
}
