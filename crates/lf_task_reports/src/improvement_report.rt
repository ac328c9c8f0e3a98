//! The whole report.

ghost use Rattle.std.specs.Prelude.{◌≡◌, ◌++◌, IfOk, OnOk, false, flat_map};
ghost use Rattle.serde_json.specs.View.{view};
ghost use Rattle.serde_json.specs.Written.{has_float};
ghost use Rattle.lf_describe.specs.Description.{described_team_name, line_text};
ghost use Rattle.lf_wire_length.specs.Teams.{no_team_lengths};
ghost use Rattle.lf_task_reports.specs.ImproveReports.{improve_report, improved_team_line, lengths_at};

use crate::density::DensityChange;
use crate::improved::{ImprovedTeam, improvement_totals};
use crate::improvement_json::{all_value, team_value};
use lf_density::PinDensity;
use lf_describe::name_value;
use lf_floorplan::Frame;
use lf_wire_length::{TeamLengths, WireLengths};
use serde_json::Value;
use std::alloc::{AllocError, Global};

/// The wire lengths of a design, before and after an improvement.
#[derive(Clone, Copy)]
pub struct LengthChange<'a> {
    pub before: &'a WireLengths,
    pub after: &'a WireLengths,
}

/// The pin densities of a design, before and after an improvement.
#[derive(Clone, Copy)]
pub struct PinChange {
    pub before: PinDensity,
    pub after: PinDensity,
}

/// Returns the name of the team of this number.
fn team_name(frame: &Frame, team: usize) -> &[u8]
    ensures { result.now ≡ described_team_name frame.now team }
{
    match frame.teams.as_slice().get(team) {
        Some(fence) => fence.name.as_bytes(),
        None => b"-",
    }
}

/// Returns the lengths of a team without nets.
fn no_lengths() -> TeamLengths
    ensures { result ≡ no_team_lengths }
{
    TeamLengths {
        nets: 0,
        own: 0,
        crossing_nets: 0,
        crossing: 0,
    }
}

/// Returns the lengths of the team of this number.
fn lengths_at(lengths: &WireLengths, number: usize) -> TeamLengths
    ensures { result ≡ lengths_at lengths.now number }
{
    match lengths.teams.get(number) {
        Some(found) => *found,
        None => no_lengths(),
    }
}

/// Appends the value as a line.
fn push_line(alloc: Global, text: &mut Vec<u8>, value: &Value) -> Result<(), AllocError>
    requires { has_float (view value.now) ≡ false }
    ensures { OnOk result (text.new.items ≡ text.old.items ++ line_text (view value.now)) }
{
    let line = value.to_string(alloc)?;
    text.extend_from_slice(line.as_bytes())?;
    text.push(b'\n')?;
    Ok(())
}

/// Appends the line of a team.
fn push_team(
    alloc: Global,
    frame: &Frame,
    text: &mut Vec<u8>,
    team: &ImprovedTeam,
    lengths: LengthChange<'_>,
) -> Result<(), AllocError>
    ensures { OnOk result (text.new.items
        ≡ text.old.items ++ improved_team_line frame.now lengths.entry.before.now lengths.entry.after.now team.now) }
{
    let before = lengths_at(lengths.before, team.number);
    let after = lengths_at(lengths.after, team.number);
    let name = name_value(alloc, team_name(frame, team.number))?;
    let value = team_value(alloc, name, &before, &after, team)?;
    push_line(alloc, text, &value)
}

/// Appends the lines of the teams, in their order.
fn push_teams(
    alloc: Global,
    frame: &Frame,
    text: &mut Vec<u8>,
    teams: &[ImprovedTeam],
    lengths: LengthChange<'_>,
) -> Result<(), AllocError>
    ensures { OnOk result (text.new.items ≡ text.old.items
        ++ flat_map (improved_team_line frame.now lengths.entry.before.now lengths.entry.after.now) teams.now) }
{
    for team in teams {
        push_team(alloc, frame, text, team, lengths)?;
    }
    Ok(())
}

/// Returns the report of an improvement of these teams of the frame: the line of each, in their
/// order, and the line of all, with the densities of cells and of pins before and after. `legal` says
/// whether the committed design is then fully legal. `Err` if an allocation fails.
pub fn improve_report(
    alloc: Global,
    frame: &Frame,
    teams: &[ImprovedTeam],
    lengths: LengthChange<'_>,
    density: &DensityChange,
    pins: &PinChange,
    legal: bool,
) -> Result<Vec<u8>, AllocError>
    ensures { IfOk result (λ text. text.items ≡ improve_report frame.now teams.now lengths.entry.before.now
        lengths.entry.after.now density.now pins.now legal) }
{
    let mut text = Vec::new(alloc);
    push_teams(alloc, frame, &mut text, teams, lengths)?;
    let sums = improvement_totals(teams);
    let value = all_value(alloc, &sums, lengths, density, pins, legal)?;
    push_line(alloc, &mut text, &value)?;
    Ok(text)
}
