//! The lines as JSON.

ghost use Rattle.std.specs.Prelude.{◌≡◌, IfOk};
ghost use Rattle.serde_json.specs.View.{view};
ghost use Rattle.lf_task_reports.specs.WireReports.{wires_data, team_wires_data};

use lf_wire_length::{TeamLengths, WireLengths};
use serde_json::{Value, json};
use std::alloc::{AllocError, Global};

/// Makes the line of a team with this name. `Err` if an allocation fails.
pub(crate) fn team_value(
    alloc: Global,
    name: Value,
    lengths: &TeamLengths,
) -> Result<Value, AllocError>
    ensures { IfOk result (λ v. view v ≡ team_wires_data (view name) lengths.now) }
{
    let (crossing, own) = (lengths.crossing / 2, lengths.own / 2);
    let (crossing_nets, nets) = (lengths.crossing_nets, lengths.nets);
    json!(in alloc; {
        "crossing": crossing, "crossing_nets": crossing_nets, "nets": nets, "own": own, "team": name
    })
}

/// Makes the line of all teams. `Err` if an allocation fails.
pub(crate) fn all_value(
    alloc: Global,
    lengths: &WireLengths,
    supplies: usize,
) -> Result<Value, AllocError>
    ensures { IfOk result (λ v. view v ≡ wires_data lengths.now supplies) }
{
    let counts = lengths.counts;
    let (crossing, crossing_nets) = (counts.crossing / 2, counts.crossing_nets);
    let (doubled, length) = (lengths.length, lengths.length / 2);
    let (fixed_nets, one_pin, pins) = (counts.fixed_nets, counts.one_pin, counts.pins);
    let (nets, teams) = (lengths.nets, lengths.teams.len());
    let (unknown, unplaced) = (counts.unknown, counts.unplaced);
    json!(in alloc; {
        "crossing": crossing, "crossing_nets": crossing_nets, "doubled": doubled, "fixed_nets": fixed_nets,
        "length": length, "nets": nets, "one_pin": one_pin, "pins": pins, "supplies": supplies, "teams": teams,
        "unknown": unknown, "unplaced": unplaced
    })
}
