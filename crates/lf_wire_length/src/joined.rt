//! The teams that a net joins.

ghost use Rattle.std.specs.Prelude.{◌≡◌, ◌≤◌, ◌<◌, [], All, IfOk, length, map, slice_index_or};
ghost use Rattle.lf_wire_length.specs.Bounds.{IsPinOffset};
ghost use Rattle.lf_wire_length.specs.Stored.{nets_from, pin_stored};
ghost use Rattle.lf_wire_length.specs.Teams.{IsSummaryInRange, is_of_team, is_team as is_team_number, joined_teams, joins_team, net_summary, team_of_pin, joined_with};

use crate::measure::{length_of_stored_net, pins_of};
use crate::pins::{NetPin, PackedPin, unpacked_pin};
use crate::placed::PlacedCells;
use crate::points::PinOffset;
use std::alloc::{AllocError, Global};

/// The teams that a net joins, by those of its pins that count and are of movable cells.
#[derive(Clone, Copy, Debug, PartialEq, Eq)]
pub(crate) enum JoinedTeams {
    NoTeam,
    /// The team of this number alone.
    OneTeam(usize),
    SeveralTeams,
}

/// The length of a net in half database units, and the teams that it joins.
#[derive(Clone, Copy, Debug, PartialEq, Eq)]
pub(crate) struct NetSummary {
    pub length: u64,
    pub teams: JoinedTeams,
}

/// Returns the team of the pin's cell. `None` if the pin is of no movable cell, or does not count.
fn team_of_pin<P: PlacedCells>(rows: &[PinOffset], pin: &PackedPin, places: &P) -> Option<usize>
    requires { All IsPinOffset rows.now }
    ensures { result ≡ team_of_pin (P.place_of places.now) (P.team_of places.now) (pin_stored rows.now pin.now) }
{
    match unpacked_pin(rows, pin) {
        NetPin::OfCell(cell, _) => match places.place(cell) {
            Some(_) => Some(places.team(cell)),
            None => None,
        },
        NetPin::Fixed(_) => None,
        NetPin::Unknown => None,
        NetPin::Unplaced => None,
    }
}

/// Returns the teams, and the team of one pin more if it has one.
fn with_team(teams: JoinedTeams, team: Option<usize>) -> JoinedTeams
    ensures { result ≡ joined_with teams team }
{
    let Some(team) = team else {
        return teams;
    };
    match teams {
        JoinedTeams::NoTeam => JoinedTeams::OneTeam(team),
        JoinedTeams::OneTeam(first) => {
            if first == team {
                JoinedTeams::OneTeam(first)
            } else {
                JoinedTeams::SeveralTeams
            }
        }
        JoinedTeams::SeveralTeams => JoinedTeams::SeveralTeams,
    }
}

/// Returns the teams that a net with these pins joins.
#[tactic(auto, using(std::proofs::lemmas::List::Sums::fold_more, crate::proofs::TeamLemmas::teams_mapped))]
fn joined_by<P: PlacedCells>(rows: &[PinOffset], pins: &[PackedPin], places: &P) -> JoinedTeams
    requires { All IsPinOffset rows.now }
    ensures { result
        ≡ joined_teams (P.place_of places.now) (P.team_of places.now) (map (pin_stored rows.now) pins.now) }
{
    let mut teams = JoinedTeams::NoTeam;
    for pin in pins {
        teams = with_team(teams, team_of_pin(rows, pin, places));
    }
    teams
}

/// Returns whether the pin is of the team `own`.
fn is_of_team<P: PlacedCells>(rows: &[PinOffset], pin: &PackedPin, places: &P, own: usize) -> bool
    requires { All IsPinOffset rows.now }
    ensures { result ≡ is_of_team (P.place_of places.now) (P.team_of places.now) rows.now own pin.now }
{
    match team_of_pin(rows, pin, places) {
        Some(team) => team == own,
        None => false,
    }
}

/// Returns whether a net with these pins joins the team `own`.
#[tactic(auto, using(std::proofs::lemmas::List::Folds::list_any_more, std::proofs::lemmas::List::Folds::list_any_at, crate::proofs::TeamLemmas::team_mapped))]
pub(crate) fn joins_team<P: PlacedCells>(
    rows: &[PinOffset],
    pins: &[PackedPin],
    places: &P,
    own: usize,
) -> bool
    requires { All IsPinOffset rows.now }
    ensures { result
        ≡ joins_team (P.place_of places.now) (P.team_of places.now) own (map (pin_stored rows.now) pins.now) }
{
    for pin in pins {
        if is_of_team(rows, pin, places, own) {
            return true;
        }
    }
    false
}

/// Returns the length of the net, and the teams that it joins.
#[tactic(auto, using(crate::proofs::StoredLemmas::net_mapped))]
fn summary_of<P: PlacedCells>(
    rows: &[PinOffset],
    starts: &[u32],
    pins: &[PackedPin],
    net: usize,
    places: &P,
) -> NetSummary
    requires rows { All IsPinOffset rows.now }
    requires net { net < length starts.now }
    ensures in_range { IsSummaryInRange result }
    ensures is { result ≡ net_summary (P.place_of places.now) (P.team_of places.now)
        (slice_index_or (nets_from starts.now (map (pin_stored rows.now) pins.now)) net []) }
{
    NetSummary {
        length: length_of_stored_net(rows, starts, pins, net, places),
        teams: joined_by(rows, pins_of(starts, pins, net), places),
    }
}

/// Returns the length and the teams of each net. `Err` if an allocation fails.
pub(crate) fn summaries<P: PlacedCells>(
    alloc: Global,
    rows: &[PinOffset],
    starts: &[u32],
    pins: &[PackedPin],
    places: &P,
) -> Result<Vec<NetSummary>, AllocError>
    requires rows { All IsPinOffset rows.now }
    ensures in_range { IfOk result (λ nets. All IsSummaryInRange nets.items) }
    ensures are { IfOk result (λ nets. nets.items ≡ map (net_summary (P.place_of places.now) (P.team_of places.now))
        (nets_from starts.now (map (pin_stored rows.now) pins.now))) }
{
    let mut nets = Vec::with_capacity(alloc, starts.len())?;
    for net in 0..starts.len() {
        nets.push(summary_of(rows, starts, pins, net, places))?;
    }
    Ok(nets)
}
