//! The lengths of nets by team.

ghost use Rattle.std.specs.Prelude.{◌≡◌, ◌≤◌, ◌<◌, ◌+◌, [], All, IfOk, fold, length, map, slice_index_or};
ghost use Rattle.lf_wire_length.specs.Bounds.{IsPinOffset};
ghost use Rattle.lf_wire_length.specs.Stored.{stored_nets};
ghost use Rattle.lf_wire_length.specs.Teams.{AreLengthsOf, IsSummaryInRange, lengths_of_teams, net_summary, no_team_lengths, team_lengths, with_crossing_net, with_own_net, with_pins_of_team};

use crate::joined::{JoinedTeams, NetSummary, joins_team};
use crate::measure::pins_of;
use crate::placed::PlacedCells;
use crate::stored::StoredNets;
use std::alloc::{AllocError, Global};

/// The nets that join a team, and their lengths in half database units.
#[derive(Clone, Copy, Debug, PartialEq, Eq)]
pub struct TeamLengths {
    /// The number of nets that join no other team.
    pub nets: u64,
    /// The sum of their lengths.
    pub own: u64,
    /// The number of nets that join other teams too.
    pub crossing_nets: u64,
    /// The sum of their lengths.
    pub crossing: u64,
}

/// Returns the lengths of a team without nets.
fn no_lengths() -> TeamLengths
    ensures is { result ≡ no_team_lengths }
    ensures in_range { AreLengthsOf 0 result }
{
    TeamLengths {
        nets: 0,
        own: 0,
        crossing_nets: 0,
        crossing: 0,
    }
}

/// Returns the lengths of the nets before `net`, and of one more that joins no other team.
fn with_own_net(net: usize, length: u64, sums: &TeamLengths) -> TeamLengths
    requires net { net < 16777216 }
    requires length { length ≤ 800000000000 }
    requires sums { AreLengthsOf net sums.now }
    ensures is { result ≡ with_own_net length sums.now }
    ensures in_range { AreLengthsOf (net + 1) result }
{
    TeamLengths {
        nets: sums.nets + 1,
        own: sums.own + length,
        crossing_nets: sums.crossing_nets,
        crossing: sums.crossing,
    }
}

/// Returns the lengths of the nets before `net`, and of one more that joins other teams too.
fn with_crossing_net(net: usize, length: u64, sums: &TeamLengths) -> TeamLengths
    requires net { net < 16777216 }
    requires length { length ≤ 800000000000 }
    requires sums { AreLengthsOf net sums.now }
    ensures is { result ≡ with_crossing_net length sums.now }
    ensures in_range { AreLengthsOf (net + 1) result }
{
    TeamLengths {
        nets: sums.nets,
        own: sums.own,
        crossing_nets: sums.crossing_nets + 1,
        crossing: sums.crossing + length,
    }
}

/// Returns the lengths of the nets before `net` as those of one more, which does not join the team.
fn without_net(net: usize, sums: &TeamLengths) -> TeamLengths
    requires sums { AreLengthsOf net sums.now }
    ensures is { result ≡ sums.now }
    ensures in_range { AreLengthsOf (net + 1) result }
{
    *sums
}

/// Returns the lengths of the team `own` with one net more, whose length and teams are given.
#[tactic(auto, using(crate::proofs::StoredLemmas::net_mapped))]
fn with_net<P: PlacedCells>(
    stored: &StoredNets<'_>,
    places: &P,
    net: usize,
    summary: &NetSummary,
    own: usize,
    sums: &TeamLengths,
) -> TeamLengths
    requires rows { All IsPinOffset stored.now.rows.now }
    requires net { net < length stored.now.starts.now }
    requires few_nets { length stored.now.starts.now ≤ 16777216 }
    requires summary { summary.now ≡ net_summary (P.place_of places.now) (P.team_of places.now)
        (slice_index_or (stored_nets stored.now) net []) }
    requires length { IsSummaryInRange summary.now }
    requires sums { AreLengthsOf net sums.now }
    ensures is { result ≡ with_pins_of_team (P.place_of places.now) (P.team_of places.now) own sums.now
        (slice_index_or (stored_nets stored.now) net []) }
    ensures in_range { AreLengthsOf (net + 1) result }
{
    match summary.teams {
        JoinedTeams::NoTeam => without_net(net, sums),
        JoinedTeams::OneTeam(team) => {
            if team == own {
                with_own_net(net, summary.length, sums)
            } else {
                without_net(net, sums)
            }
        }
        JoinedTeams::SeveralTeams => {
            if joins_team(
                stored.rows,
                pins_of(stored.starts, stored.pins, net),
                places,
                own,
            ) {
                with_crossing_net(net, summary.length, sums)
            } else {
                without_net(net, sums)
            }
        }
    }
}

/// Returns the lengths of the team `own`, given the length and the teams of each net.
#[tactic(auto, using(std::proofs::lemmas::List::Sums::fold_more, crate::proofs::StoredLemmas::nets_counted))]
fn lengths_of_team<P: PlacedCells>(
    stored: &StoredNets<'_>,
    places: &P,
    summaries: &[NetSummary],
    own: usize,
) -> TeamLengths
    requires rows { All IsPinOffset stored.now.rows.now }
    requires few_nets { length stored.now.starts.now ≤ 16777216 }
    requires summaries { summaries.now
        ≡ map (net_summary (P.place_of places.now) (P.team_of places.now)) (stored_nets stored.now) }
    requires lengths { All IsSummaryInRange summaries.now }
    ensures { result ≡ team_lengths (P.place_of places.now) (P.team_of places.now) (stored_nets stored.now) own }
{
    let mut sums = no_lengths();
    for net in 0..summaries.len() {
        sums = with_net(stored, places, net, &summaries[net], own, &sums);
    }
    sums
}

/// Returns the lengths of each team, given the length and the teams of each net. `Err` if an
/// allocation fails.
pub(crate) fn lengths_by_team<P: PlacedCells>(
    alloc: Global,
    stored: &StoredNets<'_>,
    places: &P,
    summaries: &[NetSummary],
    teams: usize,
) -> Result<Vec<TeamLengths>, AllocError>
    requires rows { All IsPinOffset stored.now.rows.now }
    requires few_nets { length stored.now.starts.now ≤ 16777216 }
    requires summaries { summaries.now
        ≡ map (net_summary (P.place_of places.now) (P.team_of places.now)) (stored_nets stored.now) }
    requires lengths { All IsSummaryInRange summaries.now }
    ensures { IfOk result (λ lengths. lengths.items
        ≡ lengths_of_teams (P.place_of places.now) (P.team_of places.now) (stored_nets stored.now) teams) }
{
    let mut lengths = Vec::with_capacity(alloc, teams)?;
    for own in 0..teams {
        lengths.push(lengths_of_team(stored, places, summaries, own))?;
    }
    Ok(lengths)
}
