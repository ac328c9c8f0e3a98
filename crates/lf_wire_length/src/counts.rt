//! Counts of a design's nets and of their pins.

ghost use Rattle.std.specs.Prelude.{◌≡◌, ◌≤◌, ◌<◌, ◌+◌, [], All, length, map, slice_index_or};
ghost use Rattle.lf_wire_length.specs.Bounds.{IsPinOffset};
ghost use Rattle.lf_wire_length.specs.Counts.{AreNetCountsOf, ArePinCountsOf, length_if_crossing as length_crossing};
ghost use Rattle.lf_wire_length.specs.Counts.{net_counts, no_counts as no_net_counts, no_pins as no_pin_counts, one_if_crossing as one_crossing};
ghost use Rattle.lf_wire_length.specs.Counts.{one_if_fixed as one_fixed, one_if_short as one_short, pin_counts, with_counted as counted_more};
ghost use Rattle.lf_wire_length.specs.Counts.{with_net_counted, with_pin_counted, with_pins_of_net, with_unknown as unknown_more};
ghost use Rattle.lf_wire_length.specs.Counts.{with_unplaced as unplaced_more};
ghost use Rattle.lf_wire_length.specs.Stored.{pin_stored, stored_nets};
ghost use Rattle.lf_wire_length.specs.Teams.{IsSummaryInRange, net_summary};

use crate::joined::{JoinedTeams, NetSummary};
use crate::measure::pins_of;
use crate::pins::{NetPin, PackedPin, unpacked_pin};
use crate::placed::PlacedCells;
use crate::points::PinOffset;
use crate::stored::StoredNets;

/// The pins of a net.
#[derive(Clone, Copy, Debug, PartialEq, Eq)]
pub(crate) struct PinCounts {
    /// The number of pins that count.
    pub counted: u64,
    /// The number of pins whose component, macro's pin or rectangle is in no text.
    pub unknown: u64,
    /// The number of pins without a place.
    pub unplaced: u64,
}

/// The nets of a design and their pins.
#[derive(Clone, Copy, Debug, PartialEq, Eq)]
pub struct NetCounts {
    /// The number of pins that count.
    pub pins: u64,
    /// The number of nets with fewer than two pins that count.
    pub one_pin: u64,
    /// The number of pins whose component, macro's pin or rectangle is in no text.
    pub unknown: u64,
    /// The number of pins without a place.
    pub unplaced: u64,
    /// The number of nets that join no team.
    pub fixed_nets: u64,
    /// The number of nets that join several teams.
    pub crossing_nets: u64,
    /// The sum of the lengths of these, in half database units.
    pub crossing: u64,
}

/// Returns the counts of no pin.
fn no_pins() -> PinCounts
    ensures is { result ≡ no_pin_counts }
    ensures in_range { ArePinCountsOf 0 result }
{
    PinCounts {
        counted: 0,
        unknown: 0,
        unplaced: 0,
    }
}

/// Returns the counts of the pins before `at`, and of one more that counts.
fn with_counted(at: usize, counts: &PinCounts) -> PinCounts
    requires at { at < 4294967295 }
    requires counts { ArePinCountsOf at counts.now }
    ensures is { result ≡ counted_more counts.now }
    ensures in_range { ArePinCountsOf (at + 1) result }
{
    PinCounts {
        counted: counts.counted + 1,
        unknown: counts.unknown,
        unplaced: counts.unplaced,
    }
}

/// Returns the counts of the pins before `at`, and of one more that is unknown.
fn with_unknown(at: usize, counts: &PinCounts) -> PinCounts
    requires at { at < 4294967295 }
    requires counts { ArePinCountsOf at counts.now }
    ensures is { result ≡ unknown_more counts.now }
    ensures in_range { ArePinCountsOf (at + 1) result }
{
    PinCounts {
        counted: counts.counted,
        unknown: counts.unknown + 1,
        unplaced: counts.unplaced,
    }
}

/// Returns the counts of the pins before `at`, and of one more that is unplaced.
fn with_unplaced(at: usize, counts: &PinCounts) -> PinCounts
    requires at { at < 4294967295 }
    requires counts { ArePinCountsOf at counts.now }
    ensures is { result ≡ unplaced_more counts.now }
    ensures in_range { ArePinCountsOf (at + 1) result }
{
    PinCounts {
        counted: counts.counted,
        unknown: counts.unknown,
        unplaced: counts.unplaced + 1,
    }
}

/// Returns the counts of the pins before `at`, and of this one.
fn with_pin<P: PlacedCells>(
    rows: &[PinOffset],
    pin: &PackedPin,
    places: &P,
    at: usize,
    counts: &PinCounts,
) -> PinCounts
    requires rows { All IsPinOffset rows.now }
    requires at { at < 4294967295 }
    requires counts { ArePinCountsOf at counts.now }
    ensures is { result ≡ with_pin_counted (P.place_of places.now) counts.now (pin_stored rows.now pin.now) }
    ensures in_range { ArePinCountsOf (at + 1) result }
{
    match unpacked_pin(rows, pin) {
        NetPin::Fixed(_) => with_counted(at, counts),
        NetPin::OfCell(cell, _) => match places.place(cell) {
            Some(_) => with_counted(at, counts),
            None => with_unplaced(at, counts),
        },
        NetPin::Unknown => with_unknown(at, counts),
        NetPin::Unplaced => with_unplaced(at, counts),
    }
}

/// Returns the counts of the pins of a net.
#[tactic(auto, using(std::proofs::lemmas::List::Sums::fold_more, crate::proofs::TeamLemmas::counts_mapped))]
fn counts_of_pins<P: PlacedCells>(rows: &[PinOffset], pins: &[PackedPin], places: &P) -> PinCounts
    requires rows { All IsPinOffset rows.now }
    requires few_pins { length pins.now ≤ 4294967295 }
    ensures is { result ≡ pin_counts (P.place_of places.now) (map (pin_stored rows.now) pins.now) }
    ensures in_range { ArePinCountsOf 4294967295 result }
{
    let mut counts = no_pins();
    for at in 0..pins.len() {
        counts = with_pin(rows, &pins[at], places, at, &counts);
    }
    counts
}

/// Returns the counts of no net.
fn no_counts() -> NetCounts
    ensures is { result ≡ no_net_counts }
    ensures in_range { AreNetCountsOf 0 result }
{
    NetCounts {
        pins: 0,
        one_pin: 0,
        unknown: 0,
        unplaced: 0,
        fixed_nets: 0,
        crossing_nets: 0,
        crossing: 0,
    }
}

/// Returns 1 if fewer than two pins count, else 0.
fn one_if_short(counted: u64) -> u64
    ensures is { result ≡ one_short counted }
    ensures bound { result ≤ 1 }
{
    if counted < 2 { 1 } else { 0 }
}

/// Returns 1 if there is no team, else 0.
fn one_if_fixed(teams: JoinedTeams) -> u64
    ensures is { result ≡ one_fixed teams }
    ensures bound { result ≤ 1 }
{
    match teams {
        JoinedTeams::NoTeam => 1,
        JoinedTeams::OneTeam(_) => 0,
        JoinedTeams::SeveralTeams => 0,
    }
}

/// Returns 1 if there are several teams, else 0.
fn one_if_crossing(teams: JoinedTeams) -> u64
    ensures is { result ≡ one_crossing teams }
    ensures bound { result ≤ 1 }
{
    match teams {
        JoinedTeams::NoTeam => 0,
        JoinedTeams::OneTeam(_) => 0,
        JoinedTeams::SeveralTeams => 1,
    }
}

/// Returns the length if there are several teams, else 0.
fn length_if_crossing(length: u64, teams: JoinedTeams) -> u64
    requires { length ≤ 800000000000 }
    ensures is { result ≡ length_crossing length teams }
    ensures bound { result ≤ 800000000000 }
{
    match teams {
        JoinedTeams::NoTeam => 0,
        JoinedTeams::OneTeam(_) => 0,
        JoinedTeams::SeveralTeams => length,
    }
}

/// Returns the counts of the nets before `net`, and of one more.
fn with_net(net: usize, summary: &NetSummary, pins: &PinCounts, counts: &NetCounts) -> NetCounts
    requires net { net < 16777216 }
    requires length { IsSummaryInRange summary.now }
    requires pins { ArePinCountsOf 4294967295 pins.now }
    requires counts { AreNetCountsOf net counts.now }
    ensures is { result ≡ with_net_counted counts.now summary.now.length summary.now.teams pins.now }
    ensures in_range { AreNetCountsOf (net + 1) result }
{
    let short = one_if_short(pins.counted);
    let fixed = one_if_fixed(summary.teams);
    let several = one_if_crossing(summary.teams);
    let crossing = length_if_crossing(summary.length, summary.teams);
    NetCounts {
        pins: counts.pins + pins.counted,
        one_pin: counts.one_pin + short,
        unknown: counts.unknown + pins.unknown,
        unplaced: counts.unplaced + pins.unplaced,
        fixed_nets: counts.fixed_nets + fixed,
        crossing_nets: counts.crossing_nets + several,
        crossing: counts.crossing + crossing,
    }
}

/// Returns the counts of the pins of the net of this number.
#[tactic(auto, using(crate::proofs::StoredLemmas::net_mapped))]
fn counts_of_net<P: PlacedCells>(stored: &StoredNets<'_>, places: &P, net: usize) -> PinCounts
    requires rows { All IsPinOffset stored.now.rows.now }
    requires net { net < length stored.now.starts.now }
    requires few_pins { length stored.now.pins.now ≤ 4294967295 }
    ensures is { result ≡ pin_counts (P.place_of places.now) (slice_index_or (stored_nets stored.now) net []) }
    ensures in_range { ArePinCountsOf 4294967295 result }
{
    counts_of_pins(
        stored.rows,
        pins_of(stored.starts, stored.pins, net),
        places,
    )
}

/// Returns the counts of all nets, given the length and the teams of each.
#[tactic(auto, using(std::proofs::lemmas::List::Sums::fold_more, crate::proofs::StoredLemmas::nets_counted))]
pub(crate) fn counts_of_nets<P: PlacedCells>(
    stored: &StoredNets<'_>,
    places: &P,
    summaries: &[NetSummary],
) -> NetCounts
    requires rows { All IsPinOffset stored.now.rows.now }
    requires few_nets { length stored.now.starts.now ≤ 16777216 }
    requires few_pins { length stored.now.pins.now ≤ 4294967295 }
    requires summaries { summaries.now
        ≡ map (net_summary (P.place_of places.now) (P.team_of places.now)) (stored_nets stored.now) }
    requires lengths { All IsSummaryInRange summaries.now }
    ensures { result ≡ net_counts (P.place_of places.now) (P.team_of places.now) (stored_nets stored.now) }
{
    let mut counts = no_counts();
    for net in 0..summaries.len() {
        let pins = counts_of_net(stored, places, net);
        counts = with_net(net, &summaries[net], &pins, &counts);
    }
    counts
}
