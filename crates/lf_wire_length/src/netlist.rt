//! The nets of a design.

ghost use Rattle.std.specs.Prelude.{◌≡◌, ◌≢◌, ◌<◌, ◌≤◌, ◌-◌, ◌^◌, ◌++◌, ◌∷◌, [], Err, IfOk, IfSome, OnErr, OnOk, length, min, option_map, slice_get, slice_index_or};
ghost use Rattle.lf_wire_length.specs.Bounds.{IsPinOffset};
ghost use Rattle.lf_wire_length.specs.Counts.{net_counts};
ghost use Rattle.lf_wire_length.specs.Length.{length_of_net, length_of_nets};
ghost use Rattle.lf_wire_length.specs.Stored.{HasRow, IsNetlist, net_view, pin_by_row, stored_nets, with_empty_net, with_pin_row, with_table_row};
ghost use Rattle.lf_wire_length.specs.TeamNets.{length_of_listed, nets_of_teams};
ghost use Rattle.lf_wire_length.specs.Teams.{lengths_of_teams};
ghost use Rattle.lf_wire_length.specs.declared.netlist.NetlistError.TheVariants.{TooMany};

use crate::counts::{NetCounts, counts_of_nets};
use crate::joined::summaries;
use crate::measure::{length_of_all, length_of_some, length_of_stored_net, pin_at, pins_of};
use crate::pins::{PackedPin, PinRow, packed_pin};
use crate::placed::PlacedCells;
use crate::points::PinOffset;
use crate::stored::StoredNets;
use crate::team_lengths::{TeamLengths, lengths_by_team};
use crate::team_nets::{TeamNets, nets_by_team};
use std::alloc::{AllocError, Global};
use std::marker::Model;

/// The most nets that a `Netlist` holds.
const MOST_NETS: usize = 16_777_216;
/// The most pins, and the most rows, that a `Netlist` holds.
const MOST_PINS: usize = 4_294_967_295;

/// Why a `Netlist` cannot be extended.
#[derive(Clone, Copy, Debug, PartialEq, Eq)]
pub enum NetlistError {
    /// It holds 16,777,216 nets, or 4,294,967,295 pins or rows.
    TooMany,
    /// An allocation fails.
    OutOfMemory,
}

/// The nets of a design, each with its pins: 4 bytes a net and 8 bytes a pin.
///
/// A pin names its cell by number, and a row of a table: its offset in its macro, or its point if no
/// command moves it. Contracts see the table and for each net the list of its pins.
#[derive(Drop)]
pub struct Netlist {
    rows: Vec<PinOffset>,
    /// Where the pins of each net begin.
    starts: Vec<u32>,
    pins: Vec<PackedPin>,
}

impl Model for Netlist {
    ghost use Rattle.lf_wire_length.specs.Stored.{IsNetlist, NetlistView, net_view};

    ghost Value = { NetlistView };

    ghost view = { λ l. net_view l.rows.items l.starts.items l.pins.items };

    ghost invariant = { λ l. IsNetlist l.rows.items l.starts.items l.pins.items };
}

/// Appends a value. `Err` if an allocation fails; the list is then unchanged.
fn push_value<T: Drop>(values: &mut Vec<T>, value: T) -> Result<(), NetlistError>
    ensures ok { OnOk result (values.new.items ≡ values.old.items ++ value ∷ []) }
    ensures err { OnErr result (values.new.items ≡ values.old.items) }
    ensures memory { result ≢ Err TooMany }
{
    match values.push(value) {
        Ok(()) => Ok(()),
        Err(_) => Err(NetlistError::OutOfMemory),
    }
}

/// Appends a row to the table and returns its number.
#[tactic(auto, using(crate::proofs::ViewLemmas::row_added, crate::proofs::ViewLemmas::row_kept))]
fn add_row_to(
    rows: &mut Vec<PinOffset>,
    starts: &[u32],
    pins: &[PackedPin],
    row: PinOffset,
) -> Result<u32, NetlistError>
    requires lists { IsNetlist rows.old.items starts.now pins.now }
    requires row { IsPinOffset row }
    ensures lists { IsNetlist rows.new.items starts.now pins.now }
    ensures number { IfOk result (λ number. number ≡ length rows.old.items) }
    ensures ok { OnOk result (net_view rows.new.items starts.now pins.now
        ≡ with_table_row row (net_view rows.old.items starts.now pins.now)) }
    ensures err { OnErr result (rows.new.items ≡ rows.old.items) }
    ensures too_many { result ≡ Err TooMany → 4294967295 ≤ length rows.old.items }
{
    let number = rows.len();
    if number >= MOST_PINS {
        return Err(NetlistError::TooMany);
    }
    push_value(rows, row)?;
    Ok(number as u32)
}

/// Appends the start of a net without pins.
#[tactic(auto, using(crate::proofs::ViewLemmas::net_added, crate::proofs::ViewLemmas::net_kept))]
fn add_net_to(
    rows: &[PinOffset],
    starts: &mut Vec<u32>,
    pins: &[PackedPin],
) -> Result<(), NetlistError>
    requires lists { IsNetlist rows.now starts.old.items pins.now }
    ensures lists { IsNetlist rows.now starts.new.items pins.now }
    ensures ok { OnOk result (net_view rows.now starts.new.items pins.now
        ≡ with_empty_net (net_view rows.now starts.old.items pins.now)) }
    ensures err { OnErr result (starts.new.items ≡ starts.old.items) }
    ensures too_many { result ≡ Err TooMany → 16777216 ≤ length starts.old.items }
{
    if starts.len() >= MOST_NETS {
        return Err(NetlistError::TooMany);
    }
    push_value(starts, pins.len() as u32)
}

/// Appends a pin to the last net.
#[tactic(auto, using(crate::proofs::ViewLemmas::pin_added, crate::proofs::ViewLemmas::pin_added_kept))]
fn add_pin_to(
    rows: &[PinOffset],
    starts: &[u32],
    pins: &mut Vec<PackedPin>,
    pin: PinRow,
) -> Result<(), NetlistError>
    requires lists { IsNetlist rows.now starts.now pins.old.items }
    requires row { HasRow (length rows.now) pin }
    ensures lists { IsNetlist rows.now starts.now pins.new.items }
    ensures ok { OnOk result (net_view rows.now starts.now pins.new.items
        ≡ with_pin_row pin (net_view rows.now starts.now pins.old.items)) }
    ensures err { OnErr result (pins.new.items ≡ pins.old.items) }
    ensures too_many { result ≡ Err TooMany → 4294967295 ≤ length pins.old.items }
{
    if pins.len() >= MOST_PINS {
        return Err(NetlistError::TooMany);
    }
    push_value(pins, packed_pin(rows, pin))
}

/// The lengths of a netlist's nets, in half database units.
#[derive(Drop)]
pub struct WireLengths {
    /// The number of nets.
    pub nets: usize,
    /// The wire length.
    pub length: u64,
    pub counts: NetCounts,
    /// The lengths of the teams, by their numbers.
    pub teams: Vec<TeamLengths>,
}

/// Returns the lengths of all nets, and of each of `teams` teams.
fn lengths_of<P: PlacedCells>(
    alloc: Global,
    stored: &StoredNets<'_>,
    places: &P,
    teams: usize,
) -> Result<WireLengths, AllocError>
    requires lists { IsNetlist stored.now.rows.now stored.now.starts.now stored.now.pins.now }
    ensures nets { IfOk result (λ lengths. lengths.nets ≡ length stored.now.starts.now) }
    ensures length { IfOk result
        (λ lengths. lengths.length ≡ length_of_nets (P.place_of places.now) (stored_nets stored.now)) }
    ensures counts { IfOk result (λ lengths. lengths.counts
        ≡ net_counts (P.place_of places.now) (P.team_of places.now) (stored_nets stored.now)) }
    ensures teams { IfOk result (λ lengths. lengths.teams.items
        ≡ lengths_of_teams (P.place_of places.now) (P.team_of places.now) (stored_nets stored.now) teams) }
{
    let measured = summaries(alloc, stored.rows, stored.starts, stored.pins, places)?;
    Ok(WireLengths {
        nets: stored.starts.len(),
        length: length_of_all(stored.rows, stored.starts, stored.pins, places),
        counts: counts_of_nets(stored, places, &measured),
        teams: lengths_by_team(alloc, stored, places, &measured, teams)?,
    })
}

impl Netlist {
    /// Returns the netlist without rows and nets. Allocates nothing.
    pub fn new(alloc: Global) -> Netlist
        ensures rows { result.rows ≡ [] }
        ensures nets { result.nets ≡ [] }
        ensures pins { result.pins ≡ 0 }
    {
        Netlist {
            rows: Vec::new(alloc),
            starts: Vec::new(alloc),
            pins: Vec::new(alloc),
        }
    }

    /// Returns the number of nets.
    #[tactic(auto, using(crate::proofs::StoredLemmas::nets_counted))]
    pub fn len(&self) -> usize
        ensures { result ≡ length self.now.nets }
    {
        self.starts.len()
    }

    /// Returns the number of rows of the table.
    pub fn row_count(&self) -> usize
        ensures rows { result ≡ length self.now.rows }
        ensures few { result ≤ 4294967295 }
    {
        self.rows.len()
    }

    /// Appends a row to the table and returns its number. For a pin at a point that no command moves
    /// it is that point, in a macro of any size.
    ///
    /// `Err(TooMany)` if there are 4,294,967,295 rows. `Err(OutOfMemory)` if an allocation fails.
    /// Nothing changes after an error.
    pub fn add_row(&mut self, row: PinOffset) -> Result<u32, NetlistError>
        requires { IsPinOffset row }
        ensures number { IfOk result (λ number. number ≡ length self.old.rows) }
        ensures ok { OnOk result (self.new ≡ with_table_row row self.old) }
        ensures err { OnErr result (self.new ≡ self.old) }
        ensures too_many { result ≡ Err TooMany → 4294967295 ≤ length self.old.rows }
    {
        add_row_to(
            &mut self.rows,
            self.starts.as_slice(),
            self.pins.as_slice(),
            row,
        )
    }

    /// Appends a net without pins.
    ///
    /// `Err(TooMany)` if there are 16,777,216 nets. `Err(OutOfMemory)` if an allocation fails.
    /// Nothing changes after an error.
    pub fn start_net(&mut self) -> Result<(), NetlistError>
        ensures ok { OnOk result (self.new ≡ with_empty_net self.old) }
        ensures err { OnErr result (self.new ≡ self.old) }
        ensures too_many { result ≡ Err TooMany → 16777216 ≤ length self.old.nets }
    {
        add_net_to(self.rows.as_slice(), &mut self.starts, self.pins.as_slice())
    }

    /// Appends a pin to the last net. There must be a net, a row of the pin's number, and its cell
    /// must have a number below 4,294,967,293.
    ///
    /// `Err(TooMany)` if there are 4,294,967,295 pins. `Err(OutOfMemory)` if an allocation fails.
    /// Nothing changes after an error.
    pub fn push_pin(&mut self, pin: PinRow) -> Result<(), NetlistError>
        requires net { 0 < length self.old.nets }
        requires row { HasRow (length self.old.rows) pin }
        ensures ok { OnOk result (self.new ≡ with_pin_row pin self.old) }
        ensures err { OnErr result (self.new ≡ self.old) }
        ensures too_many { result ≡ Err TooMany → 4294967295 ≤ self.old.pins }
    {
        add_pin_to(
            self.rows.as_slice(),
            self.starts.as_slice(),
            &mut self.pins,
            pin,
        )
    }

    /// Returns the number of pins of the net of this number.
    #[tactic(auto, using(crate::proofs::StoredLemmas::net_mapped))]
    pub fn pin_count(&self, net: usize) -> usize
        requires { net < length self.now.nets }
        ensures { result ≡ length (slice_index_or self.now.nets net []) }
    {
        pins_of(self.starts.as_slice(), self.pins.as_slice(), net).len()
    }

    /// Returns the row of this number. `None` if the table has no such row.
    pub fn row(&self, number: u32) -> Option<PinOffset>
        ensures in_range { IfSome result IsPinOffset }
        ensures is { result ≡ slice_get self.now.rows number }
    {
        self.rows.get(number as usize).copied()
    }

    /// Returns the pin at this position of the net of this number. `None` if the net has fewer pins.
    pub fn pin(&self, net: usize, at: usize) -> Option<PinRow>
        requires { net < length self.now.nets }
        ensures { option_map (pin_by_row self.now.rows) result
            ≡ slice_get (slice_index_or self.now.nets net []) at }
    {
        pin_at(self.starts.as_slice(), self.pins.as_slice(), net, at)
    }

    /// Returns the length of the net of this number, in half database units.
    pub fn net_length<P: PlacedCells>(&self, places: &P, net: usize) -> u64
        requires { net < length self.now.nets }
        ensures { result ≡ length_of_net (P.place_of places.now) (slice_index_or self.now.nets net []) }
    {
        length_of_stored_net(
            self.rows.as_slice(),
            self.starts.as_slice(),
            self.pins.as_slice(),
            net,
            places,
        )
    }

    /// Returns the wire length of all nets, in half database units.
    pub fn wire_length<P: PlacedCells>(&self, places: &P) -> u64
        ensures { result ≡ length_of_nets (P.place_of places.now) self.now.nets }
    {
        length_of_all(
            self.rows.as_slice(),
            self.starts.as_slice(),
            self.pins.as_slice(),
            places,
        )
    }

    /// Returns the sum of the lengths of the nets of these numbers, in half database units, or the
    /// greatest number of 64 bits if that is less. A number that no net has counts for nothing.
    pub fn length_of<P: PlacedCells>(&self, places: &P, nets: &[u32]) -> u64
        ensures { result ≡ min (length_of_listed (P.place_of places.now) self.now.nets nets.now) (2 ^ 64 - 1) }
    {
        length_of_some(
            self.rows.as_slice(),
            self.starts.as_slice(),
            self.pins.as_slice(),
            nets,
            places,
        )
    }

    /// Returns for each of `teams` teams the nets that have a pin of one of its cells. `owners` has
    /// the number of each cell's team. `Err` if an allocation fails.
    pub fn nets_of_teams(
        &self,
        alloc: Global,
        owners: &[u32],
        teams: usize,
    ) -> Result<TeamNets, AllocError>
        ensures { IfOk result (λ nets. nets ≡ nets_of_teams owners.now self.now.nets teams) }
    {
        let stored = StoredNets {
            rows: self.rows.as_slice(),
            starts: self.starts.as_slice(),
            pins: self.pins.as_slice(),
        };
        nets_by_team(alloc, &stored, owners, teams)
    }

    /// Returns the lengths of all nets, and of the teams with numbers below `teams`. `Err` if an
    /// allocation fails.
    #[tactic(auto, using(crate::proofs::StoredLemmas::nets_counted))]
    pub fn lengths<P: PlacedCells>(
        &self,
        alloc: Global,
        places: &P,
        teams: usize,
    ) -> Result<WireLengths, AllocError>
        ensures nets { IfOk result (λ lengths. lengths.nets ≡ length self.now.nets) }
        ensures length { IfOk result
            (λ lengths. lengths.length ≡ length_of_nets (P.place_of places.now) self.now.nets) }
        ensures counts { IfOk result
            (λ lengths. lengths.counts ≡ net_counts (P.place_of places.now) (P.team_of places.now) self.now.nets) }
        ensures teams { IfOk result (λ lengths. lengths.teams.items
            ≡ lengths_of_teams (P.place_of places.now) (P.team_of places.now) self.now.nets teams) }
    {
        let stored = StoredNets {
            rows: self.rows.as_slice(),
            starts: self.starts.as_slice(),
            pins: self.pins.as_slice(),
        };
        lengths_of(alloc, &stored, places, teams)
    }
}
