//! The nets of each team.

ghost use Rattle.std.specs.Prelude.{◌≡◌, ◌≤◌, ◌<◌, ◌+◌, ◌-◌, ◌==◌, [], ℕ, All, IfOk, OnOk, Some, fold, length, map, replicate, slice_index_or};
ghost use Rattle.lf_wire_length.specs.Bounds.{IsPinOffset};
ghost use Rattle.lf_wire_length.specs.Stored.{pin_stored, stored_nets};
ghost use Rattle.lf_wire_length.specs.TeamNets.{nets_of_teams, owner_of_pin, with_owner, with_owner_of};

use crate::measure::pins_of;
use crate::pins::{NetPin, PackedPin, unpacked_pin};
use crate::points::PinOffset;
use crate::stored::StoredNets;
use std::alloc::{AllocError, Global};
use std::marker::Model;

/// For each team the numbers of the nets that have a pin of one of its cells, in rising order.
///
/// Contracts see the list of these lists.
#[derive(Drop)]
pub struct TeamNets {
    lists: Vec<Vec<u32>>,
}

impl Model for TeamNets {
    ghost use Rattle.std.specs.Prelude.{ℕ, List, map};

    ghost Value = { List (List ℕ) };

    ghost view = { λ n. map (λ list. list.items) n.lists.items };
}

impl TeamNets {
    /// Returns the numbers of the nets of the team with this number. Empty if there is no such team.
    pub fn of(&self, team: usize) -> &[u32]
        ensures { result.now ≡ slice_index_or self.now team [] }
    {
        match self.lists.get(team) {
            Some(list) => list.as_slice(),
            None => &[],
        }
    }
}

/// Returns the team of the pin's cell. `None` if the pin is of no cell, or of one that the list does
/// not have.
fn owner_of(rows: &[PinOffset], pin: &PackedPin, owners: &[u32]) -> Option<usize>
    requires { All IsPinOffset rows.now }
    ensures { result ≡ owner_of_pin owners.now (pin_stored rows.now pin.now) }
{
    match unpacked_pin(rows, pin) {
        NetPin::OfCell(cell, _) => match owners.get(cell as usize) {
            Some(team) => Some(*team as usize),
            None => None,
        },
        NetPin::Fixed(_) => None,
        NetPin::Unknown => None,
        NetPin::Unplaced => None,
    }
}

/// Returns whether the net is the last one of the list.
fn is_last(list: &[u32], net: u32) -> bool
    ensures { result ≡ (slice_index_or list.now (length list.now - 1) (net + 1) == net) }
{
    match list.last() {
        Some(last) => *last == net,
        None => false,
    }
}

/// Appends the net to the team's list, unless it is the last one there.
fn add_net(lists: &mut Vec<Vec<u32>>, team: usize, net: u32) -> Result<(), AllocError>
    ensures many { OnOk result (length lists.new.items ≡ length lists.old.items) }
    ensures each { OnOk result ((own : ℕ) → own < length lists.old.items
        → slice_index_or (map (λ list. list.items) lists.new.items) own []
        ≡ with_owner own net (slice_index_or (map (λ list. list.items) lists.old.items) own []) (Some team)) }
{
    let Some(list) = lists.get_mut(team) else {
        return Ok(());
    };
    if !is_last(list.as_slice(), net) {
        list.push(net)?;
    }
    Ok(())
}

/// Appends the net to the list of each team that has one of these pins.
fn add_pins(
    lists: &mut Vec<Vec<u32>>,
    rows: &[PinOffset],
    pins: &[PackedPin],
    owners: &[u32],
    net: u32,
) -> Result<(), AllocError>
    requires { All IsPinOffset rows.now }
    ensures many { OnOk result (length lists.new.items ≡ length lists.old.items) }
    ensures each { OnOk result ((own : ℕ) → own < length lists.old.items
        → slice_index_or (map (λ list. list.items) lists.new.items) own []
        ≡ fold (with_owner_of rows.now owners.now own net)
        (slice_index_or (map (λ list. list.items) lists.old.items) own []) pins.now) }
{
    for pin in pins {
        if let Some(team) = owner_of(rows, pin, owners) {
            add_net(lists, team, net)?;
        }
    }
    Ok(())
}

/// Returns an empty list for each team.
fn empty_lists(alloc: Global, teams: usize) -> Result<Vec<Vec<u32>>, AllocError>
    ensures { IfOk result (λ lists. map (λ list. list.items) lists.items ≡ replicate teams []) }
{
    let mut lists = Vec::with_capacity(alloc, teams)?;
    for _ in 0..teams {
        lists.push(Vec::new(alloc))?;
    }
    Ok(lists)
}

/// Returns the nets of the teams of these numbers: 0 and those after it. `owners` has the team of
/// each cell. Each pin is looked at once. `Err` if an allocation fails.
pub(crate) fn nets_by_team(
    alloc: Global,
    stored: &StoredNets<'_>,
    owners: &[u32],
    teams: usize,
) -> Result<TeamNets, AllocError>
    requires rows { All IsPinOffset stored.now.rows.now }
    requires few_nets { length stored.now.starts.now ≤ 16777216 }
    ensures { IfOk result (λ nets. nets ≡ nets_of_teams owners.now (stored_nets stored.now) teams) }
{
    let mut lists = empty_lists(alloc, teams)?;
    for net in 0..stored.starts.len() {
        let pins = pins_of(stored.starts, stored.pins, net);
        add_pins(&mut lists, stored.rows, pins, owners, net as u32)?;
    }
    Ok(TeamNets { lists })
}
