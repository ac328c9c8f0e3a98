//! The undo entries of a team are restored.

ghost use Rattle.std.specs.Prelude.{◌≡◌, ◌≢◌, ◌<◌, ◌≤◌, ℕ, [], All, IfOk, OnOk, length};
ghost use Rattle.lf_cells.specs.Cells.{cells_of};
ghost use Rattle.lf_occupancy.specs.Views.{KeepsCapacities};
ghost use Rattle.lf_undo.specs.Entries.{Places, entries_of};
ghost use Rattle.lf_undo.specs.Stacks.{stack_of};
ghost use Rattle.lf_placement.specs.Placements.{BoundsAt, Fits, SameButRooms, working_places_of};
ghost use Rattle.lf_floor.specs.Placed.{SavedEntriesFit, OthersStay};

use lf_cells::CellTable;
use lf_floorplan::PackedPlace;
use lf_occupancy::StripCounts;
use lf_placement::{Placement, fitting_is_stable};
use lf_undo::{Moves, UndoStore};
use std::alloc::{AllocError, Global};

/// Returns the working places of the team's cells, in loading order.
///
/// `Err` if an allocation fails.
fn working_places(
    alloc: Global,
    cells: &CellTable,
    team: usize,
) -> Result<Vec<PackedPlace>, AllocError>
    ensures { IfOk result (λ places. places.items ≡ working_places_of (cells_of cells.now team)) }
{
    let ids = cells.cells_of(team);
    let mut places = Vec::with_capacity(alloc, ids.len())?;
    for id in ids {
        places.push(PackedPlace::of(cells.working(*id)))?;
    }
    Ok(places)
}

/// Reverts the entries of the team on its list of places, the newest first, and reserves room for
/// the places before each entry.
///
/// `Err` if an allocation fails.
fn fit_entries(
    placement: &mut Placement,
    counts: &mut StripCounts,
    team: usize,
    places: &mut [PackedPlace],
    entries: &[Moves],
) -> Result<(), AllocError>
    requires own { All (λ moves. All (λ m. m.own < length places.old) moves) entries.now }
    requires room { KeepsCapacities counts.old placement.old.held.rooms }
    requires bounds { BoundsAt placement.old team places.old counts.old }
    ensures fit { OnOk result (All (Fits placement.new team) (entries_of places.old entries.now)) }
    ensures room { OnOk result (KeepsCapacities counts.new placement.new.held.rooms) }
    ensures same { OnOk result (SameButRooms placement.old placement.new) }
    ensures others { (at : Places) → (other : ℕ) → other ≢ team → BoundsAt placement.old other at counts.old
        → OnOk result (BoundsAt placement.new other at counts.new) }
{
    fitting_is_stable();
    for moves in entries {
        placement.reserve_undo(counts, team, places, moves)?;
    }
    Ok(())
}

/// Pushes the entries onto the team's stack, which is empty. The first entry becomes the newest.
///
/// `Err` if an allocation fails.
fn push_entries(undo: &mut UndoStore, team: usize, entries: Vec<Moves>) -> Result<(), AllocError>
    requires team { team < length undo.old.lists }
    requires none { stack_of undo.old team ≡ [] }
    requires few { length entries.items ≤ undo.old.limit }
    ensures stack { OnOk result (stack_of undo.new team ≡ entries.items) }
    ensures others { (other : ℕ) → other ≢ team → stack_of undo.new other ≡ stack_of undo.old other }
    ensures teams { length undo.new.lists ≡ length undo.old.lists }
    ensures limit { undo.new.limit ≡ undo.old.limit }
{
    let mut left = entries;
    while !left.is_empty() {
        let Some(moves) = left.pop() else {
            unreachable!();
        };
        match undo.push(team, moves) {
            Ok(()) => {}
            Err(_) => return Err(AllocError),
        }
    }
    Ok(())
}

/// Sets the undo entries of the team, which has no entries, to these, the newest first. Afterwards
/// there is room for the places before each entry. The tally bounds the working places of this team
/// and others; afterwards it bounds those of the others alone.
///
/// `Err` if an allocation fails.
pub fn restore_entries(
    alloc: Global,
    placement: &mut Placement,
    counts: &mut StripCounts,
    undo: &mut UndoStore,
    team: usize,
    entries: Vec<Moves>,
) -> Result<(), AllocError>
    requires team { team < length undo.old.lists }
    requires none { stack_of undo.old team ≡ [] }
    requires few { length entries.items ≤ undo.old.limit }
    requires own { All (λ moves. All (λ m. m.own < length (cells_of placement.old.cells team)) moves) entries.items }
    requires room { KeepsCapacities counts.old placement.old.held.rooms }
    requires bounds { BoundsAt placement.old team (working_places_of (cells_of placement.old.cells team)) counts.old }
    ensures stack { OnOk result (stack_of undo.new team ≡ entries.items) }
    ensures fit { OnOk result (SavedEntriesFit placement.new undo.new team) }
    ensures cells { OnOk result (placement.new.cells ≡ placement.old.cells) }
    ensures others { OnOk result (OthersStay team placement.old placement.new undo.old undo.new) }
    ensures room { OnOk result (KeepsCapacities counts.new placement.new.held.rooms) }
    ensures counts { (at : Places) → (other : ℕ) → other ≢ team → BoundsAt placement.old other at counts.old
        → OnOk result (BoundsAt placement.new other at counts.new) }
    ensures teams { OnOk result (length undo.new.lists ≡ length undo.old.lists) }
    ensures limit { OnOk result (undo.new.limit ≡ undo.old.limit) }
{
    if entries.is_empty() {
        return Ok(());
    }
    let mut places = working_places(alloc, placement.cells(), team)?;
    fit_entries(placement, counts, team, &mut places, &entries)?;
    push_entries(undo, team, entries)?;
    Ok(())
}
