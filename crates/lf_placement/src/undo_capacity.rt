//! Undoes moves on a list of places, and makes room for the resulting places.

ghost use Rattle.std.specs.Prelude.{◌≡◌, ◌≢◌, ◌<◌, All, OnOk, length, slice_set, ℕ};
ghost use Rattle.lf_occupancy.specs.Views.{KeepsCapacities};
ghost use Rattle.lf_undo.specs.Entries.{Places, moves_taken_back};
ghost use Rattle.lf_placement.specs.Placements.{BoundsAt, SameButRooms};

use crate::counted_capacity::Change;
use crate::placement::Placement;
use lf_floorplan::PackedPlace;
use lf_occupancy::StripCounts;
use lf_undo::{Move, Moves};
use std::alloc::AllocError;

/// Undoes one move on the list of the places of the team's cells, and makes room for these places.
/// `Err` if an allocation fails.
fn reserve_move_undo(
    placement: &mut Placement,
    counts: &mut StripCounts,
    team: usize,
    places: &mut [PackedPlace],
    last: &Move,
) -> Result<(), AllocError>
    requires own { last.now.own < length places.old }
    requires room { KeepsCapacities counts.old placement.old.held.rooms }
    requires bounds { BoundsAt placement.old team places.old counts.old }
    ensures places { OnOk result (places.new ≡ slice_set places.old last.now.own last.now.place) }
    ensures room { OnOk result (KeepsCapacities counts.new placement.new.held.rooms) }
    ensures bounds { OnOk result (BoundsAt placement.new team places.new counts.new) }
    ensures others { (at : Places) → (other : ℕ) → other ≢ team → BoundsAt placement.old other at counts.old
        → OnOk result (BoundsAt placement.new other at counts.new) }
    ensures same { SameButRooms placement.old placement.new }
{
    let own = last.own as usize;
    let change = Change {
        own: last.own,
        from: places[own],
        to: last.place,
    };
    placement.reserve_change(counts, team, &change)?;
    places[own] = last.place;
    Ok(())
}

/// Undoes each of the moves in the same sense, the last one first. `Err` if an allocation fails.
pub(crate) fn fit_moves_back(
    placement: &mut Placement,
    counts: &mut StripCounts,
    team: usize,
    places: &mut [PackedPlace],
    moves: &Moves,
) -> Result<(), AllocError>
    requires own { All (λ m. m.own < length places.old) moves.now }
    requires room { KeepsCapacities counts.old placement.old.held.rooms }
    requires bounds { BoundsAt placement.old team places.old counts.old }
    ensures places { OnOk result (places.new ≡ moves_taken_back moves.now places.old) }
    ensures room { OnOk result (KeepsCapacities counts.new placement.new.held.rooms) }
    ensures bounds { OnOk result (BoundsAt placement.new team places.new counts.new) }
    ensures others { (at : Places) → (other : ℕ) → other ≢ team → BoundsAt placement.old other at counts.old
        → OnOk result (BoundsAt placement.new other at counts.new) }
    ensures same { SameButRooms placement.old placement.new }
{
    let moves = moves.as_slice();
    for at in (0..moves.len()).rev() {
        reserve_move_undo(placement, counts, team, places, &moves[at])?;
    }
    Ok(())
}
