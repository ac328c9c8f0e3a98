//! Ranges that the types of places guarantee.

ghost use Rattle.std.specs.Prelude.{All, IfSome};
ghost use Rattle.lf_state_text.specs.Saved.{IsSpot, IsSpottedCell};

use crate::saved_rows::SavedCell;
use lf_floorplan::{PackedPlace, Place};
use lf_undo::Moves;

/// A law: both numbers of a place are below 2^31.
fn corner_known(place: &Place)
    ensures { IsSpot place.now }
{
    let _x = place.x;
    let _y = place.y;
}

/// A law: a stored place has a text, as both its numbers are below 2^31.
pub(crate) fn place_known(place: &PackedPlace)
    ensures { IfSome place.now IsSpot }
{
    match place.place() {
        None => {}
        Some(known) => corner_known(&known),
    }
}

/// A law: the same for both places of a cell.
pub(crate) fn cell_known(cell: &SavedCell)
    ensures { IsSpottedCell cell.now }
{
    place_known(&cell.working);
    place_known(&cell.committed);
}

/// A law: the same for the places of moves.
pub(crate) fn moves_known(moves: &Moves)
    ensures { All (λ m. IfSome m.place IsSpot) moves.now }
{
    for known in moves.as_slice() {
        place_known(&known.place);
    }
}
