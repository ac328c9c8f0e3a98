//! Flips: a cell is mirrored at its place.

use crate::board::{Board, SitePlace};
use crate::cells::flipped;
use crate::change::{SiteMove, make_moves};
use crate::wires::Wires;
use std::alloc::AllocError;

/// The flip of a cell, if the flipped orientation is allowed at its place.
fn flip_of(board: &Board, cell: u32) -> Option<SiteMove> {
    let place = board.place_of(cell)?;
    let given = board.cells.get(cell as usize)?;
    let run = board.runs.get(place.run)?;
    let orientation = flipped(place.orientation);
    if !given.orientations.in_row(run.kind).has(orientation) {
        return None;
    }
    let place = SitePlace {
        orientation,
        ..place
    };
    Some(SiteMove { cell, place })
}

/// Flips a cell if the length then grows by less than `limit`.
pub(crate) fn flip(
    board: &mut Board,
    wires: &mut Wires,
    cell: u32,
    limit: i64,
) -> Result<(), AllocError> {
    match flip_of(board, cell) {
        Some(one) => make_moves(board, wires, &[one], limit),
        None => Ok(()),
    }
}
