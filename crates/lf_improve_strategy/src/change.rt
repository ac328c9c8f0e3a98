//! The exact change of the length if a few cells move.

use crate::board::{Board, FREE, SitePlace};
use crate::wires::Wires;
use std::alloc::AllocError;

/// A move of a cell to a place.
#[derive(Clone, Copy)]
pub struct SiteMove {
    pub cell: u32,
    pub place: SitePlace,
}

/// Moves the pins of a cell to those of a place.
fn move_pins(board: &Board, wires: &mut Wires, cell: u32, place: &SitePlace) {
    if let Some(corner) = board.point_of(place) {
        wires.move_pins(cell, &corner, place.orientation);
    }
}

/// Moves the pins of all moves, and returns by how much the length grows.
fn begin(board: &Board, wires: &mut Wires, moves: &[SiteMove]) -> Result<i64, AllocError> {
    wires.clear();
    for one in moves {
        wires.touch(one.cell)?;
    }
    for one in moves {
        move_pins(board, wires, one.cell, &one.place);
    }
    Ok(wires.change())
}

/// Moves the pins back to the places of their cells.
fn undo(board: &Board, wires: &mut Wires, moves: &[SiteMove]) {
    for one in moves {
        if let Some(place) = board.place_of(one.cell) {
            move_pins(board, wires, one.cell, &place);
        }
    }
}

/// By how much the length grows if the cells move. They do not move. `Err` if an allocation fails.
pub fn length_change(
    board: &Board,
    wires: &mut Wires,
    moves: &[SiteMove],
) -> Result<i64, AllocError> {
    let change = begin(board, wires, moves)?;
    undo(board, wires, moves);
    Ok(change)
}

/// Moves the cells if the length then grows by less than `limit`, and no bin of the board gets fuller
/// that is too full then. `Err` if an allocation fails.
pub fn make_moves(
    board: &mut Board,
    wires: &mut Wires,
    moves: &[SiteMove],
    limit: i64,
) -> Result<(), AllocError> {
    board.list_boxes(moves, &mut wires.boxes)?;
    if !board.has_room(&wires.boxes) {
        return Ok(());
    }
    if limit <= begin(board, wires, moves)? {
        undo(board, wires, moves);
        return Ok(());
    }
    wires.keep();
    board.keep_boxes(&wires.boxes);
    for one in moves {
        if let Some(old) = board.place_of(one.cell) {
            board.mark(&old, FREE);
        }
    }
    for one in moves {
        board.put(one.cell, &one.place);
    }
    Ok(())
}
