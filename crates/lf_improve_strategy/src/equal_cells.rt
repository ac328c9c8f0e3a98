//! Exchanges of cells that take the same number of sites, each of which has a run of its own.

use crate::board::Board;
use crate::change::{SiteMove, make_moves};
use crate::runs::Level;
use crate::scratch::Scratch;
use crate::target::{Seeker, seeker_of, target_at};
use crate::wanted::CellNets;
use crate::wires::Wires;
use std::alloc::AllocError;

/// The number of levels in which a cell is looked for.
const LEVELS: u32 = 13;

/// The number of runs on each side of the wanted x that are looked at in a level.
const NEAR: usize = 6;

/// The best exchange so far, and by how much it lowers the length if each cell is moved alone.
#[derive(Clone, Copy)]
struct BestExchange {
    change: i64,
    moves: Option<(SiteMove, SiteMove)>,
}

/// The move of a cell to the run with this number, all sites of which it takes there. `None` if it
/// takes another number of sites, may not be placed there, or is then too far from where it was.
fn move_to_run(board: &Board, cell: u32, number: u32) -> Option<SiteMove> {
    let now = board.place_of(cell)?;
    let target = target_at(board, cell, &now, number, 0)?;
    if target.count != target.run.count || !board.is_near(cell, &target.run, 0) {
        return None;
    }
    Some(target.move_to(cell, 0))
}

/// By how much the nets of a cell grow if it moves alone.
fn growth(board: &Board, nets: &CellNets, one: &SiteMove) -> Option<i64> {
    let now = board.place_of(one.cell)?;
    let (from, to) = (board.point_of(&now)?, board.point_of(&one.place)?);
    let after = nets.cost(&to, one.place.orientation);
    Some(after.saturating_sub(nets.cost(&from, now.orientation)))
}

/// Tries an exchange with the cell in the run with this number.
fn try_run(
    board: &Board,
    wires: &Wires,
    seeker: &Seeker,
    number: u32,
    scratch: &mut Scratch,
    best: &mut BestExchange,
) -> Result<(), AllocError> {
    let Some(run) = board.runs.get(number) else {
        return Ok(());
    };
    let Some(other) = board.sites_of(run).first().copied() else {
        return Ok(());
    };
    let Some(own_move) = move_to_run(board, seeker.cell, number) else {
        return Ok(());
    };
    let Some(other_move) = move_to_run(board, other, seeker.place.run) else {
        return Ok(());
    };
    let Some(own) = growth(board, &scratch.nets, &own_move) else {
        return Ok(());
    };
    if best.change <= own || other == seeker.cell {
        return Ok(());
    }
    scratch.other.gather(wires, other)?;
    if let Some(others) = growth(board, &scratch.other, &other_move) {
        let change = own.saturating_add(others);
        if change < best.change {
            *best = BestExchange {
                change,
                moves: Some((own_move, other_move)),
            };
        }
    }
    Ok(())
}

/// Tries the runs of a level that are nearest to the wanted x.
fn try_level(
    board: &Board,
    wires: &Wires,
    seeker: &Seeker,
    level: &Level,
    scratch: &mut Scratch,
    best: &mut BestExchange,
) -> Result<(), AllocError> {
    let runs = board.runs.of_level(level);
    let middle = runs.partition_point(|run| run.doubled_x(0) < seeker.wanted.x);
    let last = middle.saturating_add(NEAR).min(runs.len());
    for position in middle.saturating_sub(NEAR)..last {
        try_run(board, wires, seeker, level.run_at(position), scratch, best)?;
    }
    Ok(())
}

/// Exchanges a cell with one that takes as many sites, if that lowers the length.
pub(crate) fn exchange_equal(
    board: &mut Board,
    wires: &mut Wires,
    cell: u32,
    scratch: &mut Scratch,
) -> Result<(), AllocError> {
    let Some(seeker) = seeker_of(board, wires, cell, &mut scratch.nets)? else {
        return Ok(());
    };
    let mut best = BestExchange {
        change: 0,
        moves: None,
    };
    let middle = board.runs.level_near(seeker.wanted.y);
    for step in 0..LEVELS {
        if let Some(level) = board.runs.level_by(middle, step) {
            try_level(board, wires, &seeker, &level, scratch, &mut best)?;
        }
    }
    match best.moves {
        Some((one, other)) => make_moves(board, wires, &[one, other], 0),
        None => Ok(()),
    }
}
