//! Rounds of exchanges, insertions and flips over all cells.

ghost use Rattle.std.specs.Prelude.{◌<ℤ◌, pos};

use crate::annealing::anneal;
use crate::bins::Bins;
use crate::board::Board;
use crate::cells::{CellPlace, ImprovableCell};
use crate::equal_cells::exchange_equal;
use crate::exchange::exchange;
use crate::flips::flip;
use crate::insertion::insert;
use crate::nets_on_board::BoardNets;
use crate::scratch::Scratch;
use crate::wires::Wires;
use lf_repair_planner::FreeRows;
use std::alloc::{AllocError, Global};

/// The side of a tile, in rows.
const TILE: i64 = 16;

/// A round is the last one if it lowers the length by no more than one part of this number of
/// parts.
const PARTS: i64 = 200;

/// The greatest number of rounds, and the greatest distance |dx| + |dy| of a cell from where it was
/// at the beginning, in database units.
#[derive(Clone, Copy)]
pub struct ImproveOptions {
    pub rounds: u32,
    pub within: Option<u64>,
}

/// How long the search goes on after the rounds, and how dense it may make the design.
#[derive(Clone, Copy)]
pub struct ImproveSearch {
    /// The number of random moves that are tried after the rounds, for each cell. 0 for none.
    pub moves: u32,
    /// No move makes a bin fuller that is then above this number of percent. `None` for no limit.
    pub density: Option<u32>,
}

/// The sort key of a cell: by tiles, in a tile by rows, and in a row from left to right.
#[derive(Clone, Copy, PartialEq, Eq, PartialOrd, Ord)]
pub(crate) struct Key {
    tile_y: i64,
    tile_x: i64,
    y: i32,
    x: i32,
    pub(crate) cell: u32,
}

/// The key of a cell, for tiles of this side. `None` if it has no place.
fn key_of(board: &Board, cell: u32, side: i64) -> Option<Key>
    requires { pos 0 <ℤ side }
{
    let place = board.place_of(cell)?;
    let (x, y) = board.runs.point_of(place.run, place.site)?;
    Some(Key {
        tile_y: (y as i64).div_euclid(side),
        tile_x: (x as i64).div_euclid(side),
        y,
        x,
        cell,
    })
}

/// Sorts the keys of all cells that have a place.
pub(crate) fn sort_cells(board: &Board, keys: &mut Vec<Key>) -> Result<(), AllocError> {
    let side = board.runs.height() * TILE;
    keys.clear();
    for cell in 0..board.count() {
        if let Some(key) = key_of(board, cell, side) {
            keys.push(key)?;
        }
    }
    keys.sort_unstable();
    Ok(())
}

/// The lists that each round uses again.
#[derive(Drop)]
pub(crate) struct RoundLists {
    pub(crate) keys: Vec<Key>,
    pub(crate) scratch: Scratch,
}

impl RoundLists {
    /// Empty lists, which allocates nothing.
    fn new(alloc: Global) -> RoundLists {
        RoundLists {
            keys: Vec::new(alloc),
            scratch: Scratch::new(alloc),
        }
    }
}

/// Which cells are on a board.
#[derive(Clone, Copy)]
enum CellsOnBoard {
    /// Cells of one row's height, on free sites.
    Low,
    /// Cells of several rows, each on a run of its own.
    Tall,
}

/// Tries an exchange of each cell, then an insertion of each low one, and then a flip of each.
fn round(
    board: &mut Board,
    wires: &mut Wires,
    on_board: CellsOnBoard,
    lists: &mut RoundLists,
) -> Result<(), AllocError> {
    sort_cells(board, &mut lists.keys)?;
    for key in &lists.keys {
        match on_board {
            CellsOnBoard::Low => exchange(board, wires, key.cell, &mut lists.scratch)?,
            CellsOnBoard::Tall => exchange_equal(board, wires, key.cell, &mut lists.scratch)?,
        }
    }
    if matches!(on_board, CellsOnBoard::Low) {
        sort_cells(board, &mut lists.keys)?;
        for key in &lists.keys {
            insert(board, wires, key.cell, &mut lists.scratch)?;
        }
    }
    for cell in 0..board.count() {
        flip(board, wires, cell, 0)?;
    }
    Ok(())
}

/// Makes rounds until one lowers the length by little.
fn improve(
    board: &mut Board,
    wires: &mut Wires,
    on_board: CellsOnBoard,
    rounds: u32,
    lists: &mut RoundLists,
) -> Result<(), AllocError> {
    for _ in 0..rounds {
        let before = wires.length();
        round(board, wires, on_board, lists)?;
        let gain = before.saturating_sub(wires.length());
        if gain.saturating_mul(PARTS) <= before {
            break;
        }
    }
    Ok(())
}

/// The new place of each cell. `None` if a cell has the place that it had at the beginning.
fn changed_places(alloc: Global, board: &Board) -> Result<Vec<Option<CellPlace>>, AllocError> {
    let mut places = Vec::with_capacity(alloc, board.cells.len())?;
    for cell in 0..board.count() {
        places.push(board.changed_place(cell))?;
    }
    Ok(places)
}

/// Shortens the nets of cells on free sites, and returns the new place of each cell. `None` if a
/// cell keeps its place. After the rounds cells are moved at random; the result of that is taken
/// only if the nets are then shorter than after the rounds. No move makes one of the bins fuller that
/// is too full then.
///
/// Each cell stays on the sites of one span, in an orientation that is allowed there, and overlaps
/// no other one of the list. A cell that is not so at the beginning is not moved, and its sites are
/// free for others. `Err` if an allocation fails.
pub fn improved_places(
    alloc: Global,
    free_rows: &FreeRows,
    cells: &[ImprovableCell],
    nets: &BoardNets,
    options: &ImproveOptions,
    search: &ImproveSearch,
    bins: Option<Bins>,
) -> Result<Vec<Option<CellPlace>>, AllocError> {
    let mut board = Board::new(alloc, free_rows, cells, options.within, bins)?;
    let mut wires = Wires::new(alloc, nets, &board)?;
    let mut lists = RoundLists::new(alloc);
    let low = CellsOnBoard::Low;
    improve(&mut board, &mut wires, low, options.rounds, &mut lists)?;
    let places = changed_places(alloc, &board)?;
    if search.moves == 0 {
        return Ok(places);
    }
    let length = wires.length();
    anneal(&mut board, &mut wires, search.moves, &mut lists)?;
    if wires.length() < length {
        changed_places(alloc, &board)
    } else {
        Ok(places)
    }
}

/// Shortens the nets of cells of several rows by flips, and by exchanges of two cells that take the
/// same number of sites. Returns the new place of each cell. `None` if it keeps its place.
///
/// `footprints` has a span for each cell. `Err` if an allocation fails.
pub(crate) fn exchanged_places(
    alloc: Global,
    footprints: &FreeRows,
    cells: &[ImprovableCell],
    nets: &BoardNets,
    options: &ImproveOptions,
) -> Result<Vec<Option<CellPlace>>, AllocError> {
    let mut board = Board::new(alloc, footprints, cells, options.within, None)?;
    let mut wires = Wires::new(alloc, nets, &board)?;
    let mut lists = RoundLists::new(alloc);
    let tall = CellsOnBoard::Tall;
    improve(&mut board, &mut wires, tall, options.rounds, &mut lists)?;
    changed_places(alloc, &board)
}
