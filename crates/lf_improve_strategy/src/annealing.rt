//! Annealing: random moves of cells. A move that makes the nets longer is made too, by chance: the
//! longer, the less often, and less and less often from stage to stage. So the search leaves
//! arrangements that no single move makes better.

use crate::board::{Board, FREE, SitePlace};
use crate::change::{SiteMove, make_moves};
use crate::draws::Draws;
use crate::exchange::room_around;
use crate::flips::flip;
use crate::insertion::{Gap, gap_moves};
use crate::limits::{clipped, count_of};
use crate::nets_on_board::BoardPoint;
use crate::rounds::{RoundLists, sort_cells};
use crate::scratch::Scratch;
use crate::target::{Target, target_at};
use crate::wanted::CellNets;
use crate::wires::Wires;
use std::alloc::AllocError;

/// The greatest number of stages. At each one the cells are visited tile by tile.
const STAGES: u32 = 100;

/// From this percentage of the way on, no move may make the nets longer.
const LAST: u32 = 91;

/// The number of moves of a cell from which on a search goes the whole way. For each halving of it
/// the search begins later by this percentage of the way: fewer moves need a lower temperature.
const WHOLE_WAY: u32 = 1000;

const SKIPPED: u32 = 6;

/// The part of the moves that are flips, and of the others that are exchanges if they meet a cell,
/// in percent.
const FLIPS: u32 = 4;

const EXCHANGES: u32 = 32;

/// The part of the moves that go near the rectangle in which the cell costs least, in percent. The
/// others go near the cell's place.
const WANTED: u32 = 70;

/// How far moves near the rectangle and near the place go. Near the rectangle the wires decide, so
/// these moves go less far along the rows.
const WANTED_REACH: Reach = Reach {
    rows: 2,
    heights: 1,
};

const OWN_REACH: Reach = Reach {
    rows: 3,
    heights: 3,
};

/// How far a move goes at most: in rows up and down, and to the left and right in heights of a row.
#[derive(Clone, Copy)]
struct Reach {
    rows: u32,
    heights: u32,
}

/// The number of moves of a cell at a stage: of `moves` moves at `stages` stages.
fn moves_at(moves: u32, stage: u32, stages: u32) -> u32 {
    let (stage, stages) = (stage as u64, stages.max(1) as u64);
    let before = (moves as u64).saturating_mul(stage) / stages;
    let after = (moves as u64).saturating_mul(stage.saturating_add(1)) / stages;
    clipped(after.saturating_sub(before))
}

/// The percentage of the way at which a search of this number of moves of a cell begins.
fn first_percent(moves: u32) -> u32 {
    let (mut percent, mut doubled) = (0u32, moves);
    for _ in 0..10 {
        doubled = doubled.saturating_mul(2);
        if doubled <= WHOLE_WAY {
            percent = percent.saturating_add(SKIPPED);
        }
    }
    percent
}

/// The growth of the length at which the chance of a move is halved, at this percentage of the way,
/// in half database units. It is a fifth of a row's height at the beginning, and falls by 3 % at each
/// percent.
fn step_at(height: i64, percent: u32) -> u32 {
    if LAST <= percent {
        return 0;
    }
    let mut step = height.saturating_mul(1024) / 5;
    for _ in 0..percent {
        step = step.saturating_mul(97) / 100;
    }
    count_of(step.saturating_mul(2) / 1024)
}

/// A stage: the height of a row in database units, and the growth of the length at which the chance
/// of a move is halved.
#[derive(Clone, Copy)]
struct Stage {
    height: u32,
    step: u32,
}

impl Stage {
    /// The limit of the next move: it is made if the length grows by less.
    fn limit(&self, draws: &mut Draws) -> i64 {
        if self.step == 0 {
            0
        } else {
            draws.exponential(self.step).saturating_add(1)
        }
    }
}

/// A corner in or near the rectangle in which the cell costs least: by turns any one of it, and the
/// one nearest to the cell's place. `None` if the cell has no nets.
fn wanted_corner(
    wires: &Wires,
    draws: &mut Draws,
    cell: u32,
    place: &SitePlace,
    corner: &BoardPoint,
    nets: &mut CellNets,
) -> Result<Option<BoardPoint>, AllocError> {
    nets.gather(wires, cell)?;
    let Some(along) = nets.wanted_x(place.orientation)? else {
        return Ok(None);
    };
    let Some(across) = nets.wanted_y(place.orientation)? else {
        return Ok(None);
    };
    if draws.happens(50) {
        return Ok(Some(BoardPoint {
            x: along.nearest(corner.x),
            y: across.nearest(corner.y),
        }));
    }
    Ok(Some(BoardPoint {
        x: along.at_part(draws.byte()),
        y: across.at_part(draws.byte()),
    }))
}

/// A run and a site near a corner, at random. `None` if there is no run, or the cell may not be
/// placed there.
fn target_near(
    board: &Board,
    draws: &mut Draws,
    stage: &Stage,
    (cell, place): (u32, &SitePlace),
    (corner, reach): (&BoardPoint, Reach),
) -> Option<Target> {
    let step = draws.below(reach.rows.saturating_mul(2).saturating_add(1));
    let level = board.runs.level_by(board.runs.level_near(corner.y), step)?;
    let along = stage.height.saturating_mul(reach.heights).saturating_mul(2);
    let x = draws
        .around(corner.x as i64, along)
        .clamp(-2_147_483_648, 2_147_483_647) as i32;
    let number = board.runs.run_near(&level, x)?;
    target_at(board, cell, place, number, x)
}

/// A run and a site for a cell, at random.
fn random_target(
    board: &Board,
    wires: &Wires,
    draws: &mut Draws,
    stage: &Stage,
    (cell, place): (u32, &SitePlace),
    nets: &mut CellNets,
) -> Result<Option<Target>, AllocError> {
    let Some(corner) = board.point_of(place) else {
        return Ok(None);
    };
    if draws.happens(WANTED) {
        if let Some(wanted) = wanted_corner(wires, draws, cell, place, &corner, nets)? {
            let near = (&wanted, WANTED_REACH);
            return Ok(target_near(board, draws, stage, (cell, place), near));
        }
    }
    let near = (&corner, OWN_REACH);
    Ok(target_near(board, draws, stage, (cell, place), near))
}

/// Lists the moves of an exchange with the cell at the target: each goes to the sites of the other
/// one and the free ones on both sides of it. Returns false if one does not fit there, or is too far.
fn exchange_moves(
    board: &Board,
    (cell, place): (u32, &SitePlace),
    target: &Target,
    (other, other_place): (u32, &SitePlace),
    moves: &mut Vec<SiteMove>,
) -> Result<bool, AllocError> {
    moves.clear();
    let (Some(run), Some(given)) = (board.runs.get(place.run), board.cells.get(other as usize))
    else {
        return Ok(false);
    };
    let own_room = room_around(board.sites_of(run), place);
    let other_room = room_around(board.sites_of(&target.run), other_place);
    if target.number == place.run && other_room.touches(&own_room) {
        return Ok(false);
    }
    let Some(orientation) = given.orientation_in(other_place.orientation, run.kind) else {
        return Ok(false);
    };
    let count = board.sites_in(other, other_place, run);
    let (Some(to), Some(from)) = (
        other_room.nearest(target.site, target.count),
        own_room.nearest(place.site as i64, count),
    ) else {
        return Ok(false);
    };
    if !board.is_near(cell, &target.run, to) || !board.is_near(other, run, from) {
        return Ok(false);
    }
    moves.push(target.move_to(cell, to))?;
    moves.push(SiteMove {
        cell: other,
        place: SitePlace {
            run: place.run,
            site: from,
            count,
            orientation,
        },
    })?;
    Ok(true)
}

/// A gap at the target, at random: in front of the cell there or after it, or around the free site.
fn random_gap(draws: &mut Draws, target: &Target, wanted: u32, at: Option<&SitePlace>) -> Gap {
    let back = draws.below(target.count.saturating_add(1));
    let Some(neighbor) = at else {
        return Gap {
            site: wanted,
            start: wanted.saturating_sub(back),
        };
    };
    let site = if draws.happens(50) {
        clipped(neighbor.end())
    } else {
        neighbor.site
    };
    let start = match draws.below(3) {
        0 => site,
        1 => site.saturating_sub(target.count),
        _ => site.saturating_sub(back),
    };
    Gap { site, start }
}

/// Inserts a cell at the target if the length then grows by less than `limit`.
fn insert_at(
    board: &mut Board,
    wires: &mut Wires,
    (cell, place): (u32, &SitePlace),
    (target, gap): (&Target, &Gap),
    limit: i64,
    moves: &mut Vec<SiteMove>,
) -> Result<(), AllocError> {
    board.mark(place, FREE);
    let fits = gap_moves(board, cell, target, gap, moves);
    board.mark(place, cell);
    if fits? {
        make_moves(board, wires, moves.as_slice(), limit)
    } else {
        Ok(())
    }
}

/// Tries a random move of a cell.
fn try_cell(
    board: &mut Board,
    wires: &mut Wires,
    draws: &mut Draws,
    stage: &Stage,
    cell: u32,
    scratch: &mut Scratch,
) -> Result<(), AllocError> {
    let limit = stage.limit(draws);
    if draws.happens(FLIPS) {
        return flip(board, wires, cell, limit);
    }
    let Some(place) = board.place_of(cell) else {
        return Ok(());
    };
    let nets = &mut scratch.nets;
    let Some(target) = random_target(board, wires, draws, stage, (cell, &place), nets)? else {
        return Ok(());
    };
    let wanted = count_of(target.site).min(target.run.count.saturating_sub(1));
    let sites = board.sites_of(&target.run);
    let number = sites.get(wanted as usize).copied().unwrap_or(FREE);
    let other = if number == cell {
        None
    } else {
        board.place_of(number)
    };
    let moves = &mut scratch.moves;
    if let Some(other_place) = &other {
        if draws.happens(EXCHANGES)
            && exchange_moves(board, (cell, &place), &target, (number, other_place), moves)?
        {
            return make_moves(board, wires, moves.as_slice(), limit);
        }
    }
    let gap = random_gap(draws, &target, wanted, other.as_ref());
    insert_at(board, wires, (cell, &place), (&target, &gap), limit, moves)
}

/// Tries `moves` random moves of each cell, stage by stage.
pub(crate) fn anneal(
    board: &mut Board,
    wires: &mut Wires,
    moves: u32,
    lists: &mut RoundLists,
) -> Result<(), AllocError> {
    let mut draws = Draws::new();
    let height = board.runs.height();
    let stages = moves.min(STAGES);
    let first = first_percent(moves);
    let left = 100u64.saturating_sub(first as u64);
    for number in 0..stages {
        let part = (number as u64).saturating_mul(left) / stages.max(1) as u64;
        let percent = clipped(part.saturating_add(first as u64));
        let stage = Stage {
            height: count_of(height),
            step: step_at(height, percent),
        };
        let tries = moves_at(moves, number, stages);
        sort_cells(board, &mut lists.keys)?;
        for key in &lists.keys {
            for _ in 0..tries {
                try_cell(
                    board,
                    wires,
                    &mut draws,
                    &stage,
                    key.cell,
                    &mut lists.scratch,
                )?;
            }
        }
    }
    Ok(())
}
