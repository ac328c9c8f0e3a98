//! Insertions: a cell moves between two others near the place where it costs least, and those next
//! to it make room.

use crate::board::{Board, FREE, SitePlace};
use crate::change::{SiteMove, length_change, make_moves};
use crate::limits::{clipped, count_of};
use crate::runs::SiteRun;
use crate::scratch::Scratch;
use crate::target::{Seeker, Target, seeker_of, target_in};
use crate::wires::Wires;
use std::alloc::AllocError;
use std::mem;

/// The greatest number of cells that are pushed on each side.
const MOST_PUSHED: usize = 28;

/// A gap in front of a site, and the first site of the cell: the cells from the gap on are pushed
/// to the right of the cell, and those in front of it to the left.
#[derive(Clone, Copy)]
pub(crate) struct Gap {
    pub(crate) site: u32,
    pub(crate) start: u32,
}

/// A cell of the run, pushed to a site.
fn pushed(cell: u32, place: &SitePlace, site: u32) -> SiteMove {
    SiteMove {
        cell,
        place: SitePlace { site, ..*place },
    }
}

/// Adds the moves of the cells from a gap on that are in front of `end`: each to where the one
/// before it ends. Returns false if there is no room, or a cell would move too far.
fn push_right(
    board: &Board,
    run: &SiteRun,
    gap: u32,
    end: u64,
    moves: &mut Vec<SiteMove>,
) -> Result<bool, AllocError> {
    let sites = board.sites_of(run);
    let (mut end, mut next, mut count) = (end, gap as u64, 0usize);
    for site in gap as u64..sites.len() as u64 {
        if end <= site {
            return Ok(true);
        }
        let number = sites.get(site as usize).copied().unwrap_or(FREE);
        if site < next || number == FREE {
            continue;
        }
        let Some(place) = board.place_of(number) else {
            return Ok(false);
        };
        let start = clipped(end);
        if (place.site as u64) < site
            || count == MOST_PUSHED
            || !board.is_near(number, run, start)
        {
            return Ok(false);
        }
        moves.push(pushed(number, &place, start))?;
        count = count.saturating_add(1);
        next = place.end();
        end = end.saturating_add(place.count as u64);
    }
    Ok(end <= sites.len() as u64)
}

/// Adds the moves of the cells in front of a gap that end after `start`: each to end where the one
/// after it begins. Returns false if there is no room, or a cell would move too far.
fn push_left(
    board: &Board,
    run: &SiteRun,
    gap: u32,
    start: u32,
    moves: &mut Vec<SiteMove>,
) -> Result<bool, AllocError> {
    let sites = board.sites_of(run);
    let (mut start, mut next, mut count) = (start, gap, 0usize);
    for back in 0..gap {
        let site = gap - 1 - back;
        if site < start {
            return Ok(true);
        }
        let number = sites.get(site as usize).copied().unwrap_or(FREE);
        if next <= site || number == FREE {
            continue;
        }
        let Some(place) = board.place_of(number) else {
            return Ok(false);
        };
        let Some(moved) = start.checked_sub(place.count) else {
            return Ok(false);
        };
        if count == MOST_PUSHED || !board.is_near(number, run, moved) {
            return Ok(false);
        }
        moves.push(pushed(number, &place, moved))?;
        count = count.saturating_add(1);
        next = place.site;
        start = moved;
    }
    Ok(true)
}

/// Lists the moves of a cell that is not on the board's sites into a gap, and of the cells that make
/// room. Returns false if there is no room, or a cell would move too far.
pub(crate) fn gap_moves(
    board: &Board,
    cell: u32,
    target: &Target,
    gap: &Gap,
    moves: &mut Vec<SiteMove>,
) -> Result<bool, AllocError> {
    moves.clear();
    let end = gap.start as u64 + target.count as u64;
    if (target.run.count as u64) < end || !board.is_near(cell, &target.run, gap.start) {
        return Ok(false);
    }
    moves.push(target.move_to(cell, gap.start))?;
    if !push_right(board, &target.run, gap.site, end, moves)? {
        return Ok(false);
    }
    push_left(board, &target.run, gap.site, gap.start, moves)
}

/// Tries the cell in a gap.
fn try_gap(
    board: &Board,
    wires: &mut Wires,
    seeker: &Seeker,
    target: &Target,
    gap: &Gap,
    scratch: &mut Scratch,
) -> Result<(), AllocError> {
    let corner = target.corner(gap.start);
    let cost = scratch.nets.cost(&corner, target.orientation);
    if scratch.best_change <= cost.saturating_sub(seeker.cost)
        || !gap_moves(board, seeker.cell, target, gap, &mut scratch.moves)?
    {
        return Ok(());
    }
    let change = length_change(board, wires, scratch.moves.as_slice())?;
    if change < scratch.best_change {
        scratch.best_change = change;
        mem::swap(&mut scratch.moves, &mut scratch.best);
    }
    Ok(())
}

/// The gaps at a site for a cell of `count` sites: the cell begins there, ends there, or is between
/// the two nearest to the wanted site if that is a third place.
fn gaps_at(site: u32, count: u32, wanted: u32) -> [Option<Gap>; 3] {
    let before = site.checked_sub(count);
    let start = wanted.max(site.saturating_sub(count)).min(site);
    let between = if start == site || Some(start) == before {
        None
    } else {
        Some(Gap { site, start })
    };
    [
        Some(Gap { site, start: site }),
        before.map(|start| Gap { site, start }),
        between,
    ]
}

/// Tries the cell in several gaps.
fn try_gaps(
    board: &Board,
    wires: &mut Wires,
    seeker: &Seeker,
    target: &Target,
    gaps: &[Option<Gap>; 3],
    scratch: &mut Scratch,
) -> Result<(), AllocError> {
    for gap in gaps {
        if let Some(gap) = gap {
            try_gap(board, wires, seeker, target, gap, scratch)?;
        }
    }
    Ok(())
}

/// Tries the cell at the wanted site of a run, or at the run's end nearest to it.
fn try_target(
    board: &Board,
    wires: &mut Wires,
    seeker: &Seeker,
    target: &Target,
    scratch: &mut Scratch,
) -> Result<(), AllocError> {
    let wanted = count_of(target.site).min(target.run.count.saturating_sub(1));
    let Some(number) = board.sites_of(&target.run).get(wanted as usize) else {
        return Ok(());
    };
    if let Some(neighbor) = board.place_of(*number) {
        for site in [neighbor.site, clipped(neighbor.end())] {
            let gaps = gaps_at(site, target.count, wanted);
            try_gaps(board, wires, seeker, target, &gaps, scratch)?;
        }
        return Ok(());
    }
    let Some(last) = target.run.count.checked_sub(target.count) else {
        return Ok(());
    };
    let site = wanted.min(last);
    let gap = Gap { site, start: site };
    try_gap(board, wires, seeker, target, &gap, scratch)
}

/// Looks for the best insertion of a cell that is not on the board's sites.
fn find(
    board: &Board,
    wires: &mut Wires,
    seeker: &Seeker,
    scratch: &mut Scratch,
) -> Result<(), AllocError> {
    scratch.best.clear();
    scratch.best_change = 0;
    let middle = board.runs.level_near(seeker.wanted.y);
    for step in 0..5u32 {
        let Some(level) = board.runs.level_by(middle, step) else {
            continue;
        };
        let Some(number) = board.runs.run_near(&level, seeker.wanted.x) else {
            continue;
        };
        let limit = scratch.best_change;
        if let Some(target) = target_in(board, seeker, &scratch.nets, number, limit) {
            try_target(board, wires, seeker, &target, scratch)?;
        }
    }
    Ok(())
}

/// Inserts a cell between two others if that lowers the length.
pub(crate) fn insert(
    board: &mut Board,
    wires: &mut Wires,
    cell: u32,
    scratch: &mut Scratch,
) -> Result<(), AllocError> {
    let Some(seeker) = seeker_of(board, wires, cell, &mut scratch.nets)? else {
        return Ok(());
    };
    board.mark(&seeker.place, FREE);
    let found = find(board, wires, &seeker, scratch);
    board.mark(&seeker.place, cell);
    found?;
    if scratch.best.is_empty() {
        return Ok(());
    }
    make_moves(board, wires, scratch.best.as_slice(), 0)
}
