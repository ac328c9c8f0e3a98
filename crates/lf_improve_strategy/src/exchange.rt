//! Exchanges: a cell moves to free sites near the place where it costs least, or exchanges places
//! with a cell there.

use crate::board::{Board, FREE, SitePlace, free_after, free_before};
use crate::change::{SiteMove, make_moves};
use crate::limits::{clipped, count_of};
use crate::runs::{Level, SiteRun};
use crate::scratch::Scratch;
use crate::target::{Seeker, Target, seeker_of, target_in};
use crate::wanted::CellNets;
use crate::wires::Wires;
use std::alloc::AllocError;

/// The greatest distance of a place from the wanted one along the row, in sites.
const REACH: i64 = 12;

/// The number of free sites on each side of a cell that are looked at.
const ROOM: usize = 128;

/// Sites of a run, from `first` on and in front of `end`.
#[derive(Clone, Copy)]
pub(crate) struct Room {
    first: i64,
    end: i64,
}

impl Room {
    /// The first site of `count` sites within the room, nearest to a site. `None` if they do not
    /// fit.
    pub(crate) fn nearest(&self, site: i64, count: u32) -> Option<u32> {
        let last = self.end.saturating_sub(count as i64);
        if last < self.first {
            return None;
        }
        Some(count_of(site.min(last).max(self.first)))
    }

    /// Whether two rooms of one run overlap or touch.
    pub(crate) fn touches(&self, other: &Room) -> bool {
        self.first <= other.end && other.first <= self.end
    }
}

/// The sites of a place and the free ones on both sides of it.
pub(crate) fn room_around(sites: &[u32], place: &SitePlace) -> Room {
    let end = place.end() as usize;
    let before = free_before(sites, place.site as usize, ROOM);
    let after = free_after(sites, end, ROOM);
    Room {
        first: (place.site as i64).saturating_sub(before.min(ROOM) as i64),
        end: (place.end().min(1 << 33) as i64).saturating_add(after.min(ROOM) as i64),
    }
}

/// The best moves so far, of one cell or two, and by how much they lower the length if each cell is
/// moved alone.
#[derive(Clone, Copy)]
struct BestMoves {
    change: i64,
    own: Option<SiteMove>,
    other: Option<SiteMove>,
}

/// The state of a search that does not change: the cell, its nets, and the room at its place.
#[derive(Clone, Copy)]
struct ExchangeSearch<'a> {
    board: &'a Board<'a>,
    wires: &'a Wires<'a>,
    nets: &'a CellNets,
    seeker: &'a Seeker,
    run: &'a SiteRun,
    room: Room,
}

/// The sites of a run of `count` sites that are within reach of the wanted one.
fn window(target: &Target) -> (u32, u32) {
    let low = target.site.saturating_sub(REACH);
    let high = target
        .site
        .saturating_add(REACH)
        .saturating_add(target.count as i64);
    let all = target.run.count;
    (count_of(low).min(all), count_of(high).min(all))
}

impl ExchangeSearch<'_> {
    /// The site for the cell in a room, nearest to the wanted one, and by how much the length grows
    /// there. `None` if it is no less than `limit`, or the site is too far.
    fn try_room(&self, target: &Target, room: &Room, limit: i64) -> Option<(u32, i64)> {
        let site = room.nearest(target.site, target.count)?;
        if !self.board.is_near(self.seeker.cell, &target.run, site) {
            return None;
        }
        let cost = self.nets.cost(&target.corner(site), target.orientation);
        let change = cost.saturating_sub(self.seeker.cost);
        if change < limit {
            Some((site, change))
        } else {
            None
        }
    }

    /// Tries the free sites around a site, and returns the first one after them.
    fn try_free(&self, target: &Target, sites: &[u32], site: u32, best: &mut BestMoves) -> u32 {
        let empty = SitePlace {
            run: target.number,
            site,
            count: 0,
            orientation: target.orientation,
        };
        let room = room_around(sites, &empty);
        if let Some((site, change)) = self.try_room(target, &room, best.change) {
            *best = BestMoves {
                change,
                own: Some(target.move_to(self.seeker.cell, site)),
                other: None,
            };
        }
        count_of(room.end)
    }

    /// The move of another cell into the room at this cell's place.
    fn other_move(
        &self,
        cell: u32,
        place: &SitePlace,
        nets: &mut CellNets,
    ) -> Result<Option<SiteMove>, AllocError> {
        let (Some(given), Some(corner)) = (
            self.board.cells.get(cell as usize),
            self.board.point_of(place),
        ) else {
            return Ok(None);
        };
        let Some(orientation) = given.orientation_in(place.orientation, self.run.kind) else {
            return Ok(None);
        };
        nets.gather(self.wires, cell)?;
        let wanted = match nets.wanted_x(orientation)? {
            Some(range) => range.nearest(self.seeker.corner.x),
            None => corner.x,
        };
        let count = self.board.sites_in(cell, place, self.run);
        let Some(site) = self.room.nearest(self.run.site_near(wanted), count) else {
            return Ok(None);
        };
        if !self.board.is_near(cell, self.run, site) {
            return Ok(None);
        }
        let place = SitePlace {
            run: self.seeker.place.run,
            site,
            count,
            orientation,
        };
        Ok(Some(SiteMove { cell, place }))
    }

    /// By how much the length grows if another cell moves alone.
    fn other_change(&self, old: &SitePlace, one: &SiteMove, nets: &CellNets) -> i64 {
        match (self.board.point_of(old), self.board.point_of(&one.place)) {
            (Some(from), Some(to)) => {
                let after = nets.cost(&to, one.place.orientation);
                after.saturating_sub(nets.cost(&from, old.orientation))
            }
            _ => i64::MAX,
        }
    }

    /// Tries an exchange with the cell at a place, in a room.
    fn try_other(
        &self,
        target: &Target,
        room: &Room,
        (cell, place): (u32, &SitePlace),
        nets: &mut CellNets,
        best: &mut BestMoves,
    ) -> Result<(), AllocError> {
        if target.number == self.seeker.place.run && room.touches(&self.room) {
            return Ok(());
        }
        let Some((site, own)) = self.try_room(target, room, best.change) else {
            return Ok(());
        };
        let Some(other) = self.other_move(cell, place, nets)? else {
            return Ok(());
        };
        let change = own.saturating_add(self.other_change(place, &other, nets));
        if change < best.change {
            *best = BestMoves {
                change,
                own: Some(target.move_to(self.seeker.cell, site)),
                other: Some(other),
            };
        }
        Ok(())
    }

    /// Tries a run.
    fn try_run(
        &self,
        target: &Target,
        nets: &mut CellNets,
        best: &mut BestMoves,
    ) -> Result<(), AllocError> {
        let sites = self.board.sites_of(&target.run);
        let (low, high) = window(target);
        let mut next = low;
        for site in low..high {
            if site < next {
                continue;
            }
            let number = sites.get(site as usize).copied().unwrap_or(FREE);
            if number == FREE {
                next = self.try_free(target, sites, site, best);
                continue;
            }
            let Some(place) = self.board.place_of(number) else {
                continue;
            };
            next = clipped(place.end());
            if number != self.seeker.cell {
                let room = room_around(sites, &place);
                self.try_other(target, &room, (number, &place), nets, best)?;
            }
        }
        Ok(())
    }

    /// Tries the runs of a level that are near the wanted site.
    fn try_level(
        &self,
        level: &Level,
        nets: &mut CellNets,
        best: &mut BestMoves,
    ) -> Result<(), AllocError> {
        let runs = self.board.runs.of_level(level);
        let first = runs.partition_point(|run| run.last_near(REACH) < self.seeker.wanted.x);
        for position in first..runs.len() {
            let number = level.run_at(position);
            let Some(target) = target_in(self.board, self.seeker, self.nets, number, best.change)
            else {
                continue;
            };
            let reach = REACH.saturating_add(target.count as i64);
            if target.site.saturating_add(reach) < 0 {
                return Ok(());
            }
            self.try_run(&target, nets, best)?;
        }
        Ok(())
    }
}

/// The best moves of a cell: to free sites, or an exchange with another cell.
fn best_moves(
    board: &Board,
    wires: &Wires,
    seeker: &Seeker,
    scratch: &mut Scratch,
) -> Result<BestMoves, AllocError> {
    let mut best = BestMoves {
        change: 0,
        own: None,
        other: None,
    };
    let Some(run) = board.runs.get(seeker.place.run) else {
        return Ok(best);
    };
    let search = ExchangeSearch {
        board,
        wires,
        nets: &scratch.nets,
        seeker,
        run,
        room: room_around(board.sites_of(run), &seeker.place),
    };
    let middle = board.runs.level_near(seeker.wanted.y);
    for step in 0..5u32 {
        if let Some(level) = board.runs.level_by(middle, step) {
            search.try_level(&level, &mut scratch.other, &mut best)?;
        }
    }
    Ok(best)
}

/// Moves a cell to free sites, or exchanges it with another cell, if that lowers the length.
pub(crate) fn exchange(
    board: &mut Board,
    wires: &mut Wires,
    cell: u32,
    scratch: &mut Scratch,
) -> Result<(), AllocError> {
    let Some(seeker) = seeker_of(board, wires, cell, &mut scratch.nets)? else {
        return Ok(());
    };
    let best = best_moves(board, wires, &seeker, scratch)?;
    scratch.moves.clear();
    for one in [best.own, best.other] {
        if let Some(one) = one {
            scratch.moves.push(one)?;
        }
    }
    if scratch.moves.is_empty() {
        return Ok(());
    }
    make_moves(board, wires, scratch.moves.as_slice(), 0)
}
