//! A cell for which a better place is looked for, and the runs in which it is tried.

use crate::board::{Board, SitePlace};
use crate::change::SiteMove;
use crate::nets_on_board::BoardPoint;
use crate::runs::SiteRun;
use crate::wanted::CellNets;
use crate::wires::Wires;
use lf_repair_planner::RowKind;
use std::alloc::AllocError;

/// A cell that is not in the rectangle in which it costs least: its place and corner, its cost
/// there, and the nearest corner in that rectangle. Corners are in half database units.
#[derive(Clone, Copy)]
pub(crate) struct Seeker {
    pub(crate) cell: u32,
    pub(crate) place: SitePlace,
    pub(crate) corner: BoardPoint,
    pub(crate) cost: i64,
    pub(crate) wanted: BoardPoint,
}

/// The cell if it is not in the rectangle in which it costs least. `nets` takes its nets.
pub(crate) fn seeker_of(
    board: &Board,
    wires: &Wires,
    cell: u32,
    nets: &mut CellNets,
) -> Result<Option<Seeker>, AllocError> {
    let Some(place) = board.place_of(cell) else {
        return Ok(None);
    };
    let Some(corner) = board.point_of(&place) else {
        return Ok(None);
    };
    nets.gather(wires, cell)?;
    let Some(along) = nets.wanted_x(place.orientation)? else {
        return Ok(None);
    };
    let Some(across) = nets.wanted_y(place.orientation)? else {
        return Ok(None);
    };
    let wanted = BoardPoint {
        x: along.nearest(corner.x),
        y: across.nearest(corner.y),
    };
    if wanted.x == corner.x && wanted.y == corner.y {
        return Ok(None);
    }
    let cost = nets.cost(&corner, place.orientation);
    Ok(Some(Seeker {
        cell,
        place,
        corner,
        cost,
        wanted,
    }))
}

/// A run in which a cell is tried, its number, the cell's count of sites and orientation there, and
/// the wanted site, which may be outside of the run.
#[derive(Clone, Copy)]
pub(crate) struct Target {
    pub(crate) run: SiteRun,
    pub(crate) number: u32,
    pub(crate) count: u32,
    pub(crate) orientation: RowKind,
    pub(crate) site: i64,
}

impl Target {
    /// The corner of a cell at a site.
    pub(crate) fn corner(&self, site: u32) -> BoardPoint {
        BoardPoint {
            x: self.run.doubled_x(site),
            y: self.run.doubled_y(),
        }
    }

    /// The move of the cell to a site.
    pub(crate) fn move_to(&self, cell: u32, site: u32) -> SiteMove {
        SiteMove {
            cell,
            place: SitePlace {
                run: self.number,
                site,
                count: self.count,
                orientation: self.orientation,
            },
        }
    }
}

/// The run with this number and a cell of this place in it, which is wanted at an x in half database
/// units. `None` if the cell may not be placed there.
pub(crate) fn target_at(
    board: &Board,
    cell: u32,
    place: &SitePlace,
    number: u32,
    x: i32,
) -> Option<Target> {
    let run = *board.runs.get(number)?;
    let given = board.cells.get(cell as usize)?;
    Some(Target {
        run,
        number,
        count: board.sites_in(cell, place, &run),
        orientation: given.orientation_in(place.orientation, run.kind)?,
        site: run.site_near(x),
    })
}

/// The run with this number and the cell in it. `None` if the cell may not be placed there, or if
/// its nets grow by no less than `limit` even at the wanted x.
pub(crate) fn target_in(
    board: &Board,
    seeker: &Seeker,
    nets: &CellNets,
    number: u32,
    limit: i64,
) -> Option<Target> {
    let target = target_at(board, seeker.cell, &seeker.place, number, seeker.wanted.x)?;
    let corner = BoardPoint {
        x: seeker.wanted.x,
        y: target.run.doubled_y(),
    };
    let least = nets.cost(&corner, target.orientation);
    if limit <= least.saturating_sub(seeker.cost) {
        return None;
    }
    Some(target)
}
