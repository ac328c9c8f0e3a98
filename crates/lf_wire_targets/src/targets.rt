//! The targets of all teams.

use crate::sides::{Side, sides_of_nets};
use lf_cells::CellTable;
use lf_floorplan::Place;
use lf_units::Point;
use lf_wire_length::Netlist;
use std::alloc::{AllocError, Global};

/// The half database units in the sum of two numbers, for each database unit of their middle.
const HALVES_OF_SUM: i64 = 4;

/// For each team the targets of its cells.
#[derive(Drop)]
pub struct TeamTargets {
    /// By the team's number, and then in loading order.
    teams: Vec<Vec<Option<Point>>>,
}

/// Returns the middle between the two middle ones of the cell's sides, in database units, rounded down.
/// `None` if it has no side. The sides are in order.
fn middle_of(sides: &[Side], cell: u32) -> Option<i64> {
    let first = sides.partition_point(|side| side.cell < cell);
    let last = sides.partition_point(|side| side.cell <= cell);
    let own = sides.get(first..last)?;
    let low = own.get(own.len().saturating_sub(1) / 2)?;
    let high = own.get(own.len() / 2)?;
    Some(low.at.saturating_add(high.at).div_euclid(HALVES_OF_SUM))
}

/// Returns the target of the cell of this number. `None` if it has no side.
fn target_of(across: &[Side], up: &[Side], cell: u32) -> Option<Point> {
    Some(Point {
        x: middle_of(across, cell)?,
        y: middle_of(up, cell)?,
    })
}

/// Returns the working places of all cells, in loading order.
fn working_places(alloc: Global, cells: &CellTable) -> Result<Vec<Option<Place>>, AllocError> {
    let ids = cells.cell_ids();
    let mut places = Vec::with_capacity(alloc, ids.len())?;
    for id in ids {
        places.push(cells.working(*id))?;
    }
    Ok(places)
}

impl TeamTargets {
    /// Returns no targets. Allocates nothing.
    pub fn none(alloc: Global) -> TeamTargets {
        TeamTargets {
            teams: Vec::new(alloc),
        }
    }

    /// Returns for each cell without a working place the target near its nets. A cell with a place has
    /// none. `Err` if an allocation fails.
    pub fn near_nets(
        alloc: Global,
        netlist: &Netlist,
        cells: &CellTable,
    ) -> Result<TeamTargets, AllocError> {
        let places = working_places(alloc, cells)?;
        let sides = sides_of_nets(alloc, netlist, &places)?;
        let mut targets = TeamTargets::none(alloc);
        for (cell, id) in cells.cell_ids().iter().enumerate() {
            let target = target_of(&sides.across, &sides.up, cell.min(4_294_967_295) as u32);
            targets.add(alloc, id.team as usize, target)?;
        }
        Ok(targets)
    }

    /// Appends the target of the team's next cell in loading order.
    fn add(&mut self, alloc: Global, team: usize, target: Option<Point>) -> Result<(), AllocError> {
        for _ in self.teams.len()..team.saturating_add(1) {
            self.teams.push(Vec::new(alloc))?;
        }
        if let Some(list) = self.teams.get_mut(team) {
            list.push(target)?;
        }
        Ok(())
    }

    /// Returns the targets of the team with this number, in loading order: `None` for a cell without one.
    /// It may be shorter than the team.
    pub fn of_team(&self, number: usize) -> &[Option<Point>] {
        match self.teams.get(number) {
            Some(list) => list.as_slice(),
            None => &[],
        }
    }
}
