//! A board: which cell is on each site, and the place of each cell.

use crate::bins::{BinBox, Bins};
use crate::cells::{CellPlace, ImprovableCell};
use crate::change::SiteMove;
use crate::limits::{count_of, doubled, number_of};
use crate::nets_on_board::BoardPoint;
use crate::runs::{SiteRun, SiteRuns};
use lf_repair_planner::{FreeRows, RowKind};
use std::alloc::{AllocError, Global};

/// The number on a site without a cell.
pub const FREE: u32 = u32::MAX;

/// A place on the board: the position of a run, the first site and the number of sites that the
/// cell takes there, and the cell's orientation.
#[derive(Clone, Copy)]
pub struct SitePlace {
    pub run: u32,
    pub site: u32,
    pub count: u32,
    pub orientation: RowKind,
}

impl SitePlace {
    /// The number of the first site after it.
    pub fn end(&self) -> u64 {
        self.site as u64 + self.count as u64
    }
}

/// The cells on the sites. A cell that was not on free sites at the beginning has no place.
#[derive(Drop)]
pub struct Board<'a> {
    pub cells: &'a [ImprovableCell],
    pub runs: SiteRuns,
    /// The greatest distance of a cell from where it was at the beginning, in database units.
    within: u64,
    /// The number of the cell on each site, run after run, or `FREE`.
    sites: Vec<u32>,
    places: Vec<Option<SitePlace>>,
    /// The bins that must not become too full, and the height of a row in database units.
    bins: Option<Bins>,
    height: i64,
}

impl<'a> Board<'a> {
    /// The board with all cells that are on free sites. `Err` if an allocation fails.
    pub fn new(
        alloc: Global,
        free_rows: &FreeRows,
        cells: &'a [ImprovableCell],
        within: Option<u64>,
        bins: Option<Bins>,
    ) -> Result<Board<'a>, AllocError> {
        let runs = SiteRuns::new(alloc, free_rows)?;
        let height = runs.height();
        let sites = vec![in alloc; FREE; runs.sites]?;
        let mut board = Board {
            cells,
            runs,
            within: within.unwrap_or(u64::MAX),
            sites,
            places: vec![in alloc; None; cells.len()]?,
            bins,
            height,
        };
        for (number, cell) in cells.iter().enumerate() {
            if let Some(place) = board.first_place(cell) {
                board.put(number_of(number), &place);
            }
        }
        Ok(board)
    }

    /// The place of a cell at the beginning. `None` if its sites are not free sites of one run, or
    /// its orientation is not allowed there.
    fn first_place(&self, cell: &ImprovableCell) -> Option<SitePlace> {
        let (number, site) = self.runs.site_at(cell.place.x, cell.place.y)?;
        let run = self.runs.get(number)?;
        let place = SitePlace {
            run: number,
            site,
            count: count_of(run.sites_for(cell.width)),
            orientation: cell.place.orientation,
        };
        let allowed = cell.orientations.in_row(run.kind);
        let sites = self.sites_of(run).get(site as usize..place.end() as usize)?;
        let is_free = sites.iter().all(|site| *site == FREE);
        if is_free && allowed.has(place.orientation) {
            Some(place)
        } else {
            None
        }
    }

    /// The number of cells.
    pub fn count(&self) -> u32 {
        number_of(self.places.len())
    }

    /// The sites of a run.
    pub fn sites_of(&self, run: &SiteRun) -> &[u32] {
        let end = run.base.saturating_add(run.count as usize);
        self.sites.get(run.base..end).unwrap_or(&[])
    }

    /// The place of a cell.
    pub fn place_of(&self, cell: u32) -> Option<SitePlace> {
        *self.places.get(cell as usize)?
    }

    /// Writes a number on the sites of a place.
    pub fn mark(&mut self, place: &SitePlace, number: u32) {
        let Some(run) = self.runs.get(place.run) else {
            return;
        };
        let first = run.base.saturating_add(place.site as usize);
        let end = first.saturating_add(place.count as usize);
        if end <= self.sites.len() && first <= end {
            for site in self.sites[first..end].iter_mut() {
                *site = number;
            }
        }
    }

    /// Puts a cell on the sites of a place.
    pub(crate) fn put(&mut self, cell: u32, place: &SitePlace) {
        self.mark(place, cell);
        if let Some(old) = self.places.get_mut(cell as usize) {
            *old = Some(*place);
        }
    }

    /// The number of sites that a cell takes in a run, if it has this place now.
    pub fn sites_in(&self, cell: u32, now: &SitePlace, run: &SiteRun) -> u32 {
        match (self.runs.get(now.run), self.cells.get(cell as usize)) {
            (Some(old), Some(given)) if old.step != run.step => {
                count_of(run.sites_for(given.width))
            }
            _ => now.count,
        }
    }

    /// Whether a site of a run is within the greatest distance for a cell.
    pub fn is_near(&self, cell: u32, run: &SiteRun, site: u32) -> bool {
        if self.within == u64::MAX {
            return true;
        }
        let Some(given) = self.cells.get(cell as usize) else {
            return false;
        };
        let dx = run.x_of(site).abs_diff(given.place.x as i64);
        let dy = (run.y as i64).abs_diff(given.place.y as i64);
        dx.saturating_add(dy) <= self.within
    }

    /// The box of a cell at a place, in database units.
    fn box_at(&self, cell: u32, place: &SitePlace) -> Option<BinBox> {
        let given = self.cells.get(cell as usize)?;
        let run = self.runs.get(place.run)?;
        let (x, y) = (run.x_of(place.site), run.y as i64);
        Some(BinBox {
            x1: x,
            y1: y,
            x2: x.saturating_add(given.width as i64),
            y2: y.saturating_add(self.height),
        })
    }

    /// Lists the boxes of moves, before and after each, if there are bins.
    pub(crate) fn list_boxes(
        &self,
        moves: &[SiteMove],
        boxes: &mut Vec<(BinBox, BinBox)>,
    ) -> Result<(), AllocError> {
        boxes.clear();
        if self.bins.is_none() {
            return Ok(());
        }
        for one in moves {
            let Some(now) = self.place_of(one.cell) else {
                continue;
            };
            if let (Some(before), Some(after)) = (
                self.box_at(one.cell, &now),
                self.box_at(one.cell, &one.place),
            ) {
                boxes.push((before, after))?;
            }
        }
        Ok(())
    }

    /// Whether no bin that gets fuller by moves is too full after them.
    pub(crate) fn has_room(&self, boxes: &[(BinBox, BinBox)]) -> bool {
        match &self.bins {
            Some(bins) => bins.have_room(boxes),
            None => true,
        }
    }

    /// Takes over the boxes of moves.
    pub(crate) fn keep_boxes(&mut self, boxes: &[(BinBox, BinBox)]) {
        if let Some(bins) = &mut self.bins {
            bins.keep(boxes);
        }
    }

    /// The point of a place in half database units.
    pub fn point_of(&self, place: &SitePlace) -> Option<BoardPoint> {
        let run = self.runs.get(place.run)?;
        Some(BoardPoint {
            x: run.doubled_x(place.site),
            y: run.doubled_y(),
        })
    }

    /// The place of a cell in database units. `None` if it is that at the beginning.
    pub fn changed_place(&self, cell: u32) -> Option<CellPlace> {
        let given = self.cells.get(cell as usize)?;
        let place = self.place_of(cell)?;
        let (x, y) = self.runs.point_of(place.run, place.site)?;
        let changed = CellPlace {
            x,
            y,
            orientation: place.orientation,
        };
        if changed == given.place {
            None
        } else {
            Some(changed)
        }
    }
}

/// The number of free sites directly in front of a position, `most` at the most.
pub fn free_before(sites: &[u32], position: usize, most: usize) -> usize {
    for back in 0..position.min(most) {
        if sites.get(position - 1 - back) != Some(&FREE) {
            return back;
        }
    }
    position.min(most)
}

/// The number of free sites from a position on, `most` at the most.
pub fn free_after(sites: &[u32], position: usize, most: usize) -> usize {
    for ahead in 0..most {
        if sites.get(position.saturating_add(ahead)) != Some(&FREE) {
            return ahead;
        }
    }
    most
}
