//! The places of the cells of a plan so far.

use crate::free_rows::FreeRows;
use crate::packed_cell::PackedCell;
use crate::packed_span::PackedSpan;
use crate::passes::{PlannerInput, displacement_at_site};
use crate::plan::PlannedSite;
use crate::search::placed_at;
use crate::search_limits::number_of;
use crate::tall::{cell_in, gap_at, span_above};
use std::alloc::{AllocError, Global};

/// A place in the free rows: the span, the gap between the cells there, and the cell with its site.
#[derive(Clone, Copy)]
pub(crate) struct Gap {
    pub(crate) span: usize,
    pub(crate) gap: usize,
    pub(crate) cell: PackedCell,
    /// Of a cell of several rows, the site by whose middle it finds its gap in each of them.
    pub(crate) aim: u32,
}

/// The cells in each span, and for each cell its span and a site near its own. `None` if a cell has
/// no place.
#[derive(Drop)]
pub(crate) struct PlanState {
    pub(crate) segments: Vec<PackedSpan>,
    pub(crate) planned: Vec<Option<PlannedSite>>,
}

/// The greatest number of cells in one span.
const MOST: usize = 1 << 29;

/// An empty segment for each span.
pub(crate) fn empty_segments(
    alloc: Global,
    free_rows: &FreeRows,
) -> Result<Vec<PackedSpan>, AllocError> {
    let mut segments = Vec::with_capacity(alloc, free_rows.spans.len())?;
    for span in &free_rows.spans {
        segments.push(PackedSpan::new(alloc, span.count))?;
    }
    Ok(segments)
}

/// Inserts a cell. Returns false if it has no room there.
pub(crate) fn put_in(
    segment: &mut PackedSpan,
    gap: usize,
    cell: PackedCell,
) -> Result<bool, AllocError> {
    if segment.len() < gap || MOST <= segment.len() || !segment.has_room(cell.width) {
        return Ok(false);
    }
    segment.insert(gap, cell)?;
    Ok(true)
}

/// The cell with this number, as it is placed in the segment, and its position there.
fn find_in(segment: &PackedSpan, number: u32, near: u32) -> Option<(usize, PackedCell)> {
    let own = segment.find(number, near)?;
    Some((own, segment.as_slice()[own]))
}

impl PlanState {
    /// The state in which no cell of `count` has a place.
    pub(crate) fn new(
        alloc: Global,
        free_rows: &FreeRows,
        count: usize,
    ) -> Result<PlanState, AllocError> {
        Ok(PlanState {
            segments: empty_segments(alloc, free_rows)?,
            planned: vec![in alloc; None; count]?,
        })
    }

    /// Inserts a cell in a gap if there is room for it.
    pub(crate) fn put(&mut self, gap: &Gap) -> Result<(), AllocError> {
        let Some(segment) = self.segments.get_mut(gap.span) else {
            return Ok(());
        };
        if !put_in(segment, gap.gap, gap.cell)? {
            return Ok(());
        }
        if let Some(planned) = self.planned.get_mut(gap.cell.number as usize) {
            *planned = Some(PlannedSite {
                span: number_of(gap.span),
                at: gap.cell.at,
            });
        }
        Ok(())
    }

    /// The gap that a cell would leave. `None` if it has no place.
    pub(crate) fn place_of(&self, number: u32) -> Option<Gap> {
        let planned = (*self.planned.get(number as usize)?)?;
        let span = planned.span as usize;
        let segment = self.segments.get(span)?;
        let (gap, cell) = find_in(segment, number, planned.at)?;
        Some(Gap {
            span,
            gap,
            cell,
            aim: cell.at,
        })
    }

    /// Removes the cell of a gap.
    pub(crate) fn take(&mut self, gap: &Gap) {
        if let Some(segment) = self.segments.get_mut(gap.span) {
            if gap.gap < segment.len() {
                segment.remove(gap.gap);
            }
        }
    }

    /// Gives a cell this place, or none, without changing the spans.
    pub(crate) fn set_place(&mut self, number: u32, place: Option<Gap>) {
        if let Some(planned) = self.planned.get_mut(number as usize) {
            *planned = match place {
                Some(gap) => Some(PlannedSite {
                    span: number_of(gap.span),
                    at: gap.cell.at,
                }),
                None => None,
            };
        }
    }

    /// Inserts a cell, of one row or several, in a gap that was found for it.
    pub(crate) fn put_cell(&mut self, input: &PlannerInput, gap: &Gap) -> Result<(), AllocError> {
        let Some(planner_cell) = input.cells.get(gap.cell.number as usize) else {
            return Ok(());
        };
        if planner_cell.rows <= 1 {
            return self.put(gap);
        }
        for up in 0..planner_cell.rows {
            if let Some(covered) = span_above(input, gap, up) {
                if let Some(segment) = self.segments.get_mut(covered.span) {
                    let own = gap_at(segment, &gap.cell, gap.aim, covered.shift);
                    put_in(segment, own, cell_in(&gap.cell, &covered, up))?;
                }
            }
        }
        self.set_place(gap.cell.number, Some(*gap));
        Ok(())
    }

    /// Removes the cell of a gap, of one row or several.
    pub(crate) fn take_cell(&mut self, input: &PlannerInput, gap: &Gap) {
        let Some(planner_cell) = input.cells.get(gap.cell.number as usize) else {
            return;
        };
        self.set_place(gap.cell.number, None);
        for up in 0..planner_cell.rows {
            if let Some(covered) = span_above(input, gap, up) {
                if let Some(segment) = self.segments.get_mut(covered.span) {
                    let listed = cell_in(&gap.cell, &covered, up);
                    if let Some(own) = segment.find(listed.number, listed.at) {
                        segment.remove(own);
                    }
                }
            }
        }
    }

    /// The state in which the cells are at these sites. One that is farther from its target than `reach` has no
    /// place, and searches push none farther.
    pub(crate) fn with_spots(
        alloc: Global,
        input: &PlannerInput,
        planned: &[Option<PlannedSite>],
        reach: i64,
    ) -> Result<PlanState, AllocError> {
        let mut state = PlanState::new(alloc, input.free_rows, input.cells.len())?;
        for (number, (planner_cell, planned_site)) in input
            .cells
            .iter()
            .zip(planned.iter())
            .enumerate()
        {
            let Some(planned_site) = planned_site else {
                continue;
            };
            let span = planned_site.span as usize;
            let (Some(sites), Some(row), Some(segment)) = (
                input.free_rows.spans.get(span),
                input.row_of(span),
                state.segments.get(span),
            ) else {
                continue;
            };
            let number = number_of(number);
            let Some(cell) = placed_at(number, planner_cell, sites, row.y, planned_site.at, reach)
            else {
                continue;
            };
            if reach < displacement_at_site(planner_cell, sites, row.y, planned_site.at) {
                continue;
            }
            let gap = Gap {
                span,
                gap: gap_at(segment, &cell, planned_site.at, 0),
                cell,
                aim: planned_site.at,
            };
            state.put_cell(input, &gap)?;
        }
        Ok(state)
    }
}
