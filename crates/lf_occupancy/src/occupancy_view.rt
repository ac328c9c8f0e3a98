//! The strips of a frame together with the boxes of a table's cells.

ghost use Rattle.std.specs.Prelude.{◌≡◌, ◌≤ℤ◌, All, IfOk, Option, negsuc, pos};
ghost use Rattle.lf_gaps.specs.Gaps.{FindsGap};
ghost use Rattle.lf_occupancy.specs.Views.{boxes_of, reach, AreFreeSpans, OverlapsNoBox, IsFirstOverlappingCell, IsFreeInRow, IsPaddingOf};
ghost use Rattle.lf_occupancy.specs.Strips.{MarksBoxes, with_boxes};

use crate::apart::apart_in_strips;
use crate::boxes::Boxes;
use crate::marked_strips::{CellPadding, MarkedStrips};
use crate::nearest_gap::nearest_in_strips;
use crate::occupancy::Occupancy;
use crate::queries::{free_in_one, free_in_strips, least_overlapped};
use crate::widened::WidenedStrips;
use lf_cells::CellId;
use lf_gaps::GapTarget;
use lf_segments::FrameIndex;
use lf_units::{Rect, Span};
use std::alloc::{AllocError, Global};
use std::marker::Model;

/// An occupancy together with the boxes that its strips hold. A contract sees the frame's index,
/// the width of a core site and the boxes of each team's cells. For each strip it sees how many
/// boxes it has room for.
#[derive(Drop)]
pub struct OccupancyView<'a> {
    occupancy: &'a Occupancy,
    boxes: Boxes<'a>,
}

impl<'a> Model for OccupancyView<'a> {
    ghost use Rattle.lf_occupancy.specs.Views.{Occupied};
    ghost use Rattle.lf_occupancy.specs.Strips.{MarksBoxes, with_boxes};

    ghost Value = { Occupied };

    ghost view = { λ o. with_boxes o.occupancy.now o.boxes };

    ghost invariant = { λ o. MarksBoxes o.occupancy.now o.boxes };
}

impl<'a> OccupancyView<'a> {
    /// The occupancy with the boxes that its strips hold.
    pub(crate) fn new(occupancy: &'a Occupancy, boxes: Boxes<'a>) -> OccupancyView<'a>
        requires { MarksBoxes occupancy.now boxes }
        ensures { result ≡ with_boxes occupancy.now boxes.entry }
    {
        OccupancyView { occupancy, boxes }
    }

    /// The frame's index.
    pub fn index(&self) -> &FrameIndex
        ensures { result.now ≡ self.now.index }
    {
        self.occupancy.index()
    }

    /// The greatest padding as a length, in database units: 16 core sites.
    pub fn max_padding(&self) -> i64
        ensures is { result ≡ reach self.now }
        ensures least { pos 0 ≤ℤ result }
    {
        self.occupancy.max_padding()
    }

    /// The spans of a row within a window that are free for a cell, as if the cell itself were
    /// unplaced.
    ///
    /// They are the parts of the strips of the row and the cell's team that the other cells of the
    /// team leave free. Each cell has the padding around it. All lengths are in database units.
    ///
    /// The list rises. A span that holds a number lies in one of its spans iff it lies in the
    /// window and in one strip, and is free. It is free if it keeps the padding from each other
    /// placed cell of the team.
    ///
    /// The window begins at -2^62 or above. The padding is a length from 0 to 16 core sites. Only
    /// cells near the window are searched. `Err` if an allocation fails.
    pub fn free_in_row(
        &self,
        alloc: Global,
        row: usize,
        id: CellId,
        window: &Span,
        padding: i64,
    ) -> Result<Vec<Span>, AllocError>
        requires window { negsuc 4611686018427387903 ≤ℤ window.now.lo }
        requires padding { IsPaddingOf self.now padding }
        ensures { IfOk result (λ free. IsFreeInRow self.now row id window.now padding free.items) }
    {
        let occupancy = self.occupancy;
        occupancy.index.strips_are_placed();
        let strips = WidenedStrips {
            index: &occupancy.index,
            site: &occupancy.site,
        };
        let marked = MarkedStrips {
            strips: &strips,
            mark_lists: &occupancy.mark_lists,
            boxes: &self.boxes,
        };
        let length = CellPadding { length: padding };
        free_in_strips(alloc, &marked, row, &id, window, &length)
    }

    /// The number nearest to the target, on the grid, from which on the width lies in one of the
    /// spans of a row within a window that are free for a cell, as `free_in_row` lists them. The
    /// lesser of two that are equally near. `None` if the width lies in none of them.
    ///
    /// The window begins at -2^62 or above. The padding is a length from 0 to 16 core sites. Only
    /// cells near the window are searched. Does not allocate.
    pub fn nearest_in_row(
        &self,
        row: usize,
        id: CellId,
        window: &Span,
        padding: i64,
        wanted: &GapTarget,
    ) -> Option<i64>
        requires window { negsuc 4611686018427387903 ≤ℤ window.now.lo }
        requires padding { IsPaddingOf self.now padding }
        ensures { FindsGap (IsFreeInRow self.now row id window.now padding) wanted.now result }
    {
        let occupancy = self.occupancy;
        occupancy.index.strips_are_placed();
        let strips = WidenedStrips {
            index: &occupancy.index,
            site: &occupancy.site,
        };
        let marked = MarkedStrips {
            strips: &strips,
            mark_lists: &occupancy.mark_lists,
            boxes: &self.boxes,
        };
        let length = CellPadding { length: padding };
        nearest_in_strips(&marked, row, &id, window, &length, wanted)
    }

    /// The free spans of the strip of segment number `segment`, in database units.
    ///
    /// They are the parts that the cells of its team leave free with the padding around each,
    /// except the cell `without`. If `without` is a cell of another team, all cells of the team
    /// count. The list is empty if there is no such segment.
    ///
    /// The list rises. A span that holds a number lies in one of its spans iff it lies in the strip
    /// and keeps the padding from each cell that counts. The padding is a length from 0 to 16 core
    /// sites.
    ///
    /// `Err` if an allocation fails.
    pub fn free_spans(
        &self,
        alloc: Global,
        segment: usize,
        without: CellId,
        padding: i64,
    ) -> Result<Vec<Span>, AllocError>
        requires { IsPaddingOf self.now padding }
        ensures { IfOk result (λ free. AreFreeSpans self.now segment without padding free.items) }
    {
        let occupancy = self.occupancy;
        occupancy.index.strips_are_placed();
        let strips = WidenedStrips {
            index: &occupancy.index,
            site: &occupancy.site,
        };
        let marked = MarkedStrips {
            strips: &strips,
            mark_lists: &occupancy.mark_lists,
            boxes: &self.boxes,
        };
        let length = CellPadding { length: padding };
        free_in_one(alloc, &marked, segment, &without, &length)
    }

    /// The least position of another cell of the cell's team whose box overlaps the rectangle in
    /// one of the team's strips. The strips are widened by 16 core sites on their left and right.
    /// `None` if there is no such cell. Does not allocate.
    pub fn first_overlapping(&self, id: CellId, rect: &Rect) -> Option<u32>
        ensures { IsFirstOverlappingCell self.now id rect.now result }
    {
        let occupancy = self.occupancy;
        let strips = WidenedStrips {
            index: &occupancy.index,
            site: &occupancy.site,
        };
        let marked = MarkedStrips {
            strips: &strips,
            mark_lists: &occupancy.mark_lists,
            boxes: &self.boxes,
        };
        least_overlapped(&marked, &id, rect)
    }

    /// Positions of cells of the team whose boxes, widened by the padding, overlap no other cell of
    /// the team. The cells lie in the team's strips of this row, and are listed from left to right.
    /// A cell that does not lie in one strip, as one of several rows, is not listed.
    ///
    /// The padding is a length from 0 to 16 core sites. `Err` if an allocation fails.
    pub fn apart_in_row(
        &self,
        alloc: Global,
        row: usize,
        team: usize,
        padding: i64,
    ) -> Result<Vec<u32>, AllocError>
        requires { IsPaddingOf self.now padding }
        ensures { IfOk result (λ apart. All (OverlapsNoBox (boxes_of self.now team) padding) apart.items) }
    {
        let occupancy = self.occupancy;
        let strips = WidenedStrips {
            index: &occupancy.index,
            site: &occupancy.site,
        };
        let marked = MarkedStrips {
            strips: &strips,
            mark_lists: &occupancy.mark_lists,
            boxes: &self.boxes,
        };
        let length = CellPadding { length: padding };
        apart_in_strips(alloc, &marked, row, team, &length)
    }
}
