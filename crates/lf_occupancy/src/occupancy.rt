//! The marks of all cells in the strips of a frame.

ghost use Rattle.std.specs.Prelude.{◌≡◌, ◌≢◌, ◌≤ℤ◌, ◌*ℤ◌, [], All, IfOk, IfSome, List, None, OnOk, Option, Some, length, map, pos, slice_index_or, slice_set, ℕ};
ghost use Rattle.std.specs.Vec.{vec_len};
ghost use Rattle.lf_units.specs.declared.geometry.Rect.{Rect};
ghost use Rattle.lf_segments.specs.Indexes.{IsIndexOf};
ghost use Rattle.lf_occupancy.specs.Floorplans.{HaveSize, IsMarkedBy, boxes_in};
ghost use Rattle.lf_occupancy.specs.MarkLists.{IsPlaceX};
ghost use Rattle.lf_occupancy.specs.Views.{AreFreeSpans, Bounds, FitIn, HasRoomFor, IsPaddingOf, KeepsCapacities, cell_box};
ghost use Rattle.lf_occupancy.specs.Strips.{CanEnter, CanLeave, MarksBoxes, HasBoxOrNone, HasNoBox, boxes_set, with_boxes, capacities_in};

use crate::boxes::{Boxes, CellBox, PlacedCells};
use crate::build::marks_of_strips;
use crate::marking::{reserve_moves, take_in, take_out};
use crate::occupancy_view::OccupancyView;
use crate::strip_counts::{StripCounts, lower, marks_of, near_shift, raise, shift_rows};
use crate::strip_marks::StripMarks;
use crate::widened::WidenedStrips;
use lf_cells::{CellId, CellTable};
use lf_floorplan::Frame;
use lf_segments::FrameIndex;
use lf_units::{Rect, Span};
use std::alloc::{AllocError, Global};
use std::marker::Model;

/// The cells in the strips of a frame.
///
/// It keeps the frame's index and the width of a core site in database units. For each widened
/// strip it keeps the boxes of its team that have a part in it, by the parts' left edges. So a
/// strip knows all cells that are near enough to it for some padding.
///
/// The boxes follow from frame and cells, and `with_boxes` computes them when they are needed. A
/// contract sees what is kept, and says which boxes the strips hold.
pub struct Occupancy {
    pub(crate) index: FrameIndex,
    pub(crate) site: i64,
    pub(crate) mark_lists: Vec<StripMarks>,
}

/// (Written by hand: with a derived `drop`, the proof of every function that drops an occupancy
/// unfolds its lists.)
impl Drop for Occupancy {
    fn drop(self) {
        let Occupancy {
            index: _,
            site: _,
            mark_lists: _,
        } = self;
    }
}

impl Model for Occupancy {
    ghost use Rattle.lf_occupancy.specs.Strips.{HasStripMarks, Marked};

    ghost Value = { Marked };

    ghost view = { λ o. record { index = o.index; site = o.site; mark_lists = o.mark_lists.items } };

    ghost invariant = { λ o. HasStripMarks record { index = o.index; site = o.site; mark_lists = o.mark_lists.items } };
}

impl Occupancy {
    /// Marks the cells at their working places in the frame's strips, given the frame's index. Each
    /// cell's macro is one of the frame's and has a whole size. Each strip has room for its cells,
    /// and little more. `Err` if an allocation fails.
    pub fn build(
        alloc: Global,
        frame: &Frame,
        index: FrameIndex,
        cells: &CellTable,
    ) -> Result<Self, AllocError>
        requires index { IsIndexOf frame.now index }
        requires sized { HaveSize frame.now cells.now }
        ensures { IfOk result (λ occupancy. IsMarkedBy frame.now cells.now occupancy) }
    {
        let placed = PlacedCells {
            index: &index,
            frame,
            cells,
        };
        let mark_lists = marks_of_strips(alloc, &placed)?;
        Ok(Occupancy {
            index,
            site: frame.pitch.x,
            mark_lists,
        })
    }

    /// The frame's index.
    pub fn index(&self) -> &FrameIndex
        ensures { result.now ≡ self.now.index }
    {
        &self.index
    }

    /// The greatest padding as a length, in database units: 16 core sites.
    pub fn max_padding(&self) -> i64
        ensures is { result ≡ pos 16 *ℤ self.now.site }
        ensures least { pos 0 ≤ℤ result }
    {
        16 * self.site
    }

    /// The strips with the boxes of the table's cells at their working places. The strips hold
    /// exactly these boxes. The macros of the cells are the frame's, of whole size.
    pub fn with_boxes<'a>(&'a self, frame: &'a Frame, cells: &'a CellTable) -> OccupancyView<'a>
        requires sized { HaveSize frame.now cells.now }
        requires holds { MarksBoxes self.now (boxes_in frame.now cells.now) }
        ensures { result ≡ with_boxes self.now (boxes_in frame.now cells.now) }
    {
        OccupancyView::new(self, Boxes::new(frame, cells))
    }

    /// The free spans of the strip of segment number `segment`, in database units.
    ///
    /// They are the parts that the cells of its team leave free with the padding around each,
    /// except the cell `without`. If `without` is a cell of another team, all cells of the team
    /// count. The list is empty if there is no such segment.
    ///
    /// The list rises. A span that holds a number lies in one of its spans iff it lies in the strip
    /// and keeps the padding from each cell that counts. The padding is a length from 0 to 16 core
    /// sites.
    ///
    /// `Err` if an allocation fails.
    pub fn free_spans(
        &self,
        alloc: Global,
        frame: &Frame,
        cells: &CellTable,
        segment: usize,
        without: CellId,
        padding: i64,
    ) -> Result<Vec<Span>, AllocError>
        requires sized { HaveSize frame.now cells.now }
        requires holds { MarksBoxes self.now (boxes_in frame.now cells.now) }
        requires padding { IsPaddingOf (with_boxes self.now (boxes_in frame.now cells.now)) padding }
        ensures { IfOk result (λ free.
            AreFreeSpans (with_boxes self.now (boxes_in frame.now cells.now)) segment without padding free.items) }
    {
        self.with_boxes(frame, cells)
            .free_spans(alloc, segment, without, padding)
    }

    /// Removes the marks of the cell, which has this box, from the strips. Nothing changes if it
    /// has no box. Whatever boxes the strips held, they then hold these boxes without the cell's.
    /// Does not allocate. Each strip keeps its capacity.
    pub fn remove(&mut self, id: CellId, rect: &Rect)
        requires { CanLeave self.old id rect.now }
        ensures holds { (boxes : List (List (Option Rect))) → HasBoxOrNone boxes id rect.now → MarksBoxes self.old boxes
            → MarksBoxes self.new (boxes_set boxes id None) }
        ensures index { self.new.index ≡ self.old.index }
        ensures site { self.new.site ≡ self.old.site }
        ensures rooms { capacities_in self.new.mark_lists ≡ capacities_in self.old.mark_lists }
    {
        let strips = WidenedStrips {
            index: &self.index,
            site: &self.site,
        };
        take_out(&mut self.mark_lists, &strips, &id, rect);
    }

    /// Marks this box for a cell that has no box. Whatever boxes the strips held, they then hold
    /// these boxes with this one for the cell. The box's left edge is a 32-bit number, as the x of
    /// a place is. Each strip of its team that, widened by 16 core sites, shares a point with the
    /// box must have room for one more. Does not allocate. Each strip keeps its capacity.
    pub fn insert(&mut self, id: CellId, rect: &Rect)
        requires edge { IsPlaceX rect.now.x1 }
        requires enter { CanEnter self.old id rect.now }
        ensures holds { (boxes : List (List (Option Rect))) → HasNoBox boxes id → MarksBoxes self.old boxes
            → MarksBoxes self.new (boxes_set boxes id (Some rect.now)) }
        ensures index { self.new.index ≡ self.old.index }
        ensures site { self.new.site ≡ self.old.site }
        ensures rooms { capacities_in self.new.mark_lists ≡ capacities_in self.old.mark_lists }
    {
        let strips = WidenedStrips {
            index: &self.index,
            site: &self.site,
        };
        let cell = CellBox { id: &id, rect };
        take_in(&mut self.mark_lists, &strips, &cell);
    }

    /// Makes the room that `insert` needs if the moves are made in their order.
    ///
    /// Each move removes the cell's box and inserts its new one, if it has one. A strip of the
    /// cell's team gets room if it shares a point with the new box when widened by 16 core sites.
    /// It gets room for as many more boxes as there are moves. The strips hold the same boxes, and
    /// no strip has less room.
    ///
    /// `Err` if an allocation fails: then strips may have gained room, and nothing else is changed.
    pub fn reserve_for(&mut self, moves: &[(CellId, Option<Rect>)]) -> Result<(), AllocError>
        ensures ok { (boxes : List (List (Option Rect))) → MarksBoxes self.old boxes
            → OnOk result (All (λ m. IfSome m.1
            (λ rect. HasRoomFor (with_boxes self.new boxes) m.0.team rect (length moves.now))) moves.now) }
        ensures holds { (boxes : List (List (Option Rect))) → MarksBoxes self.old boxes → MarksBoxes self.new boxes }
        ensures index { self.new.index ≡ self.old.index }
        ensures site { self.new.site ≡ self.old.site }
        ensures rooms { KeepsCapacities (capacities_in self.old.mark_lists) (capacities_in self.new.mark_lists) }
    {
        let strips = WidenedStrips {
            index: &self.index,
            site: &self.site,
        };
        reserve_moves(&mut self.mark_lists, &strips, moves)
    }

    /// The number of boxes that each strip holds. `reserve_counted` then changes these counts for
    /// boxes at other places. `Err` if an allocation fails.
    pub fn strip_counts(&self, alloc: Global) -> Result<StripCounts, AllocError>
        ensures is { IfOk result (λ tally. tally ≡ map (λ l. vec_len l.marks) self.now.mark_lists) }
        ensures room { IfOk result (λ tally. KeepsCapacities tally (capacities_in self.now.mark_lists)) }
        ensures bounds { (boxes : List (List (Option Rect))) → (team : ℕ) → MarksBoxes self.now boxes
            → IfOk result (λ tally. Bounds (with_boxes self.now boxes) team (slice_index_or boxes team []) tally) }
    {
        let counts = marks_of(alloc, self.mark_lists.as_slice())?;
        Ok(StripCounts { counts })
    }

    /// Counts the box `to` of the team in place of `from`.
    ///
    /// If the counts bound boxes of the team and one of them is `from`, they then bound these boxes
    /// with `to` instead. Bounds for other teams stay valid. Each strip gets room for what is
    /// counted. No strip has less room, and the strips hold the same boxes.
    ///
    /// `Err` if an allocation fails: then the counts are unspecified, and strips may have gained
    /// room.
    pub fn reserve_counted(
        &mut self,
        counts: &mut StripCounts,
        team: usize,
        from: &Option<Rect>,
        to: &Option<Rect>,
    ) -> Result<(), AllocError>
        requires { KeepsCapacities counts.old (capacities_in self.old.mark_lists) }
        ensures room { OnOk result (KeepsCapacities counts.new (capacities_in self.new.mark_lists)) }
        ensures own { (boxes : List (Option Rect)) → (own : ℕ) → cell_box boxes own ≡ from.now
            → Bounds (with_boxes self.old []) team boxes counts.old
            → OnOk result (Bounds (with_boxes self.new []) team (slice_set boxes own to.now) counts.new) }
        ensures others { (boxes : List (Option Rect)) → (other : ℕ) → other ≢ team
            → Bounds (with_boxes self.old []) other boxes counts.old
            → OnOk result (Bounds (with_boxes self.new []) other boxes counts.new) }
        ensures holds { (boxes : List (List (Option Rect))) → MarksBoxes self.old boxes → MarksBoxes self.new boxes }
        ensures index { self.new.index ≡ self.old.index }
        ensures site { self.new.site ≡ self.old.site }
        ensures rooms { KeepsCapacities (capacities_in self.old.mark_lists) (capacities_in self.new.mark_lists) }
    {
        let strips = WidenedStrips {
            index: &self.index,
            site: &self.site,
        };
        if let Some(shift) = near_shift(from, to) {
            return shift_rows(
                &mut self.mark_lists,
                &mut counts.counts,
                &strips,
                team,
                &shift,
            );
        }
        lower(&mut counts.counts, &strips, team, from);
        raise(&mut self.mark_lists, &mut counts.counts, &strips, team, to)
    }

    /// A law: the boxes that the strips hold fit. Each strip, widened by 16 core sites, has room
    /// for all boxes of its team that share a point with it.
    pub fn boxes_fit(&self)
        ensures { (boxes : List (List (Option Rect))) → MarksBoxes self.now boxes
            → (team : ℕ) → FitIn (with_boxes self.now boxes) team (slice_index_or boxes team []) }
    {
        let _ = &self.mark_lists;
    }
}
