//! The cells of one free span.

ghost use Rattle.std.specs.Prelude.{◌≡◌, ◌+◌, ◌≤◌, ◌<◌, ◌^◌, ◌+ℤ◌, ◌↔◌, pos, []};
ghost use Rattle.std.specs.Prelude.{IfOk, IfSome, IsTrue, OnOk, OnErr, insert, length, remove, set, slice_index_or, vec_len};
ghost use Rattle.lf_repair_planner.specs.declared.packed_cell.PackedCell.{PackedCell};
ghost use Rattle.lf_repair_planner.specs.Packing.{AreSameCells, IsPacked, at_place_of, total_site_displacement, total_width};

use crate::cost_curve::CostCurve;
use crate::packed_cell::{PackedCell, total_displacement};
use crate::packed_insertion::{
    Insertion, RowGap, SearchEffort, SiteRange, add_pushed, reachable_sites, try_gap,
};
use crate::shifted_window::insert_cell;
use std::alloc::{AllocError, Global};
use std::marker::Model;

/// The cells in a free span, from left to right, without overlap. Contracts see the number of sites
/// of the span, its room, and the cells.
#[derive(Drop)]
pub struct PackedSpan {
    room: u32,
    taken: u32,
    cells: Vec<PackedCell>,
}

impl Model for PackedSpan {
    ghost use Rattle.lf_repair_planner.specs.Packing.{Packing};

    ghost Value = { Packing };

    ghost view = { λ s. record { room = s.room; cells = s.cells.items } };

    ghost use Rattle.lf_repair_planner.specs.Segments.{IsPackedSpan};

    ghost invariant = { λ s. IsPackedSpan s.room s.taken s.cells.items };
}

/// The gap in front of the first cell whose middle lies right of that of a cell at its target.
fn gap_near(cells: &[PackedCell], wanted: u32, width: u32) -> usize
    ensures { result ≤ length cells.now }
{
    let middle = 2 * wanted as u64 + width as u64;
    cells.partition_point(|cell| 2 * cell.at as u64 + (cell.width as u64) < middle)
}

/// Whether the cell at position `own` has this number.
fn is_numbered(cells: &[PackedCell], own: usize, number: u32) -> bool
    ensures within { IsTrue result → own < length cells.now }
    ensures number { (d : PackedCell) → IsTrue result → (slice_index_or cells.now own d).number ≡ number }
{
    match cells.get(own) {
        Some(cell) => cell.number == number,
        None => false,
    }
}

/// The position of the cell with this number, searched outward from site `near`.
fn find_near(cells: &[PackedCell], number: u32, near: u32) -> Option<usize>
    ensures within { IfSome result (λ own. own < length cells.now) }
    ensures number { (d : PackedCell) → IfSome result (λ own. (slice_index_or cells.now own d).number ≡ number) }
{
    let middle = cells.partition_point(|cell| cell.at < near);
    for away in 0..cells.len() {
        if is_numbered(cells, middle.saturating_add(away), number) {
            return Some(middle.saturating_add(away));
        }
        if away < middle && is_numbered(cells, middle - away - 1, number) {
            return Some(middle - away - 1);
        }
    }
    None
}

/// Replaces the cell at position `own` by another one, at the same site.
fn replace_cell(cells: &mut Vec<PackedCell>, own: usize, cell: PackedCell)
    requires { own < vec_len cells.old }
    ensures { cells.new.items ≡ set cells.old.items own (at_place_of (slice_index_or cells.old.items own cell) cell) }
{
    let at = cells[own].at;
    cells[own] = PackedCell { at, ..cell };
}

impl PackedSpan {
    /// A span without cells.
    pub fn new(alloc: Global, room: u32) -> PackedSpan
        ensures { result ≡ record { room = room; cells = [] } }
    {
        PackedSpan {
            room,
            taken: 0,
            cells: Vec::new(alloc),
        }
    }

    /// A span of as many sites with the same cells at the same sites. `Err` if an allocation fails.
    pub fn copy(&self, alloc: Global) -> Result<PackedSpan, AllocError>
        ensures { IfOk result (λ copy. copy ≡ self.now) }
    {
        let mut cells = Vec::with_capacity(alloc, self.cells.len())?;
        cells.extend_from_slice(self.cells.as_slice())?;
        Ok(PackedSpan {
            room: self.room,
            taken: self.taken,
            cells,
        })
    }

    /// The number of cells.
    pub fn len(&self) -> usize
        ensures { result ≡ length self.now.cells }
    {
        self.cells.len()
    }

    /// The cells, from left to right.
    pub fn as_slice(&self) -> &[PackedCell]
        ensures cells { result.now ≡ self.now.cells }
        ensures packed { IsPacked self.now.room result.now }
    {
        self.cells.as_slice()
    }

    /// Whether the span has at least `width` free sites in total.
    pub fn has_room(&self, width: u32) -> bool
        ensures { IsTrue result ↔ total_width self.now.cells + width ≤ self.now.room }
    {
        width <= self.room - self.taken
    }

    /// The position of a cell with this number, searched outward from site `near`. No clause says
    /// when it is `None`.
    pub fn find(&self, number: u32, near: u32) -> Option<usize>
        ensures within { IfSome result (λ own. own < length self.now.cells) }
        ensures number { (d : PackedCell)
            → IfSome result (λ own. (slice_index_or self.now.cells own d).number ≡ number) }
    {
        find_near(self.cells.as_slice(), number, near)
    }

    /// The total displacement of the cells from their targets, in sites.
    pub fn displacement(&self) -> u64
        requires few { length self.now.cells ≤ 2 ^ 30 }
        ensures way { result ≡ total_site_displacement self.now.cells }
    {
        total_displacement(self.cells.as_slice())
    }

    /// The gap to search first: in front of the first cell whose middle lies right of the given
    /// cell's middle at its target.
    pub fn gap_near(&self, cell: &PackedCell) -> usize
        ensures { result ≤ length self.now.cells }
    {
        gap_near(self.cells.as_slice(), cell.wanted, cell.width)
    }

    /// The place in a gap at which the total displacement grows least if the cell is inserted
    /// there. `None` if the search finds no room. `Err` if an allocation fails.
    pub fn try_insertion(
        &self,
        gap: usize,
        cell: &PackedCell,
        effort: &SearchEffort,
        curve: &mut CostCurve,
    ) -> Result<Option<Insertion>, AllocError>
        requires gap { gap ≤ length self.now.cells }
        ensures gap { IfOk result (λ found. IfSome found (λ candidate_cell. candidate_cell.gap ≡ gap)) }
    {
        try_gap(self.cells.as_slice(), self.room, gap, cell, effort, curve)
    }

    /// The sites of a range that a cell may take in a gap of one of its rows.
    pub fn reachable_sites(&self, gap: &RowGap, sites: &SiteRange) -> SiteRange
        requires gap { gap.now.gap ≤ length self.now.cells }
    {
        reachable_sites(self.cells.as_slice(), self.room, gap, sites)
    }

    /// Adds the cells to the curve that are pushed if a cell takes a site of this range in a gap of
    /// one of its rows. `Err` if an allocation fails.
    pub fn add_pushed(
        &self,
        gap: &RowGap,
        sites: &SiteRange,
        curve: &mut CostCurve,
    ) -> Result<(), AllocError>
        requires gap { gap.now.gap ≤ length self.now.cells }
    {
        add_pushed(self.cells.as_slice(), self.room, gap, sites, curve)
    }

    /// Inserts a cell at position `gap`, at its own site if that is free, otherwise near it. The
    /// others make room. Returns by how much the total displacement of the cells grows. `Err` if an
    /// allocation fails; then nothing is changed.
    pub fn insert(&mut self, gap: usize, cell: PackedCell) -> Result<i64, AllocError>
        requires gap { gap ≤ length self.old.cells }
        requires few { length self.old.cells < 2 ^ 30 }
        requires fits { total_width self.old.cells + cell.width ≤ self.old.room }
        ensures room { self.new.room ≡ self.old.room }
        ensures cells { OnOk result (AreSameCells (insert self.old.cells gap cell) self.new.cells) }
        ensures free { OnOk result (IsPacked self.old.room (insert self.old.cells gap cell)
            → self.new.cells ≡ insert self.old.cells gap cell) }
        ensures cost { IfOk result (λ cost. pos (total_site_displacement self.new.cells)
            ≡ (pos (total_site_displacement self.old.cells) +ℤ cost)) }
        ensures failed { OnErr result (self.new ≡ self.old) }
    {
        let cost = insert_cell(&mut self.cells, gap, cell, self.room)?;
        self.taken += cell.width;
        Ok(cost)
    }

    /// Removes the cell at position `own`. The others stay.
    pub fn remove(&mut self, own: usize) -> PackedCell
        requires { own < length self.old.cells }
        ensures cell { result ≡ slice_index_or self.old.cells own result }
        ensures room { self.new.room ≡ self.old.room }
        ensures cells { self.new.cells ≡ remove self.old.cells own }
    {
        let cell = self.cells.remove(own);
        self.taken -= cell.width;
        cell
    }

    /// Replaces the cell at position `own` by another one of the same width, at the same site.
    pub fn replace(&mut self, own: usize, cell: PackedCell)
        requires own { own < length self.old.cells }
        requires width { (slice_index_or self.old.cells own cell).width ≡ cell.width }
        ensures room { self.new.room ≡ self.old.room }
        ensures cells { self.new.cells
            ≡ set self.old.cells own (at_place_of (slice_index_or self.old.cells own cell) cell) }
    {
        replace_cell(&mut self.cells, own, cell);
    }
}
