//! The strips of the built-in design with a1 at (400 0).

ghost use Rattle.std.specs.Prelude.{◌≤ℤ◌, pos, IfOk};
ghost use Rattle.lf_occupancy.specs.Floorplans.{HaveSize, IsMarkedBy};
ghost use Rattle.lf_occupancy.specs.Views.{IsPaddingOf};

use crate::designs::{Requested, holds, placement_of};
use lf_cells::{CellId, CellTable};
use lf_def::DEMO_DEF;
use lf_frame::{Frame, Loaded, Place};
use lf_gaps::GapTarget;
use lf_occupancy::{Occupancy, OccupancyView};
use lf_orient::Orient;
use lf_placement::Placement;
use lf_rules::Padding;
use lf_segments::FrameIndex;
use lf_tests_support::with_line;
use lf_undo::{Move, Moves};
use lf_units::{Rect, SiteGrid, Span};
use std::alloc::{AllocError, Global};
use std::test::Fail;

/// The number of the strip of A in the lowest row.
const LOWEST: usize = 0;

/// The box of an INV whose lower left corner this is.
fn inverter(x: i64, y: i64) -> Rect
    requires left { x ≤ℤ pos 4000 }
    requires low { y ≤ℤ pos 4000 }
{
    Rect {
        x1: x,
        y1: y,
        x2: x + 400,
        y2: y + 2000,
    }
}

/// The occupancy of the frame by the cells at their working places.
fn occupancy_of(alloc: Global, frame: &Frame, cells: &CellTable) -> Result<Occupancy, AllocError>
    requires { HaveSize frame.now cells.now }
    ensures { IfOk result (λ held. IsMarkedBy frame.now cells.now held) }
{
    let index = FrameIndex::build(alloc, frame)?;
    Occupancy::build(alloc, frame, index, cells)
}

/// The frame and the cells of a design as it is loaded.
fn tables_of(alloc: Global, design: Loaded) -> Result<(Frame, CellTable), AllocError>
    ensures { IfOk result (λ built. HaveSize built.0 built.1) }
{
    let built = CellTable::build(alloc, design)?;
    Ok(built)
}

/// The cell of A with this name.
fn cell_of(cells: &CellTable, name: &[u8]) -> Option<CellId> {
    cells.find_own(0, name)
}

/// Whether the spans are these.
fn are(spans: &[Span], wanted: &[(i64, i64)]) -> bool {
    if spans.len() != wanted.len() {
        return false;
    }
    for (span, (lo, hi)) in spans.iter().zip(wanted.iter()) {
        if (span.lo, span.hi) != (*lo, *hi) {
            return false;
        }
    }
    true
}

/// A padding in database units, limited to the greatest padding of the strips.
fn padding_of(strips: &OccupancyView<'_>, length: i64) -> i64
    ensures { IsPaddingOf strips.now result }
{
    length.clamp(0, strips.max_padding())
}

/// Whether these spans of the strip are free with this padding, without the cell `without`.
fn is_left(
    alloc: Global,
    strips: &OccupancyView<'_>,
    strip: usize,
    without: &CellId,
    padding: i64,
    wanted: &[(i64, i64)],
) -> Result<bool, AllocError> {
    let padding = padding_of(strips, padding);
    let free = strips.free_spans(alloc, strip, *without, padding)?;
    Ok(are(&free, wanted))
}

/// Whether the strips have the spans that a1 leaves free, also with a padding and for a cell of
/// another team. If there is no such strip, there are no spans.
fn shows_what_is_free(
    alloc: Global,
    strips: &OccupancyView<'_>,
    a1: &CellId,
    a2: &CellId,
) -> Result<bool, Fail> {
    if !is_left(alloc, strips, LOWEST, a2, 0, &[(0, 400), (800, 4000)])? {
        return Ok(false);
    }
    if !is_left(alloc, strips, LOWEST, a1, 0, &[(0, 4000)])? {
        return Ok(false);
    }
    if !is_left(alloc, strips, LOWEST, a2, 300, &[(0, 100), (1100, 4000)])? {
        return Ok(false);
    }
    let nobody = CellId { team: 1, own: 0 };
    if !is_left(alloc, strips, LOWEST, &nobody, 0, &[(0, 400), (800, 4000)])? {
        return Ok(false);
    }
    Ok(is_left(alloc, strips, 10, a1, 0, &[])?)
}

/// Whether a window has the spans that a1 leaves free with a padding, the nearest place is in one of
/// them, and a box that overlaps a1 is found to overlap it.
fn shows_what_is_near(
    alloc: Global,
    strips: &OccupancyView<'_>,
    a1: &CellId,
    a2: &CellId,
) -> Result<bool, Fail> {
    let window = Span { lo: 200, hi: 1000 };
    let padding = padding_of(strips, 100);
    let near = strips.free_in_row(alloc, 0, *a2, &window, padding)?;
    if !are(&near, &[(200, 300), (900, 1000)]) {
        return Ok(false);
    }
    let wanted = GapTarget {
        grid: SiteGrid {
            origin: 0,
            step: 100,
        },
        width: 100,
        target: 650,
    };
    if strips.nearest_in_row(0, *a2, &window, padding, &wanted) != Some(900) {
        return Ok(false);
    }
    let overlapping = inverter(600, 0);
    let other = strips.first_overlapping(*a2, &overlapping);
    let itself = strips.first_overlapping(*a1, &overlapping);
    Ok(other == Some(a1.own) && itself.is_none())
}

/// Whether the occupancy returns the same free spans of a strip as its view with boxes.
fn lists_what_is_free(
    alloc: Global,
    occupancy: &Occupancy,
    frame: &Frame,
    cells: &CellTable,
    a2: &CellId,
) -> Result<bool, AllocError>
    requires sized { HaveSize frame.now cells.now }
    requires held { IsMarkedBy frame.now cells.now occupancy.now }
{
    let strips = occupancy.with_boxes(frame, cells);
    let padding = padding_of(&strips, 300);
    let free = occupancy.free_spans(alloc, frame, cells, LOWEST, *a2, padding)?;
    Ok(are(&free, &[(0, 100), (1100, 4000)]))
}

/// Whether the strips of the design pass these tests.
fn answer(alloc: Global, design: Loaded) -> Result<bool, Fail> {
    let built = tables_of(alloc, design)?;
    let (frame, cells) = built;
    let occupancy = occupancy_of(alloc, &frame, &cells)?;
    let Some(a1) = cell_of(&cells, b"a1") else {
        return Ok(false);
    };
    let Some(a2) = cell_of(&cells, b"a2") else {
        return Ok(false);
    };
    if !lists_what_is_free(alloc, &occupancy, &frame, &cells, &a2)? {
        return Ok(false);
    }
    let strips = occupancy.with_boxes(&frame, &cells);
    if !shows_what_is_free(alloc, &strips, &a1, &a2)? {
        return Ok(false);
    }
    shows_what_is_near(alloc, &strips, &a1, &a2)
}

/// The condition that strips pass these tests.
#[derive(Clone, Copy)]
struct AreShown;

impl Requested for AreShown {
    fn holds(&self, alloc: Global, design: Loaded) -> Result<bool, Fail> {
        answer(alloc, design)
    }
}

/// A DEF text with a1 at (400 0).
fn def_with_placed(alloc: Global) -> Result<Vec<u8>, AllocError> {
    with_line(alloc, DEMO_DEF, 15, b"- a1 INV + PLACED ( 400 0 ) N ;")
}

/// A place in the lowest row, or in the one above.
fn place(x: i32, above: bool) -> Place
    requires { pos 0 ≤ℤ x }
{
    if above {
        return Place::new(x, 2000, Orient::FS);
    }
    Place::new(x, 0, Orient::N)
}

/// The cell of A that a2 overlaps at the place. `None` if it overlaps no cell.
fn overlapped_at(placement: &Placement, a2: CellId, at: &Place) -> Option<u32> {
    placement.first_broken(a2, at, Padding::none())?.other
}

/// Makes room, and then moves the cell of A to the place or unplaces it. Returns the applied move.
fn moved(
    alloc: Global,
    placement: &mut Placement,
    id: CellId,
    to: Option<Place>,
) -> Result<Moves, AllocError> {
    let mut moves = Moves::new(alloc);
    moves.push(Move::new(id.own, to))?;
    placement.reserve(alloc, 0, moves.as_slice())?;
    placement.apply(0, &mut moves, 0);
    Ok(moves)
}

/// Whether a2 overlaps a1 at its new place, no longer at its old place, and nowhere after a1 is
/// unplaced.
fn follows_a_cell(alloc: Global, placement: &mut Placement) -> Result<bool, Fail> {
    let Some(a1) = cell_of(placement.cells(), b"a1") else {
        return Ok(false);
    };
    let Some(a2) = cell_of(placement.cells(), b"a2") else {
        return Ok(false);
    };
    let before = place(600, false);
    let after = place(200, true);
    if overlapped_at(placement, a2, &before) != Some(a1.own)
        || overlapped_at(placement, a2, &after).is_some()
    {
        return Ok(false);
    }
    let moves = moved(alloc, placement, a1, Some(place(0, true)))?;
    if overlapped_at(placement, a2, &before).is_some()
        || overlapped_at(placement, a2, &after) != Some(a1.own)
    {
        return Ok(false);
    }
    let away = moved(alloc, placement, a1, None)?;
    let none = overlapped_at(placement, a2, &before).is_some()
        || overlapped_at(placement, a2, &after).is_some();
    Ok(!none && moves.as_slice().len() == 1 && away.as_slice().len() == 1)
}

/// Whether these cells of A overlap no other cell in the lowest row, with a padding of this many
/// sites.
fn are_apart(
    alloc: Global,
    placement: &Placement,
    sites: u32,
    wanted: &[u32],
) -> Result<bool, AllocError> {
    let Some(padding) = Padding::new(sites) else {
        return Ok(false);
    };
    let apart = placement.apart_in_row(alloc, 0, 0, padding)?;
    Ok(apart.as_slice() == wanted)
}

/// Whether a1 and a2 are apart if there is a site between them and the padding is a site, and not
/// if the padding is more or they overlap.
fn lists_cells_apart(alloc: Global, placement: &mut Placement) -> Result<bool, Fail> {
    let Some(a1) = cell_of(placement.cells(), b"a1") else {
        return Ok(false);
    };
    let Some(a2) = cell_of(placement.cells(), b"a2") else {
        return Ok(false);
    };
    let moves = moved(alloc, placement, a2, Some(place(1000, false)))?;
    let with_padding = are_apart(alloc, placement, 1, &[a1.own, a2.own])?;
    let with_more = are_apart(alloc, placement, 2, &[])?;
    let back = moved(alloc, placement, a2, Some(place(600, false)))?;
    let overlapping = are_apart(alloc, placement, 0, &[])?;
    Ok(with_padding && with_more && overlapping && moves.as_slice().len() == back.as_slice().len())
}

#[test]
fn strips_show_what_is_free(rt: HostRuntime) -> Result<(), Fail> {
    let def = def_with_placed(rt.alloc())?;
    assert!(rt; holds(rt.alloc(), &def, &AreShown)?);
    Ok(())
}

#[test]
fn strips_follow_a_cell(rt: HostRuntime) -> Result<(), Fail> {
    let def = def_with_placed(rt.alloc())?;
    let mut placement = placement_of(rt.alloc(), &def)?;
    assert!(rt; follows_a_cell(rt.alloc(), &mut placement)?);
    Ok(())
}

#[test]
fn strips_list_cells_apart(rt: HostRuntime) -> Result<(), Fail> {
    let def = def_with_placed(rt.alloc())?;
    let mut placement = placement_of(rt.alloc(), &def)?;
    assert!(rt; lists_cells_apart(rt.alloc(), &mut placement)?);
    Ok(())
}
