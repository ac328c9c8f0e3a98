//! The widest free run of sites in each strip of a team.

ghost use Rattle.std.specs.Prelude.{◌≡◌, ◌↔◌, ◌*◌, ◌^◌, ◌<◌, ◌≤◌, ◌-ℤ◌, ◌≤ℤ◌, ◌<ℤ◌, ℕ, pos, All, IfOk, IsTrue, Some, length, slice_get};
ghost use Rattle.lf_units.specs.Area.{SharesPoint};
ghost use Rattle.lf_segments.specs.Indexes.{IsIndexOf};
ghost use Rattle.lf_cells.specs.Cells.{cells_of};
ghost use Rattle.lf_legalize.specs.Members.{IsSizedCell};
ghost use Rattle.lf_repair_bounds.specs.FreeRuns.{AreCovered, AreRunsOfStrips, AreRunsOfTeam, CoversSites, HasSites, IsInRow, IsRunOfStrip, IsWidestIn, LiesOnRow};
ghost use Rattle.lf_repair_bounds.specs.Gaps.{placed_team};
ghost use Rattle.lf_repair_bounds.specs.SiteRuns.{SitesRise};

use crate::blocked_boxes::blocked_boxes;
use crate::near_runs::RowRun;
use crate::site_runs::{SiteRange, longest_run, sort_ranges};
use lf_cells::CellTable;
use lf_floorplan::{Frame, Row};
use lf_placement::Placement;
use lf_rules::{Padding, Placed};
use lf_segments::{FrameIndex, Strip};
use lf_units::{RTree, Rect};
use std::alloc::{AllocError, Global};

/// The width of a site, in database units.
fn site_width(frame: &Frame) -> u64
    ensures is { pos result ≡ frame.now.pitch.x }
    ensures positive { 0 < result }
{
    frame.pitch.x.unsigned_abs()
}

/// The distance of x from the left edge of the row.
fn offset_in(row: &Row, x: &i64) -> u64
    requires { row.now.x ≤ℤ x.now }
    ensures { pos result ≡ x.now -ℤ row.now.x }
{
    x.abs_diff(i64::from(row.x))
}

/// The number of sites that end at this offset or in front of it.
fn sites_before(offset: u64, step: u64) -> u64
    requires { 0 < step }
    ensures { (m : ℕ) → (m ≤ result ↔ (m * step) ≤ offset) }
{
    offset / step
}

/// The number of sites that begin in front of this offset.
fn sites_from(offset: u64, step: u64) -> u64
    requires { 0 < step }
    ensures { (m : ℕ) → (result ≤ m ↔ offset ≤ (m * step)) }
{
    offset.div_ceil(step)
}

/// The sites of the row that the rectangle covers in part within this area.
fn covered_sites(row: &Row, step: u64, area: &Rect, rect: &Rect) -> SiteRange
    requires step { 0 < step }
    requires left { row.now.x ≤ℤ area.now.x1 }
    requires overlaps { SharesPoint area.now rect.now }
    ensures { CoversSites row.now.x step area.now rect.now result }
{
    let from = rect.x1.max(area.x1);
    let to = rect.x2.min(area.x2);
    SiteRange {
        from: sites_before(offset_in(row, &from), step),
        to: sites_from(offset_in(row, &to), step),
    }
}

/// The sites of the row that lie in this area.
fn whole_sites(row: &Row, step: u64, area: &Rect) -> SiteRange
    requires step { 0 < step }
    requires left { row.now.x ≤ℤ area.now.x1 }
    requires wide { area.now.x1 <ℤ area.now.x2 }
    ensures { HasSites row.now.x step area.now result }
{
    SiteRange {
        from: sites_from(offset_in(row, &area.x1), step),
        to: sites_before(offset_in(row, &area.x2), step),
    }
}

/// The sites of the row that the boxes cover in part within this area, in order. Each of the boxes
/// shares a point with the area. `Err` if an allocation fails.
fn blocked_sites(
    alloc: Global,
    row: &Row,
    step: u64,
    area: &Rect,
    boxes: &[Placed],
) -> Result<Vec<SiteRange>, AllocError>
    requires step { 0 < step }
    requires left { row.now.x ≤ℤ area.now.x1 }
    requires overlap { All (λ p. SharesPoint area.now p.rect) boxes.now }
    ensures order { IfOk result (λ ranges. SitesRise ranges.items) }
    ensures covered { IfOk result (λ ranges. AreCovered row.now.x step area.now boxes.now ranges.items) }
{
    let mut ranges = Vec::new(alloc);
    for placed in boxes {
        ranges.push(covered_sites(row, step, area, &placed.rect))?;
    }
    sort_ranges(&mut ranges);
    Ok(ranges)
}

/// The product of a number of sites and the width of a site.
fn width_of(count: u64, step: u64) -> u64
    requires { (count * step) < 2 ^ 64 }
    ensures { result ≡ count * step }
{
    count * step
}

/// The width of the widest run of sites in this area of the row that no box overlaps, in database
/// units. 0 if there is no such run. Writes the boxes that overlap the area into `found`.
///
/// `Err` if an allocation fails.
fn widest_in(
    alloc: Global,
    frame: &Frame,
    row: &Row,
    area: &Rect,
    tree: &RTree,
    found: &mut Vec<Placed>,
) -> Result<u64, AllocError>
    requires { LiesOnRow frame.now row.now area.now }
    ensures { IfOk result (IsWidestIn frame.now row.now area.now tree.now) }
{
    let step = site_width(frame);
    tree.find_overlapping(area, found)?;
    let blocked = blocked_sites(alloc, row, step, area, found.as_slice())?;
    let sites = whole_sites(row, step, area);
    let count = longest_run(&sites, blocked.as_slice());
    Ok(width_of(count, step))
}

/// The row at this position.
fn row_at(frame: &Frame, number: usize) -> &Row
    requires { number < length frame.now.rows }
    ensures { slice_get frame.now.rows number ≡ Some result.now }
{
    &frame.rows.as_slice()[number]
}

/// The y of the strip's row, and the width of the widest run of sites in the strip that no box
/// overlaps. `Err` if an allocation fails.
fn run_of_strip(
    alloc: Global,
    frame: &Frame,
    strip: &Strip,
    tree: &RTree,
    found: &mut Vec<Placed>,
) -> Result<RowRun, AllocError>
    requires { IsInRow frame.now strip.now }
    ensures { IfOk result (IsRunOfStrip frame.now tree.now strip.now) }
{
    let row = row_at(frame, strip.row);
    let width = widest_in(alloc, frame, row, &strip.area, tree, found)?;
    Ok(RowRun { y: row.y, width })
}

/// Whether the strip is the team's.
fn is_of(strip: &Strip, team: usize) -> bool
    ensures { IsTrue result ↔ strip.now.team ≡ team }
{
    strip.team == team
}

/// The widest run of each of the team's strips. `Err` if an allocation fails.
fn runs_of_strips(
    alloc: Global,
    frame: &Frame,
    strips: &[Strip],
    team: usize,
    tree: &RTree,
) -> Result<Vec<RowRun>, AllocError>
    requires { All (IsInRow frame.now) strips.now }
    ensures { IfOk result (λ runs. AreRunsOfStrips frame.now team tree.now strips.now runs.items) }
{
    let mut runs = Vec::new(alloc);
    let mut found = Vec::new(alloc);
    for strip in strips {
        if !is_of(strip, team) {
            continue;
        }
        let run = run_of_strip(alloc, frame, strip, tree, &mut found)?;
        runs.push(run)?;
    }
    Ok(runs)
}

/// The widest free run of sites in each strip of the team, with the y of its row. The index is that
/// of the frame. `Err` if an allocation fails.
fn runs_of_team(
    alloc: Global,
    frame: &Frame,
    index: &FrameIndex,
    cells: &CellTable,
    team: usize,
    padding: Padding,
) -> Result<Vec<RowRun>, AllocError>
    requires index { IsIndexOf frame.now index.now }
    requires sized { All (IsSizedCell frame.now) (cells_of cells.now team) }
    ensures { IfOk result (λ runs. AreRunsOfTeam
        (placed_team frame.now team padding.sites (cells_of cells.now team)) runs.items) }
{
    let boxes = blocked_boxes(alloc, frame, cells, team, padding)?;
    let tree = RTree::build(alloc, boxes)?;
    runs_of_strips(alloc, frame, index.strips(), team, &tree)
}

/// The widest free run of sites in each strip of the team, with the y of its row. `Err` if an
/// allocation fails.
pub(crate) fn free_runs(
    alloc: Global,
    placement: &Placement,
    team: usize,
    padding: Padding,
) -> Result<Vec<RowRun>, AllocError>
    ensures { IfOk result (λ runs. AreRunsOfTeam
        (placed_team placement.now.frame team padding.sites (cells_of placement.now.cells team)) runs.items) }
{
    placement.cells_are_sized();
    let plan = placement.indexed_frame();
    let index = plan.index();
    runs_of_team(
        alloc,
        placement.frame(),
        index,
        placement.cells(),
        team,
        padding,
    )
}
