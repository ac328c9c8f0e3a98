//! The free sites of a team.

ghost use Rattle.std.specs.Prelude.{◌<ℤ◌, negsuc};

use lf_floorplan::Frame;
use lf_orient::Orient;
use lf_repair_planner::{FreeRows, FreeSpan, PlannerRow, RowKind};
use lf_rules::Padding;
use lf_segments::{IndexedFrame, Segment};
use std::alloc::{AllocError, Global};

/// A team, by its number, and the padding of its cells, in database units.
#[derive(Clone, Copy)]
pub struct PaddedTeam {
    pub team: usize,
    pub(crate) pad: i64,
}

impl PaddedTeam {
    /// The team with this number on this frame, whose cells have this padding.
    pub fn new(frame: &Frame, team: usize, padding: Padding) -> PaddedTeam {
        PaddedTeam {
            team,
            pad: (padding.sites as i64).saturating_mul(frame.pitch.x),
        }
    }

    /// The padding, in database units.
    pub fn padding(&self) -> i64 {
        self.pad
    }
}

/// A blocked span of a row, from `lo` on and below `hi`, in database units.
#[derive(Clone, Copy, PartialEq, Eq, PartialOrd, Ord)]
pub(crate) struct BlockedSpan {
    row: usize,
    lo: i64,
    hi: i64,
}

/// The area of a cell: a range of x and one of y, in database units.
#[derive(Clone, Copy)]
pub(crate) struct Area {
    pub(crate) x1: i64,
    pub(crate) x2: i64,
    pub(crate) y1: i64,
    pub(crate) y2: i64,
}

/// The sites of a row: the x of the first one, and their distance. A cell needs `pad` more room on
/// its right.
#[derive(Clone, Copy)]
struct Grid {
    x: i64,
    step: i64,
    pad: i64,
}

/// Appends the spans of the rows that an area covers, widened by `pad` on both sides.
pub(crate) fn take_area(
    frame: &IndexedFrame<'_>,
    area: &Area,
    pad: i64,
    taken: &mut Vec<BlockedSpan>,
) -> Result<(), AllocError> {
    for entry in frame.rows_between(area.y1, area.y2) {
        taken.push(BlockedSpan {
            row: entry.row,
            lo: area.x1.saturating_sub(pad),
            hi: area.x2.saturating_add(pad),
        })?;
    }
    Ok(())
}

/// Appends the spans of the team's segments that soft blockages cover.
pub(crate) fn take_soft(
    frame: &IndexedFrame<'_>,
    team: usize,
    taken: &mut Vec<BlockedSpan>,
) -> Result<(), AllocError> {
    for (number, segment) in frame.index().segments().as_slice().iter().enumerate() {
        if segment.team == team {
            for span in frame.soft_of(number) {
                taken.push(BlockedSpan {
                    row: segment.row,
                    lo: span.lo,
                    hi: span.hi,
                })?;
            }
        }
    }
    Ok(())
}

/// Whether the team has a soft blockage in the row at `y`, in the range of x from `lo` on and below
/// `hi`.
pub(crate) fn is_soft_at(frame: &IndexedFrame<'_>, team: usize, y: i64, lo: i64, hi: i64) -> bool {
    let index = frame.index();
    for entry in frame.rows_at(y) {
        let strips = index.strips_overlapping(entry.row, team, &lo, &hi);
        for strip in strips.start..strips.end {
            let mut spans = frame.soft_of(strip).iter();
            if spans.any(|span| span.lo < hi && lo < span.hi) {
                return true;
            }
        }
    }
    false
}

/// The number limited to the range of 32 bits.
fn clipped(number: i64) -> u32 {
    number.clamp(0, 4_294_967_295) as u32
}

/// The number limited to the range of DEF coordinates.
pub(crate) fn coordinate(number: i64) -> i32
    ensures { negsuc 2147483647 <ℤ result }
{
    number.clamp(-2_147_483_647, 2_147_483_647) as i32
}

/// Appends the sites from `lo` on and below `hi`.
fn push_sites(spans: &mut Vec<FreeSpan>, lo: i64, hi: i64, grid: &Grid) -> Result<(), AllocError> {
    let step = grid.step.max(1);
    let before = lo.saturating_sub(grid.x).saturating_add(step - 1);
    let first = before
        .div_euclid(step)
        .saturating_mul(step)
        .saturating_add(grid.x);
    let count = hi
        .saturating_add(grid.pad)
        .saturating_sub(first)
        .div_euclid(step);
    if 0 < count {
        spans.push(FreeSpan {
            first: coordinate(first),
            step: clipped(step),
            count: clipped(count),
        })?;
    }
    Ok(())
}

/// Appends the free sites of a segment: those that no blocked span covers.
fn push_free(
    spans: &mut Vec<FreeSpan>,
    taken: &[BlockedSpan],
    segment: &Segment,
    grid: &Grid,
) -> Result<(), AllocError> {
    let begin = taken.partition_point(|one| one.row < segment.row);
    let mut lo = segment.span.lo;
    for one in &taken[begin..] {
        if one.row != segment.row || segment.span.hi <= one.lo {
            break;
        }
        if lo < one.lo {
            push_sites(spans, lo, one.lo, grid)?;
        }
        lo = lo.max(one.hi);
    }
    if lo < segment.span.hi {
        push_sites(spans, lo, segment.span.hi, grid)?;
    }
    Ok(())
}

/// The kind of a row of this orientation.
fn kind_of(orient: Orient) -> RowKind {
    match orient {
        Orient::S => RowKind::S,
        Orient::FN => RowKind::FN,
        Orient::FS => RowKind::FS,
        _ => RowKind::N,
    }
}

/// Appends the free sites of the team in the row at position `number`.
fn push_row(
    plan: &IndexedFrame<'_>,
    frame: &Frame,
    team: &PaddedTeam,
    number: usize,
    taken: &[BlockedSpan],
    free_rows: &mut FreeRows,
) -> Result<(), AllocError> {
    let Some(row) = frame.rows.as_slice().get(number) else {
        return Ok(());
    };
    let grid = Grid {
        x: row.x as i64,
        step: frame.pitch.x,
        pad: team.pad,
    };
    let first = free_rows.spans.len();
    for segment in plan.index().segments().of_row(number, team.team) {
        push_free(&mut free_rows.spans, taken, segment, &grid)?;
    }
    let last = free_rows.spans.len();
    if first < last {
        free_rows.rows.push(PlannerRow {
            y: row.y,
            kind: kind_of(row.orient),
            first,
            last,
        })?;
    }
    Ok(())
}

/// The free sites of the team, outside the spans in `taken`, in rows by rising y. `Err` if an
/// allocation fails.
pub(crate) fn free_rows_beside(
    alloc: Global,
    plan: &IndexedFrame<'_>,
    frame: &Frame,
    team: &PaddedTeam,
    taken: &mut Vec<BlockedSpan>,
) -> Result<FreeRows, AllocError> {
    taken.sort_unstable();
    let mut free_rows = FreeRows::new(alloc);
    for entry in plan.rows_between(i64::MIN, i64::MAX) {
        push_row(
            plan,
            frame,
            team,
            entry.row,
            taken.as_slice(),
            &mut free_rows,
        )?;
    }
    Ok(free_rows)
}
