//! The strips of a frame, widened by 16 core sites, the greatest padding.

ghost use Rattle.std.specs.Prelude.{◌≡◌, ◌≢◌, ◌<◌, ◌*ℤ◌, AllPairs, length, pos, slice_index_or};
ghost use Rattle.lf_segments.specs.declared.strip.Strip.{Strip};
ghost use Rattle.lf_segments.specs.Strips.{AreNear, AreRowsNear};
ghost use Rattle.lf_rules.specs.Padding.{IsShort};
ghost use Rattle.lf_occupancy.specs.MarkLists.{IsNearZero};
ghost use Rattle.lf_occupancy.specs.Strips.{IsSiteWidth, widened_strips};

use lf_rules::widen;
use lf_segments::{FrameIndex, RowEntry, StripRange};
use lf_units::Rect;

/// A bound: no widened strip lies farther from 0 along x.
const FAR: i64 = 1_099_511_627_776;

/// The widened strips: the frame's index, and the width of a core site in database units.
#[derive(Clone, Copy)]
pub(crate) struct WidenedStrips<'a> {
    pub(crate) index: &'a FrameIndex,
    pub(crate) site: &'a i64,
    pub(crate) ghost site_width: { IsSiteWidth site.now },
}

/// Rows, each of them once.
#[derive(Clone, Copy)]
pub(crate) struct DistinctRows<'a> {
    pub(crate) rows: &'a [RowEntry],
    pub(crate) ghost once: { AllPairs (λ a b. a.row ≢ b.row) rows.now },
}

/// The greatest padding as a length, in database units: 16 core sites.
pub(crate) fn reach_of(strips: &WidenedStrips<'_>) -> i64
    ensures is { result ≡ pos 16 *ℤ strips.now.site.now }
    ensures short { IsShort result }
{
    16 * *strips.site
}

/// Returns the rows whose strips may share a point with the rectangle.
pub(crate) fn distinct_rows<'a>(strips: &WidenedStrips<'a>, rect: &Rect) -> DistinctRows<'a>
    ensures { AreRowsNear strips.now.index.now.rows strips.now.index.now.height rect.now result.rows.now }
{
    strips.index.strips_are_placed();
    DistinctRows {
        rows: strips.index.rows_near(rect),
    }
}

/// The team's strips in this row which, widened by the greatest padding, overlap the rectangle in
/// x.
pub(crate) fn widened_strips(
    strips: &WidenedStrips<'_>,
    row: usize,
    team: usize,
    rect: &Rect,
) -> StripRange
    ensures { AreNear (widened_strips strips.now.site.now strips.now.index.now.strips) row team rect.now.x1 rect.now.x2
        result.start result.end }
{
    strips.index.strips_are_placed();
    let reach = reach_of(strips);
    let lo = rect.x1.max(-FAR) - reach;
    let hi = rect.x2.min(FAR) + reach;
    strips.index.strips_overlapping(row, team, &lo, &hi)
}

/// The area of the strip with this number, widened.
pub(crate) fn widened_area(strips: &WidenedStrips<'_>, number: usize) -> Rect
    requires { number < length (widened_strips strips.now.site.now strips.now.index.now.strips) }
    ensures is { (d : Strip) → result
        ≡ (slice_index_or (widened_strips strips.now.site.now strips.now.index.now.strips) number d).area }
    ensures near { IsNearZero result }
{
    strips.index.strips_are_placed();
    widen(&strips.index.strips()[number].area, reach_of(strips))
}
