//! The refusals of loading for rows.

ghost use Rattle.std.specs.Prelude.{[], ◌≡◌, ◌≢◌, ◌↔◌, ℕ, ℤ, pos, ◌<◌, ◌≤◌, ◌<ℤ◌, ◌≤ℤ◌, ◌+ℤ◌, ◌*ℤ◌, ◌++◌, true, None, All, Any};
ghost use Rattle.std.specs.Prelude.{IsTrue, IfSome, IfOk, OnOk, MatchOption, length};
ghost use Rattle.std.specs.Option.{option_copied};
ghost use Rattle.lf_units.specs.Area.{SharesPoint};
ghost use Rattle.lf_lef.specs.Lengths.{HasRange};
ghost use Rattle.lf_def.specs.Ranges.{IsRow};
ghost use Rattle.lf_floorplan.specs.Rows.{row_area};
ghost use Rattle.lf_frame.specs.Entries.{FirstIs};
ghost use Rattle.lf_frame.specs.Loading.{site_named, is_core, core_row as core_row_of, core_site as core_site_of, is_core_row as row_is_core, frame_row};
ghost use Rattle.lf_frame.specs.Sweep.{piece_of, row_pieces as row_pieces_of, ArePiecesOf};
ghost use Rattle.lf_frame.specs.Refusals.{HasNoSite, IsVertical, HasBadStep, IsSideways, OverlapsEarlierRow, IsRowTooMany, EndsTooFar};

use crate::component_checks::has_size;
use crate::pitch::Pitch;
use crate::sweep::{SweepRect, none_clash};
use lf_def::RowStatement;
use lf_floorplan::Site;
use lf_lef::Library;
use lf_orient::row_rail;
use std::alloc::{AllocError, Global};

/// Returns the site with this name, or `None` if there is no such site.
pub(crate) fn site_named<'l>(library: &'l Library, name: &[u8]) -> Option<&'l Site>
    ensures site { option_copied result ≡ site_named library.now name.now }
    ensures range { IfSome result (λ s. HasRange s.now.size) }
{
    library.sites().get(library.find_site(name)?)
}

/// True if the row's site has CLASS CORE and a SIZE with both lengths above 0.
fn has_core_site(row: &RowStatement, library: &Library) -> bool
    ensures { result ≡ is_core (site_named library.now row.now.site) }
{
    match site_named(library, row.site.as_bytes()) {
        Some(site) => site.core && has_size(&site.size),
        None => false,
    }
}

/// Returns the first row whose site has CLASS CORE and a SIZE with both lengths above 0, or `None`.
fn core_row<'d>(rows: &'d [RowStatement], library: &Library) -> Option<&'d RowStatement>
    ensures { option_copied result ≡ core_row_of library.now rows.now }
{
    rows.iter().find(|row| has_core_site(row, library))
}

/// Returns the core site: that of the first row whose site has CLASS CORE and a SIZE with both
/// lengths above 0. `None` if there is no such row.
pub(crate) fn core_site<'l>(library: &'l Library, rows: &[RowStatement]) -> Option<&'l Site>
    ensures core { option_copied result ≡ core_site_of library.now rows.now }
    ensures range { IfSome result (λ s. HasRange s.now.size) }
{
    match core_row(rows, library) {
        Some(row) => site_named(library, row.site.as_bytes()),
        None => None,
    }
}

/// True if no LEF text has the row's site.
fn has_no_site(row: &RowStatement, library: &Library) -> bool
    ensures { IsTrue result ↔ HasNoSite library.now [] row.now }
{
    site_named(library, row.site.as_bytes()).is_none()
}

/// Returns the number of the first row whose site no LEF text has, or `None`.
pub(crate) fn first_without_site(rows: &[RowStatement], library: &Library) -> Option<usize>
    ensures { FirstIs (HasNoSite library.now) rows.now result }
{
    for (number, row) in rows.iter().enumerate() {
        if has_no_site(row, library) {
            return Some(number);
        }
    }
    None
}

/// True if the row is a core row: its site is the core site.
pub fn is_core_row(row: &RowStatement, core: &Site) -> bool
    ensures { result ≡ row_is_core core.now row.now }
{
    row.site.is(core.name.as_bytes())
}

/// True if the row is a core row whose numY is not 1.
fn is_vertical(row: &RowStatement, core: &Site) -> bool
    ensures { IsTrue result ↔ IsVertical core.now [] row.now }
{
    is_core_row(row, core) && row.sites_y != 1
}

/// Returns the number of the first core row whose numY is not 1, or `None`.
pub(crate) fn first_vertical(rows: &[RowStatement], core: &Site) -> Option<usize>
    ensures { FirstIs (IsVertical core.now) rows.now result }
{
    for (number, row) in rows.iter().enumerate() {
        if is_vertical(row, core) {
            return Some(number);
        }
    }
    None
}

/// True if the row is a core row of several sites whose step is not the width of its site.
fn has_bad_step(row: &RowStatement, core: &Site, pitch: &Pitch) -> bool
    ensures { IsTrue result ↔ HasBadStep core.now pitch.now.size [] row.now }
{
    match row.step {
        Some(step) => is_core_row(row, core) && 1 < row.sites_x && step.x != pitch.size.x,
        None => false,
    }
}

/// Returns the number of the first core row of several sites whose step is not the site's width, or
/// `None`.
pub(crate) fn first_bad_step(rows: &[RowStatement], core: &Site, pitch: &Pitch) -> Option<usize>
    ensures { FirstIs (HasBadStep core.now pitch.now.size) rows.now result }
{
    for (number, row) in rows.iter().enumerate() {
        if has_bad_step(row, core, pitch) {
            return Some(number);
        }
    }
    None
}

/// True if the row is a core row that is neither N, S, FN nor FS.
fn is_turned(row: &RowStatement, core: &Site) -> bool
    ensures { IsTrue result ↔ IsSideways core.now [] row.now }
{
    is_core_row(row, core) && row_rail(row.orient).is_none()
}

/// Returns the number of the first core row that is neither N, S, FN nor FS, or `None`.
pub(crate) fn first_turned(rows: &[RowStatement], core: &Site) -> Option<usize>
    ensures { FirstIs (IsSideways core.now) rows.now result }
{
    for (number, row) in rows.iter().enumerate() {
        if is_turned(row, core) {
            return Some(number);
        }
    }
    None
}

/// Returns the number of the first core row beyond the limit, or `None`.
pub(crate) fn first_row_too_many(rows: &[RowStatement], core: &Site, limit: usize) -> Option<usize>
    ensures { FirstIs (IsRowTooMany core.now limit) rows.now result }
{
    let mut core_ones = 0;
    for (number, row) in rows.iter().enumerate() {
        if is_core_row(row, core) {
            if limit <= core_ones {
                return Some(number);
            }
            core_ones += 1;
        }
    }
    None
}

/// Returns the width of all sites of a row in database units, which may exceed 64 bits.
fn full_width(row: &RowStatement, pitch: &Pitch) -> i128
    ensures { result ≡ pos row.now.sites_x *ℤ pitch.now.size.x }
{
    i128::from(row.sites_x) * i128::from(pitch.size.x)
}

/// Returns the x at which the row ends, which may exceed 64 bits.
fn right_edge(row: &RowStatement, pitch: &Pitch) -> i128
    requires row { IsRow row.now }
    ensures { result ≡ (row_area pitch.now.size (frame_row row.now)).x2 }
{
    i128::from(row.x) + full_width(row, pitch)
}

/// True if the row's upper edge is at or below the other's lower edge.
fn is_below(row: &RowStatement, other: &RowStatement, pitch: &Pitch) -> bool
    requires row { IsRow row.now }
    ensures { IsTrue result ↔ ((row.now.y +ℤ pitch.now.size.y) ≤ℤ other.now.y) }
{
    row.y + pitch.size.y <= other.y
}

/// True if the row ends at the x at which the other begins, or left of it.
fn ends_before(row: &RowStatement, other: &RowStatement, pitch: &Pitch) -> bool
    requires row { IsRow row.now }
    ensures { IsTrue result ↔ ((row_area pitch.now.size (frame_row row.now)).x2 ≤ℤ other.now.x) }
{
    right_edge(row, pitch) <= i128::from(other.x)
}

/// True if the two rows share a point.
fn do_rows_meet(first: &RowStatement, second: &RowStatement, pitch: &Pitch) -> bool
    requires first { IsRow first.now }
    requires second { IsRow second.now }
    ensures { IsTrue result
        ↔ SharesPoint (row_area pitch.now.size (frame_row first.now)) (row_area pitch.now.size (frame_row second.now)) }
{
    if is_below(second, first, pitch) {
        return false;
    }
    if is_below(first, second, pitch) {
        return false;
    }
    if ends_before(second, first, pitch) {
        return false;
    }
    !ends_before(first, second, pitch)
}

/// True if a core row of the list shares a point with this row.
fn overlaps_one_of(row: &RowStatement, earlier: &[RowStatement], core: &Site, pitch: &Pitch) -> bool
    requires row { IsRow row.now }
    requires each { All IsRow earlier.now }
    ensures { IsTrue result ↔ Any (λ e. (row_is_core core.now e ≡ true)
        × SharesPoint (row_area pitch.now.size (frame_row e)) (row_area pitch.now.size (frame_row row.now)))
        earlier.now }
{
    for other in earlier {
        if is_core_row(other, core) && do_rows_meet(other, row, pitch) {
            return true;
        }
    }
    false
}

/// Returns the number of the first core row that shares a point with an earlier one, or `None`.
/// Compares all pairs.
fn row_overlap_by_pairs(rows: &[RowStatement], core: &Site, pitch: &Pitch) -> Option<usize>
    requires each { All IsRow rows.now }
    ensures { FirstIs (OverlapsEarlierRow core.now pitch.now.size) rows.now result }
{
    for (number, row) in rows.iter().enumerate() {
        if is_core_row(row, core) && overlaps_one_of(row, &rows[..number], core, pitch) {
            return Some(number);
        }
    }
    None
}

/// Returns the row as a piece of the sweep.
fn row_piece(number: usize, row: &RowStatement, pitch: &Pitch) -> SweepRect
    requires row { IsRow row.now }
    ensures { result ≡ piece_of number (row_area pitch.now.size (frame_row row.now)) }
{
    SweepRect {
        entry: number,
        left: row.x,
        right: right_edge(row, pitch),
        bottom: row.y,
        top: row.y + pitch.size.y,
    }
}

/// Appends the row as a piece, if it is a core row.
fn push_row(
    pieces: &mut Vec<SweepRect>,
    number: usize,
    row: &RowStatement,
    core: &Site,
    pitch: &Pitch,
) -> Result<(), AllocError>
    requires row { IsRow row.now }
    ensures { OnOk result
        (pieces.new.items ≡ pieces.old.items ++ row_pieces_of core.now pitch.now.size number row.now) }
{
    if is_core_row(row, core) {
        pieces.push(row_piece(number, row, pitch))?;
    }
    Ok(())
}

/// Returns the core rows as pieces of the sweep. `Err` if an allocation fails.
fn row_pieces(
    alloc: Global,
    rows: &[RowStatement],
    core: &Site,
    pitch: &Pitch,
) -> Result<Vec<SweepRect>, AllocError>
    requires each { All IsRow rows.now }
    ensures { IfOk result (λ pieces. ArePiecesOf (row_pieces_of core.now pitch.now.size) rows.now pieces.items) }
{
    let mut pieces = Vec::new(alloc);
    for (number, row) in rows.iter().enumerate() {
        push_row(&mut pieces, number, row, core, pitch)?;
    }
    Ok(pieces)
}

/// Returns the number of the first core row that shares a point with an earlier one, or `None`.
/// Takes the time of a sort if there is no such row and few rows overlap in y. `Err` if an
/// allocation fails.
pub(crate) fn first_row_overlap(
    alloc: Global,
    rows: &[RowStatement],
    core: &Site,
    pitch: &Pitch,
) -> Result<Option<usize>, AllocError>
    requires each { All IsRow rows.now }
    ensures { IfOk result (λ found. FirstIs (OverlapsEarlierRow core.now pitch.now.size) rows.now found) }
{
    let mut pieces = row_pieces(alloc, rows, core, pitch)?;
    if none_clash(&mut pieces) {
        return Ok(None);
    }
    Ok(row_overlap_by_pairs(rows, core, pitch))
}

/// True if the row is a core row that ends past the largest coordinate.
fn ends_too_far(row: &RowStatement, core: &Site, pitch: &Pitch) -> bool
    requires row { IsRow row.now }
    ensures { IsTrue result ↔ EndsTooFar core.now pitch.now.size [] row.now }
{
    is_core_row(row, core) && 2_147_483_647 < right_edge(row, pitch)
}

/// Returns the number of the first core row that ends past the largest coordinate, or `None`.
pub(crate) fn first_too_far(rows: &[RowStatement], core: &Site, pitch: &Pitch) -> Option<usize>
    requires each { All IsRow rows.now }
    ensures { FirstIs (EndsTooFar core.now pitch.now.size) rows.now result }
{
    for (number, row) in rows.iter().enumerate() {
        if ends_too_far(row, core, pitch) {
            return Some(number);
        }
    }
    None
}
