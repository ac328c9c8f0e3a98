//! The gaps of cells: the widest free runs of sites in the rows near given places.

ghost use Rattle.std.specs.Prelude.{◌≡◌, ◌≤◌, IfOk, slice_get};
ghost use Rattle.std.specs.Int.RustNames.{unsigned_abs};
ghost use Rattle.std.specs.Option.{option_map_or};
ghost use Rattle.lf_rules.specs.Choice.{anchor as anchor_of};
ghost use Rattle.lf_cells.specs.Cells.{cells_of};
ghost use Rattle.lf_repair_bounds.specs.FreeRuns.{AreRunsOfTeam};
ghost use Rattle.lf_repair_bounds.specs.Gaps.{AreGaps, IsGapOf, place_at, placed_team};
ghost use Rattle.lf_repair_bounds.specs.MinDisplacements.{corner as corner_of};

use crate::free_runs::free_runs;
use crate::min_displacement::corner;
use crate::near_runs::{RowRun, widest_near};
use lf_floorplan::{Frame, Place};
use lf_legalize::anchor;
use lf_placement::Placement;
use lf_rules::Padding;
use lf_units::Point;
use std::alloc::{AllocError, Global};

/// The number of row heights by which a near row may be farther from a cell than the nearest one.
const NEAR: u64 = 8;

/// The height of a row, in database units.
fn row_height(frame: &Frame) -> u64
    ensures is { result ≡ unsigned_abs frame.now.pitch.y }
    ensures small { result ≤ 20000000000 }
{
    frame.pitch.y.unsigned_abs()
}

/// The place at this position in the list. `None` also past its end.
fn place_at(places: &[Option<Place>], own: usize) -> Option<Place>
    ensures { result ≡ place_at places.now own }
{
    *places.get(own)?
}

/// The corner of the place at this position in the list, or the team's anchor if there is no place.
fn target_of(placement: &Placement, team: usize, places: &[Option<Place>], own: usize) -> Point
    ensures { result ≡ option_map_or corner_of (place_at places.now own) (anchor_of placement.now.frame team) }
{
    match place_at(places, own) {
        Some(place) => corner(&place),
        None => anchor(placement.frame(), team),
    }
}

/// The gap of the team's cell at position `own` near its place in the list, given the widest free runs
/// of the team's strips.
fn gap_of(
    placement: &Placement,
    team: usize,
    padding: Padding,
    runs: &[RowRun],
    places: &[Option<Place>],
    own: u32,
) -> u64
    requires { AreRunsOfTeam
        (placed_team placement.now.frame team padding.sites (cells_of placement.now.cells team)) runs.now }
    ensures { IsGapOf (placed_team placement.now.frame team padding.sites (cells_of placement.now.cells team))
        (place_at places.now) own result }
{
    let Some(id) = placement.cells().cell_of(team, own as usize) else {
        return 0;
    };
    let target = target_of(placement, team, places, id.own as usize);
    widest_near(runs, &target, NEAR * row_height(placement.frame()))
}

/// The gap of each of the team's cells at these positions, in database units. `places` has the place of
/// each cell of the team near which its gap is searched for, in loading order.
///
/// A *free run* is a run of sites of a row that the team may use, off soft blockages and off its
/// placed cells with their padding. The gap of a cell is the width of the widest free run in the
/// rows near its place in the list, or near its team's anchor if the list has none. Near are the rows
/// that are at most 8 row heights farther from it along y than the team's nearest row. A gap is 0 if
/// there is no free run, no such cell or no such team.
///
/// `Err` if an allocation fails.
pub fn widest_gaps(
    alloc: Global,
    placement: &Placement,
    team: usize,
    padding: Padding,
    places: &[Option<Place>],
    owns: &[u32],
) -> Result<Vec<u64>, AllocError>
    ensures { IfOk result (λ gaps. AreGaps
        (placed_team placement.now.frame team padding.sites (cells_of placement.now.cells team))
        (place_at places.now) owns.now gaps.items) }
{
    let mut gaps = Vec::with_capacity(alloc, owns.len())?;
    if owns.is_empty() {
        return Ok(gaps);
    }
    let runs = free_runs(alloc, placement, team, padding)?;
    for own in owns {
        let gap = gap_of(placement, team, padding, runs.as_slice(), places, *own);
        gaps.push(gap)?;
    }
    Ok(gaps)
}
