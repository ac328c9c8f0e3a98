//! Counts the result of repairing a team.

ghost use Rattle.std.specs.Prelude.{◌≡◌, ◌≢◌, ◌≤◌, ◌↔◌, IsSome, IsTrue, None, Some, length, slice_get, sum};
ghost use Rattle.lf_cells.specs.Cells.{cells_of, working_at};
ghost use Rattle.lf_floor_model.specs.States.{TeamState};
ghost use Rattle.lf_repair_team.specs.CellEdits.{CountsIf, CountsOneCell, AreStatsOfFirst};
ghost use Rattle.lf_repair_strategy.specs.Targets.{target_at};
ghost use Rattle.lf_repair_team.specs.Stats.{AreTurned, all_displacements, displacement, means_of};

use crate::cell_edits::is_locked;
use crate::means::{mean_by_height, mean_in_rows, row_height};
use crate::outcome::{RepairOutcome, target_place};
use lf_floor::Floor;
use lf_floorplan::{Place, same_place};
use lf_legalize::Seeker;
use lf_placement::Placement;
use lf_repair_strategy::{DisplacementMeans, RepairInput, RepairStats};

/// The distance |dx| + |dy| between two places. 0 if one of them is `None`.
pub(crate) fn displacement(wanted_place: Option<Place>, now: Option<Place>) -> u64
    ensures way { result ≡ displacement wanted_place now }
    ensures short { result ≤ 8589934590 }
{
    match (wanted_place, now) {
        (Some(wanted_place), Some(now)) => {
            u64::from(wanted_place.x.abs_diff(now.x)) + u64::from(wanted_place.y.abs_diff(now.y))
        }
        _ => 0,
    }
}

/// Whether both are places, with different orientations.
fn is_turned(wanted_place: Option<Place>, now: Option<Place>) -> bool
    ensures { IsTrue result ↔ AreTurned wanted_place now }
{
    match (wanted_place, now) {
        (Some(wanted_place), Some(now)) => wanted_place.orient != now.orient,
        _ => false,
    }
}

/// Whether there was no place and there is one now.
fn is_placed(wanted_place: Option<Place>, now: Option<Place>) -> bool
    ensures { IsTrue result ↔ ((wanted_place ≡ None) × IsSome now) }
{
    match (wanted_place, now) {
        (None, Some(_)) => true,
        _ => false,
    }
}

/// Whether a cell was legal, and its place is unchanged.
fn is_kept(wanted_place: Option<Place>, now: Option<Place>, was_legal: bool) -> bool
    ensures { IsTrue result ↔ (IsTrue was_legal × (now ≡ wanted_place)) }
{
    was_legal && same_place(now, wanted_place)
}

/// Whether a cell was legal, and its place changed.
fn is_displaced(wanted_place: Option<Place>, now: Option<Place>, was_legal: bool) -> bool
    ensures { IsTrue result ↔ (IsTrue was_legal × (now ≢ wanted_place)) }
{
    was_legal && !same_place(now, wanted_place)
}

/// The count, increased by one if `so` is true.
fn counted(count: u32, so: bool) -> u32
    ensures { CountsIf (IsTrue so) count result }
{
    if so { count.saturating_add(1) } else { count }
}

/// Counts a cell, given its original and its present place, and whether it was legal.
fn count_cell(
    wanted_place: Option<Place>,
    now: Option<Place>,
    was_legal: bool,
    reported: &mut RepairStats,
)
    ensures changed { reported.new.changed ≡ reported.old.changed }
    ensures left { reported.new.unrepaired ≡ reported.old.unrepaired }
    ensures reported { CountsOneCell wanted_place now (IsTrue was_legal) reported.old reported.new }
{
    let far = displacement(wanted_place, now);
    reported.cells = counted(reported.cells, !was_legal);
    reported.kept = counted(reported.kept, is_kept(wanted_place, now, was_legal));
    reported.displaced_legal = counted(
        reported.displaced_legal,
        is_displaced(wanted_place, now, was_legal),
    );
    reported.moved = counted(reported.moved, 0 < far);
    reported.placed = counted(reported.placed, is_placed(wanted_place, now));
    reported.turned = counted(reported.turned, is_turned(wanted_place, now));
    reported.total_displacement = reported.total_displacement.saturating_add(far);
    reported.max_displacement = reported.max_displacement.max(far);
}

/// Statistics of a team's repair, given each cell's original place and whether it was legal there.
fn count_cells(
    placement: &Placement,
    number: usize,
    targets: &[Option<Place>],
    marks: &[bool],
    found: RepairOutcome,
) -> RepairStats
    ensures changed { result.changed ≡ found.changed }
    ensures left { result.unrepaired ≡ found.left }
    ensures tally { AreStatsOfFirst targets.now marks.now (cells_of placement.now.cells number)
        (length (cells_of placement.now.cells number)) result }
{
    placement.cells_are_sized();
    let RepairOutcome { changed, left } = found;
    let mut reported = RepairStats {
        cells: 0,
        kept: 0,
        moved: 0,
        placed: 0,
        displaced_legal: 0,
        turned: 0,
        total_displacement: 0,
        max_displacement: 0,
        means: DisplacementMeans {
            all: 0,
            by_height: 0,
        },
        changed,
        unrepaired: left,
    };
    for id in placement.cells().cells_of(number) {
        let now = placement.cells().working(*id);
        let wanted_place = target_place(targets, id.own as usize);
        let was_legal = is_locked(marks, id.own as usize);
        count_cell(wanted_place, now, was_legal, &mut reported);
    }
    reported
}

/// The means of the displacements of the cells of the team with this number, given the original place
/// of each and their total displacement.
fn means_of(
    placement: &Placement,
    number: usize,
    targets: &[Option<Place>],
    total: u64,
) -> DisplacementMeans
    requires { total ≡ sum (all_displacements (target_at targets.now)
        (working_at (cells_of placement.now.cells number)) (length (cells_of placement.now.cells number))) }
    ensures { result ≡ means_of placement.now.frame (cells_of placement.now.cells number) (target_at targets.now)
        (working_at (cells_of placement.now.cells number)) }
{
    let count = placement.cells().cells_of(number).len() as u64;
    DisplacementMeans {
        all: mean_in_rows(row_height(placement.frame()), total, count),
        by_height: mean_by_height(placement, number, targets),
    }
}

/// Statistics of the repair of the team with this number, given its outcome.
pub fn stats_of<S: Seeker + Drop>(
    floor: &Floor<S>,
    number: usize,
    input: &RepairInput,
    found: RepairOutcome,
) -> RepairStats
    ensures changed { result.changed ≡ found.changed }
    ensures left { result.unrepaired ≡ found.left }
    ensures tally { (s : TeamState) → slice_get floor.now.teams number ≡ Some s
        → AreStatsOfFirst input.now.pass.targets.items input.now.legal.items s.cells (length s.cells) result }
    ensures means { (s : TeamState) → slice_get floor.now.teams number ≡ Some s
        → result.means ≡ means_of floor.now.frame s.cells (target_at input.now.pass.targets.items)
        (working_at s.cells) }
{
    let placement = floor.placement();
    let targets = input.pass.targets.as_slice();
    let mut stats = count_cells(placement, number, targets, input.legal.as_slice(), found);
    stats.means = means_of(placement, number, targets, stats.total_displacement);
    stats
}
