//! Makes room for places by counting boxes. No cell is moved.

ghost use Rattle.std.specs.Prelude.{◌≡◌, ◌≢◌, ◌<◌, ◌≤◌, [], IfOk, List, None, OnOk, Option, Some, length, option_map, slice_get, slice_set, ℕ};
ghost use Rattle.lf_units.specs.declared.geometry.Rect.{Rect};
ghost use Rattle.lf_floorplan.specs.Boxes.{IsSized, size_of};
ghost use Rattle.lf_floorplan.specs.Sizes.{box_at, turned};
ghost use Rattle.lf_cells.specs.Cells.{cells_of, committed_at, working_at};
ghost use Rattle.lf_occupancy.specs.Floorplans.{boxes_in};
ghost use Rattle.lf_occupancy.specs.Views.{Bounds, FitIn, KeepsCapacities};
ghost use Rattle.lf_occupancy.specs.Strips.{MarksBoxes, with_boxes, capacities_in};
ghost use Rattle.lf_undo.specs.Entries.{Places};
ghost use Rattle.lf_placement.specs.Placements.{boxes_at, committed_of, working_places_of};
ghost use Rattle.lf_placement.specs.Steps.{KeepsMarks, box_moved};

use crate::sized_cells::SizedCells;
use lf_cells::CellId;
use lf_floorplan::{Frame, Macro, PackedPlace, Place, same_place};
use lf_occupancy::{Occupancy, StripCounts, team_count};
use lf_rules::box_of;
use lf_units::Rect;
use std::alloc::{AllocError, Global};

/// A cell of a team, by its position, and two of its places.
#[derive(Clone, Copy)]
pub(crate) struct Change {
    pub(crate) own: u32,
    pub(crate) from: PackedPlace,
    pub(crate) to: PackedPlace,
}

/// The box of a cell of this macro at a place. `None` if there is no place.
fn box_of_macro(frame: &Frame, mac: &Macro, place: Option<Place>) -> Option<Rect>
    requires { IsSized frame.now mac.now }
    ensures { result ≡ option_map (λ p. box_at (turned (size_of frame.now mac.now) p.orient) p.x p.y) place }
{
    Some(box_of(frame, mac, &place?))
}

/// The boxes of the team's cell at position `change.own`, at both places of the change. `None` for
/// each place that is missing, or if there is no such cell.
fn boxes_of_change(
    sized: &SizedCells<'_>,
    team: usize,
    change: &Change,
) -> (Option<Rect>, Option<Rect>)
    ensures from { result.0
        ≡ box_moved sized.now.frame.now (slice_get (cells_of sized.now.cells.now team) change.now.own) change.now.from }
    ensures to { result.1
        ≡ box_moved sized.now.frame.now (slice_get (cells_of sized.now.cells.now team) change.now.own) change.now.to }
{
    let Some(id) = sized.cells.cell_of(team, change.own as usize) else {
        return (None, None);
    };
    let Some(cell_placement) = sized.cells.placement_of(id) else {
        return (None, None);
    };
    let mac = &sized.frame.macros.as_slice()[cell_placement.mac];
    let from = box_of_macro(sized.frame, mac, change.from.place());
    let to = box_of_macro(sized.frame, mac, change.to.place());
    (from, to)
}

/// Counts a cell at the new place of the change, and no longer at the old one. Makes the room that
/// is then lacking. `Err` if an allocation fails.
pub(crate) fn reserve_change(
    sized: &SizedCells<'_>,
    occupancy: &mut Occupancy,
    counts: &mut StripCounts,
    team: usize,
    change: &Change,
) -> Result<(), AllocError>
    requires { KeepsCapacities counts.old (capacities_in occupancy.old.mark_lists) }
    ensures room { OnOk result (KeepsCapacities counts.new (capacities_in occupancy.new.mark_lists)) }
    ensures own { (places : Places) → slice_get places change.now.own ≡ Some change.now.from
        → Bounds (with_boxes occupancy.old []) team
        (boxes_at sized.now.frame.now (cells_of sized.now.cells.now team) places) counts.old
        → OnOk result (Bounds (with_boxes occupancy.new []) team
        (boxes_at sized.now.frame.now (cells_of sized.now.cells.now team)
        (slice_set places change.now.own change.now.to)) counts.new) }
    ensures others { (boxes : List (Option Rect)) → (other : ℕ) → other ≢ team
        → Bounds (with_boxes occupancy.old []) other boxes counts.old
        → OnOk result (Bounds (with_boxes occupancy.new []) other boxes counts.new) }
    ensures gains { KeepsMarks occupancy.old occupancy.new }
{
    let (from, to) = boxes_of_change(sized, team, change);
    occupancy.reserve_counted(counts, team, &from, &to)
}

/// Counts a cell at its committed place in place of its working one. `Err` if an allocation fails.
fn fit_committed(
    sized: &SizedCells<'_>,
    occupancy: &mut Occupancy,
    counts: &mut StripCounts,
    id: &CellId,
) -> Result<(), AllocError>
    requires { KeepsCapacities counts.old (capacities_in occupancy.old.mark_lists) }
    ensures room { OnOk result (KeepsCapacities counts.new (capacities_in occupancy.new.mark_lists)) }
    ensures own { (places : Places)
        → slice_get places id.now.own ≡ Some (working_at (cells_of sized.now.cells.now id.now.team) id.now.own)
        → Bounds (with_boxes occupancy.old []) id.now.team
        (boxes_at sized.now.frame.now (cells_of sized.now.cells.now id.now.team) places) counts.old
        → OnOk result (Bounds (with_boxes occupancy.new []) id.now.team
        (boxes_at sized.now.frame.now (cells_of sized.now.cells.now id.now.team)
        (slice_set places id.now.own (committed_at (cells_of sized.now.cells.now id.now.team) id.now.own))) counts.new) }
    ensures others { (boxes : List (Option Rect)) → (other : ℕ) → other ≢ id.now.team
        → Bounds (with_boxes occupancy.old []) other boxes counts.old
        → OnOk result (Bounds (with_boxes occupancy.new []) other boxes counts.new) }
    ensures gains { KeepsMarks occupancy.old occupancy.new }
{
    let from = sized.cells.working(*id);
    let to = sized.cells.committed(*id);
    if same_place(from, to) {
        return Ok(());
    }
    let change = Change {
        own: id.own,
        from: PackedPlace::of(from),
        to: PackedPlace::of(to),
    };
    reserve_change(sized, occupancy, counts, id.team as usize, &change)
}

/// Counts each cell of the team at its committed place in place of its working one. `Err` if an
/// allocation fails.
fn fit_team(
    sized: &SizedCells<'_>,
    occupancy: &mut Occupancy,
    counts: &mut StripCounts,
    team: usize,
) -> Result<(), AllocError>
    requires { KeepsCapacities counts.old (capacities_in occupancy.old.mark_lists) }
    ensures room { OnOk result (KeepsCapacities counts.new (capacities_in occupancy.new.mark_lists)) }
    ensures own { Bounds (with_boxes occupancy.old []) team (boxes_at sized.now.frame.now
        (cells_of sized.now.cells.now team) (working_places_of (cells_of sized.now.cells.now team))) counts.old
        → OnOk result (Bounds (with_boxes occupancy.new []) team
        (boxes_at sized.now.frame.now (cells_of sized.now.cells.now team)
        (committed_of (cells_of sized.now.cells.now team))) counts.new) }
    ensures others { (boxes : List (Option Rect)) → (other : ℕ) → other ≢ team
        → Bounds (with_boxes occupancy.old []) other boxes counts.old
        → OnOk result (Bounds (with_boxes occupancy.new []) other boxes counts.new) }
    ensures gains { KeepsMarks occupancy.old occupancy.new }
{
    for id in sized.cells.cells_of(team) {
        fit_committed(sized, occupancy, counts, id)?;
    }
    Ok(())
}

/// Makes room for the committed places of all cells, whose boxes are marked at their working
/// places. `Err` if an allocation fails.
pub(crate) fn fit_all_committed(
    alloc: Global,
    sized: &SizedCells<'_>,
    occupancy: &mut Occupancy,
) -> Result<(), AllocError>
    requires { MarksBoxes occupancy.old (boxes_in sized.now.frame.now sized.now.cells.now) }
    ensures fits { (team : ℕ) → OnOk result (FitIn (with_boxes occupancy.new []) team
        (boxes_at sized.now.frame.now (cells_of sized.now.cells.now team)
        (committed_of (cells_of sized.now.cells.now team)))) }
    ensures gains { KeepsMarks occupancy.old occupancy.new }
{
    let mut counts = occupancy.strip_counts(alloc)?;
    for team in 0..team_count(sized.cells.cell_ids()) {
        fit_team(sized, occupancy, &mut counts, team)?;
    }
    Ok(())
}
