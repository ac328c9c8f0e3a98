//! The density of a floor: how full the fullest bins are with its cells.

ghost use Rattle.std.specs.Prelude.{◌≡◌, ◌+◌, ◌++◌, [], IfOk, OnOk, flat_map, length, slice_get};
ghost use Rattle.std.specs.Option.{option_map_or};
ghost use Rattle.lf_cells.specs.Cells.{cells_of};
ghost use Rattle.lf_task_reports.specs.Densities.{IsDensityOn, cell_boxes, working_box};

use lf_density::{Density, density_of};
use lf_floor::Floor;
use lf_floorplan::mac_at;
use lf_legalize::Seeker;
use lf_placement::Placement;
use lf_rules::box_of;
use lf_segments::FrameIndex;
use lf_units::Rect;
use std::alloc::{AllocError, Global};

/// The densities of a floor at the beginning and at the end of a task.
#[derive(Clone, Copy)]
pub struct DensityChange {
    pub before: Density,
    pub after: Density,
}

/// Appends the box of the cell at position `own` of the team with this number, if there is such a
/// cell and it is placed. `Err` if an allocation fails.
fn push_box(
    boxes: &mut Vec<Rect>,
    placement: &Placement,
    number: usize,
    own: usize,
) -> Result<(), AllocError>
    ensures { OnOk result (boxes.new.items ≡ boxes.old.items ++ option_map_or (working_box placement.now.frame)
        (slice_get (cells_of placement.now.cells number) own) []) }
{
    placement.cells_are_sized();
    let frame = placement.frame();
    let Some(id) = placement.cells().cell_of(number, own) else {
        return Ok(());
    };
    let Some(cell) = placement.cells().placement_of(id) else {
        return Ok(());
    };
    let Some(place) = cell.working else {
        return Ok(());
    };
    boxes.push(box_of(frame, mac_at(frame, cell.mac), &place))?;
    Ok(())
}

/// Appends the boxes of the placed cells of the team with this number. `Err` if an allocation fails.
fn push_boxes(boxes: &mut Vec<Rect>, placement: &Placement, number: usize) -> Result<(), AllocError>
    ensures { OnOk result (boxes.new.items
        ≡ boxes.old.items ++ cell_boxes placement.now.frame (cells_of placement.now.cells number)) }
{
    let count = placement.cells().cells_of(number).len();
    for own in 0..count {
        push_box(boxes, placement, number, own)?;
    }
    Ok(())
}

/// Returns the density of a floor, with its cells at their working places. `Err` if an allocation
/// fails.
pub fn density_on<S: Seeker + Drop>(alloc: Global, floor: &Floor<S>) -> Result<Density, AllocError>
    requires { length floor.now.teams ≡ length floor.now.frame.teams + 1 }
    ensures { IfOk result (IsDensityOn floor.now) }
{
    let placement = floor.placement();
    let frame = placement.frame();
    let index = FrameIndex::build(alloc, frame)?;
    let mut boxes = Vec::new(alloc);
    let teams = frame.teams.len() + 1;
    for number in 0..teams {
        push_boxes(&mut boxes, placement, number)?;
    }
    density_of(alloc, frame, &index, boxes.as_slice())
}

/// Returns the density before a task, and that of the floor. `Err` if an allocation fails.
pub fn density_since<S: Seeker + Drop>(
    alloc: Global,
    floor: &Floor<S>,
    before: Density,
) -> Result<DensityChange, AllocError>
    requires { length floor.now.teams ≡ length floor.now.frame.teams + 1 }
    ensures before { IfOk result (λ change. change.before ≡ before) }
    ensures after { IfOk result (λ change. IsDensityOn floor.now change.after) }
{
    let after = density_on(alloc, floor)?;
    Ok(DensityChange { before, after })
}
