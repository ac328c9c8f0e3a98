//! The boxes that block sites for a team: its cells, with their padding, and soft blockages.

ghost use Rattle.std.specs.Prelude.{◌≡◌, ◌<◌, ◌++◌, ◌∷◌, [], All, IfOk, OnOk, length, map, slice_get};
ghost use Rattle.lf_floorplan.specs.Boxes.{IsSized, macro_of};
ghost use Rattle.lf_cells.specs.Cells.{cells_of};
ghost use Rattle.lf_legalize.specs.Members.{IsSizedCell};
ghost use Rattle.lf_repair_bounds.specs.FreeRuns.{AreBlockedOf, AreOffCells, blocked_box, cell_boxes, padded_boxes};
ghost use Rattle.lf_repair_bounds.specs.Gaps.{placed_team};

use lf_cells::{CellId, CellPlacement, CellTable};
use lf_floorplan::{Frame, mac_at};
use lf_rules::{Padding, Placed, padded_box};
use lf_units::Rect;
use std::alloc::{AllocError, Global};

/// Appends the rectangle as a box without an owner.
fn push_rect(boxes: &mut Vec<Placed>, rect: Rect) -> Result<(), AllocError>
    ensures { OnOk result (boxes.new.items ≡ boxes.old.items ++ blocked_box rect ∷ []) }
{
    boxes.push(Placed { own: 0, rect })?;
    Ok(())
}

/// Appends the box of a cell, widened by the padding, if the cell is placed.
fn push_padded(
    boxes: &mut Vec<Placed>,
    frame: &Frame,
    cell_placement: &CellPlacement,
    padding: Padding,
) -> Result<(), AllocError>
    requires known { cell_placement.now.mac < length frame.now.macros }
    requires sized { IsSized frame.now (macro_of frame.now cell_placement.now.mac) }
    ensures { OnOk result (boxes.new.items ≡ boxes.old.items
        ++ padded_boxes frame.now padding.sites cell_placement.now.mac cell_placement.now.working) }
{
    if let Some(place) = cell_placement.working {
        let mac = mac_at(frame, cell_placement.mac);
        push_rect(boxes, padded_box(frame, mac, &place, padding))?;
    }
    Ok(())
}

/// Appends the box of the cell with this id, widened by the padding, if the cell is placed.
fn push_cell(
    boxes: &mut Vec<Placed>,
    frame: &Frame,
    cells: &CellTable,
    id: &CellId,
    padding: Padding,
) -> Result<(), AllocError>
    requires { All (IsSizedCell frame.now) (cells_of cells.now id.now.team) }
    ensures { OnOk result (boxes.new.items ≡ boxes.old.items
        ++ cell_boxes frame.now padding.sites (slice_get (cells_of cells.now id.now.team) id.now.own)) }
{
    let Some(cell_placement) = cells.placement_of(*id) else {
        return Ok(());
    };
    push_padded(boxes, frame, &cell_placement, padding)
}

/// Appends the boxes of the team's placed cells, widened by the padding.
fn push_cells(
    boxes: &mut Vec<Placed>,
    frame: &Frame,
    cells: &CellTable,
    team: usize,
    padding: Padding,
) -> Result<(), AllocError>
    requires empty { boxes.old.items ≡ [] }
    requires sized { All (IsSizedCell frame.now) (cells_of cells.now team) }
    ensures { OnOk result (AreOffCells (placed_team frame.now team padding.sites (cells_of cells.now team))
        (length (cells_of cells.now team)) boxes.new.items) }
{
    for id in cells.cells_of(team) {
        push_cell(boxes, frame, cells, id, padding)?;
    }
    Ok(())
}

/// Appends the rectangles as boxes without owners.
fn push_rects(boxes: &mut Vec<Placed>, rects: &[Rect]) -> Result<(), AllocError>
    ensures { OnOk result (boxes.new.items ≡ boxes.old.items ++ map blocked_box rects.now) }
{
    for rect in rects {
        push_rect(boxes, *rect)?;
    }
    Ok(())
}

/// The boxes of the team's placed cells, widened by the padding, and the soft blockages.
///
/// `Err` if an allocation fails.
pub(crate) fn blocked_boxes(
    alloc: Global,
    frame: &Frame,
    cells: &CellTable,
    team: usize,
    padding: Padding,
) -> Result<Vec<Placed>, AllocError>
    requires { All (IsSizedCell frame.now) (cells_of cells.now team) }
    ensures { IfOk result (λ boxes. AreBlockedOf
        (placed_team frame.now team padding.sites (cells_of cells.now team)) boxes.items) }
{
    let mut boxes = Vec::new(alloc);
    push_cells(&mut boxes, frame, cells, team, padding)?;
    push_rects(&mut boxes, frame.soft.as_slice())?;
    Ok(boxes)
}
