//! The boxes of a team's other placed cells, which a cell must not overlap.

ghost use Rattle.std.specs.Prelude.{◌≡◌, ◌<◌, ◌++◌, [], All, IfOk, OnOk, length, map, option_map, slice_get};
ghost use Rattle.lf_floorplan.specs.Boxes.{IsSized, macro_of};
ghost use Rattle.lf_rules.specs.Choice.{spot_of};
ghost use Rattle.lf_rules.specs.Team.{boxes_beside, with_box};
ghost use Rattle.lf_cells.specs.Cells.{cells_of};
ghost use Rattle.lf_legalize.specs.Members.{member_of, IsSizedCell};
ghost use Rattle.lf_legalize.specs.Others.{beside_one};

use lf_cells::{CellId, CellPlacement, CellTable};
use lf_floorplan::Frame;
use lf_rules::{Placed, box_of};
use std::alloc::{AllocError, Global};

/// Appends the box of the cell at position `own`, if it is placed.
fn push_box(
    others: &mut Vec<Placed>,
    frame: &Frame,
    cell_placement: &CellPlacement,
    own: u32,
) -> Result<(), AllocError>
    requires known { cell_placement.now.mac < length frame.now.macros }
    requires sized { IsSized frame.now (macro_of frame.now cell_placement.now.mac) }
    ensures { OnOk result (others.new.items ≡ others.old.items ++ with_box frame.now own cell_placement.now.mac
        (option_map spot_of cell_placement.now.working) []) }
{
    if let Some(place) = cell_placement.working {
        let mac = &frame.macros.as_slice()[cell_placement.mac];
        others.push(Placed {
            own,
            rect: box_of(frame, mac, &place),
        })?;
    }
    Ok(())
}

/// Appends the box of the other cell, unless it has the position of this one.
fn push_other(
    others: &mut Vec<Placed>,
    frame: &Frame,
    cells: &CellTable,
    id: &CellId,
    other: &CellId,
) -> Result<(), AllocError>
    requires { All (IsSizedCell frame.now) (cells_of cells.now other.now.team) }
    ensures { OnOk result (others.new.items ≡ others.old.items
        ++ beside_one frame.now id.now.own other.now.own
        (slice_get (cells_of cells.now other.now.team) other.now.own)) }
{
    if other.own == id.own {
        return Ok(());
    }
    let Some(cell_placement) = cells.placement_of(*other) else {
        return Ok(());
    };
    push_box(others, frame, &cell_placement, other.own)
}

/// The boxes of the placed cells of the cell's team, except the cell itself, in loading order. The
/// macros of the team's cells are the frame's, of whole size. `Err` if an allocation fails.
pub fn other_boxes(
    alloc: Global,
    frame: &Frame,
    cells: &CellTable,
    id: CellId,
) -> Result<Vec<Placed>, AllocError>
    requires { All (IsSizedCell frame.now) (cells_of cells.now id.team) }
    ensures { IfOk result
        (λ others. others.items ≡ boxes_beside frame.now (map member_of (cells_of cells.now id.team)) id.own) }
{
    let mut others = Vec::new(alloc);
    for other in cells.cells_of(id.team as usize) {
        push_other(&mut others, frame, cells, &id, other)?;
    }
    Ok(others)
}
