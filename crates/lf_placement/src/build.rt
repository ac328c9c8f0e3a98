//! Builds the tables of a loaded design.

ghost use Rattle.std.specs.Prelude.{◌≡◌, ◌≤◌, ℕ, IfOk, length};
ghost use Rattle.lf_cells.specs.Cells.{cells_of};
ghost use Rattle.lf_cells.specs.Initial.{initial_cells, initial_components};
ghost use Rattle.lf_occupancy.specs.Floorplans.{IsMarkedBy, boxes_in};
ghost use Rattle.lf_occupancy.specs.Strips.{MarksBoxes};
ghost use Rattle.lf_placement.specs.Placements.{AreSized, IsPlacing, placing_of};

use crate::counted_capacity::fit_all_committed;
use crate::sized_cells::SizedCells;
use lf_cells::CellTable;
use lf_floorplan::{Frame, Loaded};
use lf_occupancy::Occupancy;
use lf_segments::FrameIndex;
use std::alloc::{AllocError, Global};

/// The frame, the cells of all teams, and the marks of the placed cells.
#[derive(Drop)]
pub(crate) struct BuiltParts {
    pub(crate) frame: Frame,
    pub(crate) cells: CellTable,
    pub(crate) occupancy: Occupancy,
}

/// The frame of a design, and the cells of all teams.
fn cells_in(alloc: Global, loaded: Loaded) -> Result<(Frame, CellTable), AllocError>
    ensures frame { IfOk result (λ built. built.0 ≡ loaded.frame) }
    ensures cells { IfOk result (λ built. built.1.cells ≡ initial_cells loaded) }
    ensures components { IfOk result (λ built. built.1.components ≡ initial_components loaded) }
    ensures sized { IfOk result (λ built. AreSized built.0 built.1) }
    ensures few { IfOk result (λ built. (team : ℕ) → length (cells_of built.1 team) ≤ 4000000) }
{
    let built = CellTable::build(alloc, loaded)?;
    Ok(built)
}

/// The occupancy of the frame by the cells at their working places.
fn occupancy_of(alloc: Global, sized: &SizedCells<'_>) -> Result<Occupancy, AllocError>
    ensures held { IfOk result (λ held. IsMarkedBy sized.now.frame.now sized.now.cells.now held) }
{
    let index = FrameIndex::build(alloc, sized.frame)?;
    Occupancy::build(alloc, sized.frame, index, sized.cells)
}

/// The occupancy of the frame, with room for the cells' committed places.
pub(crate) fn fitted(alloc: Global, sized: &SizedCells<'_>) -> Result<Occupancy, AllocError>
    requires { (team : ℕ) → length (cells_of sized.now.cells.now team) ≤ 4000000 }
    ensures holds { IfOk result (λ held. MarksBoxes held (boxes_in sized.now.frame.now sized.now.cells.now)) }
    ensures placing { IfOk result (λ held. IsPlacing (placing_of sized.now.frame.now sized.now.cells.now held)) }
{
    let mut occupancy = occupancy_of(alloc, sized)?;
    fit_all_committed(alloc, sized, &mut occupancy)?;
    Ok(occupancy)
}

/// The tables of a design.
pub(crate) fn tables_of(alloc: Global, loaded: Loaded) -> Result<BuiltParts, AllocError>
    ensures frame { IfOk result (λ tables. tables.frame ≡ loaded.frame) }
    ensures cells { IfOk result (λ tables. tables.cells.cells ≡ initial_cells loaded) }
    ensures components { IfOk result (λ tables. tables.cells.components ≡ initial_components loaded) }
    ensures holds { IfOk result (λ tables. MarksBoxes tables.occupancy (boxes_in tables.frame tables.cells)) }
    ensures placing { IfOk result (λ tables. IsPlacing (placing_of tables.frame tables.cells tables.occupancy)) }
{
    let built = cells_in(alloc, loaded)?;
    let (frame, cells) = built;
    let sized = SizedCells {
        frame: &frame,
        cells: &cells,
    };
    let occupancy = occupancy_of(alloc, &sized)?;
    occupancy.boxes_fit();
    Ok(BuiltParts {
        frame,
        cells,
        occupancy,
    })
}
