//! Copies of designs and of their cells. Each function that allocates returns `Err` if an
//! allocation fails.

ghost use Rattle.std.specs.Prelude.{◌≡◌, IfOk, length, map, slice_get};
ghost use Rattle.lf_cells.specs.Cells.{cells_of};
ghost use Rattle.lf_floorplan.specs.Design.{CellsNamed, MakeDesign};
ghost use Rattle.lf_floorplan.specs.LoadedCells.{with_name};
ghost use Rattle.lf_task_files.specs.PlacedDesigns.{place_named};
ghost use Rattle.lf_task_files.specs.Copies.{IsCopyWithCells, cells_of_parts, placed_by_table};

use lf_cells::CellTable;
use lf_floorplan::{CellParts, Frame, Loaded, LoadedCells, PackedPlace, Place, UnnamedCell};
use lf_repair_bounds::clone_frame;
use std::alloc::{AllocError, Global};

/// Returns the place of the team's cell of this name: the committed one if `committed`, else the
/// working one. `None` if it is unplaced, or there is no such cell.
fn place_named(committed: bool, table: &CellTable, team: usize, name: &[u8]) -> Option<Place>
    ensures { result ≡ place_named committed name.now (cells_of table.now team) }
{
    let id = table.find_own(team, name)?;
    if committed {
        table.committed(id)
    } else {
        table.working(id)
    }
}

/// Returns the cell of this name with its place in the table. If there is no table, returns the
/// cell unchanged.
fn moved_by(
    committed: bool,
    table: Option<&CellTable>,
    name: &[u8],
    cell: UnnamedCell,
) -> UnnamedCell
    ensures { with_name name.now result ≡ placed_by_table committed table.entry (with_name name.now cell) }
{
    match table {
        None => cell,
        Some(table) => UnnamedCell {
            place: PackedPlace::of(place_named(committed, table, cell.team as usize, name)),
            ..cell
        },
    }
}

/// Returns the cell of this position without its name, or `None` if there are fewer cells.
fn plain_at(parts: &CellParts, at: usize) -> Option<UnnamedCell>
    ensures { result ≡ slice_get parts.now.cells.items at }
{
    match parts.cells.as_slice().get(at) {
        Some(cell) => Some(*cell),
        None => None,
    }
}

/// Copies the cells, each with its place in the table if there is a table: the committed one if
/// `committed`, else the working one.
pub(crate) fn copy_cells(
    alloc: Global,
    parts: &CellParts,
    committed: bool,
    table: Option<&CellTable>,
) -> Result<LoadedCells, AllocError>
    requires whole { length parts.now.names ≡ length parts.now.cells.items }
    requires named { CellsNamed (cells_of_parts parts.now) }
    ensures { IfOk result
        (λ copies. copies ≡ map (placed_by_table committed table.entry) (cells_of_parts parts.now)) }
{
    let mut copies = LoadedCells::new(alloc);
    for at in 0..parts.cells.len() {
        let name = parts.names.name_at(at).unwrap();
        let cell = plain_at(parts, at).unwrap();
        copies.push(name, moved_by(committed, table, name, cell))?;
    }
    Ok(copies)
}

/// Makes a design of this frame and these cells.
pub(crate) fn design_of(frame: Frame, cells: LoadedCells) -> Loaded
    requires { MakeDesign frame cells }
    ensures frame { result.frame ≡ frame }
    ensures cells { result.cells ≡ cells }
{
    Loaded { frame, cells }
}

/// Copies the design of this frame and these cells.
pub(crate) fn copy_of_design(
    alloc: Global,
    frame: &Frame,
    parts: &CellParts,
) -> Result<Loaded, AllocError>
    requires whole { length parts.now.names ≡ length parts.now.cells.items }
    requires design { MakeDesign frame.now (cells_of_parts parts.now) }
    ensures { IfOk result (IsCopyWithCells frame.now (cells_of_parts parts.now)) }
{
    let copy = clone_frame(alloc, frame)?;
    let cells = copy_cells(alloc, parts, false, None)?;
    Ok(design_of(copy, cells))
}
