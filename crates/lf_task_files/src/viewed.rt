//! The design with the places to show: as loaded, or with the working or committed places of a saved
//! state.
//!
//! A floor takes ownership of its design, so it is made from a copy. The places are then found by
//! the cells' names.

ghost use Rattle.std.specs.Prelude.{◌≡◌, ◌⊎◌, IfErr, IfOk, length, map};
ghost use Rattle.lf_floorplan.specs.declared.loaded.Loaded.{Loaded};
ghost use Rattle.lf_floorplan.specs.Design.{MakeDesign};
ghost use Rattle.lf_floor_model.specs.Designs.{initial_floor};
ghost use Rattle.lf_floor_model.specs.States.{FloorState};
ghost use Rattle.lf_task_faults.specs.declared.faults.Fault.TheVariants.{SetupOutOfMemory};
ghost use Rattle.lf_task_files.specs.PlacedDesigns.{placed_on_floor};
ghost use Rattle.lf_task_files.specs.States.{IsFileState, IsViewedDesign, IsStateFileFault, IsDesignInState, IsNotOpened};
ghost use Rattle.lf_task_files.specs.Copies.{cells_of_parts};
ghost use Rattle.lf_task_files.specs.Inputs.{path_of};

use crate::copies::{copy_cells, copy_of_design, design_of};
use crate::restore::floor_in_state;
use lf_floorplan::{CellParts, Frame, Loaded, LoadedCells};
use lf_task_designs::InputFiles;
use lf_task_faults::Fault;
use std::alloc::Global;

/// Returns the cells of a design of this frame, with their places in the state of the file of this
/// path: the committed ones if `committed`, else the working ones.
fn cells_in_state<'a, T: InputFiles>(
    alloc: Global,
    texts: &T,
    frame: &Frame,
    parts: &CellParts,
    committed: bool,
    path: &'a str,
) -> Result<LoadedCells, Fault<'a>>
    requires whole { length parts.now.names ≡ length parts.now.cells.items }
    requires design { MakeDesign frame.now (cells_of_parts parts.now) }
    ensures ok { (design : Loaded) → design.frame ≡ frame.now → design.cells ≡ cells_of_parts parts.now
        → IfOk result (λ cells. (floor : FloorState)
        × IsFileState (T.gives texts.now) path.now (initial_floor design) floor
        × (cells ≡ map (placed_on_floor committed floor) design.cells)) }
    ensures err { (design : Loaded) → design.frame ≡ frame.now → design.cells ≡ cells_of_parts parts.now
        → IfErr result (λ fault. (fault ≡ SetupOutOfMemory)
        ⊎ IsStateFileFault (T.gives texts.now) path.now (initial_floor design) fault) }
{
    let twin = copy_of_design(alloc, frame, parts)?;
    let floor = floor_in_state(alloc, texts, twin, path)?;
    let cells = copy_cells(alloc, parts, committed, Some(floor.placement().cells()))?;
    Ok(cells)
}

/// Returns the design with the places in the state of the file of this path: the committed ones if
/// `committed`, else the working ones.
fn design_in_state<'a, T: InputFiles>(
    alloc: Global,
    texts: &T,
    design: Loaded,
    committed: bool,
    path: &'a str,
) -> Result<Loaded, Fault<'a>>
    ensures ok { IfOk result (IsDesignInState committed (T.gives texts.now) path.now design) }
    ensures err { IfErr result (λ fault. (fault ≡ SetupOutOfMemory)
        ⊎ IsStateFileFault (T.gives texts.now) path.now (initial_floor design) fault) }
{
    let Loaded { frame, cells } = design;
    let parts = cells.into_parts();
    let original_place = cells_in_state(alloc, texts, &frame, &parts, committed, path)?;
    Ok(design_of(frame, original_place))
}

/// Returns the design to show: as loaded, or with the places in the state of the file of this path,
/// if one is given. They are the committed ones if `committed`, else the working ones.
pub(crate) fn viewed_design<'a, T: InputFiles>(
    alloc: Global,
    texts: &T,
    design: Loaded,
    committed: bool,
    state: Option<&'a str>,
) -> Result<Loaded, Fault<'a>>
    ensures ok { IfOk result (IsViewedDesign committed (T.gives texts.now) (path_of state.entry) design) }
    ensures err { IfErr result (IsNotOpened (T.gives texts.now) (path_of state.entry) design) }
{
    match state {
        None => Ok(design),
        Some(path) => design_in_state(alloc, texts, design, committed, path),
    }
}
