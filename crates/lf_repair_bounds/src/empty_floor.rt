//! A floor without cells, which can be searched for a cell of any team and macro of a design.

ghost use Rattle.std.specs.Prelude.{◌≡◌, ◌≢◌, All, IfOk, IfSome, None, OnOk, Some, length, option_map};
ghost use Rattle.lf_floorplan.specs.Design.{MakeDesign};
ghost use Rattle.lf_floorplan.specs.LoadedCells.{borrowed_cell, with_name};
ghost use Rattle.lf_cells.specs.Cells.{cell_at};
ghost use Rattle.lf_repair_bounds.specs.Copies.{AreCopies};
ghost use Rattle.lf_repair_bounds.specs.EmptyFloors.{AreUnplaced, IsEmptyTable, IsKeptOr, unplaced_cell_at};

use crate::frame_copy::{clone_frame, frame_without_soft};
use lf_cells::{CellId, CellTable};
use lf_floorplan::{CellRef, Frame, Loaded, LoadedCells, PackedPlace, UnnamedCell};
use lf_occupancy::Occupancy;
use lf_segments::FrameIndex;
use std::alloc::{AllocError, Global};
use std::marker::Model;

/// The first cell of a macro in a team, and its position among the team's cells on the floor
/// without cells.
#[derive(Clone, Copy)]
struct First {
    mac: usize,
    own: usize,
}

/// For each team the first cells, in order of their macros.
type Firsts = Vec<Vec<First>>;

/// A frame, its strips without marks, and the first cells of all macros and teams, unplaced. A
/// contract sees the frame and the cells.
#[derive(Drop)]
pub(crate) struct EmptyFloor<'a> {
    pub(crate) frame: &'a Frame,
    pub(crate) table: CellTable,
    pub(crate) occupancy: Occupancy,
    firsts: Firsts,
}

impl<'a> Model for EmptyFloor<'a> {
    ghost use Rattle.lf_repair_bounds.specs.EmptyFloors.{EmptyFloorView, IsEmptyFloorOf, empty_floor_of};

    ghost Value = { EmptyFloorView };

    ghost view = { λ e. empty_floor_of e.frame.now e.table };

    ghost invariant = { λ e. IsEmptyFloorOf e.frame.now e.table e.occupancy };
}

/// The position in the team of its first cell of the macro.
fn own_of(firsts: &[First], mac: usize) -> Option<usize> {
    let at = firsts.partition_point(|first| first.mac < mac);
    let first = firsts.get(at)?;
    if first.mac == mac {
        Some(first.own)
    } else {
        None
    }
}

/// Whether the macro is a new one of the team. If so, it is added to the team's.
fn is_new(firsts: &mut Firsts, team: usize, mac: usize) -> Result<bool, AllocError> {
    let Some(own) = firsts.get_mut(team) else {
        return Ok(false);
    };
    if own_of(own, mac).is_some() {
        return Ok(false);
    }
    let at = own.partition_point(|first| first.mac < mac);
    let first = First {
        mac,
        own: own.len(),
    };
    own.insert(at, first)?;
    Ok(true)
}

/// The cell, unplaced, as the entry at position `at`. `None` if a number of it exceeds the limits
/// of a design.
fn plain_of(cell: &CellRef<'_>, at: usize) -> Option<UnnamedCell>
    ensures { IfSome result
        (λ plain. with_name cell.now.name.now plain ≡ unplaced_cell_at at (borrowed_cell cell.now)) }
{
    Some(UnnamedCell {
        team: u32::try_from(cell.team).ok()?,
        mac: u32::try_from(cell.mac).ok()?,
        component: u32::try_from(at).ok()?,
        place: PackedPlace::of(None),
    })
}

/// Keeps the cell, unplaced, if it is the first of its macro in its team.
fn keep_first(
    kept: &mut LoadedCells,
    firsts: &mut Firsts,
    cell: &CellRef<'_>,
    at: usize,
) -> Result<(), AllocError>
    requires { All (λ c. c.name ≢ cell.now.name.now) kept.old }
    ensures { OnOk result (IsKeptOr at (borrowed_cell cell.now) kept.old kept.new) }
{
    let Some(plain) = plain_of(cell, at) else {
        return Ok(());
    };
    if is_new(firsts, cell.team, cell.mac)? {
        kept.push(cell.name, plain)?;
    }
    Ok(())
}

/// The first cells of all macros and teams, unplaced.
fn first_cells(
    alloc: Global,
    loaded: &Loaded,
    firsts: &mut Firsts,
) -> Result<LoadedCells, AllocError>
    ensures design { IfOk result (λ kept. MakeDesign loaded.now.frame kept) }
    ensures unplaced { IfOk result (λ kept. AreUnplaced kept) }
{
    let mut kept = LoadedCells::new(alloc);
    for at in 0..loaded.cells.len() {
        let cell = loaded.cells.get(at).unwrap();
        keep_first(&mut kept, firsts, &cell, at)?;
    }
    Ok(kept)
}

/// The design of a copy of the frame and these cells.
fn design_with(alloc: Global, frame: &Frame, cells: LoadedCells) -> Result<Loaded, AllocError>
    requires { MakeDesign frame.now cells }
    ensures frame { IfOk result (λ design. AreCopies frame.now design.frame) }
    ensures cells { IfOk result (λ design. design.cells ≡ cells) }
{
    let frame = clone_frame(alloc, frame)?;
    Ok(Loaded { frame, cells })
}

/// The table of the given cells on a copy of the frame.
fn table_of(alloc: Global, frame: &Frame, cells: LoadedCells) -> Result<CellTable, AllocError>
    requires design { MakeDesign frame.now cells }
    requires unplaced { AreUnplaced cells }
    ensures { IfOk result (λ table. IsEmptyTable frame.now table) }
{
    let design = design_with(alloc, frame, cells)?;
    let built = CellTable::build(alloc, design)?;
    let (_, table) = built;
    Ok(table)
}

/// A list of `teams` empty lists of first cells.
fn no_firsts(alloc: Global, teams: usize) -> Result<Firsts, AllocError> {
    let mut firsts = Vec::new(alloc);
    for _ in 0..teams {
        firsts.push(Vec::new(alloc))?;
    }
    Ok(firsts)
}

/// A design of a copy of the frame without soft blockages, and of the first cells of all macros and
/// teams.
pub(crate) fn hard_design(alloc: Global, loaded: &Loaded) -> Result<Loaded, AllocError>
    ensures copies { IfOk result (λ hard. AreCopies loaded.now.frame hard.frame) }
    ensures none { IfOk result (λ hard. length hard.frame.soft ≡ 0) }
{
    let mut firsts = no_firsts(alloc, loaded.frame.teams.len() + 1)?;
    let cells = first_cells(alloc, loaded, &mut firsts)?;
    let frame = frame_without_soft(alloc, &loaded.frame)?;
    Ok(Loaded { frame, cells })
}

/// The floor of the design's frame without cells.
///
/// `Err` if an allocation fails.
pub(crate) fn empty_floor(alloc: Global, loaded: &Loaded) -> Result<EmptyFloor<'_>, AllocError>
    ensures { IfOk result (λ bare. bare.frame ≡ loaded.now.frame) }
{
    let frame = &loaded.frame;
    let mut firsts = no_firsts(alloc, frame.teams.len() + 1)?;
    let cells = first_cells(alloc, loaded, &mut firsts)?;
    let table = table_of(alloc, frame, cells)?;
    let index = FrameIndex::build(alloc, frame)?;
    let occupancy = Occupancy::build(alloc, frame, index, &table)?;
    Ok(EmptyFloor {
        frame,
        table,
        occupancy,
        firsts,
    })
}

/// A cell of the team and the macro with these numbers on the floor without cells. `None` if there
/// is no such cell.
pub(crate) fn id_of(bare: &EmptyFloor<'_>, team: usize, mac: usize) -> Option<CellId>
    ensures team { IfSome result (λ id. id.team ≡ team) }
    ensures mac { IfSome result (λ id. option_map (λ c. c.mac) (cell_at bare.now.table id) ≡ Some mac) }
{
    let own = own_of(bare.firsts.get(team)?, mac)?;
    let id = bare.table.cell_of(team, own)?;
    let cell_placement = bare.table.placement_of(id)?;
    if cell_placement.mac == mac {
        return Some(id);
    }
    None
}
