//! The macros of a design whose cells no place can hold.

ghost use Rattle.std.specs.Prelude.{◌≡◌, ◌≤◌, Any, IfOk, IsTrue, OnOk, length};
ghost use Rattle.lf_floorplan.specs.Boxes.{macro_of};
ghost use Rattle.lf_floorplan.specs.Design.{IsCell};
ghost use Rattle.lf_floorplan.specs.LoadedCells.{borrowed_cell};
ghost use Rattle.lf_segments.specs.Indexes.{IsIndexOf};
ghost use Rattle.lf_repair_bounds.specs.Copies.{AreCopies};
ghost use Rattle.lf_repair_bounds.specs.ImpossibleMacros.{AreImpossibleMacros, HasCellOf, HasReason, is_listed as is_in_list};
ghost use Rattle.lf_repair_bounds.specs.Searched.{ChecksOne, Decides, IsVerdictOn};

use crate::empty_floor::{EmptyFloor, empty_floor, hard_design};
use crate::nearest_place::{LoneCell, nearest};
use crate::reasons::{ImpossibleMacro, ImpossibleReason, reason_of};
use lf_floorplan::{CellRef, Frame, Loaded, mac_at};
use lf_legalize::anchor;
use lf_segments::FrameIndex;
use std::alloc::{AllocError, Global};

/// A macro that was searched for in a team.
#[derive(Clone, Copy)]
pub(crate) struct CheckedMacro {
    pub(crate) team: usize,
    pub(crate) mac: usize,
}

/// A design, and a floor of its frame without cells and without soft blockages.
#[derive(Clone, Copy)]
pub(crate) struct HardFloor<'a> {
    pub(crate) loaded: &'a Loaded,
    /// The frame of the floor.
    pub(crate) hard: &'a Frame,
    pub(crate) bare: &'a EmptyFloor<'a>,
    /// The index of the design's frame.
    pub(crate) index: &'a FrameIndex,
    pub(crate) ghost copies: { AreCopies loaded.now.frame hard.now },
    pub(crate) ghost none: { length hard.now.soft ≡ 0 },
    pub(crate) ghost of_frame: { hard.now ≡ bare.now.frame },
}

/// Whether the list has the macro for the team.
pub fn is_listed(list: &[ImpossibleMacro], team: usize, mac: usize) -> bool
    ensures { result ≡ is_in_list list.now team mac }
{
    list.iter()
        .any(|entry| entry.team == team && entry.mac == mac)
}

/// Why no place can hold the macro of the cell in its team, given that none can.
fn reason_in(floor: &HardFloor<'_>, cell: &CellRef<'_>) -> ImpossibleReason
    requires known { IsCell floor.now.loaded.now.frame (borrowed_cell cell.now) }
    requires index { IsIndexOf floor.now.loaded.now.frame floor.now.index.now }
    ensures { HasReason floor.now.loaded.now.frame cell.now.team
        (macro_of floor.now.loaded.now.frame cell.now.mac) result }
{
    let frame = &floor.loaded.frame;
    reason_of(frame, floor.index, cell.team, mac_at(frame, cell.mac))
}

/// Why no place can hold the macro of the cell in its team. `None` if a place can.
fn verdict_on(
    alloc: Global,
    floor: &HardFloor<'_>,
    cell: &CellRef<'_>,
) -> Result<Option<ImpossibleReason>, AllocError>
    requires known { IsCell floor.now.loaded.now.frame (borrowed_cell cell.now) }
    requires index { IsIndexOf floor.now.loaded.now.frame floor.now.index.now }
    ensures { IfOk result (IsVerdictOn floor.now.loaded.now.frame cell.now.team cell.now.mac) }
{
    let lone = LoneCell {
        bare: floor.bare,
        frame: floor.hard,
        cell,
    };
    let target = anchor(floor.hard, cell.team);
    let found = nearest(alloc, &lone, &target)?;
    match found {
        Some(_best) => Ok(None),
        None => Ok(Some(reason_in(floor, cell))),
    }
}

/// Lists the macro of the cell, if no place can hold it.
fn note_impossible(
    alloc: Global,
    floor: &HardFloor<'_>,
    cell: &CellRef<'_>,
    list: &mut Vec<ImpossibleMacro>,
) -> Result<(), AllocError>
    requires known { IsCell floor.now.loaded.now.frame (borrowed_cell cell.now) }
    requires index { IsIndexOf floor.now.loaded.now.frame floor.now.index.now }
    requires of_cell { HasCellOf floor.now.loaded.now.cells cell.now.team cell.now.mac }
    ensures { OnOk result (Decides floor.now.loaded.now.frame floor.now.loaded.now.cells cell.now.team cell.now.mac
        list.old.items list.new.items) }
{
    let verdict = verdict_on(alloc, floor, cell)?;
    match verdict {
        Some(reason) => {
            list.push(ImpossibleMacro {
                team: cell.team,
                mac: cell.mac,
                reason,
            })?;
            Ok(())
        }
        None => Ok(()),
    }
}

/// The position of the macro in the list, which is in order of teams and macros. If the list does
/// not have it, the position at which it is to be inserted.
fn position_for(checked: &[CheckedMacro], team: usize, mac: usize) -> usize
    ensures { result ≤ length checked.now }
{
    checked.partition_point(|entry| entry.team < team || (entry.team == team && entry.mac < mac))
}

/// Whether the list has the macro at this position.
fn is_checked_at(checked: &[CheckedMacro], at: usize, team: usize, mac: usize) -> bool
    ensures { IsTrue result → Any (λ c. (c.team ≡ team) × (c.mac ≡ mac)) checked.now }
{
    match checked.get(at) {
        Some(entry) => entry.team == team && entry.mac == mac,
        None => false,
    }
}

/// Searches for the macro of the cell, unless that was done for an earlier cell, and lists it if no
/// place can hold it.
fn note_cell(
    alloc: Global,
    floor: &HardFloor<'_>,
    cell: &CellRef<'_>,
    checked: &mut Vec<CheckedMacro>,
    list: &mut Vec<ImpossibleMacro>,
) -> Result<(), AllocError>
    requires known { IsCell floor.now.loaded.now.frame (borrowed_cell cell.now) }
    requires index { IsIndexOf floor.now.loaded.now.frame floor.now.index.now }
    requires of_cell { HasCellOf floor.now.loaded.now.cells cell.now.team cell.now.mac }
    ensures { OnOk result (ChecksOne floor.now.loaded.now.frame floor.now.loaded.now.cells cell.now.team cell.now.mac
        checked.old.items checked.new.items list.old.items list.new.items) }
{
    let at = position_for(checked.as_slice(), cell.team, cell.mac);
    if is_checked_at(checked.as_slice(), at, cell.team, cell.mac) {
        return Ok(());
    }
    note_impossible(alloc, floor, cell, list)?;
    checked.insert(
        at,
        CheckedMacro {
            team: cell.team,
            mac: cell.mac,
        },
    )?;
    Ok(())
}

/// The macros of the design's cells, each in its cell's team, that no place can hold, even if no
/// other cell is on the floor, and why. A design with a cell of one of them cannot be legal.
///
/// `Err` if an allocation fails.
pub fn impossible_macros(alloc: Global, loaded: &Loaded) -> Result<Vec<ImpossibleMacro>, AllocError>
    ensures { IfOk result (λ list. AreImpossibleMacros loaded.now.frame loaded.now.cells list.items) }
{
    let hard = hard_design(alloc, loaded)?;
    let bare = empty_floor(alloc, &hard)?;
    let index = FrameIndex::build(alloc, &loaded.frame)?;
    let floor = HardFloor {
        loaded,
        hard: &hard.frame,
        bare: &bare,
        index: &index,
    };
    let mut checked = Vec::new(alloc);
    let mut list = Vec::new(alloc);
    for at in 0..loaded.cells.len() {
        let cell = loaded.cells.get(at).unwrap();
        note_cell(alloc, &floor, &cell, &mut checked, &mut list)?;
    }
    Ok(list)
}
