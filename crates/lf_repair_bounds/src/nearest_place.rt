//! Finds the nearest place where a cell is allowed alone.

ghost use Rattle.std.specs.Prelude.{◌≡◌, [], IfOk, IsTrue, None, Some, length, option_map};
ghost use Rattle.lf_floorplan.specs.Boxes.{macro_of};
ghost use Rattle.lf_floorplan.specs.Design.{IsCell};
ghost use Rattle.lf_floorplan.specs.LoadedCells.{borrowed_cell};
ghost use Rattle.lf_cells.specs.Cells.{cell_at};
ghost use Rattle.lf_rules.specs.Choice.{IsChoice, IsAllowedPlace, spot_of};
ghost use Rattle.lf_rules.specs.Legality.{IsFrameRuleVerdict, candidate_of};
ghost use Rattle.lf_repair_bounds.specs.MinDisplacements.{query_alone};

use crate::empty_floor::{EmptyFloor, id_of};
use lf_cells::CellId;
use lf_floorplan::{CellRef, Frame, Place, mac_at};
use lf_legalize::{IndexSeeker, Seeker, best_place};
use lf_rules::{Padding, broken_frame_rule, legalizer_exists};
use lf_segments::IndexedFrame;
use lf_units::Point;
use std::alloc::{AllocError, Global};

/// A cell of the frame of a floor without cells.
#[derive(Clone, Copy)]
pub(crate) struct LoneCell<'a> {
    pub(crate) bare: &'a EmptyFloor<'a>,
    /// The frame of the floor.
    pub(crate) frame: &'a Frame,
    pub(crate) cell: &'a CellRef<'a>,
    pub(crate) ghost of_frame: { frame.now ≡ bare.now.frame },
    pub(crate) ghost known: { IsCell frame.now (borrowed_cell cell.now) },
}

/// The nearest place for a cell that the floor without cells has.
fn nearest_of(
    alloc: Global,
    lone: &LoneCell<'_>,
    id: CellId,
    target: &Point,
) -> Result<Option<Place>, AllocError>
    requires team { id.team ≡ lone.now.cell.now.team }
    requires mac { option_map (λ c. c.mac) (cell_at lone.now.bare.now.table id) ≡ Some lone.now.cell.now.mac }
    ensures { IfOk result (λ found. IsChoice (query_alone lone.now.frame.now (borrowed_cell lone.now.cell.now))
        target.now (option_map spot_of found)) }
{
    legalizer_exists();
    let bare = lone.bare;
    let filled = bare.occupancy.with_boxes(lone.frame, &bare.table);
    IndexSeeker.seek(
        alloc,
        lone.frame,
        &bare.table,
        &filled,
        id,
        target,
        Padding::none(),
    )
}

/// The nearest place where the cell is allowed alone. `None` if no place is allowed for it. If the
/// floor without cells has no cell of its macro, every site is searched.
pub(crate) fn nearest(
    alloc: Global,
    lone: &LoneCell<'_>,
    target: &Point,
) -> Result<Option<Place>, AllocError>
    ensures { IfOk result (λ found. IsChoice (query_alone lone.now.frame.now (borrowed_cell lone.now.cell.now))
        target.now (option_map spot_of found)) }
{
    let cell = lone.cell;
    if let Some(id) = id_of(lone.bare, cell.team, cell.mac) {
        return nearest_of(alloc, lone, id, target);
    }
    let frame = lone.frame;
    let mac = mac_at(frame, cell.mac);
    Ok(best_place(frame, cell.team, mac, &[], target, Padding::none()))
}

/// Whether the frame has no soft blockages.
fn has_no_soft(frame: &Frame) -> bool
    ensures { IsTrue result → length frame.now.soft ≡ 0 }
{
    frame.soft.len() == 0
}

/// Whether the cell alone breaks no rule at this place.
fn keeps_rules(lone: &LoneCell<'_>, loaded_place: &Place) -> bool
    ensures { IsTrue result → IsFrameRuleVerdict (candidate_of lone.now.frame.now lone.now.cell.now.team 0
        (macro_of lone.now.frame.now lone.now.cell.now.mac) loaded_place.now []) None }
{
    let bare = lone.bare;
    let frame = IndexedFrame::new(lone.frame, bare.occupancy.index());
    let mac = mac_at(lone.frame, lone.cell.mac);
    match broken_frame_rule(&frame, lone.cell.team, mac, loaded_place) {
        Some(_) => false,
        None => true,
    }
}

/// Whether the cell is allowed alone at this place, on a frame without soft blockages. Returns
/// false without a test if there are soft blockages.
pub(crate) fn is_legal_alone(lone: &LoneCell<'_>, loaded_place: &Place) -> bool
    ensures { IsTrue result
        → IsAllowedPlace (query_alone lone.now.frame.now (borrowed_cell lone.now.cell.now)) (spot_of loaded_place.now) }
{
    if !has_no_soft(lone.frame) {
        return false;
    }
    keeps_rules(lone, loaded_place)
}
