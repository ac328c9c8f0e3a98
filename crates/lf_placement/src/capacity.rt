//! Makes room for moves.

ghost use Rattle.std.specs.Prelude.{◌≡◌, ◌∷◌, [], IfOk, OnOk, map};
ghost use Rattle.lf_cells.specs.Cells.{cells_of};
ghost use Rattle.lf_occupancy.specs.Views.{FitIn, KeepsCapacities};
ghost use Rattle.lf_occupancy.specs.Floorplans.{working_box_of, boxes_in};
ghost use Rattle.lf_occupancy.specs.Strips.{MarksBoxes, with_boxes, capacities_in};
ghost use Rattle.lf_placement.specs.Placements.{moves_applied};
ghost use Rattle.lf_placement.specs.Steps.{requested_box};

use crate::occupancy_sync::box_at;
use crate::sized_cells::SizedCells;
use lf_cells::CellId;
use lf_occupancy::Occupancy;
use lf_undo::Move;
use lf_units::Rect;
use std::alloc::{AllocError, Global};
use std::slice;

/// The cell that the move names, and its box at the move's place. No box if there is no such cell.
fn requested_box(sized: &SizedCells<'_>, team: usize, next: &Move) -> (CellId, Option<Rect>)
    ensures { result ≡ requested_box sized.now.frame.now team (cells_of sized.now.cells.now team) next.now }
{
    match sized.cells.cell_of(team, next.own as usize) {
        Some(id) => (id, box_at(sized, id, next.place.place())),
        None => (CellId { team: 0, own: 0 }, None),
    }
}

/// The cells that the moves name, and their boxes at the moves' places.
fn requested_boxes(
    alloc: Global,
    sized: &SizedCells<'_>,
    team: usize,
    moves: &[Move],
) -> Result<Vec<(CellId, Option<Rect>)>, AllocError>
    ensures { IfOk result (λ list. list.items
        ≡ map (requested_box sized.now.frame.now team (cells_of sized.now.cells.now team)) moves.now) }
{
    let mut list = Vec::with_capacity(alloc, moves.len())?;
    for next in moves {
        list.push(requested_box(sized, team, next))?;
    }
    Ok(list)
}

/// Makes the room that this one move of a team's cell needs. `Err` if an allocation fails: then
/// some room may have been made, and nothing else is changed.
fn reserve_cells(
    sized: &SizedCells<'_>,
    occupancy: &mut Occupancy,
    team: usize,
    next: &Move,
) -> Result<(), AllocError>
    requires { MarksBoxes occupancy.old (boxes_in sized.now.frame.now sized.now.cells.now) }
    ensures ok { OnOk result
        (FitIn (with_boxes occupancy.new (boxes_in sized.now.frame.now sized.now.cells.now)) team (map
        (working_box_of sized.now.frame.now) (moves_applied (next.now ∷ []) (cells_of sized.now.cells.now team)))) }
    ensures holds { MarksBoxes occupancy.new (boxes_in sized.now.frame.now sized.now.cells.now) }
    ensures index { occupancy.new.index ≡ occupancy.old.index }
    ensures site { occupancy.new.site ≡ occupancy.old.site }
    ensures rooms { KeepsCapacities (capacities_in occupancy.old.mark_lists) (capacities_in occupancy.new.mark_lists) }
{
    let requested = requested_box(sized, team, next);
    occupancy.reserve_for(slice::from_ref(&requested))?;
    occupancy.boxes_fit();
    Ok(())
}

/// Makes the room that these moves of the team's cells need if they are made in their order. `Err`
/// if an allocation fails: then some room may have been made, and nothing else is changed.
pub(crate) fn reserve_moves(
    alloc: Global,
    sized: &SizedCells<'_>,
    occupancy: &mut Occupancy,
    team: usize,
    moves: &[Move],
) -> Result<(), AllocError>
    requires { MarksBoxes occupancy.old (boxes_in sized.now.frame.now sized.now.cells.now) }
    ensures ok { OnOk result (FitIn (with_boxes occupancy.new (boxes_in sized.now.frame.now sized.now.cells.now)) team
        (map (working_box_of sized.now.frame.now) (moves_applied moves.now (cells_of sized.now.cells.now team)))) }
    ensures holds { MarksBoxes occupancy.new (boxes_in sized.now.frame.now sized.now.cells.now) }
    ensures index { occupancy.new.index ≡ occupancy.old.index }
    ensures site { occupancy.new.site ≡ occupancy.old.site }
    ensures rooms { KeepsCapacities (capacities_in occupancy.old.mark_lists) (capacities_in occupancy.new.mark_lists) }
{
    if moves.len() == 1 {
        return reserve_cells(sized, occupancy, team, &moves[0]);
    }
    let requested = requested_boxes(alloc, sized, team, moves)?;
    occupancy.reserve_for(requested.as_slice())?;
    occupancy.boxes_fit();
    Ok(())
}
