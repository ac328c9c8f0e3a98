//! The edits of a team.

use crate::board_nets::{NetSource, board_nets};
use crate::cells::CellPlace;
use crate::density::bins_below;
use crate::movable::{MovableCells, footprints, movable_cells, place_of, tall_heights};
use crate::rounds::{ImproveOptions, ImproveSearch, exchanged_places, improved_places};
use lf_floorplan::Place;
use lf_placement::Placement;
use lf_repair_strategy::{
    CellEdit, CellMove, MoveList, PaddedTeam, bands_of, width_of, with_moves,
};
use lf_wire_length::{Netlist, TeamNets};
use std::alloc::{AllocError, Global};

/// The nets of a design, and which of them each team has.
#[derive(Clone, Copy)]
pub struct WireNets<'a> {
    pub netlist: &'a Netlist,
    pub of_teams: &'a TeamNets,
}

/// Appends the move of the team's cell at position `own` to this place.
fn push_move(
    placement: &Placement,
    team: &PaddedTeam,
    own: u32,
    to: &CellPlace,
    moves: &mut MoveList,
) -> Result<(), AllocError> {
    let Some(id) = placement.cells().cell_of(team.team, own as usize) else {
        return Ok(());
    };
    moves.push(&CellMove {
        own,
        width: width_of(placement, id).clamp(0, 4_294_967_295) as u32,
        from: placement.cells().working(id),
        to: place_of(to),
    })
}

/// These edits, followed by those that move the cells to their new places.
fn edits_to(
    alloc: Global,
    placement: &Placement,
    team: &PaddedTeam,
    movable: &MovableCells,
    places: &[Option<CellPlace>],
    before: &[CellEdit],
) -> Result<Vec<CellEdit>, AllocError> {
    let bands = bands_of(placement.frame(), team, &movable.free_rows);
    let mut moves = MoveList::with_capacity(alloc, bands, places.len())?;
    for (own, place) in movable.owns.iter().zip(places.iter()) {
        if let Some(to) = place {
            push_move(placement, team, *own, to, &mut moves)?;
        }
    }
    with_moves(alloc, before, moves)
}

/// The new places of cells of several rows, by their positions in the team, and the edits that move
/// them there.
#[derive(Drop)]
struct TallMoves {
    places: Vec<Option<Place>>,
    edits: Vec<CellEdit>,
}

/// Exchanges and flips the cells over this number of rows, after the moves so far.
fn add_tall_moves(
    alloc: Global,
    placement: &Placement,
    team: &PaddedTeam,
    wires: &WireNets<'_>,
    options: &ImproveOptions,
    rows: i64,
    moves: &mut TallMoves,
) -> Result<(), AllocError> {
    let movable = movable_cells(alloc, placement, team, rows)?;
    let source = NetSource {
        placement,
        netlist: wires.netlist,
        team: team.team,
        moved: moves.places.as_slice(),
        movable: &movable,
    };
    let nets = board_nets(alloc, &source, wires.of_teams.of(team.team))?;
    let cells = movable.cells.as_slice();
    let covered = footprints(alloc, &movable.free_rows, cells)?;
    let places = exchanged_places(alloc, &covered, cells, &nets, options)?;
    for (own, place) in movable.owns.iter().zip(places.iter()) {
        if let (Some(to), Some(moved)) = (place, moves.places.get_mut(*own as usize)) {
            *moved = Some(place_of(to));
        }
    }
    let before = moves.edits.as_slice();
    moves.edits = edits_to(alloc, placement, team, &movable, places.as_slice(), before)?;
    Ok(())
}

/// The moves of the team's cells of several rows, those of the least rows first.
fn tall_moves(
    alloc: Global,
    placement: &Placement,
    team: &PaddedTeam,
    wires: &WireNets<'_>,
    options: &ImproveOptions,
) -> Result<TallMoves, AllocError> {
    let count = placement.cells().cells_of(team.team).len();
    let mut moves = TallMoves {
        places: vec![in alloc; None; count]?,
        edits: Vec::new(alloc),
    };
    for rows in &tall_heights(alloc, placement, team)? {
        add_tall_moves(alloc, placement, team, wires, options, *rows, &mut moves)?;
    }
    Ok(moves)
}

/// The edits that shorten the wires of the team's cells, in an order in which most moves are one
/// edit. `Err` if an allocation fails.
///
/// Cells of several rows are flipped, and exchange places with cells of the same rows and sites. Then
/// cells of one row's height exchange places, are inserted between others, and are flipped, on the
/// team's free sites off soft blockages, within the distance of the options from where they are.
/// After the rounds they are moved at random, as the search says. It makes no bin fuller that is then
/// above its density.
pub fn improvement_edits(
    alloc: Global,
    placement: &Placement,
    team: &PaddedTeam,
    wires: &WireNets<'_>,
    options: &ImproveOptions,
    search: &ImproveSearch,
) -> Result<Vec<CellEdit>, AllocError> {
    let tall = tall_moves(alloc, placement, team, wires, options)?;
    let movable = movable_cells(alloc, placement, team, 1)?;
    let source = NetSource {
        placement,
        netlist: wires.netlist,
        team: team.team,
        moved: tall.places.as_slice(),
        movable: &movable,
    };
    let nets = board_nets(alloc, &source, wires.of_teams.of(team.team))?;
    let cells = movable.cells.as_slice();
    let bins = bins_below(alloc, placement, search.density)?;
    let places = improved_places(
        alloc,
        &movable.free_rows,
        cells,
        &nets,
        options,
        search,
        bins,
    )?;
    let before = tall.edits.as_slice();
    edits_to(alloc, placement, team, &movable, places.as_slice(), before)
}
