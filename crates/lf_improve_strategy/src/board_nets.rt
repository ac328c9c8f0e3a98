//! The nets of a team, for the search.

ghost use Rattle.std.specs.Prelude.{◌<◌, length};
ghost use Rattle.lf_wire_length.specs.Bounds.{IsPinOffset};

use crate::movable::MovableCells;
use crate::nets_on_board::{BoardNets, BoardPin, BoardPoint, OrientedOffsets};
use lf_cells::CellId;
use lf_floorplan::Place;
use lf_orient::Orient;
use lf_placement::Placement;
use lf_wire_length::{HalfPoint, Netlist, PinOffset, PinRow, point_of_cell_pin};
use std::alloc::{AllocError, Global};

/// What the nets of a team refer to: the placement, the netlist, the number of the team, the new
/// places of its cells, and those that may still move.
#[derive(Clone, Copy)]
pub(crate) struct NetSource<'a> {
    pub(crate) placement: &'a Placement,
    pub(crate) netlist: &'a Netlist,
    pub(crate) team: usize,
    pub(crate) moved: &'a [Option<Place>],
    pub(crate) movable: &'a MovableCells,
}

/// The point, its coordinates limited to 32 bits.
fn board_point(point: &HalfPoint) -> BoardPoint {
    BoardPoint {
        x: point.x.clamp(-2_147_483_648, 2_147_483_647) as i32,
        y: point.y.clamp(-2_147_483_648, 2_147_483_647) as i32,
    }
}

/// The point of a pin in a cell at the origin with this orientation.
fn offset_in(row: &PinOffset, orient: Orient) -> BoardPoint
    requires { IsPinOffset row.now }
{
    board_point(&point_of_cell_pin(&Place::new(0, 0, orient), row))
}

/// The points of a pin in a cell at the origin, for each orientation of the cell.
fn offsets_of(row: &PinOffset) -> OrientedOffsets
    requires { IsPinOffset row.now }
{
    OrientedOffsets {
        n: offset_in(row, Orient::N),
        s: offset_in(row, Orient::S),
        fn_: offset_in(row, Orient::FN),
        fs: offset_in(row, Orient::FS),
    }
}

/// Appends the offsets of all rows of the netlist.
fn push_all_offsets(netlist: &Netlist, nets: &mut BoardNets) -> Result<(), AllocError> {
    for number in 0..netlist.row_count() {
        if let Some(row) = netlist.row(number as u32) {
            nets.push_offsets(offsets_of(&row))?;
        }
    }
    Ok(())
}

/// Whether the cell is of the team with this number.
fn is_of_team(id: CellId, team: usize) -> bool {
    id.team as usize == team
}

/// Where the cell is: at its new place if it has moved. `None` if it is unplaced.
fn place_now(source: &NetSource<'_>, id: CellId) -> Option<Place> {
    if is_of_team(id, source.team) {
        if let Some(Some(moved)) = source.moved.get(id.own as usize) {
            return Some(*moved);
        }
    }
    source.placement.cells().working(id)
}

/// The pin in this row of the cell of this number: it moves with its cell if the cell may move,
/// otherwise it is where the cell is. `None` if the cell is unplaced, or there is none.
fn pin_of_cell(source: &NetSource<'_>, cell: u32, row: u32) -> Option<BoardPin> {
    let cells = source.placement.cells();
    let id = *cells.cell_ids().get(cell as usize)?;
    if is_of_team(id, source.team) {
        if let Some(position) = source.movable.position_of(id.own) {
            return Some(BoardPin::OfCell {
                cell: position,
                offsets: row,
            });
        }
    }
    let place = place_now(source, id)?;
    let offset = source.netlist.row(row)?;
    Some(BoardPin::Fixed(board_point(&point_of_cell_pin(&place, &offset))))
}

/// The pin for the search. `None` if it does not count.
fn board_pin(source: &NetSource<'_>, pin: PinRow) -> Option<BoardPin> {
    match pin {
        PinRow::Fixed(row) => {
            let at = source.netlist.row(row)?;
            Some(BoardPin::Fixed(board_point(&at.middle)))
        }
        PinRow::OfCell(cell, row) => pin_of_cell(source, cell, row),
        PinRow::Unknown | PinRow::Unplaced => None,
    }
}

/// Appends the net of this number.
fn push_net(source: &NetSource<'_>, net: usize, nets: &mut BoardNets) -> Result<(), AllocError>
    requires { net < length source.now.netlist.now.nets }
{
    nets.push_net()?;
    for at in 0..source.netlist.pin_count(net) {
        let Some(pin) = source.netlist.pin(net, at) else {
            continue;
        };
        if let Some(pin) = board_pin(source, pin) {
            nets.push_pin(pin)?;
        }
    }
    Ok(())
}

/// The nets of the team for the search, of the numbers of its nets. `Err` if an allocation fails.
pub(crate) fn board_nets(
    alloc: Global,
    source: &NetSource<'_>,
    listed: &[u32],
) -> Result<BoardNets, AllocError> {
    let mut nets = BoardNets::new(alloc);
    push_all_offsets(source.netlist, &mut nets)?;
    for net in listed {
        let net = *net as usize;
        if net < source.netlist.len() {
            push_net(source, net, &mut nets)?;
        }
    }
    Ok(nets)
}
