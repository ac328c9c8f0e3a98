//! The points of the pins of placed cells.

ghost use Rattle.std.specs.Prelude.{◌≡◌, ◌++◌, ◌<◌, [], IfOk, OnOk, length, option_to_list, pos, slice_get, slice_index_or};
ghost use Rattle.std.specs.Int.{int_div_euclid};
ghost use Rattle.std.specs.List.{filter_map};
ghost use Rattle.lf_wire_length.specs.Stored.{pin_by_row};
ghost use Rattle.lf_wire_density.specs.PinPoints.{cell_pin_point, cell_pin_points, whole_point};

use lf_units::Point;
use lf_wire_length::{HalfPoint, Netlist, PinRow, PlacedCells, point_of_cell_pin};
use std::alloc::{AllocError, Global};

/// Returns half the number, rounded down.
fn half(z: i64) -> i64
    ensures { result ≡ int_div_euclid z (pos 2) }
{
    z.div_euclid(2)
}

/// Returns the point in database units, rounded down.
fn whole_point(point: &HalfPoint) -> Point
    ensures { result ≡ whole_point point.now }
{
    Point {
        x: half(point.x),
        y: half(point.y),
    }
}

/// Returns the point of a pin. `None` if the pin is of no movable cell, or its cell is unplaced.
fn cell_pin_point<P: PlacedCells>(netlist: &Netlist, pin: PinRow, places: &P) -> Option<Point>
    ensures { result ≡ cell_pin_point (P.place_of places.now) (pin_by_row netlist.now.rows pin) }
{
    match pin {
        PinRow::OfCell(cell, row) => {
            let offset = netlist.row(row)?;
            let place = places.place(cell)?;
            Some(whole_point(&point_of_cell_pin(&place, &offset)))
        }
        PinRow::Fixed(_) => None,
        PinRow::Unknown => None,
        PinRow::Unplaced => None,
    }
}

/// Appends the point of the pin at this position of the net, if it has one. `Err` if an allocation
/// fails.
fn push_pin<P: PlacedCells>(
    points: &mut Vec<Point>,
    netlist: &Netlist,
    places: &P,
    net: usize,
    at: usize,
) -> Result<(), AllocError>
    requires { net < length netlist.now.nets }
    ensures { OnOk result (points.new.items ≡ points.old.items ++ filter_map (cell_pin_point (P.place_of places.now))
        (option_to_list (slice_get (slice_index_or netlist.now.nets net []) at))) }
{
    let Some(pin) = netlist.pin(net, at) else {
        return Ok(());
    };
    let Some(point) = cell_pin_point(netlist, pin, places) else {
        return Ok(());
    };
    points.push(point)?;
    Ok(())
}

/// Appends the points of the pins of the net. `Err` if an allocation fails.
fn push_net<P: PlacedCells>(
    points: &mut Vec<Point>,
    netlist: &Netlist,
    places: &P,
    net: usize,
) -> Result<(), AllocError>
    requires { net < length netlist.now.nets }
    ensures { OnOk result (points.new.items ≡ points.old.items
        ++ filter_map (cell_pin_point (P.place_of places.now)) (slice_index_or netlist.now.nets net [])) }
{
    for at in 0..netlist.pin_count(net) {
        push_pin(points, netlist, places, net, at)?;
    }
    Ok(())
}

/// Returns the points of the pins of placed cells, net by net. `Err` if an allocation fails.
pub(crate) fn cell_pin_points<P: PlacedCells>(
    alloc: Global,
    netlist: &Netlist,
    places: &P,
) -> Result<Vec<Point>, AllocError>
    ensures { IfOk result (λ points. points.items ≡ cell_pin_points (P.place_of places.now) netlist.now.nets) }
{
    let mut points = Vec::new(alloc);
    for net in 0..netlist.len() {
        push_net(&mut points, netlist, places, net)?;
    }
    Ok(points)
}
