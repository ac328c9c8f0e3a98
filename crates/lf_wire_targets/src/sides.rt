//! The sides of the boxes around the other pins of a cell's nets.

ghost use Rattle.std.specs.Prelude.{◌<◌, length};

use lf_floorplan::Place;
use lf_wire_length::{HalfPoint, Netlist, PinRow, point_of_cell_pin};
use std::alloc::{AllocError, Global};

/// The most pins of a net that is near to something.
const MOST_PINS: usize = 100;

/// A side of a box, for a cell without a place that has a pin of the box's net.
#[derive(Clone, Copy, PartialEq, Eq, PartialOrd, Ord)]
pub(crate) struct Side {
    /// The number of the cell.
    pub(crate) cell: u32,
    /// Where the cell's lower left corner would be if its pin were on the side, in half database units.
    pub(crate) at: i64,
}

/// The sides of boxes, for cells without a place.
#[derive(Drop)]
pub(crate) struct Sides {
    /// The left and right sides.
    pub(crate) across: Vec<Side>,
    /// The lower and upper sides.
    pub(crate) up: Vec<Side>,
}

/// The least box around points.
#[derive(Clone, Copy)]
struct PointBox {
    low: HalfPoint,
    high: HalfPoint,
}

/// Returns the place of the cell of this number. `None` if it is unplaced or there is no such cell.
fn place_of(places: &[Option<Place>], cell: u32) -> Option<Place> {
    match places.get(cell as usize) {
        Some(place) => *place,
        None => None,
    }
}

/// Returns the point of a pin. `None` if it has no place.
fn point_of(netlist: &Netlist, places: &[Option<Place>], pin: PinRow) -> Option<HalfPoint> {
    match pin {
        PinRow::Fixed(row) => Some(netlist.row(row)?.middle),
        PinRow::OfCell(cell, row) => {
            let place = place_of(places, cell)?;
            let offset = netlist.row(row)?;
            Some(point_of_cell_pin(&place, &offset))
        }
        PinRow::Unknown | PinRow::Unplaced => None,
    }
}

/// Returns the least box around the box, if there is one, and the point.
fn widened(seen: Option<PointBox>, point: HalfPoint) -> PointBox {
    match seen {
        None => PointBox {
            low: point,
            high: point,
        },
        Some(seen) => PointBox {
            low: HalfPoint {
                x: seen.low.x.min(point.x),
                y: seen.low.y.min(point.y),
            },
            high: HalfPoint {
                x: seen.high.x.max(point.x),
                y: seen.high.y.max(point.y),
            },
        },
    }
}

/// Returns the least box around the pins of the net that have a place. `None` if none has one.
fn box_of_net(netlist: &Netlist, places: &[Option<Place>], net: usize) -> Option<PointBox>
    requires { net < length netlist.now.nets }
{
    let mut seen = None;
    for at in 0..netlist.pin_count(net) {
        let Some(pin) = netlist.pin(net, at) else {
            continue;
        };
        let Some(point) = point_of(netlist, places, pin) else {
            continue;
        };
        seen = Some(widened(seen, point));
    }
    seen
}

impl Sides {
    /// Returns no sides. Allocates nothing.
    fn new(alloc: Global) -> Sides {
        Sides {
            across: Vec::new(alloc),
            up: Vec::new(alloc),
        }
    }

    /// Adds the sides of the box for the cell of this number, whose pin is at `middle` of its macro.
    fn add(&mut self, cell: u32, around: &PointBox, middle: &HalfPoint) -> Result<(), AllocError> {
        for x in [around.low.x, around.high.x] {
            self.across.push(Side {
                cell,
                at: x.saturating_sub(middle.x),
            })?;
        }
        for y in [around.low.y, around.high.y] {
            self.up.push(Side {
                cell,
                at: y.saturating_sub(middle.y),
            })?;
        }
        Ok(())
    }

    /// Adds the sides of the box around the pins of the net, for each cell without a place that has a pin
    /// of it.
    fn add_net(
        &mut self,
        netlist: &Netlist,
        places: &[Option<Place>],
        net: usize,
    ) -> Result<(), AllocError>
        requires { net < length netlist.now.nets }
    {
        let pins = netlist.pin_count(net);
        if pins > MOST_PINS {
            return Ok(());
        }
        let Some(around) = box_of_net(netlist, places, net) else {
            return Ok(());
        };
        for at in 0..pins {
            let Some(PinRow::OfCell(cell, row)) = netlist.pin(net, at) else {
                continue;
            };
            if place_of(places, cell).is_some() {
                continue;
            }
            let Some(pin) = netlist.row(row) else {
                continue;
            };
            self.add(cell, &around, &pin.middle)?;
        }
        Ok(())
    }
}

/// Returns the sides of the boxes of all nets, for each cell without a place that has a pin of one. The
/// list has the place of each cell. `Err` if an allocation fails.
pub(crate) fn sides_of_nets(
    alloc: Global,
    netlist: &Netlist,
    places: &[Option<Place>],
) -> Result<Sides, AllocError> {
    let mut sides = Sides::new(alloc);
    for net in 0..netlist.len() {
        sides.add_net(netlist, places, net)?;
    }
    sides.across.sort_unstable();
    sides.up.sort_unstable();
    Ok(sides)
}
