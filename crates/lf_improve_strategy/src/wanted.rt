//! The nets of one cell with the boxes of their other pins, and the rectangle in which the cell
//! costs least.

ghost use Rattle.std.specs.Prelude.{◌<◌};

use crate::limits::coordinate;
use crate::nets_on_board::{BoardPoint, OrientedOffsets};
use crate::wires::{Bounds, Wires};
use lf_repair_planner::RowKind;
use std::alloc::{AllocError, Global};

/// The search does not move a cell with more nets.
const MOST_NETS: usize = 48;

/// A net of a cell: the box of its other pins, and for each orientation of the cell the box of the
/// cell's own pins from its corner.
#[derive(Clone, Copy)]
struct NetBox {
    net: u32,
    others: Bounds,
    own: [Bounds; 4],
}

/// The position of an orientation in the list of four.
fn index_of(orientation: RowKind) -> usize
    ensures { result < 4 }
{
    match orientation {
        RowKind::N => 0,
        RowKind::S => 1,
        RowKind::FN => 2,
        RowKind::FS => 3,
    }
}

impl NetBox {
    /// The width plus the height of the net's box if the cell has this corner and orientation.
    fn length_at(&self, corner: &BoardPoint, orientation: RowKind) -> i64 {
        let own = &self.own[index_of(orientation)];
        let around = Bounds {
            x1: corner.x.saturating_add(own.x1).min(self.others.x1),
            x2: corner.x.saturating_add(own.x2).max(self.others.x2),
            y1: corner.y.saturating_add(own.y1).min(self.others.y1),
            y2: corner.y.saturating_add(own.y2).max(self.others.y2),
        };
        around.length()
    }
}

/// The boxes of a pin's offsets.
fn boxes_of(offsets: &OrientedOffsets) -> [Bounds; 4] {
    [
        Bounds::of(&offsets.n),
        Bounds::of(&offsets.s),
        Bounds::of(&offsets.fn_),
        Bounds::of(&offsets.fs),
    ]
}

/// The boxes widened by one more pin's offsets.
fn widened(own: &[Bounds; 4], offsets: &OrientedOffsets) -> [Bounds; 4] {
    [
        own[0].with(&offsets.n),
        own[1].with(&offsets.s),
        own[2].with(&offsets.fn_),
        own[3].with(&offsets.fs),
    ]
}

/// The box of the pins of a net that are not of a cell.
fn others_of(wires: &Wires, net: u32, cell: u32) -> Bounds {
    let mut bounds = Bounds::empty();
    for pin in wires.pins_of_net(net) {
        if pin.cell != cell {
            bounds = bounds.with(&pin.at);
        }
    }
    bounds
}

/// The range in which a cell's nets are shortest, in half database units.
#[derive(Clone, Copy)]
pub struct WantedRange {
    low: i64,
    high: i64,
}

impl WantedRange {
    /// The number of the range nearest to this one.
    pub fn nearest(&self, number: i32) -> i32 {
        coordinate((number as i64).min(self.high).max(self.low))
    }

    /// The number at this part of the range, in 256ths of its length from its lower end.
    pub fn at_part(&self, part: u8) -> i32 {
        let length = self.high.saturating_sub(self.low);
        coordinate(
            self.low
                .saturating_add(length.saturating_mul(part as i64) / 256),
        )
    }
}

/// The nets of a cell.
#[derive(Drop)]
pub struct CellNets {
    boxes: Vec<NetBox>,
    /// The ends of the ranges in which the nets do not grow, along one axis.
    ends: Vec<i64>,
}

impl CellNets {
    /// No nets, which allocates nothing.
    pub fn new(alloc: Global) -> CellNets {
        CellNets {
            boxes: Vec::new(alloc),
            ends: Vec::new(alloc),
        }
    }

    /// Takes the nets of a cell that also have other pins. It takes none if they are too many. `Err`
    /// if an allocation fails.
    pub fn gather(&mut self, wires: &Wires, cell: u32) -> Result<(), AllocError> {
        self.boxes.clear();
        for pin in wires.pins_of_cell(cell) {
            let Some(of) = wires.pin(pin.pin) else {
                continue;
            };
            let Some(offsets) = wires.offsets_of(of) else {
                continue;
            };
            if let Some(last) = self.boxes.last_mut() {
                if last.net == pin.net {
                    last.own = widened(&last.own, offsets);
                    continue;
                }
            }
            self.boxes.push(NetBox {
                net: pin.net,
                others: others_of(wires, pin.net, cell),
                own: boxes_of(offsets),
            })?;
        }
        self.boxes.retain(|net| !net.others.is_empty());
        if MOST_NETS < self.boxes.len() {
            self.boxes.clear();
        }
        Ok(())
    }

    /// The sum of the nets' lengths if the cell has this corner and orientation.
    pub fn cost(&self, corner: &BoardPoint, orientation: RowKind) -> i64 {
        let mut sum: i64 = 0;
        for net in &self.boxes {
            sum = sum.saturating_add(net.length_at(corner, orientation));
        }
        sum
    }

    /// The range of x of the cell's corner in which the nets are shortest. `None` without nets. `Err`
    /// if an allocation fails.
    pub fn wanted_x(&mut self, orientation: RowKind) -> Result<Option<WantedRange>, AllocError> {
        self.ends.clear();
        for net in &self.boxes {
            let own = &net.own[index_of(orientation)];
            self.ends.push(net.others.x1 as i64 - own.x1 as i64)?;
            self.ends.push(net.others.x2 as i64 - own.x2 as i64)?;
        }
        Ok(self.middle())
    }

    /// The range of y of the cell's corner in which the nets are shortest. `None` without nets. `Err`
    /// if an allocation fails.
    pub fn wanted_y(&mut self, orientation: RowKind) -> Result<Option<WantedRange>, AllocError> {
        self.ends.clear();
        for net in &self.boxes {
            let own = &net.own[index_of(orientation)];
            self.ends.push(net.others.y1 as i64 - own.y1 as i64)?;
            self.ends.push(net.others.y2 as i64 - own.y2 as i64)?;
        }
        Ok(self.middle())
    }

    /// The range between the two middle ends.
    fn middle(&mut self) -> Option<WantedRange> {
        self.ends.sort_unstable();
        let half = self.ends.len() / 2;
        let low = *self.ends.get(half.checked_sub(1)?)?;
        let high = *self.ends.get(half)?;
        Some(WantedRange { low, high })
    }
}
