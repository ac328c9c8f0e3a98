//! The nets that a search looks at, with the present points of their pins.

ghost use Rattle.std.specs.Prelude.{◌<ℤ◌, negsuc, pos};

use crate::bins::BinBox;
use crate::board::Board;
use crate::limits::{doubled, number_of};
use crate::nets_on_board::{BoardNets, BoardPin, BoardPoint, OrientedOffsets};
use lf_repair_planner::RowKind;
use std::alloc::{AllocError, Global};

/// The search does not look at nets with more pins.
const MOST_PINS: usize = 64;

/// The number of the cell of a pin at a fixed point.
const NO_CELL: u32 = u32::MAX;

/// A pin: its point now, its cell, and the number of its offsets.
#[derive(Clone, Copy)]
pub(crate) struct Pin {
    pub(crate) at: BoardPoint,
    pub(crate) cell: u32,
    pub(crate) offsets: u32,
}

/// A net: the positions of its pins, from `first` on and below `last`, and its length.
#[derive(Clone, Copy)]
pub(crate) struct Net {
    first: u32,
    last: u32,
    length: i64,
    /// Whether the net is one of those that a change touches.
    is_touched: bool,
}

/// A pin of a cell by its position, and its net.
#[derive(Clone, Copy)]
pub(crate) struct CellPin {
    pub(crate) pin: u32,
    pub(crate) net: u32,
}

/// By how much the second coordinate is greater than the first.
fn difference(first: i32, second: i32) -> i64
    ensures above { negsuc 4294967295 <ℤ result }
    ensures below { result <ℤ pos 4294967296 }
{
    second as i64 - first as i64
}

/// The least box around points, in half database units.
#[derive(Clone, Copy)]
pub(crate) struct Bounds {
    pub(crate) x1: i32,
    pub(crate) x2: i32,
    pub(crate) y1: i32,
    pub(crate) y2: i32,
}

impl Bounds {
    /// The box of no points.
    pub(crate) fn empty() -> Bounds {
        Bounds {
            x1: i32::MAX,
            x2: i32::MIN,
            y1: i32::MAX,
            y2: i32::MIN,
        }
    }

    /// The box of one point.
    pub(crate) fn of(point: &BoardPoint) -> Bounds {
        Bounds {
            x1: point.x,
            x2: point.x,
            y1: point.y,
            y2: point.y,
        }
    }

    /// Whether it is the box of no points.
    pub(crate) fn is_empty(&self) -> bool {
        self.x2 < self.x1
    }

    /// The least box around this one and a point.
    pub(crate) fn with(&self, point: &BoardPoint) -> Bounds {
        Bounds {
            x1: self.x1.min(point.x),
            x2: self.x2.max(point.x),
            y1: self.y1.min(point.y),
            y2: self.y2.max(point.y),
        }
    }

    /// The width plus the height.
    pub(crate) fn length(&self) -> i64 {
        difference(self.x1, self.x2) + difference(self.y1, self.y2)
    }
}

/// The length of a net with these pins. It has one at least.
fn length_of(pins: &[Pin]) -> i64 {
    let mut bounds = Bounds::empty();
    for pin in pins {
        bounds = bounds.with(&pin.at);
    }
    bounds.length()
}

/// The nets with at least two and at most `MOST_PINS` pins, if a cell has one of them.
#[derive(Drop)]
pub struct Wires<'a> {
    given: &'a BoardNets,
    nets: Vec<Net>,
    pins: Vec<Pin>,
    /// For each cell the position of its first pin in `cell_pins`, and the end of the last.
    cell_starts: Vec<u32>,
    cell_pins: Vec<CellPin>,
    /// The nets that a change touches.
    touched: Vec<u32>,
    /// The boxes of the cells that a change moves, before and after it.
    pub(crate) boxes: Vec<(BinBox, BinBox)>,
}

impl<'a> Wires<'a> {
    /// The nets of a board. `Err` if an allocation fails.
    pub fn new(
        alloc: Global,
        given: &'a BoardNets,
        board: &Board,
    ) -> Result<Wires<'a>, AllocError> {
        let mut wires = Wires {
            given,
            nets: Vec::new(alloc),
            pins: Vec::new(alloc),
            cell_starts: Vec::new(alloc),
            cell_pins: Vec::new(alloc),
            touched: Vec::new(alloc),
            boxes: Vec::new(alloc),
        };
        for net in 0..given.count() {
            wires.push_net(given.pins_of(net), board)?;
        }
        wires.list_cells(alloc, board)?;
        Ok(wires)
    }

    /// Adds a net if the search looks at it.
    fn push_net(&mut self, given: &[BoardPin], board: &Board) -> Result<(), AllocError> {
        let is_movable = given
            .iter()
            .any(|pin| matches!(pin, BoardPin::OfCell { .. }));
        if given.len() < 2 || MOST_PINS < given.len() || !is_movable {
            return Ok(());
        }
        let first = self.pins.len();
        for pin in given {
            self.pins.push(pin_of(self.given, pin, board))?;
        }
        let pins = self.pins.as_slice().get(first..).unwrap_or(&[]);
        let length = length_of(pins);
        self.nets.push(Net {
            first: number_of(first),
            last: number_of(self.pins.len()),
            length,
            is_touched: false,
        })?;
        Ok(())
    }

    /// Lists the pins of each cell, in the order of their nets.
    fn list_cells(&mut self, alloc: Global, board: &Board) -> Result<(), AllocError> {
        let mut next = starts_of(alloc, self.pins.as_slice(), board.cells.len())?;
        self.cell_starts = next.clone()?;
        let none = CellPin { pin: 0, net: 0 };
        let total = next.last().copied().unwrap_or(0);
        self.cell_pins = vec![in alloc; none; total as usize]?;
        for (number, net) in self.nets.iter().enumerate() {
            for pin in net.first..net.last {
                let Some(of) = self.pins.get(pin as usize) else {
                    continue;
                };
                let Some(place) = next.get_mut(of.cell as usize) else {
                    continue;
                };
                if let Some(entry) = self.cell_pins.get_mut(*place as usize) {
                    *entry = CellPin {
                        pin,
                        net: number_of(number),
                    };
                }
                *place = place.saturating_add(1);
            }
        }
        Ok(())
    }

    /// The pins of a cell, in the order of their nets.
    pub(crate) fn pins_of_cell(&self, cell: u32) -> &[CellPin] {
        pins_at(&self.cell_starts, &self.cell_pins, cell)
    }

    /// The pin at this position.
    pub(crate) fn pin(&self, position: u32) -> Option<&Pin> {
        self.pins.get(position as usize)
    }

    /// The offsets of a pin.
    pub(crate) fn offsets_of(&self, pin: &Pin) -> Option<&OrientedOffsets> {
        self.given.offsets_of(pin.offsets)
    }

    /// The pins of the net at this position.
    pub(crate) fn pins_of_net(&self, net: u32) -> &[Pin] {
        match self.nets.get(net as usize) {
            Some(net) => pins_of(&self.pins, net),
            None => &[],
        }
    }

    /// The sum of the lengths of all nets.
    pub fn length(&self) -> i64 {
        let mut sum: i64 = 0;
        for net in &self.nets {
            sum = sum.saturating_add(net.length);
        }
        sum
    }

    /// Adds the nets of a cell to those that a change touches.
    pub(crate) fn touch(&mut self, cell: u32) -> Result<(), AllocError> {
        for pin in pins_at(&self.cell_starts, &self.cell_pins, cell) {
            if let Some(net) = self.nets.get_mut(pin.net as usize) {
                if !net.is_touched {
                    net.is_touched = true;
                    self.touched.push(pin.net)?;
                }
            }
        }
        Ok(())
    }

    /// Moves the pins of a cell to those of this corner and orientation.
    pub(crate) fn move_pins(&mut self, cell: u32, corner: &BoardPoint, orientation: RowKind) {
        for pin in pins_at(&self.cell_starts, &self.cell_pins, cell) {
            if let Some(pin) = self.pins.get_mut(pin.pin as usize) {
                pin.at = moved_to(self.given, pin.offsets, corner, orientation);
            }
        }
    }

    /// By how much the touched nets are longer than before the pins were moved.
    pub(crate) fn change(&self) -> i64 {
        let mut sum: i64 = 0;
        for number in &self.touched {
            if let Some(net) = self.nets.get(*number as usize) {
                let now = length_of(pins_of(&self.pins, net));
                sum = sum.saturating_add(now.saturating_sub(net.length));
            }
        }
        sum
    }

    /// Takes over the present lengths of the touched nets.
    pub(crate) fn keep(&mut self) {
        for number in &self.touched {
            if let Some(net) = self.nets.get_mut(*number as usize) {
                net.length = length_of(pins_of(&self.pins, net));
            }
        }
    }

    /// Begins a new change, which touches no net.
    pub(crate) fn clear(&mut self) {
        for number in &self.touched {
            if let Some(net) = self.nets.get_mut(*number as usize) {
                net.is_touched = false;
            }
        }
        self.touched.clear();
    }
}

/// The pins of a net.
fn pins_of<'p>(pins: &'p Vec<Pin>, net: &Net) -> &'p [Pin] {
    pins.get(net.first as usize..net.last as usize)
        .unwrap_or(&[])
}

/// The pins of a cell in the list of those of all cells.
fn pins_at<'p>(starts: &Vec<u32>, pins: &'p Vec<CellPin>, cell: u32) -> &'p [CellPin] {
    let cell = cell as usize;
    match (starts.get(cell), starts.get(cell.saturating_add(1))) {
        (Some(first), Some(last)) => pins.get(*first as usize..*last as usize).unwrap_or(&[]),
        _ => &[],
    }
}

/// The point of a pin with these offsets, if its cell has this corner and orientation.
fn moved_to(
    given: &BoardNets,
    offsets: u32,
    corner: &BoardPoint,
    orientation: RowKind,
) -> BoardPoint {
    let Some(offsets) = given.offsets_of(offsets) else {
        return *corner;
    };
    let offset = offsets.of(orientation);
    BoardPoint {
        x: corner.x.saturating_add(offset.x),
        y: corner.y.saturating_add(offset.y),
    }
}

/// A pin at its point at the beginning.
fn pin_of(given: &BoardNets, pin: &BoardPin, board: &Board) -> Pin {
    match pin {
        BoardPin::Fixed(at) => Pin {
            at: *at,
            cell: NO_CELL,
            offsets: 0,
        },
        BoardPin::OfCell { cell, offsets } => Pin {
            at: first_point(given, *cell, *offsets, board),
            cell: *cell,
            offsets: *offsets,
        },
    }
}

/// The point of a cell's pin at the beginning. A cell that is not listed is at 0 0.
fn first_point(given: &BoardNets, cell: u32, offsets: u32, board: &Board) -> BoardPoint {
    let Some(cell) = board.cells.get(cell as usize) else {
        return BoardPoint { x: 0, y: 0 };
    };
    let corner = BoardPoint {
        x: doubled(cell.place.x as i64),
        y: doubled(cell.place.y as i64),
    };
    moved_to(given, offsets, &corner, cell.place.orientation)
}

/// For each cell the number of pins of the cells in front of it, and at the end the number of pins
/// of all cells.
fn starts_of(alloc: Global, pins: &[Pin], count: usize) -> Result<Vec<u32>, AllocError> {
    let mut starts = vec![in alloc; 0u32; count]?;
    for pin in pins {
        if let Some(number) = starts.get_mut(pin.cell as usize) {
            *number = number.saturating_add(1);
        }
    }
    let mut sum: u32 = 0;
    for start in starts.iter_mut() {
        let number = *start;
        *start = sum;
        sum = sum.saturating_add(number);
    }
    starts.push(sum)?;
    Ok(starts)
}
