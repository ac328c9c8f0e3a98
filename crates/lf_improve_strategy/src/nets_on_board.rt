//! The nets of a board, as the caller lists them.

use crate::limits::number_of;
use lf_repair_planner::RowKind;
use std::alloc::{AllocError, Global};

/// A point in half database units.
#[derive(Clone, Copy)]
pub struct BoardPoint {
    pub x: i32,
    pub y: i32,
}

/// The point of a pin from the lower left corner of its cell, for each orientation of the cell.
#[derive(Clone, Copy)]
pub struct OrientedOffsets {
    pub n: BoardPoint,
    pub s: BoardPoint,
    pub fn_: BoardPoint,
    pub fs: BoardPoint,
}

impl OrientedOffsets {
    /// The point for this orientation.
    pub(crate) fn of(&self, orientation: RowKind) -> BoardPoint {
        match orientation {
            RowKind::N => self.n,
            RowKind::S => self.s,
            RowKind::FN => self.fn_,
            RowKind::FS => self.fs,
        }
    }
}

/// A pin of a net: at a point that no cell moves, or of the cell at a position in the list of cells
/// with the offsets of this number.
#[derive(Clone, Copy)]
pub enum BoardPin {
    Fixed(BoardPoint),
    OfCell { cell: u32, offsets: u32 },
}

/// Nets, the pins of each, and the offsets that the pins share.
#[derive(Drop)]
pub struct BoardNets {
    /// For each net the position of its first pin.
    starts: Vec<u32>,
    pins: Vec<BoardPin>,
    offsets: Vec<OrientedOffsets>,
}

impl BoardNets {
    /// No nets, which allocates nothing.
    pub fn new(alloc: Global) -> BoardNets {
        BoardNets {
            starts: Vec::new(alloc),
            pins: Vec::new(alloc),
            offsets: Vec::new(alloc),
        }
    }

    /// Adds offsets, and returns their number.
    pub fn push_offsets(&mut self, offsets: OrientedOffsets) -> Result<u32, AllocError> {
        let number = number_of(self.offsets.len());
        self.offsets.push(offsets)?;
        Ok(number)
    }

    /// Adds a net without pins.
    pub fn push_net(&mut self) -> Result<(), AllocError> {
        self.starts.push(number_of(self.pins.len()))?;
        Ok(())
    }

    /// Adds a pin to the last net. A pin in front of the first net belongs to no net.
    pub fn push_pin(&mut self, pin: BoardPin) -> Result<(), AllocError> {
        self.pins.push(pin)?;
        Ok(())
    }

    /// The number of nets.
    pub(crate) fn count(&self) -> usize {
        self.starts.len()
    }

    /// The pins of the net at this position.
    pub(crate) fn pins_of(&self, net: usize) -> &[BoardPin] {
        let first = self.starts.get(net).copied().unwrap_or(u32::MAX);
        let last = match self.starts.get(net.saturating_add(1)) {
            Some(start) => *start as usize,
            None => self.pins.len(),
        };
        self.pins.get(first as usize..last).unwrap_or(&[])
    }

    /// The offsets of this number.
    pub(crate) fn offsets_of(&self, number: u32) -> Option<&OrientedOffsets> {
        self.offsets.get(number as usize)
    }
}
