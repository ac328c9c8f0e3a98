//! The lists of a netlist.

use crate::pins::PackedPin;
use crate::points::PinOffset;

/// The table of rows, the positions at which the pins of each net begin, and the pins of all nets.
#[derive(Clone, Copy)]
pub(crate) struct StoredNets<'a> {
    pub(crate) rows: &'a [PinOffset],
    pub(crate) starts: &'a [u32],
    pub(crate) pins: &'a [PackedPin],
}
