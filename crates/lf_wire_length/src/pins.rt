//! The pins of nets.

ghost use Rattle.std.specs.Prelude.{◌≡◌, All, IfSome, List, length, map, slice_get};
ghost use Rattle.lf_wire_length.specs.Bounds.{IsDesignPoint, IsPinInRange, IsPinOffset};
ghost use Rattle.lf_wire_length.specs.declared.points.PinOffset.{PinOffset};
ghost use Rattle.lf_wire_length.specs.Length.{point_of_pin};
ghost use Rattle.lf_wire_length.specs.Stored.{HasRow, IsRowKnown, fixed_pin, pin_by_row, pin_of_cell, pin_stored};

use crate::placed::PlacedCells;
use crate::points::{HalfPoint, PinOffset, point_of_cell_pin};

/// A pin of a net.
#[derive(Clone, Copy)]
pub enum NetPin {
    /// At a point that no command moves: a pin of a FIXED component, or of the design.
    Fixed(HalfPoint),
    /// Of the movable cell of this number.
    OfCell(u32, PinOffset),
    /// Its component, its macro's pin or a rectangle of that is not in the texts.
    Unknown,
    /// Of a component or of the design, without a place in the texts that can change.
    Unplaced,
}

/// A pin of a net, by its row in the table of a `Netlist`.
#[derive(Clone, Copy)]
pub enum PinRow {
    /// At a point that no command moves: the middle in this row.
    Fixed(u32),
    /// Of the movable cell of this number, and where the row says.
    OfCell(u32, u32),
    /// Its component, its macro's pin or a rectangle of that is not in the texts.
    Unknown,
    /// Of a component or of the design, without a place in the texts that can change.
    Unplaced,
}

/// Marks a pin at a point that no command moves, in place of the number of its cell.
const FIXED: u32 = 4_294_967_295;
/// Marks a pin that is unplaced.
const UNPLACED: u32 = 4_294_967_294;
/// Marks a pin that is unknown.
const UNKNOWN: u32 = 4_294_967_293;

/// A pin of a net in 8 bytes.
#[derive(Clone, Copy)]
pub(crate) struct PackedPin {
    /// The number of its cell, or a mark.
    cell: u32,
    /// Its row in the table; 0 if it needs none.
    row: u32,
}

/// Returns the pin, packed. Cells have numbers below `UNKNOWN`.
pub(crate) fn packed_pin(rows: &[PinOffset], pin: PinRow) -> PackedPin
    requires { HasRow (length rows.now) pin }
    ensures known { IsRowKnown (length rows.now) result }
    ensures is { pin_stored rows.now result ≡ pin_by_row rows.now pin }
{
    match pin {
        PinRow::Fixed(row) => PackedPin { cell: FIXED, row },
        PinRow::OfCell(cell, row) => PackedPin { cell, row },
        PinRow::Unknown => PackedPin {
            cell: UNKNOWN,
            row: 0,
        },
        PinRow::Unplaced => PackedPin {
            cell: UNPLACED,
            row: 0,
        },
    }
}

/// Returns the pin at the point of this row.
fn fixed_in(rows: &[PinOffset], row: u32) -> NetPin
    requires { All IsPinOffset rows.now }
    ensures in_range { IsPinInRange result }
    ensures is { result ≡ fixed_pin (slice_get rows.now row) }
{
    match rows.get(row as usize) {
        Some(pin) => NetPin::Fixed(pin.middle),
        None => NetPin::Unknown,
    }
}

/// Returns the pin of a cell in this row.
fn of_cell_in(rows: &[PinOffset], cell: u32, row: u32) -> NetPin
    requires { All IsPinOffset rows.now }
    ensures in_range { IsPinInRange result }
    ensures is { result ≡ pin_of_cell cell (slice_get rows.now row) }
{
    match rows.get(row as usize) {
        Some(pin) => NetPin::OfCell(cell, *pin),
        None => NetPin::Unknown,
    }
}

/// Returns the pin that is stored.
pub(crate) fn unpacked_pin(rows: &[PinOffset], pin: &PackedPin) -> NetPin
    requires { All IsPinOffset rows.now }
    ensures in_range { IsPinInRange result }
    ensures is { result ≡ pin_stored rows.now pin.now }
{
    if pin.cell == UNPLACED {
        NetPin::Unplaced
    } else if pin.cell == UNKNOWN {
        NetPin::Unknown
    } else if pin.cell == FIXED {
        fixed_in(rows, pin.row)
    } else {
        of_cell_in(rows, pin.cell, pin.row)
    }
}

/// Returns the pin by its row.
pub(crate) fn pin_row_of(pin: &PackedPin) -> PinRow
    ensures { (rows : List PinOffset) → pin_by_row rows result ≡ pin_stored rows pin.now }
{
    if pin.cell == UNPLACED {
        PinRow::Unplaced
    } else if pin.cell == UNKNOWN {
        PinRow::Unknown
    } else if pin.cell == FIXED {
        PinRow::Fixed(pin.row)
    } else {
        PinRow::OfCell(pin.cell, pin.row)
    }
}

/// Returns the point of a pin. `None` if the pin does not count.
pub(crate) fn stored_point<P: PlacedCells>(
    rows: &[PinOffset],
    pin: &PackedPin,
    places: &P,
) -> Option<HalfPoint>
    requires { All IsPinOffset rows.now }
    ensures in_range { IfSome result IsDesignPoint }
    ensures is { result ≡ point_of_pin (P.place_of places.now) (pin_stored rows.now pin.now) }
{
    match unpacked_pin(rows, pin) {
        NetPin::Fixed(point) => Some(point),
        NetPin::OfCell(cell, offset) => match places.place(cell) {
            Some(place) => Some(point_of_cell_pin(&place, &offset)),
            None => None,
        },
        NetPin::Unknown | NetPin::Unplaced => None,
    }
}
