//! The rows of a netlist's table, each used again for equal offsets.

ghost use Rattle.std.specs.Prelude.{◌≡◌, ◌<◌, ◌++◌, ◌∷◌, [], IfOk, IfSome, OnOk, Some, IsTrue, length, slice_get};
ghost use Rattle.lf_wire_length.specs.Bounds.{IsOffsetPoint, IsPinOffset};
ghost use Rattle.lf_wire_length.specs.Stored.{HasRow, pin_by_row, with_pin};
ghost use Rattle.lf_wire_nets.specs.Binding.{IsBoundPin};
ghost use Rattle.lf_wire_nets.specs.Rows.{AreRowsKnown};

use lf_units::Point;
use lf_wire_length::{HalfPoint, NetPin, Netlist, NetlistError, PinOffset, PinRow};
use std::alloc::{AllocError, Global};

/// The number of recent rows. A library of a few thousand pins fits.
const RECENT: usize = 65_536;

/// The odd factor of the hash that selects the place of an offset among the recent ones.
const FACTOR: i64 = 40_503;

/// A netlist, with what is known of the rows of its table.
#[derive(Drop)]
pub(crate) struct NetRows {
    pub(crate) netlist: Netlist,
    /// The rows of the table.
    offsets: Vec<PinOffset>,
    /// For each hash the number of the row that was last used. Any numbers do.
    recent: Vec<u32>,
}

/// Returns the netlist without rows and nets. `Err` if an allocation fails.
pub(crate) fn no_rows(alloc: Global) -> Result<NetRows, AllocError>
    ensures known { IfOk result AreRowsKnown }
    ensures nets { IfOk result (λ rows. rows.netlist.nets ≡ []) }
{
    Ok(NetRows {
        netlist: Netlist::new(alloc),
        offsets: Vec::new(alloc),
        recent: vec![in alloc; 0; RECENT]?,
    })
}

/// Returns the place of an offset among the recent ones.
fn hash_of(offset: &PinOffset) -> usize {
    let middle = offset
        .middle
        .x
        .wrapping_mul(FACTOR)
        .wrapping_add(offset.middle.y);
    let hash = middle.wrapping_mul(FACTOR).wrapping_add(offset.size.x);
    hash.rem_euclid(65_536) as usize
}

/// Returns whether both offsets are the same.
fn is_same(a: &PinOffset, b: &PinOffset) -> bool
    ensures { IsTrue result → a.now ≡ b.now }
{
    a.size.x == b.size.x
        && a.size.y == b.size.y
        && a.middle.x == b.middle.x
        && a.middle.y == b.middle.y
}

/// Returns the number that is recent at this place, if it is that of a row with this offset.
fn recent_row(rows: &NetRows, hash: usize, offset: &PinOffset) -> Option<u32>
    ensures { IfSome result (λ number. slice_get rows.now.offsets.items number ≡ Some offset.now) }
{
    let number = *rows.recent.get(hash)?;
    let known = rows.offsets.get(number as usize)?;
    if is_same(known, offset) {
        Some(number)
    } else {
        None
    }
}

/// Makes the row recent at this place.
fn keep_row(recent: &mut Vec<u32>, hash: usize, number: u32) {
    if let Some(kept) = recent.get_mut(hash) {
        *kept = number;
    }
}

/// Appends a row with this offset and returns its number.
fn new_row(rows: &mut NetRows, offset: &PinOffset) -> Result<u32, NetlistError>
    requires known { AreRowsKnown rows.old }
    requires offset { IsPinOffset offset.now }
    ensures known { OnOk result (AreRowsKnown rows.new) }
    ensures nets { OnOk result (rows.new.netlist.nets ≡ rows.old.netlist.nets) }
    ensures found { IfOk result (λ number. slice_get rows.new.netlist.rows number ≡ Some offset.now) }
{
    let number = rows.netlist.add_row(*offset)?;
    match rows.offsets.push(*offset) {
        Ok(()) => Ok(number),
        Err(_) => Err(NetlistError::OutOfMemory),
    }
}

/// Returns the number of a row with this offset, and appends one if none is recent.
fn row_of(rows: &mut NetRows, offset: &PinOffset) -> Result<u32, NetlistError>
    requires known { AreRowsKnown rows.old }
    requires offset { IsPinOffset offset.now }
    ensures known { OnOk result (AreRowsKnown rows.new) }
    ensures nets { OnOk result (rows.new.netlist.nets ≡ rows.old.netlist.nets) }
    ensures found { IfOk result (λ number. slice_get rows.new.netlist.rows number ≡ Some offset.now) }
{
    let hash = hash_of(offset);
    if let Some(number) = recent_row(rows, hash, offset) {
        return Ok(number);
    }
    let number = new_row(rows, offset)?;
    keep_row(&mut rows.recent, hash, number);
    Ok(number)
}

/// Returns the row of a pin at a point that no command moves.
fn row_of_point(point: &HalfPoint) -> PinOffset
    requires { IsOffsetPoint point.now }
    ensures in_range { IsPinOffset result }
    ensures is { result.middle ≡ point.now }
{
    PinOffset {
        size: Point { x: 0, y: 0 },
        middle: *point,
    }
}

/// Returns the pin with its row, which is appended if no such row is recent.
fn pin_row(rows: &mut NetRows, pin: &NetPin) -> Result<PinRow, NetlistError>
    requires known { AreRowsKnown rows.old }
    requires pin { IsBoundPin pin.now }
    ensures known { OnOk result (AreRowsKnown rows.new) }
    ensures nets { OnOk result (rows.new.netlist.nets ≡ rows.old.netlist.nets) }
    ensures has_row { IfOk result (HasRow (length rows.new.netlist.rows)) }
    ensures is { IfOk result (λ row. pin_by_row rows.new.netlist.rows row ≡ pin.now) }
{
    match pin {
        NetPin::OfCell(cell, offset) => {
            let number = row_of(rows, offset)?;
            Ok(PinRow::OfCell(*cell, number))
        }
        NetPin::Fixed(point) => {
            let number = row_of(rows, &row_of_point(point))?;
            Ok(PinRow::Fixed(number))
        }
        NetPin::Unknown => Ok(PinRow::Unknown),
        NetPin::Unplaced => Ok(PinRow::Unplaced),
    }
}

/// Appends the pin to the last net.
pub(crate) fn push_pin(rows: &mut NetRows, pin: &NetPin) -> Result<(), NetlistError>
    requires known { AreRowsKnown rows.old }
    requires net { 0 < length rows.old.netlist.nets }
    requires pin { IsBoundPin pin.now }
    ensures known { OnOk result (AreRowsKnown rows.new) }
    ensures nets { OnOk result (rows.new.netlist.nets ≡ with_pin pin.now rows.old.netlist.nets) }
{
    let row = pin_row(rows, pin)?;
    rows.netlist.push_pin(row)
}

/// Appends a net without pins.
pub(crate) fn start_net(rows: &mut NetRows) -> Result<(), NetlistError>
    requires known { AreRowsKnown rows.old }
    ensures known { OnOk result (AreRowsKnown rows.new) }
    ensures nets { OnOk result (rows.new.netlist.nets ≡ rows.old.netlist.nets ++ [] ∷ []) }
{
    rows.netlist.start_net()
}

/// Returns the netlist.
pub(crate) fn netlist_of(rows: NetRows) -> Netlist
    ensures { result ≡ rows.netlist }
{
    let NetRows {
        netlist,
        offsets: _,
        recent: _,
    } = rows;
    netlist
}
