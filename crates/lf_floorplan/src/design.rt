//! The macros of a frame's cells.

ghost use Rattle.std.specs.Prelude.{◌≡◌, ◌↔◌, ℤ, pos, ◌<◌, ◌<ℤ◌, IsTrue, length};
ghost use Rattle.lf_floorplan.specs.Bounds.{IsLefLength, IsLefSize, IsLimit};
ghost use Rattle.lf_units.specs.Length.{IsLength, in_dbu};
ghost use Rattle.lf_floorplan.specs.Boxes.{IsSized, macro_of};

use crate::frame::Frame;
use crate::macros::Macro;
use lf_units::{Point, micros_to_dbu};

/// Returns whether a LEF text can hold the length.
fn is_lef_length(micros: i64) -> bool
    ensures { IsTrue result ↔ IsLefLength micros }
{
    if micros < -1_000_000_000_000 {
        return false;
    }
    micros <= 1_000_000_000_000
}

/// Returns whether a LEF text can hold both lengths.
fn is_lef_size(size: &Point) -> bool
    ensures { IsTrue result ↔ IsLefSize size.now }
{
    if !is_lef_length(size.x) {
        return false;
    }
    is_lef_length(size.y)
}

/// Returns whether the length is whole in database units and above 0.
fn is_whole(micros: i64, units: u32) -> bool
    requires units { IsLimit units 20000 }
    requires in_lef { IsLefLength micros }
    ensures { IsTrue result ↔ (IsLength units micros (in_dbu units micros) × (pos 0 <ℤ in_dbu units micros)) }
{
    match micros_to_dbu(micros, units) {
        Some(length) => 0 < length,
        None => false,
    }
}

/// Returns the macro of this number, as in a cell's `mac`. The number must be that of a macro.
pub fn mac_at(frame: &Frame, number: usize) -> &Macro
    requires { number < length frame.now.macros }
    ensures { result.now ≡ macro_of frame.now number }
{
    &frame.macros.as_slice()[number]
}

/// Returns whether cells may be of the macro: its size is whole in database units and above 0 in x
/// and in y.
pub fn is_sized(frame: &Frame, mac: &Macro) -> bool
    ensures { IsTrue result ↔ IsSized frame.now mac.now }
{
    if !is_lef_size(&mac.size) {
        return false;
    }
    if !is_whole(mac.size.x, frame.header.units) {
        return false;
    }
    is_whole(mac.size.y, frame.header.units)
}
