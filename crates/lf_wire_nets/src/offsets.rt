//! Where pins are in macros.

ghost use Rattle.std.specs.Prelude.{◌≡◌, ◌*ℤ◌, ◌≤ℤ◌, All, IfSome, find, negsuc, pos};
ghost use Rattle.std.specs.Option.{option_copied};
ghost use Rattle.std.specs.Int.RustNames.{int_div};
ghost use Rattle.lf_floorplan.specs.Bounds.{IsLefLength, IsLefSize, IsLimit};
ghost use Rattle.lf_floorplan.specs.Sizes.{size_in_dbu};
ghost use Rattle.lf_units.specs.Length.{in_dbu};
ghost use Rattle.lf_wire_length.specs.Bounds.{IsMacroLength, IsPinBox, IsPinInMacro};
ghost use Rattle.lf_wire_nets.specs.MacroPins.{HasMacroPins, IsMacroPin};
ghost use Rattle.lf_wire_nets.specs.Binding.{box_of_pin, is_pin_named, offset_in_macro, offset_of_box, pin_box_in};
ghost use Rattle.lf_wire_nets.specs.FirstNames.{FindsFirst};
ghost use Rattle.lf_wire_nets.specs.Names.{AreNamesOf, is_macro_named};
ghost use Rattle.lf_wire_nets.specs.BoundRanges.{IsLefMacro};
ghost use Rattle.lf_wire_nets.specs.Texts.{facts_of};

use crate::first_names::FirstNames;
use crate::macros::MacroPins;
use crate::names::{NameTables, entry_named};
use crate::pins::MacroPin;
use crate::texts::DesignTexts;
use lf_floorplan::Macro;
use lf_units::{Point, Rect};
use lf_wire_length::{PinOffset, pin_middle};

/// The number of millionths of a micron in a micron.
const MICRON: i64 = 1_000_000;

/// Returns the length, times the number of database units per micron.
fn scaled(micros: i64, units: u32) -> i64
    requires units { IsLimit units 20000 }
    requires micros { IsLefLength micros }
    ensures least { negsuc 19999999999999999 ≤ℤ result }
    ensures most { result ≤ℤ pos 20000000000000000 }
    ensures is { result ≡ micros *ℤ pos units }
{
    micros * i64::from(units)
}

/// Returns a millionth of the number. A fraction is dropped.
fn millionth(scaled: i64) -> i64
    requires least { negsuc 19999999999999999 ≤ℤ scaled }
    requires most { scaled ≤ℤ pos 20000000000000000 }
    ensures in_range { IsMacroLength result }
    ensures is { result ≡ int_div scaled (pos 1000000) }
{
    scaled / MICRON
}

/// Converts a length of LEF from millionths of a micron to database units. A fraction is dropped.
fn length_in_units(micros: i64, units: u32) -> i64
    requires units { IsLimit units 20000 }
    requires micros { IsLefLength micros }
    ensures in_range { IsMacroLength result }
    ensures is { result ≡ in_dbu units micros }
{
    millionth(scaled(micros, units))
}

/// Converts a size of LEF from millionths of a micron to database units. Fractions are dropped.
fn size_in_units(size: &Point, units: u32) -> Point
    requires units { IsLimit units 20000 }
    requires size { IsLefSize size.now }
    ensures wide { IsMacroLength result.x }
    ensures high { IsMacroLength result.y }
    ensures is { result ≡ size_in_dbu units size.now }
{
    let x = length_in_units(size.x, units);
    let y = length_in_units(size.y, units);
    Point { x, y }
}

/// Returns where a pin with this box is in its macro.
fn offset_of_box(units: u32, mac: &Macro, rect: &Rect) -> PinOffset
    requires units { IsLimit units 20000 }
    requires mac { IsLefMacro mac.now }
    requires rect { IsPinBox rect.now }
    ensures in_macro { IsPinInMacro result }
    ensures is { result ≡ offset_of_box units mac.now rect.now }
{
    let size = size_in_units(&mac.size, units);
    let middle = pin_middle(units, &mac.origin, rect);
    PinOffset { size, middle }
}

/// Returns the first pin of this name. `None` if there is no such pin.
fn pin_named<'a, 't>(pins: &'a [MacroPin<'t>], name: &[u8]) -> Option<&'a MacroPin<'t>>
    ensures { option_copied result ≡ find (is_pin_named name.now) pins.now }
{
    pins.iter().find(|pin| pin.name() == name)
}

/// Returns the box of the first pin of this name. `None` if there is no such pin, or it has no
/// rectangle.
fn named_box(pins: &[MacroPin], name: &[u8]) -> Option<Rect>
    ensures { result ≡ pin_box_in pins.now name.now }
{
    match pin_named(pins, name) {
        Some(pin) => pin.pin_box(),
        None => None,
    }
}

/// Returns the box of the first pin of this name, in the range of LEF.
fn pin_box_in(pins: &[MacroPin], name: &[u8]) -> Option<Rect>
    requires { All IsMacroPin pins.now }
    ensures is { result ≡ pin_box_in pins.now name.now }
    ensures in_range { IfSome result IsPinBox }
{
    named_box(pins, name)
}

/// Returns the first macro of this name. `None` if there is no such macro.
fn macro_named<'a, 't>(
    macros: &'a [MacroPins<'t>],
    names: &FirstNames,
    name: &[u8],
) -> Option<&'a MacroPins<'t>>
    requires range { All HasMacroPins macros.now }
    requires names { FindsFirst is_macro_named macros.now names.now }
    ensures is { option_copied result ≡ find (is_macro_named name.now) macros.now }
    ensures in_range { IfSome result (λ m. HasMacroPins m.now) }
{
    entry_named(macros, names, name)
}

/// Returns the box of the pin of the macro with these names. `None` if there is no such pin, or it
/// has no rectangle.
fn box_of_pin(macros: &[MacroPins], names: &FirstNames, mac: &[u8], pin: &[u8]) -> Option<Rect>
    requires range { All HasMacroPins macros.now }
    requires names { FindsFirst is_macro_named macros.now names.now }
    ensures is { result ≡ box_of_pin macros.now mac.now pin.now }
    ensures in_range { IfSome result IsPinBox }
{
    match macro_named(macros, names, mac) {
        Some(found) => pin_box_in(found.pins(), pin),
        None => None,
    }
}

/// Returns the box of the pin of this name of a macro.
fn box_in_texts(texts: &DesignTexts, tables: &NameTables, mac: &[u8], pin: &[u8]) -> Option<Rect>
    requires { AreNamesOf (facts_of texts.now) tables.now }
    ensures is { result ≡ box_of_pin texts.now.macros.now mac.now pin.now }
    ensures in_range { IfSome result IsPinBox }
{
    box_of_pin(texts.macros.macros(), &tables.macros, mac, pin)
}

/// Returns where the pin of this name is in the macro. `None` if the texts have no rectangle of such
/// a pin.
pub(crate) fn offset_in_macro(
    texts: &DesignTexts,
    tables: &NameTables,
    pin: &[u8],
    mac: &Macro,
) -> Option<PinOffset>
    requires tables { AreNamesOf (facts_of texts.now) tables.now }
    requires mac { IsLefMacro mac.now }
    ensures in_macro { IfSome result IsPinInMacro }
    ensures is { result ≡ offset_in_macro (facts_of texts.now) pin.now mac.now }
{
    match box_in_texts(texts, tables, mac.name.as_bytes(), pin) {
        Some(rect) => Some(offset_of_box(texts.loaded.frame.header.units, mac, &rect)),
        None => None,
    }
}
