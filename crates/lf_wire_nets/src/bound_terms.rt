//! The pins that the terms of nets denote.

ghost use Rattle.std.specs.Prelude.{◌≡◌, ◌<◌, All, IfSome, Some, find, length, position, slice_get};
ghost use Rattle.std.specs.Option.{option_copied};
ghost use Rattle.lf_floorplan.specs.Boxes.{macro_of};
ghost use Rattle.lf_def.specs.Ranges.{IsComponent, IsLocation, IsRect};
ghost use Rattle.lf_wire_length.specs.declared.pins.NetPin.TheVariants.{OfCell};
ghost use Rattle.lf_wire_length.specs.Bounds.{IsMiddlePoint, IsOffsetPoint, IsPinInMacro};
ghost use Rattle.lf_wire_length.specs.Stored.{pin_of_cell};
ghost use Rattle.lf_wire_nets.specs.NetRanges.{IsDesignPin, IsDesignPort};
ghost use Rattle.lf_wire_nets.specs.Binding.{IsBoundPin, fixed_point, is_frame_macro_named, location_of, macro_of_cell, middle_of_shape};
ghost use Rattle.lf_wire_nets.specs.Binding.{offset_in_component, offset_in_macro, offset_of_port, pin_at_offset, pin_of_component, pin_of_fixed, pin_of_port};
ghost use Rattle.lf_wire_nets.specs.FirstNames.{FindsFirst};
ghost use Rattle.lf_wire_nets.specs.Names.{AreNamesOf, is_cell_named, is_design_pin_named, is_fixed_named};
ghost use Rattle.lf_wire_nets.specs.BoundRanges.{IsLefMacro};
ghost use Rattle.lf_wire_nets.specs.Texts.{facts_of};

use crate::design_pins::{DesignPin, DesignPort};
use crate::first_names::FirstNames;
use crate::names::{NameTables, entry_named};
use crate::offsets::offset_in_macro;
use crate::texts::DesignTexts;
use lf_def::{Component, Location};
use lf_floorplan::{Frame, Loaded, Macro, Place, mac_at};
use lf_units::{Point, Rect};
use lf_wire_length::{HalfPoint, NetPin, PinOffset, point_of_cell_pin};

/// Returns the macro of the cell of this number.
fn macro_of_cell(loaded: &Loaded, number: usize) -> &Macro
    requires { number < length loaded.now.cells }
    ensures is { result.now ≡ macro_of_cell loaded.now (slice_get loaded.now.cells number) }
    ensures in_range { IsLefMacro result.now }
{
    let cell = loaded.cells.get(number).unwrap();
    mac_at(&loaded.frame, cell.mac)
}

/// Returns the pin of the cell of this number.
fn of_cell(number: u32, offset: &PinOffset) -> NetPin
    requires number { number < 4000000 }
    requires offset { IsPinInMacro offset.now }
    ensures in_range { IsBoundPin result }
    ensures is { result ≡ OfCell number offset.now }
{
    NetPin::OfCell(number, *offset)
}

/// Returns the number of a cell in 32 bits.
fn narrow(loaded: &Loaded, number: usize) -> u32
    requires { number < length loaded.now.cells }
    ensures few { result < 4000000 }
    ensures is { result ≡ number }
{
    let _ = &loaded.cells;
    number as u32
}

/// Returns the pin of this name of the cell of this number.
fn cell_pin(texts: &DesignTexts, tables: &NameTables, pin: &[u8], number: usize) -> NetPin
    requires tables { AreNamesOf (facts_of texts.now) tables.now }
    requires number { number < length texts.now.loaded.now.cells }
    ensures in_range { IsBoundPin result }
    ensures is { result ≡ pin_of_cell number (offset_in_macro (facts_of texts.now) pin.now
        (macro_of_cell texts.now.loaded.now (slice_get texts.now.loaded.now.cells number))) }
{
    let mac = macro_of_cell(texts.loaded, number);
    match offset_in_macro(texts, tables, pin, mac) {
        Some(offset) => of_cell(narrow(texts.loaded, number), &offset),
        None => NetPin::Unknown,
    }
}

/// Returns the first macro of this name. `None` if there is no such macro.
fn find_macro<'a>(frame: &'a Frame, name: &[u8]) -> Option<&'a Macro>
    ensures { option_copied result ≡ find (is_frame_macro_named name.now) frame.now.macros }
{
    frame.macros.as_slice().iter().find(|mac| mac.name.is(name))
}

/// Returns the first macro of this name, in the range of LEF.
fn macro_named<'a>(frame: &'a Frame, name: &[u8]) -> Option<&'a Macro>
    ensures is { option_copied result ≡ find (is_frame_macro_named name.now) frame.now.macros }
    ensures in_range { IfSome result (λ m. IsLefMacro m.now) }
{
    find_macro(frame, name)
}

/// Returns where the pin of this name is in the macro of a component. `None` if the texts have no
/// rectangle of such a pin.
fn offset_in_component(
    texts: &DesignTexts,
    tables: &NameTables,
    pin: &[u8],
    component: &Component,
) -> Option<PinOffset>
    requires { AreNamesOf (facts_of texts.now) tables.now }
    ensures in_macro { IfSome result IsPinInMacro }
    ensures is { result ≡ offset_in_component (facts_of texts.now) pin.now component.now }
{
    match macro_named(&texts.loaded.frame, component.macro_name()) {
        Some(mac) => offset_in_macro(texts, tables, pin, mac),
        None => None,
    }
}

/// Returns the location of a component. `None` if it is unplaced.
fn location_of(component: &Component) -> Option<Location>
    requires { IsComponent component.now }
    ensures in_range { IfSome result IsLocation }
    ensures is { result ≡ location_of component.now }
{
    match component.placement() {
        Some(placement) => placement.place,
        None => None,
    }
}

/// Returns the point of a pin of a component that no command moves.
fn fixed_point(at: &Location, offset: &PinOffset) -> HalfPoint
    requires at { IsLocation at.now }
    requires offset { IsPinInMacro offset.now }
    ensures in_range { IsOffsetPoint result }
    ensures is { result ≡ fixed_point at.now offset.now }
{
    let place = Place::new(at.x, at.y, at.orient);
    point_of_cell_pin(&place, offset)
}

/// Returns the pin of a component at this location.
fn pin_at_offset(at: &Option<Location>, offset: &Option<PinOffset>) -> NetPin
    requires at { IfSome at.now IsLocation }
    requires offset { IfSome offset.now IsPinInMacro }
    ensures in_range { IsBoundPin result }
    ensures is { result ≡ pin_at_offset at.now offset.now }
{
    let Some(offset) = offset else {
        return NetPin::Unknown;
    };
    match at {
        Some(at) => NetPin::Fixed(fixed_point(at, offset)),
        None => NetPin::Unplaced,
    }
}

/// Returns the pin of this name of a FIXED or COVER component.
fn fixed_pin(texts: &DesignTexts, tables: &NameTables, pin: &[u8], component: &Component) -> NetPin
    requires tables { AreNamesOf (facts_of texts.now) tables.now }
    requires component { IsComponent component.now }
    ensures in_range { IsBoundPin result }
    ensures is { result ≡ pin_of_fixed (facts_of texts.now) pin.now (Some component.now) }
{
    let at = location_of(component);
    let offset = offset_in_component(texts, tables, pin, component);
    pin_at_offset(&at, &offset)
}

/// Returns the first FIXED or COVER component of this name. `None` if there is no such component.
fn fixed_component<'a, 't>(
    components: &'a [Component<'t>],
    names: &FirstNames,
    name: &[u8],
) -> Option<&'a Component<'t>>
    requires range { All IsComponent components.now }
    requires names { FindsFirst is_fixed_named components.now names.now }
    ensures is { option_copied result ≡ find (is_fixed_named name.now) components.now }
    ensures in_range { IfSome result (λ c. IsComponent c.now) }
{
    entry_named(components, names, name)
}

/// Returns the number of the first cell of this name. `None` if there is no such cell.
fn cell_number(texts: &DesignTexts, tables: &NameTables, name: &[u8]) -> Option<usize>
    requires { AreNamesOf (facts_of texts.now) tables.now }
    ensures is { result ≡ position (is_cell_named name.now) texts.now.loaded.now.cells }
    ensures within { IfSome result (λ number. number < length texts.now.loaded.now.cells) }
{
    tables.cells.find(name)
}

/// Returns the pin of the first FIXED or COVER component with these names.
fn fixed_pin_named(texts: &DesignTexts, tables: &NameTables, name: &[u8], pin: &[u8]) -> NetPin
    requires { AreNamesOf (facts_of texts.now) tables.now }
    ensures in_range { IsBoundPin result }
    ensures is { result ≡ pin_of_fixed (facts_of texts.now) pin.now
        (find (is_fixed_named name.now) texts.now.document.now.components) }
{
    match fixed_component(texts.document.components.as_slice(), &tables.fixed, name) {
        Some(component) => fixed_pin(texts, tables, pin, component),
        None => NetPin::Unknown,
    }
}

/// Returns the pin of a component with these names.
pub(crate) fn component_pin(
    texts: &DesignTexts,
    tables: &NameTables,
    name: &[u8],
    pin: &[u8],
) -> NetPin
    requires { AreNamesOf (facts_of texts.now) tables.now }
    ensures in_range { IsBoundPin result }
    ensures is { result ≡ pin_of_component (facts_of texts.now) name.now pin.now
        (position (is_cell_named name.now) texts.now.loaded.now.cells) }
{
    match cell_number(texts, tables, name) {
        Some(number) => cell_pin(texts, tables, pin, number),
        None => fixed_pin_named(texts, tables, name, pin),
    }
}

/// Returns the middle of a port's shapes in half database units, before the port is turned and
/// placed. Without a shape it is the point that is placed.
fn middle_of_shape(shape: &Option<Rect>) -> HalfPoint
    requires { IfSome shape.now IsRect }
    ensures in_range { IsMiddlePoint result }
    ensures is { result ≡ middle_of_shape shape.now }
{
    match shape {
        Some(rect) => HalfPoint {
            x: rect.x1 + rect.x2,
            y: rect.y1 + rect.y2,
        },
        None => HalfPoint { x: 0, y: 0 },
    }
}

/// Returns the offset of a port from where it is placed: it is turned as a macro without extent.
fn offset_of_port(port: &DesignPort) -> PinOffset
    requires { IsDesignPort port.now }
    ensures in_macro { IsPinInMacro result }
    ensures is { result ≡ offset_of_port port.now }
{
    PinOffset {
        size: Point { x: 0, y: 0 },
        middle: middle_of_shape(&port.shape),
    }
}

/// Returns the pin of the design at this port.
pub(crate) fn pin_of_port(port: &DesignPort) -> NetPin
    requires { IsDesignPort port.now }
    ensures in_range { IsBoundPin result }
    ensures is { result ≡ pin_of_port port.now }
{
    NetPin::Fixed(fixed_point(&port.at, &offset_of_port(port)))
}

/// Returns the first pin of the design with this name. `None` if there is no such pin.
pub(crate) fn design_pin_named<'a, 't>(
    pins: &'a [DesignPin<'t>],
    names: &FirstNames,
    name: &[u8],
) -> Option<&'a DesignPin<'t>>
    requires range { All IsDesignPin pins.now }
    requires names { FindsFirst is_design_pin_named pins.now names.now }
    ensures is { option_copied result ≡ find (is_design_pin_named name.now) pins.now }
    ensures in_range { IfSome result (λ p. IsDesignPin p.now) }
{
    entry_named(pins, names, name)
}
