//! The refusals of loading for components.

ghost use Rattle.std.specs.Prelude.{[], ◌≡◌, ◌↔◌, ◌<◌, ◌≤◌, true, false, None, Some, IsTrue, IfSome, length, ◌&&◌};
ghost use Rattle.std.specs.Option.{option_copied};
ghost use Rattle.lf_lef.specs.Lengths.{IsLengthInRange, HasRange};
ghost use Rattle.lf_units.specs.Length.{IsLength, in_dbu};
ghost use Rattle.lf_frame.specs.Entries.{FirstIs, first_counted};
ghost use Rattle.lf_frame.specs.Loading.{at_place, macro_named as named_macro, has_size as is_size, IsWholeSize};
ghost use Rattle.lf_frame.specs.MacroTables.{macro_number_of, macros_of};
ghost use Rattle.lf_frame.specs.Refusals.{HasNoMacro, HasNoSize, HasPartUnits, AreMacroFaults, IsComponentTooMany};

use crate::macro_numbers::MacroTable;
use lf_def::{Component, is_cover};
use lf_floorplan::Macro;
use lf_lef::Library;
use lf_units::{Point, micros_to_dbu};

/// Returns the macro with this number in the library. `None` if and only if there is no number.
fn macro_numbered(library: &Library, number: Option<usize>) -> Option<&Macro>
    ensures macro_is { option_copied result ≡ at_place library.now.macros number }
    ensures range { IfSome result (λ m. HasRange m.now.size) }
{
    library.macros().get(number?)
}

/// Returns the macro with this name. `None` if and only if there is no such macro.
pub fn macro_named<'l>(library: &'l Library, name: &[u8]) -> Option<&'l Macro>
    ensures macro_is { option_copied result ≡ named_macro library.now name.now }
    ensures range { IfSome result (λ m. HasRange m.now.size) }
{
    macro_numbered(library, library.find_macro(name))
}

/// True if both lengths are above 0.
pub(crate) fn has_size(size: &Point) -> bool
    ensures { result ≡ is_size size.now }
{
    0 < size.x && 0 < size.y
}

/// True if the length is whole in database units.
fn is_whole(micros: i64, units: u32) -> bool
    requires least { 1 ≤ units }
    requires most { units ≤ 20000 }
    requires range { IsLengthInRange micros }
    ensures { IsTrue result ↔ IsLength units micros (in_dbu units micros) }
{
    micros_to_dbu(micros, units).is_some()
}

/// True if both lengths are whole in database units.
pub(crate) fn is_whole_size(size: &Point, units: u32) -> bool
    requires least { 1 ≤ units }
    requires most { units ≤ 20000 }
    requires range { HasRange size.now }
    ensures { IsTrue result ↔ IsWholeSize units size.now }
{
    if !is_whole(size.x, units) {
        return false;
    }
    is_whole(size.y, units)
}

/// The faults of a component's macro.
#[derive(Clone, Copy)]
struct MacroFault {
    unknown: bool,
    sizeless: bool,
    part_units: bool,
}

/// The first components other than COVER whose macro is unknown, has no size, or has a size that is
/// not whole. `unknown`: no LEF text has the macro. `sizeless`: no SIZE with both lengths above 0.
/// `part_units`: the size is not whole in database units.
#[derive(Clone, Copy)]
pub struct MacroFaults {
    pub unknown: Option<usize>,
    pub sizeless: Option<usize>,
    pub part_units: Option<usize>,
}

/// Returns the faults of the component's macro, which has this number in the library.
fn macro_fault(
    component: &Component,
    number: Option<usize>,
    library: &Library,
    units: u32,
) -> MacroFault
    requires least { 1 ≤ units }
    requires most { units ≤ 20000 }
    requires number { number ≡ macro_number_of library.now component.now }
    ensures unknown { IsTrue result.unknown ↔ HasNoMacro library.now [] component.now }
    ensures sizeless { IsTrue result.sizeless ↔ HasNoSize library.now [] component.now }
    ensures part_units { IsTrue result.part_units ↔ HasPartUnits library.now units [] component.now }
{
    let mut fault = MacroFault {
        unknown: false,
        sizeless: false,
        part_units: false,
    };
    if is_cover(component) {
        return fault;
    }
    match macro_numbered(library, number) {
        Some(mac) => {
            fault.sizeless = !has_size(&mac.size);
            fault.part_units = !is_whole_size(&mac.size, units);
        }
        None => fault.unknown = true,
    }
    fault
}

/// Returns the first number so far, given whether this number counts.
fn first_so_far(first: Option<usize>, number: usize, counts: bool) -> Option<usize>
    ensures { result ≡ first_counted first number counts }
{
    match first {
        Some(earlier) => Some(earlier),
        None => { if counts { Some(number) } else { None } }
    }
}

/// Returns the first components whose macros are at fault, for each kind of fault.
pub(crate) fn macro_faults(
    components: &[Component],
    macros: &MacroTable,
    library: &Library,
    units: u32,
) -> MacroFaults
    requires least { 1 ≤ units }
    requires most { units ≤ 20000 }
    requires macros { macros.now ≡ macros_of library.now components.now }
    ensures { AreMacroFaults library.now units components.now result }
{
    let mut unknown = None;
    let mut sizeless = None;
    let mut part_units = None;
    for (number, component) in components.iter().enumerate() {
        let fault = macro_fault(component, macros.macro_at(number), library, units);
        unknown = first_so_far(unknown, number, fault.unknown);
        sizeless = first_so_far(sizeless, number, fault.sizeless);
        part_units = first_so_far(part_units, number, fault.part_units);
    }
    MacroFaults {
        unknown,
        sizeless,
        part_units,
    }
}

/// Returns the number of the first component beyond the limit, or `None`.
pub(crate) fn first_component_too_many(components: &[Component], limit: usize) -> Option<usize>
    ensures { FirstIs (IsComponentTooMany limit) components.now result }
{
    if limit < components.len() {
        Some(limit)
    } else {
        None
    }
}
