//! The names of cells, components, pins and macros, for lookups.

ghost use Rattle.std.specs.Prelude.{◌≡◌, IfOk, slice_get};
ghost use Rattle.std.specs.Option.{option_and_then, option_copied};
ghost use Rattle.lf_wire_nets.specs.FirstNames.{FindsFirst, first_position};
ghost use Rattle.lf_wire_nets.specs.Names.{AreNamesOf, is_cell_named, is_design_pin_named, is_fixed_named, is_macro_named};
ghost use Rattle.lf_wire_nets.specs.Texts.{facts_of};

use crate::design_pins::DesignPin;
use crate::first_names::FirstNames;
use crate::macros::MacroPins;
use crate::texts::DesignTexts;
use lf_def::{Component, is_movable};
use lf_floorplan::LoadedCells;
use std::alloc::{AllocError, Global};

/// The positions of the first entries with each name, in the lists of a design.
#[derive(Drop)]
pub(crate) struct NameTables {
    pub(crate) cells: FirstNames,
    /// The FIXED and COVER components.
    pub(crate) fixed: FirstNames,
    /// The macros of the LEF texts.
    pub(crate) macros: FirstNames,
    /// The pins of the design.
    pub(crate) pins: FirstNames,
}

/// Returns the names of cells. `Err` if an allocation fails.
fn cell_names(alloc: Global, cells: &LoadedCells) -> Result<FirstNames, AllocError>
    ensures { IfOk result (FindsFirst is_cell_named cells.now) }
{
    let mut names = FirstNames::new(alloc);
    for at in 0..cells.len() {
        let cell = cells.get(at).unwrap();
        names.add(cell.name, at)?;
    }
    Ok(names)
}

/// Returns the names of FIXED and COVER components. `Err` if an allocation fails.
fn fixed_names(alloc: Global, components: &[Component]) -> Result<FirstNames, AllocError>
    ensures { IfOk result (FindsFirst is_fixed_named components.now) }
{
    let mut names = FirstNames::new(alloc);
    for (at, component) in components.iter().enumerate() {
        if !is_movable(component) {
            names.add(component.name(), at)?;
        }
    }
    Ok(names)
}

/// Returns the names of macros. `Err` if an allocation fails.
fn macro_names(alloc: Global, macros: &[MacroPins]) -> Result<FirstNames, AllocError>
    ensures { IfOk result (FindsFirst is_macro_named macros.now) }
{
    let mut names = FirstNames::new(alloc);
    for (at, found) in macros.iter().enumerate() {
        names.add(found.name(), at)?;
    }
    Ok(names)
}

/// Returns the names of pins of the design. `Err` if an allocation fails.
fn design_pin_names(alloc: Global, pins: &[DesignPin]) -> Result<FirstNames, AllocError>
    ensures { IfOk result (FindsFirst is_design_pin_named pins.now) }
{
    let mut names = FirstNames::new(alloc);
    for (at, pin) in pins.iter().enumerate() {
        names.add(pin.name(), at)?;
    }
    Ok(names)
}

/// Returns the names in the texts of a design. `Err` if an allocation fails.
pub(crate) fn name_tables(alloc: Global, texts: &DesignTexts) -> Result<NameTables, AllocError>
    ensures { IfOk result (AreNamesOf (facts_of texts.now)) }
{
    Ok(NameTables {
        cells: cell_names(alloc, &texts.loaded.cells)?,
        fixed: fixed_names(alloc, texts.document.components.as_slice())?,
        macros: macro_names(alloc, texts.macros.macros())?,
        pins: design_pin_names(alloc, texts.nets.pins.as_slice())?,
    })
}

/// Returns the entry at the position that the table has for the name, if there is one.
pub(crate) fn entry_named<'a, T>(entries: &'a [T], names: &FirstNames, name: &[u8]) -> Option<&'a T>
    ensures { option_copied result ≡ option_and_then (slice_get entries.now) (first_position names.now name.now) }
{
    entries.get(names.find(name)?)
}
