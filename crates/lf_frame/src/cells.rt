//! The movable cells of an accepted design.

ghost use Rattle.std.specs.Prelude.{◌≡◌, ◌<◌, ◌≤◌, true, Some, IfOk, All, length, option_map};
ghost use Rattle.std.specs.List.{AllZip};
ghost use Rattle.lf_def.specs.Ranges.{IsComponent};
ghost use Rattle.lf_floorplan.specs.LoadedCells.{with_name};
ghost use Rattle.lf_def.specs.Kinds.{is_movable as is_movable_component};
ghost use Rattle.lf_frame.specs.Teams.{fences, IsTeamOfComponent};
ghost use Rattle.lf_frame.specs.Entries.{NoneBreaks};
ghost use Rattle.lf_frame.specs.ClaimRefusals.{HasEarlierName};
ghost use Rattle.lf_frame.specs.ClaimTables.{IsTableOf};
ghost use Rattle.lf_frame.specs.Findings.{LoadInputs, inputs};
ghost use Rattle.lf_frame.specs.MacroTables.{macro_number_of, macros_of};
ghost use Rattle.lf_frame.specs.Loads.{location as location_of, as_location, movables, CanBeCell, IsCellOf};

use crate::component_claims::ClaimTable;
use crate::convert::{location, place_at};
use crate::macro_numbers::MacroTable;
use lf_def::{Component, DefDoc, is_movable};
use lf_floorplan::{Limits, LoadedCells, PackedPlace, Place, UnnamedCell};
use lf_lef::Library;
use std::alloc::{AllocError, Global};

/// Returns the component's place, or `None` if it is unplaced.
fn place_of(component: &Component) -> Option<Place>
    requires { IsComponent component.now }
    ensures { option_map as_location result ≡ location_of component.now }
{
    match location(component) {
        Some(at) => Some(place_at(&at)),
        None => None,
    }
}

/// Returns the number in 32 bits.
fn in_32_bits(number: usize) -> u32
    requires { number ≤ 4000000 }
    ensures { result ≡ number }
{
    number as u32
}

/// Returns the cell of a movable component with this team, macro and number, without its name.
fn cell_of(team: usize, mac: usize, number: usize, component: &Component) -> UnnamedCell
    requires few_teams { team ≤ 1024 }
    requires few_macros { mac < 1000000 }
    requires few_components { number < 4000000 }
    requires range { IsComponent component.now }
    ensures { (i : LoadInputs) → IsTeamOfComponent i.document.regions i.document.groups component.now.name team
        → macro_number_of i.library component.now ≡ Some mac
        → IsCellOf i (number, component.now) (with_name component.now.name result) }
{
    let own_team = in_32_bits(team);
    let own_macro = in_32_bits(mac);
    let entry = in_32_bits(number);
    UnnamedCell {
        team: own_team,
        mac: own_macro,
        component: entry,
        place: PackedPlace::of(place_of(component)),
    }
}

/// Returns the cells of the movable components, in the order of the text. `Err` if an allocation
/// fails.
pub(crate) fn movable_cells(
    alloc: Global,
    claims: &ClaimTable,
    macros: &MacroTable,
    library: &Library,
    document: &DefDoc,
    limits: &Limits,
) -> Result<LoadedCells, AllocError>
    requires few_fences { length (fences document.now.regions) ≤ 1024 }
    requires few_components { length document.now.components ≤ 4000000 }
    requires claims { IsTableOf document.now.regions document.now.groups document.now.components claims.now }
    requires macros { macros.now ≡ macros_of library.now document.now.components }
    requires differ { NoneBreaks HasEarlierName document.now.components }
    requires ranged { All IsComponent document.now.components }
    requires able { All (λ c. is_movable_component c ≡ true → CanBeCell (inputs library.now document.now limits.now) c)
        document.now.components }
    ensures { IfOk result (λ cells. AllZip (IsCellOf (inputs library.now document.now limits.now))
        (movables document.now.components) cells) }
{
    let _ = library.macros();
    let mut cells = LoadedCells::with_capacity(alloc, document.components.len())?;
    for (number, component) in document.components.as_slice().iter().enumerate() {
        if is_movable(component) {
            let team = claims.team_at(number);
            let mac = macros.macro_at(number).unwrap();
            let cell = cell_of(team, mac, number, component);
            cells.push(component.name(), cell)?;
        }
    }
    Ok(cells)
}
