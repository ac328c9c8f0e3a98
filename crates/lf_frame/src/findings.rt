//! What each refusal of loading finds: the name of the first entry at fault, or `None`.

ghost use Rattle.std.specs.Prelude.{◌≡◌, ◌≤◌, None, Some, IfOk, option_map, unwrap_or};
ghost use Rattle.std.specs.Option.{option_copied};
ghost use Rattle.lf_lex.specs.declared.fault.FaultNumber.TheVariants.{NoUnits, NoSite, NoRows, VerticalRow, BadStep, RowOrient};
ghost use Rattle.lf_lex.specs.declared.fault.FaultNumber.TheVariants.{RowsOverlap, NoMacro, NoSize, NotWhole, SecondName, SecondRegion};
ghost use Rattle.lf_lex.specs.declared.fault.FaultNumber.TheVariants.{NoRegion, TeamName, FencesOverlap, TwoFences, TooMany};
ghost use Rattle.lf_frame.specs.Loading.{at_place, IsWholeSize, has_size};
ghost use Rattle.lf_floorplan.specs.Sizes.{size_in_dbu};
ghost use Rattle.lf_frame.specs.Entries.{NoneBreaks};
ghost use Rattle.lf_floorplan.specs.Rows.{IsPitch};
ghost use Rattle.lf_frame.specs.ClaimTables.{IsTableOf};
ghost use Rattle.lf_frame.specs.Findings.{inputs, units_in, core_in, region_name, Finds, OfCore, OfPitch, CoreHasPartUnits, NameOfFirst};
ghost use Rattle.lf_frame.specs.ClaimRefusals.{HasEarlierName};
ghost use Rattle.lf_frame.specs.Refusals.{IsRowTooMany, IsFenceTooMany, IsComponentTooMany, EndsTooFar, AreMacroFaults};

use crate::component_checks::{MacroFaults, first_component_too_many, is_whole_size};
use crate::component_claims::{ClaimTable, first_claimed_twice};
use crate::fence_checks::{
    first_fence_overlap, first_fence_too_many, first_ground_name, first_second_fence,
    first_without_region,
};
use crate::pitch::{core_pitch, sized_core_site};
use crate::row_checks::{
    core_site, first_bad_step, first_row_overlap, first_row_too_many, first_too_far, first_turned,
    first_vertical, first_without_site,
};
use lf_def::{Component, DefDoc, Group, Region, RowStatement};
use lf_floorplan::{Limits, Site};
use lf_lef::Library;
use lf_units::{Point, micros_to_dbu};
use std::alloc::{AllocError, Global};

/// Returns the name of the row at this position, or `None`.
fn row_name<'d>(rows: &'d [RowStatement], place: Option<usize>) -> Option<&'d [u8]>
    ensures { option_copied result ≡ option_map (λ r. r.name) (at_place rows.now place) }
{
    match place {
        Some(place) => match rows.get(place) {
            Some(row) => Some(row.name.as_bytes()),
            None => None,
        },
        None => None,
    }
}

/// Returns the name of the site of the row at this position, or `None`.
fn row_site<'d>(rows: &'d [RowStatement], place: Option<usize>) -> Option<&'d [u8]>
    ensures { option_copied result ≡ option_map (λ r. r.site) (at_place rows.now place) }
{
    match place {
        Some(place) => match rows.get(place) {
            Some(row) => Some(row.site.as_bytes()),
            None => None,
        },
        None => None,
    }
}

/// Returns the design's name, if the document has no UNITS.
pub(crate) fn no_units<'d>(
    library: &Library,
    document: &'d DefDoc,
    limits: &Limits,
) -> Option<&'d [u8]>
    ensures { Finds (inputs library.now document.now limits.now) NoUnits (option_copied result) }
{
    if document.header.units.is_some() {
        None
    } else {
        Some(document.header.design.as_bytes())
    }
}

/// Returns the name of the site of the first row whose site no LEF text has.
pub(crate) fn no_site<'d>(
    library: &Library,
    document: &'d DefDoc,
    limits: &Limits,
) -> Option<&'d [u8]>
    ensures { Finds (inputs library.now document.now limits.now) NoSite (option_copied result) }
{
    let rows = document.rows.as_slice();
    row_site(rows, first_without_site(rows, library))
}

/// Returns the design's name, if there is no core site.
pub(crate) fn no_rows<'d>(
    library: &Library,
    document: &'d DefDoc,
    limits: &Limits,
) -> Option<&'d [u8]>
    ensures { Finds (inputs library.now document.now limits.now) NoRows (option_copied result) }
{
    if core_site(library, document.rows.as_slice()).is_some() {
        None
    } else {
        Some(document.header.design.as_bytes())
    }
}

/// Returns the name of the first core row with numY other than 1.
pub(crate) fn vertical_row<'d>(
    library: &Library,
    document: &'d DefDoc,
    limits: &Limits,
) -> Option<&'d [u8]>
    ensures { Finds (inputs library.now document.now limits.now) VerticalRow (option_copied result) }
{
    let rows = document.rows.as_slice();
    let Some(core) = core_site(library, rows) else {
        return None;
    };
    row_name(rows, first_vertical(rows, core))
}

/// Returns the database units per micron. Returns 1 if the document has no UNITS; it is then
/// refused.
pub fn units_of(document: &DefDoc) -> u32
    ensures units { result ≡ unwrap_or document.now.header.units 1 }
    ensures least { 1 ≤ result }
    ensures most { result ≤ 20000 }
{
    match document.header.units {
        Some(units) => units,
        None => 1,
    }
}

/// Returns the name of the first core row of several sites whose step is not the site's width.
pub(crate) fn bad_step<'d>(
    library: &Library,
    document: &'d DefDoc,
    limits: &Limits,
) -> Option<&'d [u8]>
    ensures { Finds (inputs library.now document.now limits.now) BadStep (option_copied result) }
{
    let rows = document.rows.as_slice();
    let Some(core) = sized_core_site(library, rows) else {
        return None;
    };
    let Some(pitch) = core_pitch(core, units_of(document)) else {
        return None;
    };
    row_name(rows, first_bad_step(rows, core, &pitch))
}

/// Returns the name of the first core row that is neither N, S, FN nor FS.
pub(crate) fn row_orient<'d>(
    library: &Library,
    document: &'d DefDoc,
    limits: &Limits,
) -> Option<&'d [u8]>
    ensures { Finds (inputs library.now document.now limits.now) RowOrient (option_copied result) }
{
    let rows = document.rows.as_slice();
    let Some(core) = core_site(library, rows) else {
        return None;
    };
    row_name(rows, first_turned(rows, core))
}

/// Returns the name of the first core row that shares a point with an earlier one. `Err` if an
/// allocation fails.
pub(crate) fn rows_overlap<'d>(
    alloc: Global,
    library: &Library,
    document: &'d DefDoc,
    limits: &Limits,
) -> Result<Option<&'d [u8]>, AllocError>
    ensures { IfOk result
        (λ name. Finds (inputs library.now document.now limits.now) RowsOverlap (option_copied name)) }
{
    let rows = document.rows.as_slice();
    let Some(core) = sized_core_site(library, rows) else {
        return Ok(None);
    };
    let Some(pitch) = core_pitch(core, units_of(document)) else {
        return Ok(None);
    };
    let first = first_row_overlap(alloc, rows, core, &pitch)?;
    Ok(row_name(rows, first))
}

/// Returns the name of the macro of the component at this position, or `None`.
fn component_mac<'d>(components: &'d [Component], place: Option<usize>) -> Option<&'d [u8]>
    ensures { option_copied result ≡ option_map (λ c. c.mac) (at_place components.now place) }
{
    match place {
        Some(place) => match components.get(place) {
            Some(component) => Some(component.macro_name()),
            None => None,
        },
        None => None,
    }
}

/// Returns the name of the component at this position, or `None`.
fn component_name<'d>(components: &'d [Component], place: Option<usize>) -> Option<&'d [u8]>
    ensures { option_copied result ≡ option_map (λ c. c.name) (at_place components.now place) }
{
    match place {
        Some(place) => match components.get(place) {
            Some(component) => Some(component.name()),
            None => None,
        },
        None => None,
    }
}

/// Returns the name of the macro of the first component whose macro no LEF text has.
pub(crate) fn no_macro<'d>(
    faults: &MacroFaults,
    library: &Library,
    document: &'d DefDoc,
    limits: &Limits,
) -> Option<&'d [u8]>
    requires { AreMacroFaults library.now
        (units_in (inputs library.now document.now limits.now)) document.now.components faults.now }
    ensures { Finds (inputs library.now document.now limits.now) NoMacro (option_copied result) }
{
    component_mac(document.components.as_slice(), faults.unknown)
}

/// Returns the name of the macro of the first component whose macro has no size.
pub(crate) fn no_size<'d>(
    faults: &MacroFaults,
    library: &Library,
    document: &'d DefDoc,
    limits: &Limits,
) -> Option<&'d [u8]>
    requires { AreMacroFaults library.now
        (units_in (inputs library.now document.now limits.now)) document.now.components faults.now }
    ensures { Finds (inputs library.now document.now limits.now) NoSize (option_copied result) }
{
    component_mac(document.components.as_slice(), faults.sizeless)
}

/// Returns the core site's name, if its size is not whole in database units.
fn core_not_whole<'d>(library: &'d Library, document: &DefDoc, limits: &Limits) -> Option<&'d [u8]>
    ensures { OfCore (inputs library.now document.now limits.now)
        (CoreHasPartUnits (inputs library.now document.now limits.now)) (option_copied result) }
{
    let Some(core) = sized_core_site(library, document.rows.as_slice()) else {
        return None;
    };
    if is_whole_size(&core.size, units_of(document)) {
        None
    } else {
        Some(core.name.as_bytes())
    }
}

/// Returns the name of the site or macro whose size is not whole in database units: first the core
/// site, then the macros of components.
pub(crate) fn not_whole<'d>(
    faults: &MacroFaults,
    library: &'d Library,
    document: &'d DefDoc,
    limits: &Limits,
) -> Option<&'d [u8]>
    requires { AreMacroFaults library.now
        (units_in (inputs library.now document.now limits.now)) document.now.components faults.now }
    ensures { Finds (inputs library.now document.now limits.now) NotWhole (option_copied result) }
{
    if let Some(name) = core_not_whole(library, document, limits) {
        return Some(name);
    }
    component_mac(document.components.as_slice(), faults.part_units)
}

/// Returns the name of the first component that has the name of an earlier one.
pub(crate) fn second_name<'d>(
    claims: &ClaimTable,
    library: &Library,
    document: &'d DefDoc,
    limits: &Limits,
) -> Option<&'d [u8]>
    requires { IsTableOf document.now.regions document.now.groups document.now.components claims.now }
    ensures { Finds (inputs library.now document.now limits.now) SecondName (option_copied result) }
{
    component_name(document.components.as_slice(), claims.first_duplicate())
}

/// Returns the name of the region at this position, or `None`.
pub(crate) fn region_at<'d>(regions: &'d [Region], place: Option<usize>) -> Option<&'d [u8]>
    ensures { option_copied result ≡ option_map (λ r. r.name) (at_place regions.now place) }
{
    match place {
        Some(place) => match regions.get(place) {
            Some(region) => Some(region.name.as_bytes()),
            None => None,
        },
        None => None,
    }
}

/// Returns the name of the region of a group, or the empty name if it has no region.
fn group_region(group: &Group) -> &[u8]
    ensures { result.now ≡ region_name group.now }
{
    match &group.region {
        Some(name) => name.as_bytes(),
        None => b"",
    }
}

/// Returns the name of the region of the group at this position, or `None`.
pub(crate) fn region_of_group<'d>(groups: &'d [Group], place: Option<usize>) -> Option<&'d [u8]>
    ensures { option_copied result ≡ option_map region_name (at_place groups.now place) }
{
    match place {
        Some(place) => match groups.get(place) {
            Some(group) => Some(group_region(group)),
            None => None,
        },
        None => None,
    }
}

/// Returns the name of the first fence that has the name of an earlier fence. `Err` if an
/// allocation fails.
pub(crate) fn second_region<'d>(
    alloc: Global,
    library: &Library,
    document: &'d DefDoc,
    limits: &Limits,
) -> Result<Option<&'d [u8]>, AllocError>
    ensures { IfOk result
        (λ name. Finds (inputs library.now document.now limits.now) SecondRegion (option_copied name)) }
{
    let regions = document.regions.as_slice();
    let first = first_second_fence(alloc, regions)?;
    Ok(region_at(regions, first))
}

/// Returns the name of the region of the first group whose region has no REGIONS entry. `Err` if an
/// allocation fails.
pub(crate) fn no_region<'d>(
    alloc: Global,
    library: &Library,
    document: &'d DefDoc,
    limits: &Limits,
) -> Result<Option<&'d [u8]>, AllocError>
    ensures { IfOk result (λ name. Finds (inputs library.now document.now limits.now) NoRegion (option_copied name)) }
{
    let groups = document.groups.as_slice();
    let first = first_without_region(alloc, groups, document.regions.as_slice())?;
    Ok(region_of_group(groups, first))
}

/// Returns the name of the first fence named `-`.
pub(crate) fn team_name<'d>(
    library: &Library,
    document: &'d DefDoc,
    limits: &Limits,
) -> Option<&'d [u8]>
    ensures { Finds (inputs library.now document.now limits.now) TeamName (option_copied result) }
{
    let regions = document.regions.as_slice();
    region_at(regions, first_ground_name(regions))
}

/// Returns the name of the first fence that shares a point with an earlier one. `Err` if an
/// allocation fails.
pub(crate) fn fences_overlap<'d>(
    alloc: Global,
    library: &Library,
    document: &'d DefDoc,
    limits: &Limits,
) -> Result<Option<&'d [u8]>, AllocError>
    ensures { IfOk result
        (λ name. Finds (inputs library.now document.now limits.now) FencesOverlap (option_copied name)) }
{
    let regions = document.regions.as_slice();
    let first = first_fence_overlap(alloc, regions)?;
    Ok(region_at(regions, first))
}

/// Returns the name of the first movable component that groups of two different fences name. No two
/// components may have the same name.
pub(crate) fn two_fences<'d>(
    claims: &ClaimTable,
    library: &Library,
    document: &'d DefDoc,
    limits: &Limits,
) -> Option<&'d [u8]>
    requires claims { IsTableOf document.now.regions document.now.groups document.now.components claims.now }
    requires differ { NoneBreaks HasEarlierName document.now.components }
    ensures { Finds (inputs library.now document.now limits.now) TwoFences (option_copied result) }
{
    let components = document.components.as_slice();
    let first = first_claimed_twice(components, claims);
    component_name(components, first)
}

/// Returns the name of the first core row beyond the limit.
fn rows_too_many<'d>(library: &Library, document: &'d DefDoc, limits: &Limits) -> Option<&'d [u8]>
    ensures { OfCore (inputs library.now document.now limits.now)
        (λ core. NameOfFirst (λ r. r.name) (IsRowTooMany core limits.now.rows) document.now.rows)
        (option_copied result) }
{
    let rows = document.rows.as_slice();
    let Some(core) = core_site(library, rows) else {
        return None;
    };
    row_name(rows, first_row_too_many(rows, core, limits.rows as usize))
}

/// Returns the name of the first fence beyond the limit.
fn fences_too_many<'d>(document: &'d DefDoc, limits: &Limits) -> Option<&'d [u8]>
    ensures { NameOfFirst (λ r. r.name) (IsFenceTooMany limits.now.fences) document.now.regions (option_copied result) }
{
    let regions = document.regions.as_slice();
    region_at(
        regions,
        first_fence_too_many(regions, limits.fences as usize),
    )
}

/// Returns the name of the first component beyond the limit.
fn components_too_many<'d>(document: &'d DefDoc, limits: &Limits) -> Option<&'d [u8]>
    ensures { NameOfFirst (λ c. c.name) (IsComponentTooMany limits.now.components) document.now.components
        (option_copied result) }
{
    let components = document.components.as_slice();
    component_name(
        components,
        first_component_too_many(components, limits.components as usize),
    )
}

/// Returns the name of the first core row that ends past the largest coordinate.
fn row_too_far<'d>(library: &Library, document: &'d DefDoc, limits: &Limits) -> Option<&'d [u8]>
    ensures { OfPitch (inputs library.now document.now limits.now)
        (λ core pitch. NameOfFirst (λ r. r.name) (EndsTooFar core pitch) document.now.rows) (option_copied result) }
{
    let rows = document.rows.as_slice();
    let Some(core) = sized_core_site(library, rows) else {
        return None;
    };
    let Some(pitch) = core_pitch(core, units_of(document)) else {
        return None;
    };
    row_name(rows, first_too_far(rows, core, &pitch))
}

/// Returns the name of the first entry beyond a limit: of core rows, then of fences, then of
/// components. Otherwise returns the name of the first core row that ends past the largest
/// coordinate.
pub(crate) fn too_many<'d>(
    library: &Library,
    document: &'d DefDoc,
    limits: &Limits,
) -> Option<&'d [u8]>
    ensures { Finds (inputs library.now document.now limits.now) TooMany (option_copied result) }
{
    if let Some(name) = rows_too_many(library, document, limits) {
        return Some(name);
    }
    if let Some(name) = fences_too_many(document, limits) {
        return Some(name);
    }
    if let Some(name) = components_too_many(document, limits) {
        return Some(name);
    }
    row_too_far(library, document, limits)
}
