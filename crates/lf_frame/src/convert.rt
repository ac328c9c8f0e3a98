//! The parts of a frame that are copied from the library and the document.

ghost use Rattle.std.specs.Prelude.{◌≡◌, ℕ, ◌++◌, ◌∷◌, [], true, false, Some, None, IfOk, IfSome, OnOk, OnErr, All, map, filter};
ghost use Rattle.std.specs.Prelude.{filter_map, flat_map, unwrap_or, option_map};
ghost use Rattle.lf_def.specs.Ranges.{IsDefCoordinate, IsRow, IsComponent, IsLocation};
ghost use Rattle.lf_floorplan.specs.Sizes.{turned, box_at, size_in_dbu};
ghost use Rattle.lf_frame.specs.Teams.{fences};
ghost use Rattle.lf_frame.specs.Loading.{is_core_row as row_is_core, frame_row as frame_row_of};
ghost use Rattle.lf_frame.specs.Loads.{IsSizedIn, FixedIsSized, frame_team as frame_team_of, location as location_of};
ghost use Rattle.lf_frame.specs.Loads.{as_location, fixed_box as fixed_box_of, blocked, softly_blocked};

use crate::component_checks::macro_named;
use crate::row_checks::is_core_row;
use lf_def::{
    Blockage, Component, DocumentHeader, Location, Region, RowStatement, is_fence, is_fixed,
};
use lf_floorplan::{Header, Macro, Place, Row, Site, Team, macro_box};
use lf_lef::Library;
use lf_units::{Name, Rect, Sequence};
use std::alloc::{AllocError, Global};

fn copy_name(alloc: Global, name: &Name) -> Result<Name, AllocError>
    ensures { IfOk result (λ copy. copy ≡ name.now) }
{
    Name::from_slice(alloc, name.as_bytes())
}

/// Returns a copy of the core site. `Err` if an allocation fails.
pub(crate) fn copy_site(alloc: Global, site: &Site) -> Result<Site, AllocError>
    ensures { IfOk result (λ copy. copy ≡ site.now) }
{
    Ok(Site {
        name: copy_name(alloc, &site.name)?,
        core: site.core,
        size: site.size,
        symmetry: site.symmetry,
    })
}

fn copy_macro(alloc: Global, mac: &Macro) -> Result<Macro, AllocError>
    ensures { IfOk result (λ copy. copy ≡ mac.now) }
{
    Ok(Macro {
        name: copy_name(alloc, &mac.name)?,
        size: mac.size,
        origin: mac.origin,
        symmetry: mac.symmetry,
        rail: mac.rail,
    })
}

/// Returns copies of all macros. `Err` if an allocation fails.
pub(crate) fn copy_macros(alloc: Global, macros: &[Macro]) -> Result<Sequence<Macro>, AllocError>
    ensures { IfOk result (λ copies. copies ≡ macros.now) }
{
    let mut copies = Sequence::new(alloc);
    for mac in macros {
        copies.push(copy_macro(alloc, mac)?)?;
    }
    Ok(copies)
}

/// Returns the header of the document with its database units per micron. `Err` if an allocation
/// fails.
pub(crate) fn copy_header(
    alloc: Global,
    header: &DocumentHeader,
    units: u32,
) -> Result<Header, AllocError>
    ensures { IfOk result (λ copy. copy ≡ record {
      version = header.now.version;
      divider = header.now.divider;
      brackets = header.now.brackets;
      design = header.now.design;
      units = units;
    }) }
{
    Ok(Header {
        version: copy_name(alloc, &header.version)?,
        divider: copy_name(alloc, &header.divider)?,
        brackets: copy_name(alloc, &header.brackets)?,
        design: copy_name(alloc, &header.design)?,
        units,
    })
}

/// Returns a coordinate of a row in 32 bits.
fn narrow(coordinate: i64) -> i32
    requires { IsDefCoordinate coordinate }
    ensures { result ≡ coordinate }
{
    coordinate as i32
}

/// Returns a row in the form of the frame. `Err` if an allocation fails.
fn frame_row(alloc: Global, row: &RowStatement) -> Result<Row, AllocError>
    requires { IsRow row.now }
    ensures { IfOk result (λ r. r ≡ frame_row_of row.now) }
{
    Ok(Row {
        name: copy_name(alloc, &row.name)?,
        x: narrow(row.x),
        y: narrow(row.y),
        orient: row.orient,
        sites: row.sites_x,
    })
}

/// Returns the core rows, in the order of the text. `Err` if an allocation fails.
pub(crate) fn core_rows(
    alloc: Global,
    rows: &[RowStatement],
    core: &Site,
) -> Result<Sequence<Row>, AllocError>
    requires { All IsRow rows.now }
    ensures { IfOk result (λ core_ones. core_ones ≡ map frame_row_of (filter (row_is_core core.now) rows.now)) }
{
    let mut core_ones = Sequence::new(alloc);
    for row in rows {
        if is_core_row(row, core) {
            core_ones.push(frame_row(alloc, row)?)?;
        }
    }
    Ok(core_ones)
}

/// Returns a copy of the rectangles. `Err` if an allocation fails.
fn copy_rects(alloc: Global, rects: &[Rect]) -> Result<Sequence<Rect>, AllocError>
    ensures { IfOk result (λ copies. copies ≡ rects.now) }
{
    Ok(Sequence::from_vec(Vec::from_slice(alloc, rects)?))
}

/// Returns a fence in the form of the frame. `Err` if an allocation fails.
fn frame_team(alloc: Global, region: &Region) -> Result<Team, AllocError>
    ensures { IfOk result (λ team. team ≡ frame_team_of region.now) }
{
    Ok(Team {
        name: copy_name(alloc, &region.name)?,
        rects: copy_rects(alloc, region.rects.as_slice())?,
    })
}

/// Returns the fences, in the order of the text. `Err` if an allocation fails.
pub(crate) fn fence_teams(alloc: Global, regions: &[Region]) -> Result<Sequence<Team>, AllocError>
    ensures { IfOk result (λ teams. teams ≡ map frame_team_of (fences regions.now)) }
{
    let mut teams = Sequence::new(alloc);
    for region in regions {
        if is_fence(region) {
            teams.push(frame_team(alloc, region)?)?;
        }
    }
    Ok(teams)
}

/// Returns the component's location, or `None` if it is unplaced.
pub(crate) fn location(component: &Component) -> Option<Location>
    ensures is { result ≡ location_of component.now }
{
    match component.placement() {
        Some(placement) => placement.place,
        None => None,
    }
}

/// Returns the location of a component as a place.
pub(crate) fn place_at(at: &Location) -> Place
    requires { IsLocation at.now }
    ensures { as_location result ≡ at.now }
{
    Place::new(at.x, at.y, at.orient)
}

/// Returns the box of the macro at the location, in database units.
fn box_of(mac: &Macro, at: &Location, units: u32) -> Rect
    requires range { IsLocation at.now }
    requires sized { IsSizedIn units mac.now }
    ensures { result ≡ box_at (turned (size_in_dbu units mac.now.size) at.now.orient) at.now.x at.now.y }
{
    macro_box(&mac.size, units, &place_at(at))
}

/// Returns the box of a FIXED component. `None` if it is not FIXED.
fn fixed_box(library: &Library, component: &Component, units: u32) -> Option<Rect>
    requires range { IsComponent component.now }
    requires sized { FixedIsSized library.now units component.now }
    ensures { result ≡ fixed_box_of library.now units component.now }
{
    if !is_fixed(component) {
        return None;
    }
    let Some(at) = location(component) else {
        return None;
    };
    let Some(mac) = macro_named(library, component.macro_name()) else {
        return None;
    };
    Some(box_of(mac, &at, units))
}

/// Returns the boxes of the FIXED components, in the order of the text. `Err` if an allocation
/// fails.
pub(crate) fn fixed_boxes(
    alloc: Global,
    library: &Library,
    components: &[Component],
    units: u32,
) -> Result<Sequence<Rect>, AllocError>
    requires range { All IsComponent components.now }
    requires sized { All (FixedIsSized library.now units) components.now }
    ensures { IfOk result (λ boxes. boxes ≡ filter_map (fixed_box_of library.now units) components.now) }
{
    let mut boxes = Sequence::new(alloc);
    for component in components {
        if let Some(rect) = fixed_box(library, component, units) {
            boxes.push(rect)?;
        }
    }
    Ok(boxes)
}

/// Appends copies of the rectangles.
fn push_rects(rects: &[Rect], all: &mut Sequence<Rect>) -> Result<(), AllocError>
    ensures { OnOk result (all.new ≡ all.old ++ rects.now) }
{
    for rect in rects {
        all.push(*rect)?;
    }
    Ok(())
}

/// Appends the rectangles of a placement blockage that is neither SOFT nor PARTIAL.
fn push_blockage(blockage: &Blockage, obstacles: &mut Sequence<Rect>) -> Result<(), AllocError>
    ensures { OnOk result (obstacles.new ≡ obstacles.old ++ blocked blockage.now) }
{
    if blockage.soft || blockage.partial {
        return Ok(());
    }
    push_rects(blockage.rects.as_slice(), obstacles)
}

/// Appends the rectangles of all placement blockages that are neither SOFT nor PARTIAL.
pub(crate) fn push_blockages(
    blockages: &[Blockage],
    obstacles: &mut Sequence<Rect>,
) -> Result<(), AllocError>
    ensures { OnOk result (obstacles.new ≡ obstacles.old ++ flat_map blocked blockages.now) }
{
    for blockage in blockages {
        push_blockage(blockage, obstacles)?;
    }
    Ok(())
}

/// Appends the rectangles of a placement blockage that is SOFT and not PARTIAL.
fn push_soft(blockage: &Blockage, soft: &mut Sequence<Rect>) -> Result<(), AllocError>
    ensures { OnOk result (soft.new ≡ soft.old ++ softly_blocked blockage.now) }
{
    if !blockage.soft || blockage.partial {
        return Ok(());
    }
    push_rects(blockage.rects.as_slice(), soft)
}

/// Returns the rectangles of the placement blockages that are SOFT and not PARTIAL, in the order of
/// the text. `Err` if an allocation fails.
pub(crate) fn soft_rects(
    alloc: Global,
    blockages: &[Blockage],
) -> Result<Sequence<Rect>, AllocError>
    ensures { IfOk result (λ soft. soft ≡ flat_map softly_blocked blockages.now) }
{
    let mut soft = Sequence::new(alloc);
    for blockage in blockages {
        push_soft(blockage, &mut soft)?;
    }
    Ok(soft)
}
