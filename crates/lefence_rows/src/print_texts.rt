//! The contents of texts: a line for each site, macro, row, region, group, component and blockage,
//! and one for the header.

use itoa::Buffer;
use lf_def::{
    Blockage, Component, DefDoc, DocumentHeader, Group, PlacementClause, PlacementKind, Region,
    RegionKind, RowStatement,
};
use lf_floorplan::{Macro, Site};
use lf_lef::Library;
use lf_orient::{Orient, Rail, Symmetry, orient_word};
use lf_units::{Point, Rect};
use std::io;
use std::io::Write;

/// Writes a space and a word.
fn put_word<W: Write>(writer: &mut W, word: &[u8]) -> io::Result<()> {
    writer.write_all(b" ")?;
    writer.write_all(word)
}

/// Writes a space and a number.
fn put_number<W: Write>(writer: &mut W, number: i64) -> io::Result<()> {
    put_word(writer, Buffer::new().format(number).as_bytes())
}

/// Writes the two numbers of a point.
fn put_point<W: Write>(writer: &mut W, point: &Point) -> io::Result<()> {
    put_number(writer, point.x)?;
    put_number(writer, point.y)
}

/// Writes a location: its two numbers and its orientation.
fn put_location<W: Write>(writer: &mut W, x: i64, y: i64, orient: Orient) -> io::Result<()> {
    put_number(writer, x)?;
    put_number(writer, y)?;
    put_word(writer, orient_word(orient))
}

/// Writes the corners of rectangles.
fn put_rects<W: Write>(writer: &mut W, rects: &[Rect]) -> io::Result<()> {
    for rect in rects {
        put_number(writer, rect.x1)?;
        put_number(writer, rect.y1)?;
        put_number(writer, rect.x2)?;
        put_number(writer, rect.y2)?;
    }
    Ok(())
}

/// Writes the axes of a symmetry.
fn put_symmetry<W: Write>(writer: &mut W, symmetry: Symmetry) -> io::Result<()> {
    if symmetry.x {
        writer.write_all(b" X")?;
    }
    if symmetry.y {
        writer.write_all(b" Y")?;
    }
    Ok(())
}

/// Writes a site: its name, whether it is a core site, its size in millionths of a micron, and its
/// symmetry.
fn put_site<W: Write>(writer: &mut W, site: &Site) -> io::Result<()> {
    writer.write_all(b"site")?;
    put_word(writer, site.name.as_bytes())?;
    if site.core {
        writer.write_all(b" CORE")?;
    }
    put_point(writer, &site.size)?;
    put_symmetry(writer, site.symmetry)?;
    writer.write_all(b"\n")
}

/// Writes a macro: its name, its size and origin in millionths of a micron, and its rail and
/// symmetry.
fn put_macro<W: Write>(writer: &mut W, mac: &Macro) -> io::Result<()> {
    writer.write_all(b"macro")?;
    put_word(writer, mac.name.as_bytes())?;
    put_point(writer, &mac.size)?;
    put_point(writer, &mac.origin)?;
    let rail: &[u8] = match mac.rail {
        Rail::Ground => b"GROUND",
        Rail::Power => b"POWER",
    };
    put_word(writer, rail)?;
    put_symmetry(writer, mac.symmetry)?;
    writer.write_all(b"\n")
}

/// Writes the sites and macros of a library.
pub fn put_library<W: Write>(writer: &mut W, library: &Library) -> io::Result<()> {
    for site in library.sites() {
        put_site(writer, site)?;
    }
    for mac in library.macros() {
        put_macro(writer, mac)?;
    }
    Ok(())
}

/// Writes the header: the design, the version, the divider, the brackets, and the units if they are
/// given.
fn put_header<W: Write>(writer: &mut W, header: &DocumentHeader) -> io::Result<()> {
    writer.write_all(b"design")?;
    put_word(writer, header.design.as_bytes())?;
    put_word(writer, header.version.as_bytes())?;
    put_word(writer, header.divider.as_bytes())?;
    put_word(writer, header.brackets.as_bytes())?;
    if let Some(units) = header.units {
        put_number(writer, i64::from(units))?;
    }
    writer.write_all(b"\n")
}

/// Writes a row: its name, site and location, its sites across and up, and its step if it is given.
fn put_row<W: Write>(writer: &mut W, row: &RowStatement) -> io::Result<()> {
    writer.write_all(b"row")?;
    put_word(writer, row.name.as_bytes())?;
    put_word(writer, row.site.as_bytes())?;
    put_location(writer, row.x, row.y, row.orient)?;
    put_number(writer, i64::from(row.sites_x))?;
    put_number(writer, i64::from(row.sites_y))?;
    if let Some(step) = &row.step {
        put_point(writer, step)?;
    }
    writer.write_all(b"\n")
}

/// Writes a region: its name, its type or `-`, and its rectangles.
fn put_region<W: Write>(writer: &mut W, region: &Region) -> io::Result<()> {
    writer.write_all(b"region")?;
    put_word(writer, region.name.as_bytes())?;
    let kind: &[u8] = match region.kind {
        Some(RegionKind::Fence) => b"FENCE",
        Some(RegionKind::Guide) => b"GUIDE",
        None => b"-",
    };
    put_word(writer, kind)?;
    put_rects(writer, region.rects.as_slice())?;
    writer.write_all(b"\n")
}

/// Writes a group: its name, its region or `-`, and its patterns.
fn put_group<W: Write>(writer: &mut W, group: &Group) -> io::Result<()> {
    writer.write_all(b"group")?;
    put_word(writer, group.name.as_bytes())?;
    match &group.region {
        Some(region) => put_word(writer, region.as_bytes())?,
        None => put_word(writer, b"-")?,
    }
    for pattern in group.patterns.as_slice() {
        put_word(writer, pattern.as_bytes())?;
    }
    writer.write_all(b"\n")
}

/// Writes a placement: its kind, its location if it has one, and the bytes of its clause, with `~`
/// for a line feed.
fn put_placement<W: Write>(
    writer: &mut W,
    text: &[u8],
    placement: &PlacementClause,
) -> io::Result<()> {
    let kind: &[u8] = match placement.kind {
        PlacementKind::Fixed => b"FIXED",
        PlacementKind::Cover => b"COVER",
        PlacementKind::Placed => b"PLACED",
        PlacementKind::Unplaced => b"UNPLACED",
    };
    put_word(writer, kind)?;
    if let Some(place) = placement.place {
        put_location(writer, i64::from(place.x), i64::from(place.y), place.orient)?;
    }
    writer.write_all(b" ")?;
    for byte in text.get(placement.start..placement.stop).unwrap_or(b"?") {
        writer.write_all(&[if *byte == b'\n' { b'~' } else { *byte }])?;
    }
    Ok(())
}

/// Writes a component: its name, its macro, and its placement, or else the offset of its `;`.
fn put_component<W: Write>(
    writer: &mut W,
    text: &[u8],
    component: &Component<'_>,
) -> io::Result<()> {
    writer.write_all(b"component")?;
    put_word(writer, component.name())?;
    put_word(writer, component.macro_name())?;
    match component.placement() {
        Some(placement) => put_placement(writer, text, &placement)?,
        None => put_word(
            writer,
            Buffer::new().format(component.semicolon()).as_bytes(),
        )?,
    }
    writer.write_all(b"\n")
}

/// Writes a placement blockage: whether it is soft and partial, and its rectangles.
fn put_blockage<W: Write>(writer: &mut W, blockage: &Blockage) -> io::Result<()> {
    writer.write_all(b"blockage")?;
    if blockage.soft {
        writer.write_all(b" SOFT")?;
    }
    if blockage.partial {
        writer.write_all(b" PARTIAL")?;
    }
    put_rects(writer, blockage.rects.as_slice())?;
    writer.write_all(b"\n")
}

/// Writes the rows, regions and groups of a document.
fn put_floorplan<W: Write>(writer: &mut W, document: &DefDoc<'_>) -> io::Result<()> {
    for row in document.rows.as_slice() {
        put_row(writer, row)?;
    }
    for region in document.regions.as_slice() {
        put_region(writer, region)?;
    }
    for group in document.groups.as_slice() {
        put_group(writer, group)?;
    }
    Ok(())
}

/// Writes a document.
pub fn put_document<W: Write>(writer: &mut W, document: &DefDoc<'_>) -> io::Result<()> {
    put_header(writer, &document.header)?;
    put_floorplan(writer, document)?;
    for component in document.components.as_slice() {
        put_component(writer, document.text, component)?;
    }
    for blockage in document.blockages.as_slice() {
        put_blockage(writer, blockage)?;
    }
    Ok(())
}
