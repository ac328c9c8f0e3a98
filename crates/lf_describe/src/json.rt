//! The lines as JSON values. A function that allocates returns `Err` if an allocation fails.

ghost use Rattle.std.specs.Prelude.{◌≡◌, IfOk, map, option_map};
ghost use Rattle.serde_json.specs.Data.{null, string};
ghost use Rattle.serde_json.specs.View.{view};
ghost use Rattle.lf_floorplan.specs.Boxes.{macro_of, size_of};
ghost use Rattle.lf_floorplan.specs.Rows.{IsCoreRow};
ghost use Rattle.lf_reports.specs.Reports.{IsListed, with_byte_name};
ghost use Rattle.lf_describe.specs.Description.{box_data, cell_data, design_data, orientation_data, fence_data, obstacle_data};
ghost use Rattle.lf_describe.specs.Description.{orient_data, other_of, rect_data, row_data, rule_data, soft_data};
ghost use Rattle.lf_describe.specs.Description.{density_data, described_team_name as name_of_team, text_data, text_or_null as named_or_null, total_data};

use crate::counts::Counts;
use lf_density::Density;
use lf_floorplan::{Frame, Place, Row, Team, mac_at, size_in_units};
use lf_orient::{Orient, orient_word};
use lf_rules::{Broken, Listed, box_of};
use lf_units::{Point, Rect};
use serde_json::{Value, json};
use std::alloc::{AllocError, Global};
use std::str;

/// Returns the null value, which is written for something absent.
fn null_value() -> Value
    ensures { view result ≡ null }
{
    Value::Null
}

/// Makes the value of a text.
fn string_value(alloc: Global, text: &str) -> Result<Value, AllocError>
    ensures { IfOk result (λ v. view v ≡ string text.now) }
{
    json!(in alloc; text)
}

/// Makes the value of a name: a text, or null if its bytes are not UTF-8. `Err` if an allocation
/// fails.
pub fn name_value(alloc: Global, name: &[u8]) -> Result<Value, AllocError>
    ensures { IfOk result (λ v. view v ≡ text_data name.now) }
{
    match str::from_utf8(name) {
        Ok(text) => string_value(alloc, text),
        Err(_) => Ok(null_value()),
    }
}

/// Makes the value of a name, or null if there is no name.
fn text_or_null(alloc: Global, name: Option<&[u8]>) -> Result<Value, AllocError>
    ensures { IfOk result (λ v. view v ≡ named_or_null (option_map (λ bytes. bytes.now) name.entry)) }
{
    match name {
        Some(name) => name_value(alloc, name),
        None => Ok(null_value()),
    }
}

/// Makes the value of a rectangle: its left, bottom, right and top in database units.
fn rect_value(alloc: Global, rect: &Rect) -> Result<Value, AllocError>
    ensures { IfOk result (λ v. view v ≡ rect_data rect.now) }
{
    json!(in alloc; [rect.x1, rect.y1, rect.x2, rect.y2])
}

/// Makes the values of the rectangles, in order.
fn rect_values(alloc: Global, rects: &[Rect]) -> Result<Vec<Value>, AllocError>
    ensures { IfOk result (λ values. map view values.items ≡ map rect_data rects.now) }
{
    let mut values = Vec::with_capacity(alloc, rects.len())?;
    for rect in rects {
        values.push(rect_value(alloc, rect)?)?;
    }
    Ok(values)
}

/// Makes the value of an orientation: its word.
fn orient_value(alloc: Global, orient: Orient) -> Result<Value, AllocError>
    ensures { IfOk result (λ v. view v ≡ orient_data orient) }
{
    name_value(alloc, orient_word(orient))
}

/// Makes the line of the design.
pub(crate) fn design_value(alloc: Global, frame: &Frame) -> Result<Value, AllocError>
    ensures { IfOk result (λ v. view v ≡ design_data frame.now) }
{
    let name = name_value(alloc, frame.header.design.as_bytes())?;
    let site = name_value(alloc, frame.site.name.as_bytes())?;
    let height = frame.pitch.y;
    let width = frame.pitch.x;
    let units = frame.header.units;
    json!(in alloc; {"kind": "design", "name": name, "site": site, "site_height": height, "site_width": width, "units": units})
}

/// Makes the line of a row.
pub(crate) fn row_value(alloc: Global, frame: &Frame, row: &Row) -> Result<Value, AllocError>
    requires { IsCoreRow frame.now.pitch row.now }
    ensures { IfOk result (λ v. view v ≡ row_data frame.now row.now) }
{
    let rect = rect_value(alloc, &row.area(&frame.pitch))?;
    let name = name_value(alloc, row.name.as_bytes())?;
    let orient = orient_value(alloc, row.orient)?;
    let sites = row.sites;
    json!(in alloc; {"box": rect, "kind": "row", "name": name, "orient": orient, "sites": sites})
}

/// Makes the line of a fence.
pub(crate) fn fence_value(alloc: Global, fence: &Team) -> Result<Value, AllocError>
    ensures { IfOk result (λ v. view v ≡ fence_data fence.now) }
{
    let name = name_value(alloc, fence.name.as_bytes())?;
    let rects = Value::Array(rect_values(alloc, fence.rects.as_slice())?);
    json!(in alloc; {"kind": "fence", "name": name, "rects": rects})
}

/// Makes the line of an obstacle. If its box is that of a FIXED component, `name` is the
/// component's.
pub(crate) fn obstacle_value(
    alloc: Global,
    name: Option<&[u8]>,
    obstacle: &Rect,
) -> Result<Value, AllocError>
    ensures { IfOk result (λ v. view v ≡ obstacle_data (option_map (λ bytes. bytes.now) name.entry) obstacle.now) }
{
    let rect = rect_value(alloc, obstacle)?;
    let name = text_or_null(alloc, name)?;
    json!(in alloc; {"box": rect, "kind": "obstacle", "name": name})
}

/// Makes the line of a rectangle of a soft blockage.
pub(crate) fn soft_value(alloc: Global, soft: &Rect) -> Result<Value, AllocError>
    ensures { IfOk result (λ v. view v ≡ soft_data soft.now) }
{
    let rect = rect_value(alloc, soft)?;
    json!(in alloc; {"box": rect, "kind": "soft"})
}

/// Returns the name of the team of this number.
fn team_name(frame: &Frame, team: usize) -> &[u8]
    ensures { result.now ≡ name_of_team frame.now team }
{
    match frame.teams.as_slice().get(team) {
        Some(fence) => fence.name.as_bytes(),
        None => b"-",
    }
}

/// Returns the size of the cell's macro when it faces north.
fn cell_size(frame: &Frame, cell: &Listed<&[u8]>) -> Point
    requires { IsListed frame.now (with_byte_name cell.now) }
    ensures { result ≡ size_of frame.now (macro_of frame.now cell.now.mac) }
{
    size_in_units(&mac_at(frame, cell.mac).size, frame.header.units)
}

/// Makes the value of the cell's box at its place, or null if it is unplaced.
fn box_value(alloc: Global, frame: &Frame, cell: &Listed<&[u8]>) -> Result<Value, AllocError>
    requires { IsListed frame.now (with_byte_name cell.now) }
    ensures { IfOk result (λ v. view v ≡ box_data frame.now (with_byte_name cell.now)) }
{
    match &cell.place {
        Some(place) => rect_value(alloc, &box_of(frame, mac_at(frame, cell.mac), place)),
        None => Ok(null_value()),
    }
}

/// Makes the value of the cell's orientation at its place, or null if it is unplaced.
fn facing_value(alloc: Global, place: &Option<Place>) -> Result<Value, AllocError>
    ensures { IfOk result (λ v. view v ≡ orientation_data place.now) }
{
    match place {
        Some(place) => orient_value(alloc, place.orient),
        None => Ok(null_value()),
    }
}

/// Makes the value of the broken rule's number, or null if no rule is broken.
fn rule_value(broken: &Option<Broken>) -> Value
    ensures { view result ≡ rule_data broken.now }
{
    match broken {
        Some(broken) => Value::from(broken.rule.number()),
        None => null_value(),
    }
}

/// Returns the name of the other cell that breaks the rule with this one, or `None` if there is no
/// other cell.
fn other_name<'a>(cells: &[Listed<&'a [u8]>], broken: &Option<Broken>) -> Option<&'a [u8]>
    ensures { option_map (λ bytes. bytes.now) result ≡ other_of (map with_byte_name cells.now) broken.now }
{
    let Some(broken) = broken else {
        return None;
    };
    let Some(other) = broken.other else {
        return None;
    };
    match cells.get(other as usize) {
        Some(cell) => Some(cell.name),
        None => None,
    }
}

/// Makes the line of a cell among the listed cells.
pub(crate) fn cell_value(
    alloc: Global,
    frame: &Frame,
    cells: &[Listed<&[u8]>],
    cell: &Listed<&[u8]>,
    broken: &Option<Broken>,
) -> Result<Value, AllocError>
    requires { IsListed frame.now (with_byte_name cell.now) }
    ensures { IfOk result
        (λ v. view v ≡ cell_data frame.now (map with_byte_name cells.now) (with_byte_name cell.now) broken.now) }
{
    let size = cell_size(frame, cell);
    let rect = box_value(alloc, frame, cell)?;
    let mac = name_value(alloc, mac_at(frame, cell.mac).name.as_bytes())?;
    let name = name_value(alloc, cell.name)?;
    let orient = facing_value(alloc, &cell.place)?;
    let other = text_or_null(alloc, other_name(cells, broken))?;
    let rule = rule_value(broken);
    let team = name_value(alloc, team_name(frame, cell.team))?;
    let height = size.y;
    let width = size.x;
    json!(in alloc; {
        "box": rect, "height": height, "kind": "cell", "macro": mac, "name": name, "orient": orient,
        "other": other, "rule": rule, "team": team, "width": width
    })
}

/// Makes the line of the density.
pub(crate) fn density_value(alloc: Global, density: &Density) -> Result<Value, AllocError>
    ensures { IfOk result (λ v. view v ≡ density_data density.now) }
{
    let bins = density.bins;
    let side = density.side;
    let (two, five) = (density.fullest_2, density.fullest_5);
    let (ten, twenty) = (density.fullest_10, density.fullest_20);
    json!(in alloc; {
        "bins": bins, "fullest_10": ten, "fullest_2": two, "fullest_20": twenty, "fullest_5": five, "kind": "density",
        "side": side
    })
}

/// Makes the line of the totals.
pub(crate) fn total_value(
    alloc: Global,
    frame: &Frame,
    counts: &Counts,
) -> Result<Value, AllocError>
    ensures { IfOk result (λ v. view v ≡ total_data frame.now counts.now.cells counts.now.illegal counts.now.unplaced) }
{
    let cells = counts.cells;
    let illegal = counts.illegal;
    let unplaced = counts.unplaced;
    let fences = frame.teams.len();
    let obstacles = frame.obstacles.len();
    let rows = frame.rows.len();
    let soft = frame.soft.len();
    json!(in alloc; {
        "cells": cells, "fences": fences, "illegal": illegal, "kind": "total", "obstacles": obstacles,
        "rows": rows, "soft": soft, "unplaced": unplaced
    })
}
