//! The parts of a description: the lines of one kind.

ghost use Rattle.std.specs.Prelude.{◌≡◌, ◌++◌, ◌∷◌, [], IfOk, IfSome, OnErr, OnOk, Some, count_by, flat_map, is_none, is_some, length, map, option_map, slice_get, ◌||◌};
ghost use Rattle.std.specs.Io.KnownBytes.{Appends};
ghost use Rattle.serde_json.specs.Data.{Data};
ghost use Rattle.serde_json.specs.View.{view};
ghost use Rattle.lf_reports.specs.Reports.{IsListed, with_byte_name, verdict_at};
ghost use Rattle.lf_describe.specs.Description.{density_data, design_data, fence_data, line_text, obstacle_lines, row_data, soft_data};
ghost use Rattle.lf_describe.specs.Parts.{described_cells, part_lines, part_text, parts_text};
ghost use Rattle.lf_describe.specs.Written.{AppendsFront, WritesFrontOf, is_line_output};

use crate::counts::{Counts, counts_of};
use crate::described::DescribedDesign;
use crate::json::{
    cell_value, density_value, design_value, fence_value, obstacle_value, row_value, soft_value,
    total_value,
};
use crate::line_output::{LineFault, put_last, put_line};
use lf_density::Density;
use lf_floorplan::Frame;
use lf_io::Sink;
use lf_rules::{Broken, Listed};
use lf_units::Rect;
use serde_json::Value;
use std::alloc::{AllocError, Global};

/// The kinds of lines.
#[derive(Clone, Copy, Debug, PartialEq, Eq)]
pub(crate) enum Part {
    Design,
    Rows,
    Fences,
    Obstacles,
    Soft,
    Cells,
    Density,
    Total,
}

/// The kinds of lines, in order.
const PARTS: [Part; 8] = [
    Part::Design,
    Part::Rows,
    Part::Fences,
    Part::Obstacles,
    Part::Soft,
    Part::Cells,
    Part::Density,
    Part::Total,
];

/// Counts the cells, those that break a rule, and the unplaced ones.
pub(crate) fn counts_in(design: &DescribedDesign<'_>) -> Counts
    ensures cells { result.cells ≡ length (described_cells design.now) }
    ensures illegal { result.illegal ≡ count_by is_some design.now.verdicts.now }
    ensures unplaced { result.unplaced ≡ count_by (λ c. is_none c.place) (described_cells design.now) }
{
    counts_of(design.cells, design.verdicts)
}

/// Makes the line of the row of this number. `Ok(None)` if there is no such row.
fn row_line(alloc: Global, frame: &Frame, number: usize) -> Result<Option<Value>, AllocError>
    ensures { IfOk result (λ line. option_map view line ≡ slice_get (map (row_data frame.now) frame.now.rows) number) }
{
    match frame.rows.as_slice().get(number) {
        None => Ok(None),
        Some(row) => Ok(Some(row_value(alloc, frame, row)?)),
    }
}

/// Makes the line of the fence of this number. `Ok(None)` if there is no such fence.
fn fence_line(alloc: Global, frame: &Frame, number: usize) -> Result<Option<Value>, AllocError>
    ensures { IfOk result (λ line. option_map view line ≡ slice_get (map fence_data frame.now.teams) number) }
{
    match frame.teams.as_slice().get(number) {
        None => Ok(None),
        Some(fence) => Ok(Some(fence_value(alloc, fence)?)),
    }
}

/// Returns the name of this number, or `None` if there are fewer names.
fn name_at<'a>(names: &[&'a [u8]], number: usize) -> Option<&'a [u8]>
    ensures { option_map (λ name. name.now) result ≡ slice_get (map (λ n. n.now) names.now) number }
{
    match names.get(number) {
        Some(name) => Some(*name),
        None => None,
    }
}

/// Returns the obstacle of this number. `None` if there is no such obstacle.
fn obstacle_at(frame: &Frame, number: usize) -> Option<&Rect>
    ensures { option_map (λ rect. rect.now) result ≡ slice_get frame.now.obstacles number }
{
    frame.obstacles.as_slice().get(number)
}

/// Makes the line of the obstacle of this number. `Ok(None)` if there is no such obstacle.
fn obstacle_line(
    alloc: Global,
    frame: &Frame,
    names: &[&[u8]],
    number: usize,
) -> Result<Option<Value>, AllocError>
    ensures { IfOk result (λ line. option_map view line
        ≡ slice_get (obstacle_lines (map (λ n. n.now) names.now) frame.now.obstacles) number) }
{
    let Some(obstacle) = obstacle_at(frame, number) else {
        return Ok(None);
    };
    let value = obstacle_value(alloc, name_at(names, number), obstacle)?;
    Ok(Some(value))
}

/// Makes the line of the soft rectangle of this number. `Ok(None)` if there is no such rectangle.
fn soft_line(alloc: Global, frame: &Frame, number: usize) -> Result<Option<Value>, AllocError>
    ensures { IfOk result (λ line. option_map view line ≡ slice_get (map soft_data frame.now.soft) number) }
{
    match frame.soft.as_slice().get(number) {
        None => Ok(None),
        Some(rect) => Ok(Some(soft_value(alloc, rect)?)),
    }
}

/// Returns the cell of this number. `None` if there is no such cell.
fn cell_at<'a>(design: &DescribedDesign<'a>, number: usize) -> Option<&'a Listed<&'a [u8]>>
    ensures there { option_map (λ cell. with_byte_name cell.now) result
        ≡ slice_get (described_cells design.now) number }
    ensures listed { IfSome result (λ cell. IsListed design.now.frame.now (with_byte_name cell.now)) }
{
    design.cells.get(number)
}

/// Returns the verdict of the cell of this number. `None` if there is no such cell.
fn verdict_of(design: &DescribedDesign<'_>, number: usize) -> Option<Broken>
    ensures { result ≡ verdict_at design.now.verdicts.now number }
{
    match design.verdicts.get(number) {
        Some(verdict) => *verdict,
        None => None,
    }
}

/// Makes the line of the cell of this number. `Ok(None)` if there is no such cell.
fn cell_line(
    alloc: Global,
    design: &DescribedDesign<'_>,
    number: usize,
) -> Result<Option<Value>, AllocError>
    ensures { IfOk result (λ line. option_map view line ≡ slice_get (part_lines design.now Part.Cells) number) }
{
    let Some(cell) = cell_at(design, number) else {
        return Ok(None);
    };
    let verdict = verdict_of(design, number);
    let value = cell_value(alloc, design.frame, design.cells, cell, &verdict)?;
    Ok(Some(value))
}

/// Returns the number of lines of a part.
#[tactic(auto, using(crate::proofs::Numbered::count))]
fn count_in(design: &DescribedDesign<'_>, part: Part) -> usize
    ensures { result ≡ length (part_lines design.now part) }
{
    match part {
        Part::Design => 1,
        Part::Rows => design.frame.rows.len(),
        Part::Fences => design.frame.teams.len(),
        Part::Obstacles => design.frame.obstacles.len(),
        Part::Soft => design.frame.soft.len(),
        Part::Cells => design.cells.len(),
        Part::Density => 1,
        Part::Total => 1,
    }
}

/// Makes the line of the design, which has the number 0. `Ok(None)` for another number.
fn design_line(alloc: Global, frame: &Frame, number: usize) -> Result<Option<Value>, AllocError>
    ensures { IfOk result (λ line. option_map view line ≡ slice_get (design_data frame.now ∷ []) number) }
{
    if number > 0 {
        return Ok(None);
    }
    Ok(Some(design_value(alloc, frame)?))
}

/// Makes the line of the density, which has the number 0. `Ok(None)` for another number.
fn density_line(
    alloc: Global,
    density: &Density,
    number: usize,
) -> Result<Option<Value>, AllocError>
    ensures { IfOk result (λ line. option_map view line ≡ slice_get (density_data density.now ∷ []) number) }
{
    if number > 0 {
        return Ok(None);
    }
    Ok(Some(density_value(alloc, density)?))
}

/// Makes the line of the totals, which has the number 0. `Ok(None)` for another number.
fn total_line(
    alloc: Global,
    design: &DescribedDesign<'_>,
    number: usize,
) -> Result<Option<Value>, AllocError>
    ensures { IfOk result (λ line. option_map view line ≡ slice_get (part_lines design.now Part.Total) number) }
{
    if number > 0 {
        return Ok(None);
    }
    Ok(Some(total_value(alloc, design.frame, &counts_in(design))?))
}

/// Makes the line of this number of a part. `Ok(None)` if there is no such line.
fn line_in(
    alloc: Global,
    design: &DescribedDesign<'_>,
    part: Part,
    number: usize,
) -> Result<Option<Value>, AllocError>
    ensures { IfOk result (λ line. option_map view line ≡ slice_get (part_lines design.now part) number) }
{
    match part {
        Part::Design => design_line(alloc, design.frame, number),
        Part::Rows => row_line(alloc, design.frame, number),
        Part::Fences => fence_line(alloc, design.frame, number),
        Part::Obstacles => obstacle_line(alloc, design.frame, design.names, number),
        Part::Soft => soft_line(alloc, design.frame, number),
        Part::Cells => cell_line(alloc, design, number),
        Part::Density => density_line(alloc, &design.density, number),
        Part::Total => total_line(alloc, design, number),
    }
}

/// Writes the line of this number of a part, after the buffered bytes. Bytes may remain in the
/// buffer. Writes nothing if there is no such line.
fn put_number<W: Sink>(
    alloc: Global,
    design: &DescribedDesign<'_>,
    part: Part,
    number: usize,
    writer: &mut W,
    waiting: &mut Vec<u8>,
) -> Result<(), LineFault>
    ensures ok { (d : Data) → slice_get (part_lines design.now part) number ≡ Some d
        → OnOk result (WritesFrontOf (W.contents writer.old) (W.contents writer.new)
        (waiting.old.items ++ line_text d) waiting.new.items) }
    ensures err { (d : Data) → slice_get (part_lines design.now part) number ≡ Some d
        → OnErr result
        (AppendsFront (W.contents writer.old) (W.contents writer.new) (waiting.old.items ++ line_text d)) }
    ensures failed { W.has_failed writer.new ≡ (is_line_output result || W.has_failed writer.old) }
    ensures held { W.holds writer.new ≡ W.holds writer.old }
{
    let Ok(line) = line_in(alloc, design, part, number) else {
        return Err(LineFault::OutOfMemory);
    };
    let Some(value) = line else {
        return Ok(());
    };
    put_line(alloc, writer, waiting, &value)
}

/// Writes the lines of a part, after the buffered bytes. Bytes may remain in the buffer.
fn put_part<W: Sink>(
    alloc: Global,
    design: &DescribedDesign<'_>,
    part: Part,
    writer: &mut W,
    waiting: &mut Vec<u8>,
) -> Result<(), LineFault>
    ensures ok { OnOk result (WritesFrontOf (W.contents writer.old) (W.contents writer.new)
        (waiting.old.items ++ part_text design.now part) waiting.new.items) }
    ensures err { OnErr result (AppendsFront (W.contents writer.old) (W.contents writer.new)
        (waiting.old.items ++ part_text design.now part)) }
    ensures failed { W.has_failed writer.new ≡ (is_line_output result || W.has_failed writer.old) }
    ensures held { W.holds writer.new ≡ W.holds writer.old }
{
    for number in 0..count_in(design, part) {
        put_number(alloc, design, part, number, writer, waiting)?;
    }
    Ok(())
}

/// Writes the lines of these parts, after the buffered bytes. Bytes may remain in the buffer.
fn write_kinds<W: Sink>(
    alloc: Global,
    design: &DescribedDesign<'_>,
    parts: &[Part],
    writer: &mut W,
    waiting: &mut Vec<u8>,
) -> Result<(), LineFault>
    ensures ok { OnOk result (WritesFrontOf (W.contents writer.old) (W.contents writer.new)
        (waiting.old.items ++ flat_map (part_text design.now) parts.now) waiting.new.items) }
    ensures err { OnErr result (AppendsFront (W.contents writer.old) (W.contents writer.new)
        (waiting.old.items ++ flat_map (part_text design.now) parts.now)) }
    ensures failed { W.has_failed writer.new ≡ (is_line_output result || W.has_failed writer.old) }
    ensures held { W.holds writer.new ≡ W.holds writer.old }
{
    for part in parts {
        put_part(alloc, design, *part, writer, waiting)?;
    }
    Ok(())
}

/// Writes the buffered bytes and the lines of these parts, and flushes.
fn write_all_kinds<W: Sink>(
    alloc: Global,
    design: &DescribedDesign<'_>,
    parts: &[Part],
    writer: &mut W,
    waiting: &mut Vec<u8>,
) -> Result<(), LineFault>
    ensures ok { OnOk result (Appends (W.contents writer.old) (W.contents writer.new)
        (waiting.old.items ++ flat_map (part_text design.now) parts.now)) }
    ensures err { OnErr result (AppendsFront (W.contents writer.old) (W.contents writer.new)
        (waiting.old.items ++ flat_map (part_text design.now) parts.now)) }
    ensures failed { W.has_failed writer.new ≡ (is_line_output result || W.has_failed writer.old) }
    ensures held { W.holds writer.new ≡ W.holds writer.old }
{
    write_kinds(alloc, design, parts, writer, waiting)?;
    put_last(writer, waiting)
}

/// Writes all parts in order, and flushes.
pub(crate) fn put_parts<W: Sink>(
    alloc: Global,
    design: &DescribedDesign<'_>,
    writer: &mut W,
) -> Result<(), LineFault>
    ensures ok { OnOk result (Appends (W.contents writer.old) (W.contents writer.new) (parts_text design.now)) }
    ensures err { OnErr result
        (AppendsFront (W.contents writer.old) (W.contents writer.new) (parts_text design.now)) }
    ensures failed { W.has_failed writer.new ≡ (is_line_output result || W.has_failed writer.old) }
    ensures held { W.holds writer.new ≡ W.holds writer.old }
{
    let mut waiting = Vec::new(alloc);
    write_all_kinds(alloc, design, &PARTS, writer, &mut waiting)
}
