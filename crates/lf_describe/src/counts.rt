//! Lists the cells of a design, checks them, counts those that break a rule, and measures their
//! density.

ghost use Rattle.std.specs.Prelude.{◌≡◌, ◌≤◌, ◌↔◌, ◌++◌, All, IfOk, IsTrue, OnOk, count_by, is_none, is_some, length, map};
ghost use Rattle.lf_rules.specs.declared.report_types.Report.{Report};
ghost use Rattle.lf_rules.specs.Legalizer.{Legalizer};
ghost use Rattle.lf_rules.specs.Reports.{IsClean};
ghost use Rattle.lf_reports.specs.Reports.{AreVerdicts, IsListed, listed_at, with_byte_name};
ghost use Rattle.lf_density.specs.Density.{IsDensityOf};
ghost use Rattle.lf_segments.specs.Indexes.{IsIndexOf};
ghost use Rattle.lf_describe.specs.Description.{placed_box, placed_boxes as boxes_of_placed, places_in_text};

use lf_density::{Density, density_of};
use lf_floorplan::{Frame, LoadedCells, mac_at};
use lf_reports::verdicts_with_plan;
use lf_rules::{Broken, Listed, Padding, box_of};
use lf_segments::{FrameIndex, IndexedFrame};
use lf_units::Rect;
use std::alloc::{AllocError, Global};

/// The number of cells, and how many of them are illegal or unplaced.
#[derive(Clone, Copy)]
pub(crate) struct Counts {
    /// The number of cells.
    pub(crate) cells: usize,
    /// The number of cells that break a rule at their places.
    pub(crate) illegal: usize,
    /// The number of unplaced cells.
    pub(crate) unplaced: usize,
}

/// Returns the cells, each at its place in the DEF text. `Err` if an allocation fails.
pub(crate) fn listed<'a>(
    alloc: Global,
    cells: &'a LoadedCells,
) -> Result<Vec<Listed<&'a [u8]>>, AllocError>
    ensures { IfOk result (λ listed. map with_byte_name listed.items ≡ listed_at cells.now (places_in_text cells.now)) }
{
    let mut listed = Vec::with_capacity(alloc, cells.len())?;
    for at in 0..cells.len() {
        let cell = cells.get(at).unwrap();
        listed.push(Listed {
            name: cell.name,
            team: cell.team,
            mac: cell.mac,
            place: cell.place,
        })?;
    }
    Ok(listed)
}

/// Returns the verdict of each cell of a design: the first rule that it breaks at its place, or
/// `None`. `index` is the frame's. `Err` if an allocation fails.
pub(crate) fn verdicts_of(
    alloc: Global,
    frame: &Frame,
    index: &FrameIndex,
    cells: &[Listed<&[u8]>],
) -> Result<Vec<Option<Broken>>, AllocError>
    requires index { IsIndexOf frame.now index.now }
    requires listed { All (λ c. IsListed frame.now (with_byte_name c)) cells.now }
    requires few { length cells.now ≤ 4000000 }
    ensures count { IfOk result (λ verdicts. length verdicts.items ≡ length cells.now) }
    ensures each { (l : Legalizer)
        → IfOk result (λ verdicts. AreVerdicts l frame.now 0 (map with_byte_name cells.now) verdicts.items) }
{
    verdicts_with_plan(
        alloc,
        &IndexedFrame::new(frame, index),
        cells,
        Padding::none(),
    )
}

/// Appends the box of the cell, if it is placed. `Err` if an allocation fails.
fn push_box(boxes: &mut Vec<Rect>, frame: &Frame, cell: &Listed<&[u8]>) -> Result<(), AllocError>
    requires { IsListed frame.now (with_byte_name cell.now) }
    ensures { OnOk result (boxes.new.items ≡ boxes.old.items ++ placed_box frame.now (with_byte_name cell.now)) }
{
    if let Some(place) = &cell.place {
        boxes.push(box_of(frame, mac_at(frame, cell.mac), place))?;
    }
    Ok(())
}

/// Returns the boxes of the placed cells. `Err` if an allocation fails.
fn placed_boxes(
    alloc: Global,
    frame: &Frame,
    cells: &[Listed<&[u8]>],
) -> Result<Vec<Rect>, AllocError>
    requires { All (λ c. IsListed frame.now (with_byte_name c)) cells.now }
    ensures { IfOk result (λ boxes. boxes.items ≡ boxes_of_placed frame.now (map with_byte_name cells.now)) }
{
    let mut boxes = Vec::with_capacity(alloc, cells.len())?;
    for cell in cells {
        push_box(&mut boxes, frame, cell)?;
    }
    Ok(boxes)
}

/// Returns the density of the placed cells. `index` is the frame's. `Err` if an allocation fails.
pub(crate) fn density_in(
    alloc: Global,
    frame: &Frame,
    index: &FrameIndex,
    cells: &[Listed<&[u8]>],
) -> Result<Density, AllocError>
    requires index { IsIndexOf frame.now index.now }
    requires listed { All (λ c. IsListed frame.now (with_byte_name c)) cells.now }
    ensures { IfOk result (IsDensityOf frame.now (boxes_of_placed frame.now (map with_byte_name cells.now))) }
{
    let boxes = placed_boxes(alloc, frame, cells)?;
    density_of(alloc, frame, index, boxes.as_slice())
}

/// Counts the verdicts that name a broken rule.
fn illegal_in(verdicts: &[Option<Broken>]) -> usize
    ensures { result ≡ count_by is_some verdicts.now }
{
    verdicts.iter().filter(|verdict| verdict.is_some()).count()
}

/// Counts the unplaced cells.
fn unplaced_in(cells: &[Listed<&[u8]>]) -> usize
    ensures { result ≡ count_by (λ c. is_none c.place) (map with_byte_name cells.now) }
{
    cells.iter().filter(|cell| cell.place.is_none()).count()
}

/// Counts the cells, those that break a rule by their verdicts, and the unplaced ones.
pub(crate) fn counts_of(cells: &[Listed<&[u8]>], verdicts: &[Option<Broken>]) -> Counts
    ensures cells { result.cells ≡ length (map with_byte_name cells.now) }
    ensures illegal { result.illegal ≡ count_by is_some verdicts.now }
    ensures unplaced { result.unplaced ≡ count_by (λ c. is_none c.place) (map with_byte_name cells.now) }
{
    Counts {
        cells: cells.len(),
        illegal: illegal_in(verdicts),
        unplaced: unplaced_in(cells),
    }
}

/// Returns whether no cell breaks a rule and no cell is unplaced.
pub(crate) fn is_clean(counts: &Counts) -> bool
    ensures { (report : Report) → counts.now.illegal ≡ length report.violations → counts.now.unplaced ≡ report.unplaced
        → IsTrue result ↔ IsClean report }
{
    counts.illegal == 0 && counts.unplaced == 0
}
