//! Reports: the number of cells, the number of unplaced cells, and the cells that break a rule at
//! their places.

ghost use Rattle.std.specs.Prelude.{◌≡◌, ◌↔◌, ◌<◌, ◌≤◌, ◌++◌, [], All, IfOk, OnOk, None, Some, ℕ, List, IsPermutation, is_none};
ghost use Rattle.std.specs.Prelude.{slice_get, count_by, length, map, option_and_then};
ghost use Rattle.std.specs.List.{cons_option};
ghost use Rattle.lf_floorplan.specs.Boxes.{IsSized, macro_of};
ghost use Rattle.lf_rules.specs.Legality.{candidate_of};
ghost use Rattle.lf_rules.specs.Legalizer.{IsVerdict, Legalizer};
ghost use Rattle.lf_rules.specs.FullyLegal.{IsFullyLegal, design_cells_at};
ghost use Rattle.lf_rules.specs.Reports.{IsClean, HasPrintableNames};
ghost use Rattle.lf_reports.specs.Reports.{AreListedBoxes, AreListedCells, IsCellAt, IsFaultless, IsListed, broken_among, listed_at, listed_member, name_among, with_byte_name};
ghost use Rattle.lf_reports.specs.Reports.{report_of, candidate_among, AreSomeVerdicts, HaveVerdicts, IsVerdictSet, AreVerdicts};
ghost use Rattle.lf_reports.specs.Reports.{SetsVerdict, verdict_at, violation_at, violation_of, violations_in};
ghost use Rattle.lf_rules.specs.Team.{Member, boxes_beside, boxes_from, with_box};

use lf_floorplan::{Frame, FrameQuery, Loaded, LoadedCells, Macro, Place, cell_is_sized};
use lf_rules::{
    Broken, Listed, Padding, Report, Violation, box_of, broken_frame_rule, legalizer_exists,
    overlap_of, padded_box, verdict_is_unique,
};
use lf_segments::{FrameIndex, IndexedFrame};
use lf_units::{Name, Placed, RTree, Sequence};
use std::alloc::{AllocError, Global};

/// Returns the macro of a cell.
fn macro_in<'a>(frame: &'a Frame, cell: &Listed<&[u8]>) -> &'a Macro
    requires { IsListed frame.now (with_byte_name cell.now) }
    ensures mac { result.now ≡ macro_of frame.now cell.now.mac }
    ensures sized { IsSized frame.now result.now }
{
    &frame.macros.as_slice()[cell.mac]
}

/// Appends the box of the cell, if it is placed. `own` is the cell's number. `Err` if an allocation
/// fails.
fn push_box(
    others: &mut Vec<Placed>,
    frame: &Frame,
    cell: &Listed<&[u8]>,
    own: u32,
) -> Result<(), AllocError>
    requires { IsListed frame.now (with_byte_name cell.now) }
    ensures { OnOk result (others.new.items
        ≡ others.old.items ++ with_box frame.now own cell.now.mac (listed_member (with_byte_name cell.now)).place []) }
{
    if let Some(place) = cell.place {
        others.push(Placed {
            own,
            rect: box_of(frame, macro_in(frame, cell), &place),
        })?;
    }
    Ok(())
}

/// Returns the first rule that the cell with this number breaks at the place, given the boxes of
/// the other cells. `None` if it breaks no rule.
fn broken_at(
    plan: &IndexedFrame<'_>,
    boxes: &RTree,
    own: u32,
    cell: &Listed<&[u8]>,
    place: &Place,
    padding: Padding,
) -> Option<Broken>
    requires { IsListed plan.now (with_byte_name cell.now) }
    ensures { (cells : List Member) → IsPermutation (boxes_from plan.now 0 cells) boxes.now →
        IsVerdict (candidate_of plan.now cell.now.team padding.sites (macro_of plan.now cell.now.mac) place.now
        (boxes_beside plan.now cells own)) result }
{
    let frame = plan.frame();
    let mac = macro_in(frame, cell);
    if let Some(rule) = broken_frame_rule(plan, cell.team, mac, place) {
        return Some(Broken { rule, other: None });
    }
    overlap_of(boxes.least_overlapping(&padded_box(frame, mac, place, padding), own))
}

/// What a cell is checked against: the boxes of the placed cells, and the padding.
#[derive(Clone, Copy)]
struct OtherBoxes<'a> {
    boxes: &'a RTree,
    padding: Padding,
}

/// Returns the first rule that the cell with this number breaks at its place, given the other
/// placed cells. `None` if it breaks no rule or is unplaced.
fn broken_in(
    frame: &IndexedFrame<'_>,
    near: &OtherBoxes<'_>,
    cells: &[Listed<&[u8]>],
    own: usize,
    cell: &Listed<&[u8]>,
) -> Option<Broken>
    requires boxes { AreListedBoxes frame.now cells.now near.now.boxes.now }
    requires cell { IsCellAt frame.now cells.now own cell.now }
    ensures { (l : Legalizer) → result
        ≡ broken_among l frame.now near.now.padding.sites (map with_byte_name cells.now) own (with_byte_name cell.now) }
{
    verdict_is_unique();
    let place = cell.place?;
    broken_at(frame, near.boxes, own as u32, cell, &place, near.padding)
}

/// Returns a copy of the name of the cell with this number. `None` if there is no such cell. `Err`
/// if an allocation fails.
fn name_in(alloc: Global, cells: &[Listed<&[u8]>], own: u32) -> Result<Option<Name>, AllocError>
    ensures { IfOk result (λ name. name ≡ name_among (map with_byte_name cells.now) own) }
{
    match cells.get(own as usize) {
        Some(cell) => Ok(Some(Name::from_slice(alloc, cell.name)?)),
        None => Ok(None),
    }
}

/// Returns a copy of the name of the other cell. `None` if there is no other cell. `Err` if an
/// allocation fails.
fn other_name(
    alloc: Global,
    cells: &[Listed<&[u8]>],
    other: Option<u32>,
) -> Result<Option<Name>, AllocError>
    ensures { IfOk result (λ name. name ≡ option_and_then (name_among (map with_byte_name cells.now)) other) }
{
    match other {
        Some(own) => name_in(alloc, cells, own),
        None => Ok(None),
    }
}

/// Returns the violation of a cell that breaks this rule first. `Err` if an allocation fails.
fn violation_of(
    alloc: Global,
    cells: &[Listed<&[u8]>],
    cell: &Listed<&[u8]>,
    broken: Broken,
) -> Result<Violation, AllocError>
    ensures { IfOk result
        (λ violation. violation ≡ violation_of (map with_byte_name cells.now) (with_byte_name cell.now) broken) }
{
    let other = other_name(alloc, cells, broken.other)?;
    Ok(Violation {
        cell: Name::from_slice(alloc, cell.name)?,
        rule: broken.rule,
        other,
    })
}

/// Returns a list of `count` verdicts, all of them `None`. `Err` if an allocation fails.
fn no_verdicts(alloc: Global, count: usize) -> Result<Vec<Option<Broken>>, AllocError>
    ensures count { IfOk result (λ verdicts. length verdicts.items ≡ count) }
    ensures none { IfOk result (λ verdicts. (own : ℕ) → verdict_at verdicts.items own ≡ None) }
{
    let mut verdicts = Vec::with_capacity(alloc, count)?;
    for _ in 0..count {
        verdicts.push(None)?;
    }
    Ok(verdicts)
}

/// Sets the verdict with this number, unless it is `None`.
fn put(verdicts: &mut Vec<Option<Broken>>, own: usize, verdict: Option<Broken>)
    requires { own < length verdicts.old.items }
    ensures { IsVerdictSet own verdict verdicts.old.items verdicts.new.items }
{
    match verdict {
        Some(_) => verdicts[own] = verdict,
        None => {}
    }
}

/// Sets the verdict of the cell with this number.
fn put_verdict(
    frame: &IndexedFrame<'_>,
    near: &OtherBoxes<'_>,
    cells: &[Listed<&[u8]>],
    own: usize,
    cell: &Listed<&[u8]>,
    verdicts: &mut Vec<Option<Broken>>,
)
    requires boxes { AreListedBoxes frame.now cells.now near.now.boxes.now }
    requires cell { IsCellAt frame.now cells.now own cell.now }
    requires count { length verdicts.old.items ≡ length cells.now }
    ensures count { length verdicts.new.items ≡ length cells.now }
    ensures put { (l : Legalizer)
        → AreSomeVerdicts l frame.now near.now.padding.sites (map with_byte_name cells.now) verdicts.old.items
        → SetsVerdict l frame.now near.now.padding.sites
        (map with_byte_name cells.now) own verdicts.old.items verdicts.new.items }
{
    let verdict = broken_in(frame, near, cells, own, cell);
    put(verdicts, own, verdict);
}

/// Returns the cells of the given boxes, in the boxes' order. A separate pass reads them, so that
/// the waits for memory overlap. `Err` if an allocation fails.
fn fetch<'a>(
    alloc: Global,
    cells: &[Listed<&'a [u8]>],
    boxes: &[Placed],
) -> Result<Vec<Listed<&'a [u8]>>, AllocError>
    requires { All (λ p. p.own < length cells.now) boxes.now }
    ensures { IfOk result (λ fetched. map Some (map with_byte_name fetched.items)
        ≡ map (λ p. slice_get (map with_byte_name cells.now) p.own) boxes.now) }
{
    let mut fetched = Vec::with_capacity(alloc, boxes.len())?;
    for placed in boxes {
        fetched.push(cells[placed.own as usize])?;
    }
    Ok(fetched)
}

/// Sets the verdicts of the cells of the given boxes. `Err` if an allocation fails.
fn put_verdicts(
    alloc: Global,
    frame: &IndexedFrame<'_>,
    near: &OtherBoxes<'_>,
    cells: &[Listed<&[u8]>],
    boxes: &[Placed],
    verdicts: &mut Vec<Option<Broken>>,
) -> Result<(), AllocError>
    requires listed { AreListedBoxes frame.now cells.now near.now.boxes.now }
    requires known { All (λ p. p.own < length cells.now) boxes.now }
    requires count { length verdicts.old.items ≡ length cells.now }
    ensures count { length verdicts.new.items ≡ length cells.now }
    ensures put { (l : Legalizer) (done : List Placed)
        → HaveVerdicts l frame.now near.now.padding.sites (map with_byte_name cells.now) done verdicts.old.items →
        OnOk result (HaveVerdicts l frame.now near.now.padding.sites (map with_byte_name cells.now)
        (done ++ boxes.now) verdicts.new.items) }
{
    let fetched = fetch(alloc, cells, boxes)?;
    for (number, placed) in boxes.iter().enumerate() {
        let own = placed.own as usize;
        let cell = &fetched[number];
        put_verdict(frame, near, cells, own, cell, verdicts);
    }
    Ok(())
}

/// The number of cells that are read at a time.
const FETCHED: usize = 4096;

/// Returns the verdict of each cell. Visits the cells in the order of the tree's boxes, those of
/// the placed cells, so neighboring cells follow each other. `Err` if an allocation fails.
fn verdicts_in(
    alloc: Global,
    frame: &IndexedFrame<'_>,
    near: &OtherBoxes<'_>,
    cells: &[Listed<&[u8]>],
) -> Result<Vec<Option<Broken>>, AllocError>
    requires { AreListedBoxes frame.now cells.now near.now.boxes.now }
    ensures count { IfOk result (λ verdicts. length verdicts.items ≡ length cells.now) }
    ensures each { (l : Legalizer) → IfOk result
        (λ verdicts. AreVerdicts l frame.now near.now.padding.sites (map with_byte_name cells.now) verdicts.items) }
{
    let mut verdicts = no_verdicts(alloc, cells.len())?;
    let mut rest = near.boxes.boxes();
    while !rest.is_empty() {
        let (boxes, after_it) = rest.split_at(rest.len().min(FETCHED));
        put_verdicts(alloc, frame, near, cells, boxes, &mut verdicts)?;
        rest = after_it;
    }
    Ok(verdicts)
}

/// Appends the violation of the cell with this number, if it breaks a rule. `Err` if an allocation
/// fails.
fn push_violation(
    alloc: Global,
    cells: &[Listed<&[u8]>],
    verdicts: &[Option<Broken>],
    own: usize,
    violations: &mut Vec<Violation>,
) -> Result<(), AllocError>
    requires within { own < length cells.now }
    requires count { length verdicts.now ≡ length cells.now }
    ensures { (l : Legalizer) (f : Frame) (padding : ℕ)
        → AreVerdicts l f padding (map with_byte_name cells.now) verdicts.now
        → OnOk result (violations.new.items ≡ violations.old.items ++ cons_option
        (violation_at l f padding (map with_byte_name cells.now) own) []) }
{
    let cell = &cells[own];
    match verdicts[own] {
        Some(broken) => {
            violations.push(violation_of(alloc, cells, cell, broken)?)?;
            Ok(())
        }
        None => Ok(()),
    }
}

/// Returns the violations of the listed cells, in their order. `Err` if an allocation fails.
fn violations_in(
    alloc: Global,
    cells: &[Listed<&[u8]>],
    verdicts: &[Option<Broken>],
) -> Result<Vec<Violation>, AllocError>
    requires { length verdicts.now ≡ length cells.now }
    ensures { (l : Legalizer) (f : Frame) (padding : ℕ)
        → AreVerdicts l f padding (map with_byte_name cells.now) verdicts.now
        → IfOk result (λ violations. violations.items ≡ violations_in l f padding (map with_byte_name cells.now)) }
{
    let mut violations = Vec::new(alloc);
    for own in 0..cells.len() {
        push_violation(alloc, cells, verdicts, own, &mut violations)?;
    }
    Ok(violations)
}

/// Returns the number of unplaced cells.
fn unplaced_in(cells: &[Listed<&[u8]>]) -> usize
    ensures { result ≡ count_by (λ c. is_none c.place) (map with_byte_name cells.now) }
{
    cells.iter().filter(|cell| cell.place.is_none()).count()
}

/// Returns the report of a list of cells, given their verdicts: for each cell the first rule that
/// it breaks at its place, or `None`. There are as many verdicts as cells. If each cell has a macro
/// of a frame, of whole size, and a name of a text, the report has only names of texts.
///
/// `Err` if an allocation fails.
pub fn report_from_verdicts(
    alloc: Global,
    cells: &[Listed<&[u8]>],
    verdicts: &[Option<Broken>],
) -> Result<Report, AllocError>
    requires { length verdicts.now ≡ length cells.now }
    ensures report { (l : Legalizer) (f : Frame) (padding : ℕ)
        → AreVerdicts l f padding (map with_byte_name cells.now) verdicts.now
        → IfOk result (λ report. report ≡ report_of l f padding (map with_byte_name cells.now)) }
    ensures reported { (l : Legalizer) (f : Frame) (padding : ℕ)
        → AreVerdicts l f padding (map with_byte_name cells.now) verdicts.now
        → All (λ c. IsListed f (with_byte_name c)) cells.now →
        IfOk result (λ report. All HasPrintableNames report.violations) }
{
    let violations = violations_in(alloc, cells, verdicts)?;
    Ok(Report {
        cells: cells.len(),
        unplaced: unplaced_in(cells),
        violations: Sequence::from_vec(violations),
    })
}

/// Returns the boxes of the placed cells, with the cells' numbers. `Err` if an allocation fails.
fn boxes_in(
    alloc: Global,
    frame: &Frame,
    cells: &[Listed<&[u8]>],
) -> Result<Vec<Placed>, AllocError>
    requires { AreListedCells frame.now cells.now }
    ensures { IfOk result
        (λ boxes. boxes.items ≡ boxes_from frame.now 0 (map listed_member (map with_byte_name cells.now))) }
{
    let mut boxes = Vec::with_capacity(alloc, cells.len())?;
    for (number, cell) in cells.iter().enumerate() {
        push_box(&mut boxes, frame, cell, number as u32)?;
    }
    Ok(boxes)
}

/// Returns for each cell the first rule that it breaks at its place, and for Overlap the first
/// other cell that overlaps. `None` if it breaks no rule, or is unplaced.
///
/// Overlap is between any two cells of the list: those of a team with its padding, or of a whole
/// design with no padding. The macros of the cells are the frame's, of whole size, their names are
/// names of a text, and there are at most 4,000,000 cells. A cell is compared only with nearby
/// cells. `Err` if an allocation fails.
pub fn verdicts_with_plan(
    alloc: Global,
    frame: &IndexedFrame<'_>,
    cells: &[Listed<&[u8]>],
    padding: Padding,
) -> Result<Vec<Option<Broken>>, AllocError>
    requires listed { All (λ c. IsListed frame.now (with_byte_name c)) cells.now }
    requires few { length cells.now ≤ 4000000 }
    ensures count { IfOk result (λ verdicts. length verdicts.items ≡ length cells.now) }
    ensures each { (l : Legalizer)
        → IfOk result (λ verdicts. AreVerdicts l frame.now padding.sites (map with_byte_name cells.now) verdicts.items) }
{
    let boxes = boxes_in(alloc, frame.frame(), cells)?;
    let tree = RTree::build(alloc, boxes)?;
    let near = OtherBoxes {
        boxes: &tree,
        padding,
    };
    verdicts_in(alloc, frame, &near, cells)
}

/// Returns for each cell, with no padding, the first rule that it breaks at its place, or `None`.
/// `Err` if an allocation fails.
fn verdicts_over(
    alloc: Global,
    frame: &Frame,
    cells: &[Listed<&[u8]>],
) -> Result<Vec<Option<Broken>>, AllocError>
    requires { AreListedCells frame.now cells.now }
    ensures count { IfOk result (λ verdicts. length verdicts.items ≡ length cells.now) }
    ensures each { (l : Legalizer)
        → IfOk result (λ verdicts. AreVerdicts l frame.now 0 (map with_byte_name cells.now) verdicts.items) }
{
    let ground = FrameIndex::build(alloc, frame)?;
    verdicts_with_plan(
        alloc,
        &IndexedFrame::new(frame, &ground),
        cells,
        Padding::none(),
    )
}

/// Returns the cells of a design at these places. `Err` if an allocation fails.
fn listed_cells<'a>(
    alloc: Global,
    cells: &'a LoadedCells,
    places: &[Option<Place>],
) -> Result<Vec<Listed<&'a [u8]>>, AllocError>
    requires { length places.now ≡ length cells.now }
    ensures { IfOk result (λ listed. map with_byte_name listed.items ≡ listed_at cells.now places.now) }
{
    let mut listed = Vec::with_capacity(alloc, cells.len())?;
    for own in 0..cells.len() {
        let cell = cells.get(own).unwrap();
        listed.push(Listed {
            name: cell.name,
            team: cell.team,
            mac: cell.mac,
            place: places[own],
        })?;
    }
    Ok(listed)
}

/// Returns the verdicts of a design with its movable cells at these places, one for each cell in
/// loading order. A verdict is the first rule that the cell breaks there, and for Overlap the first
/// other cell that overlaps. It is `None` if the cell breaks no rule, or is unplaced. Overlap is
/// between cells of any teams, and paddings are ignored. The design at these places is fully legal
/// iff no place is `None` and every verdict is `None`.
///
/// A cell is compared only with nearby cells. `Err` if an allocation fails.
pub fn verdicts_of_all(
    alloc: Global,
    loaded: &Loaded,
    places: &[Option<Place>],
) -> Result<Vec<Option<Broken>>, AllocError>
    requires { length places.now ≡ length loaded.now.cells }
    ensures count { IfOk result (λ verdicts. length verdicts.items ≡ length loaded.now.cells) }
    ensures each { (l : Legalizer) → IfOk result
        (λ verdicts. AreVerdicts l loaded.now.frame 0 (listed_at loaded.now.cells places.now) verdicts.items) }
    ensures legal { IfOk result (λ verdicts. IsFaultless places.now verdicts.items
        ↔ IsFullyLegal loaded.now.frame (design_cells_at loaded.now.cells places.now)) }
{
    cell_is_sized();
    legalizer_exists();
    let cells = listed_cells(alloc, &loaded.cells, places)?;
    verdicts_over(alloc, &loaded.frame, &cells)
}

/// Returns the report of a design with its movable cells at these places, one for each cell in
/// loading order. Overlap is between cells of any teams, and paddings are ignored. The report is
/// clean iff the design at these places is fully legal, and the names in it are names of a text.
///
/// A cell is compared only with nearby cells. `Err` if an allocation fails.
pub fn check_all(
    alloc: Global,
    loaded: &Loaded,
    places: &[Option<Place>],
) -> Result<Report, AllocError>
    requires { length places.now ≡ length loaded.now.cells }
    ensures report { (l : Legalizer)
        → IfOk result (λ report. report ≡ report_of l loaded.now.frame 0 (listed_at loaded.now.cells places.now)) }
    ensures legal { IfOk result (λ report. IsClean report
        ↔ IsFullyLegal loaded.now.frame (design_cells_at loaded.now.cells places.now)) }
    ensures reported { IfOk result (λ report. All HasPrintableNames report.violations) }
{
    cell_is_sized();
    legalizer_exists();
    let verdicts = verdicts_of_all(alloc, loaded, places)?;
    let cells = listed_cells(alloc, &loaded.cells, places)?;
    report_from_verdicts(alloc, &cells, &verdicts)
}
