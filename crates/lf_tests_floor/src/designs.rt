//! Designs over the built-in LEF text, and facts about the built-in design.

ghost use Rattle.std.specs.Prelude.{◌<◌, IfSome};
ghost use Rattle.lf_floorplan.specs.Boxes.{IsSized};

use lf_def::DEMO_DEF;
use lf_frame::{Frame, Limits, Loaded, LoadedCells, Macro, Place, is_sized};
use lf_orient::Orient;
use lf_placement::Placement;
use lf_reports::{Report, Violation, check_all};
use lf_rules::{Broken, Padding, Placed, box_of, first_broken};
use lf_tests_support::{design_of, with_line};
use lf_units::Rect;
use std::alloc::Global;
use std::test::Fail;

/// The placement of the design of the built-in LEF text and this DEF text.
pub fn placement_of(alloc: Global, def: &[u8]) -> Result<Placement, Fail> {
    let design = design_of(alloc, def, Limits::standard())?;
    Ok(Placement::build(alloc, design)?)
}

/// A condition on a design.
pub trait Requested {
    /// Whether the condition holds.
    fn holds(&self, alloc: Global, design: Loaded) -> Result<bool, Fail>;
}

/// Whether the condition holds for the design of the built-in LEF text and this DEF text.
pub fn holds<A: Requested>(alloc: Global, def: &[u8], requested: &A) -> Result<bool, Fail> {
    let design = design_of(alloc, def, Limits::standard())?;
    requested.holds(alloc, design)
}

/// The conditions on the built-in design, or on one with soft blockages.
#[derive(Clone, Copy)]
enum Case {
    Counts,
    SoftBlockages,
    Searches,
}

impl Requested for Case {
    fn holds(&self, alloc: Global, design: Loaded) -> Result<bool, Fail> {
        match self {
            Case::Counts => Ok(is_built_in(&design.frame) && are_built_in(&design.cells)),
            Case::SoftBlockages => Ok(has_soft_blockages(&design.frame)),
            Case::Searches => search_alike_everywhere(alloc, &design),
        }
    }
}

/// Whether the frame has the rows, fences, obstacles and macros of the built-in design.
fn is_built_in(frame: &Frame) -> bool {
    frame.rows.len() == 4
        && frame.teams.len() == 2
        && frame.obstacles.len() == 1
        && frame.soft.is_empty()
        && frame.macros.len() == 2
}

/// The line of the blockage of the built-in design, between soft ones. These are rectangles that
/// touch, overlap and have no area, and one that is PARTIAL too.
const SOFT_LINES: &[u8] =
    b"- PLACEMENT + SOFT RECT ( 400 2000 ) ( 0 0 ) RECT ( 400 0 ) ( 600 2000 ) ;
- PLACEMENT + SOFT + PARTIAL 0.5 RECT ( 0 0 ) ( 200 200 ) ;
- PLACEMENT RECT ( 4000 0 ) ( 4400 2000 ) ;
- PLACEMENT + PARTIAL 0.5 + SOFT RECT ( 1 1 ) ( 2 2 ) ;
- PLACEMENT + SOFT RECT ( 300 -5 ) ( 500 70 ) RECT ( 9 9 ) ( 9 9 ) ;";

/// The rectangles of the blockages that are soft and not PARTIAL, in the order of the text.
const SOFT_RECTS: [(i64, i64, i64, i64); 4] = [
    (0, 0, 400, 2000),
    (400, 0, 600, 2000),
    (300, -5, 500, 70),
    (9, 9, 9, 9),
];

/// Whether the rectangles are these.
fn are_rects(rects: &[Rect], wanted: &[(i64, i64, i64, i64)]) -> bool {
    if rects.len() != wanted.len() {
        return false;
    }
    for (rect, corners) in rects.iter().zip(wanted.iter()) {
        if (rect.x1, rect.y1, rect.x2, rect.y2) != *corners {
            return false;
        }
    }
    true
}

/// Whether the frame has these soft blockages, and no soft blockage is an obstacle.
fn has_soft_blockages(frame: &Frame) -> bool {
    are_rects(frame.soft.as_slice(), &SOFT_RECTS)
        && are_rects(frame.obstacles.as_slice(), &[(4000, 0, 4400, 2000)])
}

/// The team of the cell with this number.
fn team_at(cells: &LoadedCells, own: usize) -> Option<usize> {
    Some(cells.get(own)?.team)
}

/// Whether the cells are of the teams of the built-in design.
fn are_built_in(cells: &LoadedCells) -> bool {
    for (own, team) in [0, 0, 0, 1, 2].iter().enumerate() {
        if team_at(cells, own) != Some(*team) {
            return false;
        }
    }
    cells.len() == 5
}

#[test]
fn the_built_in_design(rt: HostRuntime) -> Result<(), Fail> {
    assert!(rt; holds(rt.alloc(), DEMO_DEF, &Case::Counts)?);
    Ok(())
}

#[test]
fn soft_blockages(rt: HostRuntime) -> Result<(), Fail> {
    let def = with_line(rt.alloc(), DEMO_DEF, 22, SOFT_LINES)?;
    assert!(rt; holds(rt.alloc(), &def, &Case::SoftBlockages)?);
    Ok(())
}

#[test]
fn limits(rt: HostRuntime) {
    let standard = Limits::standard();
    for (sessions, allowed) in [(0, false), (8, true), (64, true), (65, false)] {
        let limits = Limits::checked(65_535, 1_024, 4_000_000, sessions, 64, 4_000_000_000);
        assert_eq!(rt; limits.is_some(), allowed, "{sessions} sessions");
        assert_eq!(rt; limits == Some(standard), sessions == 8);
    }
}

/// The name of the cell with this number.
fn name_at(design: &Loaded, own: usize) -> Option<&[u8]> {
    Some(design.cells.get(own)?.name)
}

/// The macro of the cell with this number, if its size is whole.
fn macro_at(design: &Loaded, own: usize) -> Option<&Macro>
    ensures { IfSome result (λ m. IsSized design.now.frame m.now) }
{
    let cell = design.cells.get(own)?;
    let mac = design.frame.macros.as_slice().get(cell.mac)?;
    if is_sized(&design.frame, mac) {
        return Some(mac);
    }
    None
}

/// The box of the cell with this number at the place.
fn box_at(design: &Loaded, own: usize, place: &Option<Place>) -> Option<Rect> {
    let place = (*place)?;
    let mac = macro_at(design, own)?;
    Some(box_of(&design.frame, mac, &place))
}

/// The boxes of the placed cells, except that of the cell `own`.
fn boxes_beside(
    alloc: Global,
    design: &Loaded,
    places: &[Option<Place>; 5],
    own: usize,
) -> Result<Vec<Placed>, Fail> {
    let mut others = Vec::new(alloc);
    for (number, place) in places.iter().enumerate() {
        if number != own {
            if let Some(rect) = box_at(design, number, place) {
                others.push(Placed {
                    own: number as u32,
                    rect,
                })?;
            }
        }
    }
    Ok(others)
}

/// The first rule that the cell with this number breaks at its place, found by a test against the
/// whole frame and all other cells.
fn broken_by_all(
    alloc: Global,
    design: &Loaded,
    places: &[Option<Place>; 5],
    own: usize,
) -> Result<Option<Broken>, Fail> {
    let others = boxes_beside(alloc, design, places, own)?;
    let (Some(cell), Some(mac), Some(Some(place))) = (
        design.cells.get(own),
        macro_at(design, own),
        places.get(own),
    ) else {
        return Ok(None);
    };
    let padding = Padding::none();
    Ok(first_broken(&design.frame, cell.team, mac, place, &others, padding))
}

/// Whether the violation is that of the cell with this number.
fn is_of(design: &Loaded, own: usize, violation: &Violation) -> bool {
    name_at(design, own) == Some(violation.cell.as_bytes())
}

/// Whether the report has the broken rule of the cell with this number, or no violation of it if it
/// breaks no rule.
fn team_stats_of(design: &Loaded, report: &Report, own: usize, broken: &Option<Broken>) -> bool {
    let violations = report.violations.as_slice();
    let reported = violations.iter().find(|it| is_of(design, own, it));
    match (reported, broken) {
        (Some(violation), Some(broken)) => decides(design, violation, broken),
        (None, None) => true,
        _ => false,
    }
}

/// Whether the violation has this broken rule.
fn decides(design: &Loaded, violation: &Violation, broken: &Broken) -> bool {
    if violation.rule.number() != broken.rule.number() {
        return false;
    }
    match (&violation.other, broken.other) {
        (Some(name), Some(other)) => name_at(design, other as usize) == Some(name.as_bytes()),
        (None, None) => true,
        _ => false,
    }
}

/// Places of the five cells of the built-in design, different in each step.
fn places_at(step: u16) -> [Option<Place>; 5]
    requires { step < 30 }
{
    let along = i32::from(step) * 200;
    let row = i32::from(step % 4) * 2_000;
    [
        Some(Place::new(along, 0, Orient::N)),
        Some(Place::new(4_200 - along, row, Orient::FS)),
        Some(Place::new(along, 2_000, Orient::FS)),
        Some(Place::new(along + 200, 0, Orient::N)),
        Some(Place::new(3_000 + along, 0, Orient::S)),
    ]
}

/// Whether the report of the design at these places has the same for each cell as a test against
/// everything. True if the number of places differs from that of its cells.
fn search_alike(alloc: Global, design: &Loaded, places: &[Option<Place>; 5]) -> Result<bool, Fail> {
    if design.cells.len() != places.len() {
        return Ok(true);
    }
    let report = check_all(alloc, design, places)?;
    for own in 0..places.len() {
        let broken = broken_by_all(alloc, design, places, own)?;
        if !team_stats_of(design, &report, own, &broken) {
            return Ok(false);
        }
    }
    Ok(true)
}

/// Whether that holds for all these places of the built-in design.
fn search_alike_everywhere(alloc: Global, design: &Loaded) -> Result<bool, Fail> {
    for step in 0..30u16 {
        if !search_alike(alloc, design, &places_at(step))? {
            return Ok(false);
        }
    }
    Ok(design.cells.len() == 5)
}

#[test]
fn reports_agree_with_a_scan_of_all_cells(rt: HostRuntime) -> Result<(), Fail> {
    assert!(rt; holds(rt.alloc(), DEMO_DEF, &Case::Searches)?);
    Ok(())
}
