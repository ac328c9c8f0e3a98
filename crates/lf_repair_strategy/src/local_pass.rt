//! Plans local passes, which free legal cells to find places for cells without one and to shorten
//! long displacements.

use crate::edit::{CellEdit, push_move};
use crate::free_space::coordinate;
use crate::pass::{MovePolicy, Pass, RepairInput, copied, stays_if_legal, working_places};
use crate::rounds::width_of;
use crate::search::RepairSearch;
use lf_cells::CellId;
use lf_floorplan::{Frame, Place, same_place};
use lf_orient::Orient;
use lf_placement::Placement;
use lf_segments::Segment;
use lf_units::Point;
use std::alloc::{AllocError, Global};

/// A cell is far if its displacement from its target is more than this number of row heights.
const FAR: i64 = 8;

/// The cells that a local pass may move.
#[derive(Clone, Copy)]
pub enum Neighborhood {
    /// The cells of windows around those at fault, as `plan_window_pass` plans them.
    Windows,
    /// Cells in the tile of a problem cell's target or in an adjacent tile. A tile is `rows` ×
    /// `sites`.
    Near { rows: i64, sites: i64 },
    /// All cells, if a cell has no place.
    All,
    /// All cells, under `MoveAll` if a cell was not legal. The total displacement decides whether this
    /// improves anything.
    Whole,
}

/// A local pass, with the places of all cells at its start. It has also the numbers of cells
/// without a place and of problem cells at that time, and the total displacement.
#[derive(Drop)]
pub struct LocalPass {
    pub pass: Pass,
    before: Vec<Option<Place>>,
    left: usize,
    needy: usize,
    total: i64,
    /// Whether the pass improves something only if the total displacement is less after it.
    shortens: bool,
}

/// The problem cells, which have no place or are far from their targets. `left` is the number of
/// those without a place, `widest` the width of the widest, and `points` are the targets.
#[derive(Drop)]
struct ProblemCells {
    left: usize,
    widest: i64,
    points: Vec<Point>,
}

/// A box around the segments of a team.
#[derive(Clone, Copy)]
struct Bounds {
    low: Point,
    high: Point,
}

/// The position of a tile in the grid of tiles of one size.
#[derive(Clone, Copy, PartialEq, Eq, PartialOrd, Ord)]
struct Tile {
    y: i64,
    x: i64,
}

/// A box around this one and the segment of a row at y.
fn with_segment(bounds: &Bounds, segment: &Segment, y: i64) -> Bounds {
    Bounds {
        low: Point {
            x: bounds.low.x.min(segment.span.lo),
            y: bounds.low.y.min(y),
        },
        high: Point {
            x: bounds.high.x.max(segment.span.hi),
            y: bounds.high.y.max(y),
        },
    }
}

/// A box around the segments of the team with this number.
fn bounds_of(placement: &Placement, number: usize) -> Bounds {
    let mut bounds = Bounds {
        low: Point {
            x: i64::MAX,
            y: i64::MAX,
        },
        high: Point {
            x: i64::MIN,
            y: i64::MIN,
        },
    };
    let rows = placement.frame().rows.as_slice();
    let plan = placement.indexed_frame();
    for segment in plan.index().segments().as_slice() {
        if segment.team == number {
            if let Some(row) = rows.get(segment.row) {
                bounds = with_segment(&bounds, segment, row.y as i64);
            }
        }
    }
    bounds
}

/// The target of a cell: its original place, moved into the box around its team's segments, or that
/// of the search if it had no place.
fn point_of(
    frame: &Frame,
    id: CellId,
    wanted_place: Option<Place>,
    bounds: &Bounds,
    search: &RepairSearch<'_>,
) -> Point {
    match wanted_place {
        Some(wanted_place) => Point {
            x: (wanted_place.x as i64).max(bounds.low.x).min(bounds.high.x),
            y: (wanted_place.y as i64).max(bounds.low.y).min(bounds.high.y),
        },
        None => search.target_without_place(frame, id),
    }
}

/// The distance of a place from a point: |dx| + |dy|.
fn displacement(place: &Place, point: &Point) -> i64 {
    let dx = (place.x as i64).saturating_sub(point.x).saturating_abs();
    let dy = (place.y as i64).saturating_sub(point.y).saturating_abs();
    dx.saturating_add(dy)
}

/// Adds a cell with this original place to the problem cells, if it has no place now or is far from
/// its target.
fn note_cell(
    placement: &Placement,
    id: CellId,
    wanted_place: Option<Place>,
    bounds: &Bounds,
    search: &RepairSearch<'_>,
    need: &mut ProblemCells,
) -> Result<(), AllocError> {
    let frame = placement.frame();
    let point = point_of(frame, id, wanted_place, bounds, search);
    match placement.cells().working(id) {
        Some(place) => {
            let far = frame.pitch.y.saturating_mul(FAR);
            if wanted_place.is_none() || displacement(&place, &point) <= far {
                return Ok(());
            }
        }
        None => need.left = need.left.saturating_add(1),
    }
    need.widest = need.widest.max(width_of(placement, id));
    need.points.push(point)?;
    Ok(())
}

/// The problem cells of the team with this number, given its first pass. Cells that no place can
/// hold are none.
fn problem_cells(
    alloc: Global,
    placement: &Placement,
    number: usize,
    first: &Pass,
    bounds: &Bounds,
    search: &RepairSearch<'_>,
) -> Result<ProblemCells, AllocError> {
    let mut need = ProblemCells {
        left: 0,
        widest: 0,
        points: Vec::new(alloc),
    };
    for (id, wanted_place) in placement
        .cells()
        .cells_of(number)
        .iter()
        .zip(first.targets.iter())
    {
        if !first.is_impossible(id.own as usize) {
            note_cell(placement, *id, *wanted_place, bounds, search, &mut need)?;
        }
    }
    Ok(need)
}

/// The tile of this size that contains a point.
fn tile_of(point: &Point, size: &Point) -> Tile {
    let high = size.y.max(1);
    let wide = size.x.max(1);
    Tile {
        y: point.y.div_euclid(high),
        x: point.x.div_euclid(wide),
    }
}

/// Whether the two tiles are the same.
fn is_one_tile(a: &Tile, b: &Tile) -> bool {
    a.y == b.y && a.x == b.x
}

/// Whether the tile is the last one that was added.
fn is_last(last: Option<Tile>, tile: &Tile) -> bool {
    match last {
        Some(last) => is_one_tile(&last, tile),
        None => false,
    }
}

/// Appends a tile and its adjacent tiles.
fn push_touched(tile: &Tile, tiles: &mut Vec<Tile>) -> Result<(), AllocError> {
    for up in [-1i64, 0, 1] {
        for right in [-1i64, 0, 1] {
            tiles.push(Tile {
                y: tile.y.saturating_add(up),
                x: tile.x.saturating_add(right),
            })?;
        }
    }
    Ok(())
}

/// The tiles of this size that contain the points, and their adjacent tiles, in order.
fn tiles_of(alloc: Global, points: &[Point], size: &Point) -> Result<Vec<Tile>, AllocError> {
    let mut own = Vec::with_capacity(alloc, points.len())?;
    for point in points {
        own.push(tile_of(point, size))?;
    }
    own.sort_unstable();
    let mut tiles = Vec::new(alloc);
    let mut last = None;
    for tile in &own {
        if !is_last(last, tile) {
            push_touched(tile, &mut tiles)?;
        }
        last = Some(*tile);
    }
    tiles.sort_unstable();
    Ok(tiles)
}

/// Whether the tile is in this ordered list.
fn is_among(tiles: &[Tile], tile: &Tile) -> bool {
    let (y, x) = (tile.y, tile.x);
    let at = tiles.partition_point(|one| one.y < y || (one.y == y && one.x < x));
    match tiles.get(at) {
        Some(one) => is_one_tile(one, tile),
        None => false,
    }
}

/// The region near problem cells: tiles of one size, in order. The region is everything if there
/// are no tiles.
#[derive(Drop)]
struct NearRegion {
    tiles: Option<Vec<Tile>>,
    size: Point,
}

/// The region that a local pass with this reach covers.
fn near_of(
    alloc: Global,
    frame: &Frame,
    need: &ProblemCells,
    reach: &Neighborhood,
) -> Result<NearRegion, AllocError> {
    let Neighborhood::Near { rows, sites } = reach else {
        return Ok(NearRegion {
            tiles: None,
            size: Point { x: 1, y: 1 },
        });
    };
    let size = Point {
        x: frame.pitch.x.saturating_mul(*sites).max(need.widest),
        y: frame.pitch.y.saturating_mul(*rows),
    };
    Ok(NearRegion {
        tiles: Some(tiles_of(alloc, need.points.as_slice(), &size)?),
        size,
    })
}

/// Whether the place of a cell or its target is in the region.
fn is_near(place: &Place, wanted: &Point, near: &NearRegion) -> bool {
    let Some(tiles) = &near.tiles else {
        return true;
    };
    let corner = Point {
        x: place.x as i64,
        y: place.y as i64,
    };
    is_among(tiles.as_slice(), &tile_of(&corner, &near.size))
        || is_among(tiles.as_slice(), &tile_of(wanted, &near.size))
}

/// Whether a local pass locks the cell: it has a place, and it was legal and covers several rows or
/// is on a soft blockage, or it is not near.
fn is_locked(
    placement: &Placement,
    id: CellId,
    legal: bool,
    wanted: &Point,
    near: &NearRegion,
) -> bool {
    let Some(place) = placement.cells().working(id) else {
        return false;
    };
    (legal && stays_if_legal(placement, id)) || !is_near(&place, wanted, near)
}

/// Whether each cell of the team with this number is locked.
fn locked_cells(
    alloc: Global,
    placement: &Placement,
    number: usize,
    input: &RepairInput,
    bounds: &Bounds,
    near: &NearRegion,
    search: &RepairSearch<'_>,
) -> Result<Vec<bool>, AllocError> {
    let frame = placement.frame();
    let mut locked = Vec::with_capacity(alloc, input.legal.len())?;
    for (id, (wanted_place, legal)) in placement
        .cells()
        .cells_of(number)
        .iter()
        .zip(input.pass.targets.iter().zip(input.legal.iter()))
    {
        let wanted = point_of(frame, *id, *wanted_place, bounds, search);
        locked.push(is_locked(placement, *id, *legal, &wanted, near))?;
    }
    Ok(locked)
}

/// The target place of a cell in a local pass: its original place if it had one, otherwise its
/// present place, otherwise that of the search.
fn target_place(
    placement: &Placement,
    id: CellId,
    wanted_place: Option<Place>,
    search: &RepairSearch<'_>,
) -> Place {
    if let Some(wanted_place) = wanted_place {
        return wanted_place;
    }
    if let Some(place) = placement.cells().working(id) {
        return place;
    }
    let point = search.target_without_place(placement.frame(), id);
    Place::new(coordinate(point.x), coordinate(point.y), Orient::N)
}

/// The target places of the cells of the team with this number.
pub(crate) fn target_places(
    alloc: Global,
    placement: &Placement,
    number: usize,
    targets: &[Option<Place>],
    search: &RepairSearch<'_>,
) -> Result<Vec<Option<Place>>, AllocError> {
    let mut wanted = Vec::with_capacity(alloc, targets.len())?;
    for (id, wanted_place) in placement
        .cells()
        .cells_of(number)
        .iter()
        .zip(targets.iter())
    {
        wanted.push(Some(target_place(placement, *id, *wanted_place, search)))?;
    }
    Ok(wanted)
}

/// Whether a local pass with this reach has nothing to improve.
fn has_no_work(input: &RepairInput, need: &ProblemCells, reach: &Neighborhood) -> bool {
    match reach {
        Neighborhood::Windows => true,
        Neighborhood::Near { .. } => need.points.len() == 0,
        Neighborhood::All => need.left == 0,
        Neighborhood::Whole => {
            !matches!(input.policy, MovePolicy::MoveAll) || !input.legal.contains(&false)
        }
    }
}

/// The sum of the displacements of all cells that had a place and have one.
fn total_displacement(placement: &Placement, number: usize, targets: &[Option<Place>]) -> i64 {
    let mut total = 0i64;
    let ids = placement.cells().cells_of(number);
    for (id, target) in ids.iter().zip(targets.iter()) {
        if let (Some(place), Some(target)) = (placement.cells().working(*id), *target) {
            let point = Point {
                x: target.x as i64,
                y: target.y as i64,
            };
            total = total.saturating_add(displacement(&place, &point));
        }
    }
    total
}

/// Whether a cell that was legal is not locked.
fn frees_legal(legal: &[bool], locked: &[bool]) -> bool {
    for (legal, held) in legal.iter().zip(locked.iter()) {
        if *legal && !*held {
            return true;
        }
    }
    false
}

/// The local pass with these locked cells and targets, which improves something if the total
/// displacement is less after it. `Err` if an allocation fails.
pub(crate) fn new_local_pass(
    alloc: Global,
    placement: &Placement,
    number: usize,
    input: &RepairInput,
    pass: Pass,
    search: &RepairSearch<'_>,
) -> Result<LocalPass, AllocError> {
    let bounds = bounds_of(placement, number);
    let need = problem_cells(alloc, placement, number, &input.pass, &bounds, search)?;
    let total = total_displacement(placement, number, input.pass.targets.as_slice());
    Ok(LocalPass {
        pass,
        before: working_places(alloc, placement, number)?,
        left: need.left,
        needy: need.points.len(),
        total,
        shortens: true,
    })
}

/// The local pass with this reach for the team with this number. `None` if it has nothing to
/// improve, or could move no legal cell, and for windows, which `plan_window_pass` plans. `Err` if an allocation fails.
pub fn plan_local_pass(
    alloc: Global,
    placement: &Placement,
    number: usize,
    input: &RepairInput,
    reach: &Neighborhood,
    search: &RepairSearch<'_>,
) -> Result<Option<LocalPass>, AllocError> {
    let bounds = bounds_of(placement, number);
    let need = problem_cells(alloc, placement, number, &input.pass, &bounds, search)?;
    if has_no_work(input, &need, reach) {
        return Ok(None);
    }
    let near = near_of(alloc, placement.frame(), &need, reach)?;
    let locked = locked_cells(alloc, placement, number, input, &bounds, &near, search)?;
    if !frees_legal(input.legal.as_slice(), locked.as_slice()) {
        return Ok(None);
    }
    let targets = target_places(
        alloc,
        placement,
        number,
        input.pass.targets.as_slice(),
        search,
    )?;
    let before = working_places(alloc, placement, number)?;
    Ok(Some(LocalPass {
        pass: Pass {
            locked,
            impossible: copied(alloc, input.pass.impossible.as_slice())?,
            targets,
        },
        before,
        left: need.left,
        needy: need.points.len(),
        total: total_displacement(placement, number, input.pass.targets.as_slice()),
        shortens: matches!(reach, Neighborhood::Whole),
    }))
}

/// Whether the team is better off after a local pass: fewer cells are without a place, or as many and
/// the total displacement is less. It may also be the same, if there are fewer problem cells and the
/// pass need not shorten it.
fn is_better(need: &ProblemCells, total: i64, local_plan: &LocalPass) -> bool {
    if need.left != local_plan.left {
        return need.left < local_plan.left;
    }
    if local_plan.shortens {
        return total < local_plan.total;
    }
    total <= local_plan.total && need.points.len() < local_plan.needy
}

/// Whether a local pass has improved something. `Err` if an allocation fails.
pub fn has_improved(
    alloc: Global,
    placement: &Placement,
    number: usize,
    input: &RepairInput,
    local_plan: &LocalPass,
    search: &RepairSearch<'_>,
) -> Result<bool, AllocError> {
    let bounds = bounds_of(placement, number);
    let need = problem_cells(alloc, placement, number, &input.pass, &bounds, search)?;
    let total = total_displacement(placement, number, input.pass.targets.as_slice());
    Ok(is_better(&need, total, local_plan))
}

/// The edits that take a local pass back. All cells that are elsewhere than at its start are unplaced,
/// and then placed where they were. `Err` if an allocation fails.
pub fn edits_back(
    alloc: Global,
    placement: &Placement,
    number: usize,
    local_plan: &LocalPass,
) -> Result<Vec<CellEdit>, AllocError> {
    let mut cell_edits = Vec::new(alloc);
    let mut places = Vec::new(alloc);
    for (id, before) in placement
        .cells()
        .cells_of(number)
        .iter()
        .zip(local_plan.before.iter())
    {
        let now = placement.cells().working(*id);
        if same_place(now, *before) {
            continue;
        }
        push_move(id.own, now, *before, &mut cell_edits, &mut places)?;
    }
    cell_edits.extend_from_slice(places.as_slice())?;
    Ok(cell_edits)
}
