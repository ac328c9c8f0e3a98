//! Orders the moves of cells so that the new area of each cell is free when it moves.
//!
//! A move of a placed cell is one edit. Cells that block it at their old places move first. In a
//! ring, in which each cell waits for the next one, one cell is unplaced first.

use crate::edit::{CellEdit, Edit};
use crate::free_space::coordinate;
use lf_floorplan::{Place, same_place};
use std::alloc::{AllocError, Global};

/// A move of the team's cell at position `own`, which covers at most one row's height.
#[derive(Clone, Copy)]
pub struct CellMove {
    pub own: u32,
    pub width: u32,
    pub from: Option<Place>,
    pub to: Place,
}

/// The new place of the cell of a move.
#[derive(Clone, Copy)]
struct NewPlace {
    own: u32,
    width: u32,
    to: Place,
}

/// How far a move is.
#[derive(Clone, Copy, PartialEq, Eq)]
enum Progress {
    /// Its cell is at its old place.
    Open,
    /// Its cell is at its old place and waits for others to move.
    Waiting,
    /// Its cell is unplaced and waits for others to move.
    Unplaced,
    /// Its cell is at its new place.
    Done,
}

/// The x at which the cell of a move begins in a band, at its old place.
#[derive(Clone, Copy, PartialEq, Eq, PartialOrd, Ord)]
struct Mark {
    band: i32,
    left: i32,
    number: u32,
}

/// The range of x that a cell covers in a band, at its new place.
#[derive(Clone, Copy)]
struct Range {
    band: i32,
    left: i64,
    right: i64,
    number: u32,
}

/// An edit of the cell of a move: it is unplaced, or placed at its new place.
#[derive(Clone, Copy)]
struct Step {
    number: u32,
    unplaces: bool,
}

/// Bands of one row's height, from `origin` upward and downward. Cells are at least `pad` apart.
#[derive(Clone, Copy)]
pub struct Bands {
    pub origin: i64,
    pub height: i64,
    pub pad: i64,
}

/// The new places of the cells that move, and the marks of their old places.
#[derive(Drop)]
pub struct MoveList {
    bands: Bands,
    places: Vec<NewPlace>,
    marks: Vec<Mark>,
}

/// The new places of the cells that move, and the marks of their old places in order. `widest` is
/// the greatest width of the cells.
#[derive(Clone, Copy)]
struct Moves<'a> {
    places: &'a [NewPlace],
    marks: &'a [Mark],
    bands: Bands,
    widest: i64,
}

/// A move that waits: the band in which its new place is searched for cells that block it, and the
/// position of the mark at which the search goes on.
#[derive(Clone, Copy)]
struct Visit {
    number: u32,
    band: i32,
    next: u32,
}

/// The progress of each move, those that wait for one another, and the steps so far.
#[derive(Drop)]
struct Ordering {
    progress: Vec<Progress>,
    path: Vec<Visit>,
    steps: Vec<Step>,
}

/// The band that contains a y.
fn band_of(bands: &Bands, y: i64) -> i64 {
    y.saturating_sub(bands.origin)
        .div_euclid(bands.height.max(1))
}

/// The range of x that the cell of a move covers at its new place, in a band.
fn range_of(place: &NewPlace, band: i32, number: u32) -> Range {
    let left = place.to.x as i64;
    Range {
        band,
        left,
        right: left.saturating_add(place.width as i64),
        number,
    }
}

/// The band that contains the lower edge of a cell at a place.
fn first_band(bands: &Bands, place: &Place) -> i32 {
    coordinate(band_of(bands, place.y as i64))
}

/// The band that contains the upper edge of a cell at a place.
fn last_band(bands: &Bands, place: &Place) -> i32 {
    let top = (place.y as i64).saturating_add(bands.height.saturating_sub(1));
    coordinate(band_of(bands, top))
}

impl MoveList {
    /// A list with room for `count` moves.
    pub fn with_capacity(
        alloc: Global,
        bands: Bands,
        count: usize,
    ) -> Result<MoveList, AllocError> {
        Ok(MoveList {
            bands,
            places: Vec::with_capacity(alloc, count)?,
            marks: Vec::with_capacity(alloc, count)?,
        })
    }

    /// Appends a move, unless its cell is at its new place already.
    pub fn push(&mut self, one: &CellMove) -> Result<(), AllocError> {
        if same_place(one.from, Some(one.to)) {
            return Ok(());
        }
        if let Some(place) = &one.from {
            let number = number_of(self.places.len());
            push_marks(&self.bands, place, number, &mut self.marks)?;
        }
        self.places.push(NewPlace {
            own: one.own,
            width: one.width,
            to: one.to,
        })?;
        Ok(())
    }
}

/// Appends the marks of the cell of a move at its old place.
fn push_marks(
    bands: &Bands,
    place: &Place,
    number: u32,
    marks: &mut Vec<Mark>,
) -> Result<(), AllocError> {
    let (first, last, left) = (first_band(bands, place), last_band(bands, place), place.x);
    marks.push(Mark {
        band: first,
        left,
        number,
    })?;
    if first != last {
        marks.push(Mark {
            band: last,
            left,
            number,
        })?;
    }
    Ok(())
}

/// The greatest width of the cells.
fn widest_of(places: &[NewPlace]) -> i64 {
    let mut widest = 0;
    for place in places {
        widest = widest.max(place.width as i64);
    }
    widest
}

/// The progress of the move with this number.
fn progress_of(progress: &[Progress], number: u32) -> Progress {
    match progress.get(number as usize) {
        Some(progress) => *progress,
        None => Progress::Done,
    }
}

/// Sets the progress of the move with this number.
fn set_progress(progress: &mut [Progress], number: u32, next: Progress) {
    if let Some(progress) = progress.get_mut(number as usize) {
        *progress = next;
    }
}

/// Whether the cell of a mark, at its old place, is less than `pad` from a range of its band.
fn is_close(given: &Moves<'_>, mark: &Mark, range: &Range) -> bool {
    let Some(place) = given.places.get(mark.number as usize) else {
        return false;
    };
    let (left, pad) = (mark.left as i64, given.bands.pad);
    let right = left.saturating_add(place.width as i64);
    left < range.right.saturating_add(pad) && range.left < right.saturating_add(pad)
}

/// Whether the cell of the move with this number is at its old place.
fn is_at_old_place(progress: &[Progress], number: u32) -> bool {
    match progress_of(progress, number) {
        Progress::Open => true,
        Progress::Waiting => true,
        Progress::Unplaced => false,
        Progress::Done => false,
    }
}

/// The position of the first mark, from `next` on, whose cell at its old place blocks this range.
fn first_blocker(
    given: &Moves<'_>,
    progress: &[Progress],
    range: &Range,
    next: u32,
) -> Option<usize> {
    let high = range.right.saturating_add(given.bands.pad);
    let from = next as usize;
    for (away, mark) in given.marks.get(from..)?.iter().enumerate() {
        if mark.band != range.band || high <= mark.left as i64 {
            return None;
        }
        if mark.number == range.number || !is_close(given, mark, range) {
            continue;
        }
        if is_at_old_place(progress, mark.number) {
            return Some(from.saturating_add(away));
        }
    }
    None
}

/// The number limited to 32 bits.
fn number_of(position: usize) -> u32 {
    position.min(4_294_967_295) as u32
}

/// The start of the search for cells that block a move in a band.
fn visit_of(given: &Moves<'_>, place: &NewPlace, band: i32, number: u32) -> Visit {
    let left = (place.to.x as i64).saturating_sub(given.bands.pad);
    let low = left.saturating_sub(given.widest);
    let next = given.marks.partition_point(|mark| mark.band < band
        || (mark.band == band && (mark.left as i64) < low));
    Visit {
        number,
        band,
        next: number_of(next),
    }
}

/// Lets the move with this number wait.
fn push_visit(given: &Moves<'_>, order: &mut Ordering, number: u32) -> Result<(), AllocError> {
    let Some(place) = given.places.get(number as usize) else {
        return Ok(());
    };
    set_progress(order.progress.as_mut_slice(), number, Progress::Waiting);
    let band = first_band(&given.bands, &place.to);
    order.path.push(visit_of(given, place, band, number))?;
    Ok(())
}

/// Goes on with a move that no cell blocks in the band of this visit: with its next band, or by
/// making it.
fn end_band(
    given: &Moves<'_>,
    order: &mut Ordering,
    place: &NewPlace,
    visit: &Visit,
) -> Result<(), AllocError> {
    let number = visit.number;
    if visit.band < last_band(&given.bands, &place.to) {
        let band = visit.band.saturating_add(1);
        order.path.push(visit_of(given, place, band, number))?;
        return Ok(());
    }
    set_progress(order.progress.as_mut_slice(), number, Progress::Done);
    order.steps.push(Step {
        number,
        unplaces: false,
    })?;
    Ok(())
}

/// Lets the move of a cell that blocks another one wait too. If it waits already, its cell is
/// unplaced.
fn free_blocker(given: &Moves<'_>, order: &mut Ordering, number: u32) -> Result<(), AllocError> {
    if progress_of(order.progress.as_slice(), number) == Progress::Open {
        return push_visit(given, order, number);
    }
    set_progress(order.progress.as_mut_slice(), number, Progress::Unplaced);
    order.steps.push(Step {
        number,
        unplaces: true,
    })?;
    Ok(())
}

/// Makes the move of this visit, which was the last one that waits, if no cell blocks it. Otherwise
/// it waits on, and the first such cell moves or is unplaced.
fn take_step(given: &Moves<'_>, order: &mut Ordering, visit: &Visit) -> Result<(), AllocError> {
    let Some(place) = given.places.get(visit.number as usize) else {
        return Ok(());
    };
    let range = range_of(place, visit.band, visit.number);
    let Some(next) = first_blocker(given, order.progress.as_slice(), &range, visit.next) else {
        return end_band(given, order, place, visit);
    };
    order.path.push(Visit {
        next: number_of(next),
        ..*visit
    })?;
    match given.marks.get(next) {
        Some(mark) => free_blocker(given, order, mark.number),
        None => Ok(()),
    }
}

/// Makes a move, and all others that it waits for.
fn make_move(given: &Moves<'_>, order: &mut Ordering, number: u32) -> Result<(), AllocError> {
    if progress_of(order.progress.as_slice(), number) != Progress::Open {
        return Ok(());
    }
    push_visit(given, order, number)?;
    for _ in 0..given.places.len().saturating_mul(4) {
        let Some(visit) = order.path.pop() else {
            return Ok(());
        };
        take_step(given, order, &visit)?;
    }
    Ok(())
}

/// The steps that make the moves, in their order.
fn ordered_steps(
    alloc: Global,
    places: &[NewPlace],
    mut marks: Vec<Mark>,
    bands: Bands,
) -> Result<Vec<Step>, AllocError> {
    marks.sort_unstable();
    let given = Moves {
        places,
        marks: marks.as_slice(),
        bands,
        widest: widest_of(places),
    };
    let mut order = Ordering {
        progress: vec![in alloc; Progress::Open; places.len()]?,
        path: Vec::new(alloc),
        steps: Vec::with_capacity(alloc, places.len().saturating_add(places.len() / 2))?,
    };
    for number in 0..places.len() {
        make_move(&given, &mut order, number_of(number))?;
    }
    Ok(order.steps)
}

/// The edit of a step of the move to this place.
fn edit_of(place: &NewPlace, step: &Step) -> CellEdit {
    CellEdit {
        own: place.own,
        step: if step.unplaces {
            Edit::Unplace
        } else {
            Edit::Place(place.to)
        },
    }
}

/// These edits, followed by those that make the moves.
pub fn with_moves(
    alloc: Global,
    before: &[CellEdit],
    list: MoveList,
) -> Result<Vec<CellEdit>, AllocError> {
    let MoveList {
        bands,
        places,
        marks,
    } = list;
    let steps = ordered_steps(alloc, places.as_slice(), marks, bands)?;
    let count = before.len().saturating_add(steps.len());
    let mut cell_edits = Vec::with_capacity(alloc, count)?;
    cell_edits.extend_from_slice(before)?;
    for step in &steps {
        if let Some(place) = places.get(step.number as usize) {
            cell_edits.push(edit_of(place, step))?;
        }
    }
    Ok(cell_edits)
}
