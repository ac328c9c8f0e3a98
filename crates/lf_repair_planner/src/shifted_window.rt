//! Finds the cells that make room for one more.

ghost use Rattle.std.specs.Prelude.{◌≡◌, ◌+◌, ◌≤◌, ◌<◌, ◌^◌, ◌+ℤ◌, IfOk, OnErr, OnOk, drop, insert, length, pos, take, vec_len};
ghost use Rattle.std.specs.List.{between};
ghost use Rattle.lf_repair_planner.specs.Packing.{AreSameCells, IsPacked, total_site_displacement, total_width};
ghost use Rattle.lf_repair_planner.specs.Windows.{IsBackStart, IsFrontEnd, IsWindow, MovesWithin};

use crate::packed_cell::{PackedCell, have_room, total_displacement};
use crate::push_apart::settle_around;
use std::alloc::AllocError;

/// A range of consecutive positions, and the sites between which its cells can move while the
/// others stay.
#[derive(Clone, Copy)]
struct Window {
    /// The position of the first cell,
    first: usize,
    /// and the position after the last one.
    last: usize,
    start: u32,
    end: u32,
}

/// The first cell that must be pushed left if a cell is inserted at position `gap` and begins at
/// site `at`.
fn first_pushed(cells: &[PackedCell], gap: usize, at: u32) -> usize
    requires { gap ≤ length cells.now }
    ensures { result ≤ gap }
{
    let mut end = at;
    let mut first = gap;
    while 0 < first {
        let cell = &cells[first - 1];
        if end < cell.width {
            return 0;
        }
        end -= cell.width;
        if cell.at <= end {
            return first;
        }
        first -= 1;
    }
    0
}

/// The position after the last cell that must be pushed right if a cell is inserted at position
/// `gap` and ends at site `end`.
fn last_pushed(cells: &[PackedCell], gap: usize, end: u32) -> usize
    requires { gap ≤ length cells.now }
    ensures from { gap ≤ result }
    ensures within { result ≤ length cells.now }
{
    let mut end = end;
    let mut last = gap;
    while last < cells.len() {
        let cell = &cells[last];
        if end <= cell.at {
            return last;
        }
        end = end.saturating_add(cell.width);
        last += 1;
    }
    last
}

/// The site where the cells in front of position `first` end.
fn front_end(cells: &[PackedCell], first: usize, room: u32) -> u32
    requires first { first ≤ length cells.now }
    requires packed { IsPacked room cells.now }
    ensures { IsFrontEnd (take first cells.now) result }
{
    if first == 0 {
        return 0;
    }
    let cell = &cells[first - 1];
    cell.at + cell.width
}

/// The site where the cells from position `last` on begin, or the end of the span.
fn back_start(cells: &[PackedCell], last: usize, room: u32) -> u32
    requires last { last ≤ length cells.now }
    requires packed { IsPacked room cells.now }
    ensures { IsBackStart room (drop last cells.now) result }
{
    if last == cells.len() {
        return room;
    }
    cells[last].at
}

/// The cells that make room for a cell inserted at position `gap`. These are the ones that must be
/// pushed, if they have room; otherwise all cells.
fn window_at(cells: &[PackedCell], gap: usize, cell: &PackedCell, room: u32) -> Window
    requires gap { gap ≤ length cells.now }
    requires packed { IsPacked room cells.now }
    requires fits { total_width cells.now + cell.now.width ≤ room }
    ensures first { result.first ≤ gap }
    ensures last { gap ≤ result.last }
    ensures window { IsWindow room cells.now cell.now.width result }
{
    let first = first_pushed(cells, gap, cell.at);
    let last = last_pushed(cells, gap, cell.at.saturating_add(cell.width));
    let start = front_end(cells, first, room);
    let end = back_start(cells, last, room);
    let free = start as u64 + cell.width as u64;
    if have_room(&cells[first..last], free, end as u64) {
        return Window {
            first,
            last,
            start,
            end,
        };
    }
    Window {
        first: 0,
        last: cells.len(),
        start: 0,
        end: room,
    }
}

/// The window after one more cell is inserted in it.
fn with_one_more(window: &Window) -> Window
    requires { window.now.last < 2 ^ 63 }
    ensures { result ≡ record {
      first = window.now.first;
      last = window.now.last + 1;
      start = window.now.start;
      end = window.now.end;
    } }
{
    Window {
        last: window.last + 1,
        ..*window
    }
}

/// The second number minus the first.
fn growth(before: u64, after: u64) -> i64
    requires before { before < 2 ^ 63 }
    requires after { after < 2 ^ 63 }
    ensures { pos after ≡ (pos before +ℤ result) }
{
    after as i64 - before as i64
}

/// Moves the cells of a window apart between its sites. Those in front of position `own` make room
/// for its cell first.
fn move_cells(cells: &mut [PackedCell], own: usize, window: &Window)
    requires first { window.now.first ≤ own }
    requires own { own < window.now.last }
    requires last { window.now.last ≤ length cells.old }
    requires fits { window.now.start
        + total_width (between window.now.first window.now.last cells.old) ≤ window.now.end }
    ensures { MovesWithin window.now cells.old cells.new }
{
    settle_around(
        &mut cells[window.first..window.last],
        own - window.first,
        window.start,
        window.end,
    );
}

/// Moves the cells of a window as `move_cells` does, in a vector.
fn move_list(cells: &mut Vec<PackedCell>, own: usize, window: &Window)
    requires first { window.now.first ≤ own }
    requires own { own < window.now.last }
    requires last { window.now.last ≤ vec_len cells.old }
    requires fits { window.now.start
        + total_width (between window.now.first window.now.last cells.old.items) ≤ window.now.end }
    ensures moved { MovesWithin window.now cells.old.items cells.new.items }
    ensures len { vec_len cells.new ≡ vec_len cells.old }
{
    move_cells(cells.as_mut_slice(), own, window);
}

/// Inserts a cell at position `gap`. A full list grows by a quarter, since there are many of them.
/// `Err` if an allocation fails; then nothing is changed.
fn insert_at(cells: &mut Vec<PackedCell>, gap: usize, cell: PackedCell) -> Result<(), AllocError>
    requires gap { gap ≤ vec_len cells.old }
    ensures items { OnOk result (cells.new.items ≡ insert cells.old.items gap cell) }
    ensures len { OnOk result (vec_len cells.new ≡ vec_len cells.old + 1) }
    ensures failed { OnErr result (cells.new.items ≡ cells.old.items) }
{
    if cells.len() == cells.capacity() {
        cells.reserve_exact(cells.len() / 4 + 2)?;
    }
    cells.insert(gap, cell)?;
    Ok(())
}

/// Inserts a cell at position `gap`, at its own site if that is free, otherwise near it. Cells that
/// overlap it make room. Returns by how much the total displacement of the cells grows. `Err` if an
/// allocation fails; then nothing is changed.
pub(crate) fn insert_cell(
    cells: &mut Vec<PackedCell>,
    gap: usize,
    cell: PackedCell,
    room: u32,
) -> Result<i64, AllocError>
    requires gap { gap ≤ vec_len cells.old }
    requires few { vec_len cells.old < 2 ^ 30 }
    requires packed { IsPacked room cells.old.items }
    requires fits { total_width cells.old.items + cell.width ≤ room }
    ensures packed { OnOk result (IsPacked room cells.new.items) }
    ensures same { OnOk result (AreSameCells (insert cells.old.items gap cell) cells.new.items) }
    ensures free { OnOk result (IsPacked room (insert cells.old.items gap cell)
        → cells.new.items ≡ insert cells.old.items gap cell) }
    ensures cost { IfOk result (λ cost. pos (total_site_displacement cells.new.items)
        ≡ (pos (total_site_displacement cells.old.items) +ℤ cost)) }
    ensures failed { OnErr result (cells.new.items ≡ cells.old.items) }
{
    let window = window_at(cells.as_slice(), gap, &cell, room);
    let before = total_displacement(&cells[window.first..window.last]);
    insert_at(cells, gap, cell)?;
    let grown = with_one_more(&window);
    move_list(cells, gap, &grown);
    let after = total_displacement(&cells[grown.first..grown.last]);
    Ok(growth(before, after))
}
