//! Moves overlapping cells apart.

ghost use Rattle.std.specs.Prelude.{◌≡◌, ◌+◌, ◌≤◌, ◌<◌, ℕ, length};
ghost use Rattle.lf_repair_planner.specs.Packing.{AreSameCells, IsPackedWithin, total_width};

use crate::packed_cell::{PackedCell, width_of};

/// Moves the cells apart between the two sites, in their order. One pass from left to right keeps
/// each as near to its site as it can. Cells that are packed already do not move.
fn push_apart(cells: &mut [PackedCell], start: u32, end: u32)
    requires fits { start + total_width cells.old ≤ end }
    ensures packed { IsPackedWithin start end cells.new }
    ensures same { AreSameCells cells.old cells.new }
    ensures kept { IsPackedWithin start end cells.old → cells.new ≡ cells.old }
{
    let mut rest = width_of(cells);
    let mut free = start;
    for cell in cells.iter_mut() {
        let last = end - rest;
        cell.at = cell.at.min(last).max(free);
        free = cell.at + cell.width;
        rest -= cell.width;
    }
}

/// Pushes cells to the left that overlap the one to their right, the nearer ones first. It stops at
/// the first cell that does not overlap or has no room on its left. The cell at `from` does not
/// move.
fn push_left(cells: &mut [PackedCell], from: usize)
    requires { from < length cells.old }
    ensures same { AreSameCells cells.old cells.new }
    ensures kept { (start end : ℕ) → IsPackedWithin start end cells.old → cells.new ≡ cells.old }
{
    let mut end = cells[from].at;
    let mut own = from;
    while 0 < own {
        own -= 1;
        let cell = cells[own];
        if end < cell.width || cell.at <= end - cell.width {
            return;
        }
        end -= cell.width;
        cells[own].at = end;
    }
}

/// Moves the cells apart between the two sites, in their order. The cells left of the one at `from`
/// make room for it to the left first. Cells that are packed already do not move.
pub(crate) fn settle_around(cells: &mut [PackedCell], from: usize, start: u32, end: u32)
    requires from { from < length cells.old }
    requires fits { start + total_width cells.old ≤ end }
    ensures packed { IsPackedWithin start end cells.new }
    ensures same { AreSameCells cells.old cells.new }
    ensures kept { IsPackedWithin start end cells.old → cells.new ≡ cells.old }
{
    push_left(cells, from);
    push_apart(cells, start, end);
}
