//! Square bins, and the area that cells may still take in each.

ghost use Rattle.std.specs.Prelude.{◌<ℤ◌, pos};

use crate::limits::count_of;
use std::alloc::{AllocError, Global};

/// The greatest number of bins. If there were more, no bin is full.
const MOST_BINS: i64 = 4_000_000;

/// A box in database units.
#[derive(Clone, Copy)]
pub struct BinBox {
    pub x1: i64,
    pub y1: i64,
    pub x2: i64,
    pub y2: i64,
}

/// Square bins in columns and rows, from a corner on to the right and up.
#[derive(Drop)]
pub struct Bins {
    left: i64,
    bottom: i64,
    side: i64,
    columns: i64,
    rows: i64,
    /// For each bin the area that cells may still take, in hundredths of a square database unit, row
    /// by row. It is less than 0 if they take too much.
    rooms: Vec<i64>,
}

/// Bins by their columns and rows: from the first ones on and in front of the last ones.
#[derive(Clone, Copy)]
struct BinRange {
    column: i64,
    last_column: i64,
    row: i64,
    last_row: i64,
}

/// The length that two ranges share.
fn shared(a: i64, b: i64, c: i64, d: i64) -> i64 {
    b.min(d).saturating_sub(a.max(c)).max(0)
}

impl Bins {
    /// Bins of this side over a box, in which cells may take nothing. `Err` if an allocation fails.
    pub fn new(alloc: Global, around: &BinBox, side: i64) -> Result<Bins, AllocError> {
        let mut bins = Bins {
            left: around.x1,
            bottom: around.y1,
            side,
            columns: 0,
            rows: 0,
            rooms: Vec::new(alloc),
        };
        let columns = bins.number_of(around.x2.saturating_sub(around.x1));
        let columns = columns.saturating_add(1);
        let rows = bins.number_of(around.y2.saturating_sub(around.y1));
        let rows = rows.saturating_add(1);
        let count = columns.max(0).saturating_mul(rows.max(0));
        if count <= MOST_BINS {
            bins.columns = columns;
            bins.rows = rows;
            bins.rooms = vec![in alloc; 0i64; count_of(count) as usize]?;
        }
        Ok(bins)
    }

    /// The side of a bin, at least 1.
    fn pitch(&self) -> i64
        ensures { pos 0 <ℤ result }
    {
        self.side.max(1)
    }

    /// The number of the column or the row at this distance from the first one's edge.
    fn number_of(&self, distance: i64) -> i64 {
        distance.div_euclid(self.pitch())
    }

    /// The bins that share points with a box.
    fn around(&self, area: &BinBox) -> BinRange {
        let column = self.number_of(area.x1.saturating_sub(self.left));
        let last_column = self.number_of(area.x2.saturating_sub(self.left).saturating_sub(1));
        let row = self.number_of(area.y1.saturating_sub(self.bottom));
        let last_row = self.number_of(area.y2.saturating_sub(self.bottom).saturating_sub(1));
        BinRange {
            column: column.max(0),
            last_column: last_column.saturating_add(1).min(self.columns),
            row: row.max(0),
            last_row: last_row.saturating_add(1).min(self.rows),
        }
    }

    /// The area that a bin shares with a box.
    fn shared_area(&self, column: i64, row: i64, area: &BinBox) -> i64 {
        let side = self.pitch();
        let x = self.left.saturating_add(column.saturating_mul(side));
        let y = self.bottom.saturating_add(row.saturating_mul(side));
        let wide = shared(x, x.saturating_add(side), area.x1, area.x2);
        let high = shared(y, y.saturating_add(side), area.y1, area.y2);
        wide.saturating_mul(high)
    }

    /// The position of a bin in the list of rooms.
    fn position(&self, column: i64, row: i64) -> usize {
        count_of(row.saturating_mul(self.columns).saturating_add(column)) as usize
    }

    /// Adds to the room of each bin this percentage of the area that it shares with a box.
    pub fn add(&mut self, area: &BinBox, percent: i64) {
        let range = self.around(area);
        for row in range.row..range.last_row {
            for column in range.column..range.last_column {
                let more = self.shared_area(column, row, area).saturating_mul(percent);
                let position = self.position(column, row);
                if let Some(room) = self.rooms.get_mut(position) {
                    *room = room.saturating_add(more);
                }
            }
        }
    }

    /// By how much more of a bin the boxes take after moves than before.
    fn growth(&self, column: i64, row: i64, moved: &[(BinBox, BinBox)]) -> i64 {
        let mut sum: i64 = 0;
        for (before, after) in moved {
            let less = self.shared_area(column, row, before);
            let more = self.shared_area(column, row, after);
            sum = sum.saturating_add(more.saturating_sub(less));
        }
        sum
    }

    /// Whether no bin that gets fuller by moves is too full after them. A move is given by the box
    /// before and after it.
    pub(crate) fn have_room(&self, moved: &[(BinBox, BinBox)]) -> bool {
        for (_, after) in moved {
            let range = self.around(after);
            for row in range.row..range.last_row {
                for column in range.column..range.last_column {
                    let growth = self.growth(column, row, moved).saturating_mul(100);
                    let room = self.rooms.get(self.position(column, row)).copied();
                    if 0 < growth && room.unwrap_or(growth) < growth {
                        return false;
                    }
                }
            }
        }
        true
    }

    /// Takes over the moves.
    pub(crate) fn keep(&mut self, moved: &[(BinBox, BinBox)]) {
        for (before, after) in moved {
            self.add(before, 100);
            self.add(after, -100);
        }
    }
}
