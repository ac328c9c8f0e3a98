//! Rows measured in database units.

ghost use Rattle.std.specs.Prelude.{◌≡◌, pos, ◌*ℤ◌, ◌<ℤ◌, ◌≤ℤ◌};
ghost use Rattle.lf_floorplan.specs.Rows.{row_area, IsCoreRow};

use crate::parts::Row;
use lf_units::{Point, Rect};

impl Row {
    /// Returns the width of all sites of the row, in database units.
    fn width(&self, pitch: &Point) -> i64
        requires core_ones { IsCoreRow pitch.now self.now }
        requires wide { pos 0 <ℤ pitch.now.x }
        ensures { result ≡ pos self.now.sites *ℤ pitch.now.x }
    {
        i64::from(self.sites) * pitch.x
    }

    /// Returns the x at which the row ends, the first one outside it. `pitch` is the size of a core
    /// site in database units. Row and pitch are those of a frame.
    pub fn right_edge(&self, pitch: &Point) -> i64
        requires core_ones { IsCoreRow pitch.now self.now }
        requires wide { pos 0 <ℤ pitch.now.x }
        ensures { result ≡ (row_area pitch.now self.now).x2 }
    {
        i64::from(self.x) + self.width(pitch)
    }

    /// Returns the points of the row, one site height high. `pitch` is the size of a core site in
    /// database units. Row and pitch are those of a frame.
    pub fn area(&self, pitch: &Point) -> Rect
        requires core_ones { IsCoreRow pitch.now self.now }
        requires wide { pos 0 <ℤ pitch.now.x }
        requires high { pos 0 <ℤ pitch.now.y }
        requires low { pitch.now.y ≤ℤ pos 20000000000 }
        ensures { result ≡ row_area pitch.now self.now }
    {
        let x = i64::from(self.x);
        let y = i64::from(self.y);
        Rect {
            x1: x,
            y1: y,
            x2: self.right_edge(pitch),
            y2: y + pitch.y,
        }
    }
}
