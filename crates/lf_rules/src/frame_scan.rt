//! A frame without an index: each question scans all rows, fences or obstacles.

ghost use Rattle.std.specs.Prelude.{◌≡◌, ◌↔◌, ◌<ℤ◌, IsTrue};
ghost use Rattle.lf_floorplan.specs.Ground.{StaysInGround};
ghost use Rattle.lf_floorplan.specs.Rows.{IsCoreRow};
ghost use Rattle.lf_floorplan.specs.RowSupport.{ExtendsOver, IsRowAt, RestsOnRows};

use crate::cover::is_covered;
use crate::overlap::{is_clear_of, is_in_open_ground};
use lf_floorplan::{Frame, FrameQuery, Row};
use lf_units::{Point, Rect};

/// A frame without an index. Each question scans all of its rows, fences or obstacles. Allocates
/// nothing.
#[derive(Clone, Copy)]
pub struct FrameScan<'a> {
    pub frame: &'a Frame,
}

/// Returns whether the row lies at the point's y and extends over its x.
fn extends_over(frame: &Frame, point: &Point, row: &Row) -> bool
    requires { IsCoreRow frame.now.pitch row.now }
    ensures { IsTrue result ↔ ExtendsOver frame.now point.now.y point.now.x row.now }
{
    if i64::from(row.y) != point.y {
        return false;
    }
    if point.x < i64::from(row.x) {
        return false;
    }
    if row.right_edge(&frame.pitch) <= point.x {
        return false;
    }
    true
}

/// Returns the position of the row that lies at the point's y and extends over its x. `None` if
/// there is no such row.
fn row_at(frame: &Frame, point: &Point) -> Option<usize>
    ensures { IsRowAt frame.now point.now.y point.now.x result }
{
    for (number, row) in frame.rows.as_slice().iter().enumerate() {
        if extends_over(frame, point, row) {
            return Some(number);
        }
    }
    None
}

/// Returns whether every point of the box is ground of the team.
fn is_in_ground(frame: &Frame, team: usize, rect: &Rect) -> bool
    requires wide { rect.now.x1 <ℤ rect.now.x2 }
    requires high { rect.now.y1 <ℤ rect.now.y2 }
    ensures { IsTrue result ↔ StaysInGround frame.now team rect.now }
{
    match frame.teams.as_slice().get(team) {
        Some(fence) => is_covered(rect, fence.rects.as_slice()),
        None => {
            if team != frame.teams.len() {
                return false;
            }
            is_in_open_ground(rect, frame.teams.as_slice())
        }
    }
}

impl<'a> FrameQuery for FrameScan<'a> {
    ghost of = { λ w. w.frame.now };

    fn frame(&self) -> &Frame {
        self.frame
    }

    fn row_at(&self, y: i64, x: i64) -> Option<usize> {
        row_at(self.frame, &Point { x, y })
    }

    fn stays_in_ground(&self, team: usize, rect: &Rect) -> bool {
        is_in_ground(self.frame, team, rect)
    }

    fn is_clear(&self, _team: usize, rect: &Rect) -> bool {
        is_clear_of(rect, self.frame.obstacles.as_slice())
    }
}
