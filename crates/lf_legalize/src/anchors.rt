//! The target of a team's unplaced cells.

ghost use Rattle.std.specs.Prelude.{◌≡◌};
ghost use Rattle.lf_rules.specs.Choice.{anchor, first_corner, first_origin};

use lf_floorplan::{Frame, Row};
use lf_units::{Point, Rect};

/// The lower left corner of the first rectangle. (0, 0) if there is no rectangle.
fn first_corner(rects: &[Rect]) -> Point
    ensures { result ≡ first_corner rects.now }
{
    match rects.first() {
        Some(rect) => Point {
            x: rect.x1,
            y: rect.y1,
        },
        None => Point { x: 0, y: 0 },
    }
}

/// The origin of the first row. (0, 0) if there is no row.
fn first_origin(rows: &[Row]) -> Point
    ensures { result ≡ first_origin rows.now }
{
    match rows.first() {
        Some(row) => Point {
            x: i64::from(row.x),
            y: i64::from(row.y),
        },
        None => Point { x: 0, y: 0 },
    }
}

/// The anchor of a team, which is the target of its unplaced cells, in database units. For a fence
/// it is the lower left corner of its first rectangle. For the ground team it is the origin of the
/// first row. (0, 0) if there is no such rectangle or row.
pub fn anchor(frame: &Frame, team: usize) -> Point
    ensures { result ≡ anchor frame.now team }
{
    match frame.teams.as_slice().get(team) {
        Some(fence) => first_corner(fence.rects.as_slice()),
        None => first_origin(frame.rows.as_slice()),
    }
}
