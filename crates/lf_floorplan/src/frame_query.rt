//! The questions that legality asks of a frame.

ghost use Rattle.std.specs.Prelude.{◌≡◌, ◌↔◌, ◌<ℤ◌, IsTrue};
ghost use Rattle.lf_floorplan.specs.Ground.{IsClear, StaysInGround};
ghost use Rattle.lf_floorplan.specs.RowSupport.{IsRowAt, RestsOnRows};

use crate::frame::Frame;
use lf_units::Rect;

/// The questions that legality asks of a frame: which row lies at a point, and whether a box on
/// rows stays in a team's ground and clear of obstacles. One implementation scans the whole frame,
/// another uses an index; both return the same results.
pub trait FrameQuery {
    ghost use Rattle.lf_floorplan.specs.declared.frame.Frame.{Frame};

    /// The frame of the questions.
    ghost of: { Self → Frame };

    /// Returns the frame.
    fn frame(&self) -> &Frame
        ensures { result.now ≡ of self.now };

    /// Returns the position of the row of core sites whose lower edge is at y and whose extent
    /// holds x, in database units. `None` if there is no such row.
    fn row_at(&self, y: i64, x: i64) -> Option<usize>
        ensures { IsRowAt (of self.now) y x result };

    /// Returns whether every point of the box is ground of the team. The box must rest on rows.
    fn stays_in_ground(&self, team: usize, rect: &Rect) -> bool
        requires wide { rect.now.x1 <ℤ rect.now.x2 }
        requires is_in_place { RestsOnRows (of self.now) rect.now }
        ensures { IsTrue result ↔ StaysInGround (of self.now) team rect.now };

    /// Returns whether no point of the box is in an obstacle. The box must rest on rows in the
    /// team's ground.
    fn is_clear(&self, team: usize, rect: &Rect) -> bool
        requires wide { rect.now.x1 <ℤ rect.now.x2 }
        requires is_in_place { RestsOnRows (of self.now) rect.now }
        requires inside { StaysInGround (of self.now) team rect.now }
        ensures { IsTrue result ↔ IsClear (of self.now) rect.now };
}
