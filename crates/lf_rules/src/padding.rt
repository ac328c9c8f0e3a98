//! The padding of a team.

ghost use Rattle.std.specs.Prelude.{◌≡◌, ◌≤◌, ◌<◌, ◌+ℤ◌, ◌-ℤ◌, MatchOption};
ghost use Rattle.lf_rules.specs.Padding.{CanWiden, HasRoomAround, IsShort, length_of, wider as widened};

use lf_floorplan::Frame;
use lf_units::Rect;

/// The distance along x that a team keeps between its own cells, in core sites: from 0 to 16.
///
/// Rule 8 widens a cell's box by it on its left and on its right.
#[derive(Clone, Copy, Debug, PartialEq, Eq)]
pub struct Padding {
    pub sites: u32,
    pub ghost most: { sites ≤ 16 },
}

/// Returns the length of `sites` core sites, at most 16, in database units.
fn length_in(frame: &Frame, sites: u32) -> i64
    requires { sites ≤ 16 }
    ensures { result ≡ length_of frame.now sites }
{
    i64::from(sites) * frame.pitch.x
}

impl Padding {
    /// Returns the padding of `sites` core sites. `None` iff `sites` is more than 16.
    pub fn new(sites: u32) -> Option<Padding>
        ensures { MatchOption result (16 < sites) (λ padding. padding.sites ≡ sites) }
    {
        if sites > 16 {
            return None;
        }
        Some(Padding { sites })
    }

    /// Returns the padding of 0 sites: cells may touch.
    pub fn none() -> Padding
        ensures { result.sites ≡ 0 }
    {
        Padding { sites: 0 }
    }

    /// Returns its length in database units: `sites` widths of the frame's core site.
    pub fn length(self, frame: &Frame) -> i64
        ensures is { result ≡ length_of frame.now self.sites }
        ensures short { IsShort result }
    {
        length_in(frame, self.sites)
    }
}

/// Returns the left edge of the rectangle, moved left by a length.
fn left_minus(rect: &Rect, by: i64) -> i64
    requires { CanWiden rect.now by }
    ensures { result ≡ rect.now.x1 -ℤ by }
{
    rect.x1 - by
}

/// Returns the right edge of the rectangle, moved right by a length.
fn right_plus(rect: &Rect, by: i64) -> i64
    requires { CanWiden rect.now by }
    ensures { result ≡ rect.now.x2 +ℤ by }
{
    rect.x2 + by
}

/// Returns the rectangle, widened by a length on its left and on its right, in database units. The
/// length is from 0 to 320,000,000,000, and the x range is within 2^62 of 0.
pub fn widen(rect: &Rect, by: i64) -> Rect
    requires short { IsShort by }
    requires room { HasRoomAround rect.now }
    ensures { result ≡ widened by rect.now }
{
    Rect {
        x1: left_minus(rect, by),
        y1: rect.y1,
        x2: right_plus(rect, by),
        y2: rect.y2,
    }
}
