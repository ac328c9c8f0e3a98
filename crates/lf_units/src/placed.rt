//! A box with the number of its owner.

use crate::geometry::Rect;

/// A rectangle in database units, with the number of its owner.
#[derive(Clone, Copy, Debug, PartialEq, Eq)]
pub struct Placed {
    pub own: u32,
    pub rect: Rect,
}
