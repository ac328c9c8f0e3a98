//! A packed tree of boxes.

ghost use Rattle.std.specs.Prelude.{◌≡◌, IfOk, OnOk, MatchOption, IsPermutation};
ghost use Rattle.lf_units.specs.Near.{AreAllOverlapping, IsLeastOverlapping, IsNoneOverlapping};

use crate::bound::Bound;
use crate::bounds_above::grow;
use crate::geometry::Rect;
use crate::least_overlapping::least_among;
use crate::overlapping::push_near_of_run;
use crate::placed::Placed;
use crate::sort::sort_for_depth;
use std::alloc::{AllocError, Global};
use std::marker::Model;

/// The approximate number of boxes in a part of a tree that is not divided further.
const BUCKET: usize = 8;

/// Boxes in a packed tree. A contract sees the list of the boxes, in the tree's order.
#[derive(Drop)]
pub struct RTree {
    boxes: Vec<Placed>,
    bounds: Vec<Bound>,
}

impl Model for RTree {
    ghost use Rattle.std.specs.Prelude.{List};
    ghost use Rattle.lf_units.specs.declared.placed.Placed.{Placed};
    ghost use Rattle.lf_units.specs.Packed.{IsTree};

    ghost Value = { List Placed };

    ghost view = { λ t. t.boxes.items };

    ghost invariant = { λ t. IsTree t.boxes.items t.bounds.items };
}

impl RTree {
    /// Returns a tree of the given boxes, in some order. Numbers may repeat, and rectangles without
    /// points are never found. `Err` if an allocation fails.
    pub fn build(alloc: Global, boxes: Vec<Placed>) -> Result<Self, AllocError>
        ensures { IfOk result (λ tree. IsPermutation boxes.items tree) }
    {
        let mut boxes = boxes;
        let count = boxes.len() / BUCKET;
        let depth = usize::BITS - count.leading_zeros();
        sort_for_depth(boxes.as_mut_slice(), depth);
        let bounds = grow(alloc, boxes.as_slice(), count)?;
        Ok(RTree { boxes, bounds })
    }

    /// Returns the boxes in the tree's order. Boxes that lie near each other mostly follow each
    /// other.
    pub fn boxes(&self) -> &[Placed]
        ensures { result.now ≡ self.now }
    {
        self.boxes.as_slice()
    }

    /// Replaces the contents of `found` by the boxes that share a point with this rectangle, each
    /// as often as it is in the tree. If an allocation fails, `found` holds some of them.
    pub fn find_overlapping(&self, rect: &Rect, found: &mut Vec<Placed>) -> Result<(), AllocError>
        ensures { OnOk result (AreAllOverlapping self.now rect.now found.new.items) }
    {
        found.clear();
        push_near_of_run(self.boxes.as_slice(), self.bounds.as_slice(), rect, found)
    }

    /// Returns the least number, other than `but`, of a box that shares a point with this
    /// rectangle. `None` iff there is no such box. Allocates nothing.
    pub fn least_overlapping(&self, rect: &Rect, but: u32) -> Option<u32>
        ensures { MatchOption result (IsNoneOverlapping self.now rect.now but)
            (IsLeastOverlapping self.now rect.now but) }
    {
        least_among(
            self.boxes.as_slice(),
            self.bounds.as_slice(),
            rect,
            but,
            None,
        )
    }
}
