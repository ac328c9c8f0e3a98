//! The order of boxes in a tree.

ghost use Rattle.std.specs.Prelude.{IsPermutation};

use crate::placed::Placed;

/// Orders the boxes for a tree of this depth: into bands from the bottom upwards, and from left to
/// right within a band. A band is a run of half the depth. The boxes of a short run are then close
/// together in x and in y.
pub(crate) fn sort_for_depth(boxes: &mut [Placed], depth: u32)
    ensures { IsPermutation boxes.old boxes.new }
{
    boxes.sort_unstable_by_key(|placed| (placed.rect.y1, placed.rect.x1));
    sort_bands(boxes, depth / 2);
}

/// Sorts each run at this depth from left to right.
fn sort_bands(boxes: &mut [Placed], depth: u32)
    ensures { IsPermutation boxes.old boxes.new }
{
    if depth == 0 {
        boxes.sort_unstable_by_key(|placed| placed.rect.x1);
        return;
    }
    let half = boxes.len() / 2;
    let (before, after_it) = boxes.split_at_mut(half);
    sort_bands(before, depth - 1);
    sort_bands(after_it, depth - 1);
}
