//! The fences and obstacles of a frame as boxes of a tree, and those near a row.

ghost use Rattle.std.specs.Prelude.{◌≡◌, ◌≤◌, ◌++◌, IfOk, IsPermutation, OnOk, length, map};
ghost use Rattle.lf_floorplan.specs.Rows.{IsCoreRow};
ghost use Rattle.lf_segments.specs.Boxes.{placed_with_number, fence_boxes, frame_boxes, AreBoxesOf, AreSorted};

use lf_floorplan::{Frame, Row, Team};
use lf_units::{Placed, RTree, Rect};
use std::alloc::{AllocError, Global};

/// Appends rectangles, each with this number. `Err` if an allocation fails.
pub fn push_placed(boxes: &mut Vec<Placed>, own: u32, rects: &[Rect]) -> Result<(), AllocError>
    ensures { OnOk result (boxes.new.items ≡ boxes.old.items ++ map (placed_with_number own) rects.now) }
{
    for rect in rects {
        boxes.push(Placed { own, rect: *rect })?;
    }
    Ok(())
}

/// Returns the rectangles of the fences, each with its fence's number. `Err` if an allocation
/// fails.
fn boxes_of_fences(alloc: Global, teams: &[Team]) -> Result<Vec<Placed>, AllocError>
    requires { length teams.now ≤ 1024 }
    ensures { IfOk result (λ boxes. boxes.items ≡ fence_boxes 0 teams.now) }
{
    let mut boxes = Vec::new(alloc);
    for (own, team) in teams.iter().enumerate() {
        push_placed(&mut boxes, own as u32, team.rects.as_slice())?;
    }
    Ok(boxes)
}

/// Returns the rectangles of the fences and the obstacles. An obstacle has the ground team's
/// number. `Err` if an allocation fails.
fn boxes_of_frame(alloc: Global, frame: &Frame) -> Result<Vec<Placed>, AllocError>
    ensures { IfOk result (λ boxes. boxes.items ≡ frame_boxes frame.now) }
{
    let teams = frame.teams.as_slice();
    let mut boxes = boxes_of_fences(alloc, teams)?;
    push_placed(&mut boxes, teams.len() as u32, frame.obstacles.as_slice())?;
    Ok(boxes)
}

/// Returns a tree of the rectangles of the fences and the obstacles, for searches by position.
/// `Err` if an allocation fails.
pub(crate) fn tree_of_frame(alloc: Global, frame: &Frame) -> Result<RTree, AllocError>
    ensures { IfOk result (λ tree. IsPermutation (frame_boxes frame.now) tree) }
{
    RTree::build(alloc, boxes_of_frame(alloc, frame)?)
}

/// Sorts the boxes by number.
fn sort_boxes(boxes: &mut Vec<Placed>)
    ensures moved { IsPermutation boxes.old.items boxes.new.items }
    ensures sorted { AreSorted boxes.new.items }
{
    boxes.sort_unstable_by_key(|placed| placed.own);
}

/// Replaces the contents of `near` by the boxes of the frame that share a point with the row, in
/// order of their numbers. `Err` if an allocation fails.
pub(crate) fn boxes_near(
    tree: &RTree,
    frame: &Frame,
    row: &Row,
    near: &mut Vec<Placed>,
) -> Result<(), AllocError>
    requires core_ones { IsCoreRow frame.now.pitch row.now }
    requires tree { IsPermutation (frame_boxes frame.now) tree.now }
    ensures boxes { OnOk result (AreBoxesOf frame.now frame.now.obstacles row.now near.new.items) }
    ensures sorted { OnOk result (AreSorted near.new.items) }
{
    tree.find_overlapping(&row.area(&frame.pitch), near)?;
    sort_boxes(near);
    Ok(())
}
