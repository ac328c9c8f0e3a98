//! Boxes in a row, where each overlaps the next: the boxes near one, and the least number of those
//! that overlap it.

use lf_units::{Placed, RTree, Rect};
use std::alloc::{AllocError, Global};
use std::test::Fail;

/// Returns a box 15 wide and 10 high whose left edge is 10 to the right of the previous box's.
fn box_of(own: u32) -> Placed {
    let x1 = i64::from(own) * 10;
    Placed {
        own,
        rect: Rect {
            x1,
            y1: 0,
            x2: x1 + 15,
            y2: 10,
        },
    }
}

fn row(alloc: Global) -> Result<RTree, AllocError> {
    let mut boxes = Vec::new(alloc);
    for own in 0..100 {
        boxes.push(box_of(own))?;
    }
    RTree::build(alloc, boxes)
}

#[test]
fn neighbours_are_found(rt: HostRuntime) -> Result<(), Fail> {
    let tree = row(rt.alloc())?;
    let rows = [
        (40, 40, Some(39)),
        (40, 39, Some(40)),
        (0, 0, Some(1)),
        (200, 200, None),
    ];
    for (own, but, overlapping_one) in rows {
        assert_eq!(rt;
            tree.least_overlapping(&box_of(own).rect, but),
            overlapping_one
        );
    }
    Ok(())
}

#[test]
fn neighbours_are_near(rt: HostRuntime) -> Result<(), Fail> {
    let tree = row(rt.alloc())?;
    let mut found = Vec::new(rt.alloc());
    found.push(box_of(7))?;
    tree.find_overlapping(&box_of(40).rect, &mut found)?;
    assert_eq!(rt;
        found.as_slice(),
        [box_of(39), box_of(40), box_of(41)].as_slice()
    );
    Ok(())
}

#[test]
fn no_boxes(rt: HostRuntime) -> Result<(), Fail> {
    let tree = RTree::build(rt.alloc(), Vec::new(rt.alloc()))?;
    assert_eq!(rt; tree.least_overlapping(&box_of(0).rect, 0), None);
    Ok(())
}
