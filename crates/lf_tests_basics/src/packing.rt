//! Cells packed into a span: candidates, and cells that are pushed apart.

use lf_repair_planner::{CostCurve, Insertion, PackedCell, PackedSpan, SearchEffort};
use std::alloc::{AllocError, Global};
use std::test::Fail;

/// Returns a span of 40 sites with cells of 4 sites at 10, 14 and 30, each at its target.
fn three(alloc: Global) -> Result<PackedSpan, AllocError> {
    let mut segment = PackedSpan::new(alloc, 40);
    for (number, wanted) in [(0u32, 10u32), (1, 14), (2, 30)] {
        let gap = segment.len();
        let cell = PackedCell {
            number,
            width: 4,
            wanted,
            offset: 0,
            reach: 40,
            at: wanted,
        };
        if gap < 3 && segment.has_room(4) {
            segment.insert(gap, cell)?;
        }
    }
    Ok(segment)
}

/// Returns a cell whose target is between the first two, across both.
fn one_more() -> PackedCell {
    PackedCell {
        number: 3,
        width: 4,
        wanted: 12,
        offset: 0,
        reach: 40,
        at: 12,
    }
}

/// Neighbours that overlap the new cell move to either side. The others stay.
#[test]
fn neighbours_are_pushed_apart(rt: HostRuntime) -> Result<(), Fail> {
    let mut segment = three(rt.alloc())?;
    let more = one_more();
    let gap = segment.gap_near(&more);
    assert!(rt; gap == 1);
    assert!(rt; segment.len() == 3);
    assert!(rt; segment.has_room(more.width));
    let cost = segment.insert(gap, more)?;
    assert!(rt; cost == 4);
    let mut places = Vec::new(rt.alloc());
    for cell in segment.as_slice() {
        places.push(cell.at)?;
    }
    assert!(rt; places.as_slice() == [8u32, 12, 16, 30].as_slice());
    Ok(())
}

/// A candidate has the first place of least cost in a gap. For the second gap, the cost is the one
/// that `insert` returns.
#[test]
fn candidates_have_the_cost_of_gaps(rt: HostRuntime) -> Result<(), Fail> {
    let segment = three(rt.alloc())?;
    let mut curve = CostCurve::new(rt.alloc());
    let effort = SearchEffort {
        reach: 1000,
        most: 100,
        near: 1000,
        weight: 1,
        pitch: 1,
        factor: 1,
    };
    let mut costs = Vec::new(rt.alloc());
    assert!(rt; segment.len() == 3);
    for gap in 0..4usize {
        if let Some(candidate_cell) = segment.try_insertion(
            gap,
            &one_more(),
            &effort,
            &mut curve,
        )? {
            costs.push((candidate_cell.at, candidate_cell.cost))?;
        }
    }
    let wanted = [(6u32, 6i64), (12, 4), (18, 6), (22, 22)];
    assert!(rt; costs.as_slice() == wanted.as_slice());
    Ok(())
}

/// A cell is found near its former place, a removed cell is no longer found, and another cell
/// replaces a third one.
#[test]
fn cells_are_found_and_changed(rt: HostRuntime) -> Result<(), Fail> {
    let mut segment = three(rt.alloc())?;
    let own = segment.find(1, 11);
    assert!(rt; own == Some(1));
    assert!(rt; segment.len() == 3);
    let out = segment.remove(1);
    assert!(rt; out.number == 1);
    assert!(rt; segment.find(1, 14).is_none());
    assert!(rt; segment.as_slice()[0].width == 4);
    let other = PackedCell {
        number: 4,
        width: 4,
        wanted: 12,
        offset: 0,
        reach: 40,
        at: 0,
    };
    segment.replace(0, other);
    assert!(rt; segment.displacement() == 2);
    Ok(())
}

/// Returns an insertion in the first gap.
fn insertion(at: u32, cost: i64) -> Insertion {
    Insertion { gap: 0, at, cost }
}

/// A target between two sites costs its distance from either. A neighbour is not pushed beyond its
/// reach.
#[test]
fn targets_between_sites_cost_exactly(rt: HostRuntime) -> Result<(), Fail> {
    let mut segment = PackedSpan::new(rt.alloc(), 40);
    let mut curve = CostCurve::new(rt.alloc());
    let effort = SearchEffort {
        reach: 1000,
        most: 100,
        near: 1000,
        weight: 1,
        pitch: 10,
        factor: 1,
    };
    let cell = PackedCell {
        offset: 7,
        ..one_more()
    };
    assert!(rt; segment.len() == 0);
    let found = segment.try_insertion(0, &cell, &effort, &mut curve)?;
    assert!(rt; found == Some(insertion(13, 3)));
    let neighbour = PackedCell {
        number: 0,
        wanted: 14,
        reach: 1,
        at: 14,
        ..cell
    };
    assert!(rt; segment.has_room(neighbour.width));
    segment.insert(0, neighbour)?;
    assert!(rt; segment.len() == 1);
    let found = segment.try_insertion(0, &cell, &effort, &mut curve)?;
    assert!(rt; found == Some(insertion(11, 13)));
    Ok(())
}
