//! The refusals of loading for regions and groups.

ghost use Rattle.std.specs.Prelude.{[], ◌∷◌, ◌≡◌, ◌≢◌, ◌↔◌, ℕ, ◌<◌, ◌≤◌, ◌++◌, true, None, List, map, All, Any, Contains, IsTrue};
ghost use Rattle.std.specs.Prelude.{IsFalse, IfOk, OnOk, MatchOption, IfSome, length};
ghost use Rattle.lf_units.specs.Area.{SharesPoint};
ghost use Rattle.lf_frame.specs.Entries.{FirstIs};
ghost use Rattle.lf_def.specs.Kinds.{is_fence as is_fence_region};
ghost use Rattle.lf_frame.specs.Teams.{fence_names};
ghost use Rattle.lf_frame.specs.Tables.{HoldSameNames, region_names as region_names_of, IsOutside};
ghost use Rattle.lf_frame.specs.Sweep.{piece_of, fence_pieces as fence_pieces_of, ArePiecesOf};
ghost use Rattle.lf_frame.specs.Refusals.{HasEarlierFenceName, HasNoRegion, HasGroundName, SharePoint, OverlapsEarlierFence, IsFenceTooMany};

use crate::component_names::add_if_new;
use crate::sweep::{SweepRect, none_clash};
use lf_def::{Group, Region, is_fence};
use lf_names::NameTable;
use lf_units::Rect;
use std::alloc::{AllocError, Global};

/// Adds the name of a fence to the table. Returns true if the table has the name already. Returns
/// false and adds nothing if the region is not a fence. `Err` if an allocation fails.
fn is_second_fence(names: &mut NameTable, region: &Region) -> Result<bool, AllocError>
    ensures second { IfOk result (λ second. IsTrue second
        → (is_fence_region region.now ≡ true) × Contains names.old region.now.name) }
    ensures first { IfOk result (λ second. IsFalse second → is_fence_region region.now ≡ true
        → Contains names.old region.now.name → ⊥) }
    ensures names { IfOk result (λ second. IsFalse second → names.new ≡ names.old ++ fence_names (region.now ∷ [])) }
{
    if !is_fence(region) {
        return Ok(false);
    }
    let new = add_if_new(names, region.name.as_bytes())?;
    Ok(!new)
}

/// Returns the number of the first fence that has the name of an earlier fence, or `None`. `Err` if
/// an allocation fails.
pub(crate) fn first_second_fence(
    alloc: Global,
    regions: &[Region],
) -> Result<Option<usize>, AllocError>
    ensures { IfOk result (λ found. FirstIs HasEarlierFenceName regions.now found) }
{
    let mut names = NameTable::new(alloc);
    for (number, region) in regions.iter().enumerate() {
        if is_second_fence(&mut names, region)? {
            return Ok(Some(number));
        }
    }
    Ok(None)
}

/// True if the region is a fence named `-`.
fn bears_ground_name(region: &Region) -> bool
    ensures { IsTrue result ↔ HasGroundName [] region.now }
{
    is_fence(region) && region.name.is(b"-")
}

/// Returns the number of the first fence named `-`, or `None`.
pub(crate) fn first_ground_name(regions: &[Region]) -> Option<usize>
    ensures { FirstIs HasGroundName regions.now result }
{
    for (number, region) in regions.iter().enumerate() {
        if bears_ground_name(region) {
            return Some(number);
        }
    }
    None
}

/// Returns the names of the regions. `Err` if an allocation fails.
fn region_names(alloc: Global, regions: &[Region]) -> Result<NameTable, AllocError>
    ensures { IfOk result (λ names. HoldSameNames names (region_names_of regions.now)) }
{
    let mut names = NameTable::new(alloc);
    for region in regions {
        names.add(region.name.as_bytes())?;
    }
    Ok(names)
}

/// True if the group has a region that is not in the table.
fn is_outside(group: &Group, names: &NameTable) -> bool
    ensures { IsTrue result ↔ IsOutside names.now group.now }
{
    match &group.region {
        Some(name) => names.find(name.as_bytes()).is_none(),
        None => false,
    }
}

/// Returns the number of the first group whose region has no REGIONS entry, or `None`. `Err` if an
/// allocation fails.
pub(crate) fn first_without_region(
    alloc: Global,
    groups: &[Group],
    regions: &[Region],
) -> Result<Option<usize>, AllocError>
    ensures { IfOk result (λ found. FirstIs (HasNoRegion regions.now) groups.now found) }
{
    let names = region_names(alloc, regions)?;
    for (number, group) in groups.iter().enumerate() {
        if is_outside(group, &names) {
            return Ok(Some(number));
        }
    }
    Ok(None)
}

/// True if the rectangle shares a point with one of the list.
fn overlaps_rect(rect: &Rect, others: &[Rect]) -> bool
    ensures { IsTrue result ↔ Any (λ b. SharesPoint rect.now b) others.now }
{
    others.iter().any(|other| rect.overlaps(other))
}

/// True if a rectangle of one list shares a point with one of the other.
fn do_rects_meet(first: &[Rect], second: &[Rect]) -> bool
    ensures { IsTrue result ↔ Any (λ a. Any (λ b. SharesPoint a b) second.now) first.now }
{
    for rect in first {
        if overlaps_rect(rect, second) {
            return true;
        }
    }
    false
}

/// True if a point lies in rectangles of both regions.
pub(crate) fn do_regions_meet(first: &Region, second: &Region) -> bool
    ensures { IsTrue result ↔ SharePoint first.now.rects second.now.rects }
{
    do_rects_meet(first.rects.as_slice(), second.rects.as_slice())
}

/// True if a fence of the list shares a point with the region.
fn overlaps_one_of(region: &Region, earlier: &[Region]) -> bool
    ensures { IsTrue result ↔ Any (λ e. (is_fence_region e ≡ true) × SharePoint e.rects region.now.rects) earlier.now }
{
    for other in earlier {
        if is_fence(other) && do_regions_meet(other, region) {
            return true;
        }
    }
    false
}

/// Returns the number of the first fence that shares a point with an earlier fence, or `None`.
/// Compares all pairs.
fn fence_overlap_by_pairs(regions: &[Region]) -> Option<usize>
    ensures { FirstIs OverlapsEarlierFence regions.now result }
{
    for (number, region) in regions.iter().enumerate() {
        if is_fence(region) && overlaps_one_of(region, &regions[..number]) {
            return Some(number);
        }
    }
    None
}

/// Returns the rectangle as a piece of the sweep.
fn rect_piece(number: usize, rect: &Rect) -> SweepRect
    ensures { result ≡ piece_of number rect.now }
{
    SweepRect {
        entry: number,
        left: rect.x1,
        right: i128::from(rect.x2),
        bottom: rect.y1,
        top: rect.y2,
    }
}

/// Appends the rectangles of an entry as pieces.
fn push_pieces(pieces: &mut Vec<SweepRect>, number: usize, rects: &[Rect]) -> Result<(), AllocError>
    ensures { OnOk result (pieces.new.items ≡ pieces.old.items ++ map (λ rect. piece_of number rect) rects.now) }
{
    for rect in rects {
        pieces.push(rect_piece(number, rect))?;
    }
    Ok(())
}

/// Appends the rectangles of a region as pieces, if it is a fence.
fn push_region(
    pieces: &mut Vec<SweepRect>,
    number: usize,
    region: &Region,
) -> Result<(), AllocError>
    ensures { OnOk result (pieces.new.items ≡ pieces.old.items ++ fence_pieces_of number region.now) }
{
    if is_fence(region) {
        return push_pieces(pieces, number, region.rects.as_slice());
    }
    Ok(())
}

/// Returns the rectangles of all fences as pieces of the sweep. `Err` if an allocation fails.
fn fence_pieces(alloc: Global, regions: &[Region]) -> Result<Vec<SweepRect>, AllocError>
    ensures { IfOk result (λ pieces. ArePiecesOf fence_pieces_of regions.now pieces.items) }
{
    let mut pieces = Vec::new(alloc);
    for (number, region) in regions.iter().enumerate() {
        push_region(&mut pieces, number, region)?;
    }
    Ok(pieces)
}

/// Returns the number of the first fence that shares a point with an earlier fence, or `None`.
/// Takes the time of a sort if there is no such fence and few rectangles overlap in y. `Err` if an
/// allocation fails.
pub(crate) fn first_fence_overlap(
    alloc: Global,
    regions: &[Region],
) -> Result<Option<usize>, AllocError>
    ensures { IfOk result (λ found. FirstIs OverlapsEarlierFence regions.now found) }
{
    let mut pieces = fence_pieces(alloc, regions)?;
    if none_clash(&mut pieces) {
        return Ok(None);
    }
    Ok(fence_overlap_by_pairs(regions))
}

/// Returns the number of the first fence beyond the limit, or `None`.
pub(crate) fn first_fence_too_many(regions: &[Region], limit: usize) -> Option<usize>
    ensures { FirstIs (IsFenceTooMany limit) regions.now result }
{
    let mut fences = 0;
    for (number, region) in regions.iter().enumerate() {
        if is_fence(region) {
            if limit <= fences {
                return Some(number);
            }
            fences += 1;
        }
    }
    None
}
