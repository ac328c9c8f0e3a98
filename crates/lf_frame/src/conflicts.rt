//! The fences with which a refused fence or component conflicts.

ghost use Rattle.std.specs.Prelude.{[], ◌≡◌, ◌↔◌, true, Any, IsTrue, None};
ghost use Rattle.std.specs.Option.{option_copied};
ghost use Rattle.lf_def.specs.Kinds.{is_fence as is_fence_region};
ghost use Rattle.lf_frame.specs.Entries.{FirstIs};
ghost use Rattle.lf_frame.specs.Teams.{NamedBy};
ghost use Rattle.lf_frame.specs.Findings.{NameOfFirst, region_name};
ghost use Rattle.lf_frame.specs.Conflicts.{AreClaimers, ClaimsBut, IsOverlappedBy, ConflictsWith, OverlapsFence, fence_named as named_fence, conflict_in};

use crate::fence_checks::do_regions_meet;
use crate::findings::{region_at, region_of_group};
use lf_def::{DefDoc, Group, Region, is_fence};
use lf_lex::{FaultNumber, LoadFault};
use lf_names::Pattern;

/// The names of the fences that a fault of loading is about, besides the name in the fault.
#[derive(Clone, Copy)]
pub struct FenceConflict<'d> {
    /// For FencesOverlap the fence that overlaps the one in the fault. For TwoFences the first
    /// fence that claims the component.
    pub first: Option<&'d [u8]>,
    /// For TwoFences the other fence that claims the component.
    pub second: Option<&'d [u8]>,
}

/// No fence.
const NO_FENCE: FenceConflict<'static> = FenceConflict {
    first: None,
    second: None,
};

/// Returns the first fence with this name, or `None`.
fn fence_named<'d>(regions: &'d [Region], name: &[u8]) -> Option<&'d Region>
    ensures { option_copied result ≡ named_fence regions.now name.now }
{
    regions
        .iter()
        .find(|region| is_fence(region) && region.name.is(name))
}

/// True if the region is a fence of another name that shares a point with the fence.
fn does_overlap(fence: &Region, region: &Region) -> bool
    ensures { IsTrue result ↔ OverlapsFence fence.now [] region.now }
{
    is_fence(region) && !region.name.is(fence.name.as_bytes()) && do_regions_meet(region, fence)
}

/// Returns the number of the first fence of another name that shares a point with this one, or
/// `None`.
fn first_overlapped(regions: &[Region], fence: &Region) -> Option<usize>
    ensures { FirstIs (OverlapsFence fence.now) regions.now result }
{
    for (number, region) in regions.iter().enumerate() {
        if does_overlap(fence, region) {
            return Some(number);
        }
    }
    None
}

/// Returns the name of the first other fence that shares a point with the fence of this name, or
/// `None`.
fn overlapped_by<'d>(regions: &'d [Region], name: &[u8]) -> Option<&'d [u8]>
    ensures { IsOverlappedBy regions.now name.now (option_copied result) }
{
    let Some(fence) = fence_named(regions, name) else {
        return None;
    };
    region_at(regions, first_overlapped(regions, fence))
}

/// True if the name matches a pattern of the group.
fn is_named_by(group: &Group, name: &[u8]) -> bool
    ensures { IsTrue result ↔ NamedBy group.now name.now }
{
    group
        .patterns
        .as_slice()
        .iter()
        .any(|pattern| Pattern::new(pattern.as_bytes()).matches(name))
}

/// True if a fence has this name.
fn has_fence(regions: &[Region], name: &[u8]) -> bool
    ensures { IsTrue result ↔ Any (λ r. (is_fence_region r ≡ true) × (r.name ≡ name.now)) regions.now }
{
    regions
        .iter()
        .any(|region| is_fence(region) && region.name.is(name))
}

/// True if the group binds the name to a fence other than `reported`.
fn claims_but(regions: &[Region], name: &[u8], reported: Option<&[u8]>, group: &Group) -> bool
    ensures { IsTrue result ↔ ClaimsBut regions.now name.now (option_copied reported.entry) [] group.now }
{
    let Some(fence) = &group.region else {
        return false;
    };
    reported != Some(fence.as_bytes())
        && has_fence(regions, fence.as_bytes())
        && is_named_by(group, name)
}

/// Returns the number of the first group that binds the name to a fence other than `reported`, or
/// `None`.
fn first_claiming(
    regions: &[Region],
    groups: &[Group],
    name: &[u8],
    reported: Option<&[u8]>,
) -> Option<usize>
    ensures { FirstIs (ClaimsBut regions.now name.now (option_copied reported.entry)) groups.now result }
{
    for (number, group) in groups.iter().enumerate() {
        if claims_but(regions, name, reported, group) {
            return Some(number);
        }
    }
    None
}

/// Returns the first fence other than `reported` to which a group binds the name, or `None`.
fn claimer<'d>(document: &'d DefDoc, name: &[u8], reported: Option<&[u8]>) -> Option<&'d [u8]>
    ensures { NameOfFirst region_name (ClaimsBut document.now.regions name.now (option_copied reported.entry))
        document.now.groups (option_copied result) }
{
    let groups = document.groups.as_slice();
    let first = first_claiming(document.regions.as_slice(), groups, name, reported);
    region_of_group(groups, first)
}

/// Returns the first two fences to which groups bind the name.
fn claimers<'d>(document: &'d DefDoc, name: &[u8]) -> FenceConflict<'d>
    ensures { AreClaimers document.now.regions document.now.groups name.now (conflict_in result) }
{
    let first = claimer(document, name, None);
    FenceConflict {
        first,
        second: claimer(document, name, first),
    }
}

/// Returns the fences that a fault of loading the document is about, besides the name in the fault.
pub fn conflicting_fences<'d>(document: &'d DefDoc, fault: &LoadFault<'_>) -> FenceConflict<'d>
    ensures { ConflictsWith document.now.regions document.now.groups fault.now (conflict_in result) }
{
    let Some(name) = fault.name else {
        return NO_FENCE;
    };
    match fault.number {
        FaultNumber::FencesOverlap => FenceConflict {
            first: overlapped_by(document.regions.as_slice(), name),
            second: None,
        },
        FaultNumber::TwoFences => claimers(document, name),
        _ => NO_FENCE,
    }
}
