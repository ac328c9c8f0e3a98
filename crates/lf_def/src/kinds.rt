//! Fences, and the components that teams may move.

ghost use Rattle.std.specs.Prelude.{◌≡◌};
ghost use Rattle.lf_def.specs.Kinds.{is_fence as is_fence_region, is_cover as is_cover_component, is_fixed as is_fixed_component};
ghost use Rattle.lf_def.specs.Kinds.{is_movable as is_movable_component};

use crate::components::{Component, PlacementKind};
use crate::regions::{Region, RegionKind};

/// True if the component is FIXED (LEF/DEF 5.8, DEF COMPONENTS).
#[tactic(auto, using(crate::proofs::ClauseKinds::says_by))]
pub fn is_fixed(component: &Component) -> bool
    ensures { result ≡ is_fixed_component component.now }
{
    match component.kind() {
        Some(PlacementKind::Fixed) => true,
        Some(PlacementKind::Cover) => false,
        Some(PlacementKind::Placed) => false,
        Some(PlacementKind::Unplaced) => false,
        None => false,
    }
}

/// True if the component is COVER (LEF/DEF 5.8, DEF COMPONENTS).
#[tactic(auto, using(crate::proofs::ClauseKinds::says_by))]
pub fn is_cover(component: &Component) -> bool
    ensures { result ≡ is_cover_component component.now }
{
    match component.kind() {
        Some(PlacementKind::Fixed) => false,
        Some(PlacementKind::Cover) => true,
        Some(PlacementKind::Placed) => false,
        Some(PlacementKind::Unplaced) => false,
        None => false,
    }
}

/// True if teams may move the component: it is neither FIXED nor COVER.
#[tactic(auto, using(crate::proofs::ClauseKinds::says_by))]
pub fn is_movable(component: &Component) -> bool
    ensures { result ≡ is_movable_component component.now }
{
    match component.kind() {
        Some(PlacementKind::Fixed | PlacementKind::Cover) => false,
        Some(PlacementKind::Placed | PlacementKind::Unplaced) => true,
        None => true,
    }
}

/// True if the region's TYPE is FENCE (LEF/DEF 5.8, DEF REGIONS).
pub fn is_fence(region: &Region) -> bool
    ensures { result ≡ is_fence_region region.now }
{
    match region.kind {
        Some(RegionKind::Fence) => true,
        Some(RegionKind::Guide) => false,
        None => false,
    }
}
