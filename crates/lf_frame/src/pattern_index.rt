//! The patterns of groups, bound to the fences of the groups.

ghost use Rattle.std.specs.Prelude.{◌≡◌, [], ◌∷◌, List, Some, IfOk, IfSome, OnOk, length};
ghost use Rattle.std.specs.Option.{option_and_then};
ghost use Rattle.lf_def.specs.declared.regions.Region.{Region};
ghost use Rattle.lf_frame.specs.Teams.{fence_names};
ghost use Rattle.lf_frame.specs.NameMaps.{value_of_name};
ghost use Rattle.lf_frame.specs.declared.star_patterns.FencePattern.{FencePattern};
ghost use Rattle.lf_frame.specs.Claims.{AddStarred, AreClaimsWhereDistinct, ClaimsBy, ExtendsIndex, IndexesPatterns, Labels, MatchesItselfAlone, NumbersNames};
ghost use Rattle.lf_frame.specs.Claims.{all_bounds, bound_to};

use crate::claims::{Claims, claims_by_match};
use crate::component_names::parts_of_components;
use crate::name_map::NameMap;
use crate::star_patterns::StarredPatterns;
use lf_def::{Component, Group};
use lf_names::{PartitionedNames, Pattern};
use lf_units::Name;
use std::alloc::{AllocError, Global};

/// Patterns bound to fences. Patterns without a star are in parts, as the names that they match,
/// each labelled with the number of its fence. The others are stored by the bytes with which their
/// names begin or end.
#[derive(Drop)]
pub struct PatternIndex {
    literals: PartitionedNames,
    starred: StarredPatterns,
}

impl PatternIndex {
    /// Returns an empty index. `Err` if an allocation fails.
    fn new(alloc: Global) -> Result<Self, AllocError>
        ensures { IfOk result (λ index. IndexesPatterns index []) }
    {
        Ok(PatternIndex {
            literals: PartitionedNames::new(alloc)?,
            starred: StarredPatterns::new(alloc),
        })
    }

    /// Adds a pattern without a star.
    fn add_literal(&mut self, pattern: &[u8], fence: usize) -> Result<(), AllocError>
        ensures { MatchesItselfAlone pattern.now
            → OnOk result (ExtendsIndex self.old self.new (record { pattern = pattern.now; fence = fence } ∷ [])) }
    {
        self.literals.push(fence, pattern)?;
        Ok(())
    }

    /// Adds a pattern with a star. It is tried on names that begin or end as it does.
    fn add_starred(&mut self, alloc: Global, pattern: &[u8], fence: usize) -> Result<(), AllocError>
        ensures { OnOk result (ExtendsIndex self.old self.new (record { pattern = pattern.now; fence = fence } ∷ [])) }
    {
        self.starred.add(alloc, pattern, fence)?;
        Ok(())
    }

    /// Adds a pattern.
    fn add(&mut self, alloc: Global, pattern: &[u8], fence: usize) -> Result<(), AllocError>
        ensures { OnOk result (ExtendsIndex self.old self.new (record { pattern = pattern.now; fence = fence } ∷ [])) }
    {
        if Pattern::new(pattern).is_literal() {
            return self.add_literal(pattern, fence);
        }
        self.add_starred(alloc, pattern, fence)
    }

    /// Adds the patterns of one fence.
    fn add_patterns(
        &mut self,
        alloc: Global,
        patterns: &[Name],
        fence: usize,
    ) -> Result<(), AllocError>
        ensures { OnOk result (ExtendsIndex self.old self.new (bound_to (Some fence) patterns.now)) }
    {
        for pattern in patterns {
            self.add(alloc, pattern.as_bytes(), fence)?;
        }
        Ok(())
    }

    /// Adds the patterns of a group, if it is bound to a fence.
    fn add_group(
        &mut self,
        alloc: Global,
        group: &Group,
        numbers: &NameMap<usize>,
    ) -> Result<(), AllocError>
        ensures { OnOk result (ExtendsIndex self.old self.new
            (bound_to (option_and_then (value_of_name numbers.now) group.now.region) group.now.patterns)) }
    {
        match fence_of(group, numbers) {
            Some(fence) => self.add_patterns(alloc, group.patterns.as_slice(), fence),
            None => Ok(()),
        }
    }

    /// Returns the claims of the literal patterns on each component. `None` if two components have
    /// the same name. `Err` if an allocation fails.
    fn literal_claims(
        &self,
        alloc: Global,
        components: &[Component],
    ) -> Result<Option<Claims>, AllocError>
        ensures long { IfOk result (λ claims. IfSome claims (λ all. length all ≡ length components.now)) }
        ensures reported { IfOk result (AreClaimsWhereDistinct (Labels self.now.literals) components.now) }
    {
        let names = parts_of_components(alloc, components)?;
        let Some(matches) = names.matches(alloc, &self.literals)? else {
            return Ok(None);
        };
        // The copied names take more memory than the claims do.
        drop(names);
        Ok(Some(claims_by_match(alloc, components.len(), &matches)?))
    }

    /// Adds the claims of the patterns with a star to these claims of all components. Each pattern
    /// is tried only on names that begin, or end, as it does. `Err` if an allocation fails.
    fn with_starred(
        &self,
        alloc: Global,
        components: &[Component],
        claims: Claims,
    ) -> Result<Claims, AllocError>
        ensures { IfOk result (AddStarred self.now.starred components.now claims) }
    {
        let mut all = claims;
        for (number, component) in components.iter().enumerate() {
            let tried = self.starred.claim_on(component.name());
            all.merge(alloc, number, tried)?;
        }
        Ok(all)
    }

    /// Adds the claims of the patterns with a star, if there are any, to these claims of all
    /// components. `Err` if an allocation fails.
    fn completed(
        &self,
        alloc: Global,
        components: &[Component],
        claims: Claims,
    ) -> Result<Claims, AllocError>
        ensures { IfOk result (AddStarred self.now.starred components.now claims) }
    {
        if self.starred.is_empty() {
            return Ok(claims);
        }
        self.with_starred(alloc, components, claims)
    }

    /// Returns the claims of all patterns on each component. `None` if two components have the same
    /// name. `Err` if an allocation fails.
    pub(crate) fn claims_of(
        &self,
        alloc: Global,
        components: &[Component],
    ) -> Result<Option<Claims>, AllocError>
        ensures { (bounds : List FencePattern) → IndexesPatterns self.now bounds
            → IfOk result (AreClaimsWhereDistinct (ClaimsBy bounds) components.now) }
    {
        let Some(claims) = self.literal_claims(alloc, components)? else {
            return Ok(None);
        };
        Ok(Some(self.completed(alloc, components, claims)?))
    }
}

/// Returns the number of the fence to which the group is bound, or `None` if it is bound to no
/// fence.
fn fence_of(group: &Group, numbers: &NameMap<usize>) -> Option<usize>
    ensures { result ≡ option_and_then (value_of_name numbers.now) group.now.region }
{
    match &group.region {
        Some(region) => numbers.get(region.as_bytes()),
        None => None,
    }
}

/// Returns the index of the patterns of all groups. `Err` if an allocation fails.
pub(crate) fn index_of(
    alloc: Global,
    groups: &[Group],
    numbers: &NameMap<usize>,
) -> Result<PatternIndex, AllocError>
    ensures { (regions : List Region) → NumbersNames (fence_names regions) numbers.now
        → IfOk result (λ index. IndexesPatterns index (all_bounds regions groups.now)) }
{
    let mut index = PatternIndex::new(alloc)?;
    for group in groups {
        index.add_group(alloc, group, numbers)?;
    }
    Ok(index)
}
