//! Patterns with a star. Each is tried only on names that begin, or end, as it does.

ghost use Rattle.std.specs.Prelude.{◌≡◌, ◌↔◌, ◌⊎◌, ℕ, [], ◌∷◌, ◌++◌, List, IsTrue, IfOk, OnOk, Contains, length};
ghost use Rattle.lf_frame.specs.Claims.{AppendsThere, ClaimsBy, ClaimsUnder, HasAtEnd, HasStarred, AddsUnderKey, AddsPattern, CountsFences, kept_under as bounds_under};

use crate::claim::{Claim, joined, merged};
use crate::name_end::{End, key_at, part_at};
use lf_names::{Added, NameTable, Pattern};
use lf_units::Name;
use std::alloc::{AllocError, Global};

/// A pattern of a group, and the number of the fence to which the group is bound.
#[derive(Drop)]
pub struct FencePattern {
    pub pattern: Name,
    pub fence: usize,
}

/// Patterns bound to fences, by their key at one end. The key at the front is the bytes in front of
/// the first star, the key at the back those after the last star. The patterns of a key are at its
/// position. Each length of a key is listed once.
#[derive(Drop)]
pub struct PatternsAtEnd {
    end: End,
    keys: NameTable,
    bounds: Vec<Vec<FencePattern>>,
    lengths: Vec<usize>,
}

/// Patterns bound to fences. Patterns that begin with a star are stored by their back, the others
/// by their front.
#[derive(Drop)]
pub struct StarredPatterns {
    fronts: PatternsAtEnd,
    backs: PatternsAtEnd,
}

/// Returns the claim with that of one more pattern added.
fn with_bound(claim: Claim, bound: &FencePattern, name: &[u8]) -> Claim
    ensures { AddsPattern bound.now name.now claim result }
{
    if Pattern::new(bound.pattern.as_bytes()).matches(name) {
        joined(claim, bound.fence)
    } else {
        claim
    }
}

/// Returns the claim of the patterns on the name. Tries each pattern.
fn claim_by_matching(bounds: &[FencePattern], name: &[u8]) -> Claim
    ensures { CountsFences (ClaimsBy bounds.now name.now) result }
{
    let mut claim = Claim::Unclaimed;
    for bound in bounds {
        claim = with_bound(claim, bound, name);
    }
    claim
}

/// Returns a list with only this pattern. `Err` if an allocation fails.
fn one_bound(alloc: Global, bound: FencePattern) -> Result<Vec<FencePattern>, AllocError>
    ensures { IfOk result (λ bounds. bounds.items ≡ bound ∷ []) }
{
    let mut bounds = Vec::new(alloc);
    bounds.push(bound)?;
    Ok(bounds)
}

/// Appends the pattern to the list at the place, if there is such a place.
fn push_at(
    all: &mut Vec<Vec<FencePattern>>,
    place: usize,
    bound: FencePattern,
) -> Result<(), AllocError>
    ensures { OnOk result (AppendsThere all.old.items all.new.items place bound) }
{
    if let Some(bounds) = all.get_mut(place) {
        bounds.push(bound)?;
    }
    Ok(())
}

/// Adds the length unless the list has it.
fn add_length(lengths: &mut Vec<usize>, added: usize) -> Result<(), AllocError>
    ensures { OnOk result ((n : ℕ) → Contains lengths.new.items n ↔ (Contains lengths.old.items n ⊎ (n ≡ added))) }
{
    if lengths.contains(&added) {
        return Ok(());
    }
    lengths.push(added)?;
    Ok(())
}

impl PatternsAtEnd {
    /// Returns an empty list.
    fn new(alloc: Global, end: End) -> Self
        ensures { HasAtEnd result [] }
    {
        PatternsAtEnd {
            end,
            keys: NameTable::new(alloc),
            bounds: Vec::new(alloc),
            lengths: Vec::new(alloc),
        }
    }

    /// True if there is no pattern.
    fn is_empty(&self) -> bool
        ensures { (bounds : List FencePattern) → HasAtEnd self.now bounds → (IsTrue result ↔ (bounds ≡ [])) }
    {
        self.lengths.is_empty()
    }

    /// Appends the pattern to those of the key.
    fn keep(&mut self, alloc: Global, key: &[u8], bound: FencePattern) -> Result<(), AllocError>
        ensures { OnOk result (length self.old.keys ≡ length self.old.bounds.items
            → AddsUnderKey self.old self.new key.now bound) }
    {
        match self.keys.add(key)? {
            Added::New(_) => self.bounds.push(one_bound(alloc, bound)?)?,
            Added::Present(place) => push_at(&mut self.bounds, place, bound)?,
        }
        Ok(())
    }

    /// Adds a pattern. After an `Err` the patterns must be dropped.
    fn add(&mut self, alloc: Global, pattern: &[u8], fence: usize) -> Result<(), AllocError>
        ensures { OnOk result ((bounds : List FencePattern) → HasAtEnd self.old bounds
            → HasAtEnd self.new (bounds ++ record { pattern = pattern.now; fence = fence } ∷ [])) }
    {
        let key = key_at(self.end, pattern);
        let pattern = Name::from_slice(alloc, pattern)?;
        self.keep(alloc, key, FencePattern { pattern, fence })?;
        add_length(&mut self.lengths, key.len())?;
        Ok(())
    }

    /// Returns the patterns of the key.
    fn patterns_for(&self, key: &[u8]) -> &[FencePattern]
        ensures { result.now ≡ bounds_under self.now key.now }
    {
        let Some(place) = self.keys.find(key) else {
            return &[];
        };
        match self.bounds.get(place) {
            Some(bounds) => bounds,
            None => &[],
        }
    }

    /// Returns the claim on the name of the patterns whose key has this length and is at this end
    /// of the name.
    fn claim_under(&self, count: usize, name: &[u8]) -> Claim
        ensures { CountsFences (ClaimsUnder self.now name.now count) result }
    {
        match part_at(self.end, name, count) {
            Some(part) => claim_by_matching(self.patterns_for(part), name),
            None => Claim::Unclaimed,
        }
    }

    /// Returns the claim of the patterns on the name. Tries only the patterns whose key the name
    /// has at this end. The time depends on the number of different key lengths, not on the number
    /// of other patterns.
    fn claim_on(&self, name: &[u8]) -> Claim
        ensures { (bounds : List FencePattern) → HasAtEnd self.now bounds
            → CountsFences (ClaimsBy bounds name.now) result }
    {
        let mut claim = Claim::Unclaimed;
        for &count in &self.lengths {
            claim = merged(claim, self.claim_under(count, name));
        }
        claim
    }
}

impl StarredPatterns {
    /// Returns an empty list.
    pub(crate) fn new(alloc: Global) -> Self
        ensures { HasStarred result [] }
    {
        StarredPatterns {
            fronts: PatternsAtEnd::new(alloc, End::Front),
            backs: PatternsAtEnd::new(alloc, End::Back),
        }
    }

    /// True if there is no pattern.
    pub(crate) fn is_empty(&self) -> bool
        ensures { (bounds : List FencePattern) → HasStarred self.now bounds → (IsTrue result ↔ (bounds ≡ [])) }
    {
        self.fronts.is_empty() && self.backs.is_empty()
    }

    /// Adds a pattern. After an `Err` the patterns must be dropped.
    pub(crate) fn add(
        &mut self,
        alloc: Global,
        pattern: &[u8],
        fence: usize,
    ) -> Result<(), AllocError>
        ensures { OnOk result ((bounds : List FencePattern) → HasStarred self.old bounds
            → HasStarred self.new (bounds ++ record { pattern = pattern.now; fence = fence } ∷ [])) }
    {
        if key_at(End::Front, pattern).is_empty() {
            return self.backs.add(alloc, pattern, fence);
        }
        self.fronts.add(alloc, pattern, fence)
    }

    /// Returns the claim of the patterns on the name.
    pub(crate) fn claim_on(&self, name: &[u8]) -> Claim
        ensures { (bounds : List FencePattern) → HasStarred self.now bounds
            → CountsFences (ClaimsBy bounds name.now) result }
    {
        let front = self.fronts.claim_on(name);
        if self.backs.is_empty() {
            return front;
        }
        merged(front, self.backs.claim_on(name))
    }
}
