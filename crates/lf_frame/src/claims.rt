//! The claims of fences on each name of a list.

ghost use Rattle.std.specs.Prelude.{◌≡◌, ◌<◌, ℕ, IfOk, OnErr, OnOk, SomeIff, length, replicate, slice_set};
ghost use Rattle.lf_frame.specs.ShortClaims.{IsShortClaim};
ghost use Rattle.lf_frame.specs.Claims.{merged as merged_claim, CountsFences, IsMatched};
ghost use Rattle.lf_frame.specs.ClaimTables.{claim_at};

use crate::claim::{Claim, merged};
use lf_names::Match;
use std::alloc::{AllocError, Global};
use std::marker::Model;
use std::mem::size_of;

/// A claim in 32 bits. A contract sees the claim.
#[derive(Clone, Copy)]
struct ShortClaim {
    /// 0 for no fence, 1 for two fences, and the number plus 2 for a single fence.
    code: u32,
}

impl Model for ShortClaim {
    ghost use Rattle.lf_frame.specs.declared.claim.Claim.{Claim};

    ghost Value = { Claim };

    ghost use Rattle.lf_frame.specs.ShortClaims.{claim_in, stored_claim, stored_claim_back};

    ghost view = { claim_in };

    ghost inverse = { stored_claim };

    ghost inverse_ok = { λ a h. stored_claim_back a };
}

const _: () = prove!(size_of::<ShortClaim>() == 4 && size_of::<Claim>() == 16);

/// Claims on names, either all short or all wide.
#[derive(Drop)]
enum ClaimList {
    Short(Vec<ShortClaim>),
    Wide(Vec<Claim>),
}

/// The claims on each name of a list, by the numbers of the names. A claim takes 4 bytes. Each
/// takes 16 if the number of a fence in one of them needs more than 32 bits. A contract sees the
/// list of claims.
#[derive(Drop)]
pub struct Claims {
    kept: ClaimList,
}

impl Model for Claims {
    ghost use Rattle.std.specs.Prelude.{List};
    ghost use Rattle.lf_frame.specs.declared.claim.Claim.{Claim};

    ghost Value = { List Claim };

    ghost use Rattle.lf_frame.specs.ClaimLists.{claims_kept};

    ghost view = { λ c. claims_kept c.kept };
}

impl ShortClaim {
    /// Returns the same claim in its full form.
    fn long(&self) -> Claim
        ensures { result ≡ self.now }
    {
        match self.code {
            0 => Claim::Unclaimed,
            1 => Claim::ByTwo,
            code => Claim::ByOne((code - 2) as usize),
        }
    }
}

/// Returns the claim of only this fence in 32 bits, or `None` if it needs more.
fn short_by_one(fence: usize) -> Option<ShortClaim>
    ensures { SomeIff result (IsShortClaim (Claim.ByOne fence)) (Claim.ByOne fence) }
{
    let code = fence.checked_add(2)?;
    match u32::try_from(code) {
        Ok(code) => Some(ShortClaim { code }),
        Err(_) => None,
    }
}

/// Returns the claim in 32 bits, or `None` if it needs more.
fn short_claim(claim: Claim) -> Option<ShortClaim>
    ensures { SomeIff result (IsShortClaim claim) claim }
{
    match claim {
        Claim::Unclaimed => Some(ShortClaim { code: 0 }),
        Claim::ByTwo => Some(ShortClaim { code: 1 }),
        Claim::ByOne(fence) => short_by_one(fence),
    }
}

/// Returns the short claim at the number. Unclaimed if there is no such number.
fn short_at(claims: &[ShortClaim], number: usize) -> Claim
    ensures { result ≡ claim_at claims.now number }
{
    match claims.get(number) {
        Some(claim) => claim.long(),
        None => Claim::Unclaimed,
    }
}

/// Returns the wide claim at the number. Unclaimed if there is no such number.
fn wide_at(claims: &[Claim], number: usize) -> Claim
    ensures { result ≡ claim_at claims.now number }
{
    match claims.get(number) {
        Some(claim) => *claim,
        None => Claim::Unclaimed,
    }
}

/// Replaces the claim at the number, if there is such a number.
fn put_at<C: Copy>(claims: &mut Vec<C>, number: usize, claim: C)
    ensures { claims.new.items ≡ slice_set claims.old.items number claim }
{
    if let Some(place) = claims.get_mut(number) {
        *place = claim;
    }
}

/// Returns the same claims in their full form. `Err` if an allocation fails.
fn widened(alloc: Global, claims: &[ShortClaim]) -> Result<Vec<Claim>, AllocError>
    ensures { IfOk result (λ wide. wide.items ≡ claims.now) }
{
    let mut wide = Vec::with_capacity(alloc, claims.len())?;
    for claim in claims {
        wide.push(claim.long())?;
    }
    Ok(wide)
}

impl Claims {
    /// Returns the claims of `count` names that no fence claims. `Err` if an allocation fails.
    pub(crate) fn unclaimed(alloc: Global, count: usize) -> Result<Self, AllocError>
        ensures { IfOk result (λ claims. claims ≡ replicate count Claim.Unclaimed) }
    {
        let short = vec![in alloc; ShortClaim { code: 0 }; count]?;
        Ok(Claims {
            kept: ClaimList::Short(short),
        })
    }

    /// Returns the claim at the number. Unclaimed if there is no such number.
    pub(crate) fn claim_at(&self, number: usize) -> Claim
        ensures { result ≡ claim_at self.now number }
    {
        match &self.kept {
            ClaimList::Short(claims) => short_at(claims, number),
            ClaimList::Wide(claims) => wide_at(claims, number),
        }
    }

    /// Replaces the claim at the number, if there is such a number. `Err` if an allocation fails;
    /// all claims are then unchanged.
    fn put(&mut self, alloc: Global, number: usize, claim: Claim) -> Result<(), AllocError>
        ensures ok { OnOk result (self.new ≡ slice_set self.old number claim) }
        ensures err { OnErr result (self.new ≡ self.old) }
    {
        match &mut self.kept {
            ClaimList::Wide(claims) => put_at(claims, number, claim),
            ClaimList::Short(claims) => match short_claim(claim) {
                Some(short) => put_at(claims, number, short),
                None => {
                    let mut wide = widened(alloc, claims)?;
                    put_at(&mut wide, number, claim);
                    self.kept = ClaimList::Wide(wide);
                }
            },
        }
        Ok(())
    }

    /// Adds these fences to the claim at the number, if there is such a number. `Err` if an
    /// allocation fails; all claims are then unchanged.
    pub(crate) fn merge(
        &mut self,
        alloc: Global,
        number: usize,
        more: Claim,
    ) -> Result<(), AllocError>
        ensures ok { OnOk result (self.new ≡ slice_set self.old number (merged_claim (claim_at self.old number) more)) }
        ensures err { OnErr result (self.new ≡ self.old) }
    {
        if let Claim::Unclaimed = more {
            return Ok(());
        }
        let claim = merged(self.claim_at(number), more);
        self.put(alloc, number, claim)
    }
}

/// Returns the claims on `count` names, given matches of a name's number with a fence's number.
/// `Err` if an allocation fails.
pub(crate) fn claims_by_match(
    alloc: Global,
    count: usize,
    matches: &[Match],
) -> Result<Claims, AllocError>
    ensures long { IfOk result (λ claims. length claims ≡ count) }
    ensures reported { IfOk result (λ claims. (number : ℕ) → number < count
        → CountsFences (IsMatched matches.now number) (claim_at claims number)) }
{
    let mut claims = Claims::unclaimed(alloc, count)?;
    for found in matches {
        claims.merge(alloc, found.own, Claim::ByOne(found.requested))?;
    }
    Ok(claims)
}
