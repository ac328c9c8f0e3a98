//! Claims of fences on component names.

ghost use Rattle.std.specs.Prelude.{◌≡◌};
ghost use Rattle.lf_frame.specs.Claims.{claim_with as joined_claim, merged as merged_claim};

/// The claim on a name.
#[derive(Clone, Copy)]
pub enum Claim {
    /// No fence claims it.
    Unclaimed,
    /// Only the fence with this number claims it.
    ByOne(usize),
    /// Two different fences claim it.
    ByTwo,
}

/// Returns the claim with this fence added.
pub(crate) fn joined(claim: Claim, fence: usize) -> Claim
    ensures { result ≡ joined_claim claim fence }
{
    match claim {
        Claim::Unclaimed => Claim::ByOne(fence),
        Claim::ByOne(other) => {
            if other == fence {
                Claim::ByOne(other)
            } else {
                Claim::ByTwo
            }
        }
        Claim::ByTwo => Claim::ByTwo,
    }
}

/// Returns the union of two claims.
pub(crate) fn merged(claim: Claim, more: Claim) -> Claim
    ensures { result ≡ merged_claim claim more }
{
    match more {
        Claim::Unclaimed => claim,
        Claim::ByOne(fence) => joined(claim, fence),
        Claim::ByTwo => Claim::ByTwo,
    }
}
