//! The rules on areas: ground, obstacles and the other cells.

ghost use Rattle.std.specs.Prelude.{◌≡◌, ◌↔◌, ℕ, ℤ, All, IsTrue, MatchOption, length};
ghost use Rattle.lf_units.specs.Area.{SharesPoint, Covers, CoveredBy};
ghost use Rattle.lf_rules.specs.Legality.{IsFirstOverlapping};

use lf_floorplan::Team;
use lf_units::{Placed, Rect};

/// Returns whether the box shares no point with any of the rectangles.
pub(crate) fn is_clear_of(rect: &Rect, rects: &[Rect]) -> bool
    ensures { IsTrue result ↔ All (λ r. SharesPoint rect.now r → ⊥) rects.now }
{
    for other in rects {
        if rect.overlaps(other) {
            return false;
        }
    }
    true
}

/// Returns the number of the first placed cell whose box shares a point with this one. `None` if
/// there is no such cell.
pub(crate) fn first_overlapping(rect: &Rect, others: &[Placed]) -> Option<u32>
    ensures { MatchOption result (All (λ p. SharesPoint rect.now p.rect → ⊥) others.now)
        (λ own. IsFirstOverlapping rect.now others.now own) }
{
    for other in others {
        if rect.overlaps(&other.rect) {
            return Some(other.own);
        }
    }
    None
}

/// Returns whether no fence covers a point of the box.
#[tactic(auto, using(crate::proofs::GroundLemmas::open_of_clear, crate::proofs::GroundLemmas::clear_of_open))]
pub(crate) fn is_in_open_ground(rect: &Rect, teams: &[Team]) -> bool
    ensures { IsTrue result ↔ ((x y : ℤ) → Covers rect.now x y → All (λ u. CoveredBy u.rects x y → ⊥) teams.now) }
{
    for team in teams {
        if !is_clear_of(rect, team.rects.as_slice()) {
            return false;
        }
    }
    true
}
