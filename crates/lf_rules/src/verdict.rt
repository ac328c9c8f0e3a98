//! The first broken rule.

ghost use Rattle.std.specs.Prelude.{◌≡◌, ◌↔◌, ◌%◌, ℕ, List, Some, None, IsTrue, option_map};
ghost use Rattle.lf_orient.specs.Orientation.{is_allowed, EqualUnder, rail_below};
ghost use Rattle.lf_floorplan.specs.Boxes.{IsSized};
ghost use Rattle.lf_rules.specs.declared.rule.Rule.TheVariants.{Overlap};
ghost use Rattle.lf_rules.specs.Legality.{IsFrameRuleVerdict, candidate_of};
ghost use Rattle.lf_rules.specs.Legalizer.{IsVerdict};

use crate::boxes::{box_with_points, padded_box};
use crate::frame_scan::FrameScan;
use crate::overlap::first_overlapping;
use crate::padding::Padding;
use crate::rows::{bottom_row, height_in_sites, is_supported};
use crate::rule::{Broken, Rule};
use lf_floorplan::{Frame, FrameQuery, Macro, Place, Row};
use lf_orient::{Orient, equal_under, is_candidate, row_rail};
use lf_units::Placed;

/// Returns whether a cell of the macro may have this orientation on this bottom row. The macro's
/// symmetry must allow it. If the height in core sites is odd, the core site's symmetry must make
/// it equal to the row's. This is rule 4.
pub fn is_oriented(frame: &Frame, mac: &Macro, orient: Orient, height: u32, bottom: &Row) -> bool
    ensures { IsTrue result ↔ (IsTrue (is_allowed mac.now.symmetry orient)
        × (height % 2 ≡ 1 → EqualUnder frame.now.site.symmetry orient bottom.now.orient)) }
{
    if !is_candidate(mac.symmetry, orient) {
        return false;
    }
    height % 2 == 0 || equal_under(frame.site.symmetry, orient, bottom.orient)
}

/// Returns whether the macro's bottom rail is the bottom row's, if the height in core sites is
/// even. This is rule 5.
pub fn is_on_rail(mac: &Macro, height: u32, bottom: &Row) -> bool
    ensures { IsTrue result ↔ (height % 2 ≡ 0 → rail_below bottom.now.orient ≡ Some mac.now.rail) }
{
    height % 2 == 1 || row_rail(bottom.orient) == Some(mac.rail)
}

/// Returns the first of rules 1 to 7 that a cell of the team breaks at the place. The result does
/// not depend on other cells or on the padding. `None` iff the cell keeps all seven.
///
/// `team` is a fence's position in the frame, or the number of fences for the ground team. The
/// macro's size is whole in database units. `near` is any `FrameQuery` of the frame, as
/// `FrameScan`. Allocates nothing.
pub fn broken_frame_rule<N: FrameQuery>(
    near: &N,
    team: usize,
    mac: &Macro,
    place: &Place,
) -> Option<Rule>
    requires { IsSized (N.of near.now) mac.now }
    ensures { (padding : ℕ) (others : List Placed)
        → IsFrameRuleVerdict (candidate_of (N.of near.now) team padding mac.now place.now others) result }
{
    let frame = near.frame();
    let rect = box_with_points(frame, mac, place);
    let Some(height) = height_in_sites(frame, &rect) else {
        return Some(Rule::Height);
    };
    let Some(bottom) = bottom_row(near, &rect) else {
        return Some(Rule::Row);
    };
    if !is_supported(near, &rect, bottom, height) {
        return Some(Rule::Stand);
    }
    if !is_oriented(frame, mac, place.orient, height, bottom) {
        return Some(Rule::Orient);
    }
    if !is_on_rail(mac, height, bottom) {
        return Some(Rule::Rail);
    }
    if !near.stays_in_ground(team, &rect) {
        return Some(Rule::Fence);
    }
    if !near.is_clear(team, &rect) {
        return Some(Rule::Obstacle);
    }
    None
}

/// Returns Overlap with the other cell of this number as the first broken rule. `None` if `met` is
/// `None`.
pub fn overlap_of(overlapping_one: Option<u32>) -> Option<Broken>
    ensures { result ≡ option_map (λ own. record { rule = Overlap; other = Some own }) overlapping_one }
{
    match overlapping_one {
        Some(own) => Some(Broken {
            rule: Rule::Overlap,
            other: Some(own),
        }),
        None => None,
    }
}

/// Returns the first rule that a cell of the team breaks at the place, given the team's other
/// placed cells. `None` iff the place is team-legal.
///
/// `team` is a fence's position in the frame, or the number of fences for the ground team. `others`
/// are the team's other placed cells in loading order, and `padding` is the team's. The macro's
/// size is whole in database units. Allocates nothing.
pub fn first_broken(
    frame: &Frame,
    team: usize,
    mac: &Macro,
    place: &Place,
    others: &[Placed],
    padding: Padding,
) -> Option<Broken>
    requires { IsSized frame.now mac.now }
    ensures { IsVerdict (candidate_of frame.now team padding.sites mac.now place.now others.now) result }
{
    if let Some(rule) = broken_frame_rule(&FrameScan { frame }, team, mac, place) {
        return Some(Broken { rule, other: None });
    }
    overlap_of(first_overlapping(&padded_box(frame, mac, place, padding), others))
}
