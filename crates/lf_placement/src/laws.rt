//! Laws on what stays true through changes.

ghost use Rattle.lf_placement.specs.Laws.{FrameRuleIsStable, FittingIsStable, KeepsMacros};

/// Places that fit a team still fit it if no strip has less room and its cells keep their macros.
/// Cells keep their macros if only their places change, or if their places are committed.
pub fn fitting_is_stable()
    ensures last { FittingIsStable }
    ensures macros { KeepsMacros }
{}

/// The first rule except overlap that a cell breaks at a place stays the same if its team's cells
/// keep their macros.
pub fn frame_rule_is_stable()
    ensures { FrameRuleIsStable }
{}
