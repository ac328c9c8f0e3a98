//! Laws on strips.

ghost use Rattle.lf_occupancy.specs.Floorplans.{StripsCover, WidenedStripsCover};

/// Each point of a box that rests on rows, stays in a team's ground and is clear of obstacles lies
/// in one of the team's strips.
pub fn strips_cover()
    ensures { StripsCover }
{}

/// Takes a box that has points, rests on rows, stays in a team's ground and is clear of obstacles.
/// Widened by at most 16 core sites on its left and right, each of its points lies in one of the
/// team's widened strips.
pub fn widened_strips_cover()
    ensures { WidenedStripsCover }
{}
