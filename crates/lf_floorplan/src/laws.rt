//! Laws on the definitions of boxes, ground and rows.

ghost use Rattle.lf_floorplan.specs.Sizes.{TurningTwiceIsIdentity};
ghost use Rattle.lf_floorplan.specs.Design.{CellIsSized};
ghost use Rattle.lf_floorplan.specs.Ground.{ObstaclesAreBounded, PointHasOneTeam, TeamsStayApart};
ghost use Rattle.lf_floorplan.specs.RowSupport.{RowAtIsUnique, BottomRowIsUnique};

/// Turning a size twice by the same orientation gives the original size.
pub fn turning_twice_is_identity()
    ensures { TurningTwiceIsIdentity }
{}

/// Each point is ground of exactly one team: of the fence that covers it, or else of the ground
/// team.
pub fn point_has_one_team()
    ensures { PointHasOneTeam }
{}

/// Boxes that stay in the grounds of different teams share no point.
pub fn teams_stay_apart()
    ensures { TeamsStayApart }
{}

/// Each obstacle has its lower left corner in the range of DEF coordinates. It reaches past the
/// largest of them by at most the largest size of a macro.
pub fn obstacles_are_bounded()
    ensures { ObstaclesAreBounded }
{}

/// A box has at most one height in sites, and a box with a width has at most one bottom row.
pub fn bottom_row_is_unique()
    ensures { BottomRowIsUnique }
{}

/// At most one row of a frame lies at a y and extends over an x.
pub fn row_at_is_unique()
    ensures { RowAtIsUnique }
{}

/// The macro of a cell has a size that is whole in database units and above 0.
pub fn cell_is_sized()
    ensures { CellIsSized }
{}
