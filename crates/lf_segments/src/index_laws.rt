//! Laws on segments and on rows in order of y.

ghost use Rattle.lf_segments.specs.Laws.{CutIsUnique, SegmentsDecide};
ghost use Rattle.lf_segments.specs.RowsByY.{RunAtHasRows, RunBetweenHasRows};

/// A wide box on rows stays in a team's ground and clear of a list of obstacles iff it lies in
/// segments. That is, in each row that carries it, its x range lies in one segment of the team, cut
/// with these obstacles. The list need not be the frame's own.
pub fn lies_in_segments()
    ensures { SegmentsDecide }
{}

/// A frame has only one list of segments for a list of obstacles.
pub fn cut_is_unique()
    ensures { CutIsUnique }
{}

/// If a frame's rows are in order of y, the run at a y has exactly the rows at that y. The run
/// between two y has exactly the rows from the first on and below the second.
pub fn runs_have_rows()
    ensures at { RunAtHasRows }
    ensures between { RunBetweenHasRows }
{}
