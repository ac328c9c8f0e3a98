//! A law on reports.

ghost use Rattle.lf_reports.specs.Reports.{CleanIsLegal};

/// A report of a whole design's cells is clean iff the cells make a fully legal design. A clean
/// report has no unplaced cell and no broken rule.
pub fn clean_is_legal()
    ensures { CleanIsLegal }
{}
