//! A law on the runs of a team.

ghost use Rattle.lf_repair_team.specs.Runs.{RevisionCountsChanges};

/// A run by accepted commands of a team adds 1 to its revision for each change.
pub fn revision_counts_changes()
    ensures { RevisionCountsChanges }
{}
