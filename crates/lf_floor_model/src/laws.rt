//! Laws on whole runs.

ghost use Rattle.lf_floor_model.specs.Laws.{OthersDoNotMatter, OtherDesignsDoNotMatter, RunIsIsolated};
ghost use Rattle.lf_floor_model.specs.Journals.{QueriesAndRefusalsAreOmittable, JournalRestores, TeamsInAnyOrder};

/// In each run, each team's replies and its last state are those of its own commands alone, run in
/// order from its first state. A command with the reply `OutOfMemory` counts as not sent.
pub fn run_is_isolated()
    ensures { RunIsIsolated }
{}

/// A team that begins in the same state and sends the same commands gets the same replies and ends
/// in the same state, whatever the other teams have and send.
pub fn others_do_not_matter()
    ensures { OthersDoNotMatter }
{}

/// The same holds for two loaded designs with one frame in which the team has the same cells,
/// whatever cells the other teams have.
pub fn other_designs_do_not_matter()
    ensures { OtherDesignsDoNotMatter }
{}

/// Refused commands (`OutOfMemory` included) and queries (bye, check, def, where, find) can be left
/// out of a run. Any of them may be dropped: the remaining commands get the same replies and end in
/// the same floor.
pub fn queries_and_refusals_are_omittable()
    ensures { QueriesAndRefusalsAreOmittable }
{}

/// The journal of a run, its accepted commands without the queries, is a complete backup. If it is
/// run from the first floor, with memory for each command, it gets the same replies and ends in the
/// same floor.
pub fn journal_restores()
    ensures { JournalRestores }
{}

/// Two runs from one floor in which each team is sent the same commands end in the same floor. The
/// order of commands to different teams does not matter. So the journals of the teams may be run
/// one after the other.
pub fn teams_in_any_order()
    ensures { TeamsInAnyOrder }
{}
