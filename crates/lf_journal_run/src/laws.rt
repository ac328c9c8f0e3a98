//! Laws of the run of a journal.

ghost use Rattle.lf_journal_run.specs.Laws.{JournalsRun};

use lf_server::serving_runs;

/// A law: the floor of a journal is that of a run of the lines of its records. What holds of runs
/// therefore holds of journals.
pub fn journals_run()
    ensures { JournalsRun }
{
    serving_runs();
}
