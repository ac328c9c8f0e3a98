//! The journal of a file, run on a floor.

ghost use Rattle.std.specs.Prelude.{◌≡◌, IfErr, OnOk, map};
ghost use Rattle.lf_server.specs.Connections.{KeepsDesign};
ghost use Rattle.lf_task_faults.specs.declared.faults.TextKind.TheVariants.{Journal};
ghost use Rattle.lf_task_files.specs.Inputs.{path_of};
ghost use Rattle.lf_task_journal.specs.Journals.{IsJournalFault, RunsJournalFile};

use crate::names::{line_of_files, name_of_state};
use lf_floor::Floor;
use lf_journal_run::{Beginning, RunError, run_journal};
use lf_legalize::IndexSeeker;
use lf_task_designs::{InputFiles, read_text};
use lf_task_faults::{Fault, TextFile, TextKind};
use lf_task_files::DesignInput;
use std::alloc::Global;

/// Makes the description of a journal.
fn journal_file(path: &str) -> TextFile<'_>
    ensures kind { result.kind ≡ Journal }
    ensures path { result.path.now ≡ path.now }
{
    TextFile {
        kind: TextKind::Journal,
        path,
    }
}

/// Runs the journal of the file `journal` on the floor of this input.
///
/// `Err` if a file cannot be read, an allocation fails, or the journal is refused.
pub(crate) fn run_journal_file<'a, T: InputFiles>(
    alloc: Global,
    texts: &T,
    floor: &mut Floor<IndexSeeker>,
    input: DesignInput<'a>,
    journal: &'a str,
) -> Result<(), Fault<'a>>
    ensures stays { KeepsDesign floor.old floor.new }
    ensures ok { OnOk result (RunsJournalFile input.entry.limits (T.gives texts.now) input.entry.def.now
        (map (λ lef. lef.now) input.entry.lefs.now) (path_of input.entry.state) journal.now floor.old floor.new) }
    ensures err { IfErr result (IsJournalFault input.entry.limits (T.gives texts.now) input.entry.def.now
        (map (λ lef. lef.now) input.entry.lefs.now) (path_of input.entry.state) journal.now floor.old) }
{
    let line = line_of_files(alloc, texts, input.def, input.lefs, input.limits.sessions)?;
    let state = name_of_state(alloc, texts, input.state)?;
    let text = read_text(texts, journal_file(journal))?;
    let due = Beginning {
        design: &line,
        state: &state,
    };
    match run_journal(alloc, floor, &text, due) {
        Ok(()) => Ok(()),
        Err(RunError::Memory) => Err(Fault::SetupOutOfMemory),
        Err(RunError::Refused(refusal)) => Err(Fault::RefusedJournal(journal, refusal)),
    }
}
