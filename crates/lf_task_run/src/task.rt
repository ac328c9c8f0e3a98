//! A task on the floor of a design: it is opened, worked on, reported and written to files.

ghost use Rattle.std.specs.Prelude.{◌≡◌, ◌+◌, IfErr, IfOk, OnErr, length};
ghost use Rattle.lf_floor_model.specs.States.{FloorState};
ghost use Rattle.lf_task_faults.specs.Faults.{IsEarly};
ghost use Rattle.lf_task_run.specs.Commands.{kept_text};
ghost use Rattle.lf_task_run.specs.Outputs.{BlamesOutputs, WritesExportAlone, WritesNoFile};
ghost use Rattle.lf_task_run.specs.Tasks.{IsBegun, IsTaskDone, IsTaskNotDone, IsWorkDone, Means, request_of};
ghost use Rattle.lf_task_run.specs.Teams.{AreKnown};

use crate::progress::Progress;
use crate::results::{TaskResults, put_results, try_files};
use crate::selected_teams::all_known;
use lf_cli::RepairFiles;
use lf_floor::Floor;
use lf_floor_model::places_follow_design;
use lf_io::{OutputFiles, Sink};
use lf_laws_roundtrip::loaded_cells_are_exportable;
use lf_legalize::IndexSeeker;
use lf_task_designs::{InputFiles, SourceText};
use lf_task_faults::Fault;
use lf_task_files::DesignInput;
use lf_write::kept_clauses_suffice;
use std::alloc::Global;

/// What is requested of a task on a floor.
#[derive(Clone, Copy)]
pub struct Job<'a> {
    /// The files of the design, the state with which the work begins, and the limits of the design.
    pub input: DesignInput<'a>,
    /// The names of the selected teams. All teams are selected if it is empty.
    pub teams: &'a [&'a str],
    /// The paths of the files to write.
    pub files: RepairFiles<'a>,
}

/// A design that is opened for a work.
#[derive(Drop)]
pub struct Begun<O> {
    /// The floor with which the work begins.
    pub floor: Floor<IndexSeeker>,
    /// The DEF text, if one of the requested files is made from it.
    pub original: Option<SourceText>,
    /// What the work needs besides the floor.
    pub opened: O,
}

/// A work on the floor of a design.
pub trait Work {
    /// What is opened besides the floor.
    type Opened: Drop;

    /// What the work means.
    ghost means: { Self → Means Self.Opened };

    /// What the work needs to know of the floor with which it begins, and of what is opened with it.
    ghost needs: { Self → FloorState → Self.Opened → Type 0 };

    /// Opens the design of the job. Nothing is written.
    fn open<'f, T: InputFiles>(
        &self,
        alloc: Global,
        texts: &T,
        job: &Job<'f>,
    ) -> Result<Begun<Self::Opened>, Fault<'f>>
        ensures ok { IfOk result (IsBegun (means self.now).opens (T.gives texts.now) (request_of job.now)) }
        ensures ready { IfOk result (λ begun. needs self.now begun.floor begun.opened) }
        ensures err { IfErr result ((means self.now).refuses (T.gives texts.now) (request_of job.now)) }
        ensures early { IfErr result IsEarly };

    /// Does the work by commands to the floor. `Err` if an allocation fails, or if the floor refuses a
    /// command without which a team cannot be worked on.
    fn run<'f, P: Progress>(
        &self,
        alloc: Global,
        floor: &mut Floor<IndexSeeker>,
        opened: &Self::Opened,
        job: &Job<'f>,
        progress: &mut P,
    ) -> Result<TaskResults, Fault<'f>>
        requires whole { length floor.old.teams ≡ length floor.old.frame.teams + 1 }
        requires ready { needs self.now floor.old opened.now }
        requires known { AreKnown floor.old.frame (request_of job.now).teams }
        ensures ok { IfOk result (λ done. IsWorkDone (means self.now) (request_of job.now) opened.now
            floor.old floor.new (kept_text done.lines) done.report.items done.status) }
        ensures err { IfErr result ((means self.now).fails (request_of job.now).teams floor.old) }
        ensures early { IfErr result IsEarly };
}

/// Returns whether a cell's working place is not its committed one.
fn has_uncommitted(floor: &Floor<IndexSeeker>) -> bool {
    let cells = floor.placement().cells();
    for id in cells.cell_ids() {
        if cells.working(*id) != cells.committed(*id) {
            return true;
        }
    }
    false
}

/// Reports which of the written texts lacks places, or has places that are not committed.
fn note_uncommitted<P: Progress>(
    floor: &Floor<IndexSeeker>,
    files: &RepairFiles<'_>,
    progress: &mut P,
) {
    if !has_uncommitted(floor) {
        return;
    }
    if let Some(path) = files.working {
        progress.uncommitted_in(path);
    } else if let Some(path) = files.export {
        progress.uncommitted_outside(path);
    }
}

/// Does this work on the design of the job.
///
/// Writes the report and then the requested files. Returns the exit status: 0, or 4 if the committed
/// design is not fully legal. `Err` is the first fault in this order:
///
/// - what the work opens: the files, the design, the state, and what the work needs besides
/// - a name that is not a team's
/// - the paths of the requested files
/// - memory, or a command that the floor refuses
/// - the writer
/// - the requested files: the texts with the committed and with the working places, the command
///   lines, and the state
///
/// If a file is at fault after the work, those in front of it and all of the report are written. At
/// other faults no file is written. If the writer is at fault, a prefix of the report is written.
pub fn run_task<'a, T: InputFiles, E: OutputFiles, W: Sink, P: Progress, K: Work>(
    alloc: Global,
    texts: &T,
    exports: &mut E,
    writer: &mut W,
    progress: &mut P,
    job: &Job<'a>,
    work: &K,
) -> Result<u8, Fault<'a>>
    ensures ok { IfOk result (IsTaskDone (K.means work.now) (T.gives texts.now) (request_of job.now)
        (W.contents writer.old) (W.contents writer.new) (E.puts exports.old) (E.puts exports.new)) }
    ensures err { IfErr result (λ fault. IsTaskNotDone (K.means work.now) (T.gives texts.now) (request_of job.now)
        (W.contents writer.old) (W.contents writer.new) (E.puts exports.old) (E.puts exports.new) fault
        × BlamesOutputs fault (writer.new ≡ writer.old) (W.has_failed writer.old) (W.has_failed writer.new)
        (E.has_failed exports.old) (E.has_failed exports.new)) }
    ensures unput { WritesExportAlone (request_of job.now).files
        → OnErr result (E.puts exports.new ≡ E.puts exports.old) }
    ensures unasked { WritesNoFile (request_of job.now).files → exports.new ≡ exports.old }
    ensures held { W.holds writer.new ≡ W.holds writer.old }
{
    kept_clauses_suffice();
    loaded_cells_are_exportable();
    places_follow_design();
    let mut begun = work.open(alloc, texts, job)?;
    all_known(&begun.floor, job.teams)?;
    try_files(&job.files, exports)?;
    let results = work.run(alloc, &mut begun.floor, &begun.opened, job, progress)?;
    let original = begun.original.as_ref();
    let status = put_results(
        &begun.floor,
        original,
        &results,
        &job.files,
        exports,
        writer,
    )?;
    note_uncommitted(&begun.floor, &job.files, progress);
    Ok(status)
}
