//! The report and the files that a task writes at its end.

ghost use Rattle.std.specs.Prelude.{◌≡◌, ℕ, List, None, Option, IfErr, IfOk, IsTrue, OnErr, OnOk, option_copied, take, true};
ghost use Rattle.std.specs.Io.KnownBytes.{Appends};
ghost use Rattle.lf_cli.specs.Command.{repair_paths};
ghost use Rattle.lf_def.specs.Document.{Document};
ghost use Rattle.lf_floorplan.specs.declared.place.Place.{Place};
ghost use Rattle.lf_floor_model.specs.Places.{AreCommittedPlaces};
ghost use Rattle.lf_floor_model.specs.States.{FloorState};
ghost use Rattle.lf_task_faults.specs.declared.faults.Fault.TheVariants.{Output};
ghost use Rattle.lf_task_designs.specs.Designs.{AreKept};
ghost use Rattle.lf_task_files.specs.Exits.{CanBePut};
ghost use Rattle.lf_task_files.specs.Faults.{ExportFails, IsDone};
ghost use Rattle.lf_task_run.specs.Commands.{kept_text};
ghost use Rattle.lf_task_run.specs.Outputs.{AreNotPut, AreWritten, BlamesOutputs, IsFileOutputFault, IsNotPut, IsPut, WritesExportAlone, WritesNoFile, WritesNoText, is_text_requested};

use crate::command_log::{CommandLog, save_lines};
use lf_cli::RepairFiles;
use lf_floor::Floor;
use lf_io::{OutputFiles, Sink, send};
use lf_legalize::IndexSeeker;
use lf_task_designs::SourceText;
use lf_task_faults::{Fault, OutputKind};
use lf_task_files::{
    ILLEGAL_STATUS, LEGAL_STATUS, check_output_path, save_export, save_to, save_working,
};

/// What a task writes at its end: the command lines, the report and the exit status.
#[derive(Drop)]
pub struct TaskResults {
    pub lines: CommandLog,
    /// The text of the report.
    pub report: Vec<u8>,
    /// The exit status.
    pub status: u8,
}

/// Returns the exit status, given whether the committed design is fully legal.
pub fn status_by(legal: bool) -> u8
    ensures done { IsDone result }
    ensures legal { result ≡ 0 → IsTrue legal }
    ensures illegal { result ≡ 4 → ¬ IsTrue legal }
{
    if legal { LEGAL_STATUS } else { ILLEGAL_STATUS }
}

/// Returns whether one of the requested files is made from the DEF text.
pub fn is_text_requested(files: &RepairFiles<'_>) -> bool
    ensures { result ≡ is_text_requested (repair_paths files.now) }
{
    files.export.is_some() || files.working.is_some()
}

/// Tests whether the requested files can be written, as far as this can be known in advance.
pub(crate) fn try_files<'a, E: OutputFiles>(
    files: &RepairFiles<'a>,
    exports: &mut E,
) -> Result<(), Fault<'a>>
    ensures err { IfErr result (IsFileOutputFault (repair_paths files.now)) }
    ensures fails { IfErr result (λ fault. ExportFails fault (E.has_failed exports.old) (E.has_failed exports.new)) }
    ensures sound { OnOk result (E.has_failed exports.new ≡ E.has_failed exports.old) }
    ensures unput { E.puts exports.new ≡ E.puts exports.old }
    ensures unasked { WritesNoFile (repair_paths files.now) → exports.new ≡ exports.old }
{
    check_output_path(OutputKind::Export, files.export, exports)?;
    check_output_path(OutputKind::Working, files.working, exports)?;
    check_output_path(OutputKind::Lines, files.lines, exports)?;
    check_output_path(OutputKind::Save, files.save, exports)
}

/// Writes the report.
fn put_report<'f, W: Sink>(writer: &mut W, report: &[u8]) -> Result<(), Fault<'f>>
    ensures ok { OnOk result (Appends (W.contents writer.old) (W.contents writer.new) report.now) }
    ensures healthy { OnOk result (W.has_failed writer.new ≡ W.has_failed writer.old) }
    ensures prefix { OnErr result
        ((n : ℕ) × Appends (W.contents writer.old) (W.contents writer.new) (take n report.now)) }
    ensures err { IfErr result (λ fault. fault ≡ Output) }
    ensures failed { OnErr result (W.has_failed writer.new ≡ true) }
    ensures held { W.holds writer.new ≡ W.holds writer.old }
{
    match send(writer, report) {
        Ok(()) => Ok(()),
        Err(_) => Err(Fault::Output),
    }
}

/// Writes the requested files: the text with the committed places, the text with the working
/// places, the command lines, and the state.
fn put_files<'a, E: OutputFiles>(
    floor: &Floor<IndexSeeker>,
    original: Option<&SourceText>,
    lines: &CommandLog,
    files: &RepairFiles<'a>,
    exports: &mut E,
) -> Result<(), Fault<'a>>
    requires kept { original ≡ None → WritesNoText (repair_paths files.now) }
    requires fits { (s : FloorState) (places : List (ℕ × Option Place)) → s.components ≡ floor.now.components
        → AreCommittedPlaces s places
        → CanBePut (option_copied original) places }
    ensures ok { (text : List ℕ) (document : Document) → AreKept (option_copied original.entry) text document
        → OnOk result (AreWritten (repair_paths files.now) text document floor.now
        (kept_text lines.now) (E.puts exports.old) (E.puts exports.new)) }
    ensures err { (text : List ℕ) (document : Document) → AreKept (option_copied original.entry) text document
        → IfErr result (AreNotPut (repair_paths files.now) text document floor.now
        (kept_text lines.now) (E.puts exports.old) (E.puts exports.new)) }
    ensures fails { IfErr result (λ fault. ExportFails fault (E.has_failed exports.old) (E.has_failed exports.new)) }
    ensures sound { OnOk result (E.has_failed exports.new ≡ E.has_failed exports.old) }
    ensures unput { WritesExportAlone (repair_paths files.now)
        → OnErr result (E.puts exports.new ≡ E.puts exports.old) }
    ensures unasked { WritesNoFile (repair_paths files.now) → exports.new ≡ exports.old }
{
    save_export(floor, original, files.export, exports)?;
    save_working(floor, original, files.working, exports)?;
    save_lines(lines, files.lines, exports)?;
    save_to(floor, files.save, exports)
}

/// Writes the report, and then the requested files. Returns the exit status.
///
/// `Err(Output)` if the writer fails; then a prefix of the report and no file is written. At other
/// faults the report and the files in front of the one at fault are written.
pub(crate) fn put_results<'a, E: OutputFiles, W: Sink>(
    floor: &Floor<IndexSeeker>,
    original: Option<&SourceText>,
    done: &TaskResults,
    files: &RepairFiles<'a>,
    exports: &mut E,
    writer: &mut W,
) -> Result<u8, Fault<'a>>
    requires kept { original ≡ None → WritesNoText (repair_paths files.now) }
    requires fits { (s : FloorState) (places : List (ℕ × Option Place)) → s.components ≡ floor.now.components
        → AreCommittedPlaces s places
        → CanBePut (option_copied original) places }
    ensures status { IfOk result (λ status. status ≡ done.now.status) }
    ensures ok { (text : List ℕ) (document : Document) → AreKept (option_copied original.entry) text document
        → OnOk result (IsPut (repair_paths files.now) text document floor.now
        (kept_text done.now.lines)
        done.now.report.items (W.contents writer.old) (W.contents writer.new) (E.puts exports.old)
        (E.puts exports.new)) }
    ensures err { (text : List ℕ) (document : Document) → AreKept (option_copied original.entry) text document
        → IfErr result (IsNotPut (repair_paths files.now) text document floor.now
        (kept_text done.now.lines)
        done.now.report.items (W.contents writer.old) (W.contents writer.new) (E.puts exports.old)
        (E.puts exports.new)) }
    ensures blames { IfErr result
        (λ fault. BlamesOutputs fault (writer.new ≡ writer.old) (W.has_failed writer.old) (W.has_failed writer.new)
        (E.has_failed exports.old) (E.has_failed exports.new)) }
    ensures unput { WritesExportAlone (repair_paths files.now)
        → OnErr result (E.puts exports.new ≡ E.puts exports.old) }
    ensures unasked { WritesNoFile (repair_paths files.now) → exports.new ≡ exports.old }
    ensures held { W.holds writer.new ≡ W.holds writer.old }
{
    put_report(writer, done.report.as_slice())?;
    put_files(floor, original, &done.lines, files, exports)?;
    Ok(done.status)
}
