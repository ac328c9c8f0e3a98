//! The files that are written after the lines were answered: the exported text, and then the state.

ghost use Rattle.std.specs.Prelude.{◌≡◌, ◌⊎◌, ℕ, List, None, Option, IfErr, OnErr, OnOk, option_copied};
ghost use Rattle.lf_def.specs.Document.{Document};
ghost use Rattle.lf_io.specs.Shelf.{Put};
ghost use Rattle.lf_floorplan.specs.declared.place.Place.{Place};
ghost use Rattle.lf_floor_model.specs.Places.{AreCommittedPlaces};
ghost use Rattle.lf_task_designs.specs.Designs.{AreKept};
ghost use Rattle.lf_task_files.specs.Exits.{CanBePut, IsExported};
ghost use Rattle.lf_task_files.specs.Faults.{ExportFails, IsOutputFault};
ghost use Rattle.lf_task_files.specs.States.{IsSaved};
ghost use Rattle.lf_task_files.specs.Inputs.{path_of};

use crate::export::save_export;
use crate::output_file::check_output_path;
use crate::save::save_to;
use lf_floor::Floor;
use lf_io::OutputFiles;
use lf_legalize::IndexSeeker;
use lf_task_designs::SourceText;
use lf_task_faults::{Fault, OutputKind};

/// The paths of the files to write, each if requested.
#[derive(Clone, Copy)]
pub struct OutputPaths<'a> {
    /// The path of the exported text.
    pub export: Option<&'a str>,
    /// The path of the state.
    pub save: Option<&'a str>,
}

/// Checks that the requested files can be written, as far as this can be known in advance.
pub fn check_outputs<'a, E: OutputFiles>(
    outputs: OutputPaths<'a>,
    exports: &mut E,
) -> Result<(), Fault<'a>>
    ensures err { IfErr result (λ fault. IsOutputFault OutputKind.Export (path_of outputs.entry.export) fault
        ⊎ IsOutputFault OutputKind.Save (path_of outputs.entry.save) fault) }
    ensures fails { IfErr result (λ fault. ExportFails fault (E.has_failed exports.old) (E.has_failed exports.new)) }
    ensures sound { OnOk result (E.has_failed exports.new ≡ E.has_failed exports.old) }
    ensures unput { E.puts exports.new ≡ E.puts exports.old }
    ensures unasked { path_of outputs.entry.save ≡ None → path_of outputs.entry.export
        ≡ None → exports.new ≡ exports.old }
{
    check_output_path(OutputKind::Export, outputs.export, exports)?;
    check_output_path(OutputKind::Save, outputs.save, exports)
}

/// Writes the requested files: the exported text, and then the state of the floor. `original` is
/// the DEF text, which is needed to export.
pub fn write_outputs<'a, E: OutputFiles>(
    floor: &Floor<IndexSeeker>,
    original: Option<&SourceText>,
    outputs: OutputPaths<'a>,
    exports: &mut E,
) -> Result<(), Fault<'a>>
    requires kept { original ≡ None → path_of outputs.export ≡ None }
    requires fits { (places : List (ℕ × Option Place)) → AreCommittedPlaces floor.now places
        → CanBePut (option_copied original) places }
    ensures ok { (text : List ℕ) (document : Document) → AreKept (option_copied original.entry) text document
        → OnOk result ((between : Option (List Put))
        × IsExported (path_of outputs.entry.export) text document floor.now (E.puts exports.old) between
        × IsSaved (path_of outputs.entry.save) floor.now between (E.puts exports.new)) }
    ensures err { (text : List ℕ) (document : Document) → AreKept (option_copied original.entry) text document
        → IfErr result (λ fault. (IsOutputFault OutputKind.Export (path_of outputs.entry.export) fault
        × (E.puts exports.new ≡ E.puts exports.old))
        ⊎ (IsOutputFault OutputKind.Save (path_of outputs.entry.save) fault
        × IsExported (path_of outputs.entry.export) text document floor.now (E.puts exports.old)
        (E.puts exports.new))) }
    ensures fails { IfErr result (λ fault. ExportFails fault (E.has_failed exports.old) (E.has_failed exports.new)) }
    ensures sound { OnOk result (E.has_failed exports.new ≡ E.has_failed exports.old) }
    ensures unput { path_of outputs.entry.save ≡ None → OnErr result (E.puts exports.new ≡ E.puts exports.old) }
    ensures unasked { path_of outputs.entry.save ≡ None → path_of outputs.entry.export
        ≡ None → exports.new ≡ exports.old }
{
    save_export(floor, original, outputs.export, exports)?;
    save_to(floor, outputs.save, exports)
}
