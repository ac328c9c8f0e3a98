//! A file that a task writes: its path is tried, and its text is written.

ghost use Rattle.std.specs.Prelude.{◌≡◌, ◌||◌, Bool, None, Some, IfErr, OnErr, OnOk};
ghost use Rattle.lf_io.specs.Shelf.{PutsFile, is_file};
ghost use Rattle.lf_task_files.specs.Faults.{ExportFails, IsOutputFault, output_fault};
ghost use Rattle.lf_task_files.specs.Inputs.{path_of};

use lf_io::{OutputFiles, TextSource, WriteFailure};
use lf_task_faults::{Fault, OutputKind};

/// Makes the fault of a file of this kind that is not written to this path.
fn output_fault<'f>(kind: OutputKind, path: &'f str, unwritten: WriteFailure) -> Fault<'f>
    ensures reported { result ≡ output_fault kind path.entry unwritten }
    ensures fault { IsOutputFault kind (Some path.now) result }
    ensures fails { (before now : Bool) → now ≡ (is_file unwritten || before) → ExportFails result before now }
{
    match unwritten {
        WriteFailure::File(why) => Fault::NotWritten(kind, path, why),
        WriteFailure::OutOfMemory => Fault::OutputOutOfMemory,
    }
}

/// Checks that a file of this kind can be written to this path, if one is given, as far as this can
/// be known in advance.
pub fn check_output_path<'a, E: OutputFiles>(
    kind: OutputKind,
    path: Option<&'a str>,
    exports: &mut E,
) -> Result<(), Fault<'a>>
    ensures err { IfErr result (IsOutputFault kind (path_of path.entry)) }
    ensures fails { IfErr result (λ fault. ExportFails fault (E.has_failed exports.old) (E.has_failed exports.new)) }
    ensures sound { OnOk result (E.has_failed exports.new ≡ E.has_failed exports.old) }
    ensures unput { E.puts exports.new ≡ E.puts exports.old }
    ensures unasked { path_of path.entry ≡ None → exports.new ≡ exports.old }
{
    match path {
        None => Ok(()),
        Some(path) => match exports.try_path(path) {
            Ok(()) => Ok(()),
            Err(unwritten) => Err(output_fault(kind, path, unwritten)),
        },
    }
}

/// Writes the text to the file of this path, which is of this kind. `Err` if the file cannot be
/// written, or an allocation fails. Then no text is written.
pub fn put_file<'a, E: OutputFiles, P: TextSource>(
    kind: OutputKind,
    path: &'a str,
    text: &P,
    exports: &mut E,
) -> Result<(), Fault<'a>>
    ensures ok { OnOk result (PutsFile (E.puts exports.old) (E.puts exports.new) path.now (P.text text.now)) }
    ensures err { IfErr result (IsOutputFault kind (Some path.now)) }
    ensures fails { IfErr result (λ fault. ExportFails fault (E.has_failed exports.old) (E.has_failed exports.new)) }
    ensures sound { OnOk result (E.has_failed exports.new ≡ E.has_failed exports.old) }
    ensures unput { OnErr result (E.puts exports.new ≡ E.puts exports.old) }
{
    match exports.put(path, text) {
        Ok(()) => Ok(()),
        Err(unwritten) => Err(output_fault(kind, path, unwritten)),
    }
}
