//! Keeps the command lines of a task if they are requested, and writes them to their file at the end.

ghost use Rattle.std.specs.Prelude.{◌≡◌, None, IfErr, OnErr, OnOk, option_map};
ghost use Rattle.std.specs.Io.KnownBytes.{Appends, Keeps};
ghost use Rattle.lf_task_files.specs.Faults.{ExportFails, IsOutputFault};
ghost use Rattle.lf_task_files.specs.Inputs.{path_of};
ghost use Rattle.lf_task_run.specs.Commands.{WritesLines, initial_lines, kept_bytes, kept_text};

use lf_io::{DeviceFault, OutputFiles, Sink, TextSource};
use lf_task_faults::{Fault, OutputKind};
use lf_task_files::put_file;
use std::alloc::{AllocError, Global};
use std::io;
use std::io::Write;

/// Command lines, which are kept if they are requested.
#[derive(Drop)]
pub struct CommandLog {
    /// The text of the lines so far. `None` if they are not requested.
    kept: Option<Vec<u8>>,
    flushed: bool,
    failed: bool,
}

impl CommandLog {
    /// A log without lines. Lines are kept if there is a path for them.
    pub fn new(alloc: Global, path: Option<&str>) -> CommandLog
        ensures { kept_text result ≡ initial_lines (path_of path.entry) }
    {
        let kept = match path {
            Some(_) => Some(Vec::new(alloc)),
            None => None,
        };
        CommandLog {
            kept,
            flushed: true,
            failed: false,
        }
    }
}

/// Appends the bytes if lines are kept. `Err` if an allocation fails; then nothing is changed.
fn keep(kept: &mut Option<Vec<u8>>, bytes: &[u8]) -> Result<(), AllocError>
    ensures ok { OnOk result
        (Appends (option_map (λ text. text.items) kept.old) (option_map (λ text. text.items) kept.new) bytes.now) }
    ensures err { OnErr result
        (Keeps (option_map (λ text. text.items) kept.old) (option_map (λ text. text.items) kept.new)) }
{
    match kept {
        Some(text) => text.extend_from_slice(bytes),
        None => Ok(()),
    }
}

impl Sink for CommandLog {
    ghost contents = { λ s. option_map (λ text. text.items) s.kept };

    ghost is_flushed = { λ s. s.flushed };

    ghost has_failed = { λ s. s.failed };

    fn write(&mut self, bytes: &[u8]) -> Result<usize, DeviceFault> {
        self.flushed = false;
        match keep(&mut self.kept, bytes) {
            Ok(()) => Ok(bytes.len()),
            Err(_) => {
                self.failed = true;
                Err(DeviceFault)
            }
        }
    }

    fn flush(&mut self) -> Result<(), DeviceFault> {
        self.flushed = true;
        Ok(())
    }
}

/// The bytes of the lines.
fn bytes_of(lines: &CommandLog) -> &[u8]
    ensures { result.now ≡ kept_bytes (kept_text lines.now) }
{
    match &lines.kept {
        Some(text) => text.as_slice(),
        None => b"",
    }
}

/// A text that is in memory as a whole.
#[derive(Clone, Copy)]
struct WholeText<'a> {
    bytes: &'a [u8],
}

impl<'a> TextSource for WholeText<'a> {
    ghost text = { λ t. t.bytes.now };

    fn write_to<W: Write>(&self, writer: &mut W) -> io::Result<()> {
        writer.write_all(self.bytes)
    }
}

/// Writes the lines to the file at this path, if one is given.
pub(crate) fn save_lines<'a, E: OutputFiles>(
    lines: &CommandLog,
    path: Option<&'a str>,
    exports: &mut E,
) -> Result<(), Fault<'a>>
    ensures ok { OnOk result
        (WritesLines (path_of path.entry) (kept_text lines.now) (E.puts exports.old) (E.puts exports.new)) }
    ensures err { IfErr result (IsOutputFault OutputKind.Lines (path_of path.entry)) }
    ensures fails { IfErr result (λ fault. ExportFails fault (E.has_failed exports.old) (E.has_failed exports.new)) }
    ensures sound { OnOk result (E.has_failed exports.new ≡ E.has_failed exports.old) }
    ensures unput { OnErr result (E.puts exports.new ≡ E.puts exports.old) }
    ensures unasked { path_of path.entry ≡ None → exports.new ≡ exports.old }
{
    let Some(path) = path else {
        return Ok(());
    };
    let text = WholeText {
        bytes: bytes_of(lines),
    };
    put_file(OutputKind::Lines, path, &text, exports)
}
