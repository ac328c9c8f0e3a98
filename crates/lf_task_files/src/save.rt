//! The saved state: a text from which the floor is restored.

ghost use Rattle.std.specs.Prelude.{◌≡◌, None, IfErr, OnErr, OnOk};
ghost use Rattle.std.specs.Io.KnownBytes.{Appends};
ghost use Rattle.lf_floor.specs.SavedStates.{state_text_of};
ghost use Rattle.lf_task_files.specs.Faults.{ExportFails, IsOutputFault};
ghost use Rattle.lf_task_files.specs.States.{IsSaved};
ghost use Rattle.lf_task_files.specs.Inputs.{path_of};

use crate::output_file::put_file;
use lf_floor::{Floor, StateSnapshot};
use lf_io::{Output, OutputFiles, TextSource};
use lf_legalize::IndexSeeker;
use lf_task_faults::{Fault, OutputKind};
use std::io;
use std::io::Write;
use std::marker::Model;

/// An output into a writer. After a write has failed, no other is made.
#[derive(Drop)]
struct WriterOutput<'a, W> {
    writer: &'a mut W,
    /// The error of the first write that failed.
    fault: Option<io::Error>,
}

impl<'a, W: Write> Output for WriterOutput<'a, W> {
    ghost took = { λ start now text. (now.writer.ghost_name ≡ start.writer.ghost_name)
        × (now.fault ≡ None → Appends (W.contents start.writer.now) (W.contents now.writer.now) text) };

    fn put(&mut self, bytes: &[u8]) {
        if self.fault.is_some() {
            return;
        }
        self.fault = self.writer.write_all(bytes).err();
    }
}

/// Writes the text of the state to the output.
fn write_snapshot_to<W: Write>(writing: &mut WriterOutput<'_, W>, state: &StateSnapshot<'_>)
    requires { writing.old.fault ≡ None }
    ensures same { writing.new.writer.ghost_name ≡ writing.old.writer.ghost_name }
    ensures text { writing.new.fault ≡ None
        → Appends (W.contents writing.old.writer.now) (W.contents writing.new.writer.now) (state_text_of state.now) }
{
    state.write_text(writing);
}

/// Writes the text of the state, in chunks.
fn write_snapshot<W: Write>(writer: &mut W, state: &StateSnapshot<'_>) -> io::Result<()>
    ensures { OnOk result (Appends (W.contents writer.old) (W.contents writer.new) (state_text_of state.now)) }
{
    let mut writing = WriterOutput {
        writer,
        fault: None,
    };
    write_snapshot_to(&mut writing, state);
    match writing.fault {
        None => Ok(()),
        Some(error) => Err(error),
    }
}

/// The text of a state, written from the floor.
///
/// Contracts see the state.
#[derive(Drop)]
struct StateText<'a> {
    state: StateSnapshot<'a>,
}

impl<'a> TextSource for StateText<'a> {
    ghost text = { λ s. state_text_of s.state };

    fn write_to<W: Write>(&self, writer: &mut W) -> io::Result<()> {
        write_snapshot(writer, &self.state)
    }
}

/// Writes the state of the floor to the file of this path, if one is given.
pub fn save_to<'a, E: OutputFiles>(
    floor: &Floor<IndexSeeker>,
    path: Option<&'a str>,
    exports: &mut E,
) -> Result<(), Fault<'a>>
    ensures ok { OnOk result (IsSaved (path_of path.entry) floor.now (E.puts exports.old) (E.puts exports.new)) }
    ensures err { IfErr result (IsOutputFault OutputKind.Save (path_of path.entry)) }
    ensures fails { IfErr result (λ fault. ExportFails fault (E.has_failed exports.old) (E.has_failed exports.new)) }
    ensures sound { OnOk result (E.has_failed exports.new ≡ E.has_failed exports.old) }
    ensures unput { OnErr result (E.puts exports.new ≡ E.puts exports.old) }
    ensures unasked { path_of path.entry ≡ None → exports.new ≡ exports.old }
{
    let Some(path) = path else {
        return Ok(());
    };
    let text = StateText {
        state: floor.snapshot(),
    };
    put_file(OutputKind::Save, path, &text, exports)
}
