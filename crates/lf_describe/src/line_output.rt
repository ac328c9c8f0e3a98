//! Lines written to a sink through a buffer.

ghost use Rattle.std.specs.Prelude.{◌≡◌, ◌++◌, ◌||◌, [], false, OnErr, OnOk};
ghost use Rattle.std.specs.Io.KnownBytes.{Appends};
ghost use Rattle.serde_json.specs.View.{view};
ghost use Rattle.serde_json.specs.Written.{has_float};
ghost use Rattle.lf_describe.specs.Description.{line_text};
ghost use Rattle.lf_describe.specs.Written.{AppendsFront, WritesFrontOf, is_line_output};

use lf_io::{Sink, send};
use serde_json::Value;
use std::alloc::{AllocError, Global};

/// The buffered bytes at which the buffer is written. The last line may exceed this.
const ROOM: usize = 65_536;

/// Why lines were not written.
#[derive(Clone, Copy, Debug, PartialEq, Eq)]
pub(crate) enum LineFault {
    /// An allocation failed.
    OutOfMemory,
    /// The writer failed.
    Output,
}

/// Sends the bytes to the writer. If it fails, a front of them is written.
fn put_bytes<W: Sink>(writer: &mut W, bytes: &[u8]) -> Result<(), LineFault>
    ensures ok { OnOk result (Appends (W.contents writer.old) (W.contents writer.new) bytes.now) }
    ensures err { OnErr result (AppendsFront (W.contents writer.old) (W.contents writer.new) bytes.now) }
    ensures failed { W.has_failed writer.new ≡ (is_line_output result || W.has_failed writer.old) }
    ensures held { W.holds writer.new ≡ W.holds writer.old }
{
    match send(writer, bytes) {
        Ok(()) => Ok(()),
        Err(_) => Err(LineFault::Output),
    }
}

/// Sends all buffered bytes to the writer, and empties the buffer.
fn flush_buffer<W: Sink>(writer: &mut W, waiting: &mut Vec<u8>) -> Result<(), LineFault>
    ensures ok { OnOk result
        (WritesFrontOf (W.contents writer.old) (W.contents writer.new) waiting.old.items waiting.new.items) }
    ensures none { OnOk result (waiting.new.items ≡ []) }
    ensures err { OnErr result (AppendsFront (W.contents writer.old) (W.contents writer.new) waiting.old.items) }
    ensures failed { W.has_failed writer.new ≡ (is_line_output result || W.has_failed writer.old) }
    ensures held { W.holds writer.new ≡ W.holds writer.old }
{
    put_bytes(writer, waiting.as_slice())?;
    waiting.clear();
    Ok(())
}

/// Appends the text of the value and a line feed to the buffer. `Err` if an allocation fails.
fn push_line(alloc: Global, waiting: &mut Vec<u8>, value: &Value) -> Result<(), AllocError>
    requires { has_float (view value.now) ≡ false }
    ensures { OnOk result (waiting.new.items ≡ waiting.old.items ++ line_text (view value.now)) }
{
    let text = value.to_string(alloc)?;
    waiting.extend_from_slice(text.as_bytes())?;
    waiting.push(b'\n')?;
    Ok(())
}

/// Writes the value as a line, after the buffered bytes. Bytes may remain in the buffer.
pub(crate) fn put_line<W: Sink>(
    alloc: Global,
    writer: &mut W,
    waiting: &mut Vec<u8>,
    value: &Value,
) -> Result<(), LineFault>
    requires { has_float (view value.now) ≡ false }
    ensures ok { OnOk result (WritesFrontOf (W.contents writer.old) (W.contents writer.new)
        (waiting.old.items ++ line_text (view value.now)) waiting.new.items) }
    ensures err { OnErr result (AppendsFront (W.contents writer.old) (W.contents writer.new)
        (waiting.old.items ++ line_text (view value.now))) }
    ensures failed { W.has_failed writer.new ≡ (is_line_output result || W.has_failed writer.old) }
    ensures held { W.holds writer.new ≡ W.holds writer.old }
{
    let Ok(()) = push_line(alloc, waiting, value) else {
        return Err(LineFault::OutOfMemory);
    };
    if waiting.len() < ROOM {
        return Ok(());
    }
    flush_buffer(writer, waiting)
}

/// Writes all buffered bytes.
pub(crate) fn put_last<W: Sink>(writer: &mut W, waiting: &Vec<u8>) -> Result<(), LineFault>
    ensures ok { OnOk result (Appends (W.contents writer.old) (W.contents writer.new) waiting.now.items) }
    ensures err { OnErr result (AppendsFront (W.contents writer.old) (W.contents writer.new) waiting.now.items) }
    ensures failed { W.has_failed writer.new ≡ (is_line_output result || W.has_failed writer.old) }
    ensures held { W.holds writer.new ≡ W.holds writer.old }
{
    put_bytes(writer, waiting.as_slice())
}
