//! Texts that are written in chunks.

ghost use Rattle.std.specs.Prelude.{ℕ, List, IfOk, OnOk};
ghost use Rattle.std.specs.Io.KnownBytes.{Appends};

use std::alloc::Global;
use std::io;
use std::io::{BufWriter, Write};

/// The number of bytes of small chunks that are written at once.
const WAITING: usize = 65_536;

/// A text that need not be in memory as a whole.
pub trait TextSource {
    /// The whole text.
    ghost text: { Self → List ℕ };

    /// Writes the whole text, in as many chunks as needed. On success the writer's bytes, if known,
    /// end with the text. `Err` if a write fails; then a part of the text may be written.
    fn write_to<W: Write>(&self, writer: &mut W) -> io::Result<()>
        ensures { OnOk result (Appends (W.contents writer.old) (W.contents writer.new) (text self.now)) };
}

/// Writes the whole text, small chunks together, and returns the writer.
pub(crate) fn with_buffer<P: TextSource, W: Write + Drop>(
    alloc: Global,
    writer: W,
    text: &P,
) -> io::Result<W>
    ensures { IfOk result (λ new. Appends (W.contents writer) (W.contents new) (P.text text.now)) }
{
    let mut waiting = BufWriter::with_capacity(alloc, WAITING, writer)?;
    text.write_to(&mut waiting)?;
    match waiting.into_inner() {
        Ok(writer) => Ok(writer),
        Err(error) => Err(error.into_error()),
    }
}
