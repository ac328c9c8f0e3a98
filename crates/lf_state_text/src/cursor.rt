//! The unread rest of a text in chunks.

ghost use Rattle.std.specs.Prelude.{◌≤◌, length};

use std::alloc::Global;
use std::collections::VecDeque;

/// The unread rest of a text in chunks: the rest of the current chunk, and the chunks after it. It
/// counts the line feeds of the bytes that were dropped.
#[derive(Drop)]
pub(crate) struct Cursor {
    pub(crate) alloc: Global,
    /// The number of line feeds that were dropped.
    pub(crate) lines: usize,
    pub(crate) piece: Vec<u8>,
    /// The number of bytes of the chunk that were read.
    pub(crate) at: usize,
    pub(crate) later: VecDeque<Vec<u8>>,
    pub(crate) ghost within: { at ≤ length piece.items },
}
