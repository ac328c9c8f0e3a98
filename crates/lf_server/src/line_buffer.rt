//! The buffer for the text of a line.

ghost use Rattle.std.specs.Prelude.{◌≡◌, ◌≤◌, ◌+◌, ◌++◌, [], IfOk, length, vec_capacity, vec_len};

use std::alloc::{AllocError, Global};

/// The bytes of a DEF text that are written at once, at least those of a line.
const PIECE: usize = 65_536;

/// Appends bytes to a buffer that has room for them.
pub(crate) fn put(out: &mut Vec<u8>, bytes: &[u8])
    requires room { vec_len out.old + length bytes.now ≤ vec_capacity out.old }
    ensures items { out.new.items ≡ out.old.items ++ bytes.now }
    ensures len { vec_len out.new ≡ vec_len out.old + length bytes.now }
    ensures capacity { vec_capacity out.old ≤ vec_capacity out.new }
{
    if out.extend_from_slice(bytes).is_err() {
        unreachable!();
    }
}

/// A buffer with room for a line, and for a reply that is neither a report nor a DEF text: 4,096
/// bytes.
#[derive(Drop)]
pub(crate) struct LineBuffer {
    pub(crate) bytes: Vec<u8>,
    pub(crate) ghost room: { 4096 ≤ vec_capacity bytes },
}

impl LineBuffer {
    /// Returns an empty buffer. `Err` if an allocation fails.
    pub(crate) fn empty(alloc: Global) -> Result<LineBuffer, AllocError>
        ensures { IfOk result (λ buffer. buffer.bytes.items ≡ []) }
    {
        let bytes = Vec::with_capacity(alloc, PIECE)?;
        Ok(LineBuffer { bytes })
    }
}
