//! Outputs for a team's text: one counts its bytes, and one stores it.

ghost use Rattle.std.specs.Prelude.{◌≡◌, [], List, ℕ, IfOk, false};
ghost use Rattle.lf_team_def.specs.Lengths.{IsLengthOf};

use lf_io::Output;
use std::alloc::{AllocError, Global};

/// The number of bytes of a text, which is not stored. `None` if and only if it is 2^64 or more.
#[derive(Drop)]
pub(crate) struct Length {
    pub(crate) count: Option<usize>,
}

impl Length {
    /// Returns the length of an empty text.
    pub(crate) fn zero() -> Length
        ensures { ⟦<Length as Output>⟧.took result result [] }
    {
        Length { count: Some(0) }
    }
}

impl Output for Length {
    ghost took = { λ _ now text. IsLengthOf text now.count };

    fn put(&mut self, bytes: &[u8]) {
        self.count = match self.count {
            Some(count) => count.checked_add(bytes.len()),
            None => None,
        };
    }
}

/// A text that is stored whole, unless an allocation failed for a part of it.
#[derive(Drop)]
pub(crate) struct Kept {
    text: Vec<u8>,
    failed: bool,
}

impl Kept {
    /// Returns an empty text with room for this many bytes. `Err` if an allocation fails.
    pub(crate) fn with_capacity(alloc: Global, room: usize) -> Result<Kept, AllocError>
        ensures { IfOk result (λ kept. ⟦<Kept as Output>⟧.took kept kept []) }
    {
        let text = Vec::with_capacity(alloc, room)?;
        Ok(Kept {
            text,
            failed: false,
        })
    }

    /// Returns the text. `Err` if an allocation failed for it.
    pub(crate) fn finish(self) -> Result<Vec<u8>, AllocError>
        ensures { (start : Kept) (text : List ℕ)
            → ⟦<Kept as Output>⟧.took start self text → IfOk result (λ whole. whole.items ≡ text) }
    {
        if self.failed {
            return Err(AllocError);
        }
        Ok(self.text)
    }
}

impl Output for Kept {
    ghost took = { λ _ now text. now.failed ≡ false → now.text.items ≡ text };

    fn put(&mut self, bytes: &[u8]) {
        if !self.failed && self.text.extend_from_slice(bytes).is_err() {
            self.failed = true;
        }
    }
}
