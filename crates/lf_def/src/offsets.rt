//! The offsets of a component's placement clause and `;`, in few bytes.

ghost use Rattle.std.specs.Prelude.{◌≡◌, IfOk, IfErr, IfSome, IfNone};
ghost use Rattle.lf_def.specs.Stored.{OffsetsFit, OffsetFits, offsets_of};

use std::alloc::{AllocError, Global};
use std::marker::Model;

/// The offsets of a component's placement clause and its `;` in the text.
#[derive(Clone, Copy, Debug, PartialEq, Eq)]
pub struct Offsets {
    /// The offset of the clause's `+`, or 0 if there is no clause.
    pub start: usize,
    /// The offset after the clause's last token, or 0 if there is no clause.
    pub stop: usize,
    pub semicolon: usize,
}

/// The storage of offsets: in place if each fits into 32 bits, otherwise on the heap.
#[derive(Drop)]
enum Kept {
    Near {
        start: u32,
        stop: u32,
        semicolon: u32,
    },
    Far(Box<Offsets>),
}

/// Offsets in 16 bytes, with 24 more on the heap if one of them needs more than 32 bits.
#[derive(Drop)]
pub struct PackedOffsets {
    kept: Kept,
}

impl Model for PackedOffsets {
    ghost use Rattle.lf_def.specs.declared.offsets.Offsets.{Offsets};
    ghost use Rattle.lf_def.specs.Stored.{offsets_of};

    ghost Value = { Offsets };

    ghost view = { λ p. offsets_of p.kept };
}

/// Returns the offset in 32 bits, or `None` if it needs more.
fn short(offset: usize) -> Option<u32>
    ensures some { IfSome result (λ short. short ≡ offset) }
    ensures none { IfNone result (¬ OffsetFits offset) }
{
    u32::try_from(offset).ok()
}

/// Returns the offsets in place, or `None` if one of them needs more than 32 bits.
fn near(offsets: &Offsets) -> Option<Kept>
    ensures some { IfSome result (λ kept. offsets_of kept ≡ offsets.now) }
    ensures none { IfNone result (¬ OffsetsFit offsets.now) }
{
    Some(Kept::Near {
        start: short(offsets.start)?,
        stop: short(offsets.stop)?,
        semicolon: short(offsets.semicolon)?,
    })
}

impl PackedOffsets {
    /// Returns the packed offsets. Allocates only if one of them needs more than 32 bits. `Err` if
    /// that allocation fails.
    pub(crate) fn new(alloc: Global, offsets: Offsets) -> Result<Self, AllocError>
        ensures ok { IfOk result (λ packed. packed ≡ offsets) }
        ensures memory { IfErr result (λ _. ¬ OffsetsFit offsets) }
    {
        let kept = match near(&offsets) {
            Some(kept) => kept,
            None => Kept::Far(Box::new(alloc, offsets)?),
        };
        Ok(PackedOffsets { kept })
    }

    /// Returns the offsets.
    pub(crate) fn get(&self) -> Offsets
        ensures { result ≡ self.now }
    {
        match &self.kept {
            Kept::Near {
                start,
                stop,
                semicolon,
            } => Offsets {
                start: *start as usize,
                stop: *stop as usize,
                semicolon: *semicolon as usize,
            },
            Kept::Far(offsets) => **offsets,
        }
    }
}
