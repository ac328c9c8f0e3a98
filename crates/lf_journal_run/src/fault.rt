//! Why a journal is not run.

ghost use Rattle.std.specs.Prelude.{◌≡◌};
ghost use Rattle.lf_journal_run.specs.declared.fault.RunError.TheVariants.{Memory};

use lf_journal_text::Refusal;
use std::alloc::{AllocError, AllocFailed};

/// Why a journal was not run.
#[derive(Clone, Copy, Debug, PartialEq, Eq)]
pub enum RunError {
    /// An allocation failed.
    Memory,
    Refused(Refusal),
}

impl From<AllocError> for RunError {
    ghost from_gives = { λ _ e. e ≡ Memory };

    fn from(_e: AllocError) -> RunError {
        RunError::Memory
    }
}

impl<T: Drop> From<AllocFailed<T>> for RunError {
    ghost from_gives = { λ _ e. e ≡ Memory };

    fn from(_e: AllocFailed<T>) -> RunError {
        RunError::Memory
    }
}
