//! Why a text is not a state of a design.

ghost use Rattle.std.specs.Prelude.{◌≡◌, ◌≤◌, length};
ghost use Rattle.lf_lex.specs.Tokens.{line_feeds};
ghost use Rattle.lf_state_text.specs.declared.fault.ReadError.TheVariants.{Memory};

use std::alloc::{AllocError, AllocFailed};

/// The fault of a text. A fault that readers of other texts know too has their number.
#[derive(Clone, Copy, Debug, PartialEq, Eq)]
pub enum StateFaultNumber {
    /// The text ends within a line, or lines are missing at its end.
    UnexpectedEnd,
    /// Another word is expected, or there is text after the last line.
    Unexpected,
    /// A word is not the expected number below 2^32, place or slot.
    BadNumber,
    /// The text does not begin with `lefence-state 1`.
    OtherVersion,
    /// One of these differs from the design: the number of teams, a team's name, its number of
    /// slots or cells, or a cell's name.
    OtherDesign,
    /// A revision, a padding, a number of undo entries or a slot's revision is above its limit, or
    /// a move names no cell of the team.
    OutOfRange,
}

/// Why reading stopped: a fault at the cursor, or a failed allocation.
#[derive(Debug, Drop)]
pub(crate) enum ReadError {
    Memory,
    Fault(StateFaultNumber),
}

impl From<AllocError> for ReadError {
    ghost from_gives = { λ _ e. e ≡ Memory };

    fn from(_e: AllocError) -> ReadError {
        ReadError::Memory
    }
}

impl<T: Drop> From<AllocFailed<T>> for ReadError {
    ghost from_gives = { λ _ e. e ≡ Memory };

    fn from(_e: AllocFailed<T>) -> ReadError {
        ReadError::Memory
    }
}

/// The first fault of a text, in its order, and its line.
#[derive(Clone, Copy, Debug, PartialEq, Eq)]
pub struct StateFault {
    pub number: StateFaultNumber,
    pub line: usize,
}

/// Why a state was not read: a fault of its text, or a failed allocation.
#[derive(Debug, Drop)]
pub enum StateError {
    Memory,
    Fault(StateFault),
}

/// Returns the number of line feeds among at most 255 bytes.
fn few_line_feeds(bytes: &[u8]) -> u8
    requires { length bytes.now ≤ 255 }
    ensures { result ≡ line_feeds bytes.now }
{
    let mut feeds = 0;
    for byte in bytes {
        feeds += u8::from(*byte == b'\n');
    }
    feeds
}

/// Returns the number of line feeds.
pub(crate) fn line_feeds(text: &[u8]) -> usize
    ensures { result ≡ line_feeds text.now }
{
    let mut feeds = 0;
    let mut rest = text;
    while !rest.is_empty() {
        let (bytes, after_it) = rest.split_at(rest.len().min(255));
        feeds += usize::from(few_line_feeds(bytes));
        rest = after_it;
    }
    feeds
}
