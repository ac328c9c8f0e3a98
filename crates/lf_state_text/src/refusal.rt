//! Refused texts.

ghost use Rattle.std.specs.Prelude.{◌≡◌, ◌+◌, IfOk, IfSome, [], List, ℕ, length, take};
ghost use Rattle.lf_lex.specs.Tokens.{line_feeds};
ghost use Rattle.lf_state_text.specs.Pieces.{IsEnd, rest};
ghost use Rattle.lf_state_text.specs.Refused.{HoldsEnd, IsRefusedState};

use crate::cursor::Cursor;
use crate::cursor_steps::append;
use crate::fault::{StateFault, StateFaultNumber, line_feeds};
use std::alloc::AllocError;

/// Why a state text was refused, and the rest of the text from the start of a line at or before the
/// fault.
#[derive(Debug, Drop)]
pub struct StateRefused {
    pub fault: StateFault,
    /// The number of lines in front of that end.
    pub lines: usize,
    pub end: Vec<u8>,
}

/// Why a state was not read from chunks: a fault of the whole text, or a failed allocation.
#[derive(Debug, Drop)]
pub enum ChunkError {
    Memory,
    Refused(StateRefused),
}

/// Joins all remaining chunks into one.
///
/// `Err` if an allocation fails.
fn join_all(cursor: &mut Cursor) -> Result<(), AllocError>
    ensures rest { rest cursor.new ≡ rest cursor.old }
    ensures ends { (text : List ℕ) → IsEnd text cursor.old → IsEnd text cursor.new }
    ensures all { IfOk result (λ _. cursor.new.later.items ≡ []) }
{
    while append(cursor)? {}
    Ok(())
}

/// Returns the line of the cursor. `None` if the number overflows.
fn line_of(cursor: &Cursor) -> Option<usize>
    ensures { IfSome result
        (λ line. line ≡ cursor.now.lines + line_feeds (take cursor.now.at cursor.now.piece.items) + 1) }
{
    let before = line_feeds(&cursor.piece[..cursor.at]);
    cursor.lines.checked_add(before)?.checked_add(1)
}

/// Returns the fault of that number at the cursor.
pub(crate) fn refusal_at(number: StateFaultNumber, cursor: Cursor) -> ChunkError
    ensures fault { (text : List ℕ) → IsEnd text cursor
        → IsRefusedState text (record { number = number; left = length (rest cursor) }) result }
    ensures end { (text : List ℕ) → IsEnd text cursor → HoldsEnd text result }
{
    let mut left = cursor;
    let Ok(()) = join_all(&mut left) else {
        return ChunkError::Memory;
    };
    let Some(line) = line_of(&left) else {
        return ChunkError::Memory;
    };
    let Cursor { lines, piece, .. } = left;
    ChunkError::Refused(StateRefused {
        fault: StateFault { number, line },
        lines,
        end: piece,
    })
}
