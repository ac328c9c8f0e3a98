//! The words of a text, one after another.

ghost use Rattle.std.specs.Prelude.{◌≡◌, ◌+◌, ◌<◌, ◌≤◌, List, ℕ, IfOk, drop, length, take};
ghost use Rattle.lf_state_text.specs.Words.{slot_on};
ghost use Rattle.lf_state_text.specs.WordEnds.{end_byte};
ghost use Rattle.lf_state_text.specs.Pieces.{IsEnd, front, rest};
ghost use Rattle.lf_state_text.specs.Reading.{ReadsState, below_at, count_at, due_at, is_seen_by, number_at, slot_at, read_spot, mismatch, word_at};

use crate::cursor::Cursor;
use crate::cursor_steps::{begins, find, front, skip, word};
use crate::fault::{ReadError, StateFaultNumber};
use crate::read_numbers::{front_u32, number_of};
use crate::read_places::{front_place, place_on};
use crate::word_end::WordEnd;
use lf_floorplan::PackedPlace;
use std::alloc::AllocError;

/// Returns the fault of a line that continues differently: that number, or `UnexpectedEnd` if the
/// text ends within the line.
#[tactic(auto, unfolding(crate::specs::Words::cut))]
fn mismatch(number: StateFaultNumber, cursor: &mut Cursor) -> Result<StateFaultNumber, AllocError>
    ensures unmet { IfOk result (λ overlapping_one. overlapping_one ≡ mismatch number (rest cursor.old)) }
    ensures rest { rest cursor.new ≡ rest cursor.old }
    ensures ends { (text : List ℕ) → IsEnd text cursor.old → IsEnd text cursor.new }
{
    match find(b'\n', cursor)? {
        Some(_) => Ok(number),
        None => Ok(StateFaultNumber::UnexpectedEnd),
    }
}

/// Takes the expected bytes.
#[tactic(auto, unfolding(crate::specs::Reading::due_at, crate::specs::Words::bytes_after))]
pub(crate) fn expect_bytes(
    number: StateFaultNumber,
    due: &[u8],
    cursor: &mut Cursor,
) -> Result<(), ReadError>
    ensures read { ReadsState (λ _ left. left) result (due_at number due.now (rest cursor.old)) (rest cursor.new) }
    ensures ends { (text : List ℕ) → IsEnd text cursor.old → IsEnd text cursor.new }
{
    if begins(due, cursor)? {
        skip(due.len(), cursor);
        return Ok(());
    }
    let overlapping_one = mismatch(number, cursor)?;
    Err(ReadError::Fault(overlapping_one))
}

/// Returns the length of the word up to the next `byte`; the current chunk then has the word and
/// `byte`.
#[tactic(auto, unfolding(crate::specs::Reading::word_at, crate::specs::Words::cut))]
fn word_len(byte: u8, cursor: &mut Cursor) -> Result<usize, ReadError>
    ensures read { ReadsState (λ len left. (take len left, drop (len + 1) left)) result (word_at byte (rest cursor.old))
        (rest cursor.new) }
    ensures within { IfOk result (λ len. len < length (front cursor.new)) }
    ensures rest { rest cursor.new ≡ rest cursor.old }
    ensures ends { (text : List ℕ) → IsEnd text cursor.old → IsEnd text cursor.new }
{
    match find(byte, cursor)? {
        Some(len) => Ok(len),
        None => Err(ReadError::Fault(StateFaultNumber::UnexpectedEnd)),
    }
}

/// Returns the next number, below 2^32, and the count of bytes up to and including the one that
/// ends it. Does not take these bytes.
#[tactic(auto, unfolding(crate::specs::Reading::number_at))]
fn next_number(end: WordEnd, cursor: &mut Cursor) -> Result<(u32, usize), ReadError>
    ensures read { ReadsState (λ x left. (x.0, drop x.1 left)) result
        (number_at (end_byte end) (rest cursor.old)) (rest cursor.new) }
    ensures within { IfOk result (λ x. x.1 ≤ length (front cursor.new)) }
    ensures rest { rest cursor.new ≡ rest cursor.old }
    ensures ends { (text : List ℕ) → IsEnd text cursor.old → IsEnd text cursor.new }
{
    let byte = end.byte();
    if let Some(next) = front_u32(byte, front(cursor)) {
        return Ok(next);
    }
    let len = word_len(byte, cursor)?;
    let Some(number) = number_of(word(len, cursor)) else {
        return Err(ReadError::Fault(StateFaultNumber::BadNumber));
    };
    Ok((number, len + 1))
}

/// Reads a number below 2^32.
pub(crate) fn number_at(end: WordEnd, cursor: &mut Cursor) -> Result<u32, ReadError>
    ensures read { ReadsState (λ n left. (n, left)) result
        (number_at (end_byte end) (rest cursor.old)) (rest cursor.new) }
    ensures ends { (text : List ℕ) → IsEnd text cursor.old → IsEnd text cursor.new }
{
    let (number, len) = next_number(end, cursor)?;
    skip(len, cursor);
    Ok(number)
}

/// Reads a number below a limit.
#[tactic(auto, unfolding(crate::specs::Reading::below_at))]
pub(crate) fn below_at(limit: usize, end: WordEnd, cursor: &mut Cursor) -> Result<u32, ReadError>
    ensures read { ReadsState (λ n left. (n, left)) result
        (below_at limit (end_byte end) (rest cursor.old)) (rest cursor.new) }
    ensures ends { (text : List ℕ) → IsEnd text cursor.old → IsEnd text cursor.new }
{
    let (number, len) = next_number(end, cursor)?;
    if (number as usize) < limit {
        skip(len, cursor);
        return Ok(number);
    }
    Err(ReadError::Fault(StateFaultNumber::OutOfRange))
}

/// Takes the expected number.
#[tactic(auto, unfolding(crate::specs::Reading::count_at))]
pub(crate) fn count_at(count: usize, end: WordEnd, cursor: &mut Cursor) -> Result<(), ReadError>
    ensures read { ReadsState (λ _ left. left) result
        (count_at count (end_byte end) (rest cursor.old)) (rest cursor.new) }
    ensures ends { (text : List ℕ) → IsEnd text cursor.old → IsEnd text cursor.new }
{
    let (number, len) = next_number(end, cursor)?;
    if number as usize == count {
        skip(len, cursor);
        return Ok(());
    }
    Err(ReadError::Fault(StateFaultNumber::OtherDesign))
}

/// Reads a place, or a minus for no place.
#[tactic(auto, unfolding(crate::specs::Reading::read_spot))]
pub(crate) fn read_place_or_none(
    end: WordEnd,
    cursor: &mut Cursor,
) -> Result<PackedPlace, ReadError>
    ensures read { ReadsState (λ place left. (place, left)) result
        (read_spot (end_byte end) (rest cursor.old)) (rest cursor.new) }
    ensures ends { (text : List ℕ) → IsEnd text cursor.old → IsEnd text cursor.new }
{
    let byte = end.byte();
    if let Some((place, len)) = front_place(byte, front(cursor)) {
        skip(len, cursor);
        return Ok(PackedPlace::of(Some(place)));
    }
    let len = word_len(byte, cursor)?;
    let Some(place) = place_on(word(len, cursor)) else {
        return Err(ReadError::Fault(StateFaultNumber::BadNumber));
    };
    skip(len + 1, cursor);
    Ok(place)
}

/// Returns the value of the word of a session slot.
#[tactic(auto, unfolding(crate::specs::Words::slot_on))]
fn slot_on(word: &[u8]) -> Option<Option<u32>>
    ensures { result ≡ slot_on word.now }
{
    if word == b"-".as_slice() {
        return Some(None);
    }
    let number = number_of(word)?;
    Some(Some(number))
}

/// Returns true if the slot is free, or its session has seen a revision up to the team's.
fn is_seen_by(revision: u32, slot: Option<u32>) -> bool
    ensures { result ≡ is_seen_by revision slot }
{
    match slot {
        None => true,
        Some(seen) => seen <= revision,
    }
}

/// Reads the line of a session slot of a team with this revision.
#[tactic(auto, unfolding(crate::specs::Reading::slot_at))]
pub(crate) fn slot_at(revision: u32, cursor: &mut Cursor) -> Result<Option<u32>, ReadError>
    ensures read { ReadsState (λ slot left. (slot, left)) result (slot_at revision (rest cursor.old))
        (rest cursor.new) }
    ensures ends { (text : List ℕ) → IsEnd text cursor.old → IsEnd text cursor.new }
{
    let len = word_len(b'\n', cursor)?;
    let Some(slot) = slot_on(word(len, cursor)) else {
        return Err(ReadError::Fault(StateFaultNumber::BadNumber));
    };
    if is_seen_by(revision, slot) {
        skip(len + 1, cursor);
        return Ok(slot);
    }
    Err(ReadError::Fault(StateFaultNumber::OutOfRange))
}
