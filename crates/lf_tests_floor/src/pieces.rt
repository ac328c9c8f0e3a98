//! State texts in chunks of each size.

ghost use Rattle.std.specs.Prelude.{◌<◌};

use crate::floors::{Kept, floor};
use lf_floor::Floor;
use lf_legalize::PlainSeeker;
use lf_state_text::{ChunkError, StateFault, StateFaultNumber};
use std::alloc::{AllocError, Global};
use std::collections::VecDeque;
use std::test::Fail;

/// A text whose third line has a word in place of a revision.
const FAULTY: &[u8] = b"lefence-state 1\nteams 3\nteam A x 0 8 3 0\n";

/// The text of the floor's state.
fn state_of(alloc: Global, floor: &Floor<PlainSeeker>) -> Vec<u8> {
    let mut kept = Kept {
        text: Vec::new(alloc),
    };
    floor.write_state(&mut kept);
    kept.text
}

/// Cuts the text into chunks of this size.
fn cut(alloc: Global, text: &[u8], size: usize) -> Result<VecDeque<Vec<u8>>, AllocError>
    requires { 0 < size }
{
    let mut pieces = VecDeque::new(alloc);
    for piece in text.chunks(size) {
        pieces.push_back(Vec::from_slice(alloc, piece)?)?;
    }
    Ok(pieces)
}

/// Returns true if a floor is restored from the text of its state in chunks of this size.
fn is_restored(
    alloc: Global,
    floor: Floor<PlainSeeker>,
    text: &[u8],
    size: usize,
) -> Result<bool, AllocError>
    requires { 0 < size }
{
    let Ok(rows) = floor.read_state_chunks(cut(alloc, text, size)?) else {
        return Ok(false);
    };
    match floor.restore_saved(rows) {
        Ok(restored) => Ok(state_of(alloc, &restored).as_slice() == text),
        Err(error) => Err(error),
    }
}

#[test]
fn a_state_in_pieces_of_each_size_is_restored(rt: HostRuntime) -> Result<(), Fail> {
    let text = state_of(rt.alloc(), &floor(rt.alloc())?);
    for size in 1..=text.len() {
        assert!(rt;
            is_restored(rt.alloc(), floor(rt.alloc())?, &text, size)?,
            "{size} bytes a piece"
        );
    }
    Ok(())
}

/// Returns true if the faulty text in chunks of this size is refused for its third line, with an
/// end that has that line.
fn is_refused(alloc: Global, floor: &Floor<PlainSeeker>, size: usize) -> Result<bool, AllocError>
    requires { 0 < size }
{
    let Err(ChunkError::Refused(refused)) = floor.read_state_chunks(cut(alloc, FAULTY, size)?)
    else {
        return Ok(false);
    };
    let fault = StateFault {
        number: StateFaultNumber::BadNumber,
        line: 3,
    };
    Ok(refused.fault == fault && refused.lines < 3 && FAULTY.ends_with(&refused.end))
}

#[test]
fn a_fault_in_pieces_of_each_size_is_reported_the_same(rt: HostRuntime) -> Result<(), Fail> {
    let floor = floor(rt.alloc())?;
    for size in 1..=FAULTY.len() {
        assert!(rt;
            is_refused(rt.alloc(), &floor, size)?,
            "{size} bytes a piece"
        );
    }
    Ok(())
}
