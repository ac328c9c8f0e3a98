//! Steps of a cursor over a text in chunks.

ghost use Rattle.std.specs.Prelude.{◌≡◌, ◌≤◌, ◌<◌, ◌==◌, List, ℕ, IfOk, IfSome, [], drop, length, position, take, false, true};
ghost use Rattle.std.specs.Str.{bytes_eq};
ghost use Rattle.lf_state_text.specs.Pieces.{AreLines, IsEnd, front, rest};

use crate::cursor::Cursor;
use crate::fault::line_feeds;
use crate::read_places::position_of;
use std::alloc::AllocError;

/// Returns the length of the whole lines among the first `count` bytes.
fn lines_len(bytes: &[u8], count: usize) -> usize
    requires { count ≤ length bytes.now }
    ensures within { result ≤ count }
    ensures whole { AreLines (take result bytes.now) }
{
    for passed in 0..count {
        let last = count - 1 - passed;
        if bytes[last] == b'\n' {
            return last + 1;
        }
    }
    0
}

/// Returns the bytes after the first `count`.
fn after_it(bytes: &[u8], count: usize) -> &[u8]
    requires { count ≤ length bytes.now }
    ensures { result.now ≡ drop count bytes.now }
{
    &bytes[count..]
}

/// Returns the unread rest of the chunk.
pub(crate) fn front(cursor: &Cursor) -> &[u8]
    ensures { result.now ≡ front cursor.now }
{
    after_it(&cursor.piece, cursor.at)
}

/// Drops the complete lines already read from the current chunk.
///
/// `Err` if an allocation fails, or the number of dropped line feeds overflows.
fn drop_lines_read(cursor: &mut Cursor) -> Result<(), AllocError>
    ensures rest { rest cursor.new ≡ rest cursor.old }
    ensures ends { (text : List ℕ) → IsEnd text cursor.old → IsEnd text cursor.new }
    ensures later { cursor.new.later.items ≡ cursor.old.later.items }
{
    let start = lines_len(&cursor.piece, cursor.at);
    let Some(lines) = cursor.lines.checked_add(line_feeds(&cursor.piece[..start])) else {
        return Err(AllocError);
    };
    let piece = Vec::from_slice(cursor.alloc, after_it(&cursor.piece, start))?;
    cursor.at -= start;
    cursor.piece = piece;
    cursor.lines = lines;
    Ok(())
}

/// Appends the next chunk to the current one. Returns false if there is no next chunk.
///
/// `Err` if an allocation fails.
pub(crate) fn append(cursor: &mut Cursor) -> Result<bool, AllocError>
    ensures rest { rest cursor.new ≡ rest cursor.old }
    ensures ends { (text : List ℕ) → IsEnd text cursor.old → IsEnd text cursor.new }
    ensures none { IfOk result (λ more. more ≡ false → cursor.old.later.items ≡ []) }
    ensures last { IfOk result (λ more. more ≡ false → cursor.new.later.items ≡ []) }
    ensures fewer { IfOk result (λ more. more ≡ true → length cursor.new.later.items < length cursor.old.later.items) }
{
    let Some(next) = cursor.later.front() else {
        return Ok(false);
    };
    cursor.piece.extend_from_slice(next)?;
    cursor.later.pop_front();
    Ok(true)
}

/// Drops the lines already read, and appends the next chunk to the rest of the current one. Returns
/// false if there is no next chunk.
///
/// `Err` if an allocation fails.
fn refill(cursor: &mut Cursor) -> Result<bool, AllocError>
    ensures rest { rest cursor.new ≡ rest cursor.old }
    ensures ends { (text : List ℕ) → IsEnd text cursor.old → IsEnd text cursor.new }
    ensures none { IfOk result (λ more. more ≡ false → cursor.old.later.items ≡ []) }
    ensures fewer { IfOk result (λ more. more ≡ true → length cursor.new.later.items < length cursor.old.later.items) }
{
    drop_lines_read(cursor)?;
    append(cursor)
}

/// Returns the position of the next `byte` in the unread rest; the current chunk then has it.
/// `None` if there is no `byte`.
///
/// `Err` if an allocation fails.
pub(crate) fn find(byte: u8, cursor: &mut Cursor) -> Result<Option<usize>, AllocError>
    ensures found { IfOk result (λ found. found ≡ position (λ b. b == byte) (rest cursor.old)) }
    ensures within { IfOk result (λ found. IfSome found (λ at. at < length (front cursor.new))) }
    ensures rest { rest cursor.new ≡ rest cursor.old }
    ensures ends { (text : List ℕ) → IsEnd text cursor.old → IsEnd text cursor.new }
{
    loop {
        if let Some(at) = position_of(byte, front(cursor)) {
            return Ok(Some(at));
        }
        if !refill(cursor)? {
            return Ok(None);
        }
    }
}

/// Returns true if these bytes come next; the current chunk then has them.
///
/// `Err` if an allocation fails.
pub(crate) fn begins(due: &[u8], cursor: &mut Cursor) -> Result<bool, AllocError>
    ensures begins { IfOk result (λ begins. begins ≡ bytes_eq (take (length due.now) (rest cursor.old)) due.now) }
    ensures within { IfOk result (λ begins. begins ≡ true → length due.now ≤ length (front cursor.new)) }
    ensures rest { rest cursor.new ≡ rest cursor.old }
    ensures ends { (text : List ℕ) → IsEnd text cursor.old → IsEnd text cursor.new }
{
    loop {
        if due.len() <= front(cursor).len() {
            return Ok(&front(cursor)[..due.len()] == due);
        }
        if !refill(cursor)? {
            return Ok(false);
        }
    }
}

/// Returns true if no byte is unread.
///
/// `Err` if an allocation fails.
pub(crate) fn is_done(cursor: &mut Cursor) -> Result<bool, AllocError>
    ensures done { IfOk result (λ done. done ≡ (length (rest cursor.old) == 0)) }
    ensures rest { rest cursor.new ≡ rest cursor.old }
    ensures ends { (text : List ℕ) → IsEnd text cursor.old → IsEnd text cursor.new }
{
    loop {
        if !front(cursor).is_empty() {
            return Ok(false);
        }
        if !refill(cursor)? {
            return Ok(true);
        }
    }
}

/// Returns the next `len` bytes.
pub(crate) fn word(len: usize, cursor: &Cursor) -> &[u8]
    requires { len ≤ length (front cursor.now) }
    ensures { result.now ≡ take len (rest cursor.now) }
{
    &front(cursor)[..len]
}

/// Skips `len` bytes.
pub(crate) fn skip(len: usize, cursor: &mut Cursor)
    requires { len ≤ length (front cursor.old) }
    ensures rest { rest cursor.new ≡ drop len (rest cursor.old) }
    ensures ends { (text : List ℕ) → IsEnd text cursor.old → IsEnd text cursor.new }
{
    cursor.at += len;
}
