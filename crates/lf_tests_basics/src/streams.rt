//! The lines of a stream.

ghost use Rattle.std.specs.Prelude.{◌≡◌, ◌≤◌, ◌<◌, ◌&&◌, ℕ, IfOk, List, Option, length, take};
ghost use Rattle.std.specs.List.{list_all};
ghost use Rattle.std.specs.Option.{is_some};
ghost use Rattle.lf_proto.specs.Feeds.{Feeds, TakesBytes, given_line};
ghost use Rattle.lf_proto.specs.Stream.{lines_of};

use lf_proto::{Fed, Got, LineFramer, framing_keeps_lines, parse_line};
use std::alloc::{AllocError, Global};
use std::test::Fail;

/// Feeds the framer a piece; it uses at least one byte of a piece that is not empty.
fn feed_piece(framer: &mut LineFramer, piece: &[u8]) -> Fed
    ensures fed { Feeds framer.old piece.now result framer.new }
    ensures within { result.used ≤ length piece.now }
    ensures some { 0 < length piece.now → 0 < result.used }
{
    framer.feed(piece)
}

/// Returns the first `most` bytes.
fn front(bytes: &[u8], most: usize) -> &[u8]
    ensures { result.now ≡ take most bytes.now }
{
    &bytes[..most.min(bytes.len())]
}

/// Returns true unless the result is a line that is too long.
fn is_within(got: Got) -> bool
    ensures { (line : List ℕ) → result ≡ list_all is_some (given_line got line) }
{
    match got {
        Got::More | Got::Line => true,
        Got::TooLong => false,
    }
}

/// Returns true if both are true.
fn both(one: bool, other: bool) -> bool
    ensures { result ≡ (one && other) }
{
    one && other
}

/// Feeds the framer a stream in pieces of at most `most` bytes. Returns true if no line is too
/// long.
fn feed_stream(framer: &mut LineFramer, stream: &[u8], most: usize) -> bool
    requires { 1 ≤ most }
    ensures { (lines : List (Option (List ℕ))) × TakesBytes framer.old stream.now lines framer.new
        × (result ≡ list_all is_some lines) }
{
    let mut within = true;
    let mut at = 0;
    while at < stream.len() {
        let fed = feed_piece(framer, front(&stream[at..], most));
        at += fed.used;
        within = both(within, is_within(fed.got));
    }
    within
}

/// Returns true if each line of a stream is within the limit, by a framer that takes at most `most`
/// bytes at a time.
///
/// `Err` if an allocation fails.
fn are_within(alloc: Global, stream: &[u8], most: usize) -> Result<bool, AllocError>
    requires { 1 ≤ most }
    ensures { IfOk result (λ within. within ≡ list_all is_some (lines_of stream.now)) }
{
    framing_keeps_lines();
    let mut framer = LineFramer::new(alloc)?;
    let within = feed_stream(&mut framer, stream, most);
    let last = framer.finish();
    Ok(both(within, is_within(last)))
}

#[test]
fn finds_lines_that_are_too_long(rt: HostRuntime) -> Result<(), Fail> {
    let alloc = rt.alloc();
    let mut stream = Vec::from_slice(alloc, b"open A\n")?;
    stream.resize(7 + 4096, b' ')?;
    assert!(rt; are_within(alloc, &stream, 100)?);
    stream.push(b' ')?;
    assert!(rt; !are_within(alloc, &stream, 100)?);
    Ok(())
}

/// Returns true if the framer uses `used` bytes of the piece and then has this line.
fn takes_line(framer: &mut LineFramer, piece: &[u8], used: usize, line: &[u8]) -> bool {
    let fed = framer.feed(piece);
    fed.used == used && fed.got == Got::Line && framer.line() == line
}

/// Returns true if the framer uses the whole piece and expects more.
fn takes_all(framer: &mut LineFramer, piece: &[u8]) -> bool {
    let fed = framer.feed(piece);
    fed.used == piece.len() && fed.got == Got::More
}

/// Returns true if lines end at line feeds, one carriage return in front of these is dropped, and
/// the last line needs no line feed.
fn parts_lines(framer: &mut LineFramer) -> bool {
    takes_line(framer, b"open A\r\n\nopen B\r", 8, b"open A")
        && takes_line(framer, b"\nopen B\r", 1, b"")
        && takes_all(framer, b"open B\r")
        && framer.finish() == Got::Line
        && framer.line() == b"open B\r".as_slice()
        && framer.finish() == Got::More
}

#[test]
fn frames_lines(rt: HostRuntime) -> Result<(), Fail> {
    let mut framer = LineFramer::new(rt.alloc())?;
    assert!(rt; parts_lines(&mut framer));
    Ok(())
}

/// Returns true if the framer uses `used` bytes of the piece and then has a line that is too long.
fn refuses_line(framer: &mut LineFramer, piece: &[u8], used: usize) -> bool {
    let fed = framer.feed(piece);
    fed.used == used && fed.got == Got::TooLong
}

/// Returns true if the framer takes a line of 4,096 bytes, and refuses one of one byte more,
/// including its carriage return.
fn bounds_length(framer: &mut LineFramer, longest: &[u8]) -> bool {
    takes_all(framer, longest)
        && takes_line(framer, b"\n", 1, longest)
        && takes_all(framer, longest)
        && refuses_line(framer, b"\r\nopen B\n", 2)
        && takes_line(framer, b"open B\n", 7, b"open B")
        && takes_all(framer, longest)
        && takes_all(framer, b" ")
        && framer.finish() == Got::TooLong
}

#[test]
fn bounds_lines(rt: HostRuntime) -> Result<(), Fail> {
    let mut line = Vec::from_slice(rt.alloc(), b"open A")?;
    line.resize(4096, b' ')?;
    let mut framer = LineFramer::new(rt.alloc())?;
    assert!(rt; bounds_length(&mut framer, &line));
    assert!(rt; parse_line(&line).is_ok());
    Ok(())
}
