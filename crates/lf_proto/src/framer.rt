//! Lines of a stream that comes in pieces.

ghost use Rattle.std.specs.Prelude.{◌≡◌, ◌<◌, ◌≤◌, Some, [], IfOk, IfSome, length, position, vec_len, vec_capacity};
ghost use Rattle.lf_proto.specs.Framing.{held_of, with_more};
ghost use Rattle.lf_proto.specs.Feeds.{Feeds, FinishesAt, FramingKeepsLines};
ghost use Rattle.lf_proto.specs.Stream.{is_end_of_line, line_limit, without_return};

use std::alloc::{AllocError, Global};
use std::marker::Model;

/// The most bytes of a line, including its carriage return.
const LIMIT: usize = 4096;

/// The result of feeding bytes.
#[derive(Clone, Copy, Debug, PartialEq, Eq)]
pub enum Got {
    /// No line has ended yet.
    More,
    /// A line has ended; `LineFramer::line` returns it.
    Line,
    /// A line of more than 4,096 bytes, including its carriage return, has ended.
    TooLong,
}

/// The number of bytes of a piece that were used, and their result.
#[derive(Clone, Copy, Debug, PartialEq, Eq)]
pub struct Fed {
    pub used: usize,
    pub got: Got,
}

/// The lines of a stream whose pieces are fed one after another. Only `new` allocates. Contracts
/// see the bytes since the last line feed, or `None` if they exceed the limit, and the last line.
#[derive(Drop)]
pub struct LineFramer {
    buffer: Vec<u8>,
    ended: bool,
    too_long: bool,
}

impl Model for LineFramer {
    ghost use Rattle.std.specs.Prelude.{◌≤◌, cond, Some, [], vec_len, vec_capacity};
    ghost use Rattle.lf_proto.specs.Framing.{Framing, held_of};
    ghost use Rattle.lf_proto.specs.Stream.{line_limit};

    ghost Value = { Framing };

    ghost view = { λ f. record {
      pending = cond f.ended (Some []) (held_of f.too_long f.buffer.items);
      line = f.buffer.items;
    } };

    ghost invariant = { λ f. (line_limit ≤ vec_capacity f.buffer) × (vec_len f.buffer ≤ line_limit) };
}

/// Adds the bytes if they fit, and returns true if the line exceeds the limit.
fn take_in(buffer: &mut Vec<u8>, too_long: bool, bytes: &[u8]) -> bool
    requires room { line_limit ≤ vec_capacity buffer.old }
    requires within { vec_len buffer.old ≤ line_limit }
    ensures held { held_of result buffer.new.items ≡ with_more (held_of too_long buffer.old.items) bytes.now }
    ensures room { line_limit ≤ vec_capacity buffer.new }
    ensures within { vec_len buffer.new ≤ line_limit }
{
    if too_long || bytes.len() > LIMIT - buffer.len() {
        return true;
    }
    buffer.extend_from_slice(bytes).is_err()
}

/// The position of the first line feed.
fn first_line_feed(piece: &[u8]) -> Option<usize>
    ensures at { result ≡ position is_end_of_line piece.now }
    ensures below { IfSome result (λ at. at < length piece.now) }
{
    piece.iter().position(|byte| *byte == b'\n')
}

/// Drops one carriage return at the end, if there is one.
fn drop_return(buffer: &mut Vec<u8>)
    requires room { line_limit ≤ vec_capacity buffer.old }
    requires within { vec_len buffer.old ≤ line_limit }
    ensures items { buffer.new.items ≡ without_return buffer.old.items }
    ensures room { line_limit ≤ vec_capacity buffer.new }
    ensures within { vec_len buffer.new ≤ line_limit }
{
    if buffer.last() == Some(&b'\r') {
        buffer.truncate(buffer.len() - 1);
    }
}

impl LineFramer {
    /// Makes a framer at the start of a stream, with room for the longest line.
    ///
    /// `Err` if an allocation fails.
    pub fn new(alloc: Global) -> Result<LineFramer, AllocError>
        ensures { IfOk result (λ framer. framer.pending ≡ Some []) }
    {
        Ok(LineFramer {
            buffer: Vec::with_capacity(alloc, LIMIT)?,
            ended: false,
            too_long: false,
        })
    }

    /// Takes the bytes of a piece up to and including its first line feed, or all of them. The
    /// caller feeds the rest again.
    pub fn feed(&mut self, piece: &[u8]) -> Fed
        ensures { Feeds self.old piece.now result self.new }
    {
        if self.ended {
            self.buffer.clear();
            self.ended = false;
            self.too_long = false;
        }
        match first_line_feed(piece) {
            None => {
                self.too_long = take_in(&mut self.buffer, self.too_long, piece);
                Fed {
                    used: piece.len(),
                    got: Got::More,
                }
            }
            Some(at) => {
                self.too_long = take_in(&mut self.buffer, self.too_long, &piece[..at]);
                drop_return(&mut self.buffer);
                self.ended = true;
                Fed {
                    used: at + 1,
                    got: if self.too_long {
                        Got::TooLong
                    } else {
                        Got::Line
                    },
                }
            }
        }
    }

    /// The last line that `feed` or `finish` has found, without its line feed and the carriage
    /// return in front of that.
    pub fn line(&self) -> &[u8]
        ensures { result.now ≡ self.now.line }
    {
        &self.buffer
    }

    /// Ends the stream. If bytes remain after the last line feed, they are the last line, which
    /// keeps its carriage return. Returns `More` if no bytes remain.
    pub fn finish(&mut self) -> Got
        ensures given { FinishesAt self.old.pending result self.new.line }
        ensures pending { self.new.pending ≡ Some [] }
        ensures within { IfSome self.old.pending (λ bytes. length bytes ≤ line_limit) }
    {
        if self.ended || (self.buffer.is_empty() && !self.too_long) {
            return Got::More;
        }
        self.ended = true;
        if self.too_long {
            Got::TooLong
        } else {
            Got::Line
        }
    }
}

/// A law: however a stream is cut into pieces, a new framer finds the lines of the whole stream.
/// Bytes that a feed did not use are fed again with the next piece, and `finish` is called last.
pub fn framing_keeps_lines()
    ensures { FramingKeepsLines }
{}
