//! The loop that serves one connection.

ghost use Rattle.std.specs.Prelude.{◌≡◌, ◌≢◌, ◌<◌, ◌≤◌, ◌+◌, ◌++◌, ◌∷◌, ◌⊎◌, [], IfSome, MatchOption, Some, None, List, ℕ};
ghost use Rattle.std.specs.Prelude.{length, drop, option_map, true, false};
ghost use Rattle.lf_rules.specs.Legalizer.{Legalizer};
ghost use Rattle.lf_server.specs.Connections.{KeepsDesign};
ghost use Rattle.lf_server.specs.Devices.{writer};
ghost use Rattle.lf_server.specs.Endings.{ServesLines};
ghost use Rattle.lf_proto.specs.Pieces.{lines_from, between_line_feeds};
ghost use Rattle.lf_server.specs.Progress.{FinishesServing, IsGivenLine, ContinuesServing, ActsOnLine, SinkFailsAtWriteFault, StopsServing, answered_count};

use crate::answer::{answer, is_end, request_of_line, team_requested};
use crate::line_buffer::LineBuffer;
use crate::responses::send_response;
use lf_floor::Floor;
use lf_io::{Sink, Source};
use lf_legalize::Seeker;
use lf_proto::{Got, LineFramer};
use std::alloc::Global;

/// The bytes that are read at once, as many as the most of a line.
const LINE: usize = 4096;

/// How serving a connection ended, which determines the lines acted on.
#[derive(Clone, Copy, Debug, PartialEq, Eq)]
pub enum Ending {
    /// The input ended, and all lines were acted on.
    Done,
    /// A line said `bye`: the lines up to the first such line were acted on.
    Bye,
    /// The reader failed, or the limit on reads was reached: the lines that were read with their
    /// line feed were acted on.
    ReadFault,
    /// The writer failed, or took no byte: a front of the reply to the last line acted on was
    /// written, perhaps nothing.
    WriteFault,
    /// Another line followed the last one allowed: the allowed number of lines was acted on.
    TooManyLines,
    /// An allocation for the buffers failed: nothing was read, and no line was acted on.
    OutOfMemory,
}

/// How a connection was served: the lines acted on, the replies written and flushed, and the
/// ending.
#[derive(Clone, Copy, Debug, PartialEq, Eq)]
pub struct Served {
    pub lines: u64,
    pub answered: u64,
    pub ending: Ending,
}

/// The most lines to act on, and the most reads.
#[derive(Clone, Copy, Debug, PartialEq, Eq)]
pub struct ServeLimits {
    pub lines: u64,
    pub reads: u64,
}

/// Returns the line that the framer gave, or `None` if it needs more bytes. The inner `None` is a
/// line over the limit.
fn line_given(framer: &LineFramer, got: Got) -> Option<Option<&[u8]>>
    ensures { MatchOption result (got ≡ Got.More)
        (λ line. IsGivenLine got framer.now.line (option_map (λ bytes. bytes.now) line)) }
{
    match got {
        Got::More => None,
        Got::Line => Some(Some(framer.line())),
        Got::TooLong => Some(None),
    }
}

/// Answers one line and writes the reply. Returns how the connection ends, or `None` if it
/// continues.
fn answer_line<K: Seeker + Drop, W: Sink>(
    floor: &mut Floor<K>,
    sink: &mut W,
    text: &mut LineBuffer,
    line: Option<&[u8]>,
) -> Option<Ending>
    ensures never { IfSome result (λ ending. (ending ≢ Ending.ReadFault) × (ending ≢ Ending.OutOfMemory)) }
    ensures health { MatchOption result (W.has_failed sink.new ≡ W.has_failed sink.old)
        (λ ending. SinkFailsAtWriteFault ending (W.has_failed sink.old) (W.has_failed sink.new)) }
    ensures held { W.holds sink.new ≡ W.holds sink.old }
    ensures stays { KeepsDesign floor.old floor.new }
    ensures serves { (l : Legalizer) → ActsOnLine l result
        (writer (W.contents sink.old) (W.is_flushed sink.old) (W.has_failed sink.old))
        (writer (W.contents sink.new) (W.is_flushed sink.new) (W.has_failed sink.new))
        floor.old floor.new (option_map (λ bytes. bytes.now) line.entry) }
{
    let request = request_of_line(line);
    let response = answer(floor, &request);
    if send_response(sink, text, floor, team_requested(&request), &response).is_err() {
        return Some(Ending::WriteFault);
    }
    if is_end(&request) {
        return Some(Ending::Bye);
    }
    None
}

/// Reads the chunk up to its first line feed, and answers the line that ends there if one may be
/// acted on. Returns the number of bytes used, and how the connection ends if it does.
fn take_line<K: Seeker + Drop, W: Sink>(
    floor: &mut Floor<K>,
    sink: &mut W,
    framer: &mut LineFramer,
    text: &mut LineBuffer,
    left: &mut u64,
    piece: &[u8],
) -> (usize, Option<Ending>)
    ensures used { result.0 ≤ length piece.now }
    ensures some { 0 < length piece.now → 0 < result.0 }
    ensures left { left.new ≤ left.old }
    ensures never { IfSome result.1 (λ ending. (ending ≢ Ending.ReadFault) × (ending ≢ Ending.OutOfMemory)) }
    ensures health { MatchOption result.1 (W.has_failed sink.new ≡ W.has_failed sink.old)
        (λ ending. SinkFailsAtWriteFault ending (W.has_failed sink.old) (W.has_failed sink.new)) }
    ensures held { W.holds sink.new ≡ W.holds sink.old }
    ensures stays { KeepsDesign floor.old floor.new }
    ensures serves { (l : Legalizer) → MatchOption result.1 (ContinuesServing l
        (writer (W.contents sink.old) (W.is_flushed sink.old) (W.has_failed sink.old))
        (writer (W.contents sink.new) (W.is_flushed sink.new) (W.has_failed sink.new))
        left.old left.new floor.old floor.new framer.old.pending framer.new.pending piece.now (drop result.0 piece.now))
        (λ ending. (rest : List ℕ) → StopsServing l ending
        (writer (W.contents sink.old) (W.is_flushed sink.old) (W.has_failed sink.old))
        (writer (W.contents sink.new) (W.is_flushed sink.new) (W.has_failed sink.new))
        left.old left.new floor.old floor.new
        (lines_from framer.old.pending (between_line_feeds (piece.now ++ rest)))) }
{
    let fed = framer.feed(piece);
    let Some(line) = line_given(framer, fed.got) else {
        return (fed.used, None);
    };
    if *left == 0 {
        return (fed.used, Some(Ending::TooManyLines));
    }
    *left -= 1;
    (fed.used, answer_line(floor, sink, text, line))
}

/// Answers the lines that end in a chunk. Returns how the connection ends, or `None` if it
/// continues.
fn answer_lines_in<K: Seeker + Drop, W: Sink>(
    floor: &mut Floor<K>,
    sink: &mut W,
    framer: &mut LineFramer,
    text: &mut LineBuffer,
    left: &mut u64,
    piece: &[u8],
) -> Option<Ending>
    ensures left { left.new ≤ left.old }
    ensures never { IfSome result (λ ending. (ending ≢ Ending.ReadFault) × (ending ≢ Ending.OutOfMemory)) }
    ensures health { MatchOption result (W.has_failed sink.new ≡ W.has_failed sink.old)
        (λ ending. SinkFailsAtWriteFault ending (W.has_failed sink.old) (W.has_failed sink.new)) }
    ensures held { W.holds sink.new ≡ W.holds sink.old }
    ensures stays { KeepsDesign floor.old floor.new }
    ensures serves { (l : Legalizer) → MatchOption result (ContinuesServing l
        (writer (W.contents sink.old) (W.is_flushed sink.old) (W.has_failed sink.old))
        (writer (W.contents sink.new) (W.is_flushed sink.new) (W.has_failed sink.new))
        left.old left.new floor.old floor.new framer.old.pending framer.new.pending piece.now [])
        (λ ending. (rest : List ℕ) → StopsServing l ending
        (writer (W.contents sink.old) (W.is_flushed sink.old) (W.has_failed sink.old))
        (writer (W.contents sink.new) (W.is_flushed sink.new) (W.has_failed sink.new))
        left.old left.new floor.old floor.new
        (lines_from framer.old.pending (between_line_feeds (piece.now ++ rest)))) }
{
    let mut at = 0;
    while at < piece.len() {
        let (used, stop) = take_line(floor, sink, framer, text, left, &piece[at..]);
        at += used;
        match stop {
            Some(ending) => return Some(ending),
            None => {}
        }
    }
    None
}

/// Answers the unfinished line at the end of the input, if there is one. Returns how the connection
/// ends.
fn finish<K: Seeker + Drop, W: Sink>(
    floor: &mut Floor<K>,
    sink: &mut W,
    framer: &mut LineFramer,
    text: &mut LineBuffer,
    left: &mut u64,
) -> Ending
    ensures left { left.new ≤ left.old }
    ensures never { (result ≢ Ending.ReadFault) × (result ≢ Ending.OutOfMemory) }
    ensures health { SinkFailsAtWriteFault result (W.has_failed sink.old) (W.has_failed sink.new) }
    ensures held { W.holds sink.new ≡ W.holds sink.old }
    ensures stays { KeepsDesign floor.old floor.new }
    ensures serves { (l : Legalizer) → StopsServing l result
        (writer (W.contents sink.old) (W.is_flushed sink.old) (W.has_failed sink.old))
        (writer (W.contents sink.new) (W.is_flushed sink.new) (W.has_failed sink.new))
        left.old left.new floor.old floor.new (lines_from framer.old.pending ([] ∷ [])) }
{
    let got = framer.finish();
    let Some(line) = line_given(framer, got) else {
        return Ending::Done;
    };
    if *left == 0 {
        return Ending::TooManyLines;
    }
    *left -= 1;
    match answer_line(floor, sink, text, line) {
        Some(ending) => ending,
        None => Ending::Done,
    }
}

/// Reads the input chunk by chunk and answers its lines, within these limits. Counts the lines
/// acted on down in `left.lines`.
fn serve_lines<K: Seeker + Drop, S: Source, W: Sink>(
    floor: &mut Floor<K>,
    source: &mut S,
    sink: &mut W,
    framer: &mut LineFramer,
    text: &mut LineBuffer,
    left: &mut ServeLimits,
) -> Ending
    requires fresh { framer.old.pending ≡ Some [] }
    requires countable { S.reads source.old + left.old.reads ≤ 18446744073709551615 }
    ensures left { left.new.lines ≤ left.old.lines }
    ensures reads { S.reads source.new ≤ S.reads source.old + left.old.reads }
    ensures read_fault { result ≡ Ending.ReadFault
        → (S.has_failed source.new ≡ true) ⊎ (S.reads source.new ≡ S.reads source.old + left.old.reads) }
    ensures readable { result ≢ Ending.ReadFault → S.has_failed source.new ≡ S.has_failed source.old }
    ensures some { result ≢ Ending.OutOfMemory }
    ensures health { SinkFailsAtWriteFault result (W.has_failed sink.old) (W.has_failed sink.new) }
    ensures source_held { S.holds source.new ≡ S.holds source.old }
    ensures sink_held { W.holds sink.new ≡ W.holds sink.old }
    ensures stays { KeepsDesign floor.old floor.new }
    ensures serves { (l : Legalizer) → FinishesServing l result (S.remaining source.old) (S.remaining source.new)
        (writer (W.contents sink.old) (W.is_flushed sink.old) (W.has_failed sink.old))
        (writer (W.contents sink.new) (W.is_flushed sink.new) (W.has_failed sink.new))
        left.old.lines left.new.lines floor.old floor.new }
{
    let mut buffer = [0u8; LINE];
    let mut reads_left = left.reads;
    while reads_left > 0 {
        reads_left -= 1;
        let Ok(count) = source.read(&mut buffer) else {
            return Ending::ReadFault;
        };
        if count == 0 {
            return finish(floor, sink, framer, text, &mut left.lines);
        }
        match answer_lines_in(floor, sink, framer, text, &mut left.lines, &buffer[..count]) {
            Some(ending) => return ending,
            None => {}
        }
    }
    Ending::ReadFault
}

/// The result of serving a connection. A reply that could not be written is not counted in
/// `answered`.
fn served_of(lines: u64, ending: Ending) -> Served
    ensures lines { result.lines ≡ lines }
    ensures ending { result.ending ≡ ending }
    ensures answered { result.answered ≡ answered_count ending lines }
{
    let answered = match ending {
        Ending::WriteFault => lines.saturating_sub(1),
        Ending::OutOfMemory => lines,
        Ending::Done => lines,
        Ending::Bye => lines,
        Ending::ReadFault => lines,
        Ending::TooManyLines => lines,
    };
    Served {
        lines,
        answered,
        ending,
    }
}

/// Serves the lines of the source until it ends, a line says `bye`, a device fails, or a limit is
/// reached. Each line acted on gets one reply, in order, written whole and flushed before the next
/// line is acted on. A line is one step of the floor, or gets `BadRequest` and leaves the floor
/// unchanged.
///
/// The limits bound the lines acted on and the reads made. The source and the sink must not have
/// failed before. If the ending is `ReadFault`, the reader has failed or `limits.reads` reads were
/// made. If it is `WriteFault`, the writer has failed. At other endings neither has failed. The
/// frame and the positions of components are unchanged, and a fully legal committed design stays
/// fully legal.
pub fn serve<K: Seeker + Drop, S: Source, W: Sink>(
    alloc: Global,
    floor: &mut Floor<K>,
    source: &mut S,
    sink: &mut W,
    limits: ServeLimits,
) -> Served
    requires readable { S.has_failed source.old ≡ false }
    requires writable { W.has_failed sink.old ≡ false }
    requires countable { S.reads source.old + limits.reads ≤ 18446744073709551615 }
    ensures source_held { S.holds source.new ≡ S.holds source.old }
    ensures sink_held { W.holds sink.new ≡ W.holds sink.old }
    ensures stays { KeepsDesign floor.old floor.new }
    ensures serves { (l : Legalizer)
        → ServesLines l limits.lines floor.old (S.remaining source.old) (S.remaining source.new)
        (writer (W.contents sink.old) (W.is_flushed sink.old) (W.has_failed sink.old))
        (writer (W.contents sink.new) (W.is_flushed sink.new) (W.has_failed sink.new))
        result floor.new }
    ensures lines { result.lines ≤ limits.lines }
    ensures reads { S.reads source.new ≤ S.reads source.old + limits.reads }
    ensures read_fault { result.ending ≡ Ending.ReadFault
        → (S.has_failed source.new ≡ true) ⊎ (S.reads source.new ≡ S.reads source.old + limits.reads) }
    ensures readable { result.ending ≢ Ending.ReadFault → S.has_failed source.new ≡ false }
    ensures write_fault { result.ending ≡ Ending.WriteFault → W.has_failed sink.new ≡ true }
    ensures writable { result.ending ≢ Ending.WriteFault → W.has_failed sink.new ≡ false }
    ensures unread { result.ending ≡ Ending.OutOfMemory → source.new ≡ source.old }
{
    let Ok(mut framer) = LineFramer::new(alloc) else {
        return served_of(0, Ending::OutOfMemory);
    };
    let Ok(mut text) = LineBuffer::empty(alloc) else {
        return served_of(0, Ending::OutOfMemory);
    };
    let mut left = limits;
    let ending = serve_lines(floor, source, sink, &mut framer, &mut text, &mut left);
    served_of(limits.lines - left.lines, ending)
}
