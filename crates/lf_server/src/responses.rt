//! Sending of replies.

ghost use Rattle.std.specs.Prelude.{◌≡◌, ◌≤◌, ◌+◌, ◌++◌, ◌∷◌, [], ℕ, OnErr, OnOk, codes, decimal, false, length, take, true, vec_capacity};
ghost use Rattle.std.specs.Io.KnownBytes.{Appends};
ghost use Rattle.lf_proto.specs.ReplyText.{spaced_line};
ghost use Rattle.lf_floor.specs.Responses.{def_text, reply_in};
ghost use Rattle.lf_floor.specs.declared.response.Response.TheVariants.{DefText};
ghost use Rattle.lf_server.specs.Exchanges.{reply_text_of};
ghost use Rattle.lf_server.specs.Pieces.{IsUnderWay, has_failed_since};

use crate::answer::write_short_reply;
use crate::buffered_output::BufferedOutput;
use crate::line_buffer::{LineBuffer, put};
use itoa::Buffer;
use lf_floor::{Floor, Response};
use lf_io::{DeviceFault, Sink, send};
use lf_legalize::Seeker;
use lf_proto::Reply;

/// Replaces the buffer's contents with the line in front of a DEF text of `count` bytes.
fn put_def_line(text: &mut LineBuffer, count: usize)
    ensures { text.new.bytes.items ≡ spaced_line (codes "ok" ∷ decimal count ∷ []) }
{
    let mut number = Buffer::new();
    text.bytes.clear();
    put(&mut text.bytes, b"ok ");
    put(&mut text.bytes, number.format(count).as_bytes());
    put(&mut text.bytes, b"\n");
}

/// Sends the first bytes and then the second, as `send` does.
pub(crate) fn send_both<W: Sink>(
    sink: &mut W,
    first: &[u8],
    second: &[u8],
) -> Result<(), DeviceFault>
    ensures ok { OnOk result (Appends (W.contents sink.old) (W.contents sink.new) (first.now ++ second.now)) }
    ensures flushed { OnOk result (W.is_flushed sink.new ≡ true) }
    ensures healthy { OnOk result (W.has_failed sink.new ≡ W.has_failed sink.old) }
    ensures prefix { OnErr result
        ((n : ℕ) × Appends (W.contents sink.old) (W.contents sink.new) (take n (first.now ++ second.now))) }
    ensures failed { OnErr result (W.has_failed sink.new ≡ true) }
    ensures held { W.holds sink.new ≡ W.holds sink.old }
{
    send(sink, first)?;
    send(sink, second)
}

/// Sends the text of a reply to a command of the team, as `send` does. A report or a DEF text is
/// sent directly from the reply. The line in front of a DEF text, and any other reply, goes through
/// the buffer.
fn send_reply<K: Seeker + Drop, W: Sink>(
    sink: &mut W,
    text: &mut LineBuffer,
    floor: &Floor<K>,
    team: &[u8],
    reply: &Reply,
) -> Result<(), DeviceFault>
    ensures ok { OnOk result
        (Appends (W.contents sink.old) (W.contents sink.new) (reply_text_of floor.now team.now reply.now)) }
    ensures flushed { OnOk result (W.is_flushed sink.new ≡ true) }
    ensures healthy { OnOk result (W.has_failed sink.new ≡ W.has_failed sink.old) }
    ensures prefix { OnErr result ((n : ℕ)
        × Appends (W.contents sink.old) (W.contents sink.new) (take n (reply_text_of floor.now team.now reply.now))) }
    ensures failed { OnErr result (W.has_failed sink.new ≡ true) }
    ensures held { W.holds sink.new ≡ W.holds sink.old }
{
    match reply {
        Reply::Report(report) => {
            send_both(sink, b"ok ", report.as_bytes())?;
            send(sink, b"\n")
        }
        Reply::Def(def) => {
            put_def_line(text, def.as_bytes().len());
            send_both(sink, text.bytes.as_slice(), def.as_bytes())
        }
        _ => {
            write_short_reply(&mut text.bytes, floor, team, reply);
            send(sink, text.bytes.as_slice())
        }
    }
}

/// Writes the team's DEF text to the output, whose sink has not failed.
fn put_pieces<K: Seeker + Drop, W: Sink>(
    pieces: &mut BufferedOutput<'_, W>,
    floor: &Floor<K>,
    team: &[u8],
)
    requires { pieces.old.failed ≡ false }
    ensures under_way { IsUnderWay pieces.new.failed (W.contents pieces.old.sink.now) (W.contents pieces.new.sink.now)
        (pieces.old.waiting.now.items ++ def_text floor.now team.now) pieces.new.waiting.now.items }
    ensures failed { W.has_failed pieces.new.sink.now
        ≡ has_failed_since pieces.new.failed (W.has_failed pieces.old.sink.now) }
    ensures held { W.holds pieces.new.sink.now ≡ W.holds pieces.old.sink.now }
    ensures room { vec_capacity pieces.old.waiting.now ≤ vec_capacity pieces.new.waiting.now }
    ensures same_sink { pieces.new.sink.ghost_name ≡ pieces.old.sink.ghost_name }
    ensures same_buffer { pieces.new.waiting.ghost_name ≡ pieces.old.waiting.ghost_name }
{
    floor.write_def(team, pieces);
}

/// Sends the buffer's contents and then the team's DEF text, as `send` does, in chunks that fit
/// into the buffer.
fn send_def<K: Seeker + Drop, W: Sink>(
    sink: &mut W,
    text: &mut Vec<u8>,
    floor: &Floor<K>,
    team: &[u8],
) -> Result<(), DeviceFault>
    ensures ok { OnOk result
        (Appends (W.contents sink.old) (W.contents sink.new) (text.old.items ++ def_text floor.now team.now)) }
    ensures flushed { OnOk result (W.is_flushed sink.new ≡ true) }
    ensures healthy { OnOk result (W.has_failed sink.new ≡ W.has_failed sink.old) }
    ensures prefix { OnErr result ((n : ℕ) × Appends (W.contents sink.old) (W.contents sink.new)
        (take n (text.old.items ++ def_text floor.now team.now))) }
    ensures failed { OnErr result (W.has_failed sink.new ≡ true) }
    ensures held { W.holds sink.new ≡ W.holds sink.old }
    ensures room { vec_capacity text.old ≤ vec_capacity text.new }
{
    let mut pieces = BufferedOutput::new(sink, text);
    put_pieces(&mut pieces, floor, team);
    pieces.finish()
}

/// Sends the text of the response to a command of the team, as `send` does. A DEF text follows its
/// line in chunks.
pub(crate) fn send_response<K: Seeker + Drop, W: Sink>(
    sink: &mut W,
    text: &mut LineBuffer,
    floor: &Floor<K>,
    team: &[u8],
    response: &Response,
) -> Result<(), DeviceFault>
    requires { (count : ℕ) → response.now ≡ DefText count → count ≡ length (def_text floor.now team.now) }
    ensures ok { OnOk result (Appends (W.contents sink.old) (W.contents sink.new)
        (reply_text_of floor.now team.now (reply_in floor.now team.now response.now))) }
    ensures flushed { OnOk result (W.is_flushed sink.new ≡ true) }
    ensures healthy { OnOk result (W.has_failed sink.new ≡ W.has_failed sink.old) }
    ensures prefix { OnErr result ((n : ℕ)
        × Appends (W.contents sink.old) (W.contents sink.new)
        (take n (reply_text_of floor.now team.now (reply_in floor.now team.now response.now)))) }
    ensures failed { OnErr result (W.has_failed sink.new ≡ true) }
    ensures held { W.holds sink.new ≡ W.holds sink.old }
{
    match response {
        Response::Reply(reply) => send_reply(sink, text, floor, team, reply),
        Response::DefText(count) => {
            put_def_line(text, *count);
            send_def(sink, &mut text.bytes, floor, team)
        }
    }
}
