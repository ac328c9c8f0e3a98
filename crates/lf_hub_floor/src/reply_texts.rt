//! The texts of replies, in memory.

ghost use Rattle.std.specs.Prelude.{◌≡◌, ◌≤◌, ◌+◌, ◌++◌, [], false, length, true, vec_capacity, vec_len};
ghost use Rattle.lf_proto.specs.ReplyText.{reply_text};
ghost use Rattle.lf_server.specs.Exchanges.{is_long, reply_text_of};

use lf_floor::Floor;
use lf_legalize::Seeker;
use lf_proto::{Reply, reply_text};
use lf_server::write_short_reply;

/// Appends bytes to a buffer that has room for them.
pub(crate) fn put(out: &mut Vec<u8>, bytes: &[u8])
    requires room { vec_len out.old + length bytes.now ≤ vec_capacity out.old }
    ensures items { out.new.items ≡ out.old.items ++ bytes.now }
    ensures len { vec_len out.new ≡ vec_len out.old + length bytes.now }
    ensures capacity { vec_capacity out.old ≤ vec_capacity out.new }
{
    if out.extend_from_slice(bytes).is_err() {
        unreachable!();
    }
}

/// Returns whether the reply contains a text of any length.
fn is_long(reply: &Reply) -> bool
    ensures { result ≡ is_long reply.now }
{
    match reply {
        Reply::Report(_) => true,
        Reply::Def(_) => true,
        _ => false,
    }
}

/// Writes a text of any length. False if an allocation fails; then nothing is written.
fn write_long_reply(text: &mut Vec<u8>, reply: &Reply) -> bool
    requires empty { text.old.items ≡ [] }
    ensures text { result ≡ true → text.new.items ≡ reply_text reply.now [] [] }
    ensures full { result ≡ false → text.new.items ≡ [] }
    ensures capacity { vec_capacity text.old ≤ vec_capacity text.new }
{
    reply_text(reply, b"", b"", text).is_ok()
}

/// Writes the text of a reply to one of the team's commands into an empty buffer. False if an
/// allocation fails; then nothing is written, and the reply is a report or a DEF text.
#[tactic(auto, using(crate::proofs::Executing::long_text))]
pub(crate) fn write_reply<K: Seeker + Drop>(
    text: &mut Vec<u8>,
    floor: &Floor<K>,
    team: &[u8],
    reply: &Reply,
) -> bool
    requires empty { text.old.items ≡ [] }
    requires room { 4096 ≤ vec_capacity text.old }
    ensures text { result ≡ true → text.new.items ≡ reply_text_of floor.now team.now reply.now }
    ensures full { result ≡ false → text.new.items ≡ [] }
    ensures long { result ≡ false → is_long reply.now ≡ true }
    ensures short { is_long reply.now ≡ false → length text.new.items ≤ 4096 }
    ensures capacity { vec_capacity text.old ≤ vec_capacity text.new }
{
    if is_long(reply) {
        return write_long_reply(text, reply);
    }
    write_short_reply(text, floor, team, reply);
    true
}
