//! The texts of replies.

ghost use Rattle.std.specs.Prelude.{◌≡◌, ◌<◌, ◌≤◌, ◌+◌, ◌++◌, [], ◌∷◌, OnOk, OnErr, IsOk, codes, length, take, vec_len, vec_capacity};
ghost use Rattle.lf_proto.specs.Words.{word_text};
ghost use Rattle.lf_proto.specs.ReplyText.{illegal_words, spaced_line, refusal_words, reply_line, reply_text, text_after};

use crate::reply::{Refusal, Reply};
use crate::words::{Word, put, put_line};
use lf_orient::orient_word;
use lf_rules::Rule;
use std::alloc::AllocError;

/// Appends the line of a refusal that names no cell. An `Err` may leave a part of it appended.
fn put_plain<'x>(out: &mut Vec<u8>, number: &'x [u8], name: &'x [u8]) -> Result<(), AllocError>
    ensures ok { OnOk result (out.new.items ≡ out.old.items ++ spaced_line (codes "no" ∷ number.now ∷ name.now ∷ [])) }
    ensures kept { take (vec_len out.old) out.new.items ≡ out.old.items }
    ensures full { OnErr result
        (vec_capacity out.old < vec_len out.old + length (spaced_line (codes "no" ∷ number.now ∷ name.now ∷ []))) }
    ensures capacity { vec_capacity out.old ≤ vec_capacity out.new }
{
    put_line(out, b"no", &[Word::Text(number), Word::Text(name)])
}

/// Appends the line of a refusal with one more word. An `Err` may leave a part of it appended.
fn put_with<'x>(
    out: &mut Vec<u8>,
    number: &'x [u8],
    name: &'x [u8],
    word: &Word<'x>,
) -> Result<(), AllocError>
    ensures ok { OnOk result (out.new.items
        ≡ out.old.items ++ spaced_line (codes "no" ∷ number.now ∷ name.now ∷ word_text word.now ∷ [])) }
    ensures kept { take (vec_len out.old) out.new.items ≡ out.old.items }
    ensures full { OnErr result (vec_capacity out.old < vec_len out.old
        + length (spaced_line (codes "no" ∷ number.now ∷ name.now ∷ word_text word.now ∷ []))) }
    ensures capacity { vec_capacity out.old ≤ vec_capacity out.new }
{
    put_line(out, b"no", &[Word::Text(number), Word::Text(name), *word])
}

/// Appends the line of a place that breaks a rule, with the second name if there is another cell.
/// An `Err` may leave a part of it appended.
fn put_illegal<'x>(
    rule: Rule,
    other: Option<u32>,
    cell_name: &'x [u8],
    other_name: &'x [u8],
    out: &mut Vec<u8>,
) -> Result<(), AllocError>
    ensures ok { OnOk result (out.new.items
        ≡ out.old.items ++ spaced_line (codes "no" ∷ illegal_words rule other cell_name.now other_name.now)) }
    ensures kept { take (vec_len out.old) out.new.items ≡ out.old.items }
    ensures full { OnErr result (vec_capacity out.old
        < vec_len out.old + length (spaced_line (codes "no" ∷ illegal_words rule other cell_name.now other_name.now))) }
    ensures capacity { vec_capacity out.old ≤ vec_capacity out.new }
{
    let number = Word::Number(rule.number());
    match other {
        None => put_line(
            out,
            b"no",
            &[
                Word::Text(b"7"),
                Word::Text(b"Illegal"),
                number,
                Word::Text(cell_name),
            ],
        ),
        Some(_) => put_line(
            out,
            b"no",
            &[
                Word::Text(b"7"),
                Word::Text(b"Illegal"),
                number,
                Word::Text(cell_name),
                Word::Text(other_name),
            ],
        ),
    }
}

/// Appends the line of a refusal. An `Err` may leave a part of it appended.
fn put_refusal<'x>(
    refusal: &Refusal,
    cell_name: &'x [u8],
    other_name: &'x [u8],
    out: &mut Vec<u8>,
) -> Result<(), AllocError>
    ensures ok { OnOk result (out.new.items
        ≡ out.old.items ++ spaced_line (codes "no" ∷ refusal_words refusal.now cell_name.now other_name.now)) }
    ensures kept { take (vec_len out.old) out.new.items ≡ out.old.items }
    ensures full { OnErr result (vec_capacity out.old < vec_len out.old
        + length (spaced_line (codes "no" ∷ refusal_words refusal.now cell_name.now other_name.now))) }
    ensures capacity { vec_capacity out.old ≤ vec_capacity out.new }
{
    match refusal {
        Refusal::BadRequest => put_plain(out, b"1", b"BadRequest"),
        Refusal::NoTeam => put_plain(out, b"2", b"NoTeam"),
        Refusal::NoSession => put_plain(out, b"3", b"NoSession"),
        Refusal::Stale { revision } => put_with(out, b"4", b"Stale", &Word::Number(*revision)),
        Refusal::NoCell => put_plain(out, b"5", b"NoCell"),
        Refusal::Unplaced { .. } => put_with(out, b"6", b"Unplaced", &Word::Text(cell_name)),
        Refusal::Illegal { rule, other, .. } => {
            put_illegal(*rule, *other, cell_name, other_name, out)
        }
        Refusal::NoPlace { .. } => put_with(out, b"8", b"NoPlace", &Word::Text(cell_name)),
        Refusal::NothingToUndo => put_plain(out, b"9", b"NothingToUndo"),
        Refusal::SessionsFull => put_plain(out, b"10", b"SessionsFull"),
        Refusal::RevisionsSpent => put_plain(out, b"11", b"RevisionsSpent"),
        Refusal::OutOfMemory => put_plain(out, b"12", b"OutOfMemory"),
    }
}

/// Appends the line of a reply. An `Err` may leave a part of it appended.
fn put_reply_line(
    reply: &Reply,
    cell_name: &[u8],
    other_name: &[u8],
    out: &mut Vec<u8>,
) -> Result<(), AllocError>
    ensures ok { OnOk result (out.new.items ≡ out.old.items ++ reply_line reply.now cell_name.now other_name.now) }
    ensures kept { take (vec_len out.old) out.new.items ≡ out.old.items }
    ensures full { OnErr result
        (vec_capacity out.old < vec_len out.old + length (reply_line reply.now cell_name.now other_name.now)) }
    ensures capacity { vec_capacity out.old ≤ vec_capacity out.new }
{
    match reply {
        Reply::Done => put_line(out, b"ok", &[]),
        Reply::Opened { session, revision } => put_line(
            out,
            b"ok",
            &[Word::Number(*session), Word::Number(*revision)],
        ),
        Reply::Revision(revision) => put_line(out, b"ok", &[Word::Number(*revision)]),
        Reply::At(place) => put_line(
            out,
            b"ok",
            &[
                Word::Signed(place.x),
                Word::Signed(place.y),
                Word::Text(orient_word(place.orient)),
            ],
        ),
        Reply::Legalized {
            revision,
            place: best,
        } => put_line(
            out,
            b"ok",
            &[
                Word::Number(*revision),
                Word::Signed(best.x),
                Word::Signed(best.y),
                Word::Text(orient_word(best.orient)),
            ],
        ),
        Reply::Tidied { revision, moved } => put_line(
            out,
            b"ok",
            &[Word::Number(*revision), Word::Number(*moved)],
        ),
        Reply::Report(text) => put_line(out, b"ok", &[Word::Text(text.as_bytes())]),
        Reply::Def(text) => put_line(out, b"ok", &[Word::Length(text.as_bytes().len())]),
        Reply::Refused(refusal) => put_refusal(refusal, cell_name, other_name, out),
    }
}

/// The text after the line of a reply.
fn text_after(reply: &Reply) -> &[u8]
    ensures { result.now ≡ text_after reply.now }
{
    match reply {
        Reply::Def(text) => text.as_bytes(),
        _ => b"",
    }
}

/// Appends the line of a reply and the text after it. An `Err` may leave a part of them appended.
fn put_reply(
    reply: &Reply,
    cell_name: &[u8],
    other_name: &[u8],
    out: &mut Vec<u8>,
) -> Result<(), AllocError>
    ensures ok { OnOk result (out.new.items ≡ out.old.items ++ reply_text reply.now cell_name.now other_name.now) }
    ensures kept { take (vec_len out.old) out.new.items ≡ out.old.items }
    ensures full { OnErr result
        (vec_capacity out.old < vec_len out.old + length (reply_text reply.now cell_name.now other_name.now)) }
    ensures capacity { vec_capacity out.old ≤ vec_capacity out.new }
{
    put_reply_line(reply, cell_name, other_name, out)?;
    put(out, text_after(reply))
}

/// Appends the text of a reply: its line with the line feed, and the text after it. `cell_name` is
/// the name of the reply's cell, and `other_name` that of the other cell of an overlap. A reply
/// without these cells leaves the names out.
///
/// `Err` if an allocation fails; then the bytes of `out` are unchanged. No allocation fails if the
/// text fits into the capacity of `out`.
pub fn reply_text(
    reply: &Reply,
    cell_name: &[u8],
    other_name: &[u8],
    out: &mut Vec<u8>,
) -> Result<(), AllocError>
    ensures ok { OnOk result (out.new.items ≡ out.old.items ++ reply_text reply.now cell_name.now other_name.now) }
    ensures err { OnErr result (out.new.items ≡ out.old.items) }
    ensures succeeds { vec_len out.old + length (reply_text reply.now cell_name.now other_name.now)
        ≤ vec_capacity out.old → IsOk result }
    ensures capacity { vec_capacity out.old ≤ vec_capacity out.new }
{
    let before = out.len();
    let written = put_reply(reply, cell_name, other_name, out);
    if written.is_err() {
        out.truncate(before);
    }
    written
}
