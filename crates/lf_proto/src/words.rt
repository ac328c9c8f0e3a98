//! Words and lines, appended to a text.

ghost use Rattle.std.specs.Prelude.{◌≡◌, ◌<◌, ◌≤◌, ◌+◌, ◌++◌, ◌∷◌, OnOk, OnErr, length, map, take, vec_len, vec_capacity};
ghost use Rattle.std.specs.List.{flat_map};
ghost use Rattle.lf_proto.specs.ReplyText.{spaced_line};
ghost use Rattle.lf_proto.specs.Words.{spaced_word, word_text};

use itoa::Buffer;
use std::alloc::AllocError;

/// A word of a line.
#[derive(Clone, Copy)]
pub(crate) enum Word<'a> {
    Text(&'a [u8]),
    Number(u32),
    Length(usize),
    Signed(i32),
    Long(i64),
}

/// Appends the bytes. An `Err` changes nothing.
pub(crate) fn put(out: &mut Vec<u8>, bytes: &[u8]) -> Result<(), AllocError>
    ensures ok { OnOk result (out.new.items ≡ out.old.items ++ bytes.now) }
    ensures len { OnOk result (vec_len out.new ≡ vec_len out.old + length bytes.now) }
    ensures err { OnErr result (out.new.items ≡ out.old.items) }
    ensures full { OnErr result (vec_capacity out.old < vec_len out.old + length bytes.now) }
    ensures capacity { vec_capacity out.old ≤ vec_capacity out.new }
{
    out.extend_from_slice(bytes)
}

/// Appends the word. An `Err` changes nothing.
fn put_word(out: &mut Vec<u8>, word: &Word<'_>) -> Result<(), AllocError>
    ensures ok { OnOk result (out.new.items ≡ out.old.items ++ word_text word.now) }
    ensures err { OnErr result (out.new.items ≡ out.old.items) }
    ensures full { OnErr result (vec_capacity out.old < vec_len out.old + length (word_text word.now)) }
    ensures capacity { vec_capacity out.old ≤ vec_capacity out.new }
{
    match word {
        Word::Text(text) => put(out, text),
        Word::Number(number) => put(out, Buffer::new().format(*number).as_bytes()),
        Word::Length(number) => put(out, Buffer::new().format(*number).as_bytes()),
        Word::Signed(number) => put(out, Buffer::new().format(*number).as_bytes()),
        Word::Long(number) => put(out, Buffer::new().format(*number).as_bytes()),
    }
}

/// Appends a space and the word. An `Err` may leave a part of them appended.
fn put_spaced(out: &mut Vec<u8>, word: &Word<'_>) -> Result<(), AllocError>
    ensures ok { OnOk result (out.new.items ≡ out.old.items ++ spaced_word word.now) }
    ensures kept { take (vec_len out.old) out.new.items ≡ out.old.items }
    ensures full { OnErr result (vec_capacity out.old < vec_len out.old + length (spaced_word word.now)) }
    ensures capacity { vec_capacity out.old ≤ vec_capacity out.new }
{
    put(out, b" ")?;
    put_word(out, word)
}

/// Appends the words, each after a space. An `Err` may leave a part of them appended.
fn put_words(out: &mut Vec<u8>, words: &[Word<'_>]) -> Result<(), AllocError>
    ensures ok { OnOk result (out.new.items ≡ out.old.items ++ flat_map spaced_word words.now) }
    ensures len { OnOk result (vec_len out.new ≡ vec_len out.old + length (flat_map spaced_word words.now)) }
    ensures kept { take (vec_len out.old) out.new.items ≡ out.old.items }
    ensures full { OnErr result (vec_capacity out.old < vec_len out.old + length (flat_map spaced_word words.now)) }
    ensures capacity { vec_capacity out.old ≤ vec_capacity out.new }
{
    for word in words {
        put_spaced(out, word)?;
    }
    Ok(())
}

/// Appends a line of words, given its first word and the others. An `Err` may leave a part of it
/// appended.
#[tactic(auto, using(crate::proofs::Fronts::line_is))]
pub(crate) fn put_line(
    out: &mut Vec<u8>,
    first: &[u8],
    words: &[Word<'_>],
) -> Result<(), AllocError>
    ensures ok { OnOk result (out.new.items ≡ out.old.items ++ spaced_line (first.now ∷ map word_text words.now)) }
    ensures kept { take (vec_len out.old) out.new.items ≡ out.old.items }
    ensures full { OnErr result
        (vec_capacity out.old < vec_len out.old + length (spaced_line (first.now ∷ map word_text words.now))) }
    ensures capacity { vec_capacity out.old ≤ vec_capacity out.new }
{
    put(out, first)?;
    put_words(out, words)?;
    put(out, b"\n")
}
