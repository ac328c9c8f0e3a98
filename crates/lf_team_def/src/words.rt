//! Words and lines.

ghost use Rattle.std.specs.Prelude.{◌∷◌, map};
ghost use Rattle.lf_lex.specs.Splices.{spaced};
ghost use Rattle.lf_io.specs.Output.{PutsText};
ghost use Rattle.lf_team_def.specs.TeamText.{words_line};
ghost use Rattle.lf_team_def.specs.Words.{def_word_text};

use itoa::Buffer;
use lf_io::Output;

/// A word of a line.
#[derive(Clone, Copy)]
pub(crate) enum Word<'a> {
    Text(&'a [u8]),
    Count(usize),
    Length(i64),
}

/// Writes the word.
fn put_word<O: Output>(out: &mut O, word: &Word<'_>)
    ensures { PutsText O.took out.old out.new (def_word_text word.now) }
{
    match word {
        Word::Text(text) => out.put(text),
        Word::Count(number) => out.put(Buffer::new().format(*number).as_bytes()),
        Word::Length(number) => out.put(Buffer::new().format(*number).as_bytes()),
    }
}

/// Writes the words, with a space in front of each.
pub(crate) fn put_spaced<O: Output>(out: &mut O, words: &[Word<'_>])
    ensures { PutsText O.took out.old out.new (spaced (map def_word_text words.now)) }
{
    for word in words {
        out.put(b" ");
        put_word(out, word);
    }
}

/// Writes a line of words. The first word is given separately.
pub(crate) fn put_line<O: Output>(out: &mut O, first: &[u8], words: &[Word<'_>])
    ensures { PutsText O.took out.old out.new (words_line (first.now ∷ map def_word_text words.now)) }
{
    out.put(first);
    put_spaced(out, words);
    out.put(b"\n");
}
