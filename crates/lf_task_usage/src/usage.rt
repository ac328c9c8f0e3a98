//! The message about words that name no task.

ghost use Rattle.std.specs.Prelude.{◌≡◌, ℕ, List, OnErr, OnOk, map, true};
ghost use Rattle.std.specs.Io.KnownBytes.{Appends};
ghost use Rattle.lf_task_usage.specs.Usage.{AppendsLines, hint_text, message_line, named_hint, second_word, subcommand_hint, usage_text};

use lf_cli::{help_of, usage_message};
use lf_io::{DeviceFault, Sink, send};
use std::alloc::Global;

/// How to get the help of the program.
pub(crate) const HINT: &str = "  lefence --help                all subcommands and their options
";

/// How to get the help of a subcommand, if the words name none.
pub(crate) const ANY_HINT: &str =
    "  lefence demo --help           what a subcommand does, with an example (so for each of them)
";

/// Writes a line of a message.
fn put_line<W: Sink>(sink: &mut W, text: &str) -> Result<(), DeviceFault>
    ensures ok { OnOk result (Appends (W.contents sink.old) (W.contents sink.new) (message_line text.now)) }
    ensures failed { OnErr result (W.has_failed sink.new ≡ true) }
    ensures held { W.holds sink.new ≡ W.holds sink.old }
{
    send(sink, b"lefence: ")?;
    send(sink, text.as_bytes())?;
    send(sink, b"\n")
}

/// Writes what a line of the parser's message says, if it says anything.
#[tactic(auto, using(crate::proofs::Said::nothing_said, crate::proofs::Said::said_on_ok))]
fn put_complaint<W: Sink>(sink: &mut W, line: &str) -> Result<(), DeviceFault>
    ensures ok { OnOk result (AppendsLines (W.contents sink.old) (W.contents sink.new)) }
    ensures failed { OnErr result (W.has_failed sink.new ≡ true) }
    ensures held { W.holds sink.new ≡ W.holds sink.old }
{
    let line = line.trim();
    let complaint = line.strip_prefix("error: ").unwrap_or(line);
    if complaint.is_empty() {
        return Ok(());
    }
    put_line(sink, complaint)
}

/// Returns whether the parser's own usage begins with this line.
fn begins_usage(line: &str) -> bool {
    line.starts_with("Usage:") || line.starts_with("For more")
}

/// Writes the lines of the parser's message that precede its own usage.
#[tactic(auto, using(crate::proofs::Said::nothing_said))]
fn put_complaints<W: Sink>(sink: &mut W, message: &str) -> Result<(), DeviceFault>
    ensures ok { OnOk result (AppendsLines (W.contents sink.old) (W.contents sink.new)) }
    ensures failed { OnErr result (W.has_failed sink.new ≡ true) }
    ensures held { W.holds sink.new ≡ W.holds sink.old }
{
    for line in message.lines() {
        if begins_usage(line) {
            return Ok(());
        }
        put_complaint(sink, line)?;
    }
    Ok(())
}

/// Writes which word is wrong or missing, and what is allowed. Writes nothing if an allocation fails.
fn put_reasons<W: Sink>(alloc: Global, sink: &mut W, words: &[&str]) -> Result<(), DeviceFault>
    ensures ok { OnOk result (AppendsLines (W.contents sink.old) (W.contents sink.new)) }
    ensures failed { OnErr result (W.has_failed sink.new ≡ true) }
    ensures held { W.holds sink.new ≡ W.holds sink.old }
{
    match usage_message(alloc, words) {
        Ok(Some(message)) => put_complaints(sink, message.as_str()),
        _ => put_complaints(sink, ""),
    }
}

/// Returns the word after the program's name. It is empty if there is none.
fn second_word<'a>(words: &'a [&'a str]) -> &'a str
    ensures { result.now ≡ second_word (map (λ word. word.now) words.now) }
{
    if words.len() > 1 {
        return words[1];
    }
    ""
}

/// Writes how to get the help of the subcommand of this word.
fn put_subcommand_hint<W: Sink>(sink: &mut W, word: &str) -> Result<(), DeviceFault>
    ensures ok { OnOk result (Appends (W.contents sink.old) (W.contents sink.new) (subcommand_hint word.now)) }
    ensures failed { OnErr result (W.has_failed sink.new ≡ true) }
    ensures held { W.holds sink.new ≡ W.holds sink.old }
{
    send(sink, b"  lefence ")?;
    send(sink, word.as_bytes())?;
    send(sink, b" --help   what it does, with an example")?;
    send(sink, b"\n")
}

/// Writes how to get the help of the subcommand of this word, or of any if it is of none.
#[tactic(auto, using(crate::proofs::Said::hint_named, crate::proofs::Said::hint_unnamed))]
fn put_named_hint<W: Sink>(sink: &mut W, word: &str) -> Result<(), DeviceFault>
    ensures ok { OnOk result (Appends (W.contents sink.old) (W.contents sink.new) (named_hint word.now)) }
    ensures failed { OnErr result (W.has_failed sink.new ≡ true) }
    ensures held { W.holds sink.new ≡ W.holds sink.old }
{
    match help_of(&["lefence", word, "--help"]) {
        Some(_) => put_subcommand_hint(sink, word),
        None => send(sink, ANY_HINT.as_bytes()),
    }
}

/// Writes how to get help, also for the subcommand that the words name.
fn put_hint<W: Sink>(sink: &mut W, words: &[&str]) -> Result<(), DeviceFault>
    ensures ok { OnOk result (Appends (W.contents sink.old) (W.contents sink.new)
        (hint_text (map (λ word. word.now) words.now))) }
    ensures failed { OnErr result (W.has_failed sink.new ≡ true) }
    ensures held { W.holds sink.new ≡ W.holds sink.old }
{
    send(sink, HINT.as_bytes())?;
    put_named_hint(sink, second_word(words))
}

/// Writes the message about words that name no task: which word is wrong, as the parser says, and how
/// to get help. `Err` if a write fails.
pub fn write_usage<W: Sink>(alloc: Global, sink: &mut W, words: &[&str]) -> Result<(), DeviceFault>
    ensures ok { OnOk result ((said : List (List ℕ)) × Appends (W.contents sink.old) (W.contents sink.new)
        (usage_text said (map (λ word. word.now) words.now))) }
    ensures failed { OnErr result (W.has_failed sink.new ≡ true) }
    ensures held { W.holds sink.new ≡ W.holds sink.old }
{
    put_line(sink, "usage")?;
    put_reasons(alloc, sink, words)?;
    put_hint(sink, words)
}
