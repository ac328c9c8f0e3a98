//! The line of a name in a text, and hints at what a refused text may be instead.

ghost use Rattle.std.specs.Prelude.{◌≡◌};
ghost use Rattle.lf_lex.specs.Tokens.{tokens_of};
ghost use Rattle.lf_task_faults.specs.Hints.{compression_of, earlier_line, has_word, hint_of, is_of_other_kind, is_second, name_line, nth_line, fault_line_number, remark_of};

use crate::faults::TextKind;
use lf_lex::{FaultNumber, Lexer, LoadFault};

/// The program that compressed a file.
#[derive(Clone, Copy, Debug, PartialEq, Eq)]
pub enum Compression {
    Gzip,
    Bzip2,
    Xz,
    Zstd,
    Zip,
}

/// What a refused text may be instead.
#[derive(Clone, Copy, Debug, PartialEq, Eq)]
pub enum Hint {
    /// A compressed file.
    Compressed(Compression),
    /// A text of the other kind: DEF for LEF, or LEF for DEF.
    OtherKind,
}

/// What a refused design lacks, if its number alone does not say it.
#[derive(Clone, Copy, Debug, PartialEq, Eq)]
pub enum Remark {
    /// The DEF text has no ROW.
    NoRow,
    /// No ROW has a site of CLASS CORE with a SIZE.
    NoCoreRow,
    /// The STEP of the row is not the width of the core site.
    Step,
    /// No LEF text has the MACRO.
    NoMacro,
    /// A length is not whole in database units.
    Size,
}

/// Returns the line of the word in the text, after `passed` earlier occurrences. `None` if it does
/// not occur again.
pub(crate) fn nth_line(text: &[u8], word: &[u8], passed: usize) -> Option<usize>
    ensures { result ≡ nth_line word.now passed (tokens_of text.now).tokens }
{
    let mut lexer = Lexer::new(text);
    let mut left = passed;
    while let Ok(Some(token)) = lexer.next_token() {
        if token.text == word {
            if left == 0 {
                return Some(token.line);
            }
            left -= 1;
        }
    }
    None
}

/// Returns whether the word occurs in the text.
fn has_word(text: &[u8], word: &[u8]) -> bool
    ensures { result ≡ has_word text.now word.now }
{
    nth_line(text, word, 0).is_some()
}

/// Returns the compression of a text that begins as a file of gzip, bzip2, xz, zstd or zip.
fn compression_of(text: &[u8]) -> Option<Compression>
    ensures { result ≡ compression_of text.now }
{
    if text.starts_with(b"\x1f\x8b") {
        return Some(Compression::Gzip);
    }
    if text.starts_with(b"BZh") {
        return Some(Compression::Bzip2);
    }
    if text.starts_with(b"\xfd7zXZ") {
        return Some(Compression::Xz);
    }
    if text.starts_with(b"\x28\xb5\x2f\xfd") {
        return Some(Compression::Zstd);
    }
    if text.starts_with(b"PK\x03\x04") {
        return Some(Compression::Zip);
    }
    None
}

/// Returns what a refused design with this DEF text lacks, by the number of its refusal.
pub(crate) fn remark_of(text: &[u8], number: FaultNumber) -> Option<Remark>
    ensures { result ≡ remark_of text.now number }
{
    match number {
        FaultNumber::NoRows => {
            if has_word(text, b"ROW") {
                return Some(Remark::NoCoreRow);
            }
            Some(Remark::NoRow)
        }
        FaultNumber::BadStep => Some(Remark::Step),
        FaultNumber::NoMacro => Some(Remark::NoMacro),
        FaultNumber::NotWhole => Some(Remark::Size),
        _ => None,
    }
}

/// Returns whether the text has a word that only the other kind of text has.
fn is_of_other_kind(kind: TextKind, text: &[u8]) -> bool
    ensures { result ≡ is_of_other_kind kind text.now }
{
    match kind {
        TextKind::Lef => has_word(text, b"DESIGN"),
        TextKind::Def => has_word(text, b"MACRO") || has_word(text, b"LIBRARY"),
        TextKind::State => false,
        TextKind::Journal => false,
    }
}

/// Returns a hint at what a refused text of this kind may be instead.
pub(crate) fn hint_of(kind: TextKind, text: &[u8]) -> Option<Hint>
    ensures { result ≡ hint_of kind text.now }
{
    if let Some(compression) = compression_of(text) {
        return Some(Hint::Compressed(compression));
    }
    if is_of_other_kind(kind, text) {
        return Some(Hint::OtherKind);
    }
    None
}

/// Returns whether the refusal concerns the second of two entries of one name.
fn is_second(number: FaultNumber) -> bool
    ensures { result ≡ is_second number }
{
    match number {
        FaultNumber::SecondName => true,
        FaultNumber::SecondRegion => true,
        _ => false,
    }
}

/// Returns the line of the refused name.
fn name_line(text: &[u8], number: FaultNumber, name: &[u8]) -> Option<usize>
    ensures { result ≡ name_line text.now number name.now }
{
    if is_second(number) {
        nth_line(text, name, 1)
    } else {
        nth_line(text, name, 0)
    }
}

/// Returns the line of the fault: its own, or the one that contains its name.
pub(crate) fn fault_line(text: &[u8], fault: &LoadFault<'_>) -> Option<usize>
    ensures { result ≡ fault_line_number text.now fault.now }
{
    if fault.line.is_some() {
        return fault.line;
    }
    match fault.name {
        Some(name) => name_line(text, fault.number, name),
        None => None,
    }
}

/// Returns the line of the earlier of two entries of one name, if the later one is refused.
pub(crate) fn earlier_line(text: &[u8], fault: &LoadFault<'_>) -> Option<usize>
    ensures { result ≡ earlier_line text.now fault.now }
{
    if !is_second(fault.number) {
        return None;
    }
    match fault.name {
        Some(name) => nth_line(text, name, 0),
        None => None,
    }
}
