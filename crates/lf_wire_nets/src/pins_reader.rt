//! The statements of a LEF text.

ghost use Rattle.std.specs.Prelude.{◌≡◌, [], Ok, All, IfErr, OnOk};
ghost use Rattle.lf_lex.specs.Tokens.{lexeme};
ghost use Rattle.lf_lex.specs.Reading.{Reads, ReadsOn, ReadsTurn, Fails, turn};
ghost use Rattle.lf_wire_nets.specs.MacroPins.{HasMacroPins};
ghost use Rattle.lf_wire_nets.specs.LibraryPins as grammar;

use crate::macros::{MacroPins, macro_pins};
use lf_lef::{skip_lef_statement, skip_to_named_end};
use lf_lex::{Lexer, LoadFault, ReadError, Token, end_name, is_token, next};
use lf_units::Sequence;
use std::alloc::Global;
use std::marker::Model;

/// Skips a statement other than MACRO, after its first token.
#[tactic(auto, unfolding(crate::specs::LibraryPins::skip_site_or))]
fn skip_site_or(lexer: &mut Lexer, token: &Token) -> Result<(), ReadError>
    ensures { ReadsOn (λ x. x) result (grammar.skip_site_or (lexeme token.now)) lexer.old lexer.new }
{
    if is_token(b"SITE", token) {
        skip_to_named_end(lexer)
    } else {
        skip_lef_statement(lexer, token)
    }
}

/// Reads a macro, after its keyword, and appends it.
#[tactic(auto, unfolding(crate::specs::LibraryPins::with_macro_pins))]
fn add_macro<'a>(
    alloc: Global,
    lexer: &mut Lexer<'a>,
    macros: &mut Sequence<MacroPins<'a>>,
) -> Result<(), ReadError>
    requires range { All HasMacroPins macros.old }
    ensures read { Reads (λ _. macros.new) result
        (grammar.with_macro_pins macros.old) lexer.old lexer.new }
    ensures range { All HasMacroPins macros.new }
{
    let found = macro_pins(alloc, lexer)?;
    macros.push(found)?;
    Ok(())
}

/// Reads a statement of the text, after its first token. Returns whether more statements follow.
#[tactic(auto, unfolding(crate::specs::LibraryPins::macros_statement_from))]
fn statement_from<'a>(
    alloc: Global,
    lexer: &mut Lexer<'a>,
    macros: &mut Sequence<MacroPins<'a>>,
    token: &Token,
) -> Result<bool, ReadError>
    requires range { All HasMacroPins macros.old }
    ensures read { ReadsOn (turn macros.new) result
        (grammar.macros_statement_from macros.old (lexeme token.now)) lexer.old lexer.new }
    ensures range { All HasMacroPins macros.new }
{
    if is_token(b"END", token) {
        end_name(lexer, b"LIBRARY")?;
        return Ok(false);
    }
    if is_token(b"MACRO", token) {
        add_macro(alloc, lexer, macros)?;
    } else {
        skip_site_or(lexer, token)?;
    }
    Ok(true)
}

#[tactic(auto, unfolding(crate::specs::LibraryPins::macros_statement))]
fn statement<'a>(
    alloc: Global,
    lexer: &mut Lexer<'a>,
    macros: &mut Sequence<MacroPins<'a>>,
) -> Result<bool, ReadError>
    requires range { All HasMacroPins macros.old }
    ensures read { ReadsTurn (turn macros.new) result
        (grammar.macros_statement macros.old) lexer.old lexer.new }
    ensures range { All HasMacroPins macros.new }
{
    match next(lexer)? {
        Some(token) => statement_from(alloc, lexer, macros, &token),
        None => Ok(false),
    }
}

/// The macros of the LEF texts that were read, with their pins, in the order of the texts. Several
/// may have one name. A contract sees the list of macros.
#[derive(Drop)]
pub struct LibraryPins<'a> {
    macros: Sequence<MacroPins<'a>>,
}

impl<'a> Model for LibraryPins<'a> {
    ghost use Rattle.std.specs.Prelude.{All, List};
    ghost use Rattle.lf_wire_nets.specs.StoredPins.{MacroPinFacts};
    ghost use Rattle.lf_wire_nets.specs.MacroPins.{HasMacroPins};

    ghost Value = { List MacroPinFacts };

    ghost view = { λ l. l.macros };

    ghost invariant = { λ l. All HasMacroPins l.macros };
}

impl<'a> LibraryPins<'a> {
    /// Returns an empty list. Allocates nothing.
    pub fn new(alloc: Global) -> Self
        ensures { result ≡ [] }
    {
        LibraryPins {
            macros: Sequence::new(alloc),
        }
    }

    /// Returns the macros.
    pub fn macros(&self) -> &[MacroPins<'a>]
        ensures macros { result.now ≡ self.now }
        ensures range { All HasMacroPins self.now }
    {
        self.macros.as_slice()
    }
}

/// Reads the statements of a text. After a failure the list keeps what was read so far.
fn read_statements<'a>(
    alloc: Global,
    macros: &mut Sequence<MacroPins<'a>>,
    text: &'a [u8],
) -> Result<(), ReadError>
    requires range { All HasMacroPins macros.old }
    ensures ok { OnOk result (grammar.pins_after macros.old text.now ≡ Ok macros.new) }
    ensures fault { IfErr result (λ e. Fails e (grammar.pins_after macros.old text.now)) }
    ensures range { All HasMacroPins macros.new }
{
    let mut lexer = Lexer::new(text);
    while statement(alloc, &mut lexer, macros)? {}
    Ok(())
}

/// Appends the macros of a LEF text, up to END LIBRARY or the end of the text between statements,
/// with their pins. Macros and pins are in the order of the text; several may have one name.
///
/// Unless an allocation fails, this succeeds if and only if the text is LEF by the grammar in
/// `specs/`. The list is then what the grammar makes of it.
///
/// `Err` is the first fault in the order of the tokens, with its line: BadToken, UnexpectedEnd,
/// Unexpected, BadNumber, WrongEnd or TooMany. It is OutOfMemory, without a line, if an allocation
/// fails. The list then has the macros in front of the fault too.
pub fn read_pins<'a>(
    alloc: Global,
    library: &mut LibraryPins<'a>,
    text: &'a [u8],
) -> Result<(), LoadFault<'a>>
    ensures ok { OnOk result (grammar.pins_after library.old text.now ≡ Ok library.new) }
    ensures fault { IfErr result
        (λ fault. grammar.RefusesPins fault (grammar.pins_after library.old text.now)) }
{
    match read_statements(alloc, &mut library.macros, text) {
        Ok(()) => Ok(()),
        Err(error) => Err(error.into_load_fault()),
    }
}
