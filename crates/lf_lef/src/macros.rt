//! Macros: MACRO name, its statements, END name.

ghost use Rattle.std.specs.Prelude.{◌≡◌, IfOk, IfSome};
ghost use Rattle.lf_lex.specs.Tokens.{lexeme};
ghost use Rattle.lf_lex.specs.Reading.{Reads, ReadsOn, turn};
ghost use Rattle.lf_lef.specs.Lengths.{HasRange};
ghost use Rattle.lf_lef.specs.Macros as grammar;
ghost use Rattle.lf_lef.specs.MacroRange.{HasRanges};

use crate::lengths::{keep_first, origin, size};
use crate::pins::{Pin, rail_of, read_pin};
use crate::sites::{no_point, symmetry};
use lf_floorplan::Macro;
use lf_lex::{
    Block, Lexer, ReadError, Token, end_name, is_token, read_block, skip_to_end, skip_to_semicolon,
    token,
};
use lf_orient::{Rail, Symmetry};
use lf_units::{Name, Point, Sequence};
use std::alloc::Global;

/// The statements of a macro: the first SIZE, ORIGIN and SYMMETRY, and all pins.
#[derive(Drop)]
pub struct MacroParts {
    pub size: Option<Point>,
    pub origin: Option<Point>,
    pub symmetry: Option<Symmetry>,
    pub pins: Sequence<Pin>,
}

/// Skips the statements of OBS or DENSITY.
#[derive(Drop)]
struct PassedStatements;

impl Block for PassedStatements {
    type State = ();

    ghost statement = { λ _. grammar.passed_statement };

    #[tactic(auto, unfolding(crate::specs::Macros::passed_statement))]
    fn turn(&self, lexer: &mut Lexer, _state: &mut ()) -> Result<bool, ReadError> {
        let token = token(lexer)?;
        if is_token(b"END", &token) {
            return Ok(false);
        }
        if !is_token(b";", &token) {
            skip_to_semicolon(lexer)?;
        }
        Ok(true)
    }
}

/// Skips a statement of a macro that placement does not need, after its first token.
#[tactic(auto, unfolding(crate::specs::Macros::skip_lef_from))]
pub fn skip_macro_statement(lexer: &mut Lexer, token: &Token) -> Result<(), ReadError>
    ensures { ReadsOn (λ x. x) result (grammar.skip_lef_from (lexeme token.now)) lexer.old lexer.new }
{
    if is_token(b"OBS", token) || is_token(b"DENSITY", token) {
        read_block(lexer, &PassedStatements, &mut ())
    } else if is_token(b"TIMING", token) {
        skip_to_end(lexer, b"TIMING")
    } else if !is_token(b";", token) {
        skip_to_semicolon(lexer)
    } else {
        Ok(())
    }
}

/// Reads a statement of a macro, after its first token. Returns whether more statements follow.
#[tactic(auto, unfolding(crate::specs::Macros::macro_statement_from))]
fn macro_statement_from(
    alloc: Global,
    lexer: &mut Lexer,
    name: &[u8],
    parts: &mut MacroParts,
    token: &Token,
) -> Result<bool, ReadError>
    requires range { HasRanges parts.old.size parts.old.origin }
    ensures read { ReadsOn (turn parts.new) result
        (grammar.macro_statement_from name.now parts.old (lexeme token.now)) lexer.old lexer.new }
    ensures range { HasRanges parts.new.size parts.new.origin }
{
    if is_token(b"END", token) {
        end_name(lexer, name)?;
        return Ok(false);
    }
    if is_token(b"ORIGIN", token) {
        let origin = origin(lexer)?;
        keep_first(&mut parts.origin, origin);
    } else if is_token(b"SIZE", token) {
        let size = size(lexer)?;
        keep_first(&mut parts.size, size);
    } else if is_token(b"SYMMETRY", token) {
        let symmetry = symmetry(lexer)?;
        parts.symmetry = parts.symmetry.or(Some(symmetry));
    } else if is_token(b"PIN", token) {
        let pin = read_pin(alloc, lexer)?;
        parts.pins.push(pin)?;
    } else {
        skip_macro_statement(lexer, token)?;
    }
    Ok(true)
}

/// Reads the statements of the macro with this name.
#[derive(Drop)]
struct MacroStatements<'n> {
    alloc: Global,
    name: &'n [u8],
}

impl<'n> Block for MacroStatements<'n> {
    type State = MacroParts;

    ghost statement = { λ mac. grammar.macro_statement mac.name.now };

    ghost keeps = { λ _ parts. HasRanges parts.size parts.origin };

    #[tactic(auto, unfolding(crate::specs::Macros::macro_statement))]
    fn turn(&self, lexer: &mut Lexer, parts: &mut MacroParts) -> Result<bool, ReadError> {
        let token = token(lexer)?;
        macro_statement_from(self.alloc, lexer, self.name, parts, &token)
    }
}

/// Returns the state of a macro in front of its first statement.
fn no_parts(alloc: Global) -> MacroParts
    ensures { result ≡ grammar.no_macro_parts }
{
    MacroParts {
        size: None,
        origin: None,
        symmetry: None,
        pins: Sequence::new(alloc),
    }
}

/// Reads the statements of a macro, and its END name.
pub(crate) fn macro_parts(
    alloc: Global,
    lexer: &mut Lexer,
    name: &[u8],
) -> Result<MacroParts, ReadError>
    ensures read { Reads (λ p. p) result (grammar.macro_parts name.now) lexer.old lexer.new }
    ensures range { IfOk result (λ parts. HasRanges parts.size parts.origin) }
{
    let mut parts = no_parts(alloc);
    read_block(lexer, &MacroStatements { alloc, name }, &mut parts)?;
    Ok(parts)
}

/// Returns the macro that the statements describe.
pub(crate) fn macro_of(name: Name, parts: &MacroParts) -> Macro
    requires range { HasRanges parts.now.size parts.now.origin }
    ensures macro_is { result ≡ grammar.macro_from_parts name parts.now }
    ensures size { HasRange result.size }
    ensures origin { HasRange result.origin }
{
    let origin = parts.origin.unwrap_or(no_point());
    Macro {
        name,
        size: parts.size.unwrap_or(no_point()),
        origin,
        symmetry: parts.symmetry.unwrap_or(Symmetry { x: false, y: false }),
        rail: rail_of(origin.y, parts.pins.as_slice()),
    }
}
