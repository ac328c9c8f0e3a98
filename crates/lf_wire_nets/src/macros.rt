//! Macros: MACRO name, its statements, END name.

ghost use Rattle.std.specs.Prelude.{◌≡◌, All, IfOk};
ghost use Rattle.lf_lex.specs.Tokens.{lexeme};
ghost use Rattle.lf_lex.specs.Reading.{Reads, ReadsOn, block, turn};
ghost use Rattle.lf_wire_nets.specs.MacroPins as grammar;
ghost use Rattle.lf_wire_nets.specs.MacroPins.{IsMacroPin, HasMacroPins};

use crate::pins::{MacroPin, read_pin};
use lf_lef::skip_macro_statement;
use lf_lex::{Lexer, ReadError, Token, end_name, is_token, name, token};
use lf_units::Sequence;
use std::alloc::Global;
use std::marker::Model;

/// A macro (LEF/DEF 5.8, LEF MACRO), whose name is borrowed from its text. A contract sees its name
/// and its pins.
#[derive(Drop)]
pub struct MacroPins<'a> {
    name: &'a [u8],
    pins: Sequence<MacroPin<'a>>,
}

impl<'a> Model for MacroPins<'a> {
    ghost use Rattle.lf_wire_nets.specs.StoredPins.{MacroPinFacts};

    ghost Value = { MacroPinFacts };

    ghost view = { λ m. record { name = m.name.now; pins = m.pins } };
}

impl<'a> MacroPins<'a> {
    /// Returns the macro's name.
    pub fn name(&self) -> &'a [u8]
        ensures { result.now ≡ self.now.name }
    {
        self.name
    }

    /// Returns its pins, in the order of the text.
    pub fn pins(&self) -> &[MacroPin<'a>]
        ensures { result.now ≡ self.now.pins }
    {
        self.pins.as_slice()
    }
}

/// Reads a pin, after its keyword, and appends it.
#[tactic(auto, unfolding(crate::specs::MacroPins::with_macro_pin))]
fn add_pin<'a>(lexer: &mut Lexer<'a>, pins: &mut Sequence<MacroPin<'a>>) -> Result<(), ReadError>
    requires range { All IsMacroPin pins.old }
    ensures read { Reads (λ _. pins.new) result (grammar.with_macro_pin pins.old) lexer.old lexer.new }
    ensures range { All IsMacroPin pins.new }
{
    let pin = read_pin(lexer)?;
    pins.push(pin)?;
    Ok(())
}

/// Reads a statement of a macro, after its first token. Returns whether more statements follow.
#[tactic(auto, unfolding(crate::specs::MacroPins::pins_statement_from))]
fn pins_statement_from<'a>(
    lexer: &mut Lexer<'a>,
    name: &[u8],
    pins: &mut Sequence<MacroPin<'a>>,
    token: &Token,
) -> Result<bool, ReadError>
    requires range { All IsMacroPin pins.old }
    ensures read { ReadsOn (turn pins.new) result
        (grammar.pins_statement_from name.now pins.old (lexeme token.now)) lexer.old lexer.new }
    ensures range { All IsMacroPin pins.new }
{
    if is_token(b"END", token) {
        end_name(lexer, name)?;
        return Ok(false);
    }
    if is_token(b"PIN", token) {
        add_pin(lexer, pins)?;
    } else {
        skip_macro_statement(lexer, token)?;
    }
    Ok(true)
}

#[tactic(auto, unfolding(crate::specs::MacroPins::pins_statement))]
fn pins_statement<'a>(
    lexer: &mut Lexer<'a>,
    name: &[u8],
    pins: &mut Sequence<MacroPin<'a>>,
) -> Result<bool, ReadError>
    requires range { All IsMacroPin pins.old }
    ensures read { Reads (turn pins.new) result (grammar.pins_statement name.now pins.old) lexer.old lexer.new }
    ensures range { All IsMacroPin pins.new }
{
    let first = token(lexer)?;
    pins_statement_from(lexer, name, pins, &first)
}

/// Reads the statements of a macro, and its END name. Pins borrow the text, so this loop does not
/// use `read_block`.
fn all_pins<'a>(
    lexer: &mut Lexer<'a>,
    name: &[u8],
    pins: &mut Sequence<MacroPin<'a>>,
) -> Result<(), ReadError>
    requires range { All IsMacroPin pins.old }
    ensures read { Reads (λ _. pins.new) result
        (block (grammar.pins_statement name.now) pins.old) lexer.old lexer.new }
    ensures range { All IsMacroPin pins.new }
{
    while pins_statement(lexer, name, pins)? {}
    Ok(())
}

/// Reads `MACRO name`, its statements and `END name`, after its keyword.
#[tactic(auto, unfolding(crate::specs::MacroPins::macro_pins))]
pub(crate) fn macro_pins<'a>(
    alloc: Global,
    lexer: &mut Lexer<'a>,
) -> Result<MacroPins<'a>, ReadError>
    ensures read { Reads (λ m. m) result grammar.macro_pins lexer.old lexer.new }
    ensures range { IfOk result (λ m. HasMacroPins m) }
{
    let name = name(lexer)?;
    let mut pins = Sequence::new(alloc);
    all_pins(lexer, name.text, &mut pins)?;
    Ok(MacroPins {
        name: name.text,
        pins,
    })
}
