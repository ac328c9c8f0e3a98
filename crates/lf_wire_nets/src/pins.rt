//! The pins of macros: PIN name, its statements, END name.

ghost use Rattle.std.specs.Prelude.{◌≡◌, IfOk};
ghost use Rattle.lf_lex.specs.Tokens.{lexeme};
ghost use Rattle.lf_lex.specs.Reading.{Reads, ReadsOn, turn};
ghost use Rattle.lf_wire_nets.specs.Boxes.{IsShapeBoxIfAny};
ghost use Rattle.lf_wire_nets.specs.MacroPins as grammar;
ghost use Rattle.lf_wire_nets.specs.MacroPins.{IsMacroPin};

use crate::shapes::PortShapes;
use lf_lex::{
    Block, Lexer, ReadError, Token, end_name, is_token, name, read_block, skip_to_semicolon, token,
};
use lf_units::Rect;
use std::marker::Model;

/// A pin of a macro (LEF/DEF 5.8, LEF MACRO PIN), whose name is borrowed from its text. A contract
/// sees its name and its box.
#[derive(Drop)]
pub struct MacroPin<'a> {
    name: &'a [u8],
    shapes: Option<Rect>,
}

impl<'a> Model for MacroPin<'a> {
    ghost use Rattle.lf_wire_nets.specs.StoredPins.{PinFacts};

    ghost Value = { PinFacts };

    ghost view = { λ p. record { name = p.name.now; box = p.shapes } };
}

impl<'a> MacroPin<'a> {
    /// Returns the pin's name.
    pub fn name(&self) -> &'a [u8]
        ensures { result.now ≡ self.now.name }
    {
        self.name
    }

    /// Returns the least box around the rectangles and polygons of all its ports, before the
    /// macro's ORIGIN is added. `None` if it has neither.
    pub fn pin_box(&self) -> Option<Rect>
        ensures { result ≡ self.now.box }
    {
        self.shapes
    }
}

/// Reads a statement of a pin, after its first token. Returns whether more statements follow.
#[tactic(auto, unfolding(crate::specs::MacroPins::pin_port_from))]
fn pin_port_from(
    lexer: &mut Lexer,
    name: &[u8],
    so_far: &mut Option<Rect>,
    token: &Token,
) -> Result<bool, ReadError>
    requires range { IsShapeBoxIfAny so_far.old }
    ensures read { ReadsOn (turn so_far.new) result
        (grammar.pin_port_from name.now so_far.old (lexeme token.now)) lexer.old lexer.new }
    ensures range { IsShapeBoxIfAny so_far.new }
{
    if is_token(b"END", token) {
        end_name(lexer, name)?;
        return Ok(false);
    }
    if is_token(b"PORT", token) {
        read_block(lexer, &PortShapes, so_far)?;
    } else if !is_token(b";", token) {
        skip_to_semicolon(lexer)?;
    }
    Ok(true)
}

/// Reads the statements of the pin with this name, and widens the box to the shapes of its ports.
#[derive(Drop)]
struct PinPorts<'n> {
    name: &'n [u8],
}

impl<'n> Block for PinPorts<'n> {
    type State = Option<Rect>;

    ghost statement = { λ pin. grammar.pin_port pin.name.now };

    ghost keeps = { λ _ so_far. IsShapeBoxIfAny so_far };

    #[tactic(auto, unfolding(crate::specs::MacroPins::pin_port))]
    fn turn(&self, lexer: &mut Lexer, so_far: &mut Option<Rect>) -> Result<bool, ReadError> {
        let token = token(lexer)?;
        pin_port_from(lexer, self.name, so_far, &token)
    }
}

/// Reads `PIN name`, its statements and `END name`, after its keyword.
#[tactic(auto, unfolding(crate::specs::MacroPins::macro_pin))]
pub(crate) fn read_pin<'a>(lexer: &mut Lexer<'a>) -> Result<MacroPin<'a>, ReadError>
    ensures read { Reads (λ p. p) result grammar.macro_pin lexer.old lexer.new }
    ensures range { IfOk result (λ p. IsMacroPin p) }
{
    let name = name(lexer)?;
    let mut shapes = None;
    read_block(lexer, &PinPorts { name: name.text }, &mut shapes)?;
    Ok(MacroPin {
        name: name.text,
        shapes,
    })
}
