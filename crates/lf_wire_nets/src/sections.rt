//! The sections PINS and NETS.

ghost use Rattle.std.specs.Prelude.{◌≡◌, All, codes};
ghost use Rattle.lf_lex.specs.Tokens.{lexeme};
ghost use Rattle.lf_lex.specs.Reading.{Reads, ReadsOn, block, turn};
ghost use Rattle.lf_def.specs.Entries.{entry_or_end, section};
ghost use Rattle.lf_wire_nets.specs.DesignPins as pin_grammar;
ghost use Rattle.lf_wire_nets.specs.NetTexts as grammar;
ghost use Rattle.lf_wire_nets.specs.NetRanges.{AreDesignNets, IsDesignPin};

use crate::design_nets::DesignNets;
use crate::design_pins::{DesignPin, design_pin};
use crate::nets::design_net;
use lf_lex::{
    FaultNumber, Lexer, ReadError, Token, end_name, fault_at, is_token, skip_to_semicolon, token,
};
use lf_units::Sequence;
use std::alloc::Global;

/// Reads a pin, or END PINS. Returns whether more pins follow.
#[tactic(auto, unfolding(lf_def::specs::Entries::entry_or_end))]
fn pin_or_end<'a>(
    alloc: Global,
    lexer: &mut Lexer<'a>,
    pins: &mut Sequence<DesignPin<'a>>,
) -> Result<bool, ReadError>
    requires range { All IsDesignPin pins.old }
    ensures read { Reads (turn pins.new) result
        (entry_or_end (codes "PINS") pin_grammar.design_pin pins.old) lexer.old lexer.new }
    ensures range { All IsDesignPin pins.new }
{
    let token = token(lexer)?;
    if is_token(b"-", &token) {
        let pin = design_pin(alloc, lexer)?;
        pins.push(pin)?;
        return Ok(true);
    }
    if is_token(b"END", &token) {
        end_name(lexer, b"PINS")?;
        return Ok(false);
    }
    Err(fault_at(FaultNumber::Unexpected, token.line))
}

/// Reads the pins of a section, and its END. Pins borrow the text, so this loop does not use
/// `read_block`.
fn all_pins<'a>(
    alloc: Global,
    lexer: &mut Lexer<'a>,
    pins: &mut Sequence<DesignPin<'a>>,
) -> Result<(), ReadError>
    requires range { All IsDesignPin pins.old }
    ensures read { Reads (λ _. pins.new) result
        (block (entry_or_end (codes "PINS") pin_grammar.design_pin) pins.old) lexer.old lexer.new }
    ensures range { All IsDesignPin pins.new }
{
    while pin_or_end(alloc, lexer, pins)? {}
    Ok(())
}

/// Reads a PINS section, after its keyword, and appends its pins.
#[tactic(auto, unfolding(lf_def::specs::Entries::section))]
pub(crate) fn pins_section<'a>(
    alloc: Global,
    lexer: &mut Lexer<'a>,
    pins: &mut Sequence<DesignPin<'a>>,
) -> Result<(), ReadError>
    requires range { All IsDesignPin pins.old }
    ensures read { Reads (λ _. pins.new) result
        (section (codes "PINS") pin_grammar.design_pin pins.old) lexer.old lexer.new }
    ensures range { All IsDesignPin pins.new }
{
    skip_to_semicolon(lexer)?;
    all_pins(alloc, lexer, pins)
}

/// Reads a net, after its minus, and appends it. `Err(TooMany)` at the 16,777,217th net, or at a
/// net's term that is the 4,294,967,296th of all.
#[tactic(auto, unfolding(crate::specs::NetTexts::with_net))]
fn with_net<'a>(
    alloc: Global,
    lexer: &mut Lexer<'a>,
    nets: &mut DesignNets<'a>,
    minus: &Token,
) -> Result<(), ReadError>
    requires range { AreDesignNets nets.old }
    ensures read { ReadsOn (λ _. nets.new) result
        (grammar.with_net nets.old (lexeme minus.now)) lexer.old lexer.new }
    ensures range { AreDesignNets nets.new }
{
    if nets.nets.len() >= 16_777_216 {
        return Err(fault_at(FaultNumber::TooMany, minus.line));
    }
    let net = design_net(alloc, lexer, 4_294_967_295 - nets.terms)?;
    nets.terms += net.terms.len();
    nets.nets.push(net)?;
    Ok(())
}

/// Reads a net, or END NETS. Returns whether more nets follow.
#[tactic(auto, unfolding(crate::specs::NetTexts::net_or_end))]
fn net_or_end<'a>(
    alloc: Global,
    lexer: &mut Lexer<'a>,
    nets: &mut DesignNets<'a>,
) -> Result<bool, ReadError>
    requires range { AreDesignNets nets.old }
    ensures read { Reads (turn nets.new) result (grammar.net_or_end nets.old) lexer.old lexer.new }
    ensures range { AreDesignNets nets.new }
{
    let token = token(lexer)?;
    if is_token(b"-", &token) {
        with_net(alloc, lexer, nets, &token)?;
        return Ok(true);
    }
    if is_token(b"END", &token) {
        end_name(lexer, b"NETS")?;
        return Ok(false);
    }
    Err(fault_at(FaultNumber::Unexpected, token.line))
}

/// Reads the nets of a section, and its END. Nets borrow the text, so this loop does not use
/// `read_block`.
fn all_nets<'a>(
    alloc: Global,
    lexer: &mut Lexer<'a>,
    nets: &mut DesignNets<'a>,
) -> Result<(), ReadError>
    requires range { AreDesignNets nets.old }
    ensures read { Reads (λ _. nets.new) result
        (block grammar.net_or_end nets.old) lexer.old lexer.new }
    ensures range { AreDesignNets nets.new }
{
    while net_or_end(alloc, lexer, nets)? {}
    Ok(())
}

/// Reads a NETS section, after its keyword, and appends its nets.
#[tactic(auto, unfolding(crate::specs::NetTexts::nets_section))]
pub(crate) fn nets_section<'a>(
    alloc: Global,
    lexer: &mut Lexer<'a>,
    nets: &mut DesignNets<'a>,
) -> Result<(), ReadError>
    requires range { AreDesignNets nets.old }
    ensures read { Reads (λ _. nets.new) result (grammar.nets_section nets.old) lexer.old lexer.new }
    ensures range { AreDesignNets nets.new }
{
    skip_to_semicolon(lexer)?;
    all_nets(alloc, lexer, nets)
}
