//! The terms of nets: pins of components, and pins of the design.

ghost use Rattle.std.specs.Prelude.{◌≡◌, IfOk};
ghost use Rattle.std.specs.Option.{option_map};
ghost use Rattle.lf_lex.specs.Tokens.{lexeme};
ghost use Rattle.lf_lex.specs.Reading.{IsName, Reads};
ghost use Rattle.lf_wire_nets.specs.Nets as grammar;
ghost use Rattle.lf_wire_nets.specs.NetRanges.{IsNetTerm};

use lf_lex::{FaultNumber, Lexer, ReadError, Token, fault_at, is_token, name, skip_to_word};
use std::marker::Model;

/// A term of a net (LEF/DEF 5.8, DEF NETS): a pin of a component or of the design. Its names are
/// borrowed from its text. A contract sees both names.
#[derive(Drop)]
pub struct NetTerm<'a> {
    /// `None` for a pin of the design.
    owner: Option<&'a [u8]>,
    pin: &'a [u8],
}

impl<'a> Model for NetTerm<'a> {
    ghost use Rattle.std.specs.Option.{option_map};
    ghost use Rattle.lf_wire_nets.specs.StoredNets.{NetTermFacts};

    ghost Value = { NetTermFacts };

    ghost view = { λ t. record { component = option_map (λ n. n.now) t.owner; pin = t.pin.now } };
}

impl<'a> NetTerm<'a> {
    /// Returns the name of the component. `None` for a pin of the design.
    pub fn component(&self) -> Option<&'a [u8]>
        ensures { option_map (λ n. n.now) result ≡ self.now.component }
    {
        self.owner
    }

    /// Returns the name of the pin.
    pub fn pin(&self) -> &'a [u8]
        ensures { result.now ≡ self.now.pin }
    {
        self.pin
    }
}

/// Reads a name in parentheses. `Err(Unexpected)` if it is the closing one.
#[tactic(auto, unfolding(crate::specs::Nets::term_name))]
fn term_name<'a>(lexer: &mut Lexer<'a>) -> Result<Token<'a>, ReadError>
    ensures read { Reads lexeme result grammar.term_name lexer.old lexer.new }
    ensures name { IfOk result (λ t. IsName (lexeme t).text) }
{
    let name = name(lexer)?;
    if is_token(b")", &name) {
        Err(fault_at(FaultNumber::Unexpected, name.line))
    } else {
        Ok(name)
    }
}

/// Returns the pin with the second name: of the design after PIN, else of the component with the
/// first name.
fn term_of<'a>(first: &Token<'a>, second: &Token<'a>) -> NetTerm<'a>
    requires first { IsName (lexeme first.now).text }
    requires second { IsName (lexeme second.now).text }
    ensures term { result ≡ grammar.term_of (lexeme first.now) (lexeme second.now) }
    ensures range { IsNetTerm result }
{
    if is_token(b"PIN", first) {
        NetTerm {
            owner: None,
            pin: second.text,
        }
    } else {
        NetTerm {
            owner: Some(first.text),
            pin: second.text,
        }
    }
}

/// Reads `component pin .. )` or `PIN pin .. )`, after the first parenthesis.
#[tactic(auto, unfolding(crate::specs::Nets::net_term))]
pub(crate) fn net_term<'a>(lexer: &mut Lexer<'a>) -> Result<NetTerm<'a>, ReadError>
    ensures read { Reads (λ t. t) result grammar.net_term lexer.old lexer.new }
    ensures range { IfOk result (λ t. IsNetTerm t) }
{
    let first = term_name(lexer)?;
    let second = term_name(lexer)?;
    skip_to_word(lexer, b")")?;
    Ok(term_of(&first, &second))
}
