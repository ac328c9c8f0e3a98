//! The statements of a DEF text.

ghost use Rattle.std.specs.Prelude.{◌≡◌, Ok, IfOk, IfErr};
ghost use Rattle.lf_lex.specs.Tokens.{lexeme};
ghost use Rattle.lf_lex.specs.Reading.{Reads, ReadsOn, Fails, turn};
ghost use Rattle.lf_wire_nets.specs.NetTexts as grammar;
ghost use Rattle.lf_wire_nets.specs.NetRanges.{AreDesignNets};

use crate::design_nets::DesignNets;
use crate::sections::{nets_section, pins_section};
use lf_def::is_skipped_section;
use lf_lex::{
    Lexer, LoadFault, ReadError, Token, end_name, is_token, skip_to_end, skip_to_semicolon,
    skip_to_word, token,
};
use lf_units::Sequence;
use std::alloc::Global;

/// True if the section is skipped up to END and its keyword.
fn is_other_section(token: &Token) -> bool
    ensures { result ≡ grammar.is_other_section (lexeme token.now) }
{
    is_token(b"COMPONENTS", token)
        || is_token(b"REGIONS", token)
        || is_token(b"GROUPS", token)
        || is_token(b"BLOCKAGES", token)
        || is_skipped_section(token)
}

/// Skips a section other than PINS and NETS, or a statement, after its first token.
#[tactic(auto, unfolding(crate::specs::NetTexts::skip_other_from))]
fn skip_other_from(lexer: &mut Lexer, token: &Token) -> Result<(), ReadError>
    ensures { ReadsOn (λ x. x) result (grammar.skip_other_from (lexeme token.now)) lexer.old lexer.new }
{
    if is_other_section(token) {
        skip_to_end(lexer, token.text)
    } else if is_token(b"BEGINEXT", token) {
        skip_to_word(lexer, b"ENDEXT")
    } else if !is_token(b";", token) {
        skip_to_semicolon(lexer)
    } else {
        Ok(())
    }
}

/// Reads a statement of the text, after its first token. Returns whether more statements follow.
#[tactic(auto, unfolding(crate::specs::NetTexts::nets_statement_from))]
fn statement_from<'a>(
    alloc: Global,
    lexer: &mut Lexer<'a>,
    nets: &mut DesignNets<'a>,
    token: &Token,
) -> Result<bool, ReadError>
    requires range { AreDesignNets nets.old }
    ensures read { ReadsOn (turn nets.new) result
        (grammar.nets_statement_from nets.old (lexeme token.now)) lexer.old lexer.new }
    ensures range { AreDesignNets nets.new }
{
    if is_token(b"END", token) {
        end_name(lexer, b"DESIGN")?;
        return Ok(false);
    }
    if is_token(b"PINS", token) {
        pins_section(alloc, lexer, &mut nets.pins)?;
    } else if is_token(b"NETS", token) {
        nets_section(alloc, lexer, nets)?;
    } else {
        skip_other_from(lexer, token)?;
    }
    Ok(true)
}

#[tactic(auto, unfolding(crate::specs::NetTexts::nets_statement))]
fn statement<'a>(
    alloc: Global,
    lexer: &mut Lexer<'a>,
    nets: &mut DesignNets<'a>,
) -> Result<bool, ReadError>
    requires range { AreDesignNets nets.old }
    ensures read { Reads (turn nets.new) result (grammar.nets_statement nets.old) lexer.old lexer.new }
    ensures range { AreDesignNets nets.new }
{
    let first = token(lexer)?;
    statement_from(alloc, lexer, nets, &first)
}

/// Returns the state in front of the first statement.
fn no_nets<'a>(alloc: Global) -> DesignNets<'a>
    ensures nets { result ≡ grammar.no_nets }
    ensures range { AreDesignNets result }
{
    DesignNets {
        pins: Sequence::new(alloc),
        nets: Sequence::new(alloc),
        terms: 0,
    }
}

/// Reads the statements of a text up to END DESIGN.
fn read_statements<'a>(alloc: Global, text: &'a [u8]) -> Result<DesignNets<'a>, ReadError>
    ensures ok { IfOk result (λ nets. grammar.nets_of text.now ≡ Ok nets) }
    ensures fault { IfErr result (λ e. Fails e (grammar.nets_of text.now)) }
    ensures range { IfOk result (λ nets. AreDesignNets nets) }
{
    let mut lexer = Lexer::new(text);
    let mut nets = no_nets(alloc);
    while statement(alloc, &mut lexer, &mut nets)? {}
    Ok(nets)
}

/// Reads the pins and the nets of a DEF text up to its END DESIGN. Pins and nets of several
/// sections are in the order of the text; several pins may have one name.
///
/// Unless an allocation fails, this succeeds if and only if the text is DEF by the grammar in
/// `specs/`. The result is then what the grammar makes of it.
///
/// `Err` is the first fault in the order of the tokens, with its line: BadToken, UnexpectedEnd,
/// Unexpected, BadNumber, WrongEnd or TooMany. It is OutOfMemory, without a line, if an allocation
/// fails.
pub fn read_nets<'a>(alloc: Global, text: &'a [u8]) -> Result<DesignNets<'a>, LoadFault<'a>>
    ensures ok { IfOk result (λ nets. grammar.nets_of text.now ≡ Ok nets) }
    ensures fault { IfErr result (λ fault. grammar.RefusesNets fault (grammar.nets_of text.now)) }
    ensures range { IfOk result (λ nets. AreDesignNets nets) }
{
    match read_statements(alloc, text) {
        Ok(nets) => Ok(nets),
        Err(error) => Err(error.into_load_fault()),
    }
}
