//! The nets: their terms, and whether they are supplies.

ghost use Rattle.std.specs.Prelude.{◌≡◌, ◌≤◌, length, IfOk};
ghost use Rattle.lf_lex.specs.Tokens.{lexeme};
ghost use Rattle.lf_lex.specs.Reading.{Reads, ReadsOn, block, turn};
ghost use Rattle.lf_wire_nets.specs.Nets as grammar;
ghost use Rattle.lf_wire_nets.specs.NetRanges.{AreNetParts, IsDesignNet};

use crate::net_terms::{NetTerm, net_term};
use lf_lex::{FaultNumber, Lexer, ReadError, Token, fault_at, is_token, name, token, word};
use lf_units::Sequence;
use std::alloc::Global;

/// A net (LEF/DEF 5.8, DEF NETS).
#[derive(Drop)]
pub struct DesignNet<'a> {
    /// The terms in the order of the text.
    pub terms: Sequence<NetTerm<'a>>,
    /// True if its first USE is POWER or GROUND.
    pub supply: bool,
}

/// The part of a net that is expected, besides `;` and `+`.
#[derive(Clone, Copy, Debug, PartialEq, Eq)]
pub enum Expected {
    /// A term, in front of the first clause.
    Term,
    /// The word of a clause, directly after its `+`.
    Clause,
    /// A token of the rest of a clause, which is skipped.
    Rest,
}

/// The parts of a net that were read so far.
#[derive(Drop)]
pub struct NetParts<'a> {
    pub terms: Sequence<NetTerm<'a>>,
    pub supply: Option<bool>,
    pub expected: Expected,
}

/// Reads one more term, after its parenthesis. `Err(TooMany)` if the net has the most terms that it
/// may have. Returns whether more parts follow.
#[tactic(auto, unfolding(crate::specs::Nets::with_term))]
fn with_term<'a>(
    lexer: &mut Lexer<'a>,
    most: usize,
    parts: &mut NetParts<'a>,
    token: &Token,
) -> Result<bool, ReadError>
    requires range { AreNetParts most parts.old }
    ensures read { ReadsOn (turn parts.new) result
        (grammar.with_term most parts.old (lexeme token.now)) lexer.old lexer.new }
    ensures range { AreNetParts most parts.new }
{
    if parts.terms.len() >= most {
        return Err(fault_at(FaultNumber::TooMany, token.line));
    }
    let term = net_term(lexer)?;
    parts.terms.push(term)?;
    Ok(true)
}

fn is_supply_word(word: &Token) -> bool
    ensures { result ≡ grammar.is_supply_word (lexeme word.now) }
{
    is_token(b"POWER", word) || is_token(b"GROUND", word)
}

/// Reads a clause, after its plus and its word. Returns whether more parts follow.
#[tactic(auto, unfolding(crate::specs::Nets::net_clause))]
fn net_clause<'a>(
    lexer: &mut Lexer<'a>,
    most: usize,
    parts: &mut NetParts<'a>,
    token: &Token,
) -> Result<bool, ReadError>
    requires range { AreNetParts most parts.old }
    ensures read { ReadsOn (turn parts.new) result
        (grammar.net_clause parts.old (lexeme token.now)) lexer.old lexer.new }
    ensures range { AreNetParts most parts.new }
{
    if is_token(b"USE", token) {
        let used = word(lexer)?;
        parts.supply = parts.supply.or(Some(is_supply_word(&used)));
    }
    parts.expected = Expected::Rest;
    Ok(true)
}

/// Reads the part of a net that begins with this token, which is no separator. Returns whether more
/// parts follow.
#[tactic(auto, unfolding(crate::specs::Nets::net_part))]
fn net_part<'a>(
    lexer: &mut Lexer<'a>,
    most: usize,
    parts: &mut NetParts<'a>,
    token: &Token,
) -> Result<bool, ReadError>
    requires range { AreNetParts most parts.old }
    ensures read { ReadsOn (turn parts.new) result
        (grammar.net_part most parts.old.expected parts.old (lexeme token.now)) lexer.old lexer.new }
    ensures range { AreNetParts most parts.new }
{
    match parts.expected {
        Expected::Term => {
            if is_token(b"(", token) {
                with_term(lexer, most, parts, token)
            } else {
                Err(fault_at(FaultNumber::Unexpected, token.line))
            }
        }
        Expected::Clause => net_clause(lexer, most, parts, token),
        Expected::Rest => Ok(true),
    }
}

/// Reads the part of a net that begins with this token. Returns whether more parts follow.
#[tactic(auto, unfolding(crate::specs::Nets::net_part_from))]
fn net_part_from<'a>(
    lexer: &mut Lexer<'a>,
    most: usize,
    parts: &mut NetParts<'a>,
    token: &Token,
) -> Result<bool, ReadError>
    requires range { AreNetParts most parts.old }
    ensures read { ReadsOn (turn parts.new) result
        (grammar.net_part_from most parts.old (lexeme token.now)) lexer.old lexer.new }
    ensures range { AreNetParts most parts.new }
{
    if is_token(b";", token) {
        Ok(false)
    } else if is_token(b"+", token) {
        parts.expected = Expected::Clause;
        Ok(true)
    } else {
        net_part(lexer, most, parts, token)
    }
}

#[tactic(auto, unfolding(crate::specs::Nets::net_statement))]
fn net_statement<'a>(
    lexer: &mut Lexer<'a>,
    most: usize,
    parts: &mut NetParts<'a>,
) -> Result<bool, ReadError>
    requires range { AreNetParts most parts.old }
    ensures read { Reads (turn parts.new) result (grammar.net_statement most parts.old) lexer.old lexer.new }
    ensures range { AreNetParts most parts.new }
{
    let first = token(lexer)?;
    net_part_from(lexer, most, parts, &first)
}

/// Reads the parts of a net after its name, up to its `;`. Terms borrow the text, so this loop does
/// not use `read_block`.
fn net_parts<'a>(
    lexer: &mut Lexer<'a>,
    most: usize,
    parts: &mut NetParts<'a>,
) -> Result<(), ReadError>
    requires range { AreNetParts most parts.old }
    ensures read { Reads (λ _. parts.new) result
        (block (grammar.net_statement most) parts.old) lexer.old lexer.new }
    ensures range { AreNetParts most parts.new }
{
    while net_statement(lexer, most, parts)? {}
    Ok(())
}

/// Returns the state of a net after its name.
fn no_net_parts<'a>(alloc: Global, most: usize) -> NetParts<'a>
    ensures parts { result ≡ grammar.no_net_parts }
    ensures range { AreNetParts most result }
{
    NetParts {
        terms: Sequence::new(alloc),
        supply: None,
        expected: Expected::Term,
    }
}

/// Reads a net, after its minus. It may have `most` terms.
#[tactic(auto, unfolding(crate::specs::Nets::design_net))]
pub(crate) fn design_net<'a>(
    alloc: Global,
    lexer: &mut Lexer<'a>,
    most: usize,
) -> Result<DesignNet<'a>, ReadError>
    ensures read { Reads (λ n. n) result (grammar.design_net most) lexer.old lexer.new }
    ensures range { IfOk result (λ n. IsDesignNet n) }
    ensures few { IfOk result (λ n. length n.terms ≤ most) }
{
    name(lexer)?;
    let mut parts = no_net_parts(alloc, most);
    net_parts(lexer, most, &mut parts)?;
    Ok(DesignNet {
        terms: parts.terms,
        supply: parts.supply.unwrap_or(false),
    })
}
