//! The statements of a text, up to END DESIGN.

ghost use Rattle.std.specs.Prelude.{◌≡◌, Ok, All, IfOk, IfErr};
ghost use Rattle.lf_lex.specs.Tokens.{lexeme};
ghost use Rattle.lf_lex.specs.Reading.{Reads, ReadsOn, Fails, turn};
ghost use Rattle.lf_def.specs.Document as grammar;
ghost use Rattle.lf_def.specs.Rows.{with_row};
ghost use Rattle.lf_def.specs.Ranges.{AreParts, IsRow};

use crate::blockages::blockages;
use crate::components::components;
use crate::doc_parts::DocParts;
use crate::groups::groups;
use crate::header::{header_statement, is_header, no_header};
use crate::regions::regions;
use crate::rows::{RowStatement, read_row};
use lf_lex::{
    FaultNumber, Lexer, ReadError, Token, fault_at, is_any_word, is_token, skip_to_end,
    skip_to_semicolon, skip_to_word, token,
};
use lf_units::Sequence;
use std::alloc::Global;

/// True if the token begins a section that is skipped up to END and its keyword.
pub fn is_skipped_section(token: &Token) -> bool
    ensures { result ≡ grammar.is_skipped_section (lexeme token.now) }
{
    is_token(b"PROPERTYDEFINITIONS", token)
        || is_token(b"VIAS", token)
        || is_token(b"STYLES", token)
        || is_token(b"NONDEFAULTRULES", token)
        || is_token(b"PINS", token)
        || is_token(b"PINPROPERTIES", token)
        || is_token(b"SLOTS", token)
        || is_token(b"FILLS", token)
        || is_token(b"SPECIALNETS", token)
        || is_token(b"NETS", token)
        || is_token(b"SCANCHAINS", token)
}

/// True if the token begins a statement that is skipped up to its semicolon.
fn is_skipped_statement(token: &Token) -> bool
    ensures { result ≡ grammar.is_skipped_statement (lexeme token.now) }
{
    is_token(b"TRACKS", token)
        || is_token(b"GCELLGRID", token)
        || is_token(b"HISTORY", token)
        || is_token(b"TECHNOLOGY", token)
        || is_token(b"DIEAREA", token)
        || is_token(b"COMPONENTMASKSHIFT", token)
        || is_token(b"NAMESCASESENSITIVE", token)
}

/// Skips a statement, after its first token. `Err(UnknownStatement)` if the token is a word that
/// begins no statement, `Err(Unexpected)` if it is a quoted text.
#[tactic(auto, unfolding(crate::specs::Document::skip_from))]
fn skip_from(lexer: &mut Lexer, token: &Token) -> Result<(), ReadError>
    ensures { ReadsOn (λ x. x) result (grammar.skip_from (lexeme token.now)) lexer.old lexer.new }
{
    if is_skipped_section(token) {
        skip_to_end(lexer, token.text)
    } else if is_token(b"BEGINEXT", token) {
        skip_to_word(lexer, b"ENDEXT")
    } else if is_skipped_statement(token) {
        skip_to_semicolon(lexer)
    } else if is_any_word(token) {
        Err(fault_at(FaultNumber::UnknownStatement, token.line))
    } else {
        Err(fault_at(FaultNumber::Unexpected, token.line))
    }
}

/// Reads DESIGN after an END. `Err(WrongEnd)` for another word, `Err(Unexpected)` for a quoted
/// text, or if the text has no DESIGN statement.
#[tactic(auto, unfolding(crate::specs::Document::end_design))]
fn end_design(lexer: &mut Lexer, parts: &DocParts) -> Result<(), ReadError>
    ensures { Reads (λ x. x) result (grammar.end_design parts.now) lexer.old lexer.new }
{
    let token = token(lexer)?;
    if !is_any_word(&token) {
        return Err(fault_at(FaultNumber::Unexpected, token.line));
    }
    if !is_token(b"DESIGN", &token) {
        return Err(fault_at(FaultNumber::WrongEnd, token.line));
    }
    if parts.header.design.is_some() {
        Ok(())
    } else {
        Err(fault_at(FaultNumber::Unexpected, token.line))
    }
}

/// Reads a row, after its keyword, and appends it.
#[tactic(auto, unfolding(crate::specs::Rows::with_row))]
fn add_row(
    alloc: Global,
    lexer: &mut Lexer,
    rows: &mut Sequence<RowStatement>,
) -> Result<(), ReadError>
    requires range { All IsRow rows.old }
    ensures read { Reads (λ _. rows.new) result (with_row rows.old) lexer.old lexer.new }
    ensures range { All IsRow rows.new }
{
    let row = read_row(alloc, lexer)?;
    rows.push(row)?;
    Ok(())
}

/// Reads a row or a section, after its keyword, or skips a statement.
#[tactic(auto, unfolding(crate::specs::Document::body_statement))]
fn body_statement<'a>(
    alloc: Global,
    lexer: &mut Lexer<'a>,
    parts: &mut DocParts<'a>,
    token: &Token,
) -> Result<(), ReadError>
    requires range { AreParts parts.old }
    ensures read { ReadsOn (λ _. parts.new) result
        (grammar.body_statement parts.old (lexeme token.now)) lexer.old lexer.new }
    ensures range { AreParts parts.new }
{
    if is_token(b"ROW", token) {
        add_row(alloc, lexer, &mut parts.rows)
    } else if is_token(b"REGIONS", token) {
        regions(alloc, lexer, &mut parts.regions)
    } else if is_token(b"GROUPS", token) {
        groups(alloc, lexer, &mut parts.groups)
    } else if is_token(b"COMPONENTS", token) {
        components(alloc, lexer, &mut parts.components)
    } else if is_token(b"BLOCKAGES", token) {
        blockages(alloc, lexer, &mut parts.blockages)
    } else {
        skip_from(lexer, token)
    }
}

/// Reads a statement of the text, after its first token. Returns whether more statements follow.
#[tactic(auto, unfolding(crate::specs::Document::def_statement_from))]
fn statement_from<'a>(
    alloc: Global,
    lexer: &mut Lexer<'a>,
    parts: &mut DocParts<'a>,
    token: &Token,
) -> Result<bool, ReadError>
    requires range { AreParts parts.old }
    ensures read { ReadsOn (turn parts.new) result
        (grammar.def_statement_from parts.old (lexeme token.now)) lexer.old lexer.new }
    ensures range { AreParts parts.new }
{
    if is_token(b"END", token) {
        end_design(lexer, parts)?;
        return Ok(false);
    }
    if is_header(token) {
        header_statement(alloc, lexer, &mut parts.header, token)?;
    } else {
        body_statement(alloc, lexer, parts, token)?;
    }
    Ok(true)
}

#[tactic(auto, unfolding(crate::specs::Document::def_statement))]
fn statement<'a>(
    alloc: Global,
    lexer: &mut Lexer<'a>,
    parts: &mut DocParts<'a>,
) -> Result<bool, ReadError>
    requires range { AreParts parts.old }
    ensures read { Reads (turn parts.new) result (grammar.def_statement parts.old) lexer.old lexer.new }
    ensures range { AreParts parts.new }
{
    let first = token(lexer)?;
    statement_from(alloc, lexer, parts, &first)
}

/// Returns the state in front of the first statement.
fn no_parts<'a>(alloc: Global) -> DocParts<'a>
    ensures parts { result ≡ grammar.no_parts }
    ensures range { AreParts result }
{
    DocParts {
        header: no_header(),
        rows: Sequence::new(alloc),
        regions: Sequence::new(alloc),
        groups: Sequence::new(alloc),
        components: Sequence::new(alloc),
        blockages: Sequence::new(alloc),
    }
}

/// Reads the statements of a text up to END DESIGN.
pub(crate) fn read_statements<'a>(alloc: Global, text: &'a [u8]) -> Result<DocParts<'a>, ReadError>
    ensures ok { IfOk result (λ parts. grammar.doc_parts_of text.now ≡ Ok parts) }
    ensures fault { IfErr result (λ e. Fails e (grammar.doc_parts_of text.now)) }
    ensures range { IfOk result (λ parts. AreParts parts) }
{
    let mut lexer = Lexer::new(text);
    let mut parts = no_parts(alloc);
    while statement(alloc, &mut lexer, &mut parts)? {}
    Ok(parts)
}
