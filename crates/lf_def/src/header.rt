//! The header: VERSION, DIVIDERCHAR, BUSBITCHARS, DESIGN and UNITS.

ghost use Rattle.std.specs.Prelude.{◌≡◌, unwrap_or, IfOk, IfSome};
ghost use Rattle.lf_lex.specs.Tokens.{lexeme};
ghost use Rattle.lf_lex.specs.Reading.{Reads, IsName};
ghost use Rattle.lf_def.specs.Header as grammar;
ghost use Rattle.lf_def.specs.Ranges.{IsCount, IsHeader};

use crate::coordinates::count;
use crate::section::keep_first;
use lf_lex::{
    FaultNumber, Lexer, ReadError, Token, fault_at, is_any_word, is_token, keyword, name, token,
    word,
};
use lf_units::Name;
use std::alloc::{AllocError, Global};

/// The statements of the header (LEF/DEF 5.8, DEF VERSION, DIVIDERCHAR, BUSBITCHARS, DESIGN and
/// UNITS): the first of each, its token unchanged.
#[derive(Drop)]
pub struct DocumentHeader {
    /// The version, or `5.8` without VERSION.
    pub version: Name,
    /// The divider with its quotation marks, or `"/"` without DIVIDERCHAR.
    pub divider: Name,
    /// The bus brackets with their quotation marks, or `"[]"` without BUSBITCHARS.
    pub brackets: Name,
    pub design: Name,
    /// Database units per micron, from 1 to 20000. `None` without UNITS.
    pub units: Option<u32>,
}

/// The statements of the header that were read so far.
#[derive(Drop)]
pub struct HeaderParts {
    pub version: Option<Name>,
    pub divider: Option<Name>,
    pub brackets: Option<Name>,
    pub design: Option<Name>,
    pub units: Option<u32>,
}

/// Reads `VERSION v ;`, after its keyword.
#[tactic(auto, unfolding(crate::specs::Header::version))]
fn version<'a>(lexer: &mut Lexer<'a>) -> Result<&'a [u8], ReadError>
    ensures { Reads (λ v. v.now) result grammar.version lexer.old lexer.new }
{
    let version = word(lexer)?;
    keyword(lexer, b";")?;
    Ok(version.text)
}

/// Reads `DIVIDERCHAR "c" ;` or `BUSBITCHARS "cc" ;`, after its keyword.
#[tactic(auto, unfolding(crate::specs::Header::quoted))]
fn quoted<'a>(lexer: &mut Lexer<'a>) -> Result<&'a [u8], ReadError>
    ensures { Reads (λ q. q.now) result grammar.quoted lexer.old lexer.new }
{
    let token = token(lexer)?;
    if is_any_word(&token) {
        return Err(fault_at(FaultNumber::Unexpected, token.line));
    }
    keyword(lexer, b";")?;
    Ok(token.text)
}

/// Reads `DESIGN name ;`, after its keyword.
#[tactic(auto, unfolding(crate::specs::Header::design))]
fn design<'a>(lexer: &mut Lexer<'a>) -> Result<&'a [u8], ReadError>
    ensures read { Reads (λ n. n.now) result grammar.design lexer.old lexer.new }
    ensures name { IfOk result (λ n. IsName n.now) }
{
    let name = name(lexer)?;
    keyword(lexer, b";")?;
    Ok(name.text)
}

/// Reads `UNITS DISTANCE MICRONS n ;`, after its keyword.
#[tactic(auto, unfolding(crate::specs::Header::units))]
fn units(lexer: &mut Lexer) -> Result<u32, ReadError>
    ensures read { Reads (λ n. n) result grammar.units lexer.old lexer.new }
    ensures range { IfOk result (λ n. IsCount 20000 n) }
{
    keyword(lexer, b"DISTANCE")?;
    keyword(lexer, b"MICRONS")?;
    let units = count(lexer, 20000)?;
    keyword(lexer, b";")?;
    Ok(units)
}

/// True if the token begins a statement of the header.
pub(crate) fn is_header(token: &Token) -> bool
    ensures { result ≡ grammar.is_header (lexeme token.now) }
{
    is_token(b"VERSION", token)
        || is_token(b"DIVIDERCHAR", token)
        || is_token(b"BUSBITCHARS", token)
        || is_token(b"DESIGN", token)
        || is_token(b"UNITS", token)
}

/// Reads a statement of the header, after its keyword.
#[tactic(auto, unfolding(crate::specs::Header::header_statement))]
pub(crate) fn header_statement(
    alloc: Global,
    lexer: &mut Lexer,
    parts: &mut HeaderParts,
    token: &Token,
) -> Result<(), ReadError>
    requires design { IfSome parts.old.design (λ n. IsName n) }
    requires units { IfSome parts.old.units (λ n. IsCount 20000 n) }
    ensures read { Reads (λ _. parts.new) result
        (grammar.header_statement parts.old (lexeme token.now)) lexer.old lexer.new }
    ensures design { IfSome parts.new.design (λ n. IsName n) }
    ensures units { IfSome parts.new.units (λ n. IsCount 20000 n) }
{
    if is_token(b"VERSION", token) {
        let version = version(lexer)?;
        keep_first(alloc, &mut parts.version, version)?;
    } else if is_token(b"DIVIDERCHAR", token) {
        let divider = quoted(lexer)?;
        keep_first(alloc, &mut parts.divider, divider)?;
    } else if is_token(b"BUSBITCHARS", token) {
        let brackets = quoted(lexer)?;
        keep_first(alloc, &mut parts.brackets, brackets)?;
    } else if is_token(b"DESIGN", token) {
        let design = design(lexer)?;
        keep_first(alloc, &mut parts.design, design)?;
    } else {
        let units = units(lexer)?;
        parts.units = parts.units.or(Some(units));
    }
    Ok(())
}

/// Returns the state of the header in front of its first statement.
pub(crate) fn no_header() -> HeaderParts
    ensures { result ≡ grammar.no_header }
{
    HeaderParts {
        version: None,
        divider: None,
        brackets: None,
        design: None,
        units: None,
    }
}

/// Returns the text, or its default if there is no text. `Err` if an allocation fails.
fn text_or(alloc: Global, text: Option<Name>, without: &[u8]) -> Result<Name, AllocError>
    ensures { IfOk result (λ t. t ≡ unwrap_or text without.now) }
{
    match text {
        Some(text) => Ok(text),
        None => Name::from_slice(alloc, without),
    }
}

/// Returns the header that the statements describe. `Err` if an allocation fails.
pub(crate) fn header_of(alloc: Global, parts: HeaderParts) -> Result<DocumentHeader, AllocError>
    requires design { IfSome parts.design (λ n. IsName n) }
    requires units { IfSome parts.units (λ n. IsCount 20000 n) }
    ensures header { IfOk result (λ h. h ≡ grammar.header_of parts) }
    ensures range { IfOk result (λ h. IsHeader h) }
{
    Ok(DocumentHeader {
        version: text_or(alloc, parts.version, b"5.8")?,
        divider: text_or(alloc, parts.divider, b"\"/\"")?,
        brackets: text_or(alloc, parts.brackets, b"\"[]\"")?,
        design: text_or(alloc, parts.design, b"")?,
        units: parts.units,
    })
}
