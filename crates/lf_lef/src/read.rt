//! The statements of a LEF text.

ghost use Rattle.std.specs.Prelude.{◌≡◌, ◌<◌, Ok, Option, None, length, map, IfOk, IfErr, OnOk, OnErr, MatchResult, MatchOption};
ghost use Rattle.std.specs.Option.{option_map};
ghost use Rattle.lf_names.specs.Names.{position_of};
ghost use Rattle.lf_lex.specs.Tokens.{lexeme};
ghost use Rattle.lf_lex.specs.Reading.{Reads, ReadsOn, ReadsTurn, Fails, turn};
ghost use Rattle.lf_lef.specs.Contents.{site_names, macro_names, ExtendsLibrary};
ghost use Rattle.lf_lef.specs.Library as grammar;

use crate::library::Library;
use crate::macros::{macro_of, macro_parts};
use crate::sites::{site_of, site_parts};
use lf_lex::{
    FaultNumber, Lexer, LoadFault, ReadError, Token, end_name, fault_at, is_token, name, next,
    skip_to_end, skip_to_semicolon, skip_to_word,
};
use lf_units::Name;

/// Checks that there is room for one more entry if the name is new. `Err(TooMany)` if there is not.
fn room_for(known: Option<usize>, count: usize, name: &Token) -> Result<(), ReadError>
    ensures read { MatchResult result (λ x. grammar.room_for known count (lexeme name.now) ≡ Ok x)
        (λ e. Fails e (grammar.room_for known count (lexeme name.now))) }
    ensures room { OnOk result (known ≡ None → count < 1000000) }
{
    if known.is_none() && count >= 1_000_000 {
        return Err(fault_at(FaultNumber::TooMany, name.line));
    }
    Ok(())
}

/// Reads a SITE, after its keyword.
#[tactic(auto, unfolding(crate::specs::Library::with_site))]
fn site(library: &mut Library, lexer: &mut Lexer) -> Result<(), ReadError>
    ensures read { Reads (λ _. library.new) result
        (grammar.with_site library.old) lexer.old lexer.new }
    ensures kept { ExtendsLibrary library.old library.new }
{
    let name = name(lexer)?;
    let known_site = library.find_site(name.text);
    room_for(known_site, library.sites().len(), &name)?;
    let parts = site_parts(lexer, name.text)?;
    if known_site.is_none() {
        let name = Name::from_slice(library.alloc(), name.text)?;
        library.add_site(site_of(name, &parts))?;
    }
    Ok(())
}

/// Reads a MACRO, after its keyword.
#[tactic(auto, unfolding(crate::specs::Library::with_macro))]
fn cell(library: &mut Library, lexer: &mut Lexer) -> Result<(), ReadError>
    ensures read { Reads (λ _. library.new) result
        (grammar.with_macro library.old) lexer.old lexer.new }
    ensures kept { ExtendsLibrary library.old library.new }
{
    let name = name(lexer)?;
    let known_macro = library.find_macro(name.text);
    room_for(known_macro, library.macros().len(), &name)?;
    let parts = macro_parts(library.alloc(), lexer, name.text)?;
    if known_macro.is_none() {
        let name = Name::from_slice(library.alloc(), name.text)?;
        library.add_macro(macro_of(name, &parts))?;
    }
    Ok(())
}

/// True if a statement with this keyword is skipped up to END and the name that follows the
/// keyword.
fn is_named(token: &Token) -> bool
    ensures { result ≡ grammar.is_named (lexeme token.now) }
{
    is_token(b"LAYER", token)
        || is_token(b"VIA", token)
        || is_token(b"VIARULE", token)
        || is_token(b"NONDEFAULTRULE", token)
        || is_token(b"ARRAY", token)
}

/// True if a statement with this keyword is skipped up to END and the keyword.
fn is_group(token: &Token) -> bool
    ensures { result ≡ grammar.is_group (lexeme token.now) }
{
    is_token(b"UNITS", token)
        || is_token(b"PROPERTYDEFINITIONS", token)
        || is_token(b"SPACING", token)
        || is_token(b"IRDROP", token)
        || is_token(b"NOISETABLE", token)
        || is_token(b"CORRECTIONTABLE", token)
}

/// Reads a name, and skips to just after the next `END name`. `Err(UnexpectedEnd)` if there is none.
#[tactic(auto, unfolding(crate::specs::Library::to_named_end))]
pub fn skip_to_named_end(lexer: &mut Lexer) -> Result<(), ReadError>
    ensures { Reads (λ x. x) result grammar.to_named_end lexer.old lexer.new }
{
    let name = name(lexer)?;
    skip_to_end(lexer, name.text)
}

/// Skips a statement other than SITE and MACRO, after its first token.
#[tactic(auto, unfolding(crate::specs::Library::skip_lef_from))]
pub fn skip_lef_statement(lexer: &mut Lexer, token: &Token) -> Result<(), ReadError>
    ensures { ReadsOn (λ x. x) result (grammar.skip_lef_from (lexeme token.now)) lexer.old lexer.new }
{
    if is_named(token) {
        skip_to_named_end(lexer)
    } else if is_group(token) {
        skip_to_end(lexer, token.text)
    } else if is_token(b"BEGINEXT", token) {
        skip_to_word(lexer, b"ENDEXT")
    } else if !is_token(b";", token) {
        skip_to_semicolon(lexer)
    } else {
        Ok(())
    }
}

/// Reads a statement of the text, after its first token. Returns whether more statements follow.
#[tactic(auto, unfolding(crate::specs::Library::lef_statement_from))]
fn statement_from(
    library: &mut Library,
    lexer: &mut Lexer,
    token: &Token,
) -> Result<bool, ReadError>
    ensures read { ReadsOn (turn library.new) result
        (grammar.lef_statement_from library.old (lexeme token.now)) lexer.old lexer.new }
    ensures kept { ExtendsLibrary library.old library.new }
{
    if is_token(b"END", token) {
        end_name(lexer, b"LIBRARY")?;
        return Ok(false);
    }
    if is_token(b"SITE", token) {
        site(library, lexer)?;
    } else if is_token(b"MACRO", token) {
        cell(library, lexer)?;
    } else {
        skip_lef_statement(lexer, token)?;
    }
    Ok(true)
}

#[tactic(auto, unfolding(crate::specs::Library::lef_statement))]
fn statement(library: &mut Library, lexer: &mut Lexer) -> Result<bool, ReadError>
    ensures read { ReadsTurn (turn library.new) result
        (grammar.lef_statement library.old) lexer.old lexer.new }
    ensures kept { ExtendsLibrary library.old library.new }
{
    match next(lexer)? {
        Some(token) => statement_from(library, lexer, &token),
        None => Ok(false),
    }
}

/// Reads the statements of a text. After a failure the library keeps what was read so far.
fn read_statements(library: &mut Library, text: &[u8]) -> Result<(), ReadError>
    ensures ok { OnOk result (grammar.library_after library.old text.now ≡ Ok library.new) }
    ensures fault { IfErr result (λ e. Fails e (grammar.library_after library.old text.now)) }
    ensures kept { ExtendsLibrary library.old library.new }
{
    let mut lexer = Lexer::new(text);
    while statement(library, &mut lexer)? {}
    Ok(())
}

/// Adds the sites and macros of a LEF text, up to END LIBRARY or the end of the text between
/// statements.
///
/// The first of several sites or macros with one name counts, in one text or several. Unless an
/// allocation fails, this succeeds if and only if the text is LEF by the grammar in `specs/`. The
/// library is then what the grammar makes of it.
///
/// `Err` is the first fault in the order of the tokens, with its line: BadToken, UnexpectedEnd,
/// Unexpected, BadNumber, WrongEnd or TooMany. It is OutOfMemory, without a line, if an allocation
/// fails. The library is then unchanged.
pub fn read_lef<'a>(library: &mut Library, text: &'a [u8]) -> Result<(), LoadFault<'a>>
    ensures ok { OnOk result (grammar.library_after library.old text.now ≡ Ok library.new) }
    ensures fault { IfErr result
        (λ fault. grammar.RefusesLef fault (grammar.library_after library.old text.now)) }
    ensures err { OnErr result (library.new ≡ library.old) }
{
    let sites = library.sites().len();
    let macros = library.macros().len();
    match read_statements(library, text) {
        Ok(()) => Ok(()),
        Err(error) => {
            library.truncate(sites, macros);
            Err(error.into_load_fault())
        }
    }
}
