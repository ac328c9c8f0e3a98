//! Sites: SITE name, its statements, END name.

ghost use Rattle.std.specs.Prelude.{◌≡◌, IfSome, IfOk, OnOk};
ghost use Rattle.lf_lex.specs.Tokens.{lexeme};
ghost use Rattle.lf_lex.specs.Reading.{Reads, ReadsOn, turn};
ghost use Rattle.lf_lef.specs.Lengths.{HasRange};
ghost use Rattle.lf_lef.specs.Sites as grammar;

use crate::lengths::{keep_first, size};
use lf_floorplan::Site;
use lf_lex::{
    Block, FaultNumber, Lexer, ReadError, Token, end_name, fault_at, is_token, keyword, read_block,
    skip_to_semicolon, token, word,
};
use lf_orient::Symmetry;
use lf_units::{Name, Point};

/// The statements of a site, the first of each kind.
#[derive(Clone, Copy, Debug, PartialEq, Eq)]
pub struct SiteParts {
    pub core: Option<bool>,
    pub symmetry: Option<Symmetry>,
    pub size: Option<Point>,
}

/// Reads a word and a semicolon.
#[tactic(auto, unfolding(crate::specs::Sites::one_word))]
pub(crate) fn one_word<'a>(lexer: &mut Lexer<'a>) -> Result<&'a [u8], ReadError>
    ensures { Reads (λ w. w.now) result grammar.one_word lexer.old lexer.new }
{
    let word = word(lexer)?;
    keyword(lexer, b";")?;
    Ok(word.text)
}

/// Reads the words after SYMMETRY, up to the `;`.
#[derive(Drop)]
struct SymmetryWords;

impl Block for SymmetryWords {
    type State = Symmetry;

    ghost statement = { λ _. grammar.symmetry_word };

    #[tactic(auto, unfolding(crate::specs::Sites::symmetry_word))]
    fn turn(&self, lexer: &mut Lexer, symmetry: &mut Symmetry) -> Result<bool, ReadError> {
        let token = token(lexer)?;
        if is_token(b";", &token) {
            return Ok(false);
        }
        if is_token(b"X", &token) {
            symmetry.x = true;
        } else if is_token(b"Y", &token) {
            symmetry.y = true;
        } else if !is_token(b"R90", &token) {
            return Err(fault_at(FaultNumber::Unexpected, token.line));
        }
        Ok(true)
    }
}

/// Reads `SYMMETRY {X | Y | R90} .. ;`, after its keyword. R90 is ignored.
pub(crate) fn symmetry(lexer: &mut Lexer) -> Result<Symmetry, ReadError>
    ensures { Reads (λ s. s) result grammar.symmetry lexer.old lexer.new }
{
    let mut symmetry = Symmetry { x: false, y: false };
    read_block(lexer, &SymmetryWords, &mut symmetry)?;
    Ok(symmetry)
}

/// Reads a statement of a site, after its first token. Returns whether more statements follow.
#[tactic(auto, unfolding(crate::specs::Sites::site_statement_from))]
fn site_statement_from(
    lexer: &mut Lexer,
    name: &[u8],
    parts: &mut SiteParts,
    token: &Token,
) -> Result<bool, ReadError>
    requires range { IfSome parts.old.size (λ p. HasRange p) }
    ensures read { ReadsOn (turn parts.new) result
        (grammar.site_statement_from name.now parts.old (lexeme token.now)) lexer.old lexer.new }
    ensures range { IfSome parts.new.size (λ p. HasRange p) }
{
    if is_token(b"END", token) {
        end_name(lexer, name)?;
        return Ok(false);
    }
    if is_token(b"CLASS", token) {
        let class = one_word(lexer)?;
        parts.core = parts.core.or(Some(class == b"CORE".as_slice()));
    } else if is_token(b"SYMMETRY", token) {
        let symmetry = symmetry(lexer)?;
        parts.symmetry = parts.symmetry.or(Some(symmetry));
    } else if is_token(b"SIZE", token) {
        let size = size(lexer)?;
        keep_first(&mut parts.size, size);
    } else if !is_token(b";", token) {
        skip_to_semicolon(lexer)?;
    }
    Ok(true)
}

/// Reads the statements of the site with this name.
#[derive(Drop)]
struct SiteStatements<'n> {
    name: &'n [u8],
}

impl<'n> Block for SiteStatements<'n> {
    type State = SiteParts;

    ghost statement = { λ site. grammar.site_statement site.name.now };

    ghost keeps = { λ _ parts. IfSome parts.size (λ p. HasRange p) };

    #[tactic(auto, unfolding(crate::specs::Sites::site_statement))]
    fn turn(&self, lexer: &mut Lexer, parts: &mut SiteParts) -> Result<bool, ReadError> {
        let first = token(lexer)?;
        site_statement_from(lexer, self.name, parts, &first)
    }
}

/// Reads the statements of a site, and its END name.
pub(crate) fn site_parts(lexer: &mut Lexer, name: &[u8]) -> Result<SiteParts, ReadError>
    ensures read { Reads (λ p. p) result (grammar.site_parts name.now) lexer.old lexer.new }
    ensures range { IfOk result (λ parts. IfSome parts.size (λ p. HasRange p)) }
{
    let mut parts = SiteParts {
        core: None,
        symmetry: None,
        size: None,
    };
    read_block(lexer, &SiteStatements { name }, &mut parts)?;
    Ok(parts)
}

/// Returns the point or size of a missing statement: 0 and 0.
pub(crate) fn no_point() -> Point
    ensures { result ≡ grammar.no_point }
{
    Point { x: 0, y: 0 }
}

/// Returns the site that the statements describe.
pub(crate) fn site_of(name: Name, parts: &SiteParts) -> Site
    requires range { IfSome parts.now.size (λ p. HasRange p) }
    ensures site { result ≡ grammar.site_of name parts.now }
    ensures range { HasRange result.size }
{
    Site {
        name,
        core: parts.core.unwrap_or(false),
        size: parts.size.unwrap_or(no_point()),
        symmetry: parts.symmetry.unwrap_or(Symmetry { x: false, y: false }),
    }
}
