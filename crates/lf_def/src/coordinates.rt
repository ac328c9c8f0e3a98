//! Coordinates, points, rectangles, counts and orientations of DEF.

ghost use Rattle.std.specs.Prelude.{◌≡◌, ◌≤ℤ◌, Ok, IfOk, MatchResult};
ghost use Rattle.std.specs.Int.{int_min, int_max};
ghost use Rattle.lf_lex.specs.Tokens.{lexeme};
ghost use Rattle.lf_lex.specs.Reading.{Reads, Fails};
ghost use Rattle.lf_def.specs.Coordinates as grammar;
ghost use Rattle.lf_def.specs.Ranges.{IsDefCoordinate, HasCoordinates, IsCount, IsRect};

use lf_lex::{FaultNumber, Lexer, ReadError, Token, fault_at, is_token, keyword, token};
use lf_orient::Orient;
use lf_units::{Point, Rect, Span, read_fixed};

/// Returns the whole number of a token. `Err(BadNumber)` if it is no whole number from -2147483647
/// to 2147483647.
fn dbu_of(token: &Token) -> Result<i64, ReadError>
    ensures read { MatchResult result (λ x. grammar.dbu_of (lexeme token.now) ≡ Ok x)
        (λ e. Fails e (grammar.dbu_of (lexeme token.now))) }
    ensures range { IfOk result (λ x. IsDefCoordinate x) }
{
    match read_fixed(token.text, 0, 2_147_483_647) {
        Ok(value) => Ok(value),
        Err(_) => Err(fault_at(FaultNumber::BadNumber, token.line)),
    }
}

/// Reads a coordinate.
#[tactic(auto, unfolding(crate::specs::Coordinates::dbu))]
pub(crate) fn dbu(lexer: &mut Lexer) -> Result<i64, ReadError>
    ensures read { Reads (λ x. x) result grammar.dbu lexer.old lexer.new }
    ensures range { IfOk result (λ x. IsDefCoordinate x) }
{
    let token = token(lexer)?;
    dbu_of(&token)
}

/// Returns the number. `Err(BadNumber)` if it is not from 1 to `most`.
fn up_to(most: u32, value: i64, line: usize) -> Result<u32, ReadError>
    ensures read { MatchResult result (λ n. grammar.number_up_to most value line ≡ Ok n)
        (λ e. Fails e (grammar.number_up_to most value line)) }
    ensures range { IfOk result (λ n. IsCount most n) }
{
    if value < 1 || value > most as i64 {
        return Err(fault_at(FaultNumber::BadNumber, line));
    }
    Ok(value as u32)
}

/// Reads a whole number from 1 to `most`.
#[tactic(auto, unfolding(crate::specs::Coordinates::count))]
pub(crate) fn count(lexer: &mut Lexer, most: u32) -> Result<u32, ReadError>
    ensures read { Reads (λ n. n) result (grammar.count most) lexer.old lexer.new }
    ensures range { IfOk result (λ n. IsCount most n) }
{
    let token = token(lexer)?;
    let value = dbu_of(&token)?;
    up_to(most, value, token.line)
}

/// Reads `x y )`, after the first parenthesis.
#[tactic(auto, unfolding(crate::specs::Coordinates::point_rest))]
pub fn point_rest(lexer: &mut Lexer) -> Result<Point, ReadError>
    ensures read { Reads (λ p. p) result grammar.point_rest lexer.old lexer.new }
    ensures range { IfOk result (λ p. HasCoordinates p) }
{
    let x = dbu(lexer)?;
    let y = dbu(lexer)?;
    keyword(lexer, b")")?;
    Ok(Point { x, y })
}

/// Reads `( x y )`.
#[tactic(auto, unfolding(crate::specs::Coordinates::def_point))]
pub fn point(lexer: &mut Lexer) -> Result<Point, ReadError>
    ensures read { Reads (λ p. p) result grammar.def_point lexer.old lexer.new }
    ensures range { IfOk result (λ p. HasCoordinates p) }
{
    keyword(lexer, b"(")?;
    point_rest(lexer)
}

/// Returns the span from the lesser to the greater of two numbers.
fn between(a: i64, b: i64) -> Span
    requires a { IsDefCoordinate a }
    requires b { IsDefCoordinate b }
    ensures span { result ≡ record { lo = int_min a b; hi = int_max a b } }
    ensures lo { IsDefCoordinate result.lo }
    ensures hi { IsDefCoordinate result.hi }
    ensures order { result.lo ≤ℤ result.hi }
{
    Span {
        lo: a.min(b),
        hi: a.max(b),
    }
}

/// Returns the rectangle with these two opposite corners.
fn rect_between(p: &Point, q: &Point) -> Rect
    requires first { HasCoordinates p.now }
    requires second { HasCoordinates q.now }
    ensures rect { result ≡ grammar.rect_between p.now q.now }
    ensures range { IsRect result }
{
    let across = between(p.x, q.x);
    let up = between(p.y, q.y);
    Rect {
        x1: across.lo,
        y1: up.lo,
        x2: across.hi,
        y2: up.hi,
    }
}

/// Reads `x y ) ( x y )`, after the first parenthesis.
#[tactic(auto, unfolding(crate::specs::Coordinates::rect_rest))]
pub(crate) fn rect_rest(lexer: &mut Lexer) -> Result<Rect, ReadError>
    ensures read { Reads (λ r. r) result grammar.rect_rest lexer.old lexer.new }
    ensures range { IfOk result (λ r. IsRect r) }
{
    let corner = point_rest(lexer)?;
    let opposite = point(lexer)?;
    Ok(rect_between(&corner, &opposite))
}

/// Reads `( x y ) ( x y )`.
#[tactic(auto, unfolding(crate::specs::Coordinates::def_rectangle))]
pub(crate) fn rect(lexer: &mut Lexer) -> Result<Rect, ReadError>
    ensures read { Reads (λ r. r) result grammar.def_rectangle lexer.old lexer.new }
    ensures range { IfOk result (λ r. IsRect r) }
{
    keyword(lexer, b"(")?;
    rect_rest(lexer)
}

/// Returns the orientation that a token names. `Err(Unexpected)` if it names no orientation.
pub fn orient_of(token: &Token) -> Result<Orient, ReadError>
    ensures { MatchResult result (λ o. grammar.orient_of (lexeme token.now) ≡ Ok o)
        (λ e. Fails e (grammar.orient_of (lexeme token.now))) }
{
    if is_token(b"N", token) {
        Ok(Orient::N)
    } else if is_token(b"W", token) {
        Ok(Orient::W)
    } else if is_token(b"S", token) {
        Ok(Orient::S)
    } else if is_token(b"E", token) {
        Ok(Orient::E)
    } else if is_token(b"FN", token) {
        Ok(Orient::FN)
    } else if is_token(b"FW", token) {
        Ok(Orient::FW)
    } else if is_token(b"FS", token) {
        Ok(Orient::FS)
    } else if is_token(b"FE", token) {
        Ok(Orient::FE)
    } else {
        Err(fault_at(FaultNumber::Unexpected, token.line))
    }
}
