//! Lengths and points of LEF, in millionths of a micron.

ghost use Rattle.std.specs.Prelude.{◌≡◌, Ok, IfOk, IfSome, IfErr, MatchResult};
ghost use Rattle.lf_lex.specs.Tokens.{lexeme};
ghost use Rattle.lf_lex.specs.Reading.{Reads, Fails, first_counts};
ghost use Rattle.lf_lef.specs.Lengths as grammar;
ghost use Rattle.lf_lef.specs.Lengths.{IsLengthInRange, HasRange};

use lf_lex::{FaultNumber, Lexer, ReadError, Token, fault_at, is_token, keyword, token};
use lf_units::{Point, read_fixed};

/// Returns the length of a token, in millionths of a micron. `Err(BadNumber)` if it is no number,
/// is too fine, or is not from -1,000,000 to 1,000,000 microns.
fn micros_of(token: &Token) -> Result<i64, ReadError>
    ensures read { MatchResult result (λ x. grammar.micros_of (lexeme token.now) ≡ Ok x)
        (λ e. Fails e (grammar.micros_of (lexeme token.now))) }
    ensures range { IfOk result (λ x. IsLengthInRange x) }
{
    match read_fixed(token.text, 6, 1_000_000_000_000) {
        Ok(value) => Ok(value),
        Err(_) => Err(fault_at(FaultNumber::BadNumber, token.line)),
    }
}

/// Reads a length.
#[tactic(auto, unfolding(crate::specs::Lengths::micros))]
pub(crate) fn micros(lexer: &mut Lexer) -> Result<i64, ReadError>
    ensures read { Reads (λ x. x) result grammar.micros lexer.old lexer.new }
    ensures range { IfOk result (λ x. IsLengthInRange x) }
{
    let token = token(lexer)?;
    micros_of(&token)
}

/// Reads a point, given its first token.
#[tactic(auto, unfolding(crate::specs::Lengths::point_from))]
pub fn point_from(lexer: &mut Lexer, token: &Token) -> Result<Point, ReadError>
    ensures read { Reads (λ p. p) result
        (grammar.point_from (lexeme token.now)) lexer.old lexer.new }
    ensures range { IfOk result (λ p. HasRange p) }
{
    if is_token(b"(", token) {
        let x = micros(lexer)?;
        let y = micros(lexer)?;
        keyword(lexer, b")")?;
        Ok(Point { x, y })
    } else {
        let x = micros_of(token)?;
        let y = micros(lexer)?;
        Ok(Point { x, y })
    }
}

/// Reads a point.
#[tactic(auto, unfolding(crate::specs::Lengths::lef_point))]
pub fn point(lexer: &mut Lexer) -> Result<Point, ReadError>
    ensures read { Reads (λ p. p) result grammar.lef_point lexer.old lexer.new }
    ensures range { IfOk result (λ p. HasRange p) }
{
    let token = token(lexer)?;
    point_from(lexer, &token)
}

/// Reads `SIZE w BY h ;`, after its keyword.
#[tactic(auto, unfolding(crate::specs::Lengths::size))]
pub(crate) fn size(lexer: &mut Lexer) -> Result<Point, ReadError>
    ensures read { Reads (λ p. p) result grammar.size lexer.old lexer.new }
    ensures range { IfOk result (λ p. HasRange p) }
{
    let x = micros(lexer)?;
    keyword(lexer, b"BY")?;
    let y = micros(lexer)?;
    keyword(lexer, b";")?;
    Ok(Point { x, y })
}

/// Reads `ORIGIN x y ;`, after its keyword.
#[tactic(auto, unfolding(crate::specs::Lengths::origin))]
pub(crate) fn origin(lexer: &mut Lexer) -> Result<Point, ReadError>
    ensures read { Reads (λ p. p) result grammar.origin lexer.old lexer.new }
    ensures range { IfOk result (λ p. HasRange p) }
{
    let point = point(lexer)?;
    keyword(lexer, b";")?;
    Ok(point)
}

/// Sets `first` to the point unless an earlier statement set it.
pub(crate) fn keep_first(first: &mut Option<Point>, point: Point)
    requires range { IfSome first.old (λ p. HasRange p) }
    requires point { HasRange point }
    ensures first { first.new ≡ first_counts first.old point }
    ensures range { IfSome first.new (λ p. HasRange p) }
{
    if first.is_none() {
        *first = Some(point);
    }
}
