//! Pins of macros, as needed for supply rails.

ghost use Rattle.std.specs.Prelude.{◌≡◌, [], ◌+ℤ◌};
ghost use Rattle.std.specs.List.{list_any};
ghost use Rattle.lf_lex.specs.Tokens.{lexeme};
ghost use Rattle.lf_lex.specs.Reading.{Reads, ReadsOn, turn};
ghost use Rattle.lf_lef.specs.Pins as grammar;

use crate::lengths::{micros, point, point_from};
use crate::sites::one_word;
use lf_lex::{
    Block, Lexer, ReadError, Token, end_name, is_token, name, read_block, skip_to_semicolon, token,
};
use lf_orient::Rail;
use lf_units::Sequence;
use std::alloc::Global;

/// The use of a pin.
#[derive(Clone, Copy, Debug, PartialEq, Eq)]
pub enum PinUse {
    Power,
    Ground,
    Other,
}

/// The y range of a rectangle, from its bottom to its top edge, in millionths of a micron.
#[derive(Clone, Copy, Debug, PartialEq, Eq)]
pub struct Reach {
    pub low: i64,
    pub high: i64,
}

/// A pin: its first USE, and the y ranges of the rectangles of all its ports.
#[derive(Drop)]
pub struct Pin {
    pub supply: Option<PinUse>,
    pub reaches: Sequence<Reach>,
}

/// Skips `MASK n`, if the token is its keyword. Returns the token after it, or `first`.
#[tactic(auto, unfolding(crate::specs::Pins::past_mask))]
pub fn past_mask<'a>(lexer: &mut Lexer<'a>, first: Token<'a>) -> Result<Token<'a>, ReadError>
    ensures { ReadsOn lexeme result (grammar.past_mask (lexeme first.entry)) lexer.old lexer.new }
{
    if !is_token(b"MASK", &first) {
        return Ok(first);
    }
    micros(lexer)?;
    token(lexer)
}

/// Skips `ITERATE`, if the token is this keyword. Returns the token after it, or `first`.
#[tactic(auto, unfolding(crate::specs::Pins::past_iterate))]
pub fn past_iterate<'a>(lexer: &mut Lexer<'a>, first: Token<'a>) -> Result<Token<'a>, ReadError>
    ensures { ReadsOn lexeme result
        (grammar.past_iterate (lexeme first.entry)) lexer.old lexer.new }
{
    if !is_token(b"ITERATE", &first) {
        return Ok(first);
    }
    token(lexer)
}

/// Returns the y range between two opposite corners.
fn reach_of(a: i64, b: i64) -> Reach
    ensures { result ≡ grammar.reach_of a b }
{
    Reach {
        low: a.min(b),
        high: a.max(b),
    }
}

/// Reads `RECT [MASK n] [ITERATE] pt pt .. ;`, after its keyword.
#[tactic(auto, unfolding(crate::specs::Pins::lef_rectangle))]
fn rect(lexer: &mut Lexer) -> Result<Reach, ReadError>
    ensures { Reads (λ r. r) result grammar.lef_rectangle lexer.old lexer.new }
{
    let first = token(lexer)?;
    let first = past_mask(lexer, first)?;
    let first = past_iterate(lexer, first)?;
    let corner = point_from(lexer, &first)?;
    let opposite = point(lexer)?;
    skip_to_semicolon(lexer)?;
    Ok(reach_of(corner.y, opposite.y))
}

/// Reads a statement of a port, after its first token. Returns whether more statements follow.
#[tactic(auto, unfolding(crate::specs::Pins::port_statement_from))]
fn port_statement_from(
    lexer: &mut Lexer,
    reaches: &mut Sequence<Reach>,
    token: &Token,
) -> Result<bool, ReadError>
    ensures { ReadsOn (turn reaches.new) result
        (grammar.port_statement_from reaches.old (lexeme token.now)) lexer.old lexer.new }
{
    if is_token(b"END", token) {
        return Ok(false);
    }
    if is_token(b"RECT", token) {
        let reach = rect(lexer)?;
        reaches.push(reach)?;
    } else if !is_token(b";", token) {
        skip_to_semicolon(lexer)?;
    }
    Ok(true)
}

/// Reads the statements of a port and appends its rectangles.
#[derive(Drop)]
struct PortStatements;

impl Block for PortStatements {
    type State = Sequence<Reach>;

    ghost statement = { λ _. grammar.port_statement };

    #[tactic(auto, unfolding(crate::specs::Pins::port_statement))]
    fn turn(&self, lexer: &mut Lexer, reaches: &mut Sequence<Reach>) -> Result<bool, ReadError> {
        let token = token(lexer)?;
        port_statement_from(lexer, reaches, &token)
    }
}

/// Returns the use that a word names.
fn use_named(word: &[u8]) -> PinUse
    ensures { result ≡ grammar.use_named word.now }
{
    if word == b"POWER".as_slice() {
        PinUse::Power
    } else if word == b"GROUND".as_slice() {
        PinUse::Ground
    } else {
        PinUse::Other
    }
}

/// Reads a statement of a pin, after its first token. Returns whether more statements follow.
#[tactic(auto, unfolding(crate::specs::Pins::pin_statement_from))]
fn pin_statement_from(
    lexer: &mut Lexer,
    name: &[u8],
    pin: &mut Pin,
    token: &Token,
) -> Result<bool, ReadError>
    ensures { ReadsOn (turn pin.new) result
        (grammar.pin_statement_from name.now pin.old (lexeme token.now)) lexer.old lexer.new }
{
    if is_token(b"END", token) {
        end_name(lexer, name)?;
        return Ok(false);
    }
    if is_token(b"USE", token) {
        let word = one_word(lexer)?;
        pin.supply = pin.supply.or(Some(use_named(word)));
    } else if is_token(b"PORT", token) {
        read_block(lexer, &PortStatements, &mut pin.reaches)?;
    } else if !is_token(b";", token) {
        skip_to_semicolon(lexer)?;
    }
    Ok(true)
}

/// Reads the statements of the pin with this name.
#[derive(Drop)]
struct PinStatements<'n> {
    name: &'n [u8],
}

impl<'n> Block for PinStatements<'n> {
    type State = Pin;

    ghost statement = { λ pin. grammar.pin_statement pin.name.now };

    #[tactic(auto, unfolding(crate::specs::Pins::pin_statement))]
    fn turn(&self, lexer: &mut Lexer, pin: &mut Pin) -> Result<bool, ReadError> {
        let token = token(lexer)?;
        pin_statement_from(lexer, self.name, pin, &token)
    }
}

/// Reads `PIN name`, its statements and `END name`, after its keyword.
#[tactic(auto, unfolding(crate::specs::Pins::pin))]
pub(crate) fn read_pin(alloc: Global, lexer: &mut Lexer) -> Result<Pin, ReadError>
    ensures { Reads (λ p. p) result grammar.pin lexer.old lexer.new }
{
    let name = name(lexer)?;
    let mut pin = Pin {
        supply: None,
        reaches: Sequence::new(alloc),
    };
    read_block(lexer, &PinStatements { name: name.text }, &mut pin)?;
    Ok(pin)
}

/// Returns a y in the macro's coordinates with the y of ORIGIN added.
fn moved(y: i64, origin: i64) -> i128
    ensures { result ≡ y +ℤ origin }
{
    y as i128 + origin as i128
}

fn is_at_bottom(origin: i64, reach: &Reach) -> bool
    ensures { result ≡ grammar.is_at_bottom origin reach.now }
{
    moved(reach.low, origin) <= 0 && 0 <= moved(reach.high, origin)
}

fn reaches_bottom(origin: i64, reaches: &[Reach]) -> bool
    ensures { result ≡ list_any (grammar.is_at_bottom origin) reaches.now }
{
    reaches.iter().any(|reach| is_at_bottom(origin, reach))
}

fn is_used_as(supply: PinUse, given: Option<PinUse>) -> bool
    ensures { result ≡ grammar.is_used_as supply given }
{
    match given {
        Some(given) => given == supply,
        None => false,
    }
}

fn is_supply_at_bottom(supply: PinUse, origin: i64, pin: &Pin) -> bool
    ensures { result ≡ grammar.is_supply_at_bottom supply origin pin.now }
{
    is_used_as(supply, pin.supply) && reaches_bottom(origin, pin.reaches.as_slice())
}

fn has_at_bottom(supply: PinUse, origin: i64, pins: &[Pin]) -> bool
    ensures { result ≡ grammar.has_at_bottom supply origin pins.now }
{
    pins.iter()
        .any(|pin| is_supply_at_bottom(supply, origin, pin))
}

/// Returns the rail along the bottom of a macro whose ORIGIN has this y.
pub(crate) fn rail_of(origin: i64, pins: &[Pin]) -> Rail
    ensures { result ≡ grammar.rail_of origin pins.now }
{
    let power = has_at_bottom(PinUse::Power, origin, pins);
    let ground = has_at_bottom(PinUse::Ground, origin, pins);
    if power && !ground {
        Rail::Power
    } else {
        Rail::Ground
    }
}
