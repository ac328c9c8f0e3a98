//! The pins of the design: a name and the ports that are placed.

ghost use Rattle.std.specs.Prelude.{◌≡◌, ◌≤ℤ◌, All, IfOk, IfSome, OnOk, Some};
ghost use Rattle.std.specs.Int.{int_max, int_min};
ghost use Rattle.lf_lex.specs.Tokens.{lexeme};
ghost use Rattle.lf_lex.specs.Reading.{Reads, ReadsOn, first_counts, turn};
ghost use Rattle.lf_def.specs.Ranges.{HasCoordinates, IsDefCoordinate, IsLocation, IsRect};
ghost use Rattle.lf_wire_nets.specs.DesignPins as grammar;
ghost use Rattle.lf_wire_nets.specs.NetRanges.{ArePinParts, IsDesignPin, IsDesignPort};

use lf_def::{Location, orient_of, point, point_rest};
use lf_lex::{Block, Lexer, ReadError, Token, is_token, name, read_block, token};
use lf_units::{Point, Rect, Sequence, Span};
use std::alloc::{AllocError, Global};
use std::marker::Model;

/// A port of a pin of the design (LEF/DEF 5.8, DEF PINS, PORT), in database units.
#[derive(Clone, Copy)]
pub struct DesignPort {
    /// Where the port is placed (PLACED, FIXED or COVER).
    pub at: Location,
    /// The least box around its rectangles (LAYER) and polygons (POLYGON), before it is turned and
    /// placed. `None` if it has neither.
    pub shape: Option<Rect>,
}

/// A pin of the design (LEF/DEF 5.8, DEF PINS), whose name is borrowed from its text. A contract
/// sees its name and its ports.
#[derive(Drop)]
pub struct DesignPin<'a> {
    name: &'a [u8],
    ports: Sequence<DesignPort>,
}

impl<'a> Model for DesignPin<'a> {
    ghost use Rattle.lf_wire_nets.specs.StoredNets.{DesignPinFacts};

    ghost Value = { DesignPinFacts };

    ghost view = { λ p. record { name = p.name.now; ports = p.ports } };
}

impl<'a> DesignPin<'a> {
    /// Returns the pin's name.
    pub fn name(&self) -> &'a [u8]
        ensures { result.now ≡ self.now.name }
    {
        self.name
    }

    /// Returns its ports that are placed, in the order of the text.
    pub fn ports(&self) -> &[DesignPort]
        ensures { result.now ≡ self.now.ports }
    {
        self.ports.as_slice()
    }
}

/// The part of a pin that is expected, besides `;` and `+`.
#[derive(Clone, Copy)]
pub enum PinToken {
    /// The word of a clause, directly after its `+`.
    Clause,
    /// A point of LAYER or POLYGON, or another token of that clause, which is skipped.
    Shape,
    /// A token of the rest of a clause, which is skipped.
    Rest,
}

/// The parts of a pin that were read so far.
#[derive(Drop)]
pub struct PinParts {
    /// The placed ports in front of the current one.
    pub ports: Sequence<DesignPort>,
    /// Where the current port is placed.
    pub at: Option<Location>,
    /// The least box around the shapes of the current port.
    pub shape: Option<Rect>,
    pub expected: PinToken,
}

/// True if the word begins a placement.
fn begins_placement(word: &Token) -> bool
    ensures { result ≡ grammar.begins_placement (lexeme word.now) }
{
    is_token(b"PLACED", word) || is_token(b"FIXED", word) || is_token(b"COVER", word)
}

/// True if the word begins a shape.
fn begins_shape(word: &Token) -> bool
    ensures { result ≡ grammar.begins_shape (lexeme word.now) }
{
    is_token(b"LAYER", word) || is_token(b"POLYGON", word)
}

/// Returns a coordinate of a pin in 32 bits.
fn narrow(x: i64) -> i32
    requires { IsDefCoordinate x }
    ensures { result ≡ x }
{
    x as i32
}

/// Reads `( x y ) orient`, after PLACED, FIXED or COVER.
#[tactic(auto, unfolding(crate::specs::DesignPins::location))]
fn location(lexer: &mut Lexer) -> Result<Location, ReadError>
    ensures read { Reads (λ p. p) result grammar.location lexer.old lexer.new }
    ensures range { IfOk result IsLocation }
{
    let point = point(lexer)?;
    let token = token(lexer)?;
    let orient = orient_of(&token)?;
    Ok(Location {
        x: narrow(point.x),
        y: narrow(point.y),
        orient,
    })
}

/// Sets `first` to the location unless an earlier clause set it.
fn keep_first(first: &mut Option<Location>, location: Location)
    requires first { IfSome first.old IsLocation }
    requires location { IsLocation location }
    ensures first { first.new ≡ first_counts first.old location }
    ensures range { IfSome first.new IsLocation }
{
    if first.is_none() {
        *first = Some(location);
    }
}

/// Returns the least span around a span and a number.
fn span_with(lo: i64, hi: i64, x: i64) -> Span
    requires lo { IsDefCoordinate lo }
    requires hi { IsDefCoordinate hi }
    requires x { IsDefCoordinate x }
    ensures span { result ≡ record { lo = int_min lo x; hi = int_max hi x } }
    ensures lo { IsDefCoordinate result.lo }
    ensures hi { IsDefCoordinate result.hi }
    ensures order { result.lo ≤ℤ result.hi }
{
    Span {
        lo: lo.min(x),
        hi: hi.max(x),
    }
}

/// Returns the least box around a box and a point.
fn box_with(rect: &Rect, point: &Point) -> Rect
    requires rect { IsRect rect.now }
    requires point { HasCoordinates point.now }
    ensures around { result ≡ grammar.box_with rect.now point.now }
    ensures range { IsRect result }
{
    let across = span_with(rect.x1, rect.x2, point.x);
    let up = span_with(rect.y1, rect.y2, point.y);
    Rect {
        x1: across.lo,
        y1: up.lo,
        x2: across.hi,
        y2: up.hi,
    }
}

/// Returns the box with this point alone.
fn point_box(point: &Point) -> Rect
    requires { HasCoordinates point.now }
    ensures point { result ≡ grammar.point_box point.now }
    ensures range { IsRect result }
{
    Rect {
        x1: point.x,
        y1: point.y,
        x2: point.x,
        y2: point.y,
    }
}

/// Widens the box around the shapes so far to one more point.
fn widen_shape(shape: &mut Option<Rect>, point: &Point)
    requires shape { IfSome shape.old IsRect }
    requires point { HasCoordinates point.now }
    ensures widened { shape.new ≡ Some (grammar.shape_with shape.old point.now) }
    ensures range { IfSome shape.new IsRect }
{
    *shape = match shape {
        Some(rect) => Some(box_with(rect, point)),
        None => Some(point_box(point)),
    };
}

/// Appends the port with this location and this shape. A port without a location is left out.
fn add_port(
    ports: &mut Sequence<DesignPort>,
    at: Option<Location>,
    shape: Option<Rect>,
) -> Result<(), AllocError>
    requires ports { All IsDesignPort ports.old }
    requires at { IfSome at IsLocation }
    requires shape { IfSome shape IsRect }
    ensures added { OnOk result (ports.new ≡ grammar.with_port ports.old at shape) }
    ensures range { All IsDesignPort ports.new }
{
    if let Some(at) = at {
        ports.push(DesignPort { at, shape })?;
    }
    Ok(())
}

/// Reads a clause, after its plus and its word. Returns whether more parts follow.
#[tactic(auto, unfolding(crate::specs::DesignPins::pin_clause))]
fn pin_clause(lexer: &mut Lexer, parts: &mut PinParts, word: &Token) -> Result<bool, ReadError>
    requires range { ArePinParts parts.old }
    ensures read { ReadsOn (turn parts.new) result
        (grammar.pin_clause parts.old (lexeme word.now)) lexer.old lexer.new }
    ensures range { ArePinParts parts.new }
{
    if begins_shape(word) {
        parts.expected = PinToken::Shape;
        return Ok(true);
    }
    if is_token(b"PORT", word) {
        add_port(&mut parts.ports, parts.at, parts.shape)?;
        parts.at = None;
        parts.shape = None;
    } else if begins_placement(word) {
        let location = location(lexer)?;
        keep_first(&mut parts.at, location);
    }
    parts.expected = PinToken::Rest;
    Ok(true)
}

/// Reads a token of LAYER or POLYGON after their word: a point begins with a parenthesis. Returns
/// whether more parts follow.
#[tactic(auto, unfolding(crate::specs::DesignPins::shape_token))]
fn shape_token(lexer: &mut Lexer, parts: &mut PinParts, token: &Token) -> Result<bool, ReadError>
    requires range { ArePinParts parts.old }
    ensures read { ReadsOn (turn parts.new) result
        (grammar.shape_token parts.old (lexeme token.now)) lexer.old lexer.new }
    ensures range { ArePinParts parts.new }
{
    if is_token(b"(", token) {
        let point = point_rest(lexer)?;
        widen_shape(&mut parts.shape, &point);
    }
    Ok(true)
}

/// Reads the part of a pin that begins with this token, which is no separator. Returns whether more
/// parts follow.
#[tactic(auto, unfolding(crate::specs::DesignPins::pin_token))]
fn pin_token(lexer: &mut Lexer, parts: &mut PinParts, token: &Token) -> Result<bool, ReadError>
    requires range { ArePinParts parts.old }
    ensures read { ReadsOn (turn parts.new) result
        (grammar.pin_token parts.old.expected parts.old (lexeme token.now)) lexer.old lexer.new }
    ensures range { ArePinParts parts.new }
{
    match parts.expected {
        PinToken::Clause => pin_clause(lexer, parts, token),
        PinToken::Shape => shape_token(lexer, parts, token),
        PinToken::Rest => Ok(true),
    }
}

/// Reads the part of a pin that begins with this token. Returns whether more parts follow.
#[tactic(auto, unfolding(crate::specs::DesignPins::pin_part_from))]
fn pin_part_from(lexer: &mut Lexer, parts: &mut PinParts, token: &Token) -> Result<bool, ReadError>
    requires range { ArePinParts parts.old }
    ensures read { ReadsOn (turn parts.new) result
        (grammar.pin_part_from parts.old (lexeme token.now)) lexer.old lexer.new }
    ensures range { ArePinParts parts.new }
{
    if is_token(b";", token) {
        Ok(false)
    } else if is_token(b"+", token) {
        parts.expected = PinToken::Clause;
        Ok(true)
    } else {
        pin_token(lexer, parts, token)
    }
}

/// Reads the tokens of a pin after its name, up to its `;`.
#[derive(Drop)]
struct AllPinParts;

impl Block for AllPinParts {
    type State = PinParts;

    ghost statement = { λ _. grammar.pin_part };

    ghost keeps = { λ _ parts. ArePinParts parts };

    #[tactic(auto, unfolding(crate::specs::DesignPins::pin_part))]
    fn turn(&self, lexer: &mut Lexer, parts: &mut PinParts) -> Result<bool, ReadError> {
        let token = token(lexer)?;
        pin_part_from(lexer, parts, &token)
    }
}

/// Returns the state of a pin after its name.
fn no_pin_parts(alloc: Global) -> PinParts
    ensures parts { result ≡ grammar.no_pin_parts }
    ensures range { ArePinParts result }
{
    PinParts {
        ports: Sequence::new(alloc),
        at: None,
        shape: None,
        expected: PinToken::Rest,
    }
}

/// Reads a pin, after its minus.
#[tactic(auto, unfolding(crate::specs::DesignPins::design_pin))]
pub(crate) fn design_pin<'a>(
    alloc: Global,
    lexer: &mut Lexer<'a>,
) -> Result<DesignPin<'a>, ReadError>
    ensures read { Reads (λ p. p) result grammar.design_pin lexer.old lexer.new }
    ensures range { IfOk result (λ p. IsDesignPin p) }
{
    let name = name(lexer)?;
    let mut parts = no_pin_parts(alloc);
    read_block(lexer, &AllPinParts, &mut parts)?;
    add_port(&mut parts.ports, parts.at, parts.shape)?;
    Ok(DesignPin {
        name: name.text,
        ports: parts.ports,
    })
}
