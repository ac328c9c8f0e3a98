//! The rectangles and polygons of a port.

ghost use Rattle.std.specs.Prelude.{IfOk};
ghost use Rattle.lf_lex.specs.Tokens.{lexeme};
ghost use Rattle.lf_lex.specs.Reading.{Reads, ReadsOn, turn};
ghost use Rattle.lf_wire_nets.specs.Boxes.{IsShapeBox, IsShapeBoxIfAny};
ghost use Rattle.lf_wire_nets.specs.Shapes as grammar;

use crate::boxes::{box_around, point_box, widen_box};
use lf_lef::{past_iterate, past_mask, point, point_from};
use lf_lex::{Block, Lexer, ReadError, Token, is_token, read_block, skip_to_semicolon, token};
use lf_units::Rect;

/// Reads `[MASK n] [ITERATE] pt` of a shape: the box with this corner alone.
#[tactic(auto, unfolding(crate::specs::Shapes::shape_corner))]
fn shape_corner(lexer: &mut Lexer) -> Result<Rect, ReadError>
    ensures read { Reads (λ b. b) result grammar.shape_corner lexer.old lexer.new }
    ensures range { IfOk result (λ b. IsShapeBox b) }
{
    let first = token(lexer)?;
    let first = past_mask(lexer, first)?;
    let first = past_iterate(lexer, first)?;
    let corner = point_from(lexer, &first)?;
    Ok(point_box(&corner))
}

/// Reads `RECT [MASK n] [ITERATE] pt pt .. ;`, after its keyword.
#[tactic(auto, unfolding(crate::specs::Shapes::rectangle_box))]
fn rectangle_box(lexer: &mut Lexer) -> Result<Rect, ReadError>
    ensures read { Reads (λ b. b) result grammar.rectangle_box lexer.old lexer.new }
    ensures range { IfOk result (λ b. IsShapeBox b) }
{
    let corner = shape_corner(lexer)?;
    let opposite = point(lexer)?;
    skip_to_semicolon(lexer)?;
    Ok(box_around(&corner, &point_box(&opposite)))
}

/// Reads the corners of a polygon after the first, up to its `;`.
#[derive(Drop)]
struct PolygonCorners;

impl Block for PolygonCorners {
    type State = Rect;

    ghost statement = { λ _. grammar.polygon_corner };

    ghost keeps = { λ _ so_far. IsShapeBox so_far };

    #[tactic(auto, unfolding(crate::specs::Shapes::polygon_corner))]
    fn turn(&self, lexer: &mut Lexer, so_far: &mut Rect) -> Result<bool, ReadError> {
        let token = token(lexer)?;
        if is_token(b";", &token) {
            return Ok(false);
        }
        if is_token(b"DO", &token) {
            skip_to_semicolon(lexer)?;
            return Ok(false);
        }
        let corner = point_from(lexer, &token)?;
        *so_far = box_around(so_far, &point_box(&corner));
        Ok(true)
    }
}

/// Reads `POLYGON [MASK n] [ITERATE] pt pt .. [DO ..] ;`, after its keyword.
#[tactic(auto, unfolding(crate::specs::Shapes::polygon_box))]
fn polygon_box(lexer: &mut Lexer) -> Result<Rect, ReadError>
    ensures read { Reads (λ b. b) result grammar.polygon_box lexer.old lexer.new }
    ensures range { IfOk result (λ b. IsShapeBox b) }
{
    let mut so_far = shape_corner(lexer)?;
    read_block(lexer, &PolygonCorners, &mut so_far)?;
    Ok(so_far)
}

/// Reads a statement of a port, after its first token. Returns whether more statements follow.
#[tactic(auto, unfolding(crate::specs::Shapes::port_shape_from))]
fn port_shape_from(
    lexer: &mut Lexer,
    so_far: &mut Option<Rect>,
    token: &Token,
) -> Result<bool, ReadError>
    requires range { IsShapeBoxIfAny so_far.old }
    ensures read { ReadsOn (turn so_far.new) result
        (grammar.port_shape_from so_far.old (lexeme token.now)) lexer.old lexer.new }
    ensures range { IsShapeBoxIfAny so_far.new }
{
    if is_token(b"END", token) {
        return Ok(false);
    }
    if is_token(b"RECT", token) {
        let shape = rectangle_box(lexer)?;
        widen_box(so_far, &shape);
    } else if is_token(b"POLYGON", token) {
        let shape = polygon_box(lexer)?;
        widen_box(so_far, &shape);
    } else if !is_token(b";", token) {
        skip_to_semicolon(lexer)?;
    }
    Ok(true)
}

/// Reads the statements of a port, and widens the box to its shapes.
#[derive(Drop)]
pub(crate) struct PortShapes;

impl Block for PortShapes {
    type State = Option<Rect>;

    ghost statement = { λ _. grammar.port_shape };

    ghost keeps = { λ _ so_far. IsShapeBoxIfAny so_far };

    #[tactic(auto, unfolding(crate::specs::Shapes::port_shape))]
    fn turn(&self, lexer: &mut Lexer, so_far: &mut Option<Rect>) -> Result<bool, ReadError> {
        let token = token(lexer)?;
        port_shape_from(lexer, so_far, &token)
    }
}
