//! Regions: fences and guides.

ghost use Rattle.std.specs.Prelude.{◌≡◌, ◌<◌, length, Ok, All, IfOk, IfErr, MatchResult};
ghost use Rattle.lf_lex.specs.Tokens.{lexeme};
ghost use Rattle.lf_lex.specs.Reading.{Reads, ReadsOn, Fails, turn};
ghost use Rattle.lf_lex.specs.declared.fault.ReadError.TheVariants.{Memory};
ghost use Rattle.lf_def.specs.Regions as grammar;
ghost use Rattle.lf_def.specs.Ranges.{IsRect, IsRegion};

use crate::coordinates::{rect, rect_rest};
use crate::section::{Due, Entry, section};
use lf_lex::{
    Block, FaultNumber, Lexer, ReadError, Token, fault_at, is_token, name, read_block, token,
};
use lf_units::{Name, Rect, Sequence};
use std::alloc::Global;

/// The TYPE of a region: what it demands of the components of its groups (LEF/DEF 5.8, DEF
/// REGIONS).
#[derive(Clone, Copy, Debug, PartialEq, Eq)]
pub enum RegionKind {
    /// They are placed in it, and no other components are.
    Fence,
    /// They should be placed in it.
    Guide,
}

/// A region (LEF/DEF 5.8, DEF REGIONS), in database units.
#[derive(Drop)]
pub struct Region {
    pub name: Name,
    /// The first TYPE, or `None` without TYPE.
    pub kind: Option<RegionKind>,
    /// The rectangles in the order of the text, one or more. Each has its lower left corner first,
    /// then its upper right corner. They may overlap.
    pub rects: Sequence<Rect>,
}

/// The parts of a region that were read so far.
#[derive(Drop)]
pub struct RegionParts {
    pub kind: Option<RegionKind>,
    pub rects: Sequence<Rect>,
    pub due: Due,
}

/// Returns the type that a token names. `Err(Unexpected)` if it names no type.
fn kind_of(token: &Token) -> Result<RegionKind, ReadError>
    ensures { MatchResult result (λ k. grammar.kind_named (lexeme token.now) ≡ Ok k)
        (λ e. Fails e (grammar.kind_named (lexeme token.now))) }
{
    if is_token(b"FENCE", token) {
        Ok(RegionKind::Fence)
    } else if is_token(b"GUIDE", token) {
        Ok(RegionKind::Guide)
    } else {
        Err(fault_at(FaultNumber::Unexpected, token.line))
    }
}

/// Reads one more rectangle, after its first parenthesis.
#[tactic(auto, unfolding(crate::specs::Regions::with_rect))]
fn with_rect(lexer: &mut Lexer, parts: &mut RegionParts) -> Result<bool, ReadError>
    requires rects { All IsRect parts.old.rects }
    requires some { 0 < length parts.old.rects }
    ensures read { Reads (turn parts.new) result (grammar.with_rect parts.old) lexer.old lexer.new }
    ensures rects { All IsRect parts.new.rects }
    ensures some { 0 < length parts.new.rects }
{
    let rect = rect_rest(lexer)?;
    parts.rects.push(rect)?;
    Ok(true)
}

/// Reads a TYPE clause, after its word.
#[tactic(auto, unfolding(crate::specs::Regions::with_kind))]
fn with_kind(lexer: &mut Lexer, parts: &mut RegionParts) -> Result<bool, ReadError>
    requires rects { All IsRect parts.old.rects }
    requires some { 0 < length parts.old.rects }
    ensures read { Reads (turn parts.new) result (grammar.with_kind parts.old) lexer.old lexer.new }
    ensures rects { All IsRect parts.new.rects }
    ensures some { 0 < length parts.new.rects }
{
    let token = token(lexer)?;
    let kind = kind_of(&token)?;
    parts.kind = parts.kind.or(Some(kind));
    parts.due = Due::Separator;
    Ok(true)
}

/// Reads the part of a region that begins with this token, which is no separator. Returns whether
/// more parts follow.
#[tactic(auto, unfolding(crate::specs::Regions::region_part))]
fn region_part(lexer: &mut Lexer, parts: &mut RegionParts, token: &Token) -> Result<bool, ReadError>
    requires rects { All IsRect parts.old.rects }
    requires some { 0 < length parts.old.rects }
    ensures read { ReadsOn (turn parts.new) result
        (grammar.region_part parts.old.due parts.old (lexeme token.now)) lexer.old lexer.new }
    ensures rects { All IsRect parts.new.rects }
    ensures some { 0 < length parts.new.rects }
{
    match parts.due {
        Due::Item => {
            if is_token(b"(", token) {
                with_rect(lexer, parts)
            } else {
                Err(fault_at(FaultNumber::Unexpected, token.line))
            }
        }
        Due::Keyword => {
            if is_token(b"TYPE", token) {
                with_kind(lexer, parts)
            } else {
                parts.due = Due::Rest;
                Ok(true)
            }
        }
        Due::Rest => Ok(true),
        Due::Separator => Err(fault_at(FaultNumber::Unexpected, token.line)),
    }
}

/// Reads the part of a region that begins with this token. Returns whether more parts follow.
#[tactic(auto, unfolding(crate::specs::Regions::region_from))]
fn region_from(lexer: &mut Lexer, parts: &mut RegionParts, token: &Token) -> Result<bool, ReadError>
    requires rects { All IsRect parts.old.rects }
    requires some { 0 < length parts.old.rects }
    ensures read { ReadsOn (turn parts.new) result
        (grammar.region_from parts.old (lexeme token.now)) lexer.old lexer.new }
    ensures rects { All IsRect parts.new.rects }
    ensures some { 0 < length parts.new.rects }
{
    if is_token(b";", token) {
        Ok(false)
    } else if is_token(b"+", token) {
        parts.due = Due::Keyword;
        Ok(true)
    } else {
        region_part(lexer, parts, token)
    }
}

/// Reads the tokens of a region after its first rectangle, up to its `;`.
#[derive(Drop)]
struct RegionTokens;

impl Block for RegionTokens {
    type State = RegionParts;

    ghost statement = { λ _. grammar.region_token };

    ghost keeps = { λ _ parts. All IsRect parts.rects × (0 < length parts.rects) };

    #[tactic(auto, unfolding(crate::specs::Regions::region_token))]
    fn turn(&self, lexer: &mut Lexer, parts: &mut RegionParts) -> Result<bool, ReadError> {
        let token = token(lexer)?;
        region_from(lexer, parts, &token)
    }
}

/// Returns the state of a region after its first rectangle. `Err` if an allocation fails.
fn first_rect(alloc: Global, rect: Rect) -> Result<RegionParts, ReadError>
    requires rect { IsRect rect }
    ensures parts { IfOk result (λ parts. parts ≡ grammar.first_rect rect) }
    ensures memory { IfErr result (λ e. e ≡ Memory) }
    ensures rects { IfOk result (λ parts. All IsRect parts.rects) }
    ensures some { IfOk result (λ parts. 0 < length parts.rects) }
{
    let mut rects = Sequence::new(alloc);
    rects.push(rect)?;
    Ok(RegionParts {
        kind: None,
        rects,
        due: Due::Item,
    })
}

impl Entry for Region {
    ghost entry = { grammar.region };

    ghost keeps = { IsRegion };

    #[tactic(auto, unfolding(crate::specs::Regions::region))]
    fn read(alloc: Global, lexer: &mut Lexer) -> Result<Region, ReadError> {
        let name = name(lexer)?;
        let rect = rect(lexer)?;
        let mut parts = first_rect(alloc, rect)?;
        read_block(lexer, &RegionTokens, &mut parts)?;
        Ok(Region {
            name: Name::from_slice(alloc, name.text)?,
            kind: parts.kind,
            rects: parts.rects,
        })
    }
}

/// Reads a REGIONS section, after its keyword, and appends its regions.
pub(crate) fn regions(
    alloc: Global,
    lexer: &mut Lexer,
    regions: &mut Sequence<Region>,
) -> Result<(), ReadError>
    requires range { All IsRegion regions.old }
    ensures read { Reads (λ _. regions.new) result (grammar.regions regions.old) lexer.old lexer.new }
    ensures range { All IsRegion regions.new }
{
    section(alloc, lexer, b"REGIONS", regions)
}
