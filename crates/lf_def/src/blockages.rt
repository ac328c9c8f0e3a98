//! Placement blockages.

ghost use Rattle.std.specs.Prelude.{◌≡◌, All, IfOk, IfSome};
ghost use Rattle.lf_lex.specs.Tokens.{lexeme};
ghost use Rattle.lf_lex.specs.Reading.{Reads, ReadsOn, turn};
ghost use Rattle.lf_def.specs.Blockages as grammar;
ghost use Rattle.lf_def.specs.Ranges.{IsRect, IsBlockage};

use crate::coordinates::rect;
use crate::section::Due;
use lf_lex::{
    Block, FaultNumber, Lexer, ReadError, Token, end_name, fault_at, is_token, read_block,
    skip_to_semicolon, token,
};
use lf_units::{Rect, Sequence};
use std::alloc::Global;

/// A placement blockage (LEF/DEF 5.8, DEF BLOCKAGES), in database units.
#[derive(Drop)]
pub struct Blockage {
    /// True if it has a SOFT clause.
    pub soft: bool,
    /// True if it has a PARTIAL clause.
    pub partial: bool,
    /// The rectangles in the order of the text. Each has its lower left corner first, then its
    /// upper right corner.
    pub rects: Sequence<Rect>,
}

/// The parts of a blockage that were read so far.
#[derive(Drop)]
pub struct BlockageParts {
    pub soft: bool,
    pub partial: bool,
    pub rects: Sequence<Rect>,
    pub due: Due,
}

/// Reads one more rectangle, after RECT.
#[tactic(auto, unfolding(crate::specs::Blockages::with_rect))]
fn with_rect(lexer: &mut Lexer, parts: &mut BlockageParts) -> Result<bool, ReadError>
    requires rects { All IsRect parts.old.rects }
    ensures read { Reads (turn parts.new) result (grammar.with_rect parts.old) lexer.old lexer.new }
    ensures rects { All IsRect parts.new.rects }
{
    let rect = rect(lexer)?;
    parts.rects.push(rect)?;
    parts.due = Due::Item;
    Ok(true)
}

/// Records the word of a clause, if it is SOFT or PARTIAL.
fn note(parts: &mut BlockageParts, word: &Token)
    requires rects { All IsRect parts.old.rects }
    ensures parts { parts.new ≡ grammar.noted parts.old (lexeme word.now) }
    ensures rects { All IsRect parts.new.rects }
{
    parts.soft = parts.soft || is_token(b"SOFT", word);
    parts.partial = parts.partial || is_token(b"PARTIAL", word);
    parts.due = Due::Rest;
}

/// Reads the part of a blockage that begins with this token, which is no separator. Returns whether
/// more parts follow.
#[tactic(auto, unfolding(crate::specs::Blockages::blockage_part))]
fn blockage_part(
    lexer: &mut Lexer,
    parts: &mut BlockageParts,
    token: &Token,
) -> Result<bool, ReadError>
    requires rects { All IsRect parts.old.rects }
    ensures read { ReadsOn (turn parts.new) result
        (grammar.blockage_part parts.old.due parts.old (lexeme token.now)) lexer.old lexer.new }
    ensures rects { All IsRect parts.new.rects }
{
    match parts.due {
        Due::Keyword => {
            note(parts, token);
            Ok(true)
        }
        Due::Rest => {
            if is_token(b"RECT", token) {
                with_rect(lexer, parts)
            } else {
                Ok(true)
            }
        }
        Due::Item | Due::Separator => {
            if is_token(b"RECT", token) {
                with_rect(lexer, parts)
            } else {
                Err(fault_at(FaultNumber::Unexpected, token.line))
            }
        }
    }
}

/// Reads the part of a blockage that begins with this token. Returns whether more parts follow.
#[tactic(auto, unfolding(crate::specs::Blockages::blockage_from))]
fn blockage_from(
    lexer: &mut Lexer,
    parts: &mut BlockageParts,
    token: &Token,
) -> Result<bool, ReadError>
    requires rects { All IsRect parts.old.rects }
    ensures read { ReadsOn (turn parts.new) result
        (grammar.blockage_from parts.old (lexeme token.now)) lexer.old lexer.new }
    ensures rects { All IsRect parts.new.rects }
{
    if is_token(b";", token) {
        Ok(false)
    } else if is_token(b"+", token) {
        parts.due = Due::Keyword;
        Ok(true)
    } else {
        blockage_part(lexer, parts, token)
    }
}

/// Reads the tokens of a placement blockage after PLACEMENT, up to its `;`.
#[derive(Drop)]
struct BlockageTokens;

impl Block for BlockageTokens {
    type State = BlockageParts;

    ghost statement = { λ _. grammar.blockage_token };

    ghost keeps = { λ _ parts. All IsRect parts.rects };

    #[tactic(auto, unfolding(crate::specs::Blockages::blockage_token))]
    fn turn(&self, lexer: &mut Lexer, parts: &mut BlockageParts) -> Result<bool, ReadError> {
        let token = token(lexer)?;
        blockage_from(lexer, parts, &token)
    }
}

/// Returns the state of a placement blockage after PLACEMENT.
fn no_blockage(alloc: Global) -> BlockageParts
    ensures parts { result ≡ grammar.no_blockage }
    ensures rects { All IsRect result.rects }
{
    BlockageParts {
        soft: false,
        partial: false,
        rects: Sequence::new(alloc),
        due: Due::Item,
    }
}

/// Reads a blockage, after its minus. Returns `None` if it blocks a layer.
#[tactic(auto, unfolding(crate::specs::Blockages::blockage))]
fn read_blockage(alloc: Global, lexer: &mut Lexer) -> Result<Option<Blockage>, ReadError>
    ensures read { Reads (λ b. b) result grammar.blockage lexer.old lexer.new }
    ensures range { IfOk result (λ b. IfSome b (λ x. IsBlockage x)) }
{
    let token = token(lexer)?;
    if is_token(b"LAYER", &token) {
        skip_to_semicolon(lexer)?;
        return Ok(None);
    }
    if !is_token(b"PLACEMENT", &token) {
        return Err(fault_at(FaultNumber::Unexpected, token.line));
    }
    let mut parts = no_blockage(alloc);
    read_block(lexer, &BlockageTokens, &mut parts)?;
    Ok(Some(Blockage {
        soft: parts.soft,
        partial: parts.partial,
        rects: parts.rects,
    }))
}

/// Reads the entries of a BLOCKAGES section, up to its END.
#[derive(Drop)]
struct BlockageEntries {
    alloc: Global,
}

impl Block for BlockageEntries {
    type State = Sequence<Blockage>;

    ghost statement = { λ _. grammar.blockage_or_end };

    ghost keeps = { λ _ blockages. All IsBlockage blockages };

    #[tactic(auto, unfolding(crate::specs::Blockages::blockage_or_end))]
    fn turn(
        &self,
        lexer: &mut Lexer,
        blockages: &mut Sequence<Blockage>,
    ) -> Result<bool, ReadError> {
        let token = token(lexer)?;
        if is_token(b"-", &token) {
            if let Some(blockage) = read_blockage(self.alloc, lexer)? {
                blockages.push(blockage)?;
            }
            return Ok(true);
        }
        if is_token(b"END", &token) {
            end_name(lexer, b"BLOCKAGES")?;
            return Ok(false);
        }
        Err(fault_at(FaultNumber::Unexpected, token.line))
    }
}

/// Reads a BLOCKAGES section, after its keyword, and appends its placement blockages.
#[tactic(auto, unfolding(crate::specs::Blockages::blockages))]
pub(crate) fn blockages(
    alloc: Global,
    lexer: &mut Lexer,
    blockages: &mut Sequence<Blockage>,
) -> Result<(), ReadError>
    requires range { All IsBlockage blockages.old }
    ensures read { Reads (λ _. blockages.new) result (grammar.blockages blockages.old) lexer.old lexer.new }
    ensures range { All IsBlockage blockages.new }
{
    skip_to_semicolon(lexer)?;
    read_block(lexer, &BlockageEntries { alloc }, blockages)
}
