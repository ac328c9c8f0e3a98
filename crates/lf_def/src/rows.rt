//! Rows of placement sites.

ghost use Rattle.std.specs.Prelude.{◌≡◌, IfOk, IfSome, OnOk};
ghost use Rattle.lf_lex.specs.Tokens.{lexeme};
ghost use Rattle.lf_lex.specs.Reading.{Reads, ReadsOn};
ghost use Rattle.lf_def.specs.Rows as grammar;
ghost use Rattle.lf_def.specs.Ranges.{HasCoordinates, IsCount, IsRow};

use crate::coordinates::{count, dbu, orient_of};
use lf_lex::{
    FaultNumber, Lexer, ReadError, Token, fault_at, is_token, keyword, name, skip_to_semicolon,
    token,
};
use lf_orient::Orient;
use lf_units::{Name, Point};
use std::alloc::Global;

/// A row of placement sites (LEF/DEF 5.8, DEF ROW), in database units.
#[derive(Drop)]
pub struct RowStatement {
    pub name: Name,
    /// The name of its site.
    pub site: Name,
    /// The lower left corner of its first site.
    pub x: i64,
    pub y: i64,
    pub orient: Orient,
    /// The number of sites across, numX. It is 1 without DO.
    pub sites_x: u32,
    /// The number of sites up, numY. It is 1 without DO.
    pub sites_y: u32,
    /// The steps across and up from site to site. `None` without STEP.
    pub step: Option<Point>,
}

/// The numbers of sites of a row across and up, and the steps between them.
#[derive(Clone, Copy, Debug, PartialEq, Eq)]
pub struct Sites {
    pub x: u32,
    pub y: u32,
    pub step: Option<Point>,
}

/// Reads the end of a row, after its first token.
#[tactic(auto, unfolding(crate::specs::Rows::row_end))]
fn row_end(lexer: &mut Lexer, token: &Token) -> Result<(), ReadError>
    ensures { ReadsOn (λ x. x) result (grammar.row_end (lexeme token.now)) lexer.old lexer.new }
{
    if is_token(b";", token) {
        Ok(())
    } else if is_token(b"+", token) {
        skip_to_semicolon(lexer)
    } else {
        Err(fault_at(FaultNumber::Unexpected, token.line))
    }
}

/// Reads `[STEP sx sy]` and the end of a row, after its first token.
#[tactic(auto, unfolding(crate::specs::Rows::step))]
fn step(lexer: &mut Lexer, first: &Token) -> Result<Option<Point>, ReadError>
    ensures read { ReadsOn (λ s. s) result (grammar.step (lexeme first.now)) lexer.old lexer.new }
    ensures range { IfOk result (λ s. IfSome s (λ p. HasCoordinates p)) }
{
    if is_token(b"STEP", first) {
        let x = dbu(lexer)?;
        let y = dbu(lexer)?;
        let token = token(lexer)?;
        row_end(lexer, &token)?;
        Ok(Some(Point { x, y }))
    } else {
        row_end(lexer, first)?;
        Ok(None)
    }
}

/// Reads `numX BY numY [STEP sx sy]` and the end of a row, after DO.
#[tactic(auto, unfolding(crate::specs::Rows::sites))]
fn read_sites(lexer: &mut Lexer) -> Result<Sites, ReadError>
    ensures read { Reads (λ s. s) result grammar.sites lexer.old lexer.new }
    ensures x { IfOk result (λ s. IsCount 2147483647 s.x) }
    ensures y { IfOk result (λ s. IsCount 2147483647 s.y) }
    ensures step { IfOk result (λ s. IfSome s.step (λ p. HasCoordinates p)) }
{
    let x = count(lexer, 2_147_483_647)?;
    keyword(lexer, b"BY")?;
    let y = count(lexer, 2_147_483_647)?;
    let token = token(lexer)?;
    let step = step(lexer, &token)?;
    Ok(Sites { x, y, step })
}

/// Reads `[DO numX BY numY [STEP sx sy]]` and the end of a row, after its first token.
#[tactic(auto, unfolding(crate::specs::Rows::sites_from))]
fn sites_from(lexer: &mut Lexer, token: &Token) -> Result<Sites, ReadError>
    ensures read { ReadsOn (λ s. s) result (grammar.sites_from (lexeme token.now)) lexer.old lexer.new }
    ensures x { IfOk result (λ s. IsCount 2147483647 s.x) }
    ensures y { IfOk result (λ s. IsCount 2147483647 s.y) }
    ensures step { IfOk result (λ s. IfSome s.step (λ p. HasCoordinates p)) }
{
    if is_token(b"DO", token) {
        read_sites(lexer)
    } else {
        row_end(lexer, token)?;
        Ok(Sites {
            x: 1,
            y: 1,
            step: None,
        })
    }
}

/// Reads a row, after its keyword.
#[tactic(auto, unfolding(crate::specs::Rows::row))]
pub(crate) fn read_row(alloc: Global, lexer: &mut Lexer) -> Result<RowStatement, ReadError>
    ensures read { Reads (λ r. r) result grammar.row lexer.old lexer.new }
    ensures range { IfOk result (λ r. IsRow r) }
{
    let row = name(lexer)?;
    let site = name(lexer)?;
    let x = dbu(lexer)?;
    let y = dbu(lexer)?;
    let word = token(lexer)?;
    let orient = orient_of(&word)?;
    let first = token(lexer)?;
    let sites = sites_from(lexer, &first)?;
    Ok(RowStatement {
        name: Name::from_slice(alloc, row.text)?,
        site: Name::from_slice(alloc, site.text)?,
        x,
        y,
        orient,
        sites_x: sites.x,
        sites_y: sites.y,
        step: sites.step,
    })
}
