//! Lists of lines.

ghost use Rattle.std.specs.Prelude.{◌≡◌, List, ℕ};
ghost use Rattle.lf_state_text.specs.Designs.{named_team_of};
ghost use Rattle.lf_state_text.specs.Pieces.{IsEnd, rest};
ghost use Rattle.lf_state_text.specs.Reading.{ReadsState, read_cell, each_at, entry_at, many_at, move_at, slot_at};

use crate::cursor::Cursor;
use crate::fault::{ReadError, StateFaultNumber};
use crate::read_words::{below_at, expect_bytes, number_at, read_place_or_none, slot_at};
use crate::saved_rows::SavedCell;
use crate::schema::{DesignSchema, name_of_cell};
use crate::word_end::WordEnd;
use lf_undo::{Move, Moves};
use std::alloc::Global;

/// Reads the line of the cell of that name.
#[tactic(auto, unfolding(crate::specs::Reading::read_cell))]
fn cell_at(name: &[u8], cursor: &mut Cursor) -> Result<SavedCell, ReadError>
    ensures read { ReadsState (λ cell left. (cell, left)) result (read_cell name.now (rest cursor.old))
        (rest cursor.new) }
    ensures ends { (text : List ℕ) → IsEnd text cursor.old → IsEnd text cursor.new }
{
    expect_bytes(StateFaultNumber::OtherDesign, name, cursor)?;
    expect_bytes(StateFaultNumber::OtherDesign, b" ", cursor)?;
    let working = read_place_or_none(WordEnd::Space, cursor)?;
    let committed = read_place_or_none(WordEnd::LineFeed, cursor)?;
    Ok(SavedCell { working, committed })
}

/// Reads the line of a move of one of `cells` cells.
#[tactic(auto, unfolding(crate::specs::Reading::move_at))]
fn move_at(cells: usize, cursor: &mut Cursor) -> Result<Move, ReadError>
    ensures read { ReadsState (λ made left. (made, left)) result (move_at cells (rest cursor.old)) (rest cursor.new) }
    ensures ends { (text : List ℕ) → IsEnd text cursor.old → IsEnd text cursor.new }
{
    let own = below_at(cells, WordEnd::Space, cursor)?;
    let old = read_place_or_none(WordEnd::LineFeed, cursor)?;
    Ok(Move { own, place: old })
}

/// Reads `count` session slots of a team with this revision.
pub(crate) fn read_slots(
    alloc: Global,
    revision: u32,
    count: u32,
    cursor: &mut Cursor,
) -> Result<Vec<Option<u32>>, ReadError>
    ensures read { ReadsState (λ slots left. (slots.items, left)) result
        (many_at (slot_at revision) count (rest cursor.old)) (rest cursor.new) }
    ensures ends { (text : List ℕ) → IsEnd text cursor.old → IsEnd text cursor.new }
{
    let mut items = Vec::with_capacity(alloc, count as usize)?;
    for _ in 0..count {
        let item = slot_at(revision, cursor)?;
        items.push(item)?;
    }
    Ok(items)
}

/// Reads the cells of a team.
pub(crate) fn read_cells<D: DesignSchema>(
    alloc: Global,
    design: &D,
    team: usize,
    cursor: &mut Cursor,
) -> Result<Vec<SavedCell>, ReadError>
    ensures read { ReadsState (λ cells left. (cells.items, left)) result
        (each_at read_cell (named_team_of (D.named design.now) team).cells (rest cursor.old)) (rest cursor.new) }
    ensures ends { (text : List ℕ) → IsEnd text cursor.old → IsEnd text cursor.new }
{
    let count = design.cell_count(team);
    let mut items = Vec::with_capacity(alloc, count)?;
    for own in 0..count {
        let item = cell_at(name_of_cell(design, team, own), cursor)?;
        items.push(item)?;
    }
    Ok(items)
}

/// Reads `count` moves of `cells` cells. A text may have any number of them. Initially, room is
/// reserved for at most one move of each cell.
fn read_moves(
    alloc: Global,
    cells: usize,
    count: u32,
    cursor: &mut Cursor,
) -> Result<Moves, ReadError>
    ensures read { ReadsState (λ moves left. (moves, left)) result (many_at (move_at cells) count (rest cursor.old))
        (rest cursor.new) }
    ensures ends { (text : List ℕ) → IsEnd text cursor.old → IsEnd text cursor.new }
{
    let mut items = Moves::with_capacity(alloc, cells.min(count as usize))?;
    for _ in 0..count {
        let item = move_at(cells, cursor)?;
        items.push(item)?;
    }
    Ok(items)
}

/// Reads an undo entry of a team of `cells` cells: its line, and its moves.
#[tactic(auto, unfolding(crate::specs::Reading::entry_at))]
fn entry_at(alloc: Global, cells: usize, cursor: &mut Cursor) -> Result<Moves, ReadError>
    ensures read { ReadsState (λ moves left. (moves, left)) result (entry_at cells (rest cursor.old))
        (rest cursor.new) }
    ensures ends { (text : List ℕ) → IsEnd text cursor.old → IsEnd text cursor.new }
{
    expect_bytes(StateFaultNumber::Unexpected, b"undo ", cursor)?;
    let count = number_at(WordEnd::LineFeed, cursor)?;
    read_moves(alloc, cells, count, cursor)
}

/// Reads `count` undo entries of a team of `cells` cells.
pub(crate) fn read_entries(
    alloc: Global,
    cells: usize,
    count: u32,
    cursor: &mut Cursor,
) -> Result<Vec<Moves>, ReadError>
    ensures read { ReadsState (λ entries left. (entries.items, left)) result
        (many_at (entry_at cells) count (rest cursor.old)) (rest cursor.new) }
    ensures ends { (text : List ℕ) → IsEnd text cursor.old → IsEnd text cursor.new }
{
    let mut items = Vec::new(alloc);
    for _ in 0..count {
        let item = entry_at(alloc, cells, cursor)?;
        items.push(item)?;
    }
    Ok(items)
}
