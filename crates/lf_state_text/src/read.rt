//! A state text is read.

ghost use Rattle.std.specs.Prelude.{◌≡◌, ◌<◌, IfErr, IfOk, List, Ok, Result, ℕ};
ghost use Rattle.lf_state_text.specs.declared.fault.StateFault.{StateFault};
ghost use Rattle.lf_state_text.specs.Designs.{named_team_of};
ghost use Rattle.lf_state_text.specs.Pieces.{IsEnd, text_of_chunks, rest};
ghost use Rattle.lf_state_text.specs.Refused.{ReturnsIn, HoldsEnd};
ghost use Rattle.lf_state_text.specs.Saved.{AreOf, AreSaved, SavedTeam, state_text, team_view, team_views};
ghost use Rattle.lf_state_text.specs.Reading.{TextFault, ReturnsAt, ReadsState, all_at, each_at, named_at, numbers_at, opening_at, rows_at, saved_state_of, team_at, title_at, with_fault_line};
ghost use Rattle.lf_state_text.specs.Writing.{numbers_view};

use crate::cursor::Cursor;
use crate::cursor_steps::{begins, is_done, skip};
use crate::fault::{ReadError, StateError, StateFaultNumber};
use crate::read_lists::{read_cells, read_entries, read_slots};
use crate::read_words::{below_at, count_at, expect_bytes};
use crate::refusal::{ChunkError, refusal_at};
use crate::saved_rows::SavedTeamRow;
use crate::schema::{DesignSchema, name_of_team};
use crate::word_end::WordEnd;
use lf_floorplan::Limits;
use lf_rules::Padding;
use std::alloc::Global;
use std::collections::VecDeque;

/// The numbers of a team's first line that the design does not determine.
#[derive(Clone, Copy)]
struct Numbers {
    revision: u32,
    padding: Padding,
    entries: u32,
}

/// Reads the keyword of a team's first line, and the team's name.
#[tactic(auto, unfolding(crate::specs::Reading::named_at))]
fn named_at(name: &[u8], cursor: &mut Cursor) -> Result<(), ReadError>
    ensures read { ReadsState (λ _ left. left) result (named_at name.now (rest cursor.old)) (rest cursor.new) }
    ensures ends { (text : List ℕ) → IsEnd text cursor.old → IsEnd text cursor.new }
{
    expect_bytes(StateFaultNumber::Unexpected, b"team ", cursor)?;
    expect_bytes(StateFaultNumber::OtherDesign, name, cursor)?;
    expect_bytes(StateFaultNumber::OtherDesign, b" ", cursor)
}

/// Returns the padding of `sites` core sites, at most 16.
fn padding_of(sites: u32) -> Padding
    requires { sites < 17 }
    ensures { result.sites ≡ sites }
{
    match Padding::new(sites) {
        Some(padding) => padding,
        None => unreachable!(),
    }
}

/// Reads the numbers of a team's first line. They are within the limits, and the number of cells is
/// `cells`.
#[tactic(auto, unfolding(crate::specs::Reading::numbers_at))]
fn numbers_at(limits: &Limits, cells: usize, cursor: &mut Cursor) -> Result<Numbers, ReadError>
    ensures read { ReadsState (λ numbers left. (numbers_view numbers, left)) result
        (numbers_at limits.now cells (rest cursor.old)) (rest cursor.new) }
    ensures ends { (text : List ℕ) → IsEnd text cursor.old → IsEnd text cursor.new }
{
    let revision = below_at(limits.revisions as usize + 1, WordEnd::Space, cursor)?;
    let sites = below_at(17, WordEnd::Space, cursor)?;
    count_at(limits.sessions as usize, WordEnd::Space, cursor)?;
    count_at(cells, WordEnd::Space, cursor)?;
    let entries = below_at(limits.undo as usize + 1, WordEnd::LineFeed, cursor)?;
    Ok(Numbers {
        revision,
        padding: padding_of(sites),
        entries,
    })
}

/// Reads the lines of a team after its first.
#[tactic(auto, unfolding(crate::specs::Reading::rows_at))]
fn rows_at<D: DesignSchema>(
    alloc: Global,
    design: &D,
    team: usize,
    numbers: Numbers,
    cursor: &mut Cursor,
) -> Result<SavedTeamRow, ReadError>
    ensures read { ReadsState (λ row left. (team_view row, left)) result
        (rows_at (D.named design.now).limits (named_team_of (D.named design.now) team) (numbers_view numbers)
        (rest cursor.old)) (rest cursor.new) }
    ensures ends { (text : List ℕ) → IsEnd text cursor.old → IsEnd text cursor.new }
{
    let cells = design.cell_count(team);
    let slots = read_slots(alloc, numbers.revision, design.limits().sessions, cursor)?;
    let places = read_cells(alloc, design, team, cursor)?;
    let entries = read_entries(alloc, cells, numbers.entries, cursor)?;
    Ok(SavedTeamRow {
        revision: numbers.revision,
        padding: numbers.padding,
        slots,
        cells: places,
        entries,
    })
}

/// Reads the lines of a team.
#[tactic(auto, unfolding(crate::specs::Reading::team_at))]
fn read_team<D: DesignSchema>(
    alloc: Global,
    design: &D,
    team: usize,
    cursor: &mut Cursor,
) -> Result<SavedTeamRow, ReadError>
    ensures read { ReadsState (λ row left. (team_view row, left)) result
        (team_at (D.named design.now).limits (named_team_of (D.named design.now) team) (rest cursor.old))
        (rest cursor.new) }
    ensures ends { (text : List ℕ) → IsEnd text cursor.old → IsEnd text cursor.new }
{
    named_at(name_of_team(design, team), cursor)?;
    let numbers = numbers_at(&design.limits(), design.cell_count(team), cursor)?;
    rows_at(alloc, design, team, numbers, cursor)
}

/// Reads the lines of all teams.
fn read_teams<D: DesignSchema>(
    alloc: Global,
    design: &D,
    cursor: &mut Cursor,
) -> Result<Vec<SavedTeamRow>, ReadError>
    ensures read { ReadsState (λ rows left. (team_views rows.items, left)) result
        (each_at (team_at (D.named design.now).limits) (D.named design.now).teams (rest cursor.old)) (rest cursor.new) }
    ensures ends { (text : List ℕ) → IsEnd text cursor.old → IsEnd text cursor.new }
{
    let mut items = Vec::new(alloc);
    for team in 0..design.team_count() {
        let item = read_team(alloc, design, team, cursor)?;
        items.push(item)?;
    }
    Ok(items)
}

/// Reads the title with the version that is supported.
#[tactic(auto, unfolding(crate::specs::Words::bytes_after))]
fn read_title(cursor: &mut Cursor) -> Result<(), ReadError>
    ensures read { ReadsState (λ _ left. left) result (title_at (rest cursor.old)) (rest cursor.new) }
    ensures ends { (text : List ℕ) → IsEnd text cursor.old → IsEnd text cursor.new }
{
    let title = b"lefence-state 1\n".as_slice();
    if begins(title, cursor)? {
        skip(title.len(), cursor);
        return Ok(());
    }
    Err(ReadError::Fault(StateFaultNumber::OtherVersion))
}

/// Reads the title and the number of teams.
#[tactic(auto, unfolding(crate::specs::Reading::opening_at))]
fn read_opening<D: DesignSchema>(design: &D, cursor: &mut Cursor) -> Result<(), ReadError>
    ensures read { ReadsState (λ _ left. left) result (opening_at (D.named design.now) (rest cursor.old))
        (rest cursor.new) }
    ensures ends { (text : List ℕ) → IsEnd text cursor.old → IsEnd text cursor.new }
{
    read_title(cursor)?;
    expect_bytes(StateFaultNumber::Unexpected, b"teams ", cursor)?;
    count_at(design.team_count(), WordEnd::LineFeed, cursor)
}

/// Reads the whole text.
#[tactic(auto, unfolding(crate::specs::Reading::all_at))]
fn read_all<D: DesignSchema>(
    alloc: Global,
    design: &D,
    cursor: &mut Cursor,
) -> Result<Vec<SavedTeamRow>, ReadError>
    ensures read { ReadsState (λ rows _. team_views rows.items) result (all_at (D.named design.now) (rest cursor.old))
        (rest cursor.new) }
    ensures ends { (text : List ℕ) → IsEnd text cursor.old → IsEnd text cursor.new }
{
    read_opening(design, cursor)?;
    let teams = read_teams(alloc, design, cursor)?;
    if !is_done(cursor)? {
        return Err(ReadError::Fault(StateFaultNumber::Unexpected));
    }
    Ok(teams)
}

/// Makes a cursor at the start of the text with these chunks.
fn cursor_at(alloc: Global, pieces: VecDeque<Vec<u8>>) -> Cursor
    ensures rest { rest result ≡ text_of_chunks pieces.items }
    ensures end { IsEnd (text_of_chunks pieces.items) result }
{
    Cursor {
        alloc,
        lines: 0,
        piece: Vec::new(alloc),
        at: 0,
        later: pieces,
    }
}

/// Returns the result of reading; a fault gets the end of the text.
fn with_text_end(
    read: Result<Vec<SavedTeamRow>, ReadError>,
    cursor: Cursor,
) -> Result<Vec<SavedTeamRow>, ChunkError>
    ensures read { (text : List ℕ) (found : Result (List SavedTeam) TextFault) → IsEnd text cursor
        → ReadsState (λ rows _. team_views rows.items) read found (rest cursor)
        → ReturnsIn (λ rows. team_views rows.items) result (with_fault_line text found) }
    ensures end { (text : List ℕ) → IsEnd text cursor → IfErr result (HoldsEnd text) }
{
    match read {
        Ok(rows) => Ok(rows),
        Err(ReadError::Memory) => Err(ChunkError::Memory),
        Err(ReadError::Fault(number)) => Err(refusal_at(number, cursor)),
    }
}

/// Reads a state text of the design's teams given in chunks. Each chunk is freed as soon as it has
/// been read.
///
/// `Err` with the first fault and its line if the text is not a state of the design, or if an
/// allocation fails.
pub fn read_chunks<D: DesignSchema>(
    alloc: Global,
    design: &D,
    pieces: VecDeque<Vec<u8>>,
) -> Result<Vec<SavedTeamRow>, ChunkError>
    // The teams, or the fault.
    ensures exact { ReturnsIn (λ rows. team_views rows.items) result
        (saved_state_of (D.named design.now) (text_of_chunks pieces.items)) }
    // The result is within the design's limits.
    ensures fits { IfOk result (λ rows. AreOf (D.named design.now) (team_views rows.items)) }
    // The end of a refused text.
    ensures end { IfErr result (λ error. HoldsEnd (text_of_chunks pieces.items) error) }
{
    let mut cursor = cursor_at(alloc, pieces);
    let read = read_all(alloc, design, &mut cursor);
    with_text_end(read, cursor)
}

/// Returns the text as one chunk.
///
/// `Err` if an allocation fails.
fn piece_of(alloc: Global, text: &[u8]) -> Result<VecDeque<Vec<u8>>, ReadError>
    ensures { IfOk result (λ pieces. text_of_chunks pieces.items ≡ text.now) }
{
    let mut pieces = VecDeque::new(alloc);
    pieces.push_back(Vec::from_slice(alloc, text)?)?;
    Ok(pieces)
}

/// Returns the same result without the end of a refused text.
fn without_end(read: Result<Vec<SavedTeamRow>, ChunkError>) -> Result<Vec<SavedTeamRow>, StateError>
    ensures { (found : Result (List SavedTeam) StateFault) → ReturnsIn (λ rows. team_views rows.items) read found
        → ReturnsAt (λ rows. team_views rows.items) result found }
{
    match read {
        Ok(rows) => Ok(rows),
        Err(ChunkError::Memory) => Err(StateError::Memory),
        Err(ChunkError::Refused(refused)) => Err(StateError::Fault(refused.fault)),
    }
}

/// Reads a state text of the design's teams.
///
/// `Err` with the first fault and its line if the text is not a state of the design, or if an
/// allocation fails.
pub fn read_state<D: DesignSchema>(
    alloc: Global,
    design: &D,
    text: &[u8],
) -> Result<Vec<SavedTeamRow>, StateError>
    // The teams, or the fault.
    ensures exact { ReturnsAt (λ rows. team_views rows.items) result (saved_state_of (D.named design.now) text.now) }
    // The result is within the design's limits.
    ensures fits { IfOk result (λ rows. AreOf (D.named design.now) (team_views rows.items)) }
    // A written text is read back, unless memory runs out.
    ensures again { (teams : List SavedTeam) → AreSaved (D.named design.now) teams
        → text.now ≡ state_text (D.named design.now) teams
        → ReturnsAt (λ rows. team_views rows.items) result (Ok teams) }
{
    let Ok(pieces) = piece_of(alloc, text) else {
        return Err(StateError::Memory);
    };
    let read = read_chunks(alloc, design, pieces);
    without_end(read)
}
