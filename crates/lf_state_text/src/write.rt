//! A state text is written.

ghost use Rattle.std.specs.Prelude.{◌≡◌, ◌∷◌, ◌≤◌, All, IfSome, Some, count_by, length, map, nat_lt, slice_get};
ghost use Rattle.std.specs.List.{flat_map};
ghost use Rattle.lf_io.specs.Output.{PutsText};
ghost use Rattle.lf_proto.specs.ReplyText.{spaced_line};
ghost use Rattle.lf_state_text.specs.Designs.{named_team_of};
ghost use Rattle.lf_state_text.specs.Saved.{IsSavedInRange, IsSpottedCell, IsSpottedEntry};
ghost use Rattle.lf_state_text.specs.Saved.{cell_line, entry_lines, head_line, lines_by, move_line, moves_within, opening_lines};
ghost use Rattle.lf_state_text.specs.Saved.{slot_line, state_text, saved_at, saved_team_lines};
ghost use Rattle.lf_state_text.specs.Writing.{entry_if, line_of_pair, move_within, spaced_state_word, state_word_text};
ghost use Rattle.lf_state_text.specs.Words.{place_text};

use crate::known_ranges::{cell_known, moves_known};
use crate::saved_rows::SavedCell;
use crate::schema::{DesignSchema, name_of_team};
use crate::team_views::TeamViews;
use itoa::Buffer;
use lf_floorplan::{PackedPlace, Place};
use lf_io::Output;
use lf_orient::orient_word;
use lf_rules::Padding;
use lf_undo::{Move, Moves};

/// A word of a line.
#[derive(Clone, Copy)]
enum Word<'a> {
    Text(&'a [u8]),
    Count(usize),
    Spot(PackedPlace),
    Slot(Option<u32>),
}

/// Writes a place: X,Y,O.
fn put_place<O: Output>(out: &mut O, place: &Place)
    ensures { PutsText O.took out.old out.new (place_text (Some place.now)) }
{
    out.put(Buffer::new().format(place.x).as_bytes());
    out.put(b",");
    out.put(Buffer::new().format(place.y).as_bytes());
    out.put(b",");
    out.put(orient_word(place.orient));
}

/// Writes the word.
fn put_word<O: Output>(out: &mut O, word: &Word<'_>)
    ensures { PutsText O.took out.old out.new (state_word_text word.now) }
{
    match word {
        Word::Text(text) => out.put(text),
        Word::Count(number) => out.put(Buffer::new().format(*number).as_bytes()),
        Word::Spot(spot) => match spot.place() {
            None => out.put(b"-"),
            Some(place) => put_place(out, &place),
        },
        Word::Slot(None) => out.put(b"-"),
        Word::Slot(Some(seen)) => out.put(Buffer::new().format(*seen).as_bytes()),
    }
}

/// Writes the words, each after a space.
fn put_spaced<O: Output>(out: &mut O, words: &[Word<'_>])
    ensures { PutsText O.took out.old out.new (flat_map spaced_state_word words.now) }
{
    for word in words {
        out.put(b" ");
        put_word(out, word);
    }
}

/// Writes a line of words, given its first word and the others.
fn put_line<O: Output>(out: &mut O, first: &Word<'_>, words: &[Word<'_>])
    ensures { PutsText O.took out.old out.new
        (spaced_line (state_word_text first.now ∷ map state_word_text words.now)) }
{
    put_word(out, first);
    put_spaced(out, words);
    out.put(b"\n");
}

/// Writes the lines of the slots.
fn put_slots<O: Output>(out: &mut O, slots: &[Option<u32>])
    ensures { PutsText O.took out.old out.new (flat_map slot_line slots.now) }
{
    for slot in slots {
        put_line(out, &Word::Slot(*slot), &[]);
    }
}

/// Writes the line of the cell of that name.
fn put_cell<O: Output>(out: &mut O, name: &[u8], cell: &SavedCell)
    ensures { PutsText O.took out.old out.new (cell_line name.now cell.now) }
{
    put_line(
        out,
        &Word::Text(name),
        &[Word::Spot(cell.working), Word::Spot(cell.committed)],
    );
}

/// Writes the line of the team's cell at that position, if the design and the teams have one.
fn put_cell_at<O: Output, D: DesignSchema, T: TeamViews>(
    out: &mut O,
    design: &D,
    teams: &T,
    team: usize,
    own: usize,
)
    ensures text { PutsText O.took out.old out.new
        (line_of_pair cell_line (named_team_of (D.named design.now) team).cells
        (saved_at (T.saved teams.now) team).cells own) }
    ensures spotted { IfSome (slice_get (saved_at (T.saved teams.now) team).cells own) IsSpottedCell }
{
    if let Some(cell) = teams.cell(team, own) {
        cell_known(&cell);
        if let Some(name) = design.cell_name(team, own) {
            put_cell(out, name, &cell);
        }
    }
}

/// Writes the lines of the team's cells.
fn put_cells<O: Output, D: DesignSchema, T: TeamViews>(
    out: &mut O,
    design: &D,
    teams: &T,
    team: usize,
)
    ensures text { PutsText O.took out.old out.new
        (lines_by cell_line (named_team_of (D.named design.now) team).cells (saved_at (T.saved teams.now) team).cells) }
    ensures spotted { All IsSpottedCell (saved_at (T.saved teams.now) team).cells }
{
    for own in 0..teams.cell_count(team) {
        put_cell_at(out, design, teams, team, own);
    }
}

/// Writes the line of a move.
fn put_move<O: Output>(out: &mut O, made: &Move)
    ensures { PutsText O.took out.old out.new (move_line made.now) }
{
    put_line(
        out,
        &Word::Count(made.own as usize),
        &[Word::Spot(made.place)],
    );
}

/// Writes the line of a move, if it is of one of `cells` cells.
fn put_move_within<O: Output>(out: &mut O, cells: usize, made: &Move)
    ensures { PutsText O.took out.old out.new (move_within cells made.now) }
{
    if (made.own as usize) < cells {
        put_move(out, made);
    }
}

/// Writes the lines of moves of `cells` cells.
fn put_moves<O: Output>(out: &mut O, cells: usize, moves: &[Move])
    ensures { PutsText O.took out.old out.new (flat_map (move_within cells) moves.now) }
{
    for made in moves {
        put_move_within(out, cells, made);
    }
}

/// Returns the number of moves that are of one of `cells` cells.
fn count_within(cells: usize, moves: &[Move]) -> usize
    ensures { result ≡ count_by (λ m. nat_lt m.own cells) moves.now }
{
    moves
        .iter()
        .filter(|made| (made.own as usize) < cells)
        .count()
}

/// Writes the lines of an undo entry of a team of `cells` cells.
fn put_entry<O: Output>(out: &mut O, cells: usize, entry: &Moves)
    ensures text { PutsText O.took out.old out.new (entry_lines (moves_within cells entry.now)) }
    ensures spotted { IsSpottedEntry (moves_within cells entry.now) }
{
    entry.are_few();
    moves_known(entry);
    let moves = entry.as_slice();
    let count = count_within(cells, moves);
    put_line(out, &Word::Text(b"undo"), &[Word::Count(count)]);
    put_moves(out, cells, moves);
}

/// Writes the lines of the team's undo entry that has `newer` newer ones, if there is one.
fn put_entry_at<O: Output, T: TeamViews>(out: &mut O, teams: &T, team: usize, newer: usize)
    ensures text { PutsText O.took out.old out.new
        (entry_if (slice_get (saved_at (T.saved teams.now) team).entries newer)) }
    ensures spotted { IfSome (slice_get (saved_at (T.saved teams.now) team).entries newer) IsSpottedEntry }
{
    let cells = teams.cell_count(team);
    match teams.entry(team, newer) {
        None => {}
        Some(entry) => put_entry(out, cells, entry),
    }
}

/// Writes the lines of the team's undo entries.
fn put_entries<O: Output, T: TeamViews>(out: &mut O, teams: &T, team: usize)
    ensures text { PutsText O.took out.old out.new (flat_map entry_lines (saved_at (T.saved teams.now) team).entries) }
    ensures spotted { All IsSpottedEntry (saved_at (T.saved teams.now) team).entries }
{
    for newer in 0..teams.entry_count(team) {
        put_entry_at(out, teams, team, newer);
    }
}

/// Returns the core sites of a padding, at most 16.
fn sites_of(padding: Padding) -> usize
    ensures is { result ≡ padding.sites }
    ensures most { padding.sites ≤ 16 }
{
    padding.sites as usize
}

/// Writes the first line of the team of that name.
fn put_head<O: Output, T: TeamViews>(out: &mut O, name: &[u8], teams: &T, team: usize)
    ensures text { PutsText O.took out.old out.new (head_line name.now (saved_at (T.saved teams.now) team)) }
    ensures padding { (saved_at (T.saved teams.now) team).padding ≤ 16 }
{
    let sites = sites_of(teams.padding(team));
    put_line(
        out,
        &Word::Text(b"team"),
        &[
            Word::Text(name),
            Word::Count(teams.revision(team) as usize),
            Word::Count(sites),
            Word::Count(teams.slots(team).len()),
            Word::Count(teams.cell_count(team)),
            Word::Count(teams.entry_count(team)),
        ],
    );
}

/// Writes the lines of the team of that number.
fn put_team<O: Output, D: DesignSchema, T: TeamViews>(
    out: &mut O,
    design: &D,
    teams: &T,
    team: usize,
)
    ensures text { PutsText O.took out.old out.new
        (saved_team_lines (named_team_of (D.named design.now) team) (saved_at (T.saved teams.now) team)) }
    ensures in_range { IsSavedInRange (saved_at (T.saved teams.now) team) }
{
    put_head(out, name_of_team(design, team), teams, team);
    put_slots(out, teams.slots(team));
    put_cells(out, design, teams, team);
    put_entries(out, teams, team);
}

/// Writes the lines of the teams.
fn put_teams<O: Output, D: DesignSchema, T: TeamViews>(out: &mut O, design: &D, teams: &T)
    requires { length (T.saved teams.now) ≡ length (D.named design.now).teams }
    ensures text { PutsText O.took out.old out.new
        (lines_by saved_team_lines (D.named design.now).teams (T.saved teams.now)) }
    ensures in_range { All IsSavedInRange (T.saved teams.now) }
{
    for team in 0..design.team_count() {
        put_team(out, design, teams, team);
    }
}

/// Writes the title and the number of teams.
fn put_opening<O: Output>(out: &mut O, count: usize)
    ensures { PutsText O.took out.old out.new (opening_lines count) }
{
    put_line(out, &Word::Text(b"lefence-state"), &[Word::Text(b"1")]);
    put_line(out, &Word::Text(b"teams"), &[Word::Count(count)]);
}

/// Writes the state text of the design's teams, with the state in `teams`. Does not allocate.
pub fn write_state<O: Output, D: DesignSchema, T: TeamViews>(out: &mut O, design: &D, teams: &T)
    requires { length (T.saved teams.now) ≡ length (D.named design.now).teams }
    ensures text { PutsText O.took out.old out.new (state_text (D.named design.now) (T.saved teams.now)) }
    // Each place has a text, and each number can be read.
    ensures in_range { All IsSavedInRange (T.saved teams.now) }
{
    put_opening(out, design.team_count());
    put_teams(out, design, teams);
}
