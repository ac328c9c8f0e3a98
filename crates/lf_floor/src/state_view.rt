//! A floor as the contents of a state text.

ghost use Rattle.std.specs.Prelude.{All, ◌≡◌, ◌≤◌, List, ℕ, length, map, option_map, slice_get};
ghost use Rattle.lf_cells.specs.Cells.{cells_of};
ghost use Rattle.lf_io.specs.Output.{PutsText};
ghost use Rattle.lf_floor_model.specs.Teams.{team_names};
ghost use Rattle.lf_floor.specs.Saved.{IsStateText, design_names, saved_cell};
ghost use Rattle.lf_state_text.specs.Designs.{named_team_of};
ghost use Rattle.lf_state_text.specs.Saved.{IsSavedInRange, moves_within, saved_at, state_text};
ghost use Rattle.lf_floor.specs.SavedStates.{saved_teams_of};
ghost use Rattle.lf_floor_verbs.specs.Tables.{AreTables, floor_in};

use crate::floor::Floor;
use lf_cells::CellTable;
use lf_floor_verbs::Tables;
use lf_floorplan::{Frame, Limits, PackedPlace};
use lf_io::Output;
use lf_legalize::Seeker;
use lf_rules::Padding;
use lf_state_text::{DesignSchema, SavedCell, TeamViews, write_state};
use lf_undo::Moves;
use std::marker::Model;

/// Returns the name of the team of that number, the ground team's last. `None` if and only if there
/// is no such team.
pub fn team_name(frame: &Frame, team: usize) -> Option<&[u8]>
    ensures { option_map (λ name. name.now) result ≡ slice_get (team_names frame.now) team }
{
    match frame.teams.as_slice().get(team) {
        Some(fence) => Some(fence.name.as_bytes()),
        None => {
            if team != frame.teams.len() {
                return None;
            }
            Some(b"-")
        }
    }
}

/// Returns the name of the team's cell at that position. `None` if and only if there is no such
/// cell.
fn cell_name(cells: &CellTable, team: usize, own: usize) -> Option<&[u8]>
    ensures { option_map (λ name. name.now) result ≡ slice_get (map (λ c. c.name) (cells_of cells.now team)) own }
{
    let id = cells.cell_of(team, own)?;
    Some(cells.cell(id)?.name)
}

/// Returns the places of the team's cell at that position. `None` if and only if there is no such
/// cell.
fn saved_cell(cells: &CellTable, team: usize, own: usize) -> Option<SavedCell>
    ensures { result ≡ slice_get (map saved_cell (cells_of cells.now team)) own }
{
    let id = cells.cell_of(team, own)?;
    Some(SavedCell {
        working: PackedPlace::of(cells.working(id)),
        committed: PackedPlace::of(cells.committed(id)),
    })
}

/// A law: a frame has at most 1,024 fences.
pub(crate) fn fences_are_few(frame: &Frame)
    ensures { length frame.now.teams ≤ 1024 }
{
    let _most = frame.limits.fences;
    let _ = &frame.teams;
}

/// Returns the number of teams.
fn count_teams(tables: &Tables) -> usize
    requires { AreTables tables.now }
    ensures { result ≡ length (design_names (floor_in tables.now)).teams }
{
    tables.placement.frame().teams.len() + 1
}

/// Returns the name of the team of that number. `None` if and only if there is no such team.
fn name_of_team(tables: &Tables, team: usize) -> Option<&[u8]>
    requires { AreTables tables.now }
    ensures { option_map (λ name. name.now) result
        ≡ option_map (λ t. t.name) (slice_get (design_names (floor_in tables.now)).teams team) }
{
    team_name(tables.placement.frame(), team)
}

/// Returns the number of the team's cells; 0 if there is no such team.
fn count_cells(tables: &Tables, team: usize) -> usize
    requires { AreTables tables.now }
    ensures { result ≡ length (named_team_of (design_names (floor_in tables.now)) team).cells }
{
    if team > tables.placement.frame().teams.len() {
        return 0;
    }
    tables.placement.cells().cells_of(team).len()
}

/// Returns the name of the team's cell at that position. `None` if and only if there is no such
/// cell.
fn name_of_cell(tables: &Tables, team: usize, own: usize) -> Option<&[u8]>
    requires { AreTables tables.now }
    ensures { option_map (λ name. name.now) result
        ≡ slice_get (named_team_of (design_names (floor_in tables.now)) team).cells own }
{
    if team > tables.placement.frame().teams.len() {
        return None;
    }
    cell_name(tables.placement.cells(), team, own)
}

/// Returns the saved revision of the team; 0 if there is no such team.
fn saved_revision(tables: &Tables, team: usize) -> u32
    ensures { result ≡ (saved_at (saved_teams_of tables.now) team).revision }
{
    if team >= tables.revisions.len() {
        return 0;
    }
    tables.revision(team)
}

/// Returns the saved padding of the team; 0 if there is no such team.
fn reported_padding(tables: &Tables, team: usize) -> Padding
    ensures { result.sites ≡ (saved_at (saved_teams_of tables.now) team).padding }
{
    if team >= tables.revisions.len() {
        return Padding::none();
    }
    tables.padding(team)
}

/// Returns the saved session slots of the team. Empty if there is no such team.
fn reported_slots(tables: &Tables, team: usize) -> &[Option<u32>]
    ensures { result.now ≡ (saved_at (saved_teams_of tables.now) team).slots }
{
    if team >= tables.revisions.len() {
        return &[];
    }
    tables.sessions.slots(team)
}

/// Returns the number of the team's saved cells; 0 if there is no such team.
fn reported_cells(tables: &Tables, team: usize) -> usize
    ensures { result ≡ length (saved_at (saved_teams_of tables.now) team).cells }
{
    if team >= tables.revisions.len() {
        return 0;
    }
    tables.placement.cells().cells_of(team).len()
}

/// Returns the saved places of the team's cell at that position. `None` if and only if there is no
/// such cell.
fn reported_cell(tables: &Tables, team: usize, own: usize) -> Option<SavedCell>
    ensures { result ≡ slice_get (saved_at (saved_teams_of tables.now) team).cells own }
{
    if team >= tables.revisions.len() {
        return None;
    }
    saved_cell(tables.placement.cells(), team, own)
}

/// Returns the number of the team's saved undo entries; 0 if there is no such team.
fn reported_entries(tables: &Tables, team: usize) -> usize
    requires { AreTables tables.now }
    ensures { result ≡ length (saved_at (saved_teams_of tables.now) team).entries }
{
    if team >= tables.revisions.len() {
        return 0;
    }
    tables.undo.depth(team)
}

/// Returns the moves of the team's undo entry that has `newer` newer ones. `None` if and only if
/// there is no such entry.
fn reported_entry(tables: &Tables, team: usize, newer: usize) -> Option<&Moves>
    requires { AreTables tables.now }
    ensures { option_map
        (λ moves. moves_within (length (saved_at (saved_teams_of tables.now) team).cells) moves.now) result
        ≡ slice_get (saved_at (saved_teams_of tables.now) team).entries newer }
{
    if team >= tables.revisions.len() {
        return None;
    }
    tables.undo.at(team, newer)
}

/// The teams of a floor, by their names and with their present state. Contracts see the tables.
#[derive(Drop)]
pub(crate) struct StateView<'a> {
    pub(crate) tables: &'a Tables,
}

impl<'a> Model for StateView<'a> {
    ghost use Rattle.lf_floor_verbs.specs.declared.tables.Tables.{Tables as Kept};
    ghost use Rattle.lf_floor_verbs.specs.Tables.{AreTables};

    ghost Value = { Kept };

    ghost view = { λ t. t.tables.now };

    ghost invariant = { λ t. AreTables t.tables.now };
}

impl<'a> DesignSchema for StateView<'a> {
    ghost use Rattle.lf_floor_verbs.specs.Tables.{floor_in};
    ghost use Rattle.lf_floor.specs.Saved.{design_names};

    ghost named = { λ t. design_names (floor_in t) };

    fn limits(&self) -> Limits {
        self.tables.placement.frame().limits
    }

    fn team_count(&self) -> usize {
        count_teams(self.tables)
    }

    fn team_name(&self, team: usize) -> Option<&[u8]> {
        name_of_team(self.tables, team)
    }

    fn cell_count(&self, team: usize) -> usize {
        count_cells(self.tables, team)
    }

    fn cell_name(&self, team: usize, own: usize) -> Option<&[u8]> {
        name_of_cell(self.tables, team, own)
    }
}

impl<'a> TeamViews for StateView<'a> {
    ghost use Rattle.lf_floor.specs.SavedStates.{saved_teams_of};

    ghost saved = { λ t. saved_teams_of t };

    fn revision(&self, team: usize) -> u32 {
        saved_revision(self.tables, team)
    }

    fn padding(&self, team: usize) -> Padding {
        reported_padding(self.tables, team)
    }

    fn slots(&self, team: usize) -> &[Option<u32>] {
        reported_slots(self.tables, team)
    }

    fn cell_count(&self, team: usize) -> usize {
        reported_cells(self.tables, team)
    }

    fn cell(&self, team: usize, own: usize) -> Option<SavedCell> {
        reported_cell(self.tables, team, own)
    }

    fn entry_count(&self, team: usize) -> usize {
        reported_entries(self.tables, team)
    }

    fn entry(&self, team: usize, newer: usize) -> Option<&Moves> {
        reported_entry(self.tables, team, newer)
    }
}

/// Writes the state text of the tables.
pub(crate) fn write_tables<O: Output>(out: &mut O, tables: &Tables)
    requires { AreTables tables.now }
    ensures text { PutsText O.took out.old out.new
        (state_text (design_names (floor_in tables.now)) (saved_teams_of tables.now)) }
    ensures in_range { All IsSavedInRange (saved_teams_of tables.now) }
{
    let reported = StateView { tables };
    write_state(out, &reported, &reported);
}

/// Writes a state text of the tables.
fn put_tables<O: Output>(out: &mut O, tables: &Tables)
    requires { AreTables tables.now }
    ensures { (text : List ℕ) × IsStateText (floor_in tables.now) text × PutsText O.took out.old out.new text }
{
    fences_are_few(tables.placement.frame());
    write_tables(out, tables);
}

impl<S: Seeker + Drop> Floor<S> {
    /// Writes a text of the floor's state, from which `restore` restores the floor. Does not
    /// allocate. Only tests call it: the program writes a state by `snapshot`.
    pub fn write_state<O: Output>(&self, out: &mut O)
        ensures { (text : List ℕ) × IsStateText self.now text × PutsText O.took out.old out.new text }
    {
        put_tables(out, &self.tables);
    }
}
